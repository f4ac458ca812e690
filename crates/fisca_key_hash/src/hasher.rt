//! The hash of keys.

ghost use Rattle.std.specs.Prelude.{◌≡◌, ◌<◌};
ghost use Rattle.fisca_key_hash.specs.Steps.KeyHashes.{placed, word};

use std::hash::Hasher;

/// By how much members lie apart, and by its square variables. Of the multiples of both the bits from the 16th on lie evenly in a table of any
/// size, as those of the golden ratio do on a circle: a search over multipliers found it.
const MULTIPLIER: u64 = 0x9fb3_1c96_4a71_4ae3;

/// By how much blocks of sixteen numbers lie apart; blocks are spread in the same way.
const BLOCK: u64 = 0xb65_18d7 * 16;

/// By how much the numbers of a block lie apart: one place, and eight highest bits that differ.
const PLACE: u64 = 0x9d00_0001;

/// Hashes keys so that those of one variable and member at periods that follow one another have hashes that do, sixteen in a row: an input
/// is shared and looked for over such periods, which then lie side by side in the table. Between rows hashes leap: days of ten years in one
/// row would fill the places of the next members.
///
/// A key is fed by three numbers, the last of which is that of its period. Whoever picks the keys can make them collide, as with the
/// default hasher.
#[derive(Clone, Copy)]
pub struct KeyHasher {
    state: u64,
}

impl Default for KeyHasher {
    ghost use Rattle.fisca_key_hash.specs.KeyHashes.{initial};

    ghost is_default = { λ h. h ≡ initial };

    fn default() -> KeyHasher {
        KeyHasher { state: 0 }
    }
}

impl Hasher for KeyHasher {
    ghost use Rattle.fisca_key_hash.specs.Steps.KeyHashes as spec;

    ghost write = { spec.write };

    ghost finish = { spec.finish };

    // the first month or day of a period stands above its size, of 16 bits
    #[inline(always)]
    fn finish(&self) -> u64 {
        placed((self.state >> 16) % (1 << 32))
    }

    #[inline(always)]
    fn write(&mut self, bytes: &[u8]) {
        self.state = self
            .state
            .wrapping_mul(MULTIPLIER)
            .wrapping_add(word(bytes));
    }
}

/// A number of 32 bits, whose blocks of sixteen leap and are in order in themselves. An index table takes one of its groups by the lowest
/// bits, and tells apart what stands in it by the eight highest.
#[inline(always)]
fn placed(number: u64) -> u64
    requires { number < 4_294_967_296 }
    ensures { result ≡ placed number }
{
    (number / 16 * BLOCK + number % 16 * PLACE) % (1 << 32)
}

/// The number of eight or of four bytes, the lowest first. No key feeds others, which count as 0.
#[inline(always)]
fn word(bytes: &[u8]) -> u64
    ensures { result ≡ word bytes.now }
{
    match bytes {
        [a, b, c, d, e, f, g, h] => u64::from_le_bytes([*a, *b, *c, *d, *e, *f, *g, *h]),
        [a, b, c, d] => u64::from(u32::from_le_bytes([*a, *b, *c, *d])),
        _ => 0,
    }
}
