//! Greatest common divisors.
ghost use Rattle.std.specs.Prelude.{◌≡◌, ◌<◌, ◌/◌, ◌%◌};
ghost use Rattle.std.specs.Int.{IsGcd};
ghost use Rattle.fisca_num.specs.Halves.{IsHalved};

/// The greatest word.
pub(crate) const WORD: u128 = 0xffff_ffff_ffff_ffff;

/// `number / divisor`, without a division by 1.
pub(crate) fn quotient_by(number: u64, divisor: u64) -> u64
    requires { 0 < divisor }
    ensures { result ≡ number / divisor }
{
    if divisor == 1 {
        number
    } else {
        number / divisor
    }
}

/// `number / divisor`, by words where they do.
pub(crate) fn wide_quotient_by(number: u128, divisor: u64) -> u128
    requires { 0 < divisor }
    ensures { result ≡ number / divisor }
{
    if number <= WORD {
        u128::from(quotient_by(number as u64, divisor))
    } else {
        number / u128::from(divisor)
    }
}

/// The greatest common divisor of a number and a word.
pub(crate) fn gcd_with_word(a: u128, b: u64) -> u64
    requires { 0 < b }
    ensures { IsGcd a b result }
{
    if b == 1 {
        1
    } else if a <= WORD {
        gcd(a as u64, b)
    } else {
        gcd(b, (a % u128::from(b)) as u64)
    }
}

/// How often 2 divides a number.
pub(crate) fn halvings(number: u64) -> u32
    requires { 0 < number }
    ensures { IsHalved number result }
{
    number.trailing_zeros()
}

/// The greatest common divisor of two words, by differences without their twos.
pub(crate) fn gcd(a: u64, b: u64) -> u64
    ensures { IsGcd a b result }
{
    if a == 1 || b == 1 {
        return 1;
    }
    if a == 0 {
        return b;
    }
    if b == 0 {
        return a;
    }
    let twos = halvings(a);
    let more_twos = halvings(b);
    odd_gcd(a >> twos, b >> more_twos) << twos.min(more_twos)
}

/// The greatest common divisor of two odd numbers.
fn odd_gcd(a: u64, b: u64) -> u64
    requires a { a % 2 ≡ 1 }
    requires b { b % 2 ≡ 1 }
    ensures { IsGcd a b result }
{
    // a power of two leaves 1, which needs no steps
    if a == 1 || b == 1 {
        return 1;
    }
    let mut x = a;
    let mut y = b;
    while x != y {
        let twos = halvings(x.wrapping_sub(y));
        let less = x.min(y);
        y = y.abs_diff(x) >> twos;
        x = less;
    }
    x
}

/// The greatest common divisor: Euclid's steps until both are words.
pub(crate) fn wide_gcd(a: u128, b: u128) -> u128
    ensures { IsGcd a b result }
{
    let mut x = a;
    let mut y = b;
    while y >> 64 != 0 || x >> 64 != 0 {
        if y == 0 {
            return x;
        }
        let rest = x % y;
        x = y;
        y = rest;
    }
    u128::from(gcd(x as u64, y as u64))
}
