//! Why a key has no value, as a test tells it.

use fisca_model::{EvalFault, Key};

/// Why a key has no value, as a test tells it: by a plain name, and the key that the fault is told of, if there is one.
pub trait KeyFault {
    ghost use Rattle.std.specs.Prelude.{◌≡◌, ℕ, List, Option};
    ghost use Rattle.fisca_model.specs.declared.key.Key.{Key};

    // the plain name
    ghost fault_name: { Self → List ℕ };

    // the key that it is told of
    ghost fault_key: { Self → Option Key };

    /// The plain name, as `ZeroDivisor`.
    fn name(&self) -> &'static str
        ensures { result.now ≡ fault_name self.now };

    /// The key that it is told of.
    fn key(&self) -> Option<Key>
        ensures { result ≡ fault_key self.now };
}

impl KeyFault for EvalFault {
    ghost use Rattle.fisca_model.specs.EvalFaults.{name_of};
    ghost use Rattle.fisca_test_file.specs.KeyFaults.{key_told};

    ghost fault_name = { name_of };

    ghost fault_key = { key_told };

    fn name(&self) -> &'static str {
        EvalFault::name(*self)
    }

    fn key(&self) -> Option<Key> {
        EvalFault::key(*self)
    }
}
