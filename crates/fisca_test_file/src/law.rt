//! Laws of tests, each as the contract of a function that does nothing.

ghost use Rattle.std.specs.Prelude.{◌≡◌, ℕ, Ok};
ghost use Rattle.fisca_symbols.specs.declared.tables.Tables.{Tables};
ghost use Rattle.fisca_test_file.specs.Read.{IsRead};
ghost use Rattle.fisca_test_file.specs.Tests.{Test};
ghost use Rattle.fisca_test_file.specs.Steps.Tests.{test_of};
ghost use Rattle.fisca_yaml.specs.Node.{Node};

/// Law: the situation of each test was read from an input.
pub fn situations_are_read()
    ensures { (c : Tables) (line : ℕ) (n : Node) (t : Test) → test_of c line n ≡ Ok t → IsRead c t.situation }
{}
