//! A law of modules.

ghost use Rattle.std.specs.Prelude.{◌≡◌, ℕ, List};
ghost use Rattle.fisca_parser.specs.Grammar.{IsModule};
ghost use Rattle.fisca_ast.specs.Modules.{Statement};

/// A text has one module at most.
pub fn each_text_has_one_module()
    ensures { (text : List ℕ) (a b : List Statement) → IsModule text a → IsModule text b → a ≡ b }
{}
