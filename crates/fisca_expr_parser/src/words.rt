//! Words that stand for values, and keywords that are left out.

ghost use Rattle.std.specs.Prelude.{◌≡◌};
ghost use Rattle.fisca_ast.specs.Words as spec;
ghost use Rattle.fisca_ast.specs.Steps.Words as steps;

use fisca_ast::is_name;

/// Whether a word stands for a value: a name, `True` or `False`.
#[tactic(auto, unfolding(fisca_ast::specs::Steps::Words::is_atom))]
pub(crate) fn is_atom(word: &[u8]) -> bool
    ensures { result ≡ steps.is_atom word.now }
{
    is_name(word) || word == b"True".as_slice() || word == b"False".as_slice()
}

/// Whether a keyword of one of Python's forms that are left out.
#[tactic(auto, unfolding(fisca_ast::specs::Words::is_left_out))]
pub(crate) fn is_left_out(word: &[u8]) -> bool
    ensures { result ≡ spec.is_left_out word.now }
{
    word == b"if".as_slice()
        || word == b"elif".as_slice()
        || word == b"else".as_slice()
        || word == b"for".as_slice()
        || word == b"while".as_slice()
        || word == b"and".as_slice()
        || word == b"or".as_slice()
        || word == b"not".as_slice()
}
