//! Words of Python that are no names here.

ghost use Rattle.std.specs.Prelude.{◌≡◌};
ghost use Rattle.fisca_ast.specs.Steps.Words as spec;

/// Whether one of Python's keywords of two letters.
fn of_two(word: &[u8]) -> bool
    ensures { result ≡ spec.of_two word.now }
{
    word == b"as".as_slice()
        || word == b"if".as_slice()
        || word == b"in".as_slice()
        || word == b"is".as_slice()
        || word == b"or".as_slice()
}

/// Whether one of Python's keywords of three letters.
fn of_three(word: &[u8]) -> bool
    ensures { result ≡ spec.of_three word.now }
{
    word == b"and".as_slice()
        || word == b"def".as_slice()
        || word == b"del".as_slice()
        || word == b"for".as_slice()
        || word == b"not".as_slice()
        || word == b"try".as_slice()
}

/// Whether one of Python's keywords of four letters.
fn of_four(word: &[u8]) -> bool
    ensures { result ≡ spec.of_four word.now }
{
    word == b"elif".as_slice()
        || word == b"else".as_slice()
        || word == b"from".as_slice()
        || word == b"pass".as_slice()
        || word == b"True".as_slice()
        || word == b"with".as_slice()
}

/// Whether one of Python's keywords of five letters.
fn of_five(word: &[u8]) -> bool
    ensures { result ≡ spec.of_five word.now }
{
    word == b"async".as_slice()
        || word == b"await".as_slice()
        || word == b"break".as_slice()
        || word == b"class".as_slice()
        || word == b"False".as_slice()
        || word == b"raise".as_slice()
        || word == b"while".as_slice()
        || word == b"yield".as_slice()
}

/// Whether one of Python's keywords of six letters.
fn of_six(word: &[u8]) -> bool
    ensures { result ≡ spec.of_six word.now }
{
    word == b"assert".as_slice()
        || word == b"except".as_slice()
        || word == b"global".as_slice()
        || word == b"import".as_slice()
        || word == b"lambda".as_slice()
        || word == b"return".as_slice()
}

/// Whether one of Python's keywords of more letters.
fn of_more(word: &[u8]) -> bool
    ensures { result ≡ spec.of_more word.now }
{
    word == b"finally".as_slice()
        || word == b"continue".as_slice()
        || word == b"nonlocal".as_slice()
}

/// Whether one of Python's keywords. `None` counts as a name.
#[tactic(auto, unfolding(crate::specs::Steps::Words::is_keyword))]
fn is_keyword(word: &[u8]) -> bool
    ensures { result ≡ spec.is_keyword word.now }
{
    match word.len() {
        2 => of_two(word),
        3 => of_three(word),
        4 => of_four(word),
        5 => of_five(word),
        6 => of_six(word),
        _ => of_more(word),
    }
}

/// Whether a word may stand in a name's place: it is none of Python's keywords, `None` aside.
pub fn is_name(word: &[u8]) -> bool
    ensures { result ≡ spec.is_name word.now }
{
    !is_keyword(word)
}
