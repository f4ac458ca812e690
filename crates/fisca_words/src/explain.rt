//! The words of fisca explain, as docs/LANGUAGE.md has them. Only `bin/words --write` writes this file.

/// What a word means, and what to do.
pub fn meaning(word: &str) -> Option<&'static str> {
    match word {
        "BadWord" => Some(
            "  a word has not the form of a column, or its variable, member or period is
  not there
  Do: write NAME#INDEX@PERIOD, as in the columns of the file",
        ),
        _ => None,
    }
}
