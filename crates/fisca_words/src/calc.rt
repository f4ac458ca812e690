//! The words in a file of fisca calc, as docs/LANGUAGE.md has them. Only `bin/words --write` writes this file.

/// What a word means, and what to do.
pub fn meaning(word: &str) -> Option<&'static str> {
    match word {
        "BadKey" => Some(
            "  another key; a period that is none; columns that are neither a scalar nor a
  list of scalars; a file that is no map (line 1)
  Do: write period: 2017-01, input and columns",
        ),
        "BadColumn" => Some(
            "  a column has not this form, or its variable, member or period is not there
  Do: write NAME#INDEX@PERIOD, without blanks, with an index from 0 on and a
      period that the variable has",
        ),
        _ => None,
    }
}
