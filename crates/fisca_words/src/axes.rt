//! The words of fisca axes, as docs/LANGUAGE.md has them. Only `bin/words --write` writes this file.

/// What a word means, and what to do.
pub fn meaning(word: &str) -> Option<&'static str> {
    match word {
        "BadWord" => Some(
            "  a word has not the form of an axis
  Do: write NAME=MIN..MAX/COUNT",
        ),
        "BadCount" => Some(
            "  a count or a bound past its limits
  Do: take a count from 1 to 1048576, and bounds of at most 10^9 with at most
      3 decimals",
        ),
        "BadBound" => Some(
            "  a count or a bound past its limits
  Do: take a count from 1 to 1048576, and bounds of at most 10^9 with at most
      3 decimals",
        ),
        "TooLarge" => Some(
            "  more than 16 axes, or more than 2^32 positions
  Do: take smaller counts, or several calls",
        ),
        "AxisOverlap" => Some(
            "  two axes of one name
  Do: rename one",
        ),
        "BadCondition" => Some(
            "  the condition has not its form, or names no axis
  Do: write NAME>=NUMBER, or another comparison",
        ),
        "BadPosition" => Some(
            "  the position of --from or --to is above the number of positions
  Do: take a position from 0 to the number of positions",
        ),
        _ => None,
    }
}
