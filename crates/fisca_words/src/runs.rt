//! The words in a file of fisca run, as docs/LANGUAGE.md has them. Only `bin/words --write` writes this file.

/// What a word means, and what to do.
pub fn meaning(word: &str) -> Option<&'static str> {
    match word {
        "BadKey" => Some(
            "  another key; no axes (line 1), or an axis without name, count, min or max
  (line 1)
  Do: compare it with the keys that fisca run --help lists
  of a value: a value of another shape: a number that is none, a count or an
  index that is no whole number from 0 to 2^63-1, a period that is none
  Do: write a plain number, or a period such as 2017-01
  of a shape: a group or an axis of another shape (the line of axes); columns,
  filter or neutralize that are neither a scalar nor a list of scalars
  Do: let axes be a list of groups, and each a list of axes",
        ),
        "BadNeutral" => Some(
            "  a name to neutralise is no variable's, or that of a day or a text
  Do: compare it with the class",
        ),
        "NoAxes" => Some(
            "  no axes, or a group without any
  Do: write one axis at least, or use fisca calc",
        ),
        "BadCount" => Some(
            "  a count or a bound past its limits
  Do: take a count from 1 to 1048576, and bounds of at most 10^9 with at most
      3 decimals",
        ),
        "BadBound" => Some(
            "  a count or a bound past its limits
  Do: take a count from 1 to 1048576, and bounds of at most 10^9 with at most
      3 decimals",
        ),
        "CountsDiffer" => Some(
            "  the axes of a group have not one count: the first that differs
  Do: give them one count, or make them groups of their own",
        ),
        "TooLarge" => Some(
            "  more than 16 axes, or more than 2^32 positions
  Do: take smaller counts, or several files",
        ),
        "UnknownVariable" => Some(
            "  axis by axis: the variable is not there or has no numbers; there is no such
  member; no period, or one that the variable is given no values for
  Do: compare the axis with the class and with the input; an index counts from
      0",
        ),
        "BadIndex" => Some(
            "  axis by axis: the variable is not there or has no numbers; there is no such
  member; no period, or one that the variable is given no values for
  Do: compare the axis with the class and with the input; an index counts from
      0",
        ),
        "PeriodMismatch" => Some(
            "  axis by axis: the variable is not there or has no numbers; there is no such
  member; no period, or one that the variable is given no values for
  Do: compare the axis with the class and with the input; an index counts from
      0",
        ),
        "AxisOverlap" => Some(
            "  an axis meets an earlier one, or an input, as said above
  Do: take that input out, or give the axis another period or index",
        ),
        "BadColumn" => Some(
            "  a column is none, as in a file of fisca calc
  Do: write NAME#INDEX@PERIOD, without blanks, with an index from 0 on and a
      period that the variable has",
        ),
        "BadCondition" => Some(
            "  a condition has not this form, or its constant is not of the variable's type
  Do: write COLUMN >= NUMBER, or another comparison",
        ),
        "BadPosition" => Some(
            "  a start or an end above the number of positions
  Do: ask fisca size",
        ),
        _ => None,
    }
}
