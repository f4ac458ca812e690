//! The words of a value, as docs/LANGUAGE.md has them. Only `bin/words --write` writes this file.

/// What a word means, and what to do.
pub fn meaning(word: &str) -> Option<&'static str> {
    match word {
        "ZeroDivisor" => Some(
            "  a formula divides by 0
  Do: take the quotient in where, behind a condition on its divisor",
        ),
        "TooWide" => Some(
            "  a number has a part beyond 2^63-1, or the result of an int variable is no
  number of 32 bits
  Do: look for a product of many factors or of unlike fractions; take a
      smaller unit",
        ),
        "ParameterUndefined" => Some(
            "  a parameter has no value when the period starts, or no bracket of a scale
  has one
  Do: add an earlier date, or end the variable",
        ),
        "BadScale" => Some(
            "  two brackets of a scale have one threshold when the period starts
  Do: join them, or end one by null",
        ),
        "NoMember" => Some(
            "  min or max over no person
  Do: ask nb_persons first, in where",
        ),
        "PeriodOutOfRange" => Some(
            "  a period is moved out of the years 1 to 9999, or a month or a year by days
  Do: end the formula's look back by a condition, or by an input",
        ),
        "PeriodMismatch" => Some(
            "  a formula asks for a key whose variable has no value at that period: a month
  of a YEAR variable without DIVIDE, a year of a MONTH variable without ADD,
  an ADD over parts that are longer. The key is the one that is asked for
  Do: use options=[ADD] or [DIVIDE], or another period",
        ),
        "Cycle" => Some(
            "  a key needs itself. The key is the first of the chain that comes again
  Do: let one of them depend on an earlier period, or give an input",
        ),
        "TooDeep" => Some(
            "  more than a hundred keys need one another in a chain. The key is the one
  that was asked for: that of the column, the condition or the output
  Do: give an input in the middle: step: {2008-01: 96}",
        ),
        _ => None,
    }
}
