//! The words of a situation, as docs/LANGUAGE.md has them. Only `bin/words --write` writes this file.

/// What a word means, and what to do.
pub fn meaning(word: &str) -> Option<&'static str> {
    match word {
        "UnknownEntity" => Some(
            "  a key is no entity's beside others that are, or an entity stands twice, by
  its key and by its plural
  Do: write the plural of an entity of entities.py, once",
        ),
        "UnknownVariable" => Some(
            "  a key below a member is no variable of its entity, and no role of its group
  Do: compare it with the class; put it below the member whose entity has it",
        ),
        "UnknownPerson" => Some(
            "  a name in a role is no person's; or there is no person at all
  Do: write the person's name as it stands below the persons",
        ),
        "PersonTwice" => Some(
            "  a person stands in two groups of a kind, or twice in one
  Do: leave the person in one role of one group",
        ),
        "RoleFull" => Some(
            "  a role has more persons than it may have
  Do: put some into another role, or raise max in entities.py",
        ),
        "BadValue" => Some(
            "  a value is not of the variable's type; something has another shape than it
  should, as a person whose map is missing; a share is too wide a number
  Do: write a number without a unit, true or false, or a member of the Enum,
      as the variable's type wants it",
        ),
        "PeriodMismatch" => Some(
            "  no period where one is needed, a text that is none, or a period that does
  not fit the variable
  Do: write 2017 for a year, 2017-01 for a month, 2017-01-01 for a day",
        ),
        "InconsistentInput" => Some(
            "  two inputs of one member, variable and period, as 2017-01 and 2017-1; or a
  divided input that leaves something where no part is free
  Do: leave one of them out",
        ),
        "TooMany" => Some(
            "  more members or inputs than the limits say
  Do: divide the file",
        ),
        _ => None,
    }
}
