//! The words of rule files, as docs/LANGUAGE.md has them. Only `bin/words --write` writes this file.

/// What a word means, and what to do.
pub fn meaning(word: &str) -> Option<&'static str> {
    match word {
        "Syntax" => Some(
            "  in a module: a bracket is not closed or closed too often, a quote is not
  closed, a keyword of Python stands where it has no place, a class or a
  formula has nothing below it, a formula has no return
  Do: correct the token that is told; at the end of a text its last one is
      told",
        ),
        "Indent" => Some(
            "  in a module: a line is indented by a tab, or deeper or less deep than its
  block
  Do: let the lines of a block begin in one column of spaces",
        ),
        "Unsupported" => Some(
            "  in a module: a form of Python that is left out, or a number with too many
  digits
  Do: write where(..) for an if, and '&', '|', '~' in the place of and, or,
      not; more stands in LANGUAGE.md below What Python has and this has not",
        ),
        "TooDeep" => Some(
            "  an expression of a module is higher than 120, or a formula has with its
  locals put in more than 20,000 nodes or a height above 120
  Do: take a part into a variable",
        ),
        "UnknownName" => Some(
            "  a name that no entity, Enum, local or argument of the formula gives: mostly
  a spelling, or a local that is used above its line
  Do: compare it with the declaration",
        ),
        "UnknownVariable" => Some(
            "  the text in person(\"...\", period), or the path behind parameters(period),
  names none that there is; node[e] lacks a child for a member of the Enum
  Do: compare it with the class, with the file's path and keys",
        ),
        "UnknownParameter" => Some(
            "  the text in person(\"...\", period), or the path behind parameters(period),
  names none that there is; node[e] lacks a child for a member of the Enum
  Do: compare it with the class, with the file's path and keys",
        ),
        "BadType" => Some(
            "  an operand, an argument or what is returned is of another type than the
  table of functions says: a bool minus a bool, a text in a sum, where with
  members of two Enums, a variable of type str or date in a formula
  Do: convert it (* 1.0, == E.member), or mend the declaration",
        ),
        "BadLevel" => Some(
            "  values of a group's members stand beside the group's own, or are returned; a
  variable of another entity is asked for
  Do: put them into sum, any or their kin; ask by person.household(..) or
      household.members(..)",
        ),
        "BadAttribute" => Some(
            "  an attribute or argument is missing, unknown, given twice or not of its
  form; no entity is the persons (told of entities.py where there is no
  module)
  Do: compare it with the table of attributes in LANGUAGE.md, or put
      entities.py into the folder",
        ),
        "TooLong" => Some(
            "  the file has more than 1 MiB
  Do: divide it",
        ),
        "BadParameter" => Some(
            "  of a date: values or a date is missing, a date does not exist or has one
  digit for its month or day
  Do: correct the line that is told
  of a key: a key stands beside dates (description beside bare dates: put the
  dates under values), a bracket has a key of its own, or a byte order mark
  makes the first key another one
  Do: correct the line that is told; save the file as UTF-8 without a byte
      order mark
  of a value: a value of a scale is no number (010, 1,5, 50%)
  Do: correct the line that is told",
        ),
        "DuplicateName" => Some(
            "  taxes.yaml stands beside taxes.yml or the folder taxes; two modules declare
  one variable, entity, role or member
  Do: rename or drop one; the later in the order of the paths is told",
        ),
        "BadScale" => Some(
            "  two brackets have one threshold at the instant
  Do: join them, or end one by null",
        ),
        "Undefined" => Some(
            "  no bracket of the scale has its threshold and its rate or amount at the
  instant
  Do: add an earlier date",
        ),
        "TooWide" => Some(
            "  a number or a sum has more digits than 63 bits hold
  Do: write it with fewer digits",
        ),
        "TooManyFiles" => Some(
            "  a rule set has more than 1,000 files, or its folders hold more than 100,000
  files and folders, links followed (no path is told)
  Do: leave out what is no rule, or divide it; look for a link that leads back",
        ),
        "cannot list" => Some(
            "  the folder or one in it is missing or may not be read or looked at (a link
  that leads nowhere or in a circle), or a name in it is not UTF-8
  Do: name the folder that holds parameters and variables",
        ),
        "cannot read" => Some(
            "  a file may not be read, is no regular file, or is no UTF-8 text
  Do: mend the file, or take it out of the rule set",
        ),
        "out of memory" => Some(
            "  the machine refused memory, or the output was closed
  Do: run it again",
        ),
        "write failed" => Some(
            "  the machine refused memory, or the output was closed
  Do: run it again",
        ),
        _ => None,
    }
}
