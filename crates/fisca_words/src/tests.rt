//! The words in a file of fisca test, as docs/LANGUAGE.md has them. Only `bin/words --write` writes this file.

/// What a word means, and what to do.
pub fn meaning(word: &str) -> Option<&'static str> {
    match word {
        "UseReform" => Some(
            "  the key reforms or extensions
  Do: take it out, and name the folder of the reform by --reform",
        ),
        "BadTest" => Some(
            "  another key; no output (the test's first line); a period that is none; a
  margin that is no number from 0 up; another shape than the table says; an
  item that is no map
  Do: compare the line with the keys that fisca test --help lists",
        ),
        "BadOutput" => Some(
            "  of the shape: output is no map; a list of another length, or for one member
  Do: write a map of variables, or of entities, with a value for each member
  of a key: a key is no entity's beside others that are, or an entity stands
  twice; a name is no variable's that can be asked for, or no member's; an
  entity's key where there is not just one member
  Do: compare it with the class and with the test's input
  of a value: a period at which the variable has no value; a value that is not
  of its type, or nothing
  Do: write a value of the variable's type at a period of its own",
        ),
        _ => None,
    }
}
