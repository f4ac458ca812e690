//! The words in any YAML file, as docs/LANGUAGE.md has them. Only `bin/words --write` writes this file.

/// What a word means, and what to do.
pub fn meaning(word: &str) -> Option<&'static str> {
    match word {
        "Tab" => Some(
            "  a line is indented by a tab
  Do: indent by spaces",
        ),
        "BadIndent" => Some(
            "  a description or another text goes on in the next line; a line stands one
  space too far to the right or left
  Do: write the text in one line, or below '|'; let the entries of a map, and
      the items of a list, begin in one column",
        ),
        "DuplicateKey" => Some(
            "  an entry was copied and its key left as it was
  Do: rename or drop the second; its line is told",
        ),
        "BadFlow" => Some(
            "  a '[' or '{' is not closed in its line, {a:1} has no blank behind the colon,
  or a text begins with ',', ']' or '}'
  Do: close it in its line, or write a map or list over several lines without
      brackets; put the text in quotes",
        ),
        "BadQuote" => Some(
            "  a quote is not closed in its line, a backslash stands in double quotes
  (\"C:\\dir\"), or something follows the closing quote
  Do: use single quotes, and in them two for one",
        ),
        "Unsupported" => Some(
            "  a text holds a colon and a blank (a: b: c); a text begins with '*', '&',
  '!', '%' or '@'; a value stands in the line below its key; a file has a
  second '---'
  Do: put the text in quotes; put the value beside its key; make one file of
      each document",
        ),
        "TooDeep" => Some(
            "  more than 16 lists and maps stand in one another
  Do: take a part into a file of its own",
        ),
        _ => None,
    }
}
