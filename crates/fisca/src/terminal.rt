//! What a terminal shows below the line of a refusal: the lines of the file around the one that it names, what its word means, and
//! what to do.

use fisca_folder::{ToldPath, told_path, write_shown};
use fisca_params::SourceFile;
use fisca_words::Place;
use std::alloc::{AllocError, Global};

/// So many lines are shown before the one that is told, and behind it.
const BESIDE: usize = 2;

/// The file that a command reads beside the rule files.
#[derive(Clone, Copy)]
pub struct OwnFile<'a> {
    /// How it was named.
    pub path: &'a str,
    /// Its text.
    pub text: &'a str,
    /// Where its words are told.
    pub place: Place,
}

/// The texts that a refusal may speak of.
#[derive(Clone, Copy)]
pub struct Texts<'a> {
    /// The rule files.
    pub files: &'a [SourceFile],
    /// How their paths are told.
    pub told: &'a [ToldPath],
    /// The files of tests, by their paths.
    pub tests: &'a [SourceFile],
    /// The command's own file; its path is empty where it has none.
    pub own: OwnFile<'a>,
}

impl<'a> Texts<'a> {
    /// The text of the file that is told by this path, and where its words are told; `None` where there is no such file.
    fn find(self, path: &str) -> Option<(&'a str, Place)> {
        for file in self.files {
            if told_path(self.told, file.path()) == path {
                return Some((file.text(), Place::Rules));
            }
        }
        for file in self.tests {
            if file.path() == path {
                return Some((file.text(), Place::Test));
            }
        }
        if self.own.path == path {
            Some((self.own.text, self.own.place))
        } else {
            None
        }
    }
}

/// What the line of a refusal tells.
#[derive(Clone, Copy)]
struct Refused<'a> {
    /// The file and its line, if it names one.
    place: Option<(&'a str, usize)>,
    word: &'a str,
}

/// What `fisca: PATH:LINE: WORD` tells behind its first word.
fn refused_in_file(told: &str) -> Option<Refused<'_>> {
    let (place, word) = told.rsplit_once(": ")?;
    let (path, number) = place.rsplit_once(':')?;
    let line = number.parse::<usize>().ok()?;
    if word.contains(' ') {
        return None;
    }
    Some(Refused {
        place: Some((path, line)),
        word,
    })
}

/// The word of a line that names no line of a file: two words where the machine refused, else the first one, behind a position.
fn word_alone(told: &str) -> &str {
    for words in [
        "cannot list",
        "cannot read",
        "out of memory",
        "write failed",
    ] {
        if told.starts_with(words) || told.ends_with(words) {
            return words;
        }
    }
    let told = match told.strip_prefix("position ") {
        Some(rest) => rest.split_once(": ").map_or(rest, |(_, behind)| behind),
        None => told,
    };
    told.split_once(' ').map_or(told, |(word, _)| word)
}

/// What the line of a refusal tells; `None` where it tells none.
fn refused_by(line: &str) -> Option<Refused<'_>> {
    let told = line.strip_prefix("fisca: ")?;
    match refused_in_file(told) {
        Some(refused) => Some(refused),
        None => Some(Refused {
            place: None,
            word: word_alone(told),
        }),
    }
}

/// What a terminal shows below the line of a refusal, of these texts, if they were read; empty where it is none.
pub fn shown_below(
    alloc: Global,
    line: &str,
    texts: Option<Texts<'_>>,
) -> Result<String, AllocError> {
    let mut shown = String::new(alloc);
    let Some(refused) = refused_by(line) else {
        return Ok(shown);
    };
    let places = match (texts, refused.place) {
        (Some(texts), Some((path, number))) => write_place(alloc, texts, path, number, &mut shown)?,
        (Some(texts), None) => [Place::Value, texts.own.place, Place::Rules, Place::Yaml],
        (None, _) => [Place::Rules, Place::Yaml, Place::Rules, Place::Yaml],
    };
    write_meaning(refused.word, &places, &mut shown)?;
    Ok(shown)
}

/// Appends the lines of a file around the one of this number, or that there is no such file, and answers where its words are told.
fn write_place(
    alloc: Global,
    texts: Texts<'_>,
    path: &str,
    number: usize,
    shown: &mut String,
) -> Result<[Place; 4], AllocError> {
    match texts.find(path) {
        Some((text, place)) => {
            write_lines(alloc, text, number, shown)?;
            Ok(places_of(place, path))
        }
        None => {
            shown.push_str("\n  There is no such file.\n")?;
            Ok(places_of(Place::Rules, path))
        }
    }
}

/// Where the words of a file are told, the likeliest first.
fn places_of(place: Place, path: &str) -> [Place; 4] {
    match place {
        Place::Rules if path.ends_with(".py") => [Place::Rules, place, place, place],
        Place::Rules => [Place::Yaml, Place::Rules, place, place],
        Place::Explain => [Place::Calc, Place::Situation, Place::Yaml, Place::Rules],
        Place::Yaml
        | Place::Situation
        | Place::Calc
        | Place::Test
        | Place::Run
        | Place::Axes
        | Place::Value => [place, Place::Situation, Place::Yaml, Place::Rules],
    }
}

/// Appends the lines of a text around the one of this number, with their numbers.
fn write_lines(
    alloc: Global,
    text: &str,
    number: usize,
    shown: &mut String,
) -> Result<(), AllocError> {
    let mut here = 0usize;
    shown.push('\n')?;
    for line in text.lines() {
        here = here.saturating_add(1);
        if here.abs_diff(number) <= BESIDE {
            let mark = if here == number { '>' } else { ' ' };
            shown.push(mark)?;
            write_number(alloc, here, number.saturating_add(BESIDE), shown)?;
            shown.push_str(" | ")?;
            write_shown(line, shown)?;
            shown.push('\n')?;
        }
    }
    Ok(())
}

/// Appends a number, with blanks before it where the last one is longer.
fn write_number(
    alloc: Global,
    number: usize,
    last: usize,
    shown: &mut String,
) -> Result<(), AllocError> {
    let text = format!(in alloc; "{number}")?;
    let longest = format!(in alloc; "{last}")?;
    for _ in text.len()..longest.len() {
        shown.push(' ')?;
    }
    shown.push_str(text.as_str())
}

/// Appends what a word means in the first of these places that has it, and what to do.
fn write_meaning(word: &str, places: &[Place], shown: &mut String) -> Result<(), AllocError> {
    for place in places {
        if let Some(text) = place.meaning(word) {
            shown.push('\n')?;
            return write_entry(word, *place, text, shown);
        }
    }
    Ok(())
}

/// Appends what a word means in a place, and what to do.
fn write_entry(word: &str, place: Place, text: &str, shown: &mut String) -> Result<(), AllocError> {
    shown.push_str(word)?;
    shown.push(' ')?;
    shown.push_str(place.title())?;
    shown.push_str(":\n")?;
    shown.push_str(text)?;
    shown.push('\n')
}

/// What a word means in each place that has it, and what to do; empty where none has it.
pub fn help_on(alloc: Global, word: &str) -> Result<String, AllocError> {
    let mut shown = String::new(alloc);
    for place in Place::all() {
        if let Some(text) = place.meaning(word) {
            write_entry(word, place, text, &mut shown)?;
        }
    }
    Ok(shown)
}
