//! The words of a case's line.

use crate::fault::BaseFault;
use std::alloc::{AllocError, Global};
use std::mem;
use std::str::FromStr;

/// Where a word stands that is being read.
#[derive(Clone, Copy, Debug, PartialEq, Eq)]
enum Place {
    Between,
    Bare,
    Quoted,
    Escaped,
}

/// The words that were read, and the one that is being read.
#[derive(Drop)]
pub struct Words {
    done: Vec<String>,
    word: String,
    place: Place,
}

impl Words {
    /// No words.
    pub fn new(alloc: Global) -> Words {
        Words {
            done: Vec::new(alloc),
            word: String::new(alloc),
            place: Place::Between,
        }
    }

    /// Takes the next character of the line.
    pub fn take(&mut self, alloc: Global, c: char) -> Result<(), AllocError> {
        match (self.place, c) {
            (Place::Between, ' ') => Ok(()),
            (Place::Between, '"') => {
                self.place = Place::Quoted;
                Ok(())
            }
            (Place::Bare, ' ') | (Place::Quoted, '"') => self.end(alloc),
            (Place::Quoted, '\\') => {
                self.place = Place::Escaped;
                Ok(())
            }
            (Place::Between | Place::Bare, _) => self.push(c, Place::Bare),
            (Place::Quoted, _) => self.push(c, Place::Quoted),
            (Place::Escaped, _) => self.push(escaped(c), Place::Quoted),
        }
    }

    /// The words, the last of which ends with the line.
    pub fn finish(mut self, alloc: Global) -> Result<Vec<String>, AllocError> {
        if self.place != Place::Between {
            self.end(alloc)?;
        }
        Ok(self.done)
    }

    fn push(&mut self, c: char, place: Place) -> Result<(), AllocError> {
        self.place = place;
        self.word.push(c)
    }

    fn end(&mut self, alloc: Global) -> Result<(), AllocError> {
        self.place = Place::Between;
        let word = mem::replace(&mut self.word, String::new(alloc));
        Ok(self.done.push(word)?)
    }
}

/// The character that an escape stands for.
fn escaped(c: char) -> char {
    match c {
        'n' => '\n',
        'r' => '\r',
        't' => '\t',
        other => other,
    }
}

/// The only word.
pub fn one(words: &[String]) -> Result<&str, BaseFault> {
    match words {
        [a] => Ok(a.as_str()),
        _ => Err(BaseFault::Malformed),
    }
}

/// Just two words.
pub fn two(words: &[String]) -> Result<(&str, &str), BaseFault> {
    match words {
        [a, b] => Ok((a.as_str(), b.as_str())),
        _ => Err(BaseFault::Malformed),
    }
}

/// Just three words.
pub fn three(words: &[String]) -> Result<(&str, &str, &str), BaseFault> {
    match words {
        [a, b, c] => Ok((a.as_str(), b.as_str(), c.as_str())),
        _ => Err(BaseFault::Malformed),
    }
}

/// A number that a library is called with.
pub fn number<N: FromStr>(word: &str) -> Result<N, BaseFault>
where
    N::Err: Drop,
{
    match word.parse() {
        Ok(number) => Ok(number),
        Err(_) => Err(BaseFault::Malformed),
    }
}

/// A limit of lines, or none for `-`.
pub fn limit(word: &str) -> Result<Option<u64>, BaseFault> {
    if word == "-" {
        return Ok(None);
    }
    Ok(Some(number(word)?))
}
