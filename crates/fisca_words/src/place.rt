//! Where a word is told.

use super::{axes, calc, explain, rules, runs, situations, tests, values, yaml};

/// Where a word is told: one word may mean another thing in another place.
#[derive(Clone, Copy)]
pub enum Place {
    /// Of the YAML of any file.
    Yaml,
    /// Of rule files, and of folders, memory and the output.
    Rules,
    /// Of the situation in a file of a command.
    Situation,
    /// Of a file of `fisca calc`.
    Calc,
    /// Of a file of `fisca test`.
    Test,
    /// Of a file of `fisca run` or `fisca size`.
    Run,
    /// Of the command line of `fisca explain`.
    Explain,
    /// Of the command line of `fisca axes`.
    Axes,
    /// Of a value.
    Value,
}

impl Place {
    /// All places, in the order in which they are told.
    pub fn all() -> [Place; 9] {
        [
            Place::Yaml,
            Place::Rules,
            Place::Situation,
            Place::Calc,
            Place::Test,
            Place::Run,
            Place::Explain,
            Place::Axes,
            Place::Value,
        ]
    }

    /// How it is told, behind a word.
    pub fn title(self) -> &'static str {
        match self {
            Place::Yaml => "in any YAML file",
            Place::Rules => "of rule files",
            Place::Situation => "of a situation",
            Place::Calc => "in a file of fisca calc",
            Place::Test => "in a file of fisca test",
            Place::Run => "in a file of fisca run",
            Place::Explain => "of fisca explain",
            Place::Axes => "of fisca axes",
            Place::Value => "of a value",
        }
    }

    /// What a word means there, and what to do, in lines; `None` where it is not told there. This project's own words.
    pub fn meaning(self, word: &str) -> Option<&'static str> {
        match self {
            Place::Yaml => yaml::meaning(word),
            Place::Rules => rules::meaning(word),
            Place::Situation => situations::meaning(word),
            Place::Calc => calc::meaning(word),
            Place::Test => tests::meaning(word),
            Place::Run => runs::meaning(word),
            Place::Explain => explain::meaning(word),
            Place::Axes => axes::meaning(word),
            Place::Value => values::meaning(word),
        }
    }
}
