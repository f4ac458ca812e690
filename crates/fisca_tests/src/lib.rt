//! Tests of the libraries, through their public calls, that need code: sinks and writers that fail, folders that a test makes
//! up, texts that are made or drawn by lot. All that is a call with texts is a case of `fisca_cases`, and what the program
//! does is shown by the command lines under `tests/`. A crate with tests of its own is proved twice, so they stand above all.
#![tactic(auto)]

#[cfg(test)]
mod folder;
#[cfg(test)]
mod lines;
#[cfg(test)]
mod modules;
#[cfg(test)]
mod num;
#[cfg(test)]
mod syntax;
#[cfg(test)]
mod time;
#[cfg(test)]
mod yaml;
