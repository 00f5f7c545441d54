//! The command line: its arguments in, the settings that they ask for out.
//!
//! The program has eight options, `--mode`, `--enumerator`, `--buffer`, `--workers`, `--model`, `--format`, `--stats` and
//! `--number`, each with one value and a default; no other argument is valid. Begin at [`settings`], which goes from the
//! arguments to [`Settings`] in three steps: `clap` checks them against one command (`command.rt`) and gives each option's
//! text; each text is looked up in its option's table or read as a number (`values.rt`); a missing one has its default
//! (`line.rt`). `specs/Line` says the same in a dozen lines, and `specs/Values` has the tables.
//!
//! To add a mode, give it a variant of [`Mode`], a line in the table `modes` of `specs/Values`, and the same in `mode_of`.
#![tactic(auto)]

mod choices;
mod command;
mod line;
#[cfg(test)]
mod tests;
mod usage;
mod values;

pub use choices::{Mode, Settings, WordFault};
pub use line::settings;
pub use usage::usage_line;
