//! The top call: the arguments of the command line, a source and a sink in, a status out.
//!
//! Begin at [`dpe`] in `call.rt`: its clauses are the promise of the whole program, and its body is the way of every run.
//! The arguments become settings (`dpe_words`), the mode of the settings decides whether the source is read, the answer is
//! made whole in memory, and then it is written. What a mode does stands in `modes/NAME.rt`, as a function from the bytes to
//! a `Reply`, and what it is to answer in `specs/Modes/NAME.antt`; `specs/Reply` says the same of the whole call.
//! `planning.rt` is the one way to a plan: the settings, the threads and the gate, over the crate `planner`.
//! `laws.rt` has what follows from the definitions alone, such as that the number of workers never shows.
#![tactic(auto)]

mod batch;
mod call;
mod classes;
pub mod laws;
mod lines;
mod modes;
mod planning;
mod reply;
mod status;
#[cfg(test)]
mod tests;

pub use call::dpe;
pub use dpe_words::{Mode, Settings, WordFault, settings, usage_line};
pub use planner::{Gate, OpenGate};
pub use status::Status;

/// The most bytes of a workload.
pub const INPUT_MAX: usize = 8_388_608;
