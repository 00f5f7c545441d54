//! An engine that processes all pairs of a query over one shared memo, by rounds of workers. Each worker draws tickets, and
//! processes the pair of each: it loads the words of both sides, and offers the least word of their join.
//!
//! Begin with `Engine`: `prepare` takes all memory, and `run` leaves the least word of each set; `run_alone` does so without
//! any thread. A [`SeededEngine`] does the same where words of some sets are known before the run: it processes the pairs that
//! are left. It is made of three layers, each with its own module: one worker (`worker`), one round of all workers over a
//! group of pairs (`whole_round`), and one run over all buffers (`seeded`, which moves a `Producer` and a `Consumer` from
//! buffer to buffer, in `pipeline` or in `alone`). `threads` decides what goes to threads of its own.
#![tactic(auto)]

mod engine;
mod gate;
mod run;
mod seeded;
#[cfg(test)]
mod tests;
mod whole_round;
mod worker;

pub use engine::{Engine, Solved};
pub use gate::{Gate, OpenGate};
pub use memo_table::Words;
pub use seeded::SeededEngine;
pub use whole_round::round;
pub use worker::work;
