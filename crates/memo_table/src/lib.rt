//! The memo that workers share without locks: a counter, and for each set of relations the word of the best tree that any of
//! them has found.
//!
//! A worker steps with a seat, and each step is one atomic load, minimum or sum. Between any two steps, in whatever order threads
//! take them, a word is `EMPTY` or that of a tree over its set, and only falls; what a seat knows stays true; and the tickets of all
//! seats are the numbers below the counter, each once. The seats' weights sum to `WEIGHT`: who holds all of it knows all tickets,
//! and its least bound of a set is the set's word. No call waits for another. Nothing is said of progress, fairness or time.
//!
//! Begin with [`Memo`]: `make`; `load`, `offer` and `draw`; `split` and `join`, for other threads; and `finish`, which gives the
//! [`Words`]. What holds between any two steps is `specs/Rule.antt`, and `rule.rt` gives it to the table of words.
#![tactic(auto)]

mod finish;
mod key;
pub mod laws;
mod make;
mod memo;
mod rule;
mod seat;
mod share;
mod steps;
#[cfg(test)]
mod tests;
mod view;

pub use finish::Words;
pub use memo::Memo;
pub use seat::MemoSeat;
pub use view::{TreeSpace, View};
