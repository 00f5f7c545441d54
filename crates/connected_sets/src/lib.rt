//! The connected sets of a join graph, one after the other, in work that is in proportion to their number.
//!
//! A connected set grows from its least relation by neighbours that are not excluded, in a recursion that is here a stack of at most
//! N_MAX calls, and takes no memory. Each set comes once, after the connected sets within it, so that what is known of these can
//! serve for it. A chain of twenty relations has 210 connected sets among a million sets.
//!
//! Begin with [`ConnectedSets`]; [`count_up_to`] counts them as far as a limit. [`Growth`] is what grows from one set beside
//! excluded relations, on which DPccp's second sides stand too. `specs/Lists.antt` is the same as list functions, and `laws` says
//! which sets they have.
#![tactic(auto)]

mod growth;
pub mod laws;
mod sets;
#[cfg(test)]
mod tests;

pub use growth::{Growth, neighbours_outside};
pub use sets::{ConnectedSets, count_up_to, greatest};
