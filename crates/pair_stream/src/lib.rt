//! Streams of pairs, as every enumerator gives them, the connected sets by size, and DPsub.
//!
//! A [`PairStream`] is seen as the list of the pairs that it has left. What a search needs of this list are two properties that
//! each enumerator's constructor promises: it is complete, having each csg-cmp-pair of the graph once, and ordered, each pair
//! standing after those that build its sides (`specs/Orders.antt`). So a search needs to know no enumerator.
//!
//! Begin with `stream.rt`. [`DpSub`] is the simplest enumerator: all unions ascending, and all splits of each. [`Parts`] are the
//! connected sets of each size in the order of their lists of members, on which the enumerators by sizes stand. [`Filtered`] is a
//! stream that leaves out pairs of another one.
#![tactic(auto)]

mod collect;
mod dpsub;
mod filtered;
pub mod laws;
mod parts;
mod stream;
#[cfg(test)]
mod tests;

pub use collect::collect_pairs;
pub use dpsub::DpSub;
pub use filtered::{Filtered, PairTest};
pub use parts::Parts;
pub use stream::PairStream;
