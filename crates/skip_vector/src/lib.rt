//! Sets of one size with skip vectors: a scan for a disjoint set leaps over all entries that share a blocking prefix.
//!
//! The entries stand in the order of their lists of members. Where an entry has a relation in common with the set `x` at hand, so do all
//! that follow it and begin with the same members up to this relation, and its skip vector says where they end.
//!
//! Begin with `next_free` in `scan.rt`, which finds the next entry that is disjoint from `x` and counts each entry that it looks at;
//! [`SkipPart`] has the entries and their vectors. `laws` says which entries are looked at.
#![tactic(auto)]

mod column;
pub mod laws;
mod prefix;
mod scan;
mod skip_part;
#[cfg(test)]
mod tests;

pub use scan::Free;
pub use skip_part::SkipPart;
