//! The join graph of a query: which relations its predicates join, and which sets are connected.
//!
//! A set is connected where a predicate crosses each split of it into two parts. A csg-cmp-pair is two connected sets that
//! have no relation in common and are joined by a predicate; the one with the least relation stands first. These pairs are what
//! the enumerators list, and the joins of a tree without cross products are made of them.
//!
//! Begin with [`Graph`]: `of` a query, `neighbours` of a set, `connected`, `joined`, and `first_unreached`, by which a query is
//! refused that falls apart. Its definitions are in `specs/Graphs.antt`, and what holds of every graph in `laws`.
#![tactic(auto)]

mod graph;
pub mod laws;
#[cfg(test)]
mod tests;

pub use graph::Graph;
