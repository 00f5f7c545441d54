//! Join trees: which are legal, what they cost, and which is the best over a set of relations.
//!
//! A legal tree has no cross product: the two sides of each join have no relation in common and are joined by a predicate. Its
//! cost is the sum over its joins, and its word adds the operator of its root and its left set. The plan over a set is the one
//! legal tree in which every subtree has the least word of its set.
//!
//! Begin with [`Tree`] and its four calls. `specs/Trees.antt` defines the best words, the plan, and the trees that a list of pairs
//! makes; `laws` has the theory by which dynamic programming is right: optimal substructure, that the pairs of a query make
//! exactly the legal trees, and that a connected set has one plan.
#![tactic(auto)]

pub mod laws;
mod plan;
#[cfg(test)]
mod tests;
mod tree;

pub use plan::{build, tree_of_words};
pub use tree::Tree;
