//! Plan spaces: the cheapest plans that an engine of limited means can run.
//!
//! Many engines run only left-deep or zig-zag plans, or want no join of two wide intermediate results. A [`Class`] says which joins a tree
//! may have: in a narrow tree one side of each join has at most two relations, in a zig-zag tree one side is a relation, in a left-deep
//! tree the right side is.
//!
//! Begin with [`Class`] and `specs/Classes.antt`, which defines the trees of a class, their least words and the plan. For `Narrow`, work
//! through the pairs of any enumerator by [`Thin`] of width 2, and for `ZigZag` through [`ZigZagPairs`]: the least words over these pairs
//! are those of the class. `LeftDeep` tells the two orders of a pair apart, so [`left_words`] makes its words without a list of pairs.
//! [`build_class`] reads the plan from the words of a class. [`laws`] has the theory: that the pairs make the trees of the class, that each
//! connected set has one plan in it, and that a narrower class never costs less.
#![tactic(auto)]

mod build;
mod class;
pub mod laws;
mod left_deep;
#[cfg(test)]
mod tests;
mod thin;
mod zig_zag;

pub use build::build_class;
pub use class::Class;
pub use left_deep::left_words;
pub use thin::Thin;
pub use zig_zag::ZigZagPairs;
