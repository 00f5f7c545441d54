//! How many rows the join of a set of relations has.
//!
//! The cardinality of a set is the product of its relations' rows, of what their filters keep and of the selectivities of all
//! predicates inside the set, in a fixed order and with stated rounding. So it depends on the set alone, and not on
//! the tree that makes it. [`Scaled`] is the number in which it is computed: a mantissa of 32 binary digits and a scale, which no
//! product of a query takes out of range. Rows are rounded up, and are at least 1 and at most `ROW_CAP`.
//!
//! Begin with `rows_once` in `cards.rt`, for one set. [`CardTable`] has the same number for every set, each computed from the
//! set without its greatest relation. A query with few connected sets pays for these alone (`sparse.rt`).
#![tactic(auto)]

mod cards;
mod factors;
pub mod laws;
mod places;
mod scaled;
mod sparse;
mod table;
#[cfg(test)]
mod tests;

pub use cards::rows_once;
pub use scaled::Scaled;
pub use table::CardTable;
