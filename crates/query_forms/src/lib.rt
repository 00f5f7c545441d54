//! Workload files in other forms: rewritten in version 2, and with changes of the rows of tables.
//!
//! [`rewrite`] brings a file of any version to version 2, and [`rewritten`] does the same to a value: only members of the
//! format stay, and fractions over a power of ten become decimal texts (`fraction.rt`). `specs/Forms` says member by member
//! what becomes of each object (`objects.rt`).
//!
//! [`read_changes`] reads a workload together with new rows for some of its tables, and finds where its queries use them.
#![tactic(auto)]

mod bytes;
mod changes;
mod fraction;
pub mod laws;
mod members;
mod objects;
mod rewriting;
#[cfg(test)]
mod tests;
mod text;

pub use changes::{Change, ChangeFault, Changed, read_changes};
pub use rewriting::{rewrite, rewritten};
