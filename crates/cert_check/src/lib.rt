//! Certificates of optimality: a plan with a bound for each set of relations, from which anyone can see that no plan costs less.
//!
//! An optimiser's answer can be checked by searching again, or by a certificate. [`check_cert`] searches nothing: it tests that the
//! tree is legal and costs at most the bound of all relations, that a relation alone has the bound 0, and that no join of a pair costs
//! less than the bound of its union. Then no tree over any set costs less than the set's bound. The crate stands on no enumerator,
//! memo or engine, so whoever gets a plan from elsewhere trusts this crate and those of the model alone.
//!
//! Begin with `specs/Certificates.antt`, which says what a certificate is, and [`laws`], which says what it shows: it convinces, and
//! every plan has one, whose bounds are the costs in a memo's words.
#![tactic(auto)]

mod check;
mod known_rows;
pub mod laws;
#[cfg(test)]
mod tests;

pub use check::check_cert;
