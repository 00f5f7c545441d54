//! What every layer speaks of: sets of relations, join queries, pairs of sets, and the limits.
//!
//! A [`RelSet`] is one number: relation `r` is in it where the binary digit `r` is 1. A [`Query`] is a list of relations, each
//! with its rows and the fraction that its filter keeps, and a list of join predicates with their selectivities; it is made by
//! [`Query::new`] alone, which refuses what is outside the limits. A [`Pair`] is the two sides of a join.
//!
//! The limits are constants of this file, and what follows from one is written by its name in every crate. So a limit is
//! changed here alone, within what the `prove!`s at the end demand of them.
//! Begin with `rel_set.rt` and `query.rt`; `laws` says in terms of members what the operations on sets are.
#![tactic(auto)]

mod kind;
pub mod laws;
mod name;
mod pair;
mod query;
mod rel_set;
mod steps;
#[cfg(test)]
mod tests;

pub use kind::Kind;
pub use name::Name;
pub use pair::Pair;
pub use query::{Pred, Query, QueryFault, Rel};
pub use rel_set::RelSet;
pub use steps::Steps;

/// The most relations of a query.
pub const N_MAX: usize = 20;

/// The most predicates of a query.
pub const PREDS_MAX: usize = 1024;

/// The greatest number of rows of a relation in the input, and the greatest denominator of a fraction.
pub const INPUT_CAP: u64 = 1 << 40;

/// The greatest cardinality: larger ones are taken to be this.
pub const ROW_CAP: u64 = 1 << 35;

/// A tree that costs this or more has no memo word.
pub const COST_LIMIT: u64 = 1 << 42;

/// How far apart two operators are in a memo word: the left set takes the numbers below it.
pub const SPAN: u64 = 1 << 20;

/// The memo word of no tree.
pub const EMPTY: u64 = u64::MAX;

/// The most workers that share a memo.
pub const WORKERS_MAX: u32 = 64;

/// The most pairs that a buffer holds.
pub const BUFFER_MAX: u32 = 65_536;

/// Of the memo: the sum of the weights of all seats, one for each worker and one that stays.
pub const WEIGHT: u64 = 65;

/// Of the memo: its tickets, both those that were drawn and those that may still be drawn.
pub const DRAWS: u64 = 1 << 62;

const _: () = prove!(WEIGHT == WORKERS_MAX as u64 + 1);

// A set of relations is below the step of the operator.
const _: () = prove!(1u64 << N_MAX <= SPAN);

// Every connected set has a tree with a word, and every word is below 2 ^ 64.
const _: () = prove!((N_MAX as u64 - 1) * (4 * ROW_CAP) < COST_LIMIT);

const _: () = prove!(COST_LIMIT as u128 * 4 * SPAN as u128 <= 1 << 64);
