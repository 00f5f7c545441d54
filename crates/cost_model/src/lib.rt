//! What a join costs under a cost model, and memo words: cost, operator and left set in one number.
//!
//! There are two models: [`Ops`] with [`HASH`], [`MERGE`] and [`LOOP`] joins, and [`Cout`], whose one operator [`JOIN`] costs the rows of its
//! output. A [`Word`] is `cost * (4 * SPAN) + op * SPAN + left`, so the better of two trees over a set is the lesser of their
//! words, ties included: less cost, then the lesser operator, then the lesser left set. A leaf has [`LEAF`] for its operator. A cost
//! from `COST_LIMIT` on has no word, for which `EMPTY` stands.
//!
//! Begin with `CostModel` in `model.rt`. [`best_split`] is what a search calls for each pair: the least word over both orders and all
//! operators. `laws` says what holds of costs and words.
#![tactic(auto)]

pub mod laws;
mod model;
mod split;
#[cfg(test)]
mod tests;
mod word;

pub use model::{COUT, CostModel, Cout, HASH, JOIN, LEAF, LOOP, MERGE, ModelKind, OPS, Ops};
pub use split::best_split;
pub use word::Word;
