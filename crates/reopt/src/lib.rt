//! Planning again after the rows of one relation have changed.
//!
//! Statistics change while queries stay. Who keeps the words of a planned query, as a [`Kept`], changes the rows of one relation
//! by [`Kept::change`], and has the words of planning the changed query from scratch. Only the pairs whose union has the
//! relation are processed again (`DpCcpTouching` of `enum_dpccp`; [`Touching`] picks them from any other stream). The words of all other sets are the same in both queries ([`laws`]), so they
//! are offered to a new memo before its workers begin.
//!
//! Begin with `kept.rt`, and then `replan.rt`: the engine for it is `SeededEngine` of `dpe_engine`, whose run processes what
//! known words leave.
#![tactic(auto)]

mod kept;
pub mod laws;
mod offers;
mod replan;
#[cfg(test)]
mod tests;
mod touching;

pub use kept::Kept;
pub use touching::Touching;
