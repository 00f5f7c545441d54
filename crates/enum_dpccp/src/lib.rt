//! DPccp: the csg-cmp-pairs by their first sides, each with its second sides, in work that is in proportion to their number.
//!
//! It is the enumerator that the program uses where none is named, since it goes to no set that is not connected. The first sides are
//! the connected sets in the order in which `connected_sets` gives them, and the second sides of one grow from its neighbours by the same steps.
//!
//! Begin with [`DpCcp`]; [`DpCcpTouching`] has of its pairs those whose union has one relation; `sides.rt` has the second sides of one first side as a stream of their own. `specs/Dpccp.antt` is the same as
//! list functions, and `laws` says which sides they have.
#![tactic(auto)]

mod dpccp;
pub mod laws;
mod sides;
#[cfg(test)]
mod tests;
mod touching;

pub use dpccp::DpCcp;
pub use touching::DpCcpTouching;
