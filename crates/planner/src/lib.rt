//! The planner: a join query in, its cheapest plan out, with no file and no command line.
//!
//! An engine makes a [`Query`](dpe_base::Query) of the rows, filters and predicates that it knows, and calls [`plan`] with
//! a cost model (`cost_model::Ops` or `Cout`), [`Options`] and a gate (`OpenGate`, where nobody watches the run). The
//! answer is [`Planned`]: the tree, to be walked by its `Leaf` and `Join`, and the counts of the run.
//! The query must be connected, which `join_graph::Graph::of(&query).first_unreached()` tells; and `Query::new` says
//! what a query may be. Only running out of memory fails. The first test in `src/tests.rt` is an example of all this.
//!
//! To read on, begin with `plan`: it chooses the enumerator, runs the engine (`dpe_engine`) over its pairs, and builds
//! the tree from the words that the run leaves (`join_tree::build`).
#![tactic(auto)]

mod alone;
mod costs;
mod count;
mod in_threads;
mod job;
mod options;
mod planning;
#[cfg(test)]
mod tests;

pub use costs::{CostedPlan, plan_with_costs};
pub use dpe_engine::{Gate, OpenGate};
pub use options::Options;
pub use plan_space::Class;
pub use planning::{Planned, plan, plan_alone};
