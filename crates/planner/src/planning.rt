//! The plan of one query.
ghost use Rattle.std.specs.Prelude.{IfOk};
ghost use Rattle.planner.specs.Plans.{IsConnected, IsPlanOf};
ghost use Rattle.planner.specs.Ranges.{AreAllowed};

use crate::alone::planned_alone;
use crate::in_threads::planned_in_threads;
use crate::job::Job;
use crate::options::Options;
use cost_model::CostModel;
use dpe_base::Query;
use dpe_engine::Gate;
use join_tree::Tree;
use std::alloc::{AllocError, Global};
use std::thread::Threads;

/// The plan of a query, and what the run that found it counted.
#[derive(Drop)]
pub struct Planned {
    /// The plan. Its leaves are the places of the relations in the query.
    pub tree: Tree,
    /// How many csg-cmp-pairs the query has; of a class, how many that a tree of the class may have.
    pub pairs: u64,
    /// How many buffers the pairs filled, the last one perhaps in part; 0 for left-deep plans, which take no run.
    pub buffers: u64,
    /// How many rounds of the workers there were: one for each size of union in each buffer.
    pub rounds: u64,
    /// How many entries the enumerator looked at through skip vectors: 0 but for DPsva.
    pub probes: u64,
    /// How many tickets the workers drew: one for each pair that they processed, and one more for each worker in each round.
    pub drawn: u64,
}

/// The plan of a connected query by the model, found with the enumerator, the buffers and the workers of the options. It is the
/// cheapest of all trees, or of the class that the options name.
///
/// Whether the query is connected is told by `Graph::of(&query).first_unreached()`, which is `None` exactly then. The gate
/// is told of each draw and of each buffer; `OpenGate` does nothing.
///
/// Fails when memory runs out.
pub fn plan<M: CostModel, G: Gate, R: Threads + Sync>(
    rt: &R,
    alloc: Global,
    query: &Query,
    model: M,
    options: &Options,
    gate: &G,
) -> Result<Planned, AllocError>
    requires options { AreAllowed options.now }
    requires connected { IsConnected query.now }
    ensures { IfOk result (IsPlanOf M.KIND options.now query.now) }
{
    let job = Job {
        alloc,
        query,
        model,
        options,
        gate,
    };
    planned_in_threads(rt, &job)
}

/// The same plan with the same counts, found in the calling thread: it starts no thread, and the workers of the options take turns.
/// It is for a caller that may start none, or plans several queries side by side.
///
/// Fails when memory runs out.
pub fn plan_alone<M: CostModel, G: Gate>(
    alloc: Global,
    query: &Query,
    model: M,
    options: &Options,
    gate: &G,
) -> Result<Planned, AllocError>
    requires options { AreAllowed options.now }
    requires connected { IsConnected query.now }
    ensures { IfOk result (IsPlanOf M.KIND options.now query.now) }
{
    let job = Job {
        alloc,
        query,
        model,
        options,
        gate,
    };
    planned_alone(&job)
}
