//! The plan of one query, with the least cost of each set of its relations.
ghost use Rattle.std.specs.Prelude.{◌≡◌, ◌^◌, List, map, length, IfOk};
ghost use Rattle.dpe_base.specs.declared.pair.Pair.{Pair};
ghost use Rattle.dpe_base.specs.Queries.{relations};
ghost use Rattle.dpe_engine.specs.Engines.{AreLeastWords};
ghost use Rattle.join_graph.specs.Graphs.{graph_of};
ghost use Rattle.planner.specs.Costs.{IsCostedPlan, cost_in};
ghost use Rattle.pair_stream.specs.Orders.{Complete};
ghost use Rattle.planner.specs.Enumerations.{IsEnumeration};
ghost use Rattle.planner.specs.Plans.{IsConnected};
ghost use Rattle.planner.specs.Ranges.{AreAllowed};

use crate::job::Job;
use crate::options::Options;
use cost_model::{CostModel, Word};
use dpe_base::{EMPTY, Kind, Query, RelSet};
use dpe_engine::{Engine, Gate};
use enum_dpccp::DpCcp;
use enum_dpsize::{DpSize, DpSva, SkipParts};
use join_graph::Graph;
use join_tree::{Tree, build};
use pair_stream::{DpSub, PairStream, Parts};
use std::alloc::{AllocError, Global};
use std::thread::Threads;

/// The plan of a query, and what its parts cost at least.
#[derive(Drop)]
pub struct CostedPlan {
    /// The plan. Its leaves are the places of the relations in the query.
    pub tree: Tree,
    /// For each set of relations, at the set's number, the least cost of a tree over it; 0 where the set isn't connected.
    pub costs: Vec<u64>,
}

// The cost in a word, and 0 where there is no word.
fn cost_in(word: u64) -> u64
    ensures { result ≡ cost_in word }
{
    if word == EMPTY {
        0
    } else {
        Word::of_bits(word).cost()
    }
}

// The costs in the words of a row.
fn costs_in(alloc: Global, words: &[u64]) -> Result<Vec<u64>, AllocError>
    ensures { IfOk result (λ v. v.items ≡ map cost_in words.now) }
{
    let mut costs = Vec::with_capacity(alloc, words.len())?;
    'words: for word in words {
        costs.push(cost_in(*word))?;
    }
    Ok(costs)
}

// The plan and the costs that the least words of all sets tell.
fn costed<M: CostModel, G: Gate>(job: &Job<M, G>, words: &[u64]) -> Result<CostedPlan, AllocError>
    requires connected { IsConnected job.now.query.now }
    requires sized { length words.now ≡ 2 ^ relations job.now.query.now }
    requires words { (pairs : List Pair) × Complete (graph_of job.now.query.now) pairs × AreLeastWords M.KIND job.now.query.now pairs words.now }
    ensures { IfOk result (IsCostedPlan M.KIND job.now.query.now) }
{
    job.query.recall();
    let all = RelSet::full(job.query.n());
    let tree = build(job.alloc, job.query, &job.model, words, all)?;
    let costs = costs_in(job.alloc, words)?;
    Ok(CostedPlan { tree, costs })
}

// The plan and the costs by a run over the stream, which gives the pairs of the enumerator that is asked for.
fn over<P: PairStream, M: CostModel, G: Gate, R: Threads + Sync>(
    rt: &R,
    job: &Job<M, G>,
    stream: P,
) -> Result<CostedPlan, AllocError>
    requires options { AreAllowed job.now.options.now }
    requires connected { IsConnected job.now.query.now }
    requires stream { IsEnumeration job.now.options.now.enumerator (graph_of job.now.query.now) (P.left stream) (P.total stream) }
    ensures { IfOk result (IsCostedPlan M.KIND job.now.query.now) }
{
    let options = job.options;
    let engine = Engine::prepare(
        job.alloc,
        job.query,
        job.model,
        options.buffer,
        options.workers,
        &stream,
    )?;
    let (solved, _) = engine.run(rt, stream, job.gate);
    costed(job, solved.words.row())
}

/// The plan of a connected query by the model, with the least cost of each set of its relations, found with the enumerator, the
/// buffers and the workers of the options. It is the cheapest of all trees, whatever class the options name.
///
/// Fails when memory runs out.
pub fn plan_with_costs<M: CostModel, G: Gate, R: Threads + Sync>(
    rt: &R,
    alloc: Global,
    query: &Query,
    model: M,
    options: &Options,
    gate: &G,
) -> Result<CostedPlan, AllocError>
    requires options { AreAllowed options.now }
    requires connected { IsConnected query.now }
    ensures { IfOk result (IsCostedPlan M.KIND query.now) }
{
    query.recall();
    let graph = Graph::of(query);
    let job = Job {
        alloc,
        query,
        model,
        options,
        gate,
    };
    match options.enumerator {
        Kind::DpCcp => over(rt, &job, DpCcp::over(&graph)),
        Kind::DpSub => over(rt, &job, DpSub::over(&graph)),
        Kind::DpSize => {
            let parts = Parts::make(alloc, &graph)?;
            over(rt, &job, DpSize::over(&graph, &parts))
        }
        Kind::DpSva => {
            let parts = Parts::make(alloc, &graph)?;
            let skips = SkipParts::make(alloc, &parts)?;
            over(rt, &job, DpSva::over(&graph, &skips))
        }
    }
}
