//! Planning a query over all its pairs, and planning it again from the words before a change.
ghost use Rattle.std.specs.Prelude.{◌<◌, ◌≤◌, IfOk};
ghost use Rattle.dpe_base.specs.Queries.{relations};
ghost use Rattle.join_graph.specs.Graphs.{graph_of};
ghost use Rattle.pair_stream.specs.Orders.{Complete};
ghost use Rattle.enum_dpccp.specs.Dpccp.{seq_dpccp};
ghost use Rattle.dpe_engine.specs.Engines.{IsSolved};
ghost use Rattle.reopt.specs.Keeping.{KeepsOthers, IsReplanned};

use crate::offers::offer_others;
use cost_model::CostModel;
use dpe_base::{BUFFER_MAX, Query, WORKERS_MAX};
use dpe_engine::{Engine, Gate, SeededEngine, Solved};
use enum_dpccp::{DpCcp, DpCcpTouching};
use join_graph::Graph;
use memo_table::Words;
use std::alloc::{AllocError, Global};
use std::thread::Threads;

/// The model, which relation has changed, and how the pairs are taken that this touches.
#[derive(Drop)]
pub(crate) struct Settings<M: CostModel> {
    pub(crate) model: M,
    pub(crate) r: u8,
    pub(crate) buffer: u32,
    pub(crate) workers: u32,
}

/// What a run over all pairs of the query leaves.
pub(crate) fn plan_all<M: CostModel, G: Gate, R: Threads + Sync>(
    rt: &R,
    alloc: Global,
    query: &Query,
    model: M,
    buffer: u32,
    workers: u32,
    gate: &G,
) -> Result<Solved, AllocError>
    requires buffer { (1 ≤ buffer) × (buffer ≤ BUFFER_MAX) }
    requires workers { (1 ≤ workers) × (workers ≤ WORKERS_MAX) }
    ensures solved { IfOk result (IsSolved M.KIND record { query = query.now; pairs = seq_dpccp (graph_of query.now); buffer = buffer; workers = workers }) }
    ensures listed { IfOk result (λ _. Complete (graph_of query.now) (seq_dpccp (graph_of query.now))) }
{
    let all = DpCcp::over(&Graph::of(query));
    let engine = Engine::prepare(alloc, query, model, buffer, workers, &all)?;
    let (solved, _) = engine.run(rt, all, gate);
    Ok(solved)
}

/// The words of the query, where `kept` has those of the query before the rows of the relation were changed, and the counts
/// of the run that found them.
pub(crate) fn replan<M: CostModel, G: Gate, R: Threads + Sync>(
    rt: &R,
    alloc: Global,
    query: &Query,
    kept: &Words,
    settings: &Settings<M>,
    gate: &G,
) -> Result<Solved, AllocError>
    requires relation { settings.now.r < relations query.now }
    requires buffer { (1 ≤ settings.now.buffer) × (settings.now.buffer ≤ BUFFER_MAX) }
    requires workers { (1 ≤ settings.now.workers) × (settings.now.workers ≤ WORKERS_MAX) }
    requires kept { KeepsOthers M.KIND query.now settings.now.r kept.now.row }
    ensures { IfOk result (IsReplanned M.KIND query.now settings.now.r settings.now.buffer settings.now.workers) }
{
    let n = query.n();
    let graph = Graph::of(query);
    let all = DpCcp::over(&graph);
    let mut engine = SeededEngine::prepare(
        alloc,
        query,
        settings.model,
        settings.buffer,
        settings.workers,
        &all,
    )?;
    offer_others(&mut engine, kept.row(), n, settings.r);
    let touching = DpCcpTouching::over(&graph, settings.r);
    let (solved, _) = engine.run(rt, touching, gate);
    Ok(solved)
}
