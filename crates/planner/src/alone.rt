//! Planning in the calling thread alone: the functions of [`in_threads`](crate::in_threads), with runs that start no thread. They
//! stand twice, since no trait over "threads or none" can be checked.
ghost use Rattle.std.specs.Prelude.{◌≡◌, IfOk};
ghost use Rattle.join_graph.specs.Graphs.{graph_of};
ghost use Rattle.planner.specs.Enumerations.{IsAllOrNarrow, IsEnumeration, IsListing};
ghost use Rattle.planner.specs.Plans.{IsConnected, IsPlanOf};
ghost use Rattle.planner.specs.Ranges.{AreAllowed};

use crate::job::Job;
use crate::planning::Planned;
use cost_model::CostModel;
use dpe_base::Kind;
use dpe_engine::Gate;
use enum_dpccp::DpCcp;
use enum_dpsize::{DpSize, DpSva, SkipParts};
use join_graph::Graph;
use pair_stream::{DpSub, PairStream, Parts};
use plan_space::{Class, Thin, ZigZagPairs};
use std::alloc::AllocError;

// The plan by a run over the stream, which gives the pairs that are asked for.
fn over<P: PairStream, M: CostModel, G: Gate>(
    job: &Job<M, G>,
    stream: P,
) -> Result<Planned, AllocError>
    requires options { AreAllowed job.now.options.now }
    requires connected { IsConnected job.now.query.now }
    requires stream { IsListing job.now.options.now.class job.now.options.now.enumerator (graph_of job.now.query.now)
        (P.left stream) (P.total stream) }
    ensures { IfOk result (IsPlanOf M.KIND job.now.options.now job.now.query.now) }
{
    let engine = job.engine(&stream)?;
    let (solved, stream) = engine.run_alone(stream, job.gate);
    job.planned(solved, stream)
}

// The plan by a run over all pairs of the enumerator that is asked for, or over the narrow ones.
fn through<P: PairStream, M: CostModel, G: Gate>(
    job: &Job<M, G>,
    stream: P,
    narrow: bool,
) -> Result<Planned, AllocError>
    requires options { AreAllowed job.now.options.now }
    requires connected { IsConnected job.now.query.now }
    requires class { IsAllOrNarrow job.now.options.now.class narrow }
    requires stream { IsEnumeration job.now.options.now.enumerator (graph_of job.now.query.now) (P.left stream) (P.total stream) }
    ensures { IfOk result (IsPlanOf M.KIND job.now.options.now job.now.query.now) }
{
    job.query.recall();
    if narrow {
        let thin = Thin::over(stream, 2);
        over(job, thin)
    } else {
        over(job, stream)
    }
}

// The plan by the enumerator that is asked for.
fn by_enumerator<M: CostModel, G: Gate>(
    job: &Job<M, G>,
    graph: &Graph,
    narrow: bool,
) -> Result<Planned, AllocError>
    requires options { AreAllowed job.now.options.now }
    requires connected { IsConnected job.now.query.now }
    requires class { IsAllOrNarrow job.now.options.now.class narrow }
    requires graph { graph.now ≡ graph_of job.now.query.now }
    ensures { IfOk result (IsPlanOf M.KIND job.now.options.now job.now.query.now) }
{
    graph.recall();
    match job.options.enumerator {
        Kind::DpCcp => through(job, DpCcp::over(graph), narrow),
        Kind::DpSub => through(job, DpSub::over(graph), narrow),
        Kind::DpSize => {
            let parts = Parts::make(job.alloc, graph)?;
            through(job, DpSize::over(graph, &parts), narrow)
        }
        Kind::DpSva => {
            let parts = Parts::make(job.alloc, graph)?;
            let skips = SkipParts::make(job.alloc, &parts)?;
            through(job, DpSva::over(graph, &skips), narrow)
        }
    }
}

/// The plan of the query in the class that is asked for.
pub(crate) fn planned_alone<M: CostModel, G: Gate>(job: &Job<M, G>) -> Result<Planned, AllocError>
    requires options { AreAllowed job.now.options.now }
    requires connected { IsConnected job.now.query.now }
    ensures { IfOk result (IsPlanOf M.KIND job.now.options.now job.now.query.now) }
{
    job.query.recall();
    let graph = Graph::of(job.query);
    match job.options.class {
        None => by_enumerator(job, &graph, false),
        Some(Class::Narrow) => by_enumerator(job, &graph, true),
        Some(Class::ZigZag) => over(job, ZigZagPairs::over(&graph)),
        Some(Class::LeftDeep) => job.left_deep(&graph),
    }
}
