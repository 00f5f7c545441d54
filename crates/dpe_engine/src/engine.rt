//! A whole run: all pairs of a stream are processed, buffer by buffer.
ghost use Rattle.std.specs.Prelude.{◌≡◌, ◌≤◌, IsTrue, IfOk, Contains};
ghost use Rattle.dpe_base.specs.declared.pair.Pair.{Pair};
ghost use Rattle.join_graph.specs.Graphs.{Pairs, graph_of};
ghost use Rattle.pair_stream.specs.Orders.{Ordered};
ghost use Rattle.dpe_engine.specs.Engines.{IsSolved};

use crate::gate::Gate;
use crate::seeded::SeededEngine;
use cost_model::CostModel;
use dpe_base::{BUFFER_MAX, Query, WORKERS_MAX};
use memo_table::Words;
use pair_stream::PairStream;
use std::alloc::{AllocError, Global};
use std::marker::Model;
use std::thread::Threads;

/// The words of a run, and how many pairs, buffers and rounds there were.
#[derive(Drop)]
pub struct Solved {
    /// The word of each set of relations, at the place of the set's number.
    pub words: Words,
    /// How many pairs were processed.
    pub pairs: u64,
    /// How many buffers had a pair.
    pub buffers: u64,
    /// How many groups had a pair, over all buffers.
    pub rounds: u64,
}

/// An engine before its run: it has all memory that the run needs. Contracts see its query, the pairs that will be
/// processed, how many of them a buffer holds, and how many workers there are.
#[derive(Drop)]
pub struct Engine<M: CostModel> {
    seeded: SeededEngine<M>,
}

impl<M: CostModel> Model for Engine<M> {
    ghost use Rattle.pair_stream.specs.Orders.{Ordered};
    ghost use Rattle.dpe_engine.specs.Engines.{EnginePlan};

    ghost Value = { EnginePlan };

    ghost view = { λ e. e.seeded.plan };

    ghost invariant = { λ e. Ordered e.seeded.plan.pairs };
}

impl<M: CostModel> Engine<M> {
    /// An engine for the pairs that the stream has left. The stream is only named: no pair is taken from it. Each pair
    /// is a csg-cmp-pair of the query, and stands after the pairs that build its sides.
    ///
    /// `buffer` is how many pairs are taken at once, 1 to `BUFFER_MAX`, and `workers` how many workers share a group, 1 to
    /// `WORKERS_MAX`. It takes all memory that `run` needs: the memo's word and the rows of each set, two buffers, and a
    /// seat for each worker. When memory runs out it is an `AllocError`. The buffers have no more room than the pairs of so
    /// few relations can fill.
    pub fn prepare<P: PairStream>(
        alloc: Global,
        query: &Query,
        model: M,
        buffer: u32,
        workers: u32,
        stream: &P,
    ) -> Result<Engine<M>, AllocError>
        requires buffer { (1 ≤ buffer) × (buffer ≤ BUFFER_MAX) }
        requires workers { (1 ≤ workers) × (workers ≤ WORKERS_MAX) }
        requires within { (p : Pair) → Contains (P.left stream.now) p → Pairs (graph_of query.now) p }
        requires ordered { Ordered (P.left stream.now) }
        ensures { IfOk result (λ e. e ≡ record { query = query.now; pairs = P.left stream.now; buffer = buffer; workers = workers }) }
    {
        let seeded = SeededEngine::prepare(alloc, query, model, buffer, workers, stream)?;
        Ok(Engine { seeded })
    }

    /// Processes all pairs of the stream, and hands the stream back.
    ///
    /// It reorders the pairs by what they depend on, after Han and Lee, "Dependency-Aware Reordering for Parallelizing
    /// Query Optimization in Multi-Core CPUs", SIGMOD 2009. An enumerator gives the pairs that build a side before each
    /// pair that uses it, but often just before, so neighbours can't be processed at once. The pairs of a buffer are
    /// therefore taken by groups: those of one size of union, by ascending size. No pair of a group builds a side of
    /// another, and all that builds its sides was processed in an earlier buffer or a smaller group. Each group that has a
    /// pair is one round of all workers.
    ///
    /// While a full buffer is processed the next one is filled in a thread of its own; but one worker would only wait for
    /// the thread to start, so with one worker it is filled first, in the calling thread. After a fill that took less than
    /// a buffer holds none follows. The workers of a round have threads of their own when the group has 16,384 pairs or
    /// more, or is the first of a run that fills a buffer of 32 pairs or more; otherwise they take turns in the calling
    /// thread.
    ///
    /// The gate is told of each buffer before it is filled, and of each draw. It takes no memory.
    pub fn run<P: PairStream, G: Gate, R: Threads + Sync>(
        self,
        rt: &R,
        stream: P,
        gate: &G,
    ) -> (Solved, P)
        requires named { P.left stream ≡ self.pairs }
        ensures solved { IsSolved M.KIND self result.0 }
        ensures ended { IsTrue (P.ended result.1) }
        ensures total { P.total result.1 ≡ P.total stream }
    {
        let Engine { seeded } = self;
        seeded.run(rt, stream, gate)
    }

    /// Does the same in the calling thread alone, and starts no thread: each buffer is filled before the last one is
    /// processed, and the workers of a group take turns. It is for a caller that has no runtime, or has other work for its
    /// threads; the numbers and the words are those of `run`.
    pub fn run_alone<P: PairStream, G: Gate>(self, stream: P, gate: &G) -> (Solved, P)
        requires named { P.left stream ≡ self.pairs }
        ensures solved { IsSolved M.KIND self result.0 }
        ensures ended { IsTrue (P.ended result.1) }
        ensures total { P.total result.1 ≡ P.total stream }
    {
        let Engine { seeded } = self;
        seeded.run_alone(stream, gate)
    }
}
