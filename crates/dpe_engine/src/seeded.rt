//! A run over some of the pairs, where the words of other sets are known before it.
ghost use Rattle.std.specs.Prelude.{◌≡◌, ◌≢◌, ◌<◌, ◌≤◌, ◌^◌, ◌⊎◌, ℕ, IsTrue, IfOk, Contains};
ghost use Rattle.dpe_base.specs.Queries.{relations};
ghost use Rattle.dpe_base.specs.Sets.{Within, full, single};
ghost use Rattle.join_graph.specs.Graphs.{graph_of};
ghost use Rattle.join_tree.specs.Trees.{Builds, IsEmptyOrMade};
ghost use Rattle.dpe_engine.specs.Engines.{IsKnown, IsRest, HasProcessed, with_word};
ghost use Rattle.dpe_engine.specs.Running.{to_come, HasBegun, IsRunning, HasEnded, IsFinished};

use crate::engine::Solved;
use crate::gate::Gate;
use crate::run::alone;
use crate::run::consumer::Consumer;
use crate::run::pipeline::{exchange, work_all};
use crate::run::producer::Producer;
use crate::run::shared::Shared;
use card_scaled::CardTable;
use cost_model::CostModel;
use dpe_base::{BUFFER_MAX, N_MAX, Query, RelSet, WORKERS_MAX};
use memo_table::Memo;
use pair_stream::PairStream;
use reorder_buffer::Buffer;
use std::alloc::{AllocError, Global};
use std::marker::Model;
use std::thread::Threads;

/// An engine before its run, in whose memo words can be put that are known already. Its run processes only the pairs that
/// these words leave. It has all memory that the run needs. Contracts see its query, all pairs of its list, how many of
/// them a buffer holds, how many workers there are, and the words that stand in its memo.
#[derive(Drop)]
pub struct SeededEngine<M: CostModel> {
    shared: Shared<M>,
    consumer: Consumer<M>,
    // The buffer that is filled first.
    next: Buffer,
    // As asked for. The two buffers may have less room, where a list can't fill it.
    buffer: u32,
}

impl<M: CostModel> Model for SeededEngine<M> {
    ghost use Rattle.dpe_engine.specs.Engines.{SeededPlan};
    ghost use Rattle.dpe_engine.specs.Running.{IsPrepared, plan_of};

    ghost Value = { SeededPlan };

    ghost view = { λ e. record { plan = plan_of e.shared e.buffer; words = e.consumer.seat.view.bounds } };

    ghost invariant = { λ e. IsPrepared M.KIND e.buffer e.shared e.next e.consumer };
}

// How many pairs there is room for: a pair is two sets, and a buffer that has room for one more than there are pairs of
// sets is never full.
fn room_for(n: u8, buffer: u32) -> u32
    requires relations { n ≤ N_MAX }
    requires some { 1 ≤ buffer }
    ensures within { (1 ≤ result) × (result ≤ buffer) }
    ensures enough { (result ≡ buffer) ⊎ (4 ^ n < result) }
{
    let sets = 1u64 << n;
    let most = sets * sets + 1;
    most.min(buffer as u64) as u32
}

// The words of the memo once all pairs are processed, and the counts.
fn finish<M: CostModel>(shared: Shared<M>, consumer: Consumer<M>) -> Solved
    requires { HasEnded M.KIND shared consumer }
    ensures { IsFinished M.KIND shared consumer result }
{
    let Shared {
        memo,
        model: _,
        cards: _,
        workers: _,
    } = shared;
    let Consumer {
        full: _,
        seat,
        crew: _,
        pairs,
        buffers,
        rounds,
    } = consumer;
    let words = memo.finish(seat);
    Solved {
        words,
        pairs,
        buffers,
        rounds,
    }
}

impl<M: CostModel> SeededEngine<M> {
    /// An engine in whose memo the words of the relations alone stand. Its list is the pairs that `all` has left; the stream
    /// is only named. Each is a csg-cmp-pair of the query, and pairs of the list build its sides.
    ///
    /// `buffer`, `workers` and the memory that it takes are as for `Engine::prepare`. Fails when memory runs out.
    pub fn prepare<P: PairStream>(
        alloc: Global,
        query: &Query,
        model: M,
        buffer: u32,
        workers: u32,
        all: &P,
    ) -> Result<SeededEngine<M>, AllocError>
        requires buffer { (1 ≤ buffer) × (buffer ≤ BUFFER_MAX) }
        requires workers { (1 ≤ workers) × (workers ≤ WORKERS_MAX) }
        requires builds { Builds (graph_of query.now) (P.left all.now) }
        ensures plan { IfOk result (λ e. e.plan ≡ record { query = query.now; pairs = P.left all.now; buffer = buffer; workers = workers }) }
        ensures leaves { IfOk result (λ e. (r : ℕ) → r < relations query.now → IsKnown M.KIND e (single r)) }
    {
        let n = query.n();
        let (memo, seat) = Memo::make(alloc, query, all)?;
        let cards = CardTable::make(alloc, query)?;
        let crew = Vec::with_capacity(alloc, workers as usize)?;
        let room = room_for(n, buffer);
        let full = Buffer::with_capacity(alloc, room)?;
        let next = Buffer::with_capacity(alloc, room)?;
        let shared = Shared {
            memo,
            model,
            cards,
            workers,
        };
        let consumer = Consumer {
            full,
            seat,
            crew,
            pairs: 0,
            buffers: 0,
            rounds: 0,
        };
        Ok(SeededEngine {
            shared,
            consumer,
            next,
            buffer,
        })
    }

    /// Puts the word of a tree over the set into the memo, where it stands from then on, or a lesser one. `EMPTY` is no
    /// word. It takes no memory.
    pub fn offer(&mut self, s: RelSet, w: u64)
        requires some { s ≢ 0 }
        requires within { Within s (full (relations self.old.plan.query)) }
        requires word { IsEmptyOrMade M.KIND self.old.plan.query self.old.plan.pairs s w }
        ensures plan { self.new.plan ≡ self.old.plan }
        ensures words { self.new.words ≡ with_word self.old.words s w }
    {
        self.shared.memo.offer(&mut self.consumer.seat, s, w);
    }

    // The first buffer is filled.
    pub(crate) fn opened<P: PairStream, G: Gate>(
        self,
        stream: P,
        gate: &G,
    ) -> (Shared<M>, Producer<P>, Consumer<M>)
        requires rest { IsRest self.plan.pairs (IsKnown M.KIND self) (P.left stream) }
        ensures running { IsRunning M.KIND P.left P.ended result.0 result.1 result.2 }
        ensures begun { HasBegun self.plan (P.left stream) result.0 result.2 (to_come P.left result.1 result.2) }
        ensures total { P.total result.1.stream ≡ P.total stream }
    {
        let SeededEngine {
            shared,
            mut consumer,
            next,
            buffer: _,
        } = self;
        shared.memo.drawn(&mut consumer.seat);
        let producer = Producer { stream, next }.fill(gate, 0);
        let (producer, consumer) = exchange(producer, consumer);
        (shared, producer, consumer)
    }

    /// Processes the pairs that the stream has left, as `Engine::run` does, and hands the stream back. They are all that is
    /// left to process where the least words of some sets stand in the memo: a pair may be missing only if its union is such
    /// a set. The words are those of a run over the whole list.
    pub fn run<P: PairStream, G: Gate, R: Threads + Sync>(
        self,
        rt: &R,
        stream: P,
        gate: &G,
    ) -> (Solved, P)
        requires rest { IsRest self.plan.pairs (IsKnown M.KIND self) (P.left stream) }
        ensures solved { HasProcessed M.KIND self.plan (P.left stream) result.0 }
        ensures ended { IsTrue (P.ended result.1) }
        ensures total { P.total result.1 ≡ P.total stream }
    {
        let (shared, producer, consumer) = self.opened(stream, gate);
        let (producer, consumer) = work_all(rt, &shared, gate, producer, consumer);
        let Producer { stream, next: _ } = producer;
        (finish(shared, consumer), stream)
    }

    /// Does the same in the calling thread alone, and starts no thread, as `Engine::run_alone` does.
    pub fn run_alone<P: PairStream, G: Gate>(self, stream: P, gate: &G) -> (Solved, P)
        requires rest { IsRest self.plan.pairs (IsKnown M.KIND self) (P.left stream) }
        ensures solved { HasProcessed M.KIND self.plan (P.left stream) result.0 }
        ensures ended { IsTrue (P.ended result.1) }
        ensures total { P.total result.1 ≡ P.total stream }
    {
        let (shared, producer, consumer) = self.opened(stream, gate);
        let (producer, consumer) = alone::work_all(&shared, gate, producer, consumer);
        let Producer { stream, next: _ } = producer;
        (finish(shared, consumer), stream)
    }
}
