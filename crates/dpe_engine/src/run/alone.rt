//! A run in the calling thread alone: buffers are filled and processed in turn, and the workers of a group take turns.
ghost use Rattle.std.specs.Prelude.{◌≡◌, ◌+◌, ◌<◌, ◌≤◌, IsTrue, List, length};
ghost use Rattle.dpe_base.specs.declared.pair.Pair.{Pair};
ghost use Rattle.reorder_buffer.specs.Groups.{groups_below};
ghost use Rattle.dpe_engine.specs.Working.{IsMemoOfQuery, IsReady, HasWorked};
ghost use Rattle.dpe_engine.specs.Rounds.Crews.{AreReady, HaveWorked};
ghost use Rattle.dpe_engine.specs.Running.Between.{HasFreeCrew, IsAtGroup, MayWorkGroup, IsSameBuffer};
ghost use Rattle.dpe_engine.specs.Running.{IsRunning, HasCounted, HasSameTotals, HasEnded, to_come};
ghost use Rattle.dpe_engine.specs.Running.Buffers.{MayWorkBuffer, HasWorkedBuffer};

use crate::gate::Gate;
use crate::run::consumer::Consumer;
use crate::run::pipeline::exchange;
use crate::run::producer::Producer;
use crate::run::shared::Shared;
use crate::run::threads::in_turn;
use crate::whole_round::{close_round, open_round};
use crate::worker::work;
use cost_model::CostModel;
use dpe_base::{Pair, WORKERS_MAX};
use memo_table::MemoSeat;
use pair_stream::PairStream;
use reorder_buffer::SIZES;

// Each worker does its work, one after the other.
fn work_crew<M: CostModel, G: Gate>(
    shared: &Shared<M>,
    gate: &G,
    base: u64,
    group: &[Pair],
    crew: &mut [MemoSeat<M>],
)
    requires planned { IsMemoOfQuery shared.now.memo shared.now.cards }
    requires few { length crew.old ≤ WORKERS_MAX }
    requires ready { AreReady M.KIND shared.now.memo base group.now crew.old }
    ensures { HaveWorked M.KIND base group.now crew.old crew.new }
{
    in_turn(
        crew,
        &|i, seat: &mut MemoSeat<M>|
            requires { (i < WORKERS_MAX) × IsMemoOfQuery shared.now.memo shared.now.cards × IsReady M.KIND shared.now.memo base group.now seat.old }
            ensures { HasWorked M.KIND base group.entry.now seat.old seat.new }
        {
            work(
                &shared.memo,
                seat,
                base,
                group,
                &shared.model,
                &shared.cards,
                gate,
                i as u32,
            )
        },
    );
}

// Processes the group of one size, if it has a pair, after those of smaller sizes.
fn work_group<M: CostModel, G: Gate>(
    shared: &Shared<M>,
    gate: &G,
    size: u32,
    consumer: &mut Consumer<M>,
)
    requires size { size < SIZES }
    requires may { MayWorkGroup M.KIND shared.now size consumer.old }
    ensures at { (later : List Pair) → IsAtGroup M.KIND shared.now size consumer.old later
        → IsAtGroup M.KIND shared.now (size + 1) consumer.new later }
    ensures free { HasFreeCrew shared.now consumer.new }
    ensures counted { consumer.new.rounds + length (groups_below size consumer.old.full.pairs)
        ≡ consumer.old.rounds + length (groups_below (size + 1) consumer.old.full.pairs) }
    ensures same { IsSameBuffer consumer.old consumer.new }
{
    if consumer.full.count(size) == 0 {
        return;
    }
    let group = consumer.full.group(size);
    let base = open_round(
        &shared.memo,
        &mut consumer.seat,
        &mut consumer.crew,
        shared.workers,
        group,
    );
    work_crew(shared, gate, base, group, consumer.crew.as_mut_slice());
    close_round(&shared.memo, &mut consumer.seat, &mut consumer.crew);
    consumer.rounds += 1;
}

// Processes the groups of the full buffer by ascending size.
fn work_buffer<M: CostModel, G: Gate>(
    shared: &Shared<M>,
    gate: &G,
    consumer: Consumer<M>,
) -> Consumer<M>
    requires { MayWorkBuffer M.KIND shared.now consumer }
    ensures { HasWorkedBuffer M.KIND shared.now consumer result }
{
    let mut consumer = consumer;
    'sizes: for size in 0..SIZES as u32 {
        work_group(shared, gate, size, &mut consumer);
    }
    let count = consumer.full.len() as u64;
    consumer.pairs += count;
    consumer.buffers += count.min(1);
    consumer
}

// Fills the other buffer and processes the full one; then the other one is the full one.
fn step<P: PairStream, M: CostModel, G: Gate>(
    shared: &Shared<M>,
    gate: &G,
    producer: Producer<P>,
    consumer: Consumer<M>,
) -> (Producer<P>, Consumer<M>)
    requires running { IsRunning M.KIND P.left P.ended shared.now producer consumer }
    requires full { length consumer.full.pairs ≡ consumer.full.room }
    ensures running { IsRunning M.KIND P.left P.ended shared.now result.0 result.1 }
    ensures total { P.total result.0.stream ≡ P.total producer.stream }
    ensures totals { HasSameTotals consumer (to_come P.left producer consumer) result.1 (to_come P.left result.0 result.1) }
    ensures fewer { length result.1.full.pairs + length (P.left result.0.stream) < length consumer.full.pairs + length (P.left producer.stream) }
{
    let filled = producer.fill(gate, consumer.buffers + 1);
    let worked = work_buffer(shared, gate, consumer);
    exchange(filled, worked)
}

/// Processes all buffers: each full one after the next one is filled, and then the last, which isn't full.
pub(crate) fn work_all<P: PairStream, M: CostModel, G: Gate>(
    shared: &Shared<M>,
    gate: &G,
    producer: Producer<P>,
    consumer: Consumer<M>,
) -> (Producer<P>, Consumer<M>)
    requires { IsRunning M.KIND P.left P.ended shared.now producer consumer }
    ensures worked { HasEnded M.KIND shared.now result.1 }
    ensures counted { HasCounted consumer (to_come P.left producer consumer) result.1 }
    ensures ended { IsTrue (P.ended result.0.stream) }
    ensures total { P.total result.0.stream ≡ P.total producer.stream }
{
    let mut producer = producer;
    let mut consumer = consumer;
    'buffers: while consumer.full.is_full() {
        let (filled, worked) = step(shared, gate, producer, consumer);
        producer = filled;
        consumer = worked;
    }
    let consumer = work_buffer(shared, gate, consumer);
    (producer, consumer)
}
