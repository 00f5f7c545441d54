//! From buffer to buffer: one is processed, and the next one filled.
ghost use Rattle.std.specs.Prelude.{◌≡◌, ◌+◌, ◌<◌, IsTrue, length};
ghost use Rattle.dpe_engine.specs.Running.{IsRunning, HasCounted, HasSameTotals, HasEnded, to_come};
ghost use Rattle.dpe_engine.specs.Running.Buffers.{MayWorkBuffer, HasWorkedBuffer, IsFilled};

use crate::gate::Gate;
use crate::run::consumer::Consumer;
use crate::run::producer::Producer;
use crate::run::shared::Shared;
use crate::run::threads::{both, fills_beside};
use cost_model::CostModel;
use pair_stream::PairStream;
use std::thread::Threads;

/// The buffer that was filled is the one to process, and the other one is filled next.
pub(crate) fn exchange<P, M: CostModel>(
    producer: Producer<P>,
    consumer: Consumer<M>,
) -> (Producer<P>, Consumer<M>)
    ensures producer { result.0 ≡ record producer { next = consumer.full } }
    ensures consumer { result.1 ≡ record consumer { full = producer.next } }
{
    let Producer { stream, next } = producer;
    let Consumer {
        full,
        seat,
        crew,
        pairs,
        buffers,
        rounds,
    } = consumer;
    let producer = Producer { stream, next: full };
    let consumer = Consumer {
        full: next,
        seat,
        crew,
        pairs,
        buffers,
        rounds,
    };
    (producer, consumer)
}

// Fills the next buffer and processes the full one.
fn fill_and_work<P: PairStream, M: CostModel, G: Gate, R: Threads + Sync>(
    rt: &R,
    shared: &Shared<M>,
    gate: &G,
    producer: Producer<P>,
    consumer: Consumer<M>,
) -> (Producer<P>, Consumer<M>)
    requires { MayWorkBuffer M.KIND shared.now consumer }
    ensures filled { IsFilled P.left P.ended producer result.0 }
    ensures total { P.total result.0.stream ≡ P.total producer.stream }
    ensures worked { HasWorkedBuffer M.KIND shared.now consumer result.1 }
{
    let number = consumer.buffers + 1;
    both(
        rt,
        fills_beside(shared.workers),
        move || producer.fill(gate, number),
        move ||
            requires { MayWorkBuffer M.KIND shared.now consumer }
        { consumer.work(rt, shared, gate) },
    )
}

// Processes the full buffer and fills the other one, which is the full one then.
fn step<P: PairStream, M: CostModel, G: Gate, R: Threads + Sync>(
    rt: &R,
    shared: &Shared<M>,
    gate: &G,
    producer: Producer<P>,
    consumer: Consumer<M>,
) -> (Producer<P>, Consumer<M>)
    requires running { IsRunning M.KIND P.left P.ended shared.now producer consumer }
    requires full { length consumer.full.pairs ≡ consumer.full.room }
    ensures running { IsRunning M.KIND P.left P.ended shared.now result.0 result.1 }
    ensures total { P.total result.0.stream ≡ P.total producer.stream }
    ensures totals { HasSameTotals consumer (to_come P.left producer consumer) result.1 (to_come P.left result.0 result.1) }
    ensures fewer { length result.1.full.pairs + length (P.left result.0.stream) < length consumer.full.pairs + length (P.left producer.stream) }
{
    let (producer, consumer) = fill_and_work(rt, shared, gate, producer, consumer);
    exchange(producer, consumer)
}

/// Processes all buffers: each full one while the next one is filled, and then the last, which isn't full.
pub(crate) fn work_all<P: PairStream, M: CostModel, G: Gate, R: Threads + Sync>(
    rt: &R,
    shared: &Shared<M>,
    gate: &G,
    producer: Producer<P>,
    consumer: Consumer<M>,
) -> (Producer<P>, Consumer<M>)
    requires { IsRunning M.KIND P.left P.ended shared.now producer consumer }
    ensures worked { HasEnded M.KIND shared.now result.1 }
    ensures counted { HasCounted consumer (to_come P.left producer consumer) result.1 }
    ensures ended { IsTrue (P.ended result.0.stream) }
    ensures total { P.total result.0.stream ≡ P.total producer.stream }
{
    let mut producer = producer;
    let mut consumer = consumer;
    'buffers: while consumer.full.is_full() {
        let (filled, worked) = step(rt, shared, gate, producer, consumer);
        producer = filled;
        consumer = worked;
    }
    let consumer = consumer.work(rt, shared, gate);
    (producer, consumer)
}
