//! Rounds by the public call: every worker has a thread of its own, whatever the group's size.
ghost use Rattle.std.specs.Prelude.{◌≡◌, ◌≤◌, ◌<◌, ◌+◌, IfOk};
ghost use Rattle.dpe_engine.specs.Running.Between.{MayWorkGroup};

use super::fixtures::{CHAIN_OF_FOUR, Meeting, Shape, query_of_ones};
use crate::run::consumer::Consumer;
use crate::run::producer::Producer;
use crate::run::shared::Shared;
use crate::seeded::SeededEngine;
use crate::{Gate, OpenGate, round};
use cost_model::Ops;
use dpe_base::WORKERS_MAX;
use enum_dpccp::DpCcp;
use join_graph::Graph;
use reorder_buffer::SIZES;
use std::alloc::Global;
use std::test::Fail;
use std::thread::Threads;

// What a run over a chain of four has before its first group: all ten pairs are in the buffer.
fn opened(alloc: Global, workers: u32) -> Result<(Shared<Ops>, Consumer<Ops>), Fail>
    requires { (1 ≤ workers) × (workers ≤ WORKERS_MAX) }
    ensures { IfOk result (λ r. MayWorkGroup 0 r.0 0 r.1) }
{
    let query = query_of_ones(alloc, Shape::Chain, 4)?;
    let stream = DpCcp::over(&Graph::of(&query));
    let engine = SeededEngine::<Ops>::prepare(alloc, &query, Ops, 100, workers, &stream)?;
    let (shared, _, consumer) = engine.opened(stream, &OpenGate);
    Ok((shared, consumer))
}

// A round over the pairs of one size of union, if there are any, and how many tickets were drawn before it.
fn work_level<G: Gate, R: Threads + Sync>(
    rt: &R,
    shared: &Shared<Ops>,
    gate: &G,
    size: u32,
    consumer: &mut Consumer<Ops>,
) -> Option<u64>
    requires size { size < SIZES }
    requires may { MayWorkGroup 0 shared.now size consumer.old }
    ensures may { MayWorkGroup 0 shared.now (size + 1) consumer.new }
{
    if consumer.full.count(size) == 0 {
        return None;
    }
    let group = consumer.full.group(size);
    let base = round(
        rt,
        &shared.memo,
        &mut consumer.seat,
        &mut consumer.crew,
        shared.workers,
        group,
        &shared.model,
        &shared.cards,
        gate,
    );
    consumer.rounds += 1;
    Some(base)
}

// How many of the ten pairs have a union of so many relations.
const PAIRS_BY_SIZE: [u64; 5] = [0, 0, 3, 4, 3];

// Whether all workers meet in a round for each size of union, the tickets of each begin where those of the one before end,
// and the words are those of the chain. Each worker draws one ticket past the pairs.
fn meets_in_each_round<R: Threads + Sync>(rt: &R, alloc: Global, workers: u32) -> Result<bool, Fail>
    requires { (1 ≤ workers) × (workers ≤ WORKERS_MAX) }
{
    let (shared, mut consumer) = opened(alloc, workers)?;
    let mut drawn = 0u64;
    'sizes: for size in 0..5u32 {
        let pairs = PAIRS_BY_SIZE[size as usize];
        let gate = Meeting::of_workers(alloc, workers, 0)?;
        let base = work_level(rt, &shared, &gate, size, &mut consumer);
        if pairs == 0 && base.is_none() {
            continue;
        }
        if base != Some(drawn) || !gate.took_place() {
            return Ok(false);
        }
        drawn = drawn.wrapping_add(pairs).wrapping_add(workers as u64);
    }
    let words = shared.memo.finish(consumer.seat);
    Ok(words.drawn() == drawn && words.row() == CHAIN_OF_FOUR.as_slice())
}

#[test]
fn all_workers_meet_in_rounds_of_a_few_pairs(rt: HostRuntime) -> Result<(), Fail> {
    for workers in [1, 2, 3, 4, WORKERS_MAX] {
        assert!(rt; meets_in_each_round(&rt, rt.alloc(), workers)?);
    }
    Ok(())
}
