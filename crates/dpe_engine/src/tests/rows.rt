//! The words of a run are the same whatever the buffer and the number of workers.
ghost use Rattle.std.specs.Prelude.{◌≤◌};

use super::fixtures::{CHAIN_OF_FOUR, Shape, query_of_ones, solve_by_dpccp};
use crate::{OpenGate, Solved};
use dpe_base::{BUFFER_MAX, Query, WORKERS_MAX};
use std::alloc::{AllocError, Global};
use std::test::Fail;
use std::thread::Threads;

fn open_run<R: Threads + Sync>(
    rt: &R,
    alloc: Global,
    query: &Query,
    buffer: u32,
    workers: u32,
) -> Result<Solved, AllocError>
    requires buffer { (1 ≤ buffer) × (buffer ≤ BUFFER_MAX) }
    requires workers { (1 ≤ workers) × (workers ≤ WORKERS_MAX) }
{
    solve_by_dpccp(rt, alloc, query, buffer, workers, &OpenGate)
}

// The pairs in the order of DPccp have unions of 2, 2 and 3 relations, of 3, 2 and 3, of 4, 3 and 4, and of 4: so there
// are 2 + 2 + 2 + 1 rounds.
#[test]
fn chain_of_four_by_buffers_of_three(rt: HostRuntime) -> Result<(), Fail> {
    let query = query_of_ones(rt.alloc(), Shape::Chain, 4)?;
    let by_one = open_run(&rt, rt.alloc(), &query, 3, 1)?;
    let by_two = open_run(&rt, rt.alloc(), &query, 3, 2)?;
    let by_four = open_run(&rt, rt.alloc(), &query, 3, 4)?;
    for (solved, drawn) in [(&by_one, 17), (&by_two, 24), (&by_four, 38)] {
        assert_eq!(rt; (solved.pairs, solved.buffers, solved.rounds), (10, 4, 7));
        assert_eq!(rt; solved.words.drawn(), drawn);
        assert_eq!(rt; solved.words.row(), CHAIN_OF_FOUR.as_slice());
    }
    Ok(())
}

// Whether four runs over the query process so many pairs each, and end in the same words. `small` is the buffer of many
// workers, who start a thread for each buffer.
fn is_same_for_all<R: Threads + Sync>(
    rt: &R,
    alloc: Global,
    query: &Query,
    small: u32,
    pairs: u64,
) -> Result<bool, AllocError>
    requires small { (1 ≤ small) × (small ≤ BUFFER_MAX) }
{
    let first = open_run(rt, alloc, query, BUFFER_MAX, 1)?;
    let second = open_run(rt, alloc, query, BUFFER_MAX, WORKERS_MAX)?;
    let third = open_run(rt, alloc, query, 1, 1)?;
    let fourth = open_run(rt, alloc, query, small, WORKERS_MAX)?;
    'runs: for solved in [&first, &second, &third, &fourth] {
        if solved.pairs != pairs || solved.words.row() != first.words.row() {
            return Ok(false);
        }
    }
    Ok(true)
}

#[test]
fn same_words_of_a_chain_of_sixteen(rt: HostRuntime) -> Result<(), Fail> {
    let query = query_of_ones(rt.alloc(), Shape::Chain, 16)?;
    assert!(rt; is_same_for_all(&rt, rt.alloc(), &query, 1, 680)?);
    Ok(())
}

#[test]
fn same_words_of_a_cycle_of_sixteen(rt: HostRuntime) -> Result<(), Fail> {
    let query = query_of_ones(rt.alloc(), Shape::Cycle, 16)?;
    assert!(rt; is_same_for_all(&rt, rt.alloc(), &query, 1, 1_800)?);
    Ok(())
}

#[test]
fn same_words_of_a_star_of_sixteen(rt: HostRuntime) -> Result<(), Fail> {
    let query = query_of_ones(rt.alloc(), Shape::Star, 16)?;
    assert!(rt; is_same_for_all(&rt, rt.alloc(), &query, 1_000, 245_760)?);
    Ok(())
}

#[test]
fn same_words_of_a_clique_of_ten(rt: HostRuntime) -> Result<(), Fail> {
    let query = query_of_ones(rt.alloc(), Shape::Clique, 10)?;
    assert!(rt; is_same_for_all(&rt, rt.alloc(), &query, 100, 28_501)?);
    Ok(())
}
