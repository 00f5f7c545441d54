//! A run that starts no thread ends in the numbers and the words of one that may.
ghost use Rattle.std.specs.Prelude.{◌≤◌};

use super::fixtures::{Rota, Shape, Tally, query_of_ones, solve_alone_by_dpccp, solve_by_dpccp};
use crate::{OpenGate, Solved};
use dpe_base::{BUFFER_MAX, Query, WORKERS_MAX};
use std::alloc::{AllocError, Global};
use std::test::Fail;
use std::thread::Threads;

fn is_same(one: &Solved, other: &Solved) -> bool {
    (one.pairs, one.buffers, one.rounds) == (other.pairs, other.buffers, other.rounds)
        && one.words.drawn() == other.words.drawn()
        && one.words.row() == other.words.row()
}

// Whether the run alone ends as the one that may start threads.
fn ends_as_run<R: Threads + Sync>(
    rt: &R,
    alloc: Global,
    query: &Query,
    buffer: u32,
    workers: u32,
) -> Result<bool, AllocError>
    requires buffer { (1 ≤ buffer) × (buffer ≤ BUFFER_MAX) }
    requires workers { (1 ≤ workers) × (workers ≤ WORKERS_MAX) }
{
    let run = solve_by_dpccp(rt, alloc, query, buffer, workers, &OpenGate)?;
    let alone = solve_alone_by_dpccp(alloc, query, buffer, workers, &OpenGate)?;
    Ok(is_same(&run, &alone))
}

// Whether it does so for four buffers, each with other workers.
fn ends_as_runs<R: Threads + Sync>(
    rt: &R,
    alloc: Global,
    query: &Query,
) -> Result<bool, AllocError> {
    let of_one = ends_as_run(rt, alloc, query, 1, 1)?;
    let of_seven = ends_as_run(rt, alloc, query, 7, 2)?;
    let of_hundred = ends_as_run(rt, alloc, query, 100, WORKERS_MAX)?;
    let of_most = ends_as_run(rt, alloc, query, BUFFER_MAX, 4)?;
    Ok(of_one && of_seven && of_hundred && of_most)
}

#[test]
fn same_numbers_and_words_alone(rt: HostRuntime) -> Result<(), Fail> {
    let single = query_of_ones(rt.alloc(), Shape::Chain, 1)?;
    assert!(rt; ends_as_runs(&rt, rt.alloc(), &single)?);
    let chain = query_of_ones(rt.alloc(), Shape::Chain, 10)?;
    assert!(rt; ends_as_runs(&rt, rt.alloc(), &chain)?);
    let cycle = query_of_ones(rt.alloc(), Shape::Cycle, 8)?;
    assert!(rt; ends_as_runs(&rt, rt.alloc(), &cycle)?);
    let star = query_of_ones(rt.alloc(), Shape::Star, 8)?;
    assert!(rt; ends_as_runs(&rt, rt.alloc(), &star)?);
    let clique = query_of_ones(rt.alloc(), Shape::Clique, 8)?;
    assert!(rt; ends_as_runs(&rt, rt.alloc(), &clique)?);
    Ok(())
}

// A run that may start threads would start them for the first group here.
#[test]
fn workers_take_turns_alone(rt: HostRuntime) -> Result<(), Fail> {
    let query = query_of_ones(rt.alloc(), Shape::Clique, 8)?;
    let by_two = Rota::of(2);
    solve_alone_by_dpccp(rt.alloc(), &query, 1_000, 2, &by_two)?;
    let by_four = Rota::of(4);
    solve_alone_by_dpccp(rt.alloc(), &query, 1_000, 4, &by_four)?;
    let by_most = Rota::of(WORKERS_MAX);
    solve_alone_by_dpccp(rt.alloc(), &query, 1_000, WORKERS_MAX, &by_most)?;
    assert!(rt; by_two.was_kept() && by_four.was_kept() && by_most.was_kept());
    Ok(())
}

// Each of three workers draws a ticket past the pair of each buffer. The tickets of buffer k - 1 are drawn after buffer k
// is filled, and before buffer k + 1 is.
#[test]
fn buffers_are_filled_in_turn_alone(rt: HostRuntime) -> Result<(), Fail> {
    let query = query_of_ones(rt.alloc(), Shape::Chain, 4)?;
    let tally = Tally::of(rt.alloc(), 40, 3, 11)?;
    solve_alone_by_dpccp(rt.alloc(), &query, 1, 3, &tally)?;
    assert!(rt; tally.has_each_once());
    assert_eq!(rt;
        (tally.draws_of(0), tally.draws_of(1), tally.draws_of(2)),
        (20, 10, 10)
    );
    assert_eq!(rt; (tally.draws_before(0), tally.draws_before(1)), (0, 0));
    assert_eq!(rt; (tally.draws_before(2), tally.draws_before(3)), (4, 8));
    assert_eq!(rt; tally.draws_before(10), 36);
    Ok(())
}
