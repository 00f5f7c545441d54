//! What a gate sees of a run.
ghost use Rattle.std.specs.Prelude.{◌≤◌};

use super::fixtures::{
    Meeting, Shape, Tally, Watch, query_of_ones, solve_by_dpccp, solve_by_dpsize,
};
use crate::OpenGate;
use dpe_base::{BUFFER_MAX, Pair, Query, WORKERS_MAX};
use enum_dpsize::DpSize;
use join_graph::Graph;
use pair_stream::{Parts, collect_pairs};
use reorder_buffer::SIZES;
use std::alloc::Global;
use std::test::Fail;
use std::thread::Threads;

// A clique of ten fills a buffer of 4,096 pairs, and one of eleven the largest buffer. Relations, and pairs.
const CLIQUE_OF_TEN: (u8, u64) = (10, 28_501);

const CLIQUE_OF_ELEVEN: (u8, u64) = (11, 86_526);

// Whether all workers meet in the first group of a run over a clique that fills buffers of so many pairs: the group has
// threads, small as it is.
fn meets_at_first<R: Threads + Sync>(
    rt: &R,
    alloc: Global,
    clique: (u8, u64),
    buffer: u32,
    workers: u32,
) -> Result<bool, Fail>
    requires buffer { (1 ≤ buffer) × (buffer ≤ BUFFER_MAX) }
    requires workers { (1 ≤ workers) × (workers ≤ WORKERS_MAX) }
{
    let (relations, pairs) = clique;
    let query = query_of_ones(alloc, Shape::Clique, relations)?;
    let gate = Meeting::of_workers(alloc, workers, 0)?;
    let solved = solve_by_dpccp(rt, alloc, &query, buffer, workers, &gate)?;
    Ok(gate.took_place() && solved.pairs == pairs)
}

#[test]
fn all_workers_meet_in_the_first_group(rt: HostRuntime) -> Result<(), Fail> {
    for workers in [2, 3, 4, WORKERS_MAX] {
        assert!(rt; meets_at_first(&rt, rt.alloc(), CLIQUE_OF_TEN, 32, workers)?);
        assert!(rt; meets_at_first(&rt, rt.alloc(), CLIQUE_OF_TEN, 1_000, workers)?);
        assert!(rt; meets_at_first(&rt, rt.alloc(), CLIQUE_OF_TEN, 4_096, workers)?);
    }
    Ok(())
}

#[test]
fn all_workers_meet_in_the_first_group_of_the_largest_buffer(rt: HostRuntime) -> Result<(), Fail> {
    for workers in [2, 3, 4, WORKERS_MAX] {
        assert!(rt; meets_at_first(&rt, rt.alloc(), CLIQUE_OF_ELEVEN, BUFFER_MAX, workers)?);
    }
    Ok(())
}

// Whether the group of this ticket has one thread, in a run over a clique.
fn has_one_thread<R: Threads + Sync>(
    rt: &R,
    alloc: Global,
    clique: (u8, u64),
    buffer: u32,
    workers: u32,
    first: u64,
) -> Result<bool, Fail>
    requires buffer { (1 ≤ buffer) × (buffer ≤ BUFFER_MAX) }
    requires workers { (1 ≤ workers) × (workers ≤ WORKERS_MAX) }
{
    let (relations, pairs) = clique;
    let query = query_of_ones(alloc, Shape::Clique, relations)?;
    let watch = Watch::from(first);
    let solved = solve_by_dpccp(rt, alloc, &query, buffer, workers, &watch)?;
    Ok(watch.saw_one_thread() && solved.pairs == pairs)
}

// The first group of a run has none where a buffer holds fewer than 32 pairs, or isn't filled; later groups of fewer than
// 16,384 pairs have none: so many tickets are drawn before the second buffer or later that it is of a later group.
#[test]
fn other_groups_have_no_threads(rt: HostRuntime) -> Result<(), Fail> {
    for workers in [1, 2, 3, 4, WORKERS_MAX] {
        assert!(rt; has_one_thread(&rt, rt.alloc(), CLIQUE_OF_TEN, 31, workers, 0)?);
        assert!(rt; has_one_thread(&rt, rt.alloc(), CLIQUE_OF_TEN, BUFFER_MAX, workers, 0)?);
        assert!(rt; has_one_thread(&rt, rt.alloc(), CLIQUE_OF_TEN, 1_000, workers, 2_000)?);
        assert!(rt; has_one_thread(&rt, rt.alloc(), CLIQUE_OF_TEN, 4_096, workers, 5_000)?);
        assert!(rt;
            has_one_thread(
                &rt,
                rt.alloc(),
                CLIQUE_OF_ELEVEN,
                BUFFER_MAX,
                workers,
                67_000
            )?
        );
    }
    Ok(())
}

// Whether a draw of the first buffer meets the filling of the second, in a run over a clique that fills the first.
fn meets_the_second_filling<R: Threads + Sync>(
    rt: &R,
    alloc: Global,
    clique: (u8, u64),
    buffer: u32,
    workers: u32,
) -> Result<bool, Fail>
    requires buffer { (1 ≤ buffer) × (buffer ≤ BUFFER_MAX) }
    requires workers { (1 ≤ workers) × (workers ≤ WORKERS_MAX) }
{
    let (relations, pairs) = clique;
    let query = query_of_ones(alloc, Shape::Clique, relations)?;
    let gate = Meeting::with_filling(alloc, 0, 1)?;
    let solved = solve_by_dpccp(rt, alloc, &query, buffer, workers, &gate)?;
    Ok(gate.took_place() && solved.pairs == pairs)
}

// Whether a draw of a later buffer of one pair meets the filling of the next: each of ten such buffers has one round, which
// draws a ticket more than there are workers.
fn meets_a_later_filling<R: Threads + Sync>(
    rt: &R,
    alloc: Global,
    workers: u32,
) -> Result<bool, Fail>
    requires { (1 ≤ workers) × (workers ≤ WORKERS_MAX) }
{
    let query = query_of_ones(alloc, Shape::Chain, 4)?;
    let gate = Meeting::with_filling(alloc, 2 * (workers as u64 + 1), 3)?;
    solve_by_dpccp(rt, alloc, &query, 1, workers, &gate)?;
    Ok(gate.took_place())
}

#[test]
fn each_buffer_is_filled_beside_the_work(rt: HostRuntime) -> Result<(), Fail> {
    for workers in [2, 3, 4, WORKERS_MAX] {
        assert!(rt; meets_a_later_filling(&rt, rt.alloc(), workers)?);
        assert!(rt; meets_the_second_filling(&rt, rt.alloc(), CLIQUE_OF_TEN, 1_000, workers)?);
        assert!(rt; meets_the_second_filling(&rt, rt.alloc(), CLIQUE_OF_TEN, 4_096, workers)?);
        assert!(rt;
            meets_the_second_filling(&rt, rt.alloc(), CLIQUE_OF_ELEVEN, BUFFER_MAX, workers)?
        );
    }
    Ok(())
}

// One worker draws the two tickets of buffer k - 1 after buffer k is filled, and before buffer k + 1 is.
#[test]
fn one_worker_fills_in_turn(rt: HostRuntime) -> Result<(), Fail> {
    let query = query_of_ones(rt.alloc(), Shape::Chain, 4)?;
    let tally = Tally::of(rt.alloc(), 20, 1, 11)?;
    solve_by_dpccp(&rt, rt.alloc(), &query, 1, 1, &tally)?;
    assert!(rt; tally.has_each_once());
    assert_eq!(rt; (tally.draws_before(0), tally.draws_before(1)), (0, 0));
    assert_eq!(rt; (tally.draws_before(2), tally.draws_before(3)), (2, 4));
    assert_eq!(rt; tally.draws_before(10), 18);
    Ok(())
}

// The groups of a buffer that holds fewer than 32 pairs have no threads: worker 0 draws the tickets of all pairs, and each
// worker one past them in each of the 7 rounds.
#[test]
fn small_groups_run_in_one_thread(rt: HostRuntime) -> Result<(), Fail> {
    let query = query_of_ones(rt.alloc(), Shape::Chain, 4)?;
    let tally = Tally::of(rt.alloc(), 31, 3, 4)?;
    let solved = solve_by_dpccp(&rt, rt.alloc(), &query, 3, 3, &tally)?;
    assert_eq!(rt; (solved.pairs, solved.buffers, solved.rounds), (10, 4, 7));
    assert!(rt; tally.has_each_once());
    assert_eq!(rt;
        (tally.draws_of(0), tally.draws_of(1), tally.draws_of(2)),
        (17, 7, 7)
    );
    Ok(())
}

// Whether a run over a clique of ten by buffers of 1,000 pairs names each worker and each of 29 buffers, draws each ticket
// once, and ends in the words of `row`.
fn names_all<R: Threads + Sync>(
    rt: &R,
    alloc: Global,
    query: &Query,
    workers: u32,
    rounds: u64,
    row: &[u64],
) -> Result<bool, Fail>
    requires { (1 ≤ workers) × (workers ≤ WORKERS_MAX) }
{
    let tickets = (workers as u64).wrapping_mul(rounds).wrapping_add(28_501);
    let tally = Tally::of(alloc, tickets, workers, 29)?;
    let solved = solve_by_dpccp(rt, alloc, query, 1_000, workers, &tally)?;
    Ok(
        solved.rounds == rounds
            && solved.words.row() == row
            && tally.has_each_once()
            && tally.has_all_workers(rounds),
    )
}

#[test]
fn a_gate_sees_each_worker_and_each_buffer(rt: HostRuntime) -> Result<(), Fail> {
    let query = query_of_ones(rt.alloc(), Shape::Clique, 10)?;
    let solved = solve_by_dpccp(&rt, rt.alloc(), &query, 1_000, 1, &OpenGate)?;
    let row = solved.words.row();
    let rounds = solved.rounds;
    assert!(rt; names_all(&rt, rt.alloc(), &query, 1, rounds, row)?);
    assert!(rt; names_all(&rt, rt.alloc(), &query, 2, rounds, row)?);
    assert!(rt; names_all(&rt, rt.alloc(), &query, 3, rounds, row)?);
    assert!(rt; names_all(&rt, rt.alloc(), &query, 5, rounds, row)?);
    assert!(rt; names_all(&rt, rt.alloc(), &query, 63, rounds, row)?);
    assert!(rt; names_all(&rt, rt.alloc(), &query, WORKERS_MAX, rounds, row)?);
    Ok(())
}

// How many pairs of the run have a union of so many relations.
fn group_len(run: &[Pair], size: u32) -> u64 {
    let mut count = 0u64;
    'pairs: for pair in run {
        if pair.a.union(pair.b).len() == size {
            count = count.wrapping_add(1);
        }
    }
    count
}

// The first ticket of the first group of more than `pairs` pairs, where the list is worked by runs of `room` pairs: each
// worker overdraws once in each group before.
fn first_ticket_of_a_group(list: &[Pair], room: usize, workers: u64, pairs: u64) -> Option<u64>
    requires { 1 ≤ room }
{
    let mut ticket = 0u64;
    'runs: for run in list.chunks(room) {
        'sizes: for size in 2..SIZES as u32 {
            let count = group_len(run, size);
            if count > pairs {
                return Some(ticket);
            }
            if count > 0 {
                ticket = ticket.wrapping_add(count).wrapping_add(workers);
            }
        }
    }
    None
}

fn pairs_by_dpsize(alloc: Global, graph: &Graph) -> Result<Vec<Pair>, Fail> {
    let parts = Parts::make(alloc, graph)?;
    let mut stream = DpSize::over(graph, &parts);
    Ok(collect_pairs(alloc, &mut stream)?)
}

// Whether all workers meet in a group of more than 30,000 pairs that isn't the first.
fn meets_in_a_large_group<R: Threads + Sync>(
    rt: &R,
    alloc: Global,
    query: &Query,
    list: &[Pair],
    workers: u32,
) -> Result<bool, Fail>
    requires { (1 ≤ workers) × (workers ≤ WORKERS_MAX) }
{
    let found = first_ticket_of_a_group(list, BUFFER_MAX as usize, workers as u64, 30_000);
    let first = found.ok_or("no group of more than 30,000 pairs")?;
    let gate = Meeting::of_workers(alloc, workers, first)?;
    let solved = solve_by_dpsize(rt, alloc, query, BUFFER_MAX, workers, &gate)?;
    Ok(first > 0 && gate.took_place() && solved.pairs == list.len() as u64)
}

// 78 + 858 + 5,005 + 19,305 pairs of a clique of 13 have unions of up to five relations, and 40,290 of the first buffer six.
#[test]
fn all_workers_meet_in_a_large_group(rt: HostRuntime) -> Result<(), Fail> {
    let query = query_of_ones(rt.alloc(), Shape::Clique, 13)?;
    let list = pairs_by_dpsize(rt.alloc(), &Graph::of(&query))?;
    assert!(rt; meets_in_a_large_group(&rt, rt.alloc(), &query, &list, 2)?);
    assert!(rt; meets_in_a_large_group(&rt, rt.alloc(), &query, &list, 3)?);
    assert!(rt; meets_in_a_large_group(&rt, rt.alloc(), &query, &list, 4)?);
    assert!(rt; meets_in_a_large_group(&rt, rt.alloc(), &query, &list, WORKERS_MAX)?);
    Ok(())
}
