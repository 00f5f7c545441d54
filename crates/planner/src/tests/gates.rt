//! What a gate sees of a run: by what is told to it, a plan by other workers, another enumerator or another buffer than asked for is seen.
use crate::{Gate, Options, Planned, plan};
use cost_model::Cout;
use dpe_base::{BUFFER_MAX, Kind, Pair, Pred, Query, Rel, WORKERS_MAX};
use enum_dpccp::DpCcp;
use enum_dpsize::DpSize;
use join_graph::Graph;
use pair_stream::{DpSub, Parts, collect_pairs};
use std::alloc::{AllocError, Global};
use std::sync::atomic::{AtomicU64, Ordering};
use std::test::Fail;
use std::thread::Threads;

// Counts the draws and the fillings. A worker's number is a digit of `workers`; the buffers' numbers are added up.
#[derive(Drop)]
struct Tally {
    draws: AtomicU64,
    workers: AtomicU64,
    fillings: AtomicU64,
    buffers: AtomicU64,
}

impl Tally {
    fn new() -> Tally {
        Tally {
            draws: AtomicU64::new(0),
            workers: AtomicU64::new(0),
            fillings: AtomicU64::new(0),
            buffers: AtomicU64::new(0),
        }
    }
}

impl Gate for Tally {
    fn before(&self, worker: u32, _ticket: u64) {
        self.draws.fetch_add(1, Ordering::SeqCst);
        let digit = 1u64.checked_shl(worker).unwrap_or(0);
        self.workers.fetch_or(digit, Ordering::SeqCst);
    }

    fn filling(&self, buffer: u64) {
        self.fillings.fetch_add(1, Ordering::SeqCst);
        self.buffers.fetch_add(buffer, Ordering::SeqCst);
    }
}

// What a run told its gate.
#[derive(Clone, Copy, PartialEq, Eq, Debug)]
struct Told {
    draws: u64,
    workers: u64,
    fillings: u64,
    buffers: u64,
}

// What a run over so many pairs tells. Each pair is drawn, and in each round each worker draws a ticket past the pairs. The buffers
// are filled one after the other, until one isn't full.
fn told_by(pairs: u64, rounds: u64, buffer: u32, workers: u32) -> Told {
    let fillings = (pairs / (buffer as u64).max(1)).saturating_add(1);
    Told {
        draws: pairs.saturating_add(rounds.saturating_mul(workers as u64)),
        workers: u64::MAX >> (64u32.saturating_sub(workers)).min(63),
        fillings,
        buffers: fillings.saturating_mul(fillings.saturating_sub(1)) / 2,
    }
}

// Relations of one row: each joined with the next one, or with all others.
fn query_of_ones(alloc: Global, n: u8, in_line: bool) -> Result<Query, Fail> {
    let rel = Rel {
        rows: 1,
        num: 1,
        den: 1,
    };
    let rels = vec![in alloc; rel; n as usize]?;
    let mut preds = Vec::new(alloc);
    for high in 1..n {
        for low in 0..high {
            if !in_line || high - low == 1 {
                preds.push(Pred {
                    low,
                    high,
                    num: 1,
                    den: 1,
                })?;
            }
        }
    }
    Ok(Query::new(rels, preds)?)
}

// How a query is planned.
fn options(enumerator: Kind, buffer: u32, workers: u32) -> Options {
    Options {
        enumerator,
        buffer: buffer.max(1).min(BUFFER_MAX),
        workers: workers.max(1).min(WORKERS_MAX),
        ..Options::DEFAULT
    }
}

// The plan of the query, and what its run told.
fn watched<R: Threads + Sync>(
    rt: &R,
    alloc: Global,
    query: &Query,
    options: &Options,
) -> Result<(Planned, Told), Fail> {
    if Graph::of(query).first_unreached().is_some() {
        return Err("not connected".into());
    }
    let (buffer, workers) = (options.buffer, options.workers);
    if buffer < 1 || buffer > BUFFER_MAX || workers < 1 || workers > WORKERS_MAX {
        return Err("options out of range".into());
    }
    let gate = Tally::new();
    let planned = plan(rt, alloc, query, Cout, options, &gate)?;
    let told = Told {
        draws: gate.draws.load(Ordering::SeqCst),
        workers: gate.workers.load(Ordering::SeqCst),
        fillings: gate.fillings.load(Ordering::SeqCst),
        buffers: gate.buffers.load(Ordering::SeqCst),
    };
    Ok((planned, told))
}

// The pairs of an enumerator, in its order; DPsva has those of DPsize.
fn listed(alloc: Global, query: &Query, enumerator: Kind) -> Result<Vec<Pair>, AllocError> {
    let graph = Graph::of(query);
    match enumerator {
        Kind::DpCcp => collect_pairs(alloc, &mut DpCcp::over(&graph)),
        Kind::DpSub => collect_pairs(alloc, &mut DpSub::over(&graph)),
        Kind::DpSize | Kind::DpSva => {
            let parts = Parts::make(alloc, &graph)?;
            collect_pairs(alloc, &mut DpSize::over(&graph, &parts))
        }
    }
}

// How many sizes of union the pairs have.
fn sizes_of(pairs: &[Pair]) -> u64 {
    let mut sizes = 0u64;
    for size in 2..21u32 {
        if pairs.iter().any(|p| p.a.union(p.b).len() == size) {
            sizes = sizes.saturating_add(1);
        }
    }
    sizes
}

// The buffers of a list, and the rounds: one for each size of union in each buffer.
fn buffers_and_rounds(pairs: &[Pair], buffer: u32) -> (u64, u64) {
    let room = (buffer as usize).max(1);
    let (mut buffers, mut rounds) = (0u64, 0u64);
    'runs: for run in pairs.chunks(room) {
        rounds = rounds.saturating_add(sizes_of(run));
        buffers = buffers.saturating_add(1);
    }
    (buffers, rounds)
}

// The clique of ten has 28,501 pairs, whose unions have nine sizes.
#[test]
fn each_worker_that_was_asked_for_draws(rt: HostRuntime) -> Result<(), Fail> {
    let alloc = rt.alloc();
    let query = query_of_ones(alloc, 10, false)?;
    let pairs: u64 = (3u64.pow(10) + 1 - 2u64.pow(11)) / 2;
    for workers in [1u32, 2, 3, 5, 63, 64] {
        let (planned, told) = watched(&rt, alloc, &query, &options(Kind::DpCcp, 65_536, workers))?;
        assert_eq!(rt; told, told_by(pairs, 9, 65_536, workers), "{workers}");
        assert_eq!(rt; told.draws, planned.drawn, "{workers}");
    }
    let (planned, _) = watched(&rt, alloc, &query, &options(Kind::DpCcp, 65_536, 64))?;
    assert_eq!(rt; planned.drawn, 29_077);
    Ok(())
}

const ENUMERATORS: [Kind; 4] = [Kind::DpCcp, Kind::DpSub, Kind::DpSize, Kind::DpSva];

#[test]
fn rounds_are_those_of_the_enumerator(rt: HostRuntime) -> Result<(), Fail> {
    let alloc = rt.alloc();
    for in_line in [true, false] {
        let query = query_of_ones(alloc, 6, in_line)?;
        for enumerator in ENUMERATORS {
            let list = listed(alloc, &query, enumerator)?;
            for buffer in [1u32, 3, 10, 400] {
                let (buffers, rounds) = buffers_and_rounds(&list, buffer);
                let (planned, told) = watched(&rt, alloc, &query, &options(enumerator, buffer, 3))?;
                assert_eq!(rt; told, told_by(list.len() as u64, rounds, buffer, 3));
                assert_eq!(rt; planned.rounds, rounds);
                assert_eq!(rt; planned.buffers, buffers);
            }
        }
    }
    Ok(())
}

// By buffers of three pairs each enumerator but DPsva has rounds of its own.
#[test]
fn enumerators_differ_in_their_rounds(rt: HostRuntime) -> Result<(), Fail> {
    let alloc = rt.alloc();
    let query = query_of_ones(alloc, 4, false)?;
    for (enumerator, rounds) in [
        (Kind::DpCcp, 15u64),
        (Kind::DpSub, 11),
        (Kind::DpSize, 9),
        (Kind::DpSva, 9),
    ] {
        let (planned, told) = watched(&rt, alloc, &query, &options(enumerator, 3, 1))?;
        assert_eq!(rt; told, told_by(25, rounds, 3, 1));
        assert_eq!(rt; planned.probes > 0, enumerator == Kind::DpSva);
    }
    Ok(())
}
