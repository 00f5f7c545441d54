//! What a gate sees of runs over cliques, and of samples.
use super::gates::{DrawMeetsFilling, Tally, WorkersMeet};
use super::run;
use super::shapes::{clique_joins, clique_of, one_by_one, shape_file};
use crate::{Gate, Status};
use io_edge::{MemSink, MemSource};
use std::alloc::Global;
use std::test::Fail;
use std::thread::Threads;

/// Whether the clique of so many relations is planned under the gate as it is without one.
fn is_planned_under<R: Threads + Sync, G: Gate>(
    rt: &R,
    alloc: Global,
    relations: u8,
    words: &[&str],
    gate: &G,
) -> Result<bool, Fail> {
    let joins = clique_joins(alloc, relations)?;
    let shape = clique_of(relations, joins.as_slice());
    let file = shape_file(alloc, &shape)?;
    let report = one_by_one(alloc, &shape)?;
    let source = MemSource::new(file.into_bytes(), 4096, Vec::new(alloc));
    let sink = MemSink::new(alloc, 8192, 4096, Vec::new(alloc))?;
    let (status, written) = run(rt, alloc, words, source, sink, gate)?;
    Ok(status == Status::Done && written.as_slice() == report.as_bytes())
}

// Relations and a buffer that their pairs fill. The first group of such a run is shared by threads.
static FULL_BUFFERS: [(u8, &str); 3] = [(10, "1000"), (10, "4096"), (11, "65536")];

static WORKERS: [(u64, &str); 4] = [(2, "2"), (3, "3"), (4, "4"), (64, "64")];

#[test]
fn all_workers_draw_at_the_same_time(rt: HostRuntime) -> Result<(), Fail> {
    let alloc = rt.alloc();
    for (relations, buffer) in FULL_BUFFERS {
        for (count, workers) in WORKERS {
            let words = ["--workers", workers, "--buffer", buffer];
            let gate = WorkersMeet::from_ticket(alloc, 0, count)?;
            assert!(rt;
                is_planned_under(&rt, alloc, relations, &words, &gate)?,
                "{words:?}"
            );
            assert!(rt; gate.took_place(), "{words:?}");
        }
    }
    Ok(())
}

// By DPsize the pairs of eleven relations come by the size of their unions: five groups with 24,112 pairs, and then one
// with 20,790, which is large enough to be shared by threads.
#[test]
fn all_workers_draw_at_the_same_time_in_a_large_group(rt: HostRuntime) -> Result<(), Fail> {
    let alloc = rt.alloc();
    for (count, workers) in WORKERS {
        let words = [
            "--enumerator",
            "dpsize",
            "--workers",
            workers,
            "--buffer",
            "65536",
        ];
        let first = count.saturating_mul(5).saturating_add(24_112);
        let gate = WorkersMeet::from_ticket(alloc, first, count)?;
        assert!(rt;
            is_planned_under(&rt, alloc, 11, &words, &gate)?,
            "{words:?}"
        );
        assert!(rt; gate.took_place(), "{words:?}");
    }
    Ok(())
}

#[test]
fn a_buffer_is_filled_beside_the_work(rt: HostRuntime) -> Result<(), Fail> {
    let alloc = rt.alloc();
    for (relations, buffer) in FULL_BUFFERS {
        for (_, workers) in WORKERS {
            let words = ["--workers", workers, "--buffer", buffer];
            let gate = DrawMeetsFilling::new(alloc)?;
            assert!(rt;
                is_planned_under(&rt, alloc, relations, &words, &gate)?,
                "{words:?}"
            );
            assert!(rt; gate.took_place(), "{words:?}");
        }
    }
    Ok(())
}

// One buffer has all pairs of ten relations, in nine rounds, and each worker draws one ticket past the pairs in each.
#[test]
fn each_number_is_seen(rt: HostRuntime) -> Result<(), Fail> {
    let alloc = rt.alloc();
    for (count, workers, tickets) in [
        (1u64, "1", 28_510u64),
        (2, "2", 28_519),
        (3, "3", 28_528),
        (64, "64", 29_077),
    ] {
        let words = ["--workers", workers, "--buffer", "65536"];
        let gate = Tally::below(alloc, tickets, count, 1)?;
        assert!(rt;
            is_planned_under(&rt, alloc, 10, &words, &gate)?,
            "{words:?}"
        );
        assert!(rt; gate.tickets.has_each_once(), "{words:?}");
        assert!(rt; gate.workers.has_each(), "{words:?}");
        assert!(rt; gate.buffers.has_each_once(), "{words:?}");
    }
    for workers in ["1", "4"] {
        let words = ["--workers", workers, "--buffer", "1000"];
        let gate = Tally::below(alloc, 0, 0, 29)?;
        assert!(rt;
            is_planned_under(&rt, alloc, 10, &words, &gate)?,
            "{words:?}"
        );
        assert!(rt; gate.buffers.has_each_once(), "{words:?}");
    }
    Ok(())
}

// How the clique of ten relations is planned, without statistics, by the other enumerators: the tickets that the workers draw, one for
// each pair and one past the pairs for each worker in each round, and the buffers that are filled. The enumerator shows in the rounds.
static ENUMERATORS: [(&str, &str, u64, &str, u64, u64); 6] = [
    ("dpsub", "1000", 1, "1", 28_655, 29),
    ("dpsub", "4096", 3, "3", 28_648, 7),
    ("dpsize", "1000", 1, "1", 28_538, 29),
    ("dpsize", "4096", 3, "3", 28_546, 7),
    ("dpsva", "1000", 1, "1", 28_538, 29),
    ("dpsva", "4096", 3, "3", 28_546, 7),
];

#[test]
fn pairs_are_drawn_by_the_enumerator_that_is_asked_for(rt: HostRuntime) -> Result<(), Fail> {
    let alloc = rt.alloc();
    for (enumerator, buffer, count, workers, draws, buffers) in ENUMERATORS {
        let words = [
            "--enumerator",
            enumerator,
            "--buffer",
            buffer,
            "--workers",
            workers,
        ];
        let gate = Tally::below(alloc, draws, count, buffers)?;
        assert!(rt;
            is_planned_under(&rt, alloc, 10, &words, &gate)?,
            "{words:?}"
        );
        assert_eq!(rt; gate.draws(), draws, "{words:?}");
        assert!(rt; gate.tickets.has_each_once(), "{words:?}");
        assert!(rt; gate.workers.has_each(), "{words:?}");
        assert!(rt; gate.buffers.has_each_once(), "{words:?}");
    }
    Ok(())
}

// How sample 7 is planned, which has 2,636 pairs and 45 sizes of unions: the enumerator, the buffer, the workers, how
// many tickets they draw, how often a buffer is filled, and how many buffers the query with the most pairs has.
static SAMPLES: [(&str, &str, u64, &str, u64, u64, u64); 6] = [
    ("dpccp", "65536", 64, "64", 5516, 8, 1),
    ("dpccp", "65536", 1, "1", 2681, 8, 1),
    ("dpccp", "3", 1, "1", 4495, 884, 415),
    ("dpsub", "3", 1, "1", 3773, 884, 415),
    ("dpsize", "3", 1, "1", 3541, 884, 415),
    ("dpsize", "16", 3, "3", 3245, 169, 78),
];

#[test]
fn samples_are_planned_as_is_asked_for(rt: HostRuntime) -> Result<(), Fail> {
    let alloc = rt.alloc();
    for (enumerator, buffer, count, workers, draws, fillings, buffers) in SAMPLES {
        let words = [
            "--mode=sample",
            "--number=7",
            "--enumerator",
            enumerator,
            "--buffer",
            buffer,
            "--workers",
            workers,
        ];
        let gate = Tally::below(alloc, 0, count, buffers)?;
        let source = MemSource::new(Vec::new(alloc), 64, Vec::new(alloc));
        let sink = MemSink::new(alloc, 256, 64, Vec::new(alloc))?;
        let (status, _) = run(&rt, alloc, &words, source, sink, &gate)?;
        assert_eq!(rt; status, Status::Done, "{words:?}");
        assert_eq!(rt; gate.draws(), draws, "{words:?}");
        assert_eq!(rt; gate.fillings(), fillings, "{words:?}");
        assert!(rt; gate.workers.has_each(), "{words:?}");
        assert!(rt; gate.buffers.has_each(), "{words:?}");
    }
    Ok(())
}
