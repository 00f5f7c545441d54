//! The largest workloads: a dense query, and the most entries.
use super::files::{crowded_file, numbered_file};
use super::run;
use crate::{OpenGate, Status};
use dpe_base::PREDS_MAX;
use io_edge::{MemSink, MemSource};
use std::alloc::{AllocError, Global};
use std::test::Fail;
use std::thread::Threads;

/// The status and the bytes of the answer, which may be long.
fn long_answer<R: Threads + Sync>(
    rt: &R,
    alloc: Global,
    words: &[&str],
    file: String,
) -> Result<(Status, Vec<u8>), AllocError> {
    let source = MemSource::new(file.into_bytes(), 4096, Vec::new(alloc));
    let sink = MemSink::new(alloc, 262_144, 4096, Vec::new(alloc))?;
    run(rt, alloc, words, source, sink, &OpenGate)
}

#[test]
fn thirteen_relations_are_joined_each_with_each(rt: HostRuntime) -> Result<(), Fail> {
    let alloc = rt.alloc();
    let mut joins = Vec::new(alloc);
    for high in 1..13 {
        for low in 0..high {
            joins.push((low, high))?;
        }
    }
    let file = numbered_file(alloc, "dense", 13, 1, joins.as_slice())?;
    let (status, written) = long_answer(&rt, alloc, &["--buffer", "65536"], file)?;
    assert_eq!(rt; status, Status::Done);
    assert!(rt;
        written.starts_with(
            b"query dense\ncost 24 rows 1 pairs 788970\nloop rows 1 cost 24\n  scan r0 rows 1\n"
        )
    );
    Ok(())
}

const QUERY: &str =
    "{\"name\":\"even\",\"relations\":[{\"alias\":\"a\",\"table\":\"a\"},{\"alias\":\"b\",\"table\":\"b\"}],\
\"joins\":[{\"left\":\"a\",\"right\":\"b\",\"selectivity\":[1,1]}]}";

const ENTRY: &str =
    "query even\ncost 130 rows 100 pairs 1\nhash rows 100 cost 130\n  scan a rows 10\n  scan b rows 10\n";

/// The most queries that a workload may have.
const MOST: u32 = 1024;

/// A file with as many copies of one query as it may have.
fn most_queries(alloc: Global) -> Result<String, AllocError> {
    let mut file = String::from_str(
        alloc,
        "{\"tables\":[{\"name\":\"a\",\"rows\":10},{\"name\":\"b\",\"rows\":10}],\"queries\":[",
    )?;
    file.push_str(QUERY)?;
    for _ in 1..MOST {
        file.push_str(",")?;
        file.push_str(QUERY)?;
    }
    file.push_str("]}")?;
    Ok(file)
}

#[test]
fn each_of_the_most_queries_has_its_entry(rt: HostRuntime) -> Result<(), Fail> {
    let alloc = rt.alloc();
    let cases: [(&[&str], &str); 2] = [
        (&[], ""),
        (
            &["--stats", "on"],
            "stats dpccp buffer 4096 buffers 1 rounds 1 probes 0\n",
        ),
    ];
    for (words, statistics) in cases {
        let (status, written) = long_answer(&rt, alloc, words, most_queries(alloc)?)?;
        let mut report = String::new(alloc);
        for _ in 0..MOST {
            report.push_str(ENTRY)?;
            report.push_str(statistics)?;
        }
        assert_eq!(rt; status, Status::Done, "{words:?}");
        assert_eq!(rt; written.as_slice(), report.as_bytes(), "{words:?}");
    }
    Ok(())
}

const ONE_SCAN: &str = "query q\ncost 0 rows 1 pairs 0\nscan a rows 1\n";

// The sink takes the whole report in its first call, and would fail at the next one.
#[test]
fn the_most_tables_and_queries_are_written_in_one_call(rt: HostRuntime) -> Result<(), Fail> {
    let alloc = rt.alloc();
    let file = crowded_file(alloc, 4096, MOST)?;
    let source = MemSource::new(file.into_bytes(), 4096, Vec::new(alloc));
    let fails: [u64; 1] = [1];
    let sink = MemSink::new(alloc, 65_536, 65_536, fails.to_vec(alloc)?)?;
    let (status, written) = run(&rt, alloc, &[], source, sink, &OpenGate)?;
    let mut report = String::new(alloc);
    for _ in 0..MOST {
        report.push_str(ONE_SCAN)?;
    }
    assert_eq!(rt; status, Status::Done);
    assert_eq!(rt; written.as_slice(), report.as_bytes());
    Ok(())
}

#[test]
fn a_query_of_the_most_joins_is_planned(rt: HostRuntime) -> Result<(), Fail> {
    let alloc = rt.alloc();
    let mut joins = Vec::new(alloc);
    for _ in 0..PREDS_MAX {
        joins.push((0, 1))?;
    }
    let file = numbered_file(alloc, "many", 2, 1, joins.as_slice())?;
    let (status, written) = long_answer(&rt, alloc, &[], file)?;
    assert_eq!(rt; status, Status::Done);
    assert_eq!(rt;
        written.as_slice(),
        "query many\ncost 2 rows 1 pairs 1\nloop rows 1 cost 2\n  scan r0 rows 1\n  scan r1 rows 1\n".as_bytes()
    );
    Ok(())
}
