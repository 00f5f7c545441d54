//! Several queries of a workload, planned at the same time.
use super::files::repeated_file;
use super::gates::RunsMeet;
use super::{answer, run};
use crate::Status;
use io_edge::{MemSink, MemSource};
use std::test::Fail;

// Twelve relations, each joined with the next.
static LINE: [(u8, u8); 11] = [
    (0, 1),
    (1, 2),
    (2, 3),
    (3, 4),
    (4, 5),
    (5, 6),
    (6, 7),
    (7, 8),
    (8, 9),
    (9, 10),
    (10, 11),
];

#[test]
fn queries_are_planned_at_the_same_time(rt: HostRuntime) -> Result<(), Fail> {
    let alloc = rt.alloc();
    for (queries, workers) in [(2u32, "2"), (4, "4"), (5, "64")] {
        let file = repeated_file(alloc, "line", 12, 10, &LINE, queries)?.into_bytes();
        let (status, report) = answer(&rt, alloc, &["--workers", "1"], file.to_vec(alloc)?)?;
        assert_eq!(rt; status, Status::Done, "{workers}");

        let gate = RunsMeet::of(alloc, queries as u64)?;
        let source = MemSource::new(file, 4096, Vec::new(alloc));
        let sink = MemSink::new(alloc, 16_384, 4096, Vec::new(alloc))?;
        let words = ["--workers", workers];
        let (status, written) = run(&rt, alloc, &words, source, sink, &gate)?;
        assert_eq!(rt; status, Status::Done, "{workers}");
        assert_eq!(rt; written.as_slice(), report.as_slice(), "{workers}");
        assert!(rt; gate.took_place(), "{workers}");
    }
    Ok(())
}
