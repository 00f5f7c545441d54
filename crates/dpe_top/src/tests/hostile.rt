//! Ends that fail, at each of their calls.
use super::plans::FIRST;
use super::run;
use crate::{OpenGate, Status};
use io_edge::{MemSink, MemSource};
use std::alloc::{AllocError, Global};
use std::test::Fail;
use std::thread::Threads;

/// The answer over a source that gives a byte a call, and fails at the call of this number.
fn reading<R: Threads + Sync>(
    rt: &R,
    alloc: Global,
    bytes: &[u8],
    failing: u64,
) -> Result<(Status, Vec<u8>), AllocError> {
    let source = MemSource::new(bytes.to_vec(alloc)?, 1, [failing].to_vec(alloc)?);
    let sink = MemSink::new(alloc, 1024, 64, Vec::new(alloc))?;
    run(rt, alloc, &["--model", "cout"], source, sink, &OpenGate)
}

#[test]
fn a_read_fails_at_each_byte(rt: HostRuntime) -> Result<(), Fail> {
    let alloc = rt.alloc();
    let file = FIRST.file(alloc)?;
    let end = file.len() as u64;
    for call in 0..=end {
        let (status, written) = reading(&rt, alloc, file.as_bytes(), call)?;
        assert_eq!(rt; status, Status::ReadFault, "call {call}");
        assert_eq!(rt; written.len(), 0, "call {call}");
    }
    // The call of number `end` met the end, and no read follows it.
    let (status, written) = reading(&rt, alloc, file.as_bytes(), end.saturating_add(1))?;
    assert_eq!(rt; status, Status::Done);
    assert_eq!(rt; written.as_slice(), FIRST.text.as_bytes());
    Ok(())
}

/// The answer into this sink, over a source that doesn't fail.
fn writing<R: Threads + Sync>(
    rt: &R,
    alloc: Global,
    sink: MemSink,
) -> Result<(Status, Vec<u8>), AllocError> {
    let file = FIRST.file(alloc)?;
    let source = MemSource::new(file.into_bytes(), 64, Vec::new(alloc));
    run(rt, alloc, &["--model", "cout"], source, sink, &OpenGate)
}

#[test]
fn a_write_fails_at_each_piece(rt: HostRuntime) -> Result<(), Fail> {
    let alloc = rt.alloc();
    let report = FIRST.text.as_bytes();
    assert_eq!(rt; report.len(), 144);
    for call in 0..36 {
        let kept = 4 * call as usize;
        let sink = MemSink::new(alloc, 144, 4, [call].to_vec(alloc)?)?;
        let (status, written) = writing(&rt, alloc, sink)?;
        assert_eq!(rt; status, Status::WriteFault, "call {call}");
        assert_eq!(rt; written.as_slice(), &report[..kept], "call {call}");
    }
    // The 36 calls before the failing one took the whole report.
    let sink = MemSink::new(alloc, 144, 4, [36].to_vec(alloc)?)?;
    let (status, written) = writing(&rt, alloc, sink)?;
    assert_eq!(rt; status, Status::Done);
    assert_eq!(rt; written.as_slice(), report);
    Ok(())
}

#[test]
fn the_room_of_a_sink_ends_within_the_report(rt: HostRuntime) -> Result<(), Fail> {
    let alloc = rt.alloc();
    let report = FIRST.text.as_bytes();
    assert_eq!(rt; report.len(), 144);
    let sink = MemSink::new(alloc, 100, 64, Vec::new(alloc))?;
    let (status, written) = writing(&rt, alloc, sink)?;
    assert_eq!(rt; status, Status::WriteFault);
    assert_eq!(rt; written.as_slice(), &report[..100]);
    Ok(())
}
