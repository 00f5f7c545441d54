mod batches;
mod certificates;
mod classes;
mod cuts;
mod files;
mod formats;
mod gates;
mod hostile;
mod migrations;
mod observers;
mod plans;
mod refusals;
mod reoptimised;
mod samples;
mod shapes;
mod sizes;
mod words;

use crate::{Gate, OpenGate, Status, dpe};
use io_edge::{MemSink, MemSource};
use std::alloc::{AllocError, Global};
use std::thread::Threads;

/// The words as the program gets them.
fn words_of(alloc: Global, words: &[&str]) -> Result<Vec<String>, AllocError> {
    let mut all = Vec::new(alloc);
    for word in words {
        all.push(String::from_str(alloc, word)?)?;
    }
    Ok(all)
}

/// The status, and the bytes that the sink took.
fn run<R: Threads + Sync, G: Gate>(
    rt: &R,
    alloc: Global,
    words: &[&str],
    mut source: MemSource,
    mut sink: MemSink,
    gate: &G,
) -> Result<(Status, Vec<u8>), AllocError> {
    let words = words_of(alloc, words)?;
    let status = dpe(rt, alloc, words.as_slice(), &mut source, &mut sink, gate);
    Ok((status, sink.written().to_vec(alloc)?))
}

/// The status and the bytes of the answer, where neither end fails.
fn answer<R: Threads + Sync>(
    rt: &R,
    alloc: Global,
    words: &[&str],
    bytes: Vec<u8>,
) -> Result<(Status, Vec<u8>), AllocError> {
    let source = MemSource::new(bytes, 64, Vec::new(alloc));
    let sink = MemSink::new(alloc, 8192, 64, Vec::new(alloc))?;
    run(rt, alloc, words, source, sink, &OpenGate)
}
