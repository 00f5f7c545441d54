//! Answers the words of the command line over standard input, on standard output.
#![tactic(auto)]

ghost use Rattle.std.specs.Prelude.{◌≡◌};
ghost use Rattle.std.specs.Process.{exit_status};
ghost use Rattle.dpe_top.specs.Statuses.{number_of};

use dpe_top::{OpenGate, Status, dpe, usage_line};
use io_edge::{StdSink, StdSource, write_all};
use std::alloc::{AllocError, Global};
use std::env;
use std::io::ErrorKind;
use std::process::ExitCode;

/// What the process ends with: the number of the status.
fn exit_code(status: Status) -> ExitCode
    ensures { exit_status result ≡ number_of status }
{
    ExitCode::from(status.number())
}

// How many bytes the block that `keep_memory` gives back has: with what the C library adds it is the largest that raises the bounds.
const KEPT: usize = (32 << 20) - (64 << 10);

// Has the C library keep the tables of one query for the next: glibc gives a large block back to the system as soon as it is
// dropped, and the next one costs a page fault for each of its pages, until one large block was dropped. From then on it keeps
// blocks of up to that size. This one is never touched, so it costs no memory; want of it changes nothing.
fn keep_memory(alloc: Global) {
    let block: Result<Vec<u8>, AllocError> = Vec::with_capacity(alloc, KEPT);
    drop(block);
}

fn main(rt: HostRuntime) -> ExitCode {
    let alloc = rt.alloc();
    keep_memory(alloc);
    let mut source = StdSource::over(rt.stdin());
    let mut sink = StdSink::over(rt.stdout());
    let mut words = match env::args(&rt) {
        Ok(words) => words,
        Err(error) if error.kind() == ErrorKind::OutOfMemory => {
            return exit_code(Status::NoMemory);
        }
        // Words that are no text are no command line.
        Err(_) => {
            let status = match write_all(&mut sink, usage_line().as_bytes()) {
                Ok(()) => Status::Usage,
                Err(_) => Status::WriteFault,
            };
            return exit_code(status);
        }
    };
    let _program = words.next();
    let Ok(words) = words.collect::<Vec<String>>(alloc) else {
        return exit_code(Status::NoMemory);
    };
    let status = dpe(
        &rt,
        alloc,
        words.as_slice(),
        &mut source,
        &mut sink,
        &OpenGate,
    );
    exit_code(status)
}
