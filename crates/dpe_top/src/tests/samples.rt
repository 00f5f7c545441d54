use super::run;
use crate::{OpenGate, Status};
use io_edge::{MemSink, MemSource};
use std::alloc::{AllocError, Global};
use std::test::Fail;
use std::thread::Threads;

/// The status and the bytes of the answer, over a source that fails whenever it is read.
fn answer_unread<R: Threads + Sync>(
    rt: &R,
    alloc: Global,
    words: &[&str],
) -> Result<(Status, Vec<u8>), AllocError> {
    let fails: [u64; 2] = [0, 1];
    let source = MemSource::new(Vec::new(alloc), 64, fails.to_vec(alloc)?);
    let sink = MemSink::new(alloc, 256, 64, Vec::new(alloc))?;
    run(rt, alloc, words, source, sink, &OpenGate)
}

const SEVEN: &str = "sample 7 queries 8 relations 53 joins 52 pairs 2636 cost 29624337\n";

// The sums are those of another program: a planner in C++, over the workloads of a generator in Python.
#[test]
fn samples_have_their_sums(rt: HostRuntime) -> Result<(), Fail> {
    let alloc = rt.alloc();
    let cases: [(&[&str], &str); 6] = [
        (
            &["--mode", "sample", "--number", "0"],
            "sample 0 queries 8 relations 59 joins 64 pairs 3932 cost 23378768\n",
        ),
        (
            &["--mode", "sample", "--number", "0", "--model", "cout"],
            "sample 0 queries 8 relations 59 joins 64 pairs 3932 cost 1477582\n",
        ),
        (&["--mode", "sample", "--number", "7"], SEVEN),
        (
            &["--model", "cout", "--number", "7", "--mode", "sample"],
            "sample 7 queries 8 relations 53 joins 52 pairs 2636 cost 17585391\n",
        ),
        (
            &["--mode=sample", "--number=18446744073709551615"],
            "sample 18446744073709551615 queries 8 relations 75 joins 74 pairs 8720 cost 592276041\n",
        ),
        (
            &[
                "--mode=sample",
                "--number=18446744073709551615",
                "--model=cout",
            ],
            "sample 18446744073709551615 queries 8 relations 75 joins 74 pairs 8720 cost 563332254\n",
        ),
    ];
    for (words, text) in cases {
        let (status, written) = answer_unread(&rt, alloc, words)?;
        assert_eq!(rt; status, Status::Done, "{words:?}");
        assert_eq!(rt; written.as_slice(), text.as_bytes(), "{words:?}");
    }
    Ok(())
}

#[test]
fn other_options_change_no_sample(rt: HostRuntime) -> Result<(), Fail> {
    let alloc = rt.alloc();
    let lines: [&[&str]; 6] = [
        &["--mode", "sample", "--number", "7", "--workers", "1"],
        &[
            "--mode",
            "sample",
            "--number",
            "7",
            "--workers",
            "64",
            "--enumerator",
            "dpsub",
            "--buffer",
            "5",
        ],
        &[
            "--mode",
            "sample",
            "--number",
            "7",
            "--workers",
            "64",
            "--enumerator",
            "dpsize",
            "--buffer",
            "5",
        ],
        &[
            "--mode",
            "sample",
            "--number",
            "7",
            "--workers",
            "2",
            "--enumerator",
            "dpsva",
            "--buffer",
            "1",
        ],
        &["--mode", "sample", "--number", "7", "--format", "json"],
        &["--mode", "sample", "--number", "7", "--stats", "on"],
    ];
    for words in lines {
        let (status, written) = answer_unread(&rt, alloc, words)?;
        assert_eq!(rt; status, Status::Done, "{words:?}");
        assert_eq!(rt; written.as_slice(), SEVEN.as_bytes(), "{words:?}");
    }
    Ok(())
}

#[test]
fn ignored_options_are_of_their_table(rt: HostRuntime) -> Result<(), Fail> {
    let alloc = rt.alloc();
    let lines: [&[&str]; 3] = [
        &["--mode", "sample", "--format", "xml"],
        &["--mode", "sample", "--stats", "yes"],
        &["--mode", "sample", "--workers", "65"],
    ];
    for line in lines {
        let (status, _) = answer_unread(&rt, alloc, line)?;
        assert_eq!(rt; status, Status::Usage, "{line:?}");
    }
    Ok(())
}

#[test]
fn a_sink_that_fails_gets_a_part_of_the_sample(rt: HostRuntime) -> Result<(), Fail> {
    let alloc = rt.alloc();
    let words = ["--mode", "sample", "--number", "7"];
    let fails: [u64; 1] = [2];
    let source = MemSource::new(Vec::new(alloc), 64, Vec::new(alloc));
    let sink = MemSink::new(alloc, 256, 4, fails.to_vec(alloc)?)?;
    let (status, written) = run(&rt, alloc, &words, source, sink, &OpenGate)?;
    assert_eq!(rt; status, Status::WriteFault);
    assert_eq!(rt; written.as_slice(), "sample 7".as_bytes());
    Ok(())
}
