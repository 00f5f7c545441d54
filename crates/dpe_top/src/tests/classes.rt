//! Modes narrow, zigzag and leftdeep.
use super::answer;
use super::files::file_of;
use super::refusals::SPLIT_AND_EVEN;
use crate::Status;
use std::alloc::{AllocError, Global};
use std::test::Fail;

/// A chain of four whose two ends are selective: its cheapest plan joins two joins.
fn bushy(alloc: Global) -> Result<String, AllocError> {
    file_of(
        alloc,
        "bushy",
        &[("a", 1000), ("b", 1000), ("c", 1000), ("d", 1000)],
        &[
            ("a", "b", 1, 100000),
            ("b", "c", 1, 1),
            ("c", "d", 1, 100000),
        ],
    )
}

/// A chain of six whose middle predicate keeps all.
fn two_threes(alloc: Global) -> Result<String, AllocError> {
    file_of(
        alloc,
        "threes",
        &[
            ("a", 1000),
            ("b", 1000),
            ("c", 1000),
            ("d", 1000),
            ("e", 1000),
            ("f", 1000),
        ],
        &[
            ("a", "b", 1, 1000),
            ("b", "c", 1, 1000),
            ("c", "d", 1, 1),
            ("d", "e", 1, 1000),
            ("e", "f", 1, 1000),
        ],
    )
}

const NARROW: &str =
    "query bushy\ncost 120 rows 100 pairs 10\njoin rows 100 cost 120\n  join rows 10 cost 10\n    scan a rows 1000\n    scan b rows 1000\n  join rows 10 cost 10\n    scan c rows 1000\n    scan d rows 1000\n";

const ZIGZAG: &str =
    "query bushy\ncost 10110 rows 100 pairs 9\njoin rows 100 cost 10110\n  scan a rows 1000\n  join rows 10000 cost 10010\n    scan b rows 1000\n    join rows 10 cost 10\n      scan c rows 1000\n      scan d rows 1000\n";

const LEFTDEEP: &str =
    "query bushy\ncost 10110 rows 100 pairs 9\njoin rows 100 cost 10110\n  join rows 10000 cost 10010\n    join rows 10 cost 10\n      scan a rows 1000\n      scan b rows 1000\n    scan c rows 1000\n  scan d rows 1000\n";

// Words that don't show in a class's report.
static WORDS: [&[&str]; 6] = [
    &["--stats", "on"],
    &["--enumerator", "dpccp", "--workers", "1", "--buffer", "3"],
    &["--enumerator", "dpsub", "--workers", "4", "--buffer", "3"],
    &["--enumerator", "dpsize", "--workers", "1"],
    &["--enumerator", "dpsva", "--workers", "4"],
    &["--enumerator", "dpsva", "--workers", "1", "--buffer", "3"],
];

#[test]
fn plans_of_a_class_are_the_same_for_all_words(rt: HostRuntime) -> Result<(), Fail> {
    let alloc = rt.alloc();
    for (mode, text) in [
        ("narrow", NARROW),
        ("zigzag", ZIGZAG),
        ("leftdeep", LEFTDEEP),
    ] {
        for words in WORDS {
            let mut line = vec![in alloc; "--model", "cout", "--mode", mode]?;
            for word in words {
                line.push(*word)?;
            }
            let file = bushy(alloc)?;
            let (status, written) = answer(&rt, alloc, line.as_slice(), file.into_bytes())?;
            assert_eq!(rt; status, Status::Done, "{mode} {words:?}");
            assert_eq!(rt; written.as_slice(), text.as_bytes(), "{mode} {words:?}");
        }
    }
    Ok(())
}

#[test]
fn a_narrow_plan_may_cost_twice_as_much(rt: HostRuntime) -> Result<(), Fail> {
    let alloc = rt.alloc();
    for (mode, start) in [
        ("plan", "query threes\ncost 1004000 rows 1000000 pairs 35\n"),
        (
            "narrow",
            "query threes\ncost 2003000 rows 1000000 pairs 34\n",
        ),
    ] {
        let words = ["--model", "cout", "--mode", mode];
        let file = two_threes(alloc)?;
        let (status, written) = answer(&rt, alloc, &words, file.into_bytes())?;
        assert_eq!(rt; status, Status::Done, "{mode}");
        assert!(rt; written.starts_with(start.as_bytes()), "{mode}");
    }
    Ok(())
}

#[test]
fn refused_queries_are_named_in_each_class(rt: HostRuntime) -> Result<(), Fail> {
    let alloc = rt.alloc();
    let text =
        "query split\nrefused 9: relation c is not connected\nquery even\ncost 130 rows 100 pairs 1\nhash rows 100 cost 130\n  scan a rows 10\n  scan b rows 10\n";
    for mode in ["narrow", "zigzag", "leftdeep"] {
        let words = ["--mode", mode];
        let bytes = SPLIT_AND_EVEN.as_bytes().to_vec(alloc)?;
        let (status, written) = answer(&rt, alloc, &words, bytes)?;
        assert_eq!(rt; status, Status::SomeRefused, "{mode}");
        assert_eq!(rt; written.as_slice(), text.as_bytes(), "{mode}");
    }
    Ok(())
}

#[test]
fn a_class_has_a_report_in_json(rt: HostRuntime) -> Result<(), Fail> {
    let alloc = rt.alloc();
    let words = ["--mode", "leftdeep", "--format", "json", "--stats", "on"];
    let text =
        "{\"queries\":[{\"cost\":130,\"name\":\"even\",\"pairs\":1,\"plan\":{\"cost\":130,\"left\":{\"alias\":\"a\",\"op\":\"scan\",\"rows\":10},\"op\":\"hash\",\"right\":{\"alias\":\"b\",\"op\":\"scan\",\"rows\":10},\"rows\":100},\"rows\":100}]}\n";
    let file = file_of(alloc, "even", &[("a", 10), ("b", 10)], &[("a", "b", 1, 1)])?;
    let (status, written) = answer(&rt, alloc, &words, file.into_bytes())?;
    assert_eq!(rt; status, Status::Done);
    assert_eq!(rt; written.as_slice(), text.as_bytes());
    Ok(())
}
