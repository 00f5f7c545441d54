//! Mode reopt.
use super::files::file_of;
use super::gates::Tally;
use super::refusals::SPLIT_AND_EVEN;
use super::{answer, run};
use crate::Status;
use io_edge::{MemSink, MemSource};
use std::alloc::{AllocError, Global};
use std::test::Fail;
use std::thread::Threads;

const REOPT: &[&str] = &["--mode", "reopt"];

// A file of changes of a workload: tables with their new rows.
fn changes_of(
    alloc: Global,
    workload: &str,
    changes: &[(&str, u64)],
) -> Result<Vec<u8>, AllocError> {
    let mut file = String::from_str(alloc, "{\"workload\":")?;
    file.push_str(workload)?;
    file.push_str(",\"changes\":[")?;
    for (table, rows) in changes {
        if !file.as_str().ends_with('[') {
            file.push_str(",")?;
        }
        write!(file, "{{\"table\":\"{table}\",\"rows\":{rows}}}")?;
    }
    file.push_str("]}")?;
    Ok(file.into_bytes())
}

const PAIR: &str =
    "query pair\ncost 1300 rows 100 pairs 1\nhash rows 100 cost 1300\n  scan a rows 100\n  scan b rows 1000\nchange 0 again 1\nquery pair\ncost 1030 rows 10 pairs 1\nhash rows 10 cost 1030\n  scan a rows 10\n  scan b rows 1000\n";

const THREE: &str =
    "query three\ncost 80 rows 10 pairs 4\nhash rows 10 cost 80\n  scan a rows 10\n  hash rows 10 cost 40\n    scan b rows 10\n    scan c rows 10\nchange 0 again 3\nquery three\ncost 80 rows 10 pairs 4\nhash rows 10 cost 80\n  scan a rows 10\n  hash rows 10 cost 40\n    scan b rows 10\n    scan c rows 10\n";

// A chain of three, and ten rows for its last table.
fn three(alloc: Global) -> Result<Vec<u8>, AllocError> {
    let tables = [("a", 10), ("b", 10), ("c", 10)];
    let joins = [("a", "b", 1, 10), ("b", "c", 1, 10)];
    let workload = file_of(alloc, "three", &tables, &joins)?;
    changes_of(alloc, workload.as_str(), &[("c", 10)])
}

#[test]
fn a_change_gives_the_plan_again(rt: HostRuntime) -> Result<(), Fail> {
    let alloc = rt.alloc();
    let tables = [("a", 100), ("b", 1000)];
    let workload = file_of(alloc, "pair", &tables, &[("a", "b", 1, 1000)])?;
    let pair = changes_of(alloc, workload.as_str(), &[("a", 10)])?;
    for (file, text) in [(pair, PAIR), (three(alloc)?, THREE)] {
        let (status, written) = answer(&rt, alloc, REOPT, file)?;
        assert_eq!(rt; status, Status::Done, "{text}");
        assert_eq!(rt; written.as_slice(), text.as_bytes(), "{text}");
    }
    Ok(())
}

#[test]
fn words_that_do_not_show_after_changes(rt: HostRuntime) -> Result<(), Fail> {
    let alloc = rt.alloc();
    let lines: [&[&str]; 6] = [
        &["--mode", "reopt", "--format", "json"],
        &["--mode", "reopt", "--stats", "on"],
        &["--mode", "reopt", "--enumerator", "dpsva"],
        &["--mode", "reopt", "--number", "7"],
        &["--mode", "reopt", "--workers", "1", "--buffer", "1"],
        &["--mode", "reopt", "--workers", "64", "--buffer", "65536"],
    ];
    for words in lines {
        let (status, written) = answer(&rt, alloc, words, three(alloc)?)?;
        assert_eq!(rt; status, Status::Done, "{words:?}");
        assert_eq!(rt; written.as_slice(), THREE.as_bytes(), "{words:?}");
    }
    Ok(())
}

// Four pairs and four tickets past them in each of two rounds, then three of the pairs in as many rounds. Planning the changed
// query from scratch would draw 24 tickets in all.
#[test]
fn a_change_draws_for_the_pairs_that_it_touches(rt: HostRuntime) -> Result<(), Fail> {
    let alloc = rt.alloc();
    let gate = Tally::below(alloc, 8, 4, 1)?;
    let source = MemSource::new(three(alloc)?, 64, Vec::new(alloc));
    let sink = MemSink::new(alloc, 8192, 64, Vec::new(alloc))?;
    let (status, written) = run(&rt, alloc, REOPT, source, sink, &gate)?;
    assert_eq!(rt; status, Status::Done);
    assert_eq!(rt; written.as_slice(), THREE.as_bytes());
    assert_eq!(rt; gate.draws(), 23);
    Ok(())
}

// A join with its selectivity.
type Join = (&'static str, &'static str, u64, u64);

// The joins of four tables, and how many pairs have a in their union, b, c and d.
static SHAPES: [(&[Join], [u64; 4]); 4] = [
    (
        &[("a", "b", 1, 100), ("b", "c", 1, 3), ("c", "d", 1, 1000)],
        [6, 9, 9, 6],
    ),
    (
        &[
            ("a", "b", 1, 100),
            ("b", "c", 1, 3),
            ("c", "d", 1, 1000),
            ("a", "d", 1, 2),
        ],
        [14, 14, 14, 14],
    ),
    (
        &[("a", "b", 1, 100), ("a", "c", 1, 3), ("a", "d", 1, 1000)],
        [12, 8, 8, 8],
    ),
    (
        &[
            ("a", "b", 1, 100),
            ("a", "c", 1, 3),
            ("a", "d", 1, 1000),
            ("b", "c", 1, 7),
            ("b", "d", 1, 1),
            ("c", "d", 1, 20),
        ],
        [19, 19, 19, 19],
    ),
];

// Rows that go up and down, to none and to the most, and stay, for table after table.
static ROWS: [[u64; 16]; 2] = [
    [
        10,
        20,
        0,
        70,
        1_099_511_627_776,
        20,
        5,
        3,
        1,
        900,
        5,
        40,
        12,
        0,
        77,
        0,
    ],
    [
        0,
        0,
        0,
        0,
        8,
        1_099_511_627_776,
        1_099_511_627_776,
        9,
        300,
        1,
        2,
        100_000,
        300,
        50,
        2,
        1,
    ],
];

// What mode plan says of the file.
fn plan_of<R: Threads + Sync>(
    rt: &R,
    alloc: Global,
    model: &str,
    file: String,
) -> Result<Vec<u8>, AllocError> {
    let (_, written) = answer(rt, alloc, &["--model", model], file.into_bytes())?;
    Ok(written)
}

// Whether sixteen changes are said as mode plan says each changed file.
fn is_planning_anew<R: Threads + Sync>(
    rt: &R,
    alloc: Global,
    model: &str,
    shape: &(&[Join], [u64; 4]),
    rows: &[u64; 16],
) -> Result<bool, Fail> {
    let (joins, again) = *shape;
    let mut tables = [("a", 10), ("b", 1000), ("c", 3), ("d", 70)];
    let workload = file_of(alloc, "four", &tables, joins)?;
    let mut changes = Vec::new(alloc);
    let mut wanted = plan_of(rt, alloc, model, file_of(alloc, "four", &tables, joins)?)?;
    for (j, count) in rows.iter().enumerate() {
        let place = j % 4;
        changes.push((tables[place].0, *count))?;
        tables[place].1 = *count;
        let pairs = again[place];
        let mut line = String::new(alloc);
        writeln!(line, "change {j} again {pairs}")?;
        wanted.extend_from_slice(line.as_bytes())?;
        let plan = plan_of(rt, alloc, model, file_of(alloc, "four", &tables, joins)?)?;
        wanted.extend_from_slice(plan.as_slice())?;
    }
    let file = changes_of(alloc, workload.as_str(), changes.as_slice())?;
    let words = ["--mode", "reopt", "--model", model];
    let (status, written) = answer(rt, alloc, &words, file)?;
    Ok(status == Status::Done && written.as_slice() == wanted.as_slice())
}

// 256 changes.
#[test]
fn each_change_is_said_as_the_changed_file(rt: HostRuntime) -> Result<(), Fail> {
    let alloc = rt.alloc();
    for model in ["ops", "cout"] {
        for shape in SHAPES.iter() {
            for rows in ROWS.iter() {
                assert!(rt;
                    is_planning_anew(&rt, alloc, model, shape, rows)?,
                    "{model}"
                );
            }
        }
    }
    Ok(())
}

const TWICE: &str =
    "{\"tables\":[{\"name\":\"a\",\"rows\":10},{\"name\":\"b\",\"rows\":20},{\"name\":\"lone\",\"rows\":5}],\
\"queries\":[{\"name\":\"twice\",\"relations\":[{\"alias\":\"x\",\"table\":\"a\"},{\"alias\":\"y\",\"table\":\"a\"},{\"alias\":\"z\",\"table\":\"b\"}],\
\"joins\":[{\"left\":\"x\",\"right\":\"z\",\"selectivity\":[1,10]},{\"left\":\"y\",\"right\":\"z\",\"selectivity\":[1,10]}]}]}";

const TWICE_TEXT: &str =
    "query twice\ncost 120 rows 20 pairs 4\nhash rows 20 cost 120\n  scan x rows 10\n  hash rows 20 cost 60\n    scan y rows 10\n    scan z rows 20\n\
change 0 again 6\nquery twice\ncost 65 rows 5 pairs 4\nhash rows 5 cost 65\n  scan x rows 5\n  hash rows 10 cost 40\n    scan y rows 5\n    scan z rows 20\n\
change 1 again 0\nquery twice\ncost 65 rows 5 pairs 4\nhash rows 5 cost 65\n  scan x rows 5\n  hash rows 10 cost 40\n    scan y rows 5\n    scan z rows 20\n\
change 2 again 4\nquery twice\ncost 110 rows 10 pairs 4\nhash rows 10 cost 110\n  scan x rows 5\n  hash rows 20 cost 70\n    scan y rows 5\n    scan z rows 40\n";

const SPLIT_TEXT: &str =
    "query split\nrefused 9: relation c is not connected\nquery even\ncost 130 rows 100 pairs 1\nhash rows 100 cost 130\n  scan a rows 10\n  scan b rows 10\n\
change 0 again 0\nquery even\ncost 130 rows 100 pairs 1\nhash rows 100 cost 130\n  scan a rows 10\n  scan b rows 10\n";

#[test]
fn tables_that_are_used_twice_never_or_by_a_refused_query(rt: HostRuntime) -> Result<(), Fail> {
    let alloc = rt.alloc();
    let cases: [(&str, &[(&str, u64)], Status, &str); 2] = [
        (
            TWICE,
            &[("a", 5), ("lone", 7), ("b", 40)],
            Status::Done,
            TWICE_TEXT,
        ),
        (SPLIT_AND_EVEN, &[("c", 7)], Status::SomeRefused, SPLIT_TEXT),
    ];
    for (workload, changes, wanted, text) in cases {
        let file = changes_of(alloc, workload, changes)?;
        let (status, written) = answer(&rt, alloc, REOPT, file)?;
        assert_eq!(rt; status, wanted, "{text}");
        assert_eq!(rt; written.as_slice(), text.as_bytes(), "{text}");
    }
    Ok(())
}

#[test]
fn faults_of_a_file_of_changes_are_named(rt: HostRuntime) -> Result<(), Fail> {
    let alloc = rt.alloc();
    let bad = "input: bad changes\n";
    let cases: [(&str, &str); 13] = [
        ("", "input: not JSON\n"),
        ("[]", bad),
        (r#"{"workload":{"tables":[],"queries":[]}}"#, bad),
        (r#"{"changes":[]}"#, bad),
        (r#"{"changes":null,"workload":{}}"#, bad),
        (r#"{"changes":[{"table":"a"}],"workload":{}}"#, bad),
        (
            r#"{"changes":[{"table":"a","rows":1099511627777}],"workload":{}}"#,
            bad,
        ),
        (r#"{"changes":[{"table":"","rows":1}],"workload":{}}"#, bad),
        (
            r#"{"changes":[{"table":"a","rows":1}],"workload":{}}"#,
            "input: bad shape at $.tables\n",
        ),
        (
            r#"{"changes":[],"workload":{"tables":[],"queries":[],"version":3}}"#,
            "input: bad shape at $.version\n",
        ),
        (
            r#"{"changes":[{"table":"b","rows":1}],"workload":{"tables":[{"name":"a","rows":1}],"queries":[]}}"#,
            "input: change 0 names no table\n",
        ),
        (
            r#"{"changes":[{"table":"a","rows":1},{"table":"b","rows":1}],"workload":{"tables":[{"name":"a","rows":1}],"queries":[]}}"#,
            "input: change 1 names no table\n",
        ),
        (
            r#"{"changes":[],"workload":{"tables":[{"name":"a","rows":1},{"name":"a","rows":1}],"queries":[]}}"#,
            "input: table a twice\n",
        ),
    ];
    for (file, line) in cases {
        let (status, written) = answer(&rt, alloc, REOPT, file.as_bytes().to_vec(alloc)?)?;
        assert_eq!(rt; status, Status::Input, "{file}");
        assert_eq!(rt; written.as_slice(), line.as_bytes(), "{file}");
    }
    Ok(())
}

#[test]
fn there_are_sixteen_changes_at_most(rt: HostRuntime) -> Result<(), Fail> {
    let alloc = rt.alloc();
    let workload = r#"{"tables":[{"name":"a","rows":1}],"queries":[]}"#;
    let changes = [("a", 1u64); 17];
    let (status, written) = answer(
        &rt,
        alloc,
        REOPT,
        changes_of(alloc, workload, &changes[..16])?,
    )?;
    assert_eq!(rt; status, Status::Done);
    assert!(rt; written.is_empty());
    let (status, _) = answer(&rt, alloc, REOPT, changes_of(alloc, workload, &changes)?)?;
    assert_eq!(rt; status, Status::Input);
    Ok(())
}
