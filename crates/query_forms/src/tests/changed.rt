use super::write_fault;
use crate::{Change, ChangeFault, read_changes};
use std::alloc::{AllocError, Global};
use std::test::Fail;

const WORKLOAD: &str =
    r#"{"tables":[{"name":"a","rows":7},{"name":"b","rows":8},{"name":"c","rows":9}],"queries":[
 {"name":"twice","relations":[{"alias":"x","table":"a"},{"alias":"y","table":"b"},{"alias":"z","table":"a"}],
  "joins":[{"left":"x","right":"y","selectivity":[1,2]},{"left":"y","right":"z","selectivity":[1,2]}]},
 {"name":"refused","relations":[{"alias":"x","table":"a"},{"alias":"x","table":"b"}]},
 {"name":"once","relations":[{"alias":"b","table":"a"}]}]}"#;

fn write_change(out: &mut String, change: &Change) -> Result<(), AllocError> {
    let rows = change.rows;
    write!(out, "{rows}:")?;
    for uses in change.uses.as_slice() {
        write!(out, " [")?;
        for r in uses.as_slice() {
            let r = *r;
            write!(out, " {r}")?;
        }
        write!(out, " ]")?;
    }
    write!(out, ";")
}

// The changes, or the fault.
fn outcome(alloc: Global, file: &str) -> Result<String, AllocError> {
    let mut out = String::new(alloc);
    match read_changes(alloc, file.as_bytes()) {
        Ok(changed) => {
            for change in changed.changes.as_slice() {
                write_change(&mut out, change)?;
            }
        }
        Err(ChangeFault::NotJson) => out.push_str("not JSON")?,
        Err(ChangeFault::BadChanges) => out.push_str("bad changes")?,
        Err(ChangeFault::Workload(fault)) => write_fault(&mut out, &fault)?,
        Err(ChangeFault::UnknownTable(j)) => write!(out, "change {j} names no table")?,
        Err(ChangeFault::NoMemory) => out.push_str("no memory")?,
    }
    Ok(out)
}

#[test]
fn changes_and_where_their_tables_are_used(rt: HostRuntime) -> Result<(), Fail> {
    let alloc = rt.alloc();
    let rows = [
        ("[]", ""),
        (r#"[{"table":"a","rows":10}]"#, "10: [ 0 2 ] [ ] [ 0 ];"),
        (
            r#"[{"table":"b","rows":0},{"table":"c","rows":1099511627776},{"table":"b","rows":1}]"#,
            "0: [ 1 ] [ ] [ ];1099511627776: [ ] [ ] [ ];1: [ 1 ] [ ] [ ];",
        ),
        // unknown members, and a member that stands twice
        (
            r#"[{"rows":5,"owner":{"since":1.5},"table":"c","rows":6,"table":"\u0062"}]"#,
            "6: [ 1 ] [ ] [ ];",
        ),
        (r#"[{"table":"a","rows":1099511627777}]"#, "bad changes"),
        (
            r#"[{"table":"a","rows":18446744073709551616}]"#,
            "bad changes",
        ),
        (r#"[{"table":"a","rows":-1}]"#, "bad changes"),
        (r#"[{"table":"a","rows":1.0}]"#, "bad changes"),
        (r#"[{"table":"a","rows":"1"}]"#, "bad changes"),
        (r#"[{"table":"a","rows":null}]"#, "bad changes"),
        (r#"[{"table":"a"}]"#, "bad changes"),
        (r#"[{"rows":1}]"#, "bad changes"),
        (r#"[{"table":"","rows":1}]"#, "bad changes"),
        (r#"[{"table":"a\n","rows":1}]"#, "bad changes"),
        (r#"[{"table":7,"rows":1}]"#, "bad changes"),
        ("[null]", "bad changes"),
        ("[[]]", "bad changes"),
        ("{}", "bad changes"),
        ("null", "bad changes"),
        (r#"[{"table":"d","rows":1}]"#, "change 0 names no table"),
        (
            r#"[{"table":"a","rows":1},{"table":"A","rows":1},{"table":"d","rows":1}]"#,
            "change 1 names no table",
        ),
        // a change that is none comes before a table that is unknown
        (r#"[{"table":"d","rows":1},{"table":"a"}]"#, "bad changes"),
        ("[1e999]", "not JSON"),
    ];
    for (changes, wanted) in rows {
        let file = format!(in alloc;
            "{{\"changes\":{changes},\"workload\":{WORKLOAD},\"more\":[]}}"
        )?;
        let found = outcome(alloc, file.as_str())?;
        assert_eq!(rt; found.as_str(), wanted, "of {changes}");
    }
    Ok(())
}

#[test]
fn faults_of_files_of_changes_in_their_order(rt: HostRuntime) -> Result<(), Fail> {
    let alloc = rt.alloc();
    let rows = [
        ("", "not JSON"),
        (r#"{"changes":[],"workload":7"#, "not JSON"),
        ("7", "bad changes"),
        ("[]", "bad changes"),
        ("{}", "bad changes"),
        (r#"{"changes":[]}"#, "bad changes"),
        (r#"{"workload":{"tables":[],"queries":[]}}"#, "bad changes"),
        (r#"{"workload":7,"changes":7}"#, "bad changes"),
        (
            r#"{"workload":7,"changes":[{"table":"a","rows":-1}]}"#,
            "bad changes",
        ),
        (r#"{"workload":null,"changes":[]}"#, "$"),
        (r#"{"workload":7,"changes":[{"table":"d","rows":1}]}"#, "$"),
        (
            r#"{"workload":{"tables":[],"queries":7},"changes":[{"table":"d","rows":1}]}"#,
            "$.queries",
        ),
        (
            r#"{"workload":{"tables":[{"name":"a","rows":1},{"name":"a","rows":2}],"queries":[]},"changes":[]}"#,
            "table a twice",
        ),
        (
            r#"{"workload":{"tables":[],"queries":[]},"changes":[{"table":"d","rows":1}]}"#,
            "change 0 names no table",
        ),
        (
            r#"{"workload":{"tables":[],"queries":[]},"changes":[]}"#,
            "",
        ),
    ];
    for (file, wanted) in rows {
        let found = outcome(alloc, file)?;
        assert_eq!(rt; found.as_str(), wanted, "of {file}");
    }
    Ok(())
}

#[test]
fn at_most_sixteen_changes(rt: HostRuntime) -> Result<(), Fail> {
    let alloc = rt.alloc();
    let change = r#"{"table":"t","rows":3}"#;
    let workload = r#"{"tables":[{"name":"t","rows":1}],"queries":[]}"#;
    let mut sixteen = String::from_str(alloc, change)?;
    for _ in 0..15 {
        sixteen.push_str(",")?;
        sixteen.push_str(change)?;
    }
    let file = format!(in alloc; "{{\"workload\":{workload},\"changes\":[{sixteen}]}}")?;
    let found = outcome(alloc, file.as_str())?;
    assert_eq!(rt;
        found.as_str(),
        "3:;3:;3:;3:;3:;3:;3:;3:;3:;3:;3:;3:;3:;3:;3:;3:;"
    );
    let file = format!(in alloc; "{{\"workload\":{workload},\"changes\":[{sixteen},{change}]}}")?;
    let found = outcome(alloc, file.as_str())?;
    assert_eq!(rt; found.as_str(), "bad changes");
    Ok(())
}
