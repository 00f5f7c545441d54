//! Files in version 2: what is written, that it holds the same, and that it stays as it is.
mod changed;
mod lengths;

use super::*;
use query_json::{Entry, FileFault, Named, Part, read, write_path, write_refusal};
use std::alloc::{AllocError, Global};
use std::test::Fail;

fn write_named(out: &mut String, named: &Named) -> Result<(), AllocError> {
    for (alias, rel) in named.aliases.as_slice().iter().zip(named.query.rels()) {
        let alias = alias.text();
        let rows = rel.rows;
        let num = rel.num;
        let den = rel.den;
        write!(out, " {alias} {rows} {num}/{den}")?;
    }
    for pred in named.query.preds() {
        let low = pred.low;
        let high = pred.high;
        let num = pred.num;
        let den = pred.den;
        write!(out, " {low}-{high} {num}/{den}")?;
    }
    Ok(())
}

fn write_entry(out: &mut String, entry: &Entry) -> Result<(), AllocError> {
    let name = entry.name.text();
    write!(out, "{name}:")?;
    match &entry.part {
        Part::Accepted(named) => write_named(out, named)?,
        Part::Refused(refusal) => {
            write!(out, " ")?;
            write_refusal(out, refusal)?;
        }
    }
    writeln!(out)
}

fn write_fault(out: &mut String, fault: &FileFault) -> Result<(), AllocError> {
    match fault {
        FileFault::NotJson => write!(out, "not JSON"),
        FileFault::Shape(place) => write_path(out, *place),
        FileFault::DuplicateTable(name) => {
            let name = name.text();
            write!(out, "table {name} twice")
        }
        _ => write!(out, "another fault"),
    }
}

// The entries of a file, or its fault.
fn entries(alloc: Global, bytes: &[u8]) -> Result<String, AllocError> {
    let mut out = String::new(alloc);
    match read(alloc, bytes) {
        Ok(workload) => {
            for i in 0..workload.len() {
                write_entry(&mut out, workload.entry(i))?;
            }
        }
        Err(fault) => write_fault(&mut out, &fault)?,
    }
    Ok(out)
}

// The file in version 2, or its fault.
fn migrated(alloc: Global, bytes: &[u8]) -> Result<String, AllocError> {
    let mut out = String::new(alloc);
    match rewrite(alloc, bytes) {
        Ok(text) => match String::from_utf8(text) {
            Ok(text) => out.push_str(text.as_str())?,
            Err(_) => out.push_str("not UTF-8")?,
        },
        Err(fault) => write_fault(&mut out, &fault)?,
    }
    Ok(out)
}

const EXAMPLE: &str = r#"{"tables":[
  {"name":"a","rows":1000,"columns":[{"name":"k","distinct":100}]},
  {"name":"b","rows":1000,"columns":[{"name":"k","distinct":50}]}],
 "queries":[
  {"name":"both",
   "relations":[{"alias":"a","table":"a"},{"alias":"b","table":"b"}],
   "joins":[
    {"left":"a","right":"b","left_column":"k","right_column":"k"},
    {"left":"a","right":"b","selectivity":[1,10]}]}]}"#;

const EXAMPLE_IN_TWO: &str =
    r#"{"queries":[{"joins":[{"left":"a","left_column":"k","right":"b","right_column":"k"},{"left":"a","right":"b","selectivity":"0.1"}],"name":"both","relations":[{"alias":"a","table":"a"},{"alias":"b","table":"b"}]}],"tables":[{"columns":[{"distinct":100,"name":"k"}],"name":"a","rows":1000},{"columns":[{"distinct":50,"name":"k"}],"name":"b","rows":1000}],"version":2}"#;

#[test]
fn files_in_version_2(rt: HostRuntime) -> Result<(), Fail> {
    let alloc = rt.alloc();
    let rows = [
        (EXAMPLE, EXAMPLE_IN_TWO),
        (
            r#"{"tables":[],"queries":[],"version":null,"tables":[],"owner":{"since":1.5}}"#,
            r#"{"queries":[],"tables":[],"version":2}"#,
        ),
        // members that are there stay, in the order of their items
        (
            r#"{"version":1,"tables":[{"name":"z","rows":0,"columns":[],"note":[]},{"rows":1099511627776,"name":"\u00e9\"\\/ \u65e5","columns":null}],
            "queries":[{"name":"\u00e9","relations":[],"joins":[]},{"name":"e","joins":null,"relations":[{"table":"z","alias":"x","filter":null}]}]}"#,
            r#"{"queries":[{"joins":[],"name":"é","relations":[]},{"name":"e","relations":[{"alias":"x","table":"z"}]}],"tables":[{"columns":[],"name":"z","rows":0},{"name":"é\"\\/ 日","rows":1099511627776}],"version":2}"#,
        ),
    ];
    for (file, wanted) in rows {
        let found = migrated(alloc, file.as_bytes())?;
        assert_eq!(rt; found.as_str(), wanted);
        let before = entries(alloc, file.as_bytes())?;
        let after = entries(alloc, found.as_bytes())?;
        assert_eq!(rt; after.as_str(), before.as_str());
        let again = migrated(alloc, found.as_bytes())?;
        assert_eq!(rt; again.as_str(), wanted);
    }
    Ok(())
}

fn filtered(alloc: Global, version: u32, filter: &str) -> Result<String, AllocError> {
    format!(in alloc;
        "{{\"queries\":[{{\"name\":\"q\",\"relations\":[{{\"alias\":\"x\",\"filter\":{filter},\"table\":\"t\"}}]}}],\"tables\":[{{\"name\":\"t\",\"rows\":9}}],\"version\":{version}}}"
    )
}

#[test]
fn fractions_in_version_2(rt: HostRuntime) -> Result<(), Fail> {
    let alloc = rt.alloc();
    let rows = [
        (1, "[5,100]", "\"0.05\""),
        (1, "[100,100]", "\"1.00\""),
        (1, "[1,1]", "\"1\""),
        (1, "[1,3]", "[1,3]"),
        (1, "[10,100]", "\"0.10\""),
        (1, "[7,1000000000000]", "\"0.000000000007\""),
        (1, "[7,10000000000000]", "[7,10000000000000]"),
        (1, "[0,10]", "[0,10]"),
        (1, "[11,10]", "[11,10]"),
        (1, "[18446744073709551615,10]", "[18446744073709551615,10]"),
        (2, "\"0.123456789012\"", "\"0.123456789012\""),
        (2, "\"1.000\"", "\"1.000\""),
        (2, "\"1\"", "\"1\""),
        (2, "\"0\"", "[0,1]"),
        (2, "\"0.00\"", "[0,100]"),
        (2, "\"1.5\"", "[15,10]"),
        (2, "[ 1,2 ]", "[1,2]"),
    ];
    for (version, filter, wanted) in rows {
        let file = filtered(alloc, version, filter)?;
        let found = migrated(alloc, file.as_bytes())?;
        let expected = filtered(alloc, 2, wanted)?;
        assert_eq!(rt; found.as_str(), expected.as_str());
        let before = entries(alloc, file.as_bytes())?;
        let after = entries(alloc, found.as_bytes())?;
        assert_eq!(rt; after.as_str(), before.as_str());
        let again = migrated(alloc, found.as_bytes())?;
        assert_eq!(rt; again.as_str(), found.as_str());
    }
    Ok(())
}

#[test]
fn faults_are_those_of_reading(rt: HostRuntime) -> Result<(), Fail> {
    let alloc = rt.alloc();
    let rows = [
        ("{", "not JSON"),
        ("7", "$"),
        (r#"{"version":3,"tables":[],"queries":[]}"#, "$.version"),
        (
            r#"{"tables":[{"name":"a","rows":1},{"name":"a","rows":1}],"queries":[]}"#,
            "table a twice",
        ),
        (
            r#"{"tables":[],"queries":[{"name":"q","relations":[{"alias":"x","table":"t","filter":"0.5"}]}]}"#,
            "$.queries[0].relations[0].filter",
        ),
        (
            r#"{"version":2,"tables":[],"queries":[{"name":"q","relations":[{"alias":"x","table":"t","filter":".5"}]}]}"#,
            "$.queries[0].relations[0].filter",
        ),
    ];
    for (file, wanted) in rows {
        let found = migrated(alloc, file.as_bytes())?;
        assert_eq!(rt; found.as_str(), wanted);
        let fault = entries(alloc, file.as_bytes())?;
        assert_eq!(rt; fault.as_str(), wanted);
    }
    Ok(())
}

#[test]
fn a_value_in_version_2(rt: HostRuntime) -> Result<(), Fail> {
    let alloc = rt.alloc();
    match serde_json::Value::from_str(alloc, EXAMPLE) {
        Ok(value) => match rewritten(alloc, &value) {
            Ok(new) => {
                let text = new.to_string(alloc)?;
                assert_eq!(rt; text.as_str(), EXAMPLE_IN_TWO);
            }
            Err(_) => assert!(rt; false, "a fault"),
        },
        Err(_) => assert!(rt; false, "not JSON"),
    }
    Ok(())
}
