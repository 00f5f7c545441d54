//! Workload files, and what is printed of their entries or of their fault.
mod accepted;
mod faults;
mod limits;
mod places;
mod refusals;
mod values;
mod versions;

use super::*;
use std::alloc::{AllocError, Global};

const EXAMPLE: &str = r#"{"tables":[
  {"name":"a","rows":1000,"columns":[{"name":"k","distinct":100}]},
  {"name":"b","rows":1000,"columns":[{"name":"k","distinct":50}]}],
 "queries":[
  {"name":"both",
   "relations":[{"alias":"a","table":"a"},{"alias":"b","table":"b"}],
   "joins":[
    {"left":"a","right":"b","left_column":"k","right_column":"k"},
    {"left":"a","right":"b","selectivity":[1,10]}]}]}"#;

fn write_named(out: &mut String, named: &Named) -> Result<(), AllocError> {
    for (alias, rel) in named.aliases.as_slice().iter().zip(named.query.rels()) {
        let alias = alias.text();
        let rows = rel.rows;
        let num = rel.num;
        let den = rel.den;
        write!(out, " {alias} {rows} {num}/{den}")?;
    }
    for pred in named.query.preds() {
        let low = pred.low;
        let high = pred.high;
        let num = pred.num;
        let den = pred.den;
        write!(out, " {low}-{high} {num}/{den}")?;
    }
    Ok(())
}

fn write_entry(out: &mut String, entry: &Entry) -> Result<(), AllocError> {
    let name = entry.name.text();
    write!(out, "{name}:")?;
    match &entry.part {
        Part::Accepted(named) => write_named(out, named)?,
        Part::Refused(refusal) => {
            let code = refusal.code();
            write!(out, " {code} ")?;
            write_refusal(out, refusal)?;
        }
    }
    writeln!(out)
}

fn write_fault(out: &mut String, fault: &FileFault) -> Result<(), AllocError> {
    match fault {
        FileFault::NotJson => write!(out, "not JSON"),
        FileFault::Shape(place) => write_path(out, *place),
        FileFault::TooManyTables => write!(out, "too many tables"),
        FileFault::TooManyQueries => write!(out, "too many queries"),
        FileFault::DuplicateTable(name) => {
            let name = name.text();
            write!(out, "table {name} twice")
        }
        FileFault::NoMemory => write!(out, "no memory"),
    }
}

// The fault, or a line for each entry.
fn write_outcome(out: &mut String, read: Result<Workload, FileFault>) -> Result<(), AllocError> {
    match read {
        Ok(workload) => {
            for i in 0..workload.len() {
                write_entry(out, workload.entry(i))?;
            }
            Ok(())
        }
        Err(fault) => write_fault(out, &fault),
    }
}

fn outcome(alloc: Global, bytes: &[u8]) -> Result<String, AllocError> {
    let mut out = String::new(alloc);
    write_outcome(&mut out, read(alloc, bytes))?;
    Ok(out)
}

// Text repeated, with a comma between each two.
fn repeated(alloc: Global, text: &str, n: usize) -> Result<String, AllocError> {
    let mut out = String::new(alloc);
    for i in 0..n {
        if i > 0 {
            out.push_str(",")?;
        }
        out.push_str(text)?;
    }
    Ok(out)
}
