//! Workload files in short forms.
use std::alloc::{AllocError, Global};

/// Begins the next item of a list: a comma stands before it, unless it is the first.
fn next_item(file: &mut String) -> Result<(), AllocError> {
    if !file.as_str().ends_with('[') {
        file.push_str(",")?;
    }
    Ok(())
}

/// A table without columns.
fn write_table(file: &mut String, name: &str, rows: u64) -> Result<(), AllocError> {
    next_item(file)?;
    write!(file, "{{\"name\":\"{name}\",\"rows\":{rows}}}")
}

/// The end of the tables, and the beginning of the one query.
fn write_query(file: &mut String, name: &str) -> Result<(), AllocError> {
    write!(file, "],\"queries\":[{{\"name\":\"{name}\",\"relations\":[")
}

/// A relation over the table of its name.
fn write_relation(file: &mut String, alias: &str) -> Result<(), AllocError> {
    next_item(file)?;
    write!(file, "{{\"alias\":\"{alias}\",\"table\":\"{alias}\"}}")
}

/// A join with a selectivity.
fn write_join(
    file: &mut String,
    left: &str,
    right: &str,
    num: u64,
    den: u64,
) -> Result<(), AllocError> {
    next_item(file)?;
    write!(
        file,
        "{{\"left\":\"{left}\",\"right\":\"{right}\",\"selectivity\":[{num},{den}]}}"
    )
}

/// A file with a table for each relation, of the same name and without columns, and one query over them.
pub fn file_of(
    alloc: Global,
    name: &str,
    relations: &[(&str, u64)],
    joins: &[(&str, &str, u64, u64)],
) -> Result<String, AllocError> {
    let mut file = String::from_str(alloc, "{\"tables\":[")?;
    for (table, rows) in relations {
        write_table(&mut file, table, *rows)?;
    }
    write_query(&mut file, name)?;
    for (alias, _) in relations {
        write_relation(&mut file, alias)?;
    }
    file.push_str("],\"joins\":[")?;
    for (left, right, num, den) in joins {
        write_join(&mut file, left, right, *num, *den)?;
    }
    file.push_str("]}]}")?;
    Ok(file)
}

/// A name of a number: r0, r1 and so on.
fn numbered(alloc: Global, number: u32) -> Result<String, AllocError> {
    let mut name = String::new(alloc);
    write!(name, "r{number}")?;
    Ok(name)
}

/// A query over r0, r1 and so on with joins that keep all.
fn write_numbered_query(
    file: &mut String,
    alloc: Global,
    name: &str,
    count: u32,
    joins: &[(u8, u8)],
) -> Result<(), AllocError> {
    next_item(file)?;
    write!(file, "{{\"name\":\"{name}\",\"relations\":[")?;
    for i in 0..count {
        let alias = numbered(alloc, i)?;
        write_relation(file, alias.as_str())?;
    }
    file.push_str("],\"joins\":[")?;
    for (left, right) in joins {
        let left = numbered(alloc, *left as u32)?;
        let right = numbered(alloc, *right as u32)?;
        write_join(file, left.as_str(), right.as_str(), 1, 1)?;
    }
    file.push_str("]}")
}

/// A file with a query, so many times, over r0, r1 and so on of this many rows, with joins that keep all.
pub fn repeated_file(
    alloc: Global,
    name: &str,
    count: u32,
    rows: u64,
    joins: &[(u8, u8)],
    times: u32,
) -> Result<String, AllocError> {
    let mut file = String::from_str(alloc, "{\"tables\":[")?;
    for i in 0..count {
        let table = numbered(alloc, i)?;
        write_table(&mut file, table.as_str(), rows)?;
    }
    file.push_str("],\"queries\":[")?;
    for _ in 0..times {
        write_numbered_query(&mut file, alloc, name, count, joins)?;
    }
    file.push_str("]}")?;
    Ok(file)
}

/// A file with one query over r0, r1 and so on of this many rows, with joins that keep all.
pub fn numbered_file(
    alloc: Global,
    name: &str,
    count: u32,
    rows: u64,
    joins: &[(u8, u8)],
) -> Result<String, AllocError> {
    repeated_file(alloc, name, count, rows, joins, 1)
}

/// A file with so many tables r0, r1 and so on, and so many queries, each over r0.
pub fn crowded_file(alloc: Global, tables: u32, queries: u32) -> Result<String, AllocError> {
    let mut file = String::from_str(alloc, "{\"tables\":[")?;
    for i in 0..tables {
        let table = numbered(alloc, i)?;
        write_table(&mut file, table.as_str(), 1)?;
    }
    file.push_str("],\"queries\":[")?;
    for _ in 0..queries {
        next_item(&mut file)?;
        file.push_str("{\"name\":\"q\",\"relations\":[{\"alias\":\"a\",\"table\":\"r0\"}]}")?;
    }
    file.push_str("]}")?;
    Ok(file)
}
