use super::answer;
use super::files::numbered_file;
use crate::Status;
use dpe_base::{INPUT_CAP, N_MAX, ROW_CAP};
use std::alloc::{AllocError, Global};
use std::test::Fail;
use std::thread::Threads;

/// Words that don't show in a report.
static WORDS: [&[&str]; 7] = [
    &[],
    &["--enumerator", "dpsub"],
    &["--enumerator", "dpsize"],
    &["--enumerator", "dpsva"],
    &["--buffer", "1", "--workers", "1"],
    &["--buffer", "65536", "--workers", "1"],
    &["--buffer", "65536", "--workers", "64"],
];

/// Other numbers of workers.
static WORKERS: [&[&str]; 3] = [
    &["--workers", "3"],
    &["--buffer", "1000", "--workers", "5"],
    &["--workers", "63"],
];

/// As many rounds as pairs, and a thread for each pair, since each full buffer starts the filling of the next.
static ONE_BY_ONE: [&[&str]; 1] = [&["--buffer", "1", "--workers", "64"]];

/// For a star of sixteen, whose 245,760 pairs would take too long one by one.
static FEW: [&[&str]; 3] = [
    &[],
    &["--enumerator", "dpsva"],
    &["--buffer", "512", "--workers", "64"],
];

/// A query over tables of as many rows each, with joins that keep all. Its plan joins one relation after the other to the
/// rest, the relation on the left, each time with the same rows and at the same cost.
#[derive(Clone, Copy)]
pub struct Shape<'a> {
    name: &'a str,
    joins: &'a [(u8, u8)],
    order: &'a [u8],
    table_rows: u64,
    operator: &'a str,
    rows: u64,
    step: u64,
    pairs: u64,
}

/// A file with the shape's query.
pub fn shape_file(alloc: Global, shape: &Shape) -> Result<String, AllocError> {
    numbered_file(
        alloc,
        shape.name,
        shape.order.len().min(N_MAX) as u32,
        shape.table_rows,
        shape.joins,
    )
}

/// The report of the shape's plan.
pub fn one_by_one(alloc: Global, shape: &Shape) -> Result<String, AllocError> {
    let Shape {
        name,
        order,
        operator,
        rows,
        step,
        pairs,
        ..
    } = shape;
    let mut text = String::new(alloc);
    let mut cost = step.saturating_mul((order.len() as u64).saturating_sub(1));
    writeln!(text, "query {name}")?;
    writeln!(text, "cost {cost} rows {rows} pairs {pairs}")?;
    let mut indent = String::new(alloc);
    for r in *order {
        if cost > 0 {
            let before = indent.as_str();
            writeln!(text, "{before}{operator} rows {rows} cost {cost}")?;
            indent.push_str("  ")?;
        }
        let before = indent.as_str();
        writeln!(text, "{before}scan r{r} rows {rows}")?;
        cost = cost.saturating_sub(*step);
    }
    Ok(text)
}

/// Whether the shape's report is the same with all these words, which don't show in it.
fn is_planned_alike<R: Threads + Sync>(
    rt: &R,
    alloc: Global,
    shape: &Shape,
    lines: &[&[&str]],
) -> Result<bool, Fail> {
    let text = one_by_one(alloc, shape)?;
    for words in lines {
        let file = shape_file(alloc, shape)?;
        let (status, written) = answer(rt, alloc, words, file.into_bytes())?;
        if status != Status::Done || written.as_slice() != text.as_bytes() {
            return Ok(false);
        }
    }
    Ok(true)
}

const ASCENDING: [u8; N_MAX] = [
    0, 1, 2, 3, 4, 5, 6, 7, 8, 9, 10, 11, 12, 13, 14, 15, 16, 17, 18, 19,
];

fn chain(alloc: Global, count: u8) -> Result<Vec<(u8, u8)>, AllocError> {
    let mut joins = Vec::new(alloc);
    for i in 1..count {
        joins.push((i - 1, i))?;
    }
    Ok(joins)
}

fn star(alloc: Global, centre: u8, count: u8) -> Result<Vec<(u8, u8)>, AllocError> {
    let mut joins = Vec::new(alloc);
    for i in 0..count {
        if i != centre {
            joins.push((i.min(centre), i.max(centre)))?;
        }
    }
    Ok(joins)
}

/// A query over relations of one row.
fn of_ones<'a>(name: &'a str, joins: &'a [(u8, u8)], order: &'a [u8], pairs: u64) -> Shape<'a> {
    Shape {
        name,
        joins,
        order,
        table_rows: 1,
        operator: "loop",
        rows: 1,
        step: 2,
        pairs,
    }
}

#[test]
fn chains(rt: HostRuntime) -> Result<(), Fail> {
    let alloc = rt.alloc();
    for (count, pairs) in [(16u8, 680u64), (17, 816), (20, 1330)] {
        let joins = chain(alloc, count)?;
        let shape = of_ones(
            "chain",
            joins.as_slice(),
            &ASCENDING[..count as usize],
            pairs,
        );
        assert!(rt; is_planned_alike(&rt, alloc, &shape, &WORDS)?, "{count}");
        assert!(rt;
            is_planned_alike(&rt, alloc, &shape, &ONE_BY_ONE)?,
            "{count}"
        );
    }
    Ok(())
}

#[test]
fn chains_of_great_tables(rt: HostRuntime) -> Result<(), Fail> {
    let alloc = rt.alloc();
    for (count, pairs) in [(16u8, 680u64), (20, 1330)] {
        let joins = chain(alloc, count)?;
        let shape = Shape {
            name: "chain",
            joins: joins.as_slice(),
            order: &ASCENDING[..count as usize],
            table_rows: INPUT_CAP,
            operator: "hash",
            rows: ROW_CAP,
            step: 4 * ROW_CAP,
            pairs,
        };
        assert!(rt; is_planned_alike(&rt, alloc, &shape, &WORDS)?, "{count}");
        assert!(rt;
            is_planned_alike(&rt, alloc, &shape, &ONE_BY_ONE)?,
            "{count}"
        );
    }
    Ok(())
}

#[test]
fn a_cycle_of_sixteen(rt: HostRuntime) -> Result<(), Fail> {
    let alloc = rt.alloc();
    let mut joins = chain(alloc, 16)?;
    joins.push((0, 15))?;
    let shape = of_ones("cycle", joins.as_slice(), &ASCENDING[..16], 1800);
    assert!(rt; is_planned_alike(&rt, alloc, &shape, &WORDS)?);
    assert!(rt; is_planned_alike(&rt, alloc, &shape, &ONE_BY_ONE)?);
    Ok(())
}

const CENTRE_LATE: [u8; 18] = [1, 2, 3, 4, 5, 6, 7, 8, 9, 10, 11, 12, 13, 14, 15, 16, 0, 17];

#[test]
fn a_star_of_sixteen(rt: HostRuntime) -> Result<(), Fail> {
    let alloc = rt.alloc();
    let joins = star(alloc, 0, 16)?;
    let order = [1, 2, 3, 4, 5, 6, 7, 8, 9, 10, 11, 12, 13, 14, 0, 15];
    let shape = of_ones("star", joins.as_slice(), &order, 245_760);
    assert!(rt; is_planned_alike(&rt, alloc, &shape, &FEW)?);
    Ok(())
}

#[test]
fn a_star_of_eighteen(rt: HostRuntime) -> Result<(), Fail> {
    let alloc = rt.alloc();
    let joins = star(alloc, 0, 18)?;
    let shape = of_ones("star", joins.as_slice(), &CENTRE_LATE, 1_114_112);
    assert!(rt; is_planned_alike(&rt, alloc, &shape, &[&[]])?);
    Ok(())
}

#[test]
fn a_star_whose_centre_is_last(rt: HostRuntime) -> Result<(), Fail> {
    let alloc = rt.alloc();
    let joins = star(alloc, 3, 4)?;
    let shape = of_ones("star", joins.as_slice(), &ASCENDING[..4], 12);
    assert!(rt; is_planned_alike(&rt, alloc, &shape, &WORDS)?);
    Ok(())
}

/// The joins of each of so many relations with each.
pub fn clique_joins(alloc: Global, count: u8) -> Result<Vec<(u8, u8)>, AllocError> {
    let mut joins = Vec::new(alloc);
    for low in 0..count {
        for high in low + 1..count {
            joins.push((low, high))?;
        }
    }
    Ok(joins)
}

/// Ten or eleven relations, each joined with each.
pub fn clique_of<'a>(count: u8, joins: &'a [(u8, u8)]) -> Shape<'a> {
    let (order, pairs) = if count == 10 {
        (&ASCENDING[..10], 28_501)
    } else {
        (&ASCENDING[..11], 86_526)
    };
    of_ones("clique", joins, order, pairs)
}

#[test]
fn a_clique_of_ten_relations(rt: HostRuntime) -> Result<(), Fail> {
    let alloc = rt.alloc();
    let joins = clique_joins(alloc, 10)?;
    let shape = clique_of(10, joins.as_slice());
    assert!(rt; is_planned_alike(&rt, alloc, &shape, &WORDS)?);
    assert!(rt; is_planned_alike(&rt, alloc, &shape, &WORKERS)?);
    assert!(rt; is_planned_alike(&rt, alloc, &shape, &ONE_BY_ONE)?);
    Ok(())
}
