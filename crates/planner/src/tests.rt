mod classes;

use crate::{OpenGate, Options, Planned, plan};
use cost_model::{Cout, Ops};
use dpe_base::{BUFFER_MAX, Kind, Pred, Query, Rel, WORKERS_MAX};
use join_graph::Graph;
use join_tree::Tree;
use std::alloc::{AllocError, Global};
use std::test::Fail;
use std::thread::Threads;

mod gates;

#[test]
fn plans_a_query_built_by_hand(rt: HostRuntime) -> Result<(), Fail> {
    let alloc = rt.alloc();

    // a of 100 rows, b of 1,000 and c of 10, without filters; one row in 100 of a and b joins, and of b and c.
    let rels = vec![in alloc; rel(100), rel(1000), rel(10)]?;
    let preds = vec![in alloc; pred(0, 1, 100), pred(1, 2, 100)]?;
    let query = Query::new(rels, preds)?;

    // A planner takes connected queries alone.
    assert!(rt; Graph::of(&query).first_unreached().is_none());

    // The cheapest tree by the sum of the rows of all joins: a with the join of b and c.
    let planned = plan(&rt, alloc, &query, Cout, &Options::DEFAULT, &OpenGate)?;
    assert_eq!(rt; planned.tree.cost(&Cout, &query), 200);
    assert_eq!(rt; drawing(alloc, &planned.tree)?.as_str(), "(0 (1 2))");

    // Its four csg-cmp-pairs took one buffer and two rounds: those of two relations, and those of three.
    assert_eq!(rt; planned.pairs, 4);
    assert_eq!(rt; planned.buffers, 1);
    assert_eq!(rt; planned.rounds, 2);
    assert_eq!(rt; planned.probes, 0);
    assert_eq!(rt; planned.drawn, 12);
    Ok(())
}

// A relation of so many rows that no filter narrows.
fn rel(rows: u64) -> Rel {
    Rel {
        rows,
        num: 1,
        den: 1,
    }
}

// A predicate that keeps one row in `den`.
fn pred(low: u8, high: u8, den: u64) -> Pred {
    Pred {
        low,
        high,
        num: 1,
        den,
    }
}

fn draw(text: &mut String, tree: &Tree) -> Result<(), AllocError> {
    match tree {
        Tree::Leaf(r) => {
            let r = *r;
            write!(text, "{r}")
        }
        Tree::Join { op: _, left, right } => {
            text.push_str("(")?;
            draw(text, left)?;
            text.push_str(" ")?;
            draw(text, right)?;
            text.push_str(")")
        }
    }
}

// The tree in one line, with the numbers of its leaves.
fn drawing(alloc: Global, tree: &Tree) -> Result<String, AllocError> {
    let mut text = String::new(alloc);
    draw(&mut text, tree)?;
    Ok(text)
}

// Relations of one row, each joined with each.
fn clique(alloc: Global, count: u8) -> Result<Query, Fail> {
    let rels = vec![in alloc; rel(1); count as usize]?;
    let mut preds = Vec::new(alloc);
    for high in 1..count {
        for low in 0..high {
            preds.push(pred(low, high, 1))?;
        }
    }
    Ok(Query::new(rels, preds)?)
}

// The counts of a plan in one line.
fn counts(alloc: Global, planned: &Planned) -> Result<String, AllocError> {
    let Planned {
        pairs,
        buffers,
        rounds,
        probes,
        drawn,
        ..
    } = planned;
    let mut text = String::new(alloc);
    write!(
        text,
        "pairs {pairs} buffers {buffers} rounds {rounds} probes {probes} drawn {drawn}"
    )?;
    Ok(text)
}

// The enumerator, the buffer and the workers, and the counts with them over the clique of four.
static COUNTS: [(Kind, u32, u32, &str); 8] = [
    (
        Kind::DpCcp,
        3,
        1,
        "pairs 25 buffers 9 rounds 15 probes 0 drawn 40",
    ),
    (
        Kind::DpSub,
        3,
        1,
        "pairs 25 buffers 9 rounds 11 probes 0 drawn 36",
    ),
    (
        Kind::DpSize,
        3,
        1,
        "pairs 25 buffers 9 rounds 9 probes 0 drawn 34",
    ),
    (
        Kind::DpSva,
        3,
        1,
        "pairs 25 buffers 9 rounds 9 probes 53 drawn 34",
    ),
    (
        Kind::DpCcp,
        1,
        3,
        "pairs 25 buffers 25 rounds 25 probes 0 drawn 100",
    ),
    (
        Kind::DpSub,
        24,
        5,
        "pairs 25 buffers 2 rounds 4 probes 0 drawn 45",
    ),
    (
        Kind::DpSize,
        BUFFER_MAX,
        WORKERS_MAX,
        "pairs 25 buffers 1 rounds 3 probes 0 drawn 217",
    ),
    (
        Kind::DpSva,
        25,
        63,
        "pairs 25 buffers 1 rounds 3 probes 53 drawn 214",
    ),
];

#[test]
fn counts_are_those_of_what_is_asked_for(rt: HostRuntime) -> Result<(), Fail> {
    let alloc = rt.alloc();
    let query = clique(alloc, 4)?;
    assert!(rt; Graph::of(&query).first_unreached().is_none());
    for (enumerator, buffer, workers, text) in &COUNTS {
        let options = Options {
            enumerator: *enumerator,
            buffer: *buffer,
            workers: *workers,
            class: None,
        };
        let planned = plan(&rt, alloc, &query, Ops, &options, &OpenGate)?;
        assert_eq!(rt; counts(alloc, &planned)?.as_str(), *text, "{options:?}");
        assert_eq!(rt; planned.tree.cost(&Ops, &query), 6, "{options:?}");
    }
    Ok(())
}
