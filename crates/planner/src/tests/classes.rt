use crate::tests::{clique, counts, pred, rel};
use crate::{Class, OpenGate, Options, plan, plan_alone};
use cost_model::{Cout, Ops};
use dpe_base::{Kind, Query};
use join_graph::Graph;
use std::alloc::Global;
use std::test::Fail;

// The class and the enumerator, the pairs of the clique of six, and what a plan by three workers and buffers of 100 pairs counts.
static COUNTS: [(Option<Class>, Kind, &str); 6] = [
    (
        None,
        Kind::DpSize,
        "pairs 301 buffers 4 rounds 8 probes 0 drawn 325",
    ),
    (
        None,
        Kind::DpSva,
        "pairs 301 buffers 4 rounds 8 probes 753 drawn 325",
    ),
    (
        Some(Class::Narrow),
        Kind::DpSva,
        "pairs 291 buffers 3 rounds 7 probes 753 drawn 312",
    ),
    (
        Some(Class::Narrow),
        Kind::DpCcp,
        "pairs 291 buffers 3 rounds 13 probes 0 drawn 330",
    ),
    (
        Some(Class::ZigZag),
        Kind::DpSva,
        "pairs 171 buffers 2 rounds 9 probes 0 drawn 198",
    ),
    (
        Some(Class::LeftDeep),
        Kind::DpSva,
        "pairs 171 buffers 0 rounds 0 probes 0 drawn 0",
    ),
];

#[test]
fn counts_are_those_of_the_class(rt: HostRuntime) -> Result<(), Fail> {
    let alloc = rt.alloc();
    let query = clique(alloc, 6)?;
    assert!(rt; Graph::of(&query).first_unreached().is_none());
    for (class, enumerator, text) in &COUNTS {
        let options = Options {
            enumerator: *enumerator,
            buffer: 100,
            workers: 3,
            class: *class,
        };
        let planned = plan(&rt, alloc, &query, Ops, &options, &OpenGate)?;
        assert_eq!(rt; counts(alloc, &planned)?.as_str(), *text, "{options:?}");
        let alone = plan_alone(alloc, &query, Ops, &options, &OpenGate)?;
        assert_eq!(rt; counts(alloc, &alone)?.as_str(), *text, "{options:?}");
        assert_eq!(rt;
            alone.tree.cost(&Ops, &query),
            planned.tree.cost(&Ops, &query)
        );
    }
    Ok(())
}

// Two triples of relations of a thousand rows: within a triple neighbours join one to one, and between the triples all rows do.
fn two_triples(alloc: Global) -> Result<Query, Fail> {
    let rels = vec![in alloc; rel(1000); 6]?;
    let preds = vec![in alloc;
        pred(0, 1, 1000),
        pred(1, 2, 1000),
        pred(2, 3, 1),
        pred(3, 4, 1000),
        pred(4, 5, 1000),
    ]?;
    Ok(Query::new(rels, preds)?)
}

// What the plan of each class costs.
static COSTS: [(Option<Class>, u128); 4] = [
    (None, 1_004_000),
    (Some(Class::Narrow), 2_003_000),
    (Some(Class::ZigZag), 3_002_000),
    (Some(Class::LeftDeep), 3_002_000),
];

#[test]
fn a_class_costs_what_it_forbids(rt: HostRuntime) -> Result<(), Fail> {
    let alloc = rt.alloc();
    let query = two_triples(alloc)?;
    assert!(rt; Graph::of(&query).first_unreached().is_none());
    for (class, cost) in &COSTS {
        let options = Options {
            enumerator: Kind::DpCcp,
            buffer: 4096,
            workers: 2,
            class: *class,
        };
        let planned = plan_alone(alloc, &query, Cout, &options, &OpenGate)?;
        assert_eq!(rt; planned.tree.cost(&Cout, &query), *cost, "{class:?}");
    }
    Ok(())
}
