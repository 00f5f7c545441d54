ghost use Rattle.std.specs.Prelude.{◌≡◌, ◌<◌};

use crate::{DpSize, DpSva, SkipParts};
use dpe_base::{Pair, Pred, Query, Rel, Steps};
use join_graph::Graph;
use pair_stream::{DpSub, PairStream, Parts, collect_pairs};
use std::alloc::Global;
use std::marker::Brand;
use std::sync::ledger::{Blank, Ledger};
use std::test::Fail;

#[derive(Clone, Copy)]
enum Shape {
    Chain,
    Cycle,
    Star,
    Clique,
}

fn join(preds: &mut Vec<Pred>, low: u8, high: u8) -> Result<(), Fail> {
    preds.push(Pred {
        low,
        high,
        num: 1,
        den: 1,
    })?;
    Ok(())
}

fn preds(alloc: Global, shape: Shape, n: u8) -> Result<Vec<Pred>, Fail> {
    let mut preds = Vec::new(alloc);
    for high in 1..n {
        match shape {
            Shape::Chain | Shape::Cycle => join(&mut preds, high - 1, high)?,
            Shape::Star => join(&mut preds, 0, high)?,
            Shape::Clique => {
                for low in 0..high {
                    join(&mut preds, low, high)?;
                }
            }
        }
    }
    if let Shape::Cycle = shape {
        if n > 2 {
            join(&mut preds, 0, n - 1)?;
        }
    }
    Ok(preds)
}

fn graph(alloc: Global, shape: Shape, n: u8) -> Result<Graph, Fail> {
    let rel = Rel {
        rows: 1,
        num: 1,
        den: 1,
    };
    let rels = vec![in alloc; rel; n as usize]?;
    let query = Query::new(rels, preds(alloc, shape, n)?)?;
    Ok(Graph::of(&query))
}

fn by_unions(alloc: Global, graph: &Graph) -> Result<Vec<Pair>, Fail> {
    let mut stream = DpSub::over(graph);
    Ok(collect_pairs(alloc, &mut stream)?)
}

fn by_sizes(alloc: Global, graph: &Graph) -> Result<Vec<Pair>, Fail> {
    let parts = Parts::make(alloc, graph)?;
    let mut stream = DpSize::over(graph, &parts);
    Ok(collect_pairs(alloc, &mut stream)?)
}

// The pairs, and how many probes they took.
fn by_skips(alloc: Global, graph: &Graph) -> Result<(Vec<Pair>, u64), Fail> {
    graph.recall();
    let parts = Parts::make(alloc, graph)?;
    let skips = SkipParts::make(alloc, &parts)?;
    let mut stream = DpSva::over(graph, &skips);
    let pairs = collect_pairs(alloc, &mut stream)?;
    let probes = stream.probes();
    Ok((pairs, probes))
}

fn connected_sets(alloc: Global, graph: &Graph) -> Result<usize, Fail> {
    let parts = Parts::make(alloc, graph)?;
    let mut sets = 0usize;
    for k in 0..graph.n() {
        sets = sets.saturating_add(parts.part(k as u32 + 1).len());
    }
    Ok(sets)
}

// The first number of relations from 2 on at which the numbers of pairs and of connected sets are not those of the table.
fn first_other(alloc: Global, shape: Shape, table: &[(usize, usize)]) -> Result<Option<u8>, Fail> {
    let mut n = 2u8;
    for (pairs, sets) in table {
        let graph = graph(alloc, shape, n)?;
        let counts = [
            by_unions(alloc, &graph)?.len(),
            by_sizes(alloc, &graph)?.len(),
            by_skips(alloc, &graph)?.0.len(),
        ];
        if counts != [*pairs; 3] || connected_sets(alloc, &graph)? != *sets {
            return Ok(Some(n));
        }
        n = n.saturating_add(1);
    }
    Ok(None)
}

#[test]
fn pairs_and_sets_are_as_many_as_known(rt: HostRuntime) -> Result<(), Fail> {
    let chain = [
        (1, 3),
        (4, 6),
        (10, 10),
        (20, 15),
        (35, 21),
        (56, 28),
        (84, 36),
        (120, 45),
        (165, 55),
    ];
    assert_eq!(rt; first_other(rt.alloc(), Shape::Chain, &chain)?, None);
    let cycle = [
        (1, 3),
        (6, 7),
        (18, 13),
        (40, 21),
        (75, 31),
        (126, 43),
        (196, 57),
        (288, 73),
        (405, 91),
    ];
    assert_eq!(rt; first_other(rt.alloc(), Shape::Cycle, &cycle)?, None);
    let star = [
        (1, 3),
        (4, 6),
        (12, 11),
        (32, 20),
        (80, 37),
        (192, 70),
        (448, 135),
        (1024, 264),
        (2304, 521),
    ];
    assert_eq!(rt; first_other(rt.alloc(), Shape::Star, &star)?, None);
    let clique = [
        (1, 3),
        (6, 7),
        (25, 15),
        (90, 31),
        (301, 63),
        (966, 127),
        (3025, 255),
        (9330, 511),
        (28501, 1023),
    ];
    assert_eq!(rt; first_other(rt.alloc(), Shape::Clique, &clique)?, None);
    Ok(())
}

#[test]
fn same_list_by_skips(rt: HostRuntime) -> Result<(), Fail> {
    for shape in [Shape::Chain, Shape::Cycle, Shape::Star, Shape::Clique] {
        let graph = graph(rt.alloc(), shape, 8)?;
        let plain = by_sizes(rt.alloc(), &graph)?;
        let skips = by_skips(rt.alloc(), &graph)?.0;
        assert_eq!(rt; skips.as_slice(), plain.as_slice());
    }
    Ok(())
}

#[test]
fn dpsva_takes_the_known_probes(rt: HostRuntime) -> Result<(), Fail> {
    for (shape, n, want) in [
        (Shape::Clique, 4, 53),
        (Shape::Chain, 6, 150),
        (Shape::Chain, 1, 0),
    ] {
        let graph = graph(rt.alloc(), shape, n)?;
        assert_eq!(rt; by_skips(rt.alloc(), &graph)?.1, want, "of {n}");
    }
    Ok(())
}

// How many probes there were when each of the first pairs was found.
fn probes_when_found<L: Ledger, S: PairStream>(
    alloc: Global,
    stream: &mut S,
    pairs: u32,
    blank: Blank,
) -> Result<Vec<u64>, Fail>
    requires name { blank.name ≡ L.name }
    requires parts { blank.parts ≡ L.parts }
    requires some { 0 < L.parts }
{
    let mut steps = Steps::<L>::new(blank);
    let mut counts = Vec::new(alloc);
    for _ in 0..pairs {
        if stream.next(&mut steps).is_none() {
            break;
        }
        counts.push(stream.probes())?;
    }
    Ok(counts)
}

fn first_probes(alloc: Global, stream: &mut DpSva, pairs: u32) -> Result<Vec<u64>, Fail> {
    probes_when_found::<Brand, DpSva>(alloc, stream, pairs, Blank::new(1))
}

// Each line is a size of the first sides with one of the second sides. The numbers of one first side stand together,
// and those that are left out were probed in vain.
#[test]
fn dpsva_probes_the_known_members_for_each_first_side(rt: HostRuntime) -> Result<(), Fail> {
    let graph = graph(rt.alloc(), Shape::Clique, 4)?;
    graph.recall();
    let parts = Parts::make(rt.alloc(), &graph)?;
    let skips = SkipParts::make(rt.alloc(), &parts)?;
    let mut stream = DpSva::over(&graph, &skips);
    let counts = first_probes(rt.alloc(), &mut stream, 26)?;
    let want = [
        1, 2, 3, 4, 5, 6, //
        8, 9, 10, 12, 13, 15, 16, 18, 20, 22, 23, 25, //
        29, 31, 34, 37, //
        43, 46, 48,
    ];
    assert_eq!(rt; counts.as_slice(), want.as_slice());
    assert_eq!(rt; stream.probes(), 53);
    Ok(())
}

#[test]
fn chain_of_three(rt: HostRuntime) -> Result<(), Fail> {
    let graph = graph(rt.alloc(), Shape::Chain, 3)?;
    let mut found = Vec::new(rt.alloc());
    for p in by_sizes(rt.alloc(), &graph)?.iter() {
        found.push((p.a.bits(), p.b.bits()))?;
    }
    assert_eq!(rt;
        found.as_slice(),
        [(1, 2), (2, 4), (1, 6), (3, 4)].as_slice()
    );
    Ok(())
}
