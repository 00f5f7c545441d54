//! The pairs of the classes.
use crate::tests::{SHAPES, Shape, bushy, query};
use crate::{Thin, ZigZagPairs};
use dpe_base::{Pair, RelSet};
use join_graph::Graph;
use pair_stream::{DpSub, collect_pairs};
use std::test::Fail;

// Each list has the pairs of the other.
fn same_members(one: &[Pair], other: &[Pair]) -> bool {
    one.len() == other.len() && one.iter().all(|p| other.contains(p))
}

#[test]
fn zig_zag_pairs_are_the_thin_ones(rt: HostRuntime) -> Result<(), Fail> {
    for n in 1..8u8 {
        for shape in SHAPES {
            let graph = Graph::of(&query(rt.alloc(), n, shape)?);
            let thin = collect_pairs(rt.alloc(), &mut Thin::over(DpSub::over(&graph), 1))?;
            let pairs = collect_pairs(rt.alloc(), &mut ZigZagPairs::over(&graph))?;
            assert!(rt; same_members(&pairs, &thin));
        }
    }
    Ok(())
}

// A set of a clique's relations gives a pair by each of them, and a set of two gives one.
#[test]
fn zig_zag_pairs_of_a_clique(rt: HostRuntime) -> Result<(), Fail> {
    for (n, count) in [(2u8, 1usize), (3, 6), (4, 22), (16, 524_152)] {
        let graph = Graph::of(&query(rt.alloc(), n, Shape::Clique)?);
        let pairs = collect_pairs(rt.alloc(), &mut ZigZagPairs::over(&graph))?;
        assert_eq!(rt; pairs.len(), count);
    }
    Ok(())
}

// Two relations next to each other give a pair, and each longer part of the chain two.
#[test]
fn zig_zag_pairs_of_a_chain_of_twenty(rt: HostRuntime) -> Result<(), Fail> {
    let graph = Graph::of(&query(rt.alloc(), 20, Shape::Chain)?);
    let pairs = collect_pairs(rt.alloc(), &mut ZigZagPairs::over(&graph))?;
    assert_eq!(rt; pairs.len(), 361);
    Ok(())
}

#[test]
fn zig_zag_pairs_of_a_chain_of_three(rt: HostRuntime) -> Result<(), Fail> {
    let graph = Graph::of(&query(rt.alloc(), 3, Shape::Chain)?);
    let mut found = Vec::new(rt.alloc());
    for p in collect_pairs(rt.alloc(), &mut ZigZagPairs::over(&graph))?.iter() {
        found.push((p.a.bits(), p.b.bits()))?;
    }
    assert_eq!(rt;
        found.as_slice(),
        [(1, 2), (2, 4), (1, 6), (3, 4)].as_slice()
    );
    Ok(())
}

#[test]
fn thin_pairs_of_a_chain_of_four(rt: HostRuntime) -> Result<(), Fail> {
    let graph = Graph::of(&bushy(rt.alloc())?);
    for (width, count) in [(1u32, 9usize), (2, 10), (3, 10)] {
        let pairs = collect_pairs(rt.alloc(), &mut Thin::over(DpSub::over(&graph), width))?;
        assert_eq!(rt; pairs.len(), count);
    }
    Ok(())
}

// How many pairs of disjoint sets of so many relations have a side of at most `width`, each counted in one order.
fn splits_by_width(n: u8, width: u32) -> usize {
    let mut count = 0usize;
    for a in 1..1u32 << n.min(16) {
        for b in 1..a {
            let (a, b) = (RelSet::of_bits(a), RelSet::of_bits(b));
            if !a.meets(b) && (a.len() <= width || b.len() <= width) {
                count = count.saturating_add(1);
            }
        }
    }
    count
}

#[test]
fn thin_pairs_of_a_clique_of_six(rt: HostRuntime) -> Result<(), Fail> {
    let graph = Graph::of(&query(rt.alloc(), 6, Shape::Clique)?);
    for (width, count) in [(1u32, 171usize), (2, 291), (3, 301)] {
        let pairs = collect_pairs(rt.alloc(), &mut Thin::over(DpSub::over(&graph), width))?;
        assert_eq!(rt; pairs.len(), count);
        assert_eq!(rt; splits_by_width(6, width), count);
    }
    Ok(())
}
