use crate::Graph;
use dpe_base::{Pred, Query, Rel, RelSet};
use std::alloc::Global;
use std::test::Fail;

const REL: Rel = Rel {
    rows: 1,
    num: 1,
    den: 1,
};

// A graph of five relations with these edges.
fn graph(alloc: Global, edges: &[(u8, u8)]) -> Result<Graph, Fail> {
    let rels = vec![in alloc; REL; 5]?;
    let mut preds = Vec::new(alloc);
    for (low, high) in edges {
        preds.push(Pred {
            low: *low,
            high: *high,
            num: 1,
            den: 1,
        })?;
    }
    let query = Query::new(rels, preds)?;
    Ok(Graph::of(&query))
}

// The neighbours of the set, and whether it is connected.
fn seen(g: &Graph, bits: u32) -> Option<(u32, bool)> {
    let s = RelSet::of_bits(bits);
    if !s.within(RelSet::full(g.n())) {
        return None;
    }
    Some((g.neighbours(s).bits(), g.connected(s)))
}

fn joined(g: &Graph, a: u32, b: u32) -> Option<bool> {
    let all = RelSet::full(g.n());
    let (a, b) = (RelSet::of_bits(a), RelSet::of_bits(b));
    if !a.within(all) || !b.within(all) {
        return None;
    }
    Some(g.joined(a, b))
}

#[test]
fn two_components(rt: HostRuntime) -> Result<(), Fail> {
    let g = graph(rt.alloc(), &[(0, 2), (1, 2), (3, 4)])?;
    assert_eq!(rt; g.n(), 5);
    let sets = [
        (0, 0, false),
        (4, 3, true),
        (3, 4, false),
        (7, 0, true),
        (24, 0, true),
        (12, 19, false),
        (31, 0, false),
    ];
    for (s, neighbours, connected) in sets {
        assert_eq!(rt; seen(&g, s), Some((neighbours, connected)), "at {s}");
    }
    for (a, b, want) in [
        (1, 2, false),
        (4, 3, true),
        (3, 4, true),
        (7, 24, false),
        (8, 16, true),
    ] {
        assert_eq!(rt; joined(&g, a, b), Some(want), "at {a} and {b}");
    }
    assert_eq!(rt; g.first_unreached(), Some(3));
    Ok(())
}

#[test]
fn one_component(rt: HostRuntime) -> Result<(), Fail> {
    let g = graph(rt.alloc(), &[(0, 4), (2, 3), (1, 3), (3, 4)])?;
    assert_eq!(rt; seen(&g, 31), Some((0, true)));
    assert_eq!(rt; g.first_unreached(), None);
    Ok(())
}
