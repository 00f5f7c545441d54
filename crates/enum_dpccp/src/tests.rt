use super::{DpCcp, DpCcpTouching};
use dpe_base::{N_MAX, Pair, Pred, Query, Rel};
use join_graph::Graph;
use pair_stream::{DpSub, collect_pairs};
use std::alloc::{AllocError, Global};
use std::test::Fail;

const REL: Rel = Rel {
    rows: 1,
    num: 1,
    den: 1,
};

#[derive(Clone, Copy)]
enum Shape {
    Chain,
    Cycle,
    // The centre has the greatest number.
    Star,
    Clique,
    // Every pair of relations has a digit of the number: joined where it is 1.
    Digits(u32),
}

fn graph(alloc: Global, n: u8, shape: Shape) -> Result<Graph, Fail> {
    let rels = vec![in alloc; REL; n as usize]?;
    let mut preds = Vec::new(alloc);
    let mut place = 0u32;
    for high in 0..n {
        for low in 0..high {
            let joined = match shape {
                Shape::Chain => high - low == 1,
                Shape::Cycle => high - low == 1 || (low == 0 && high == n - 1),
                Shape::Star => high == n - 1,
                Shape::Clique => true,
                Shape::Digits(digits) => digits.wrapping_shr(place) & 1 == 1,
            };
            place = place.wrapping_add(1);
            if joined {
                preds.push(Pred {
                    low,
                    high,
                    num: 1,
                    den: 1,
                })?;
            }
        }
    }
    let query = Query::new(rels, preds)?;
    Ok(Graph::of(&query))
}

fn counted(alloc: Global, n: u8, shape: Shape) -> Result<usize, Fail> {
    let g = graph(alloc, n, shape)?;
    Ok(collect_pairs(alloc, &mut DpCcp::over(&g))?.len())
}

// The sides of the pairs as numbers, in order.
fn listed(alloc: Global, n: u8, shape: Shape) -> Result<Vec<(u32, u32)>, Fail> {
    let g = graph(alloc, n, shape)?;
    let pairs = collect_pairs(alloc, &mut DpCcp::over(&g))?;
    let mut found = Vec::new(alloc);
    for p in pairs.iter() {
        found.push((p.a.bits(), p.b.bits()))?;
    }
    Ok(found)
}

#[test]
fn lists_of_small_graphs(rt: HostRuntime) -> Result<(), Fail> {
    let chain_of_three = [(2, 4), (1, 2), (1, 6), (3, 4)];
    assert_eq!(rt;
        listed(rt.alloc(), 3, Shape::Chain)?.as_slice(),
        chain_of_three.as_slice()
    );
    let clique_of_three = [(2, 4), (1, 4), (1, 2), (1, 6), (3, 4), (5, 2)];
    assert_eq!(rt;
        listed(rt.alloc(), 3, Shape::Clique)?.as_slice(),
        clique_of_three.as_slice()
    );
    let chain_of_four = [
        (4, 8),
        (2, 4),
        (2, 12),
        (6, 8),
        (1, 2),
        (1, 6),
        (1, 14),
        (3, 4),
        (3, 12),
        (7, 8),
    ];
    assert_eq!(rt;
        listed(rt.alloc(), 4, Shape::Chain)?.as_slice(),
        chain_of_four.as_slice()
    );
    Ok(())
}

// (n^3 - n) / 6 pairs of a chain, (n^3 - 2 n^2 + n) / 2 of a cycle and (n - 1) 2^(n - 2) of a star.
#[test]
fn pairs_of_the_largest_graphs(rt: HostRuntime) -> Result<(), Fail> {
    assert_eq!(rt; counted(rt.alloc(), 17, Shape::Chain)?, 816);
    assert_eq!(rt; counted(rt.alloc(), N_MAX as u8, Shape::Chain)?, 1330);
    assert_eq!(rt; counted(rt.alloc(), N_MAX as u8, Shape::Cycle)?, 3610);
    assert_eq!(rt; counted(rt.alloc(), 18, Shape::Star)?, 1_114_112);
    Ok(())
}

// Two relations, then three, and so on up to ten.
const CHAIN: [usize; 9] = [1, 4, 10, 20, 35, 56, 84, 120, 165];

const CYCLE: [usize; 9] = [1, 6, 18, 40, 75, 126, 196, 288, 405];

const STAR: [usize; 9] = [1, 4, 12, 32, 80, 192, 448, 1024, 2304];

const CLIQUE: [usize; 9] = [1, 6, 25, 90, 301, 966, 3025, 9330, 28501];

#[test]
fn pairs_of_known_graphs(rt: HostRuntime) -> Result<(), Fail> {
    for i in 0..9u8 {
        let k = i as usize;
        assert_eq!(rt; counted(rt.alloc(), i + 2, Shape::Chain)?, CHAIN[k]);
        assert_eq!(rt; counted(rt.alloc(), i + 2, Shape::Cycle)?, CYCLE[k]);
        assert_eq!(rt; counted(rt.alloc(), i + 2, Shape::Star)?, STAR[k]);
        assert_eq!(rt; counted(rt.alloc(), i + 2, Shape::Clique)?, CLIQUE[k]);
    }
    Ok(())
}

// The pairs as numbers, ascending.
fn sorted(alloc: Global, pairs: &[Pair]) -> Result<Vec<u64>, AllocError> {
    let mut all = Vec::new(alloc);
    for p in pairs {
        all.push((p.a.bits() as u64) << 32 | p.b.bits() as u64)?;
    }
    all.sort_unstable();
    Ok(all)
}

#[test]
fn pairs_of_graphs_by_digits(rt: HostRuntime) -> Result<(), Fail> {
    let mut digits = 1u32;
    for _ in 0..8 {
        for n in 2..9u8 {
            digits = digits.wrapping_mul(1664525).wrapping_add(1013904223);
            let g = graph(rt.alloc(), n, Shape::Digits(digits >> 4))?;
            let by_first = collect_pairs(rt.alloc(), &mut DpCcp::over(&g))?;
            let by_union = collect_pairs(rt.alloc(), &mut DpSub::over(&g))?;
            let found = sorted(rt.alloc(), &by_first)?;
            let expected = sorted(rt.alloc(), &by_union)?;
            assert_eq!(rt;
                found.as_slice(),
                expected.as_slice(),
                "{n} relations, {digits}"
            );
        }
    }
    Ok(())
}

// The pairs of the list whose union has the relation.
fn with_relation(alloc: Global, pairs: &[Pair], r: u8) -> Result<Vec<Pair>, AllocError> {
    let mut all = Vec::new(alloc);
    for p in pairs {
        if p.a.union(p.b).has(r) {
            all.push(*p)?;
        }
    }
    Ok(all)
}

// The first relation whose touching pairs aren't those of the whole list, in its order.
fn first_other(alloc: Global, g: &Graph) -> Result<Option<u8>, AllocError> {
    g.recall();
    let all = collect_pairs(alloc, &mut DpCcp::over(g))?;
    for r in 0..g.n() {
        let touching = collect_pairs(alloc, &mut DpCcpTouching::over(g, r))?;
        if touching.as_slice() != with_relation(alloc, &all, r)?.as_slice() {
            return Ok(Some(r));
        }
    }
    Ok(None)
}

#[test]
fn pairs_that_a_relation_touches(rt: HostRuntime) -> Result<(), Fail> {
    for n in 2..9u8 {
        for shape in [Shape::Chain, Shape::Cycle, Shape::Star, Shape::Clique] {
            let g = graph(rt.alloc(), n, shape)?;
            assert_eq!(rt; first_other(rt.alloc(), &g)?, None, "{n} relations");
        }
    }
    let mut digits = 1u32;
    for _ in 0..8 {
        for n in 2..9u8 {
            digits = digits.wrapping_mul(1664525).wrapping_add(1013904223);
            let g = graph(rt.alloc(), n, Shape::Digits(digits >> 4))?;
            assert_eq!(rt;
                first_other(rt.alloc(), &g)?,
                None,
                "{n} relations, {digits}"
            );
        }
    }
    Ok(())
}

// A leaf of a star of 16 touches 131,072 of its 245,760 pairs, and the end of a chain of 16 touches 120 of 680.
#[test]
fn touched_pairs_of_known_graphs(rt: HostRuntime) -> Result<(), Fail> {
    for (shape, r, count) in [
        (Shape::Star, 3u8, 131_072),
        (Shape::Star, 15, 245_760),
        (Shape::Chain, 15, 120),
        (Shape::Chain, 0, 120),
    ] {
        let g = graph(rt.alloc(), 16, shape)?;
        g.recall();
        if r < g.n() {
            let touching = collect_pairs(rt.alloc(), &mut DpCcpTouching::over(&g, r))?;
            assert_eq!(rt; touching.len(), count);
        }
    }
    Ok(())
}
