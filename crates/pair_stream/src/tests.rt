ghost use Rattle.std.specs.Prelude.{◌≡◌, ℕ, Bool, ◌==◌};
ghost use Rattle.dpe_base.specs.declared.pair.Pair.{Pair};
ghost use Rattle.dpe_base.specs.Sets.{size};

use super::{DpSub, Filtered, PairTest, Parts, collect_pairs};
use dpe_base::{Pair, Pred, Query, Rel};
use join_graph::Graph;
use std::alloc::Global;
use std::test::Fail;

const REL: Rel = Rel {
    rows: 1,
    num: 1,
    den: 1,
};

#[derive(Clone, Copy)]
enum Shape {
    Chain,
    Cycle,
    Star,
    Clique,
}

fn graph(alloc: Global, n: u8, shape: Shape) -> Result<Graph, Fail> {
    let rels = vec![in alloc; REL; n as usize]?;
    let mut preds = Vec::new(alloc);
    for high in 0..n {
        for low in 0..high {
            let joined = match shape {
                Shape::Chain => high - low == 1,
                Shape::Cycle => high - low == 1 || (low == 0 && high == n - 1),
                Shape::Star => low == 0,
                Shape::Clique => true,
            };
            if joined {
                preds.push(Pred {
                    low,
                    high,
                    num: 1,
                    den: 1,
                })?;
            }
        }
    }
    let query = Query::new(rels, preds)?;
    Ok(Graph::of(&query))
}

// How many pairs, and how many connected sets.
fn counts(alloc: Global, n: u8, shape: Shape) -> Result<(usize, usize), Fail> {
    let g = graph(alloc, n, shape)?;
    let pairs = collect_pairs(alloc, &mut DpSub::over(&g))?;
    let parts = Parts::make(alloc, &g)?;
    let mut sets = 0usize;
    for size in 0..g.n() {
        sets = sets.saturating_add(parts.part(size as u32 + 1).len());
    }
    Ok((pairs.len(), sets))
}

#[test]
fn chain_of_three(rt: HostRuntime) -> Result<(), Fail> {
    let g = graph(rt.alloc(), 3, Shape::Chain)?;
    let pairs = collect_pairs(rt.alloc(), &mut DpSub::over(&g))?;
    let mut found = Vec::new(rt.alloc());
    for p in pairs.iter() {
        found.push((p.a.bits(), p.b.bits()))?;
    }
    assert_eq!(rt;
        found.as_slice(),
        [(1, 2), (2, 4), (1, 6), (3, 4)].as_slice()
    );
    Ok(())
}

// The pairs whose first side has so many relations.
#[derive(Drop)]
struct FirstOf {
    size: u32,
}

impl PairTest for FirstOf {
    ghost passes = { λ s p. size p.a == s.size };

    fn passes(&self, p: &Pair) -> bool {
        p.a.len() == self.size
    }
}

#[test]
fn the_pairs_that_pass_a_test(rt: HostRuntime) -> Result<(), Fail> {
    let g = graph(rt.alloc(), 4, Shape::Chain)?;
    let all = DpSub::over(&g);
    let mut few = Filtered::over(all, FirstOf { size: 2 });
    let pairs = collect_pairs(rt.alloc(), &mut few)?;
    let mut found = Vec::new(rt.alloc());
    for p in pairs.iter() {
        found.push((p.a.bits(), p.b.bits()))?;
    }
    assert_eq!(rt; found.as_slice(), [(3, 4), (6, 8), (3, 12)].as_slice());
    Ok(())
}

// In list order 0 1 2 stands before 0 1 3, and 0 3 before 1 2.
#[test]
fn parts_of_a_cycle(rt: HostRuntime) -> Result<(), Fail> {
    let g = graph(rt.alloc(), 4, Shape::Cycle)?;
    let parts = Parts::make(rt.alloc(), &g)?;
    let mut found = Vec::new(rt.alloc());
    for size in 0..g.n() {
        for s in parts.part(size as u32 + 1) {
            found.push(s.bits())?;
        }
    }
    assert_eq!(rt;
        found.as_slice(),
        [1, 2, 4, 8, 3, 9, 6, 12, 7, 11, 13, 14, 15].as_slice()
    );
    Ok(())
}

// Two relations, then three, and so on up to ten.
const CHAIN: [(usize, usize); 9] = [
    (1, 3),
    (4, 6),
    (10, 10),
    (20, 15),
    (35, 21),
    (56, 28),
    (84, 36),
    (120, 45),
    (165, 55),
];

const CYCLE: [(usize, usize); 9] = [
    (1, 3),
    (6, 7),
    (18, 13),
    (40, 21),
    (75, 31),
    (126, 43),
    (196, 57),
    (288, 73),
    (405, 91),
];

const STAR: [(usize, usize); 9] = [
    (1, 3),
    (4, 6),
    (12, 11),
    (32, 20),
    (80, 37),
    (192, 70),
    (448, 135),
    (1024, 264),
    (2304, 521),
];

const CLIQUE: [(usize, usize); 9] = [
    (1, 3),
    (6, 7),
    (25, 15),
    (90, 31),
    (301, 63),
    (966, 127),
    (3025, 255),
    (9330, 511),
    (28501, 1023),
];

#[test]
fn pairs_and_connected_sets(rt: HostRuntime) -> Result<(), Fail> {
    for i in 0..9u8 {
        let k = i as usize;
        assert_eq!(rt; counts(rt.alloc(), i + 2, Shape::Chain)?, CHAIN[k]);
        assert_eq!(rt; counts(rt.alloc(), i + 2, Shape::Cycle)?, CYCLE[k]);
        assert_eq!(rt; counts(rt.alloc(), i + 2, Shape::Star)?, STAR[k]);
        assert_eq!(rt; counts(rt.alloc(), i + 2, Shape::Clique)?, CLIQUE[k]);
    }
    Ok(())
}
