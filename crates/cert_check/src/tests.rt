ghost use Rattle.dpe_base.specs.Sets.{Within, full};

use crate::check_cert;
use card_scaled::rows_once;
use cost_model::{Cout, HASH, JOIN, LOOP, MERGE, Ops};
use dpe_base::{INPUT_CAP, Pred, Query, ROW_CAP, Rel, RelSet};
use join_graph::Graph;
use join_tree::Tree;
use std::alloc::{AllocError, Global};
use std::test::Fail;

// A relation of so many rows that no filter narrows.
fn rel(rows: u64) -> Rel {
    Rel {
        rows,
        num: 1,
        den: 1,
    }
}

// A predicate that keeps one row in `den`.
fn pred(low: u8, high: u8, den: u64) -> Pred {
    Pred {
        low,
        high,
        num: 1,
        den,
    }
}

fn join(alloc: Global, op: u8, left: Tree, right: Tree) -> Result<Tree, AllocError> {
    Ok(Tree::Join {
        op,
        left: Box::new(alloc, left)?,
        right: Box::new(alloc, right)?,
    })
}

// A hundred rows joined to a thousand by a key: a hash with the smaller side left costs 1300.
fn two(alloc: Global) -> Result<Query, Fail> {
    let rels = vec![in alloc; rel(100), rel(1000)]?;
    let preds = vec![in alloc; pred(0, 1, 1000)]?;
    Ok(Query::new(rels, preds)?)
}

// A chain of three relations of ten rows each; each join has ten rows and costs 40.
fn chain(alloc: Global) -> Result<Query, Fail> {
    let rels = vec![in alloc; rel(10), rel(10), rel(10)]?;
    let preds = vec![in alloc; pred(0, 1, 10), pred(1, 2, 10)]?;
    Ok(Query::new(rels, preds)?)
}

const CHAIN_BOUNDS: [u64; 8] = [0, 0, 0, 40, 0, 0, 40, 80];

fn chain_plan(alloc: Global) -> Result<Tree, AllocError> {
    let last = join(alloc, HASH, Tree::Leaf(1), Tree::Leaf(2))?;
    join(alloc, HASH, Tree::Leaf(0), last)
}

#[test]
fn two_relations(rt: HostRuntime) -> Result<(), Fail> {
    let alloc = rt.alloc();
    let query = two(alloc)?;
    let plan = join(alloc, HASH, Tree::Leaf(0), Tree::Leaf(1))?;
    assert!(rt; check_cert(&query, &Ops, &plan, &[0, 0, 0, 1300]));
    assert!(rt; !check_cert(&query, &Ops, &plan, &[0, 0, 0, 1299]));
    assert!(rt; !check_cert(&query, &Ops, &plan, &[0, 0, 0, 1301]));
    let turned = join(alloc, HASH, Tree::Leaf(1), Tree::Leaf(0))?;
    assert!(rt; !check_cert(&query, &Ops, &turned, &[0, 0, 0, 1300]));
    assert!(rt; !check_cert(&query, &Ops, &turned, &[0, 0, 0, 2200]));
    // the rows of the join alone
    assert!(rt; check_cert(&query, &Cout, &turned, &[0, 0, 0, 100]));
    assert!(rt; !check_cert(&query, &Cout, &turned, &[0, 0, 0, 1300]));
    Ok(())
}

#[test]
fn a_bound_for_each_set(rt: HostRuntime) -> Result<(), Fail> {
    let alloc = rt.alloc();
    let query = two(alloc)?;
    let plan = join(alloc, HASH, Tree::Leaf(0), Tree::Leaf(1))?;
    assert!(rt; !check_cert(&query, &Ops, &plan, &[]));
    assert!(rt; !check_cert(&query, &Ops, &plan, &[0, 0, 0]));
    assert!(rt; !check_cert(&query, &Ops, &plan, &[0, 0, 0, 1300, 1300]));
    // nothing is asked of the empty set
    assert!(rt; check_cert(&query, &Ops, &plan, &[u64::MAX, 0, 0, 1300]));
    Ok(())
}

#[test]
fn one_relation(rt: HostRuntime) -> Result<(), Fail> {
    let query = Query::new(vec![in rt.alloc(); rel(10)]?, vec![in rt.alloc();]?)?;
    assert!(rt; check_cert(&query, &Ops, &Tree::Leaf(0), &[0, 0]));
    assert!(rt; !check_cert(&query, &Ops, &Tree::Leaf(0), &[0, 1]));
    assert!(rt; !check_cert(&query, &Ops, &Tree::Leaf(1), &[0, 0]));
    Ok(())
}

#[test]
fn trees_that_are_no_plan(rt: HostRuntime) -> Result<(), Fail> {
    let alloc = rt.alloc();
    let query = chain(alloc)?;
    let bounds = CHAIN_BOUNDS;
    let plan = chain_plan(alloc)?;
    assert!(rt; check_cert(&query, &Ops, &plan, &bounds));
    let leaf = |r: u8| Tree::Leaf(r);
    // the other shape costs as little
    let left_deep = join(alloc, HASH, join(alloc, HASH, leaf(0), leaf(1))?, leaf(2))?;
    assert!(rt; check_cert(&query, &Ops, &left_deep, &bounds));
    // another operator, and one that the model doesn't have
    let merge = join(alloc, MERGE, leaf(0), join(alloc, HASH, leaf(1), leaf(2))?)?;
    assert!(rt; !check_cert(&query, &Ops, &merge, &bounds));
    let looped = join(alloc, HASH, leaf(0), join(alloc, LOOP, leaf(1), leaf(2))?)?;
    assert!(rt; !check_cert(&query, &Ops, &looped, &bounds));
    let unknown = join(
        alloc,
        HASH,
        leaf(0),
        join(alloc, LOOP + 1, leaf(1), leaf(2))?,
    )?;
    assert!(rt; !check_cert(&query, &Ops, &unknown, &bounds));
    // a relation twice, none of some, and none that there is
    let twice = join(alloc, HASH, join(alloc, HASH, leaf(0), leaf(1))?, leaf(1))?;
    assert!(rt; !check_cert(&query, &Ops, &twice, &bounds));
    let missing = join(alloc, HASH, leaf(0), leaf(1))?;
    assert!(rt; !check_cert(&query, &Ops, &missing, &bounds));
    let strange = join(alloc, HASH, join(alloc, HASH, leaf(0), leaf(1))?, leaf(200))?;
    assert!(rt; !check_cert(&query, &Ops, &strange, &bounds));
    // a cross product
    let crossed = join(alloc, HASH, join(alloc, HASH, leaf(0), leaf(2))?, leaf(1))?;
    assert!(rt; !check_cert(&query, &Ops, &crossed, &bounds));
    // the plan of another query
    assert!(rt; !check_cert(&two(alloc)?, &Ops, &plan, &[0, 0, 0, 1300]));
    Ok(())
}

#[test]
fn a_query_that_is_not_connected(rt: HostRuntime) -> Result<(), Fail> {
    let alloc = rt.alloc();
    let query = Query::new(vec![in alloc; rel(10), rel(10)]?, vec![in alloc;]?)?;
    let crossed = join(alloc, HASH, Tree::Leaf(0), Tree::Leaf(1))?;
    assert!(rt; !check_cert(&query, &Ops, &crossed, &[0, 0, 0, 130]));
    assert!(rt; !check_cert(&query, &Ops, &crossed, &[0, 0, 0, u64::MAX]));
    Ok(())
}

// The rows of a set of the query's relations that isn't empty.
fn rows_of(query: &Query, s: RelSet) -> Option<u64> {
    if s.bits() == 0 || !s.within(RelSet::full(query.n())) {
        return None;
    }
    Some(rows_once(query, s))
}

// Whether the set is connected.
fn connected(graph: &Graph, s: RelSet) -> bool {
    s.within(RelSet::full(graph.n())) && graph.connected(s)
}

// Whether a predicate leads from the one set to the other.
fn joined(graph: &Graph, a: RelSet, b: RelSet) -> bool {
    let all = RelSet::full(graph.n());
    a.within(all) && b.within(all) && graph.joined(a, b)
}

// Whether the two sets are connected, disjoint and joined.
fn is_pair(graph: &Graph, a: RelSet, b: RelSet) -> bool {
    !a.meets(b) && connected(graph, a) && connected(graph, b) && joined(graph, a, b)
}

// The least that an operator of `Ops` costs on these rows.
fn least_cost(l: u64, r: u64, o: u64) -> u128 {
    let (l, r, o) = (l as u128, r as u128, o as u128);
    let (left_digits, right_digits) = (128 - l.leading_zeros(), 128 - r.leading_zeros());
    let hash = 2 * l + r + o;
    let merge = l * left_digits as u128 + r * right_digits as u128 + o;
    hash.min(merge).min(l * r + o)
}

// Whether the join of the two sets, `a` on the left, costs no less than the bound of both.
fn holds(query: &Query, bounds: &[u64], a: RelSet, b: RelSet) -> Option<bool> {
    let join = least_cost(
        rows_of(query, a)?,
        rows_of(query, b)?,
        rows_of(query, a.union(b))?,
    );
    let first = *bounds.get(a.bits() as usize)?;
    let second = *bounds.get(b.bits() as usize)?;
    let whole = *bounds.get(a.union(b).bits() as usize)?;
    let Some(least) = join.checked_add(first as u128 + second as u128) else {
        return Some(true);
    };
    Some(whole as u128 <= least)
}

// Whether every pair of sets in this order holds.
fn all_hold(query: &Query, bounds: &[u64]) -> bool {
    let graph = Graph::of(query);
    let n = query.n();
    for a in 0..1u32 << n {
        for b in 0..1u32 << n {
            let (a, b) = (RelSet::of_bits(a), RelSet::of_bits(b));
            if is_pair(&graph, a, b) && holds(query, bounds, a, b) != Some(true) {
                return false;
            }
        }
    }
    true
}

// Whether each relation alone has the bound 0.
fn alone_free(query: &Query, bounds: &[u64]) -> bool {
    for r in 0..query.n() {
        if bounds.get(1 << r) != Some(&0) {
            return false;
        }
    }
    true
}

// Whether the tree is legal, over this set, and costs no more than the bound.
#[tactic(auto, using(join_tree::proofs::TreeLaws::legal_leaves))]
fn is_within(query: &Query, tree: &Tree, all: usize, bound: u64) -> bool {
    let graph = Graph::of(query);
    let n = graph.n();
    if n > 32 || !tree.legal(&Ops, &graph) {
        return false;
    }
    tree.set().bits() as usize == all && tree.cost(&Ops, query) <= bound as u128
}

// Whether the tree and the bounds are a certificate under `Ops`, by going over all pairs of sets.
fn by_definition(query: &Query, tree: &Tree, bounds: &[u64]) -> bool {
    let all = (1usize << query.n()) - 1;
    let Some(bound) = bounds.get(all) else {
        return false;
    };
    bounds.len() == all + 1
        && is_within(query, tree, all, *bound)
        && alone_free(query, bounds)
        && all_hold(query, bounds)
}

// Whether the checker answers as the definition does.
fn agrees(query: &Query, tree: &Tree, bounds: &[u64]) -> bool {
    check_cert(query, &Ops, tree, bounds) == by_definition(query, tree, bounds)
}

// Whether the checker answers as the definition does with each bound in turn one up, one down, and at numbers that no cost reaches.
fn agrees_when_damaged(query: &Query, tree: &Tree, bounds: &mut [u64]) -> bool {
    for k in 0..bounds.len() {
        let kept = bounds[k];
        let (up, down) = (kept.wrapping_add(1), kept.wrapping_sub(1));
        for damaged in [
            up,
            down,
            0,
            1 << 46,
            (1 << 46) + 1,
            1 << 63,
            u64::MAX - 1,
            u64::MAX,
        ] {
            bounds[k] = damaged;
            if !agrees(query, tree, bounds) {
                return false;
            }
        }
        bounds[k] = kept;
    }
    true
}

#[test]
fn damaged_bounds_of_a_chain(rt: HostRuntime) -> Result<(), Fail> {
    let query = chain(rt.alloc())?;
    let plan = chain_plan(rt.alloc())?;
    let mut bounds = CHAIN_BOUNDS;
    assert!(rt; agrees(&query, &plan, &bounds));
    assert!(rt; agrees_when_damaged(&query, &plan, &mut bounds));
    // the bound of the two ends, which no predicate joins, counts for nothing
    bounds[5] = u64::MAX;
    assert!(rt; check_cert(&query, &Ops, &plan, &bounds));
    bounds[6] = 41;
    assert!(rt; !check_cert(&query, &Ops, &plan, &bounds));
    Ok(())
}

#[test]
fn damaged_bounds_of_a_cycle(rt: HostRuntime) -> Result<(), Fail> {
    let alloc = rt.alloc();
    let rels = vec![in alloc; rel(10), rel(20), rel(5), rel(40)]?;
    let preds = vec![in alloc;
        pred(0, 1, 10),
        pred(1, 2, 4),
        pred(2, 3, 20),
        pred(0, 3, 2),
    ]?;
    let query = Query::new(rels, preds)?;
    let first = join(alloc, HASH, Tree::Leaf(2), Tree::Leaf(3))?;
    let second = join(alloc, HASH, Tree::Leaf(0), Tree::Leaf(1))?;
    let plan = join(alloc, HASH, first, second)?;
    let mut bounds = [
        0, 0, 0, 60, 0, 0, 55, 115, 0, 260, 0, 540, 60, 140, 150, 185,
    ];
    assert!(rt; check_cert(&query, &Ops, &plan, &bounds));
    assert!(rt; agrees(&query, &plan, &bounds));
    assert!(rt; agrees_when_damaged(&query, &plan, &mut bounds));
    Ok(())
}

#[test]
fn costs_of_the_greatest_cardinalities(rt: HostRuntime) -> Result<(), Fail> {
    let alloc = rt.alloc();
    let rels = vec![in alloc; rel(INPUT_CAP), rel(INPUT_CAP)]?;
    let query = Query::new(rels, vec![in alloc; pred(0, 1, 1)]?)?;
    let plan = join(alloc, HASH, Tree::Leaf(0), Tree::Leaf(1))?;
    // both sides and the output have as many rows as a set is counted to have
    let cost = 4 * ROW_CAP;
    let mut bounds = [0, 0, 0, cost];
    assert!(rt; check_cert(&query, &Ops, &plan, &bounds));
    assert!(rt; agrees_when_damaged(&query, &plan, &mut bounds));
    assert!(rt; !check_cert(&query, &Ops, &plan, &[0, 0, 0, cost - 1]));
    assert!(rt; !check_cert(&query, &Ops, &plan, &[0, 0, 0, cost + 1]));
    Ok(())
}

#[test]
fn bounds_near_the_end_of_the_range(rt: HostRuntime) -> Result<(), Fail> {
    let query = chain(rt.alloc())?;
    let plan = chain_plan(rt.alloc())?;
    // sums that wrapped would be 39 and less
    let end = u64::MAX;
    assert!(rt; !check_cert(&query, &Ops, &plan, &[0, 0, 0, end, 0, 0, end, end]));
    assert!(rt; !check_cert(&query, &Ops, &plan, &[0, end, end, 40, end, 0, 40, 80]));
    assert!(rt; agrees(&query, &plan, &[0, end, end, 40, end, 0, 40, 80]));
    assert!(rt; !check_cert(&query, &Ops, &plan, &[0, 0, 0, 40, 0, 0, 40, end]));
    Ok(())
}

// Each join of neighbours has ten rows, so that a set of k neighbours costs 10 * (k - 1).
fn chain_of_thirteen(alloc: Global) -> Result<Query, Fail> {
    let rels = vec![in alloc; rel(10); 13]?;
    let mut preds = Vec::new(alloc);
    for low in 0..12 {
        preds.push(pred(low, low + 1, 10))?;
    }
    Ok(Query::new(rels, preds)?)
}

// The costs of the connected sets, and 0 of the others.
fn costs_of_thirteen(alloc: Global, query: &Query) -> Result<Vec<u64>, AllocError> {
    let graph = Graph::of(query);
    let mut bounds = vec![in alloc; 0u64; 8192]?;
    for k in 0..bounds.len() {
        let s = RelSet::of_bits(k as u32);
        if connected(&graph, s) {
            bounds[k] = 10 * (s.len() as u64).saturating_sub(1);
        }
    }
    Ok(bounds)
}

// Whether the checker refuses these bounds with one more at this place.
fn refuses_one_more(query: &Query, tree: &Tree, bounds: &mut [u64], k: usize) -> bool {
    if k >= bounds.len() {
        return false;
    }
    let kept = bounds[k];
    bounds[k] = kept.wrapping_add(1);
    let refused = !check_cert(query, &Cout, tree, bounds);
    bounds[k] = kept;
    refused
}

#[test]
fn thirteen_relations(rt: HostRuntime) -> Result<(), Fail> {
    let alloc = rt.alloc();
    let query = chain_of_thirteen(alloc)?;
    let mut bounds = costs_of_thirteen(alloc, &query)?;
    let mut tree = Tree::Leaf(0);
    for r in 1..13 {
        tree = join(alloc, JOIN, tree, Tree::Leaf(r))?;
    }
    assert!(rt; check_cert(&query, &Cout, &tree, &bounds));
    // the last two relations, and all of them
    assert!(rt; refuses_one_more(&query, &tree, &mut bounds, 6144));
    assert!(rt; refuses_one_more(&query, &tree, &mut bounds, 8191));
    Ok(())
}
