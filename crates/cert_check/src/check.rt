ghost use Rattle.std.specs.Prelude.{◌≡◌, ◌≤◌, ◌<◌, ◌^◌, ◌+◌, ℕ, IsTrue, ◌↔◌, MatchOption, length};
ghost use Rattle.dpe_base.specs.declared.pair.Pair.{Pair};
ghost use Rattle.dpe_base.specs.Queries.{relations};
ghost use Rattle.dpe_base.specs.Sets.{Within, full, single, union};
ghost use Rattle.join_graph.specs.Graphs.{Connected, Pairs, graph_of};
ghost use Rattle.cost_model.specs.Costs.{operators, join_cost};
ghost use Rattle.join_tree.specs.Trees.{Plan, cost};
ghost use Rattle.join_tree.specs.TreeOf.{tree_of};
ghost use Rattle.cert_check.specs.Certificates.{IsCertificate, PairBounded, bound_of};
ghost use Rattle.cert_check.specs.Steps.{AreKnownRows, IsSide, IsBoundedTree};
ghost use Rattle.cert_check.specs.Laws.{IsLowerBound, AreLeastCosts};

use crate::known_rows::KnownRows;
use cost_model::CostModel;
use dpe_base::{Pair, Query, ROW_CAP, RelSet};
use join_graph::Graph;
use join_tree::Tree;

// The rows and the bound of a connected set.
#[derive(Clone, Copy)]
struct Side {
    rows: u64,
    bound: u64,
}

// What is known of a set, where it is connected.
fn side_of(query: &Query, known: &KnownRows, bounds: &[u64], s: RelSet) -> Option<Side>
    requires graph { known.now.graph ≡ graph_of query.now }
    requires table { AreKnownRows query.now known.now.table }
    requires sized { length bounds.now ≡ 2 ^ relations query.now }
    requires within { Within s (full (relations query.now)) }
    ensures { MatchOption result
        (Connected (graph_of query.now) s → ⊥)
        (λ k. IsSide query.now bounds.now s k.rows k.bound) }
{
    let rows = known.rows(query, s);
    if rows == 0 {
        return None;
    }
    let bound = bounds[s.bits() as usize];
    Some(Side { rows, bound })
}

// Whether no operator joins the two sides for less than the bound of both together.
fn join_bounded<M: CostModel>(model: &M, left: Side, right: Side, whole: Side) -> bool
    requires left { (1 ≤ left.rows) × (left.rows ≤ ROW_CAP) }
    requires right { (1 ≤ right.rows) × (right.rows ≤ ROW_CAP) }
    requires whole { (1 ≤ whole.rows) × (whole.rows ≤ ROW_CAP) }
    ensures { IsTrue result
        ↔ ((op : ℕ) → op < operators M.KIND
        → whole.bound ≤ left.bound + right.bound + join_cost M.KIND op left.rows right.rows whole.rows) }
{
    let sides = left.bound as u128 + right.bound as u128;
    for op in 0..M::OPS {
        let join = model.cost(op, left.rows, right.rows, whole.rows);
        if sides + join < whole.bound as u128 {
            return false;
        }
    }
    true
}

// Whether two sets that make up `whole` are joined for no less than its bound, where both are connected.
fn pair_bounded<M: CostModel>(
    model: &M,
    query: &Query,
    known: &KnownRows,
    bounds: &[u64],
    whole: Side,
    pair: Pair,
) -> bool
    requires graph { known.now.graph ≡ graph_of query.now }
    requires table { AreKnownRows query.now known.now.table }
    requires sized { length bounds.now ≡ 2 ^ relations query.now }
    requires first { Within pair.a (full (relations query.now)) }
    requires second { Within pair.b (full (relations query.now)) }
    requires whole { IsSide query.now bounds.now (union pair.a pair.b) whole.rows whole.bound }
    ensures { IsTrue result
        ↔ (Connected (graph_of query.now) pair.a → Connected (graph_of query.now) pair.b
        → PairBounded M.KIND query.now bounds.now pair) }
{
    let Some(first) = side_of(query, known, bounds, pair.a) else {
        return true;
    };
    let Some(second) = side_of(query, known, bounds, pair.b) else {
        return true;
    };
    join_bounded(model, first, second, whole) && join_bounded(model, second, first, whole)
}

// Whether no join of a pair with the union `s` costs less than its bound. The first side has the least
// relation of `s`, so the second sides are the sets of its other relations.
fn union_bounded<M: CostModel>(
    model: &M,
    query: &Query,
    known: &KnownRows,
    bounds: &[u64],
    s: RelSet,
) -> bool
    requires graph { known.now.graph ≡ graph_of query.now }
    requires table { AreKnownRows query.now known.now.table }
    requires sized { length bounds.now ≡ 2 ^ relations query.now }
    requires within { Within s (full (relations query.now)) }
    ensures { IsTrue result
        ↔ ((p : Pair) → Pairs (graph_of query.now) p → union p.a p.b ≡ s
        → PairBounded M.KIND query.now bounds.now p) }
{
    query.recall();
    let Some(whole) = side_of(query, known, bounds, s) else {
        return true;
    };
    let Some(least) = s.least() else {
        return true;
    };
    let rest = s.minus(RelSet::single(least));
    let mut second = RelSet::empty();
    'seconds: while let Some(next) = second.next_subset(rest) {
        second = next;
        let pair = Pair {
            a: s.minus(next),
            b: next,
        };
        if !pair_bounded(model, query, known, bounds, whole, pair) {
            return false;
        }
    }
    true
}

// Whether no join of a pair costs less than the bound of its union.
fn pairs_bounded<M: CostModel>(model: &M, query: &Query, bounds: &[u64]) -> bool
    requires sized { length bounds.now ≡ 2 ^ relations query.now }
    ensures { IsTrue result
        ↔ ((p : Pair) → Pairs (graph_of query.now) p → PairBounded M.KIND query.now bounds.now p) }
{
    let known = KnownRows::of(query);
    let n = query.n();
    for s in 0..1u32 << n {
        if !union_bounded(model, query, &known, bounds, RelSet::of_bits(s)) {
            return false;
        }
    }
    true
}

// Whether each relation alone has the bound 0.
fn relations_free(bounds: &[u64], n: u8) -> bool
    requires few { n ≤ 32 }
    requires sized { length bounds.now ≡ 2 ^ n }
    ensures { IsTrue result ↔ ((r : ℕ) → r < n → bound_of bounds.now (single r) ≡ 0) }
{
    for r in 0..n {
        let alone = RelSet::single(r);
        if bounds[alone.bits() as usize] != 0 {
            return false;
        }
    }
    true
}

// Whether the tree is legal, over all relations, and costs no more than their bound.
fn tree_bounded<M: CostModel>(query: &Query, model: &M, tree: &Tree, bounds: &[u64]) -> bool
    requires sized { length bounds.now ≡ 2 ^ relations query.now }
    ensures { IsTrue result ↔ IsBoundedTree M.KIND query.now (tree_of tree.now) bounds.now }
{
    let n = query.n();
    let graph = Graph::of(query);
    if !tree.legal(model, &graph) {
        return false;
    }
    let all = RelSet::full(n);
    if tree.set().bits() != all.bits() {
        return false;
    }
    tree.cost(model, query) <= bounds[all.bits() as usize] as u128
}

// Whether the tree and the bounds are a certificate, of as many bounds as there are sets.
fn certifies<M: CostModel>(query: &Query, model: &M, tree: &Tree, bounds: &[u64]) -> bool
    requires sized { length bounds.now ≡ 2 ^ relations query.now }
    ensures { IsTrue result
        ↔ IsCertificate M.KIND query.now (tree_of tree.now) bounds.now }
{
    let n = query.n();
    if !tree_bounded(query, model, tree, bounds) {
        return false;
    }
    relations_free(bounds, n) && pairs_bounded(model, query, bounds)
}

/// Whether the bounds, one for each set of the query's relations at the set's number, show that no tree
/// costs less than this one: exactly where both together are a certificate. It takes no memory.
pub fn check_cert<M: CostModel>(query: &Query, model: &M, tree: &Tree, bounds: &[u64]) -> bool
    ensures certificate { IsTrue result
        ↔ IsCertificate M.KIND query.now (tree_of tree.now) bounds.now }
    ensures optimal { IsTrue result
        → IsLowerBound M.KIND query.now (full (relations query.now))
        (cost M.KIND query.now (tree_of tree.now)) }
    ensures plan { AreLeastCosts M.KIND query.now bounds.now
        → Plan M.KIND query.now (full (relations query.now)) (tree_of tree.now)
        → IsTrue result }
{
    let n = query.n();
    if bounds.len() != 1usize << n {
        return false;
    }
    certifies(query, model, tree, bounds)
}
