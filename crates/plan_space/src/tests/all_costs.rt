//! The words of the classes of up to seven relations against the costs of all trees. What an operator costs at one join doesn't depend on those
//! of the others, so each join has its cheapest, and a tree is kept by its cost alone.
ghost use Rattle.card_scaled.specs.Cards.{IsCardTable};
ghost use Rattle.std.specs.Prelude.{◌≤◌, ◌<◌};

use crate::Class;
use crate::tests::all_trees::may_join;
use crate::tests::quick::{quick_words, rows};
use crate::tests::{CLASSES, SHAPES, Shape, query};
use card_scaled::CardTable;
use cost_model::{CostModel, Cout, LEAF, Ops, Word};
use dpe_base::{EMPTY, Query, ROW_CAP, RelSet, SPAN};
use join_graph::Graph;
use std::alloc::{AllocError, Global};
use std::test::Fail;

// The costs of the trees over a set, and the least of their words.
#[derive(Drop)]
struct Trees {
    costs: Vec<u128>,
    least: u64,
}

// The rows of the two sides of a join, and of the join.
#[derive(Clone, Copy)]
struct JoinRows {
    left: u64,
    right: u64,
    out: u64,
}

// Adds the cost of each join of these trees, and answers the least of the joins' words.
fn join_all<M: CostModel>(
    model: &M,
    rows: JoinRows,
    left: RelSet,
    lefts: &[u128],
    rights: &[u128],
    costs: &mut Vec<u128>,
) -> Result<u64, AllocError>
    requires left { (1 ≤ rows.left) × (rows.left ≤ ROW_CAP) }
    requires right { (1 ≤ rows.right) × (rows.right ≤ ROW_CAP) }
    requires out { (1 ≤ rows.out) × (rows.out ≤ ROW_CAP) }
    requires set { left < SPAN }
{
    let mut least = EMPTY;
    for first in lefts {
        for second in rights {
            let sides = first.saturating_add(*second);
            let mut cheapest = u128::MAX;
            for op in 0..M::OPS {
                let join = model.cost(op, rows.left, rows.right, rows.out);
                let cost = sides.saturating_add(join);
                cheapest = cheapest.min(cost);
                if let Some(word) = Word::of(cost, op, left) {
                    least = least.min(word.bits());
                }
            }
            costs.push(cheapest)?;
        }
    }
    Ok(least)
}

// The trees of the class over a connected set, from those over all smaller ones.
fn trees_over<M: CostModel>(
    alloc: Global,
    model: &M,
    query: &Query,
    cards: &CardTable,
    class: Class,
    smaller: &[Trees],
    set: RelSet,
) -> Result<Trees, AllocError>
    requires { IsCardTable query.now cards.now }
{
    let mut trees = Trees {
        costs: Vec::new(alloc),
        least: EMPTY,
    };
    if set.len() == 1 {
        trees.costs.push(0)?;
        trees.least = LEAF as u64 * SPAN + set.bits() as u64;
    }
    for a in 1..set.bits() {
        let left = RelSet::of_bits(a);
        let right = set.minus(left);
        if left.within(set)
            && (a as u64) < SPAN
            && may_join(class, left.len() as usize, right.len() as usize)
        {
            if let (Some(lefts), Some(rights)) = (
                smaller.get(a as usize),
                smaller.get(right.bits() as usize),
            ) {
                let rows = JoinRows {
                    left: rows(query, cards, left),
                    right: rows(query, cards, right),
                    out: rows(query, cards, set),
                };
                let least = join_all(
                    model,
                    rows,
                    left,
                    &lefts.costs,
                    &rights.costs,
                    &mut trees.costs,
                )?;
                trees.least = trees.least.min(least);
            }
        }
    }
    Ok(trees)
}

// The trees of the class over each set; a set that isn't connected has none.
fn class_trees<M: CostModel>(
    alloc: Global,
    model: &M,
    query: &Query,
    cards: &CardTable,
    class: Class,
) -> Result<Vec<Trees>, AllocError>
    requires { IsCardTable query.now cards.now }
{
    let graph = Graph::of(query);
    let whole = RelSet::full(graph.n());
    let mut all: Vec<Trees> = Vec::new(alloc);
    for s in 0..whole.bits().saturating_add(1) {
        let set = RelSet::of_bits(s);
        let trees = if set.within(whole) && graph.connected(set) {
            trees_over(alloc, model, query, cards, class, &all, set)?
        } else {
            Trees {
                costs: Vec::new(alloc),
                least: EMPTY,
            }
        };
        all.push(trees)?;
    }
    Ok(all)
}

// The first set at which the quick words of the class aren't the least of all its trees.
fn first_fault<M: CostModel>(
    alloc: Global,
    model: &M,
    query: &Query,
    class: Class,
) -> Result<Option<usize>, Fail> {
    let graph = Graph::of(query);
    if !graph.connected(RelSet::full(query.n())) {
        return Err("not connected".into());
    }
    let cards = CardTable::make(alloc, query)?;
    let words = quick_words(alloc, model, query, &cards, class)?;
    let trees = class_trees(alloc, model, query, &cards, class)?;
    for s in 0..trees.len() {
        if words.get(s) != Some(&trees[s].least) {
            return Ok(Some(s));
        }
    }
    Ok(None)
}

#[test]
fn words_are_the_least_of_all_costs(rt: HostRuntime) -> Result<(), Fail> {
    let drawn = [Shape::Drawn(3), Shape::Drawn(4), Shape::Drawn(5)];
    for n in 1..8u8 {
        for shape in SHAPES.iter().chain(&drawn) {
            let query = query(rt.alloc(), n, *shape)?;
            for class in CLASSES {
                assert_eq!(rt; first_fault(rt.alloc(), &Ops, &query, class)?, None);
                assert_eq!(rt; first_fault(rt.alloc(), &Cout, &query, class)?, None);
            }
        }
    }
    Ok(())
}
