//! The words of the classes against an enumeration of all trees.
use crate::Class;
use crate::tests::quick::quick_words;
use crate::tests::{CLASSES, SHAPES, query};
use card_scaled::CardTable;
use cost_model::{CostModel, Cout, Ops};
use dpe_base::{EMPTY, Query, RelSet};
use join_graph::Graph;
use join_tree::Tree;
use std::alloc::{AllocError, Global};
use std::test::Fail;

fn copy(alloc: Global, tree: &Tree) -> Result<Tree, AllocError> {
    match tree {
        Tree::Leaf(r) => Ok(Tree::Leaf(*r)),
        Tree::Join { op, left, right } => {
            let left = copy(alloc, left)?;
            let right = copy(alloc, right)?;
            join(alloc, *op, left, right)
        }
    }
}

fn join(alloc: Global, op: u8, left: Tree, right: Tree) -> Result<Tree, AllocError> {
    Ok(Tree::Join {
        op,
        left: Box::new(alloc, left)?,
        right: Box::new(alloc, right)?,
    })
}

/// How many relations the tree has.
pub fn leaves(tree: &Tree) -> usize {
    match tree {
        Tree::Leaf(_) => 1,
        Tree::Join { op: _, left, right } => leaves(left).saturating_add(leaves(right)),
    }
}

/// Whether the class has joins of so many relations with so many.
pub fn may_join(class: Class, left: usize, right: usize) -> bool {
    match class {
        Class::Narrow => left <= 2 || right <= 2,
        Class::ZigZag => left == 1 || right == 1,
        Class::LeftDeep => right == 1,
    }
}

/// Whether the tree is one of the class: each of its joins is.
pub fn is_in(class: Class, tree: &Tree) -> bool {
    match tree {
        Tree::Leaf(_) => true,
        Tree::Join { op: _, left, right } => {
            may_join(class, leaves(left), leaves(right))
                && is_in(class, left)
                && is_in(class, right)
        }
    }
}

// The joins of each tree of the one list with each of the other.
fn join_all(
    alloc: Global,
    ops: u8,
    lefts: &[Tree],
    rights: &[Tree],
    trees: &mut Vec<Tree>,
) -> Result<(), AllocError> {
    for left in lefts {
        for right in rights {
            for op in 0..ops {
                let l = copy(alloc, left)?;
                let r = copy(alloc, right)?;
                trees.push(join(alloc, op, l, r)?)?;
            }
        }
    }
    Ok(())
}

// The trees of the class over a connected set, from those over all smaller ones.
fn trees_over(
    alloc: Global,
    ops: u8,
    class: Class,
    smaller: &[Vec<Tree>],
    set: RelSet,
) -> Result<Vec<Tree>, AllocError> {
    let mut trees = Vec::new(alloc);
    if let (1, Some(r)) = (set.len(), set.least()) {
        trees.push(Tree::Leaf(r))?;
    }
    for a in 1..set.bits() {
        let left = RelSet::of_bits(a);
        let right = set.minus(left);
        if left.within(set) && may_join(class, left.len() as usize, right.len() as usize) {
            if let (Some(lefts), Some(rights)) = (
                smaller.get(a as usize),
                smaller.get(right.bits() as usize),
            ) {
                join_all(alloc, ops, lefts, rights, &mut trees)?;
            }
        }
    }
    Ok(trees)
}

// The trees of the class over each set; a set that isn't connected has none.
fn class_trees(
    alloc: Global,
    ops: u8,
    class: Class,
    graph: &Graph,
) -> Result<Vec<Vec<Tree>>, AllocError> {
    let mut all: Vec<Vec<Tree>> = Vec::new(alloc);
    let whole = RelSet::full(graph.n());
    for s in 0..whole.bits().saturating_add(1) {
        let set = RelSet::of_bits(s);
        let trees = if set.within(whole) && graph.connected(set) {
            trees_over(alloc, ops, class, &all, set)?
        } else {
            Vec::new(alloc)
        };
        all.push(trees)?;
    }
    Ok(all)
}

/// The least word of the legal trees of the class among these.
pub fn least_of<M: CostModel>(model: &M, query: &Query, class: Class, trees: &[Tree]) -> u64 {
    let graph = Graph::of(query);
    let mut least = EMPTY;
    for tree in trees {
        if is_in(class, tree) && tree.legal(model, &graph) {
            if let Some(word) = tree.root_word(model, query) {
                least = least.min(word.bits());
            }
        }
    }
    least
}

// The first set at which the quick words of the class aren't the least of all its trees.
fn first_fault<M: CostModel>(
    alloc: Global,
    model: &M,
    query: &Query,
    class: Class,
) -> Result<Option<usize>, Fail> {
    let all = RelSet::full(query.n());
    let graph = Graph::of(query);
    if !graph.connected(all) {
        return Err("not connected".into());
    }
    let cards = CardTable::make(alloc, query)?;
    let words = quick_words(alloc, model, query, &cards, class)?;
    let trees = class_trees(alloc, M::OPS, class, &graph)?;
    for s in 0..trees.len() {
        if words.get(s) != Some(&least_of(model, query, class, &trees[s])) {
            return Ok(Some(s));
        }
    }
    Ok(None)
}

#[test]
fn words_are_the_least_of_all_trees(rt: HostRuntime) -> Result<(), Fail> {
    for n in 1..5u8 {
        for shape in SHAPES {
            let query = query(rt.alloc(), n, shape)?;
            for class in CLASSES {
                assert_eq!(rt; first_fault(rt.alloc(), &Ops, &query, class)?, None);
                assert_eq!(rt; first_fault(rt.alloc(), &Cout, &query, class)?, None);
            }
        }
    }
    Ok(())
}
