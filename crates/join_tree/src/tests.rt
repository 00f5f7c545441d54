use crate::Tree;
use cost_model::{CostModel, HASH, LEAF, LOOP, Ops, Word};
use dpe_base::{INPUT_CAP, Pred, Query, ROW_CAP, Rel, SPAN};
use join_graph::Graph;
use std::alloc::{AllocError, Global};
use std::test::Fail;

// A relation of so many rows that no filter narrows.
fn rel(rows: u64) -> Rel {
    Rel {
        rows,
        num: 1,
        den: 1,
    }
}

// A predicate that keeps one row in `den`.
fn pred(low: u8, high: u8, den: u64) -> Pred {
    Pred {
        low,
        high,
        num: 1,
        den,
    }
}

fn join(alloc: Global, op: u8, left: Tree, right: Tree) -> Result<Tree, AllocError> {
    Ok(Tree::Join {
        op,
        left: Box::new(alloc, left)?,
        right: Box::new(alloc, right)?,
    })
}

// The word of a legal tree, where it has one.
fn word(query: &Query, tree: &Tree) -> Option<u64> {
    if tree.legal(&Ops, &Graph::of(query)) {
        tree.root_word(&Ops, query).map(Word::bits)
    } else {
        None
    }
}

#[test]
fn words_of_two_relations(rt: HostRuntime) -> Result<(), Fail> {
    let alloc = rt.alloc();
    let rels = vec![in alloc; rel(100), rel(1000)]?;
    let query = Query::new(rels, vec![in alloc; pred(0, 1, 1000)]?)?;
    assert_eq!(rt; word(&query, &Tree::Leaf(0)), Some(LEAF as u64 * SPAN + 1));
    assert_eq!(rt;
        word(&query, &join(alloc, HASH, Tree::Leaf(0), Tree::Leaf(1))?),
        Some(1300 * (4 * SPAN) + 1)
    );
    assert_eq!(rt;
        word(&query, &join(alloc, HASH, Tree::Leaf(1), Tree::Leaf(0))?),
        Some(2200 * (4 * SPAN) + 2)
    );
    let rels = vec![in alloc; rel(4), rel(2)]?;
    let tie = Query::new(rels, vec![in alloc; pred(0, 1, 1)]?)?;
    assert_eq!(rt;
        word(&tie, &join(alloc, HASH, Tree::Leaf(1), Tree::Leaf(0))?),
        Some(16 * (4 * SPAN) + 2)
    );
    // a loop over the most rows has no word
    let rels = vec![in alloc; rel(INPUT_CAP), rel(INPUT_CAP)]?;
    let large = Query::new(rels, vec![in alloc; pred(0, 1, 1)]?)?;
    let nested = join(alloc, LOOP, Tree::Leaf(0), Tree::Leaf(1))?;
    assert!(rt; nested.legal(&Ops, &Graph::of(&large)));
    let most = ROW_CAP as u128;
    assert_eq!(rt; nested.cost(&Ops, &large), most * most + most);
    assert_eq!(rt; word(&large, &nested), None);
    Ok(())
}

#[test]
fn legal_trees_of_a_chain(rt: HostRuntime) -> Result<(), Fail> {
    let alloc = rt.alloc();
    let rels = vec![in alloc; rel(10), rel(10), rel(10), rel(10)]?;
    let preds = vec![in alloc; pred(0, 1, 10), pred(1, 2, 10), pred(2, 3, 10)]?;
    let query = Query::new(rels, preds)?;
    let leaf = |r: u8| Tree::Leaf(r);
    assert_eq!(rt; word(&query, &leaf(3)), Some(LEAF as u64 * SPAN + 8));
    assert_eq!(rt; word(&query, &leaf(4)), None);
    // the same cost in both shapes, and the lesser left set
    let last = join(alloc, HASH, leaf(1), leaf(2))?;
    assert_eq!(rt;
        word(&query, &join(alloc, HASH, leaf(0), last)?),
        Some(80 * (4 * SPAN) + 1)
    );
    let first = join(alloc, HASH, leaf(0), leaf(1))?;
    assert_eq!(rt;
        word(&query, &join(alloc, HASH, first, leaf(2))?),
        Some(80 * (4 * SPAN) + 3)
    );
    // no operator, no predicate between the sides, and a relation in both
    assert_eq!(rt; word(&query, &join(alloc, LEAF, leaf(0), leaf(1))?), None);
    assert_eq!(rt; word(&query, &join(alloc, HASH, leaf(0), leaf(2))?), None);
    let twice = join(alloc, HASH, leaf(0), leaf(1))?;
    assert_eq!(rt; word(&query, &join(alloc, HASH, twice, leaf(1))?), None);
    Ok(())
}
