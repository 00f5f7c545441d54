//! What the classes cost, and their plans.
use crate::tests::all_trees::{is_in, least_of, leaves};
use crate::tests::quick::{quick_words, word_at};
use crate::tests::{CLASSES, Shape, bushy, query};
use crate::{Class, build_class, left_words};
use card_scaled::CardTable;
use cost_model::{Cout, Ops, Word};
use dpe_base::{EMPTY, RelSet};
use join_graph::Graph;
use std::test::Fail;

// The cost of the set's word, and its left side.
fn cost_and_left(words: &[u64], s: u32) -> (u64, u32) {
    let word = Word::of_bits(word_at(words, RelSet::of_bits(s)));
    (word.cost(), word.left().bits())
}

#[test]
fn a_bushy_plan_costs_far_less_than_a_zig_zag(rt: HostRuntime) -> Result<(), Fail> {
    let query = bushy(rt.alloc())?;
    if !Graph::of(&query).connected(RelSet::full(query.n())) {
        return Err("not connected".into());
    }
    let cards = CardTable::make(rt.alloc(), &query)?;
    let narrow = quick_words(rt.alloc(), &Cout, &query, &cards, Class::Narrow)?;
    assert_eq!(rt; cost_and_left(&narrow, 15), (120, 3));
    let zig_zag = quick_words(rt.alloc(), &Cout, &query, &cards, Class::ZigZag)?;
    assert_eq!(rt; cost_and_left(&zig_zag, 15), (10_110, 1));
    assert_eq!(rt; cost_and_left(&zig_zag, 14), (10_010, 2));
    let left_deep = quick_words(rt.alloc(), &Cout, &query, &cards, Class::LeftDeep)?;
    assert_eq!(rt; cost_and_left(&left_deep, 15), (10_110, 7));
    assert_eq!(rt; cost_and_left(&left_deep, 7), (10_010, 3));
    assert_eq!(rt; word_at(&left_deep, RelSet::of_bits(5)), EMPTY);
    Ok(())
}

#[test]
fn the_left_deep_plan_is_built_from_its_words(rt: HostRuntime) -> Result<(), Fail> {
    let query = bushy(rt.alloc())?;
    let all = RelSet::full(query.n());
    if !Graph::of(&query).connected(all) {
        return Err("not connected".into());
    }
    let cards = CardTable::make(rt.alloc(), &query)?;
    let words = left_words(rt.alloc(), &query, &Cout, &cards)?;
    let plan = build_class(rt.alloc(), &query, &Cout, Class::LeftDeep, &words, all)?;
    assert!(rt; is_in(Class::LeftDeep, &plan));
    assert_eq!(rt; leaves(&plan), 4);
    assert_eq!(rt;
        least_of(&Cout, &query, Class::LeftDeep, &[plan]),
        word_at(&words, all)
    );
    Ok(())
}

#[test]
fn words_of_twenty_relations(rt: HostRuntime) -> Result<(), Fail> {
    let query = query(rt.alloc(), 20, Shape::Clique)?;
    let all = RelSet::full(query.n());
    if !Graph::of(&query).connected(all) {
        return Err("not connected".into());
    }
    let cards = CardTable::make(rt.alloc(), &query)?;
    let words = left_words(rt.alloc(), &query, &Ops, &cards)?;
    assert!(rt; word_at(&words, all) != EMPTY);
    Ok(())
}

// Over two relations each class has all trees.
#[test]
fn plans_of_two_relations_in_each_class(rt: HostRuntime) -> Result<(), Fail> {
    let query = query(rt.alloc(), 2, Shape::Chain)?;
    let all = RelSet::full(query.n());
    if query.n() > 2 || !Graph::of(&query).connected(all) {
        return Err("not two joined relations".into());
    }
    let cards = CardTable::make(rt.alloc(), &query)?;
    let words = left_words(rt.alloc(), &query, &Ops, &cards)?;
    for class in CLASSES {
        let plan = build_class(rt.alloc(), &query, &Ops, class, &words, all)?;
        assert_eq!(rt; leaves(&plan), 2);
        assert_eq!(rt;
            least_of(&Ops, &query, class, &[plan]),
            word_at(&words, all)
        );
    }
    Ok(())
}
