//! The words of a class by its pairs, or by `left_words`.
ghost use Rattle.card_scaled.specs.Cards.{IsCardTable};
ghost use Rattle.join_graph.specs.Graphs.{Connected, graph_of};
ghost use Rattle.dpe_base.specs.Queries.{relations};
ghost use Rattle.dpe_base.specs.Sets.{full};
ghost use Rattle.std.specs.Prelude.{◌≡◌, ◌≤◌};

use crate::{Class, Thin, ZigZagPairs, left_words};
use card_scaled::CardTable;
use cost_model::{CostModel, LEAF, best_split};
use dpe_base::{EMPTY, Pair, Query, ROW_CAP, RelSet, SPAN};
use join_graph::Graph;
use pair_stream::{DpSub, collect_pairs};
use std::alloc::{AllocError, Global};
use std::test::Fail;

/// The rows of a set of the query's relations.
pub fn rows(query: &Query, cards: &CardTable, s: RelSet) -> u64
    requires { IsCardTable query.now cards.now }
    ensures { (1 ≤ result) × (result ≤ ROW_CAP) }
{
    if s.bits() == 0 || !s.within(RelSet::full(query.n())) {
        return 1;
    }
    cards.rows(s).max(1).min(ROW_CAP)
}

/// The word of a set, and `EMPTY` where there is none.
pub fn word_at(words: &[u64], s: RelSet) -> u64 {
    match words.get(s.bits() as usize) {
        Some(word) => *word,
        None => EMPTY,
    }
}

// The word of the pair's union is no longer greater than the pair's least word.
fn work<M: CostModel>(model: &M, query: &Query, cards: &CardTable, words: &mut [u64], p: Pair)
    requires { IsCardTable query.now cards.now }
{
    let (a, b) = (word_at(words, p.a), word_at(words, p.b));
    let small = (p.a.bits() as u64) < SPAN && (p.b.bits() as u64) < SPAN;
    if a == EMPTY || b == EMPTY || !small {
        return;
    }
    let union = p.a.union(p.b);
    let (l, r, o) = (
        rows(query, cards, p.a),
        rows(query, cards, p.b),
        rows(query, cards, union),
    );
    let word = best_split(model, p, a, b, l, r, o);
    let place = union.bits() as usize;
    if place < words.len() {
        words[place] = words[place].min(word);
    }
}

// The words that the pairs give, worked one after the other.
fn worked<M: CostModel>(
    alloc: Global,
    model: &M,
    query: &Query,
    cards: &CardTable,
    pairs: &[Pair],
) -> Result<Vec<u64>, AllocError>
    requires { IsCardTable query.now cards.now }
{
    let mut words = vec![in alloc; EMPTY; 1usize << query.n()]?;
    for r in 0..query.n() {
        let place = 1usize << r;
        if place < words.len() {
            words[place] = LEAF as u64 * SPAN + (1u64 << r);
        }
    }
    for p in pairs {
        work(model, query, cards, &mut words, *p);
    }
    Ok(words)
}

/// The words of the class, by the quick way.
pub fn quick_words<M: CostModel>(
    alloc: Global,
    model: &M,
    query: &Query,
    cards: &CardTable,
    class: Class,
) -> Result<Vec<u64>, Fail>
    requires cards { IsCardTable query.now cards.now }
    requires connected { Connected (graph_of query.now) (full (relations query.now)) }
{
    let graph = Graph::of(query);
    let pairs = match class {
        Class::Narrow => collect_pairs(alloc, &mut Thin::over(DpSub::over(&graph), 2))?,
        Class::ZigZag => collect_pairs(alloc, &mut ZigZagPairs::over(&graph))?,
        Class::LeftDeep => return Ok(left_words(alloc, query, model, cards)?),
    };
    Ok(worked(alloc, model, query, cards, &pairs)?)
}
