//! The least words of the left-deep trees.
ghost use Rattle.std.specs.Prelude.{◌≡◌, ◌≢◌, ◌≤◌, ◌<◌, ◌^◌, ℕ, length, slice_index, IfOk};
ghost use Rattle.dpe_base.specs.Queries.{JoinQuery, relations};
ghost use Rattle.dpe_base.specs.Sets.{Has, Within, single, full, size};
ghost use Rattle.join_graph.specs.Graphs.{Connected, graph_of};
ghost use Rattle.card_scaled.specs.Cards.{IsCardTable};
ghost use Rattle.cost_model.specs.Costs.{operators};
ghost use Rattle.cost_model.specs.Words.{word};
ghost use Rattle.join_tree.specs.Trees.{leaf_word};
ghost use Rattle.plan_space.specs.declared.class.Class.TheVariants.{LeftDeep};
ghost use Rattle.plan_space.specs.LeastWords.{LeastOrEmpty, HasLeastWords, IsLeastOf, JoinsBelow, EndsWith, HasRows};

use card_scaled::CardTable;
use cost_model::{CostModel, LEAF, Word};
use dpe_base::{EMPTY, Query, ROW_CAP, RelSet, SPAN};
use join_graph::Graph;
use std::alloc::{AllocError, Global};

// The word of a tree that costs this much, or `EMPTY`.
fn word_of(cost: u128, op: u8, left: RelSet) -> u64
    requires op { op ≤ LEAF }
    requires left { left < SPAN }
    ensures { result ≡ word cost op left }
{
    match Word::of(cost, op, left) {
        Some(word) => word.bits(),
        None => EMPTY,
    }
}

// The least word of a join in this order over all operators, or `EMPTY`. `first` is the word of the left side, the right side
// is a relation, and the sides have `l` and `r` rows, and the join `o`.
fn join_in_order<M: CostModel>(model: &M, left: RelSet, first: u64, l: u64, r: u64, o: u64) -> u64
    requires set { left < SPAN }
    requires left { (1 ≤ l) × (l ≤ ROW_CAP) }
    requires right { (1 ≤ r) × (r ≤ ROW_CAP) }
    requires out { (1 ≤ o) × (o ≤ ROW_CAP) }
    ensures { IsLeastOf (JoinsBelow (operators M.KIND) M.KIND left first l r o) result }
{
    let below = Word::of_bits(first).cost() as u128;
    let mut least = EMPTY;
    for op in 0..M::OPS {
        let join = model.cost(op, l, r, o);
        least = least.min(word_of(below + join, op, left));
    }
    least
}

// The least word of a join of the rest of `s` with its relation `r`, or `EMPTY` when they don't join.
fn with_last<M: CostModel>(
    model: &M,
    graph: &Graph,
    cards: &CardTable,
    words: &[u64],
    s: RelSet,
    r: u8,
) -> u64
    requires known { Within s (full graph.now.n) }
    requires has { Has s r }
    requires many { 2 ≤ size s }
    requires words { length words.now ≡ 2 ^ graph.now.n }
    requires cards { cards.now.n ≡ graph.now.n }
    requires rows { HasRows cards.now }
    ensures { IsLeastOf (EndsWith M.KIND graph.now cards.now.rows words.now s r) result }
{
    graph.recall();
    let last = RelSet::single(r);
    let left = s.minus(last);
    let first = words[left.bits() as usize];
    if first == EMPTY || !graph.joined(last, left) {
        return EMPTY;
    }
    let left_rows = cards.rows(left);
    let last_rows = cards.rows(last);
    let out = cards.rows(s);
    join_in_order(model, left, first, left_rows, last_rows, out)
}

// The least word of a join of `s` that has a relation on its right, or `EMPTY`.
fn with_any_last<M: CostModel>(
    model: &M,
    graph: &Graph,
    cards: &CardTable,
    words: &[u64],
    s: RelSet,
) -> u64
    requires known { Within s (full graph.now.n) }
    requires many { 2 ≤ size s }
    requires words { length words.now ≡ 2 ^ graph.now.n }
    requires cards { cards.now.n ≡ graph.now.n }
    requires rows { HasRows cards.now }
    ensures { IsLeastOf (λ v. (r : ℕ) × Has s r × EndsWith M.KIND graph.now cards.now.rows words.now s r v) result }
{
    graph.recall();
    let mut least = EMPTY;
    let mut rest = s;
    'rest: while let Some(r) = rest.least() {
        least = least.min(with_last(model, graph, cards, words, s, r));
        rest = rest.minus(RelSet::single(r));
    }
    least
}

// The least word of a left-deep tree over `s`, or `EMPTY`, from those of the smaller sets.
fn left_word<M: CostModel>(
    query: &Query,
    graph: &Graph,
    model: &M,
    cards: &CardTable,
    words: &[u64],
    s: RelSet,
) -> u64
    requires graph { graph.now ≡ graph_of query.now }
    requires cards { IsCardTable query.now cards.now }
    requires known { Within s (full (relations query.now)) }
    requires some { s ≢ 0 }
    requires words { length words.now ≡ 2 ^ relations query.now }
    requires smaller { (x : ℕ) → x < s → LeastOrEmpty LeftDeep M.KIND query.now x (slice_index words.now x) }
    ensures { LeastOrEmpty LeftDeep M.KIND query.now s result }
{
    query.recall();
    if s.len() == 1 {
        word_of(0, LEAF, s)
    } else {
        with_any_last(model, graph, cards, words, s)
    }
}

/// The least word of the left-deep trees over each set of relations, at the set's number; `EMPTY` when there is no such tree.
///
/// It takes one step for each set and each of its relations at most: n * 2^n for n relations.
///
/// Fails when memory runs out.
pub fn left_words<M: CostModel>(
    alloc: Global,
    query: &Query,
    model: &M,
    cards: &CardTable,
) -> Result<Vec<u64>, AllocError>
    requires connected { Connected (graph_of query.now) (full (relations query.now)) }
    requires cards { IsCardTable query.now cards.now }
    ensures sized { IfOk result (λ v. length v.items ≡ 2 ^ relations query.now) }
    ensures places { IfOk result (λ v. (s : ℕ) → s < 2 ^ relations query.now
        → LeastOrEmpty LeftDeep M.KIND query.now s (slice_index v.items s)) }
    ensures words { IfOk result (λ v. HasLeastWords LeftDeep M.KIND query.now v.items (full (relations query.now))) }
{
    let graph = Graph::of(query);
    let size = 1usize << query.n();
    let mut words = vec![in alloc; EMPTY; size]?;
    // each subset of a set has a smaller number, so its word is there already
    for k in 1..size {
        let s = RelSet::of_bits(k as u32);
        let word = left_word(query, &graph, model, cards, &words, s);
        words[k] = word;
    }
    Ok(words)
}
