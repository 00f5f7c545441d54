//! Making a memo.
ghost use Rattle.std.specs.Prelude.{◌≡◌, ℕ, ◌+◌, ◌<◌, ◌≤◌, [], IfOk, Contains, length, slice_index_or};
ghost use Rattle.dpe_base.specs.Queries.{relations};
ghost use Rattle.dpe_base.specs.Sets.{single};
ghost use Rattle.dpe_base.specs.declared.pair.Pair.{Pair};
ghost use Rattle.join_graph.specs.Graphs.{Pairs, graph_of};
ghost use Rattle.join_tree.specs.Trees.{leaf_word};
ghost use Rattle.memo_table.specs.Making.{opening_words, HasLeaves, IsOpen};
ghost use Rattle.memo_table.specs.Rule.{IsTreeSpace};
ghost use Rattle.memo_table.specs.Seats.{IsSeatOf, Settled};
ghost use Rattle.memo_table.specs.Views.{opening_view};

use crate::key::key_of;
use crate::memo::Memo;
use crate::rule::Key;
use crate::seat::MemoSeat;
use atomic_table::Table;
use cost_model::{CostModel, LEAF};
use dpe_base::{DRAWS, EMPTY, N_MAX, Query, RelSet, SPAN, WEIGHT};
use join_graph::Graph;
use pair_stream::PairStream;
use std::alloc::{AllocError, Global};
use std::marker::PhantomData;

// The word of the relation alone.
fn leaf_word(r: u8) -> u64
    requires { r < N_MAX }
    ensures { result ≡ leaf_word r }
{
    LEAF as u64 * SPAN + RelSet::single(r).bits() as u64
}

// The counter, and an empty word for each set.
fn opening_words(alloc: Global, n: u8) -> Result<Vec<u64>, AllocError>
    requires { n ≤ N_MAX }
    ensures { IfOk result (λ v. v.items ≡ opening_words n) }
{
    let size = (1usize << n) + 1;
    let mut words = vec![in alloc; EMPTY; size]?;
    words[0] = 0;
    Ok(words)
}

// What is left without the counter is an empty word for each set.
fn without_counter(words: &mut Vec<u64>)
    requires some { 2 ≤ length words.old.items }
    requires empty { (k : ℕ) → 1 ≤ k → k < length words.old.items → slice_index_or words.old.items k EMPTY ≡ EMPTY }
    ensures size { length words.new.items + 1 ≡ length words.old.items }
    ensures empty { (k : ℕ) → k < length words.new.items → slice_index_or words.new.items k EMPTY ≡ EMPTY }
{
    words[0] = EMPTY;
    let _last = words.pop();
}

impl<M: CostModel> Memo<M> {
    // A memo in which every word is empty, and the seat of the whole weight.
    fn opened(alloc: Global, graph: &Graph, key: &Key) -> Result<(Memo<M>, MemoSeat<M>), AllocError>
        requires graph { graph.now ≡ graph_of key.now.me.0.query }
        requires space { IsTreeSpace key.now.me.0 }
        ensures named { IfOk result (λ r. (r.0.query ≡ key.now.me.0.query) × (r.0.pairs ≡ key.now.me.0.pairs)) }
        ensures seat { IfOk result (λ r. IsSeatOf r.0 r.1) }
        ensures view { IfOk result (λ r. r.1.view ≡ opening_view key.now.me.0) }
    {
        let mut row = opening_words(alloc, graph.n())?;
        let (table, seat) = Table::of_words(alloc, row.as_slice(), key)?;
        without_counter(&mut row);
        let memo = Memo {
            table,
            row,
            graph: *graph,
        };
        let seat = MemoSeat {
            seat,
            model: PhantomData,
        };
        Ok((memo, seat))
    }

    // Offers the word of each relation alone.
    fn offer_leaves(&self, seat: &mut MemoSeat<M>, n: u8)
        requires seat { IsSeatOf self.now seat.old }
        requires n { (n ≡ relations self.now.query) × (n ≤ N_MAX) }
        requires none { seat.old.view.bounds ≡ [] }
        ensures { IsOpen self.now seat.old seat.new n }
    {
        for r in 0..n {
            self.offer(seat, RelSet::single(r), leaf_word(r));
        }
    }

    /// A memo of the query and of the pairs that the stream has left, and its first seat. The stream is only named.
    /// The word of each relation alone is in place. It takes all memory that `finish` needs.
    ///
    /// Fails where there is no memory.
    pub fn make<P: PairStream>(
        alloc: Global,
        query: &Query,
        stream: &P,
    ) -> Result<(Memo<M>, MemoSeat<M>), AllocError>
        requires { (p : Pair) → Contains (P.left stream.now) p → Pairs (graph_of query.now) p }
        ensures named { IfOk result (λ r. (r.0.query ≡ query.now) × (r.0.pairs ≡ P.left stream.now)) }
        ensures seat { IfOk result (λ r. IsSeatOf r.0 r.1) }
        ensures counts { IfOk result (λ r. (r.1.view.weight ≡ WEIGHT) × (r.1.view.floor ≡ 0) × (r.1.view.tickets ≡ []) × (r.1.view.allowance ≡ DRAWS)) }
        ensures bounds { IfOk result (λ r. HasLeaves (relations query.now) r.1.view) }
        ensures leaves { IfOk result (λ m. (r : ℕ) → r < relations query.now → Settled M.KIND m.1.view (single r)) }
    {
        query.recall();
        let graph = Graph::of(query);
        let key = key_of(alloc, query, stream)?;
        let (memo, mut seat) = Self::opened(alloc, &graph, &key)?;
        memo.offer_leaves(&mut seat, query.n());
        Ok((memo, seat))
    }
}
