//! The memo, and the steps on its words.
ghost use Rattle.std.specs.Prelude.{◌≡◌, ◌≢◌, ◌⊎◌, ℕ, ◌+◌, ◌≤◌, ◌<◌, All, Contains};
ghost use Rattle.dpe_base.specs.Queries.{relations};
ghost use Rattle.dpe_base.specs.Sets.{Within, full};
ghost use Rattle.join_tree.specs.Trees.{IsEmptyOrMade, Least, Made};
ghost use Rattle.memo_table.specs.Seats.{IsSeatOf, BoundsAreMade, Settled};
ghost use Rattle.memo_table.specs.Views.{EachOnceBelow, with_bound, with_offer, with_ticket, with_floor};

use crate::rule::{Key, MemoRule};
use crate::seat::MemoSeat;
use crate::steps::{draw, drawn, load, offer};
use crate::view::View;
use atomic_table::Table;
use cost_model::CostModel;
use dpe_base::{EMPTY, RelSet, WEIGHT};
use join_graph::Graph;
use std::alloc::Global;
use std::marker::Model;

/// A memo that threads share by `&`. Contracts see which table it is, its query and its list of pairs.
///
/// Between any two steps of its seats the word of a set is `EMPTY`, or the word of a tree over the set that the pairs
/// make and a bound of some seat; the tickets of all seats are the numbers below the counter, each once.
#[derive(Drop)]
pub struct Memo<M: CostModel> {
    pub(crate) table: Table<(), View, Key, MemoRule<M>, Global>,
    // An empty word for each set, where the words at the end come to stand.
    pub(crate) row: Vec<u64>,
    pub(crate) graph: Graph,
}

impl<M: CostModel> Model for Memo<M> {
    ghost use Rattle.std.specs.Prelude.{◌≡◌, ◌+◌, ◌^◌};
    ghost use Rattle.dpe_base.specs.Queries.{relations};
    ghost use Rattle.join_graph.specs.Graphs.{graph_of};
    ghost use Rattle.memo_table.specs.Finishing.{AreEmpty};
    ghost use Rattle.memo_table.specs.Seats.{MemoTable};

    ghost Value = { MemoTable };

    ghost view = { λ m. record { table = m.table.shared.table_id; query = m.table.shared.key.me.0.query; pairs = m.table.shared.key.me.0.pairs } };

    ghost invariant = { λ m. (m.table.shared.table_id.words ≡ 2 ^ relations m.table.shared.key.me.0.query + 1)
        × (m.table.shared.table_id.slots ≡ 0)
        × AreEmpty (relations m.table.shared.key.me.0.query) m.row.items
        × (m.graph ≡ graph_of m.table.shared.key.me.0.query) };
}

// Where the word of the set stands. The counter stands before all of them.
pub(crate) fn place_of(s: RelSet) -> usize
    ensures { result ≡ s + 1 }
{
    s.bits() as usize + 1
}

impl<M: CostModel> Memo<M> {
    /// The word of a set of which the seat has a bound: that of a tree over it, and at most each bound.
    /// It is at most each word that this seat has offered, and a bound from then on. Of a set that the seat knows
    /// as settled it is the least word of all trees over it.
    pub fn load(&self, seat: &mut MemoSeat<M>, s: RelSet) -> u64
        requires seat { IsSeatOf self.now seat.old }
        requires held { (w : ℕ) × Contains seat.old.view.bounds (s, w) }
        ensures table { seat.new.table ≡ seat.old.table }
        ensures view { seat.new.view ≡ with_bound seat.old.view s result }
        ensures made { Made M.KIND self.now.query self.now.pairs s result }
        ensures some { result ≢ EMPTY }
        ensures least { (w : ℕ) → Contains seat.old.view.bounds (s, w) → result ≤ w }
        ensures settled { Settled M.KIND seat.old.view s → Least M.KIND self.now.query self.now.pairs s result }
    {
        load(&self.table.shared, &mut seat.seat, place_of(s))
    }

    /// The word of the set becomes the lesser of what it was and `w`, in one step.
    pub fn offer(&self, seat: &mut MemoSeat<M>, s: RelSet, w: u64)
        requires seat { IsSeatOf self.now seat.old }
        requires some { s ≢ 0 }
        requires within { Within s (full (relations self.now.query)) }
        requires word { IsEmptyOrMade M.KIND self.now.query self.now.pairs s w }
        ensures table { seat.new.table ≡ seat.old.table }
        ensures view { seat.new.view ≡ with_offer seat.old.view s w }
    {
        offer(&self.table.shared, &mut seat.seat, place_of(s), w);
    }

    /// A number that no seat drew before, in one step. It is a ticket of this seat from then on.
    pub fn draw(&self, seat: &mut MemoSeat<M>) -> u64
        requires seat { IsSeatOf self.now seat.old }
        requires weight { 1 ≤ seat.old.view.weight }
        requires allowance { 1 ≤ seat.old.view.allowance }
        ensures table { seat.new.table ≡ seat.old.table }
        ensures view { seat.new.view ≡ with_ticket seat.old.view result }
        ensures floor { seat.old.view.floor ≤ result }
        ensures above { All (λ x. x < result) seat.old.view.tickets }
    {
        draw(&self.table.shared, &mut seat.seat)
    }

    /// How many numbers all seats have drawn. With the whole weight, these are the seat's own tickets.
    pub fn drawn(&self, seat: &mut MemoSeat<M>) -> u64
        requires seat { IsSeatOf self.now seat.old }
        ensures table { seat.new.table ≡ seat.old.table }
        ensures view { seat.new.view ≡ with_floor seat.old.view result }
        ensures floor { seat.old.view.floor ≤ result }
        ensures above { All (λ x. x < result) seat.old.view.tickets }
        ensures all { seat.old.view.weight ≡ WEIGHT → EachOnceBelow result seat.old.view.tickets }
        ensures made { BoundsAreMade M.KIND seat.new.view }
    {
        drawn(&self.table.shared, &mut seat.seat)
    }
}
