//! The words at the end.
ghost use Rattle.std.specs.Prelude.{◌≡◌, ℕ, ◌+◌, ◌^◌, ◌<◌, length, slice_index_or};
ghost use Rattle.std.specs.Mem.Slots.{IsFull, slots_items, slots_len};
ghost use Rattle.dpe_base.specs.Queries.{relations};
ghost use Rattle.join_graph.specs.Graphs.{Connected};
ghost use Rattle.memo_table.specs.Finishing.{IsLeastBound, AreCopied, AreCopiedBut};
ghost use Rattle.memo_table.specs.Seats.{IsSeatOf, BoundsAreMade};
ghost use Rattle.memo_table.specs.Views.{EachOnceBelow};

use crate::memo::{Memo, place_of};
use crate::seat::MemoSeat;
use atomic_table::Closed;
use connected_sets::{ConnectedSets, count_up_to};
use cost_model::CostModel;
use dpe_base::WEIGHT;
use join_graph::Graph;
use std::alloc::Global;
use std::marker::Model;

/// The word of each set when the memo was finished, and how many numbers were drawn. No step changes them any more.
#[derive(Drop)]
pub struct Words {
    row: Vec<u64>,
    drawn: u64,
}

impl Model for Words {
    ghost use Rattle.memo_table.specs.Finishing.{FinalWords};

    ghost Value = { FinalWords };

    ghost view = { λ w. record { row = w.row.items; drawn = w.drawn } };
}

impl Words {
    /// A word for each set of relations, at the place of the set's number.
    pub fn row(&self) -> &[u64]
        ensures { result.now ≡ self.now.row }
    {
        self.row.as_slice()
    }

    /// How many numbers the seats drew.
    pub fn drawn(&self) -> u64
        ensures { result ≡ self.now.drawn }
    {
        self.drawn
    }
}

// Each word of the row becomes that of the table.
fn copy_all(closed: &Closed<(), Global>, row: &mut [u64])
    requires full { IsFull closed.now.words }
    requires sized { slots_len closed.now.words ≡ length row.old + 1 }
    ensures size { length row.new ≡ length row.old }
    ensures copied { AreCopied (slots_items closed.now.words) row.new }
{
    'words: for k in 0..row.len() {
        let word = closed.word(k + 1);
        row[k] = word;
    }
}

// The same, where the words of sets that are not connected are there already.
fn copy_connected(closed: &Closed<(), Global>, row: &mut [u64], graph: &Graph)
    requires full { IsFull closed.now.words }
    requires sized { slots_len closed.now.words ≡ length row.old + 1 }
    requires graph { length row.old ≡ 2 ^ graph.now.n }
    requires others { AreCopiedBut (Connected graph.now) (slots_items closed.now.words) row.old }
    ensures size { length row.new ≡ length row.old }
    ensures copied { AreCopied (slots_items closed.now.words) row.new }
{
    graph.recall();
    let mut sets = ConnectedSets::over(graph);
    'sets: while let Some(s) = sets.next(graph) {
        let word = closed.word(place_of(s));
        row[s.bits() as usize] = word;
    }
}

// The same, by what there is less of: where at most one set in 32 is connected, these alone are copied.
fn copy_words(closed: &Closed<(), Global>, row: &mut [u64], graph: &Graph)
    requires full { IsFull closed.now.words }
    requires sized { slots_len closed.now.words ≡ length row.old + 1 }
    requires graph { length row.old ≡ 2 ^ graph.now.n }
    requires others { AreCopiedBut (Connected graph.now) (slots_items closed.now.words) row.old }
    ensures size { length row.new ≡ length row.old }
    ensures copied { AreCopied (slots_items closed.now.words) row.new }
{
    if count_up_to(graph, row.len() / 32).is_some() {
        copy_connected(closed, row, graph);
    } else {
        copy_all(closed, row);
    }
}

impl<M: CostModel> Memo<M> {
    /// With the whole weight, each word is the least bound of its set that the seat has. It takes no memory.
    pub fn finish(self, seat: MemoSeat<M>) -> Words
        requires seat { IsSeatOf self seat }
        requires weight { seat.view.weight ≡ WEIGHT }
        ensures size { length result.row ≡ 2 ^ relations self.query }
        ensures words { (s : ℕ) → s < 2 ^ relations self.query → IsLeastBound seat.view.bounds s (slice_index_or result.row s 0) }
        ensures drawn { EachOnceBelow result.drawn seat.view.tickets }
        ensures made { BoundsAreMade M.KIND seat.view }
    {
        let Memo {
            table,
            mut row,
            graph,
        } = self;
        let MemoSeat { seat, model: _ } = seat;
        let closed = table.close_with(seat);
        let drawn = closed.word(0);
        copy_words(&closed, &mut row, &graph);
        closed.free();
        Words { row, drawn }
    }
}
