//! Seats for other threads, and what they bring back.
ghost use Rattle.std.specs.Prelude.{◌≡◌, ◌≤◌};
ghost use Rattle.memo_table.specs.Seats.{IsSeatOf};
ghost use Rattle.memo_table.specs.Views.{kept_part, given_part, joined_view};

use crate::memo::Memo;
use crate::rule::Given;
use crate::seat::MemoSeat;
use crate::steps::{join, split};
use cost_model::CostModel;
use std::marker::{Brand, PhantomData};

impl<M: CostModel> Memo<M> {
    /// A new seat that knows the same bounds and floor. It has weight 1 and as many draws, which the seat gives away.
    pub fn split(&self, seat: &mut MemoSeat<M>, draws: u64) -> MemoSeat<M>
        requires seat { IsSeatOf self.now seat.old }
        requires weight { 2 ≤ seat.old.view.weight }
        requires allowance { draws ≤ seat.old.view.allowance }
        ensures table { (seat.new.table ≡ seat.old.table) × (result.table ≡ seat.old.table) }
        ensures old { seat.new.view ≡ kept_part draws seat.old.view }
        ensures new { result.view ≡ given_part draws seat.old.view }
    {
        self.split_by::<Brand>(seat, draws)
    }

    // `_draws` is for the proof alone: it says which `D` a call means.
    fn split_by<D: Given>(&self, seat: &mut MemoSeat<M>, _draws: u64) -> MemoSeat<M>
        requires seat { IsSeatOf self.now seat.old }
        requires weight { 2 ≤ seat.old.view.weight }
        requires allowance { _draws ≤ seat.old.view.allowance }
        requires draws { _draws ≡ D.draws }
        ensures table { (seat.new.table ≡ seat.old.table) × (result.table ≡ seat.old.table) }
        ensures old { seat.new.view ≡ kept_part _draws seat.old.view }
        ensures new { result.view ≡ given_part _draws seat.old.view }
    {
        let part = split::<M, D>(&self.table.shared, &mut seat.seat);
        MemoSeat {
            seat: part,
            model: PhantomData,
        }
    }

    /// The seat knows what both knew, and has what both had.
    pub fn join(&self, seat: &mut MemoSeat<M>, other: MemoSeat<M>)
        requires seat { IsSeatOf self.now seat.old }
        requires other { IsSeatOf self.now other }
        ensures table { seat.new.table ≡ seat.old.table }
        ensures view { seat.new.view ≡ joined_view seat.old.view other.view }
    {
        let MemoSeat {
            seat: part,
            model: _,
        } = other;
        join(&self.table.shared, &mut seat.seat, part);
    }
}
