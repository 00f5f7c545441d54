//! A seat at a memo.
ghost use Rattle.std.specs.Prelude.{◌≤◌};
ghost use Rattle.memo_table.specs.Seats.{BoundsAreMade};

use crate::view::View;
use atomic_table::Seat;
use cost_model::CostModel;
use std::marker::{Model, PhantomData};

/// What one thread knows of a memo, and its part of the right to draw. It has no bytes.
///
/// Between any two steps, whatever other seats do, its bounds are words of trees that the memo's pairs make, the word
/// of each such set is at most its bounds, and the counter has reached its floor.
#[derive(Drop)]
pub struct MemoSeat<M: CostModel> {
    pub(crate) seat: Seat<(), View>,
    pub(crate) model: PhantomData<M>,
}

impl<M: CostModel> Model for MemoSeat<M> {
    ghost use Rattle.memo_table.specs.Seats.{SeatView};

    ghost Value = { SeatView };

    ghost use Rattle.memo_table.specs.Seats.{IsSeated};

    ghost view = { λ s. record { table = s.seat.table_id; view = s.seat.me.0 } };

    ghost invariant = { λ s. IsSeated M.KIND s.seat };
}

impl<M: CostModel> MemoSeat<M> {
    /// What its holder knows without a step: each bound is the word of a tree over its set, and there is some weight.
    pub fn recall(&self)
        ensures made { BoundsAreMade M.KIND self.now.view }
        ensures weight { 1 ≤ self.now.view.weight }
    {
        let _ = &self.seat;
    }
}
