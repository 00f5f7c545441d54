//! The rule of the memo's table, and what each kind of step does and tells.
ghost use Rattle.std.specs.Prelude.{ℕ};

use crate::view::{TreeSpace, View};
use atomic_table::{Join, Play, Seat, Shared, Split, TableRule};
use cost_model::CostModel;
use std::marker::{Brand, PhantomData};

/// A seat at a table of its own, whose view names the query and the list of pairs: the key of a memo's table.
pub type Key = Seat<(), TreeSpace>;

/// What holds of a memo's table between any two steps.
pub struct MemoRule<M> {
    model: PhantomData<M>,
}

impl<M: CostModel> TableRule<(), View, Key> for MemoRule<M> {
    ghost use Rattle.memo_table.specs.Rule.{Kept};
    ghost use Rattle.memo_table.specs.Views.{opening_view};

    ghost holds = { λ key. Kept M.KIND key.me.0 };

    ghost first = { λ key. opening_view key.me.0 };
}

/// The words of a memo as its seats share them.
pub type SharedWords<M> = Shared<(), View, Key, MemoRule<M>>;

/// A load of a memo word.
pub struct Load<M> {
    model: PhantomData<M>,
}

impl<M: CostModel> Play<(), View> for Load<M> {
    ghost use Rattle.memo_table.specs.Steps.{load_tells};

    ghost then = { load_tells M.KIND };
}

/// A fetch_min on a memo word.
pub struct Offer;

impl Play<(), View> for Offer {
    ghost use Rattle.memo_table.specs.Steps.{offer_tells};

    ghost then = { offer_tells };
}

/// A fetch_add of 1 on the counter.
pub struct Draw;

impl Play<(), View> for Draw {
    ghost use Rattle.memo_table.specs.Steps.{draw_tells};

    ghost then = { draw_tells };
}

/// A load of the counter.
pub struct Drawn;

impl Play<(), View> for Drawn {
    ghost use Rattle.memo_table.specs.Steps.{drawn_tells};

    ghost then = { drawn_tells };
}

/// How many draws a split gives away. A call picks it.
pub trait Given {
    ghost draws: { ℕ };
}

impl Given for Brand {
    ghost draws = { 0 };
}

/// A seat gives a part of what it has to a new one.
pub struct SplitSeat<D: Given> {
    draws: PhantomData<D>,
}

impl<D: Given> Split<View> for SplitSeat<D> {
    ghost use Rattle.memo_table.specs.Views.{kept_part, given_part};

    ghost left = { kept_part D.draws };

    ghost right = { given_part D.draws };
}

/// A seat takes in all that another knows and has.
pub struct JoinSeat;

impl Join<View> for JoinSeat {
    ghost use Rattle.memo_table.specs.Views.{joined_view, spent_view};

    ghost both = { joined_view };

    ghost spent = { spent_view };
}
