//! The six kinds of step, each of them one call of the table.
ghost use Rattle.std.specs.Prelude.{◌≡◌, ℕ, ◌+◌, ◌%◌, ◌^◌, ◌<◌, [], min};
ghost use mathlib.Core.Option.{none};
ghost use Rattle.atomic_table.specs.Table.{step, Allows, Splits, Joins};
ghost use Rattle.memo_table.specs.Rule.{Kept};
ghost use Rattle.memo_table.specs.Steps.{load_tells, offer_tells, draw_tells, drawn_tells};
ghost use Rattle.memo_table.specs.Views.{kept_part, given_part, joined_view, spent_view};

use crate::rule::{Draw, Drawn, Given, JoinSeat, Load, Offer, SharedWords, SplitSeat};
use crate::view::View;
use atomic_table::Seat;
use cost_model::CostModel;

// Loads a memo word.
pub(crate) fn load<M: CostModel>(
    words: &SharedWords<M>,
    seat: &mut Seat<(), View>,
    place: usize,
) -> u64
    requires table { seat.old.table_id ≡ words.now.table_id }
    requires place { place < words.now.table_id.words }
    requires kept { Allows (Kept M.KIND words.now.key.me.0) words.now.table_id.slots seat.old.id seat.old.me place (λ n. n)
        (load_tells M.KIND (step words.now.table_id.slots place 0 0 none) seat.old.me) }
    ensures table { seat.new.table_id ≡ seat.old.table_id }
    ensures told { load_tells M.KIND (step words.now.table_id.slots place 0 0 none) seat.old.me result seat.new.me }
{
    words.load::<Load<M>>(seat, place)
}

// Offers a word: the memo word becomes the lesser of what it was and `word`.
pub(crate) fn offer<M: CostModel>(
    words: &SharedWords<M>,
    seat: &mut Seat<(), View>,
    place: usize,
    word: u64,
)
    requires table { seat.old.table_id ≡ words.now.table_id }
    requires place { place < words.now.table_id.words }
    requires kept { Allows (Kept M.KIND words.now.key.me.0) words.now.table_id.slots seat.old.id seat.old.me place (λ n. min n word)
        (offer_tells (step words.now.table_id.slots place word 0 none) seat.old.me) }
    ensures table { seat.new.table_id ≡ seat.old.table_id }
    ensures told { (n : ℕ) × offer_tells (step words.now.table_id.slots place word 0 none) seat.old.me n seat.new.me }
{
    words.fetch_min::<Offer>(seat, place, word);
}

// Draws a ticket: the counter rises by 1. It answers what it was.
pub(crate) fn draw<M: CostModel>(words: &SharedWords<M>, seat: &mut Seat<(), View>) -> u64
    requires table { seat.old.table_id ≡ words.now.table_id }
    requires place { 0 < words.now.table_id.words }
    requires kept { Allows (Kept M.KIND words.now.key.me.0) words.now.table_id.slots seat.old.id seat.old.me 0 (λ n. (n + 1) % 2 ^ 64)
        (draw_tells (step words.now.table_id.slots 0 1 0 none) seat.old.me) }
    ensures table { seat.new.table_id ≡ seat.old.table_id }
    ensures told { draw_tells (step words.now.table_id.slots 0 1 0 none) seat.old.me result seat.new.me }
{
    words.fetch_add::<Draw>(seat, 0, 1)
}

// Loads the counter: how many tickets all seats have drawn.
pub(crate) fn drawn<M: CostModel>(words: &SharedWords<M>, seat: &mut Seat<(), View>) -> u64
    requires table { seat.old.table_id ≡ words.now.table_id }
    requires place { 0 < words.now.table_id.words }
    requires kept { Allows (Kept M.KIND words.now.key.me.0) words.now.table_id.slots seat.old.id seat.old.me 0 (λ n. n)
        (drawn_tells (step words.now.table_id.slots 0 0 0 none) seat.old.me) }
    ensures table { seat.new.table_id ≡ seat.old.table_id }
    ensures told { drawn_tells (step words.now.table_id.slots 0 0 0 none) seat.old.me result seat.new.me }
{
    words.load::<Drawn>(seat, 0)
}

// Splits the seat: a new one gets a part of what the seat has.
pub(crate) fn split<M: CostModel, D: Given>(
    words: &SharedWords<M>,
    seat: &mut Seat<(), View>,
) -> Seat<(), View>
    requires table { seat.old.table_id ≡ words.now.table_id }
    requires place { 0 < words.now.table_id.words }
    requires kept { Splits (Kept M.KIND words.now.key.me.0) seat.old.id seat.old.me.0 (kept_part D.draws seat.old.me.0) (given_part D.draws seat.old.me.0) }
    ensures table { (seat.new.table_id ≡ seat.old.table_id) × (result.table_id ≡ seat.old.table_id) }
    ensures old { seat.new.me ≡ (kept_part D.draws seat.old.me.0, seat.old.me.1) }
    ensures new { result.me ≡ (given_part D.draws seat.old.me.0, []) }
{
    words.split_seat::<SplitSeat<D>>(seat)
}

// Joins the other seat: the seat takes in all that the other knows and has.
pub(crate) fn join<M: CostModel>(
    words: &SharedWords<M>,
    seat: &mut Seat<(), View>,
    other: Seat<(), View>,
)
    requires table { (seat.old.table_id ≡ words.now.table_id) × (other.table_id ≡ words.now.table_id) }
    requires no_slot { other.me.1 ≡ [] }
    requires place { 0 < words.now.table_id.words }
    requires kept { Joins (Kept M.KIND words.now.key.me.0) seat.old.id seat.old.me.0 other.id other.me.0 (joined_view seat.old.me.0 other.me.0) spent_view }
    ensures table { seat.new.table_id ≡ seat.old.table_id }
    ensures view { seat.new.me ≡ (joined_view seat.old.me.0 other.me.0, seat.old.me.1) }
{
    words.join_seat::<JoinSeat>(seat, other);
}
