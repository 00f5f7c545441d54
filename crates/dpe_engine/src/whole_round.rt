//! One round of all workers over a group of pairs.
ghost use Rattle.std.specs.Prelude.{◌≡◌, ◌≤◌, ◌<◌, ℕ, [], List, All, vec_capacity};
ghost use Rattle.dpe_base.specs.declared.pair.Pair.{Pair};
ghost use Rattle.memo_table.specs.Seats.{SeatView, IsSeatOf};
ghost use Rattle.dpe_engine.specs.Working.{IsMemoOfQuery, IsReady, HasWorked};
ghost use Rattle.dpe_engine.specs.Rounds.{MayWorkRound, HasOpenedRound, HasWorkedRound};
ghost use Rattle.dpe_engine.specs.Rounds.Crews.{HaveWorked};

mod crew;

use crate::gate::Gate;
use crate::worker::work;
use card_scaled::CardTable;
use cost_model::CostModel;
use crew::{gather, split_off};
use dpe_base::{Pair, WORKERS_MAX};
use memo_table::{Memo, MemoSeat};
use std::thread;
use std::thread::Threads;

// Looks at the counter, and splits a seat off for each worker. It answers how many tickets were drawn before.
pub(crate) fn open_round<M: CostModel>(
    memo: &Memo<M>,
    seat: &mut MemoSeat<M>,
    crew: &mut Vec<MemoSeat<M>>,
    workers: u32,
    pairs: &[Pair],
) -> u64
    requires may { MayWorkRound M.KIND memo.now workers pairs.now seat.old }
    requires empty { crew.old.items ≡ [] }
    requires room { workers ≤ vec_capacity crew.old }
    ensures opened { HasOpenedRound M.KIND memo.now result workers pairs.now seat.old seat.new crew.new.items }
    ensures room { vec_capacity crew.new ≡ vec_capacity crew.old }
{
    let base = memo.drawn(seat);
    split_off(memo, workers, pairs.len() as u64 + 1, seat, crew);
    base
}

// Joins the seats again, and looks at the counter. Where each seat of the crew is what its worker left, the round is done.
pub(crate) fn close_round<M: CostModel>(
    memo: &Memo<M>,
    seat: &mut MemoSeat<M>,
    crew: &mut Vec<MemoSeat<M>>,
)
    requires seat { IsSeatOf memo.now seat.old }
    requires crew { All (IsSeatOf memo.now) crew.old.items }
    ensures worked { (base workers : ℕ) (group : List Pair) (before : SeatView) (opened : List SeatView)
        → HasOpenedRound M.KIND memo.now base workers group before seat.old opened
        → HaveWorked M.KIND base group opened crew.old.items
        → HasWorkedRound M.KIND memo.now base workers group before seat.new }
    ensures empty { crew.new.items ≡ [] }
    ensures room { vec_capacity crew.new ≡ vec_capacity crew.old }
{
    gather(memo, seat, crew);
    memo.drawn(seat);
}

/// All workers process the pairs, each in a thread of its own and with a seat of its own, which the main seat gives and
/// takes in again. `crew` has room for these seats. It answers how many tickets were drawn before.
///
/// After it each pair's ticket was drawn once, and one ticket for each worker besides. For each pair the seat has a bound
/// of the union that is at most the pair's least word, unless that is `EMPTY`. It takes no memory.
pub fn round<M: CostModel, G: Gate, R: Threads + Sync>(
    rt: &R,
    memo: &Memo<M>,
    seat: &mut MemoSeat<M>,
    crew: &mut Vec<MemoSeat<M>>,
    workers: u32,
    pairs: &[Pair],
    model: &M,
    cards: &CardTable,
    gate: &G,
) -> u64
    requires planned { IsMemoOfQuery memo.now cards.now }
    requires may { MayWorkRound M.KIND memo.now workers pairs.now seat.old }
    requires empty { crew.old.items ≡ [] }
    requires room { workers ≤ vec_capacity crew.old }
    ensures worked { HasWorkedRound M.KIND memo.now result workers pairs.now seat.old seat.new }
    ensures empty { crew.new.items ≡ [] }
    ensures room { vec_capacity crew.new ≡ vec_capacity crew.old }
{
    let base = open_round(memo, seat, crew, workers, pairs);
    thread::for_each_mut(
        rt,
        crew.as_mut_slice(),
        workers as usize,
        &|i, part: &mut MemoSeat<M>|
            requires { (i < WORKERS_MAX) × IsMemoOfQuery memo.now cards.now × IsReady M.KIND memo.now base pairs.now part.old }
            ensures { HasWorked M.KIND base pairs.entry.now part.old part.new }
        { work(memo, part, base, pairs, model, cards, gate, i as u32) },
    );
    close_round(memo, seat, crew);
    base
}
