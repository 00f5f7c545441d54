//! The seats of a round: one for each worker.
ghost use Rattle.std.specs.Prelude.{◌≡◌, ◌+◌, ◌*◌, ◌≤◌, [], All, vec_capacity};
ghost use Rattle.memo_table.specs.Seats.{IsSeatOf};
ghost use Rattle.dpe_engine.specs.Rounds.Crews.{IsSplit, IsGathered};

use cost_model::CostModel;
use memo_table::{Memo, MemoSeat};

// Splits a seat off for each worker.
pub(crate) fn split_off<M: CostModel>(
    memo: &Memo<M>,
    workers: u32,
    draws: u64,
    seat: &mut MemoSeat<M>,
    crew: &mut Vec<MemoSeat<M>>,
)
    requires seat { IsSeatOf memo.now seat.old }
    requires weight { workers + 1 ≤ seat.old.view.weight }
    requires allowance { workers * draws ≤ seat.old.view.allowance }
    requires empty { crew.old.items ≡ [] }
    requires room { workers ≤ vec_capacity crew.old }
    ensures split { IsSplit memo.now seat.old seat.new crew.new.items workers draws }
    ensures room { vec_capacity crew.new ≡ vec_capacity crew.old }
{
    'workers: for _ in 0..workers {
        let part = memo.split(seat, draws);
        crew.push_reserved(part);
    }
}

// Joins the seats of the crew again.
pub(crate) fn gather<M: CostModel>(
    memo: &Memo<M>,
    seat: &mut MemoSeat<M>,
    crew: &mut Vec<MemoSeat<M>>,
)
    requires seat { IsSeatOf memo.now seat.old }
    requires crew { All (IsSeatOf memo.now) crew.old.items }
    ensures gathered { IsGathered memo.now seat.old crew.old.items seat.new }
    ensures empty { crew.new.items ≡ [] }
    ensures room { vec_capacity crew.new ≡ vec_capacity crew.old }
{
    'parts: while let Some(part) = crew.pop() {
        memo.join(seat, part);
    }
}
