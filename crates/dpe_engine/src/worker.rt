//! One worker.
ghost use Rattle.std.specs.Prelude.{Contains};
ghost use Rattle.memo_table.specs.Seats.{IsSeatOf, Settled};
ghost use Rattle.dpe_engine.specs.Working.{IsMemoOfQuery, IsReady, HasWorked, HasWorkedPair};

use crate::gate::Gate;
use arrayvec::ArrayVec;
use card_scaled::CardTable;
use cost_model::{CostModel, best_split};
use dpe_base::Pair;
use memo_table::{Memo, MemoSeat};

// Offers the least word that the pair gives on the words of its sides.
fn work_pair<M: CostModel>(
    memo: &Memo<M>,
    pair: Pair,
    model: &M,
    cards: &CardTable,
    seat: &mut MemoSeat<M>,
)
    requires planned { IsMemoOfQuery memo.now cards.now }
    requires seat { IsSeatOf memo.now seat.old }
    requires listed { Contains memo.now.pairs pair }
    requires first { Settled M.KIND seat.old.view pair.a }
    requires second { Settled M.KIND seat.old.view pair.b }
    ensures { HasWorkedPair M.KIND pair seat.old seat.new }
{
    let union = pair.a.union(pair.b);
    let first = memo.load(seat, pair.a);
    let second = memo.load(seat, pair.b);
    let rows_a = cards.rows(pair.a);
    let rows_b = cards.rows(pair.b);
    let rows = cards.rows(union);
    let word = best_split(model, pair, first, second, rows_a, rows_b, rows);
    memo.offer(seat, union, word);
}

// How many tickets a worker draws before it processes their pairs.
const BURST: usize = 16;

/// Draws tickets until one is past the pairs, and processes the pair of each other one. The pair at place k has the ticket
/// `base` + k. The gate is told of each draw, right after it.
///
/// For each pair processed the seat then has a bound of the union that is at most the pair's least word, unless that is
/// `EMPTY`. It takes no memory.
pub fn work<M: CostModel, G: Gate>(
    memo: &Memo<M>,
    seat: &mut MemoSeat<M>,
    base: u64,
    pairs: &[Pair],
    model: &M,
    cards: &CardTable,
    gate: &G,
    worker: u32,
)
    requires planned { IsMemoOfQuery memo.now cards.now }
    requires ready { IsReady M.KIND memo.now base pairs.now seat.old }
    ensures { HasWorked M.KIND base pairs.now seat.old seat.new }
{
    let mut places: ArrayVec<u64, BURST> = ArrayVec::new();
    let mut over = false;
    'bursts: while !over {
        places.clear();
        'draws: while !over && !places.is_full() {
            let ticket = memo.draw(seat);
            gate.before(worker, ticket);
            let place = ticket - base;
            if place < pairs.len() as u64 {
                places.push(place);
            } else {
                over = true;
            }
        }
        'works: for i in 0..places.len() {
            work_pair(memo, pairs[places[i] as usize], model, cards, seat);
        }
    }
}
