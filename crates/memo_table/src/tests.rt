ghost use Rattle.std.specs.Prelude.{◌≡◌, ◌≤◌, [], ◌∷◌, IfOk, vec_capacity};
ghost use Rattle.memo_table.specs.Seats.{IsSeatOf};

use crate::{Memo, MemoSeat};
use cost_model::{LEAF, Ops};
use dpe_base::{EMPTY, Pred, Query, Rel, RelSet, SPAN};
use join_graph::Graph;
use pair_stream::DpSub;
use std::alloc::Global;
use std::test::Fail;
use std::thread::join;

// The words of the two hash joins, of which the first costs 1,300 and the second 2,200.
const FIRST_LEFT: u64 = 1300 * (4 * SPAN) + 1;

const SECOND_LEFT: u64 = 2200 * (4 * SPAN) + 2;

// Relations of 100 and 1,000 rows, joined with the fraction 1/1000.
fn two_relations(alloc: Global) -> Result<Query, Fail>
    ensures rels { IfOk result (λ q. q.rels ≡ record { rows = 100; num = 1; den = 1 } ∷ record { rows = 1000; num = 1; den = 1 } ∷ []) }
    ensures preds { IfOk result (λ q. q.preds ≡ record { low = 0; high = 1; num = 1; den = 1000 } ∷ []) }
{
    let small = Rel {
        rows: 100,
        num: 1,
        den: 1,
    };
    let large = Rel {
        rows: 1000,
        num: 1,
        den: 1,
    };
    let thousandth = Pred {
        low: 0,
        high: 1,
        num: 1,
        den: 1000,
    };
    let rels = vec![in alloc; small, large]?;
    let preds = vec![in alloc; thousandth]?;
    Ok(Query::new(rels, preds)?)
}

#[test]
fn a_greater_word_lowers_nothing(rt: HostRuntime) -> Result<(), Fail> {
    let query = two_relations(rt.alloc())?;
    let graph = Graph::of(&query);
    let stream = DpSub::over(&graph);
    let (memo, mut seat) = Memo::<Ops>::make(rt.alloc(), &query, &stream)?;
    let both = RelSet::of_bits(3);
    memo.offer(&mut seat, both, FIRST_LEFT);
    let first = memo.load(&mut seat, both);
    memo.offer(&mut seat, both, SECOND_LEFT);
    let second = memo.load(&mut seat, both);
    assert_eq!(rt; (first, second), (FIRST_LEFT, FIRST_LEFT));
    let tickets = (memo.draw(&mut seat), memo.draw(&mut seat));
    assert_eq!(rt; tickets, (0, 1));
    let drawn = memo.drawn(&mut seat);
    assert_eq!(rt; drawn, 2);
    seat.recall();
    let words = memo.finish(seat);
    assert_eq!(rt;
        words.row(),
        [
            EMPTY,
            LEAF as u64 * SPAN + 1,
            LEAF as u64 * SPAN + 2,
            FIRST_LEFT
        ]
        .as_slice()
    );
    assert_eq!(rt; words.drawn(), 2);
    Ok(())
}

// Draws as many numbers as there is room for.
fn draw_all(
    memo: &Memo<Ops>,
    mut seat: MemoSeat<Ops>,
    count: u64,
    mut seen: Vec<u64>,
) -> (MemoSeat<Ops>, Vec<u64>)
    requires seat { IsSeatOf memo.now seat }
    requires weight { 1 ≤ seat.view.weight }
    requires allowance { count ≤ seat.view.allowance }
    requires room { (seen.items ≡ []) × (count ≤ vec_capacity seen) }
    ensures { IsSeatOf memo.now result.0 }
{
    'draws: for _ in 0..count {
        let ticket = memo.draw(&mut seat);
        seen.push_reserved(ticket);
    }
    (seat, seen)
}

#[test]
fn two_threads_draw_each_number_once(rt: HostRuntime) -> Result<(), Fail> {
    let query = two_relations(rt.alloc())?;
    let graph = Graph::of(&query);
    let stream = DpSub::over(&graph);
    let (memo, mut seat) = Memo::<Ops>::make(rt.alloc(), &query, &stream)?;
    let first_room = Vec::with_capacity(rt.alloc(), 1000)?;
    let second_room = Vec::with_capacity(rt.alloc(), 1000)?;
    let first = memo.split(&mut seat, 1000);
    let second = memo.split(&mut seat, 1000);
    let ((first, mut seen), (second, mut others)) = join(
        &rt,
        || draw_all(&memo, first, 1000, first_room),
        || draw_all(&memo, second, 1000, second_room),
    );
    memo.join(&mut seat, first);
    memo.join(&mut seat, second);
    let drawn = memo.drawn(&mut seat);
    assert_eq!(rt; drawn, 2000);
    seen.append(&mut others)?;
    seen.sort_unstable();
    assert_eq!(rt; seen.len(), 2000);
    for (place, number) in seen.iter().enumerate() {
        assert_eq!(rt; *number, place as u64);
    }
    Ok(())
}
