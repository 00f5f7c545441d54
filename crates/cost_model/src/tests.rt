ghost use Rattle.std.specs.Prelude.{◌≡◌};

use crate::{CostModel, Cout, HASH, JOIN, LEAF, LOOP, MERGE, Ops, Word, best_split};
use dpe_base::{COST_LIMIT, EMPTY, Pair, ROW_CAP, RelSet, SPAN};

#[test]
fn operators_cost_what_the_table_says(rt: HostRuntime) {
    assert_eq!(rt; Ops.cost(HASH, 100, 1000, 100), 1300);
    assert_eq!(rt; Ops.cost(HASH, 1000, 100, 100), 2200);
    assert_eq!(rt; Ops.cost(HASH, 4, 2, 8), 18);
    assert_eq!(rt; Ops.cost(MERGE, 4, 2, 8), 24);
    assert_eq!(rt; Ops.cost(LOOP, 4, 2, 8), 16);
    // the greatest cardinality has one binary digit more than its exponent
    let digits = ROW_CAP.trailing_zeros() as u128 + 1;
    let most = ROW_CAP as u128;
    assert_eq!(rt;
        Ops.cost(MERGE, ROW_CAP, ROW_CAP, ROW_CAP),
        most * (2 * digits + 1)
    );
    assert_eq!(rt; Cout.cost(JOIN, 4, 2, 8), 8);
}

#[test]
fn words_of_leaves_and_joins(rt: HostRuntime) {
    let hash = Word::of(1300, HASH, RelSet::of_bits(1));
    assert_eq!(rt; hash.map(Word::bits), Some(1300 * (4 * SPAN) + 1));
    assert_eq!(rt;
        Word::of(16, HASH, RelSet::of_bits(2)).map(Word::bits),
        Some(16 * (4 * SPAN) + 2)
    );
    assert_eq!(rt;
        Word::of(0, LEAF, RelSet::of_bits(1)).map(Word::bits),
        Some(LEAF as u64 * SPAN + 1)
    );
    assert_eq!(rt;
        Word::of(0, LEAF, RelSet::of_bits(8)).map(Word::bits),
        Some(LEAF as u64 * SPAN + 8)
    );
    // the greatest cost that has a word
    assert_eq!(rt;
        Word::of(COST_LIMIT as u128 - 1, LOOP, RelSet::of_bits(1)).map(Word::bits),
        Some((COST_LIMIT - 1) * (4 * SPAN) + LOOP as u64 * SPAN + 1)
    );
    assert_eq!(rt;
        Word::of(COST_LIMIT as u128, HASH, RelSet::of_bits(8)),
        None
    );
    let word = Word::of_bits(1300 * (4 * SPAN) + 1);
    assert_eq!(rt; word.cost(), 1300);
    assert_eq!(rt; word.op(), HASH);
    assert_eq!(rt; word.left().bits(), 1);
}

// The words that the first two relations have alone.
const FIRST: u64 = LEAF as u64 * SPAN + 1;

const SECOND: u64 = LEAF as u64 * SPAN + 2;

fn two() -> Pair
    ensures { (result.a ≡ 1) × (result.b ≡ 2) }
{
    Pair {
        a: RelSet::of_bits(1),
        b: RelSet::of_bits(2),
    }
}

#[test]
fn the_least_word_over_both_orders_and_all_operators(rt: HostRuntime) {
    // a hash with the first side left costs 1300, with the second 2200
    assert_eq!(rt;
        best_split(&Ops, two(), FIRST, SECOND, 100, 1000, 100),
        1300 * (4 * SPAN) + 1
    );
    // both orders cost 130, and the left set 1 is the lesser
    assert_eq!(rt;
        best_split(&Ops, two(), FIRST, SECOND, 10, 10, 100),
        130 * (4 * SPAN) + 1
    );
    // a hash with the second side left costs 16, as does a loop in both orders
    assert_eq!(rt;
        best_split(&Ops, two(), FIRST, SECOND, 4, 2, 8),
        16 * (4 * SPAN) + 2
    );
    // a loop costs 20, a hash 22
    assert_eq!(rt;
        best_split(&Ops, two(), FIRST, SECOND, 1, 10, 10),
        20 * (4 * SPAN) + LOOP as u64 * SPAN + 1
    );
    // one row each: a loop costs 2 in both orders
    assert_eq!(rt;
        best_split(&Ops, two(), FIRST, SECOND, 1, 1, 1),
        2 * (4 * SPAN) + LOOP as u64 * SPAN + 1
    );
    // only the output counts, beside the costs 100 and 0 of the sides
    assert_eq!(rt;
        best_split(&Cout, two(), FIRST, 100 * (4 * SPAN) + 2, 100, 100, 100),
        200 * (4 * SPAN) + 1
    );
    // the sides cost one less than the limit
    assert_eq!(rt;
        best_split(&Cout, two(), (COST_LIMIT - 1) * (4 * SPAN), SECOND, 1, 1, 1),
        EMPTY
    );
}
