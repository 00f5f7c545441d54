ghost use Rattle.std.specs.Prelude.{◌≡◌, ◌≢◌, ◌≤◌, ◌<◌, ℕ, IsTrue, ◌↔◌, ◌⊎◌, min, ◌+◌, ◌*◌};
ghost use Rattle.cost_model.specs.Words.{word_cost, least_split_word};

use crate::model::{CostModel, HASH, JOIN, LOOP, OPS};
use crate::word::word_of;
use dpe_base::{COST_LIMIT, EMPTY, Pair, ROW_CAP, SPAN};

// The left side of a hash join: the one with fewer rows, or else the lesser set.
fn smaller_side(a: u32, b: u32, la: u64, lb: u64) -> u32
    ensures first { la < lb → result ≡ a }
    ensures second { lb < la → result ≡ b }
    ensures lesser { la ≡ lb → result ≡ min a b }
{
    if la < lb || (la == lb && a < b) { a } else { b }
}

// Whether a loop costs less than the hash with the smaller side left.
fn loop_wins(low: u64, high: u64) -> bool
    requires { (1 ≤ low) × (low ≤ high) }
    ensures { IsTrue result ↔ ((low ≡ 1) ⊎ ((low ≡ 2) × (high ≤ 3))) }
{
    low == 1 || (low == 2 && high <= 3)
}

// The least word over both orders and the operators of `Ops`. A merge is never the least: it costs
// more than a loop where a side has one row, and else more than a hash. A loop is the least only
// where it costs less than the hash with the smaller side left.
fn ops_split(a: u32, b: u32, sides: u64, la: u64, lb: u64, o: u64) -> u64
    requires sets { (a < SPAN) × (b < SPAN) }
    requires sides { sides < 2 * COST_LIMIT }
    requires left { (1 ≤ la) × (la ≤ ROW_CAP) }
    requires right { (1 ≤ lb) × (lb ≤ ROW_CAP) }
    requires out { (1 ≤ o) × (o ≤ ROW_CAP) }
    ensures { (wa wb : ℕ) → word_cost wa + word_cost wb ≡ sides → result ≡ least_split_word OPS a b wa wb la lb o }
{
    let (low, high) = (la.min(lb), la.max(lb));
    if loop_wins(low, high) {
        return word_of(sides + low * high + o, LOOP, a.min(b));
    }
    word_of(sides + 2 * low + high + o, HASH, smaller_side(a, b, la, lb))
}

/// The least word over both orders of the sides and all operators, or `EMPTY` where none has a word.
/// `wa` and `wb` are the words of the sides of `pair`, `la` and `lb` their rows, and `o` the rows of the join.
pub fn best_split<M: CostModel>(
    _model: &M,
    pair: Pair,
    wa: u64,
    wb: u64,
    la: u64,
    lb: u64,
    o: u64,
) -> u64
    requires words { (wa ≢ EMPTY) × (wb ≢ EMPTY) }
    requires sets { (pair.a < SPAN) × (pair.b < SPAN) }
    requires left { (1 ≤ la) × (la ≤ ROW_CAP) }
    requires right { (1 ≤ lb) × (lb ≤ ROW_CAP) }
    requires out { (1 ≤ o) × (o ≤ ROW_CAP) }
    ensures { result ≡ least_split_word M.KIND pair.a pair.b wa wb la lb o }
{
    let sides = wa / (4 * SPAN) + wb / (4 * SPAN);
    let (a, b) = (pair.a.bits(), pair.b.bits());
    if M::KIND == OPS {
        ops_split(a, b, sides, la, lb, o)
    } else {
        word_of(sides + o, JOIN, a.min(b))
    }
}
