//! What holds of costs and memo words.
ghost use Rattle.std.specs.Prelude.{◌≡◌, ◌≢◌, ℕ, ◌*◌, ◌^◌, ◌<◌, ◌≤◌, ◌↔◌};
ghost use Rattle.cost_model.specs.Costs.{join_cost};
ghost use Rattle.cost_model.specs.Words.{word, word_cost, word_op, word_left, least_split_word};
ghost use Rattle.cost_model.specs.Laws.{ComesBefore, IsLeastSplit};

use crate::model::{COUT, CostModel, Cout, HASH, LEAF, OPS, Ops};
use dpe_base::{COST_LIMIT, EMPTY, ROW_CAP, SPAN};

/// The models' numbers: the costs of `Ops` stand under [`OPS`] and those of `Cout` under [`COUT`].
pub fn models_have_their_numbers()
    ensures ops { ⟦<Ops as CostModel>⟧.KIND ≡ OPS }
    ensures cout { ⟦<Cout as CostModel>⟧.KIND ≡ COUT }
{}

/// Every operator costs less than 2^90, and the first one at most four times the greatest number of rows.
pub fn costs_are_bounded()
    ensures { (model op l r o : ℕ) → l ≤ ROW_CAP → r ≤ ROW_CAP → o ≤ ROW_CAP
        → (join_cost model op l r o < 2 ^ 90) × (join_cost model HASH l r o ≤ 4 * ROW_CAP) }
{}

/// The cost, the operator and the left set are read back from a word.
pub fn words_hold_their_parts()
    ensures { (cost op left : ℕ) → cost < COST_LIMIT → op ≤ LEAF → left < SPAN
        → (word_cost (word cost op left) ≡ cost) × (word_op (word cost op left) ≡ op) × (word_left (word cost op left) ≡ left) }
{}

/// Words are ordered by cost, then by operator, then by left set.
pub fn words_are_ordered()
    ensures { (cost op left cost' op' left' : ℕ) → cost < COST_LIMIT → op ≤ LEAF → left < SPAN → cost' < COST_LIMIT → op' ≤ LEAF → left' < SPAN
        → (word cost op left < word cost' op' left') ↔ ComesBefore cost op left cost' op' left' }
{}

/// A join has `EMPTY` exactly where its cost has no word, and a leaf never.
pub fn empty_is_no_word()
    ensures { ((cost op left : ℕ) → op < LEAF → left < SPAN → (word cost op left ≡ EMPTY) ↔ (COST_LIMIT ≤ cost))
        × ((set : ℕ) → set < SPAN → word 0 LEAF set ≢ EMPTY) }
{}

/// What `best_split` answers is at most the word of each order and operator, and is one of them or `EMPTY`.
/// It is `EMPTY` exactly where none of them has a word.
pub fn split_words_are_least()
    ensures { (model a b wa wb la lb o : ℕ) → a < SPAN → b < SPAN → IsLeastSplit model a b wa wb la lb o (least_split_word model a b wa wb la lb o) }
{}
