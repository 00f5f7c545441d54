ghost use Rattle.std.specs.Prelude.{◌≡◌, ◌≤◌, ◌<◌, MatchOption};
ghost use Rattle.cost_model.specs.Words.{word, word_cost, word_op, word_left};

use crate::model::LEAF;
use dpe_base::{COST_LIMIT, EMPTY, RelSet, SPAN};
use std::marker::Model;

/// The memo word of a tree: its cost, the operator of its root and the set of its left side in one number,
/// which contracts see as that number. A leaf costs nothing, has [`LEAF`] for its operator and its own set.
/// Words over one set are ordered by cost, then by operator, then by left set.
#[derive(Clone, Copy, PartialEq, Eq, Debug)]
pub struct Word {
    bits: u64,
}

impl Model for Word {
    ghost use Rattle.std.specs.Prelude.{ℕ, ◌<◌, ◌^◌};

    ghost Value = { ℕ };

    ghost view = { λ w. w.bits };

    ghost invariant = { λ w. w.bits < 2 ^ 64 };

    ghost inverse = { λ n. record { bits = n } };
}

// The word of these three, or `EMPTY`.
#[tactic(auto, unfolding(crate::specs::Words::word))]
pub(crate) fn word_of(cost: u64, op: u8, left: u32) -> u64
    requires op { op ≤ LEAF }
    requires left { left < SPAN }
    ensures { result ≡ word cost op left }
{
    if cost < COST_LIMIT {
        cost * (4 * SPAN) + op as u64 * SPAN + left as u64
    } else {
        EMPTY
    }
}

impl Word {
    /// The word of a tree that costs this much. `None` exactly where the cost has no word.
    pub fn of(cost: u128, op: u8, left: RelSet) -> Option<Word>
        requires op { op ≤ LEAF }
        requires left { left < SPAN }
        ensures { MatchOption result (COST_LIMIT ≤ cost) (λ w. (cost < COST_LIMIT) × (w ≡ word cost op left)) }
    {
        if cost < COST_LIMIT as u128 {
            Some(Word {
                bits: word_of(cost as u64, op, left.bits()),
            })
        } else {
            None
        }
    }

    /// The word with these bits.
    pub fn of_bits(w: u64) -> Word
        ensures { result ≡ w }
    {
        Word { bits: w }
    }

    /// The word as a number.
    pub fn bits(self) -> u64
        ensures { result ≡ self }
    {
        self.bits
    }

    /// The cost of the tree.
    pub fn cost(self) -> u64
        ensures { result ≡ word_cost self }
    {
        self.bits / (4 * SPAN)
    }

    /// The operator of the tree's root, and [`LEAF`] for a leaf.
    pub fn op(self) -> u8
        ensures { result ≡ word_op self }
    {
        (self.bits / SPAN % 4) as u8
    }

    /// The set of the left side of the tree's root, and the set of a leaf.
    pub fn left(self) -> RelSet
        ensures { result ≡ word_left self }
    {
        RelSet::of_bits((self.bits % SPAN) as u32)
    }
}
