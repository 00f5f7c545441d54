//! What is offered to a new memo before its workers begin.
ghost use Rattle.std.specs.Prelude.{◌≡◌, ◌^◌, ◌<◌, ◌≤◌, ℕ, length, slice_index_or};
ghost use Rattle.dpe_base.specs.Queries.{relations};
ghost use Rattle.dpe_base.specs.Sets.{Has};
ghost use Rattle.join_tree.specs.Trees.{IsEmptyOrMade};
ghost use Rattle.reopt.specs.Offers.{HasOffered};

use cost_model::CostModel;
use dpe_base::{N_MAX, RelSet};
use dpe_engine::SeededEngine;

/// Offers the words of the sets without relation `r`.
pub(crate) fn offer_others<M: CostModel>(engine: &mut SeededEngine<M>, words: &[u64], n: u8, r: u8)
    requires n { (n ≡ relations engine.old.plan.query) × (n ≤ N_MAX) }
    requires size { length words.now ≡ 2 ^ n }
    requires words { (s : ℕ) → s < 2 ^ n → (Has s r → ⊥) → IsEmptyOrMade M.KIND engine.old.plan.query engine.old.plan.pairs s (slice_index_or words.now s 0) }
    ensures { HasOffered r words.now engine.old engine.new (2 ^ n) }
{
    let end = RelSet::full(n).bits() + 1;
    'sets: for bits in 1..end {
        let set = RelSet::of_bits(bits);
        if !set.has(r) {
            engine.offer(set, words[bits as usize]);
        }
    }
}
