//! What holds between any two steps on the shared memo.
ghost use Rattle.std.specs.Prelude.{◌≡◌, ℕ};
ghost use mathlib.Core.Option.{some};
ghost use lib.ListN.{get_elem?};
ghost use Rattle.memo_table.specs.declared.view.View.{View};
ghost use Rattle.memo_table.specs.declared.view.TreeSpace.{TreeSpace};
ghost use Rattle.memo_table.specs.Rule.{TableState, Kept, memo_word};
ghost use Rattle.memo_table.specs.Seats.{Settled};

/// The memo's word of a set that a seat knows as settled is its least word, and stays it.
pub fn settled_words_are_final()
    ensures { (model : ℕ) (space : TreeSpace) (t : TableState) (seat s : ℕ) (v : View)
        → Kept model space t → get_elem? t.views seat ≡ some v → (x : Settled model v s) → memo_word t.words s ≡ x.word }
{}
