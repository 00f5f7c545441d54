//! What holds of every part, and of the probed places of every list of sets.
ghost use Rattle.std.specs.Prelude.{◌≡◌, ◌↔◌, ◌<◌, ℕ, List, IsTrue, length, slice_index};
ghost use Rattle.skip_vector.specs.Skips.{IsPart, IsProbed, is_probed, first_relations};

/// A place is probed exactly where its entry is disjoint, or is the first of the run with its blocking prefix.
pub fn probed_places()
    ensures { (part : List ℕ) (from x n : ℕ) → IsTrue (is_probed part from x n) ↔ IsProbed part from x n }
{}

/// In a part the sets with one prefix stand together, so that one skip leaps over all of them.
pub fn prefixes_stand_together()
    ensures { (part : List ℕ) (p i j k : ℕ) → IsPart part → i < j → j < k → k < length part
        → first_relations p (slice_index part i) ≡ first_relations p (slice_index part k)
        → first_relations p (slice_index part j) ≡ first_relations p (slice_index part i) }
{}
