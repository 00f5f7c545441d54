//! What holds of the groups and of the runs of every list of pairs.
ghost use Rattle.std.specs.Prelude.{◌≡◌, ◌≤◌, ◌<◌, ℕ, List, All, length, flat_map, sum_by};
ghost use Rattle.dpe_base.specs.declared.pair.Pair.{Pair};
ghost use Rattle.reorder_buffer.specs.Buffers.{AreSmall};
ghost use Rattle.reorder_buffer.specs.Groups.{groups, runs};

/// Each pair stands in the group of its union's size, and in no other: however pairs are weighed, the groups weigh together
/// what the pairs weigh.
pub fn groups_lose_and_double_nothing()
    ensures { (pairs : List Pair) (weight : Pair → ℕ) → AreSmall pairs
        → sum_by (λ g. sum_by weight g) (groups pairs) ≡ sum_by weight pairs }
{}

/// The runs of a list are the list, cut into pieces of at most `b` pairs, none of them empty.
pub fn runs_are_the_list()
    ensures { (b : ℕ) (pairs : List Pair) → 1 ≤ b → (flat_map (λ run. run) (runs b pairs) ≡ pairs)
        × All (λ run. (0 < length run) × (length run ≤ b)) (runs b pairs) }
{}
