//! What holds of the list of the connected sets, for every graph.
ghost use Rattle.std.specs.Prelude.{◌≢◌, ◌↔◌, ℕ, Contains};
ghost use Rattle.std.specs.List.{AllPairs};
ghost use Rattle.dpe_base.specs.Sets.{Within};
ghost use Rattle.join_graph.specs.Graphs.{JoinGraph, Connected, IsGraph};
ghost use Rattle.connected_sets.specs.Lists.{sets_by_least};

/// The list has each connected set once, and no other set (EnumerateCsg of Moerkotte and Neumann, VLDB 2006).
pub fn each_connected_set_once()
    ensures members { (g : JoinGraph) (s : ℕ) → IsGraph g → Contains (sets_by_least g) s ↔ Connected g s }
    ensures once { (g : JoinGraph) → IsGraph g → AllPairs (λ s t. s ≢ t) (sets_by_least g) }
{}

/// No set of the list stands after a set that it lies within.
pub fn subsets_come_first()
    ensures { (g : JoinGraph) → IsGraph g → AllPairs (λ s t. Within t s → ⊥) (sets_by_least g) }
{}
