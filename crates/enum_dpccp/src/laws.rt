//! What holds of the sides that DPccp combines, for every graph.
ghost use Rattle.std.specs.Prelude.{◌≢◌, ◌↔◌, ℕ, Contains};
ghost use Rattle.std.specs.List.{AllPairs};
ghost use Rattle.join_graph.specs.Graphs.{JoinGraph, Connected, IsGraph, Pairs, pair_of};
ghost use Rattle.enum_dpccp.specs.Dpccp.{first_sides, second_sides};

/// The first sides are the connected sets, each once (EnumerateCsg of Moerkotte and Neumann, VLDB 2006).
pub fn first_sides_are_the_connected_sets()
    ensures members { (g : JoinGraph) (a : ℕ) → IsGraph g → Contains (first_sides g) a ↔ Connected g a }
    ensures once { (g : JoinGraph) → IsGraph g → AllPairs (λ a b. a ≢ b) (first_sides g) }
{}

/// The second sides of a connected set are those that make a pair with it, each once (EnumerateCmp).
pub fn second_sides_make_pairs()
    ensures members { (g : JoinGraph) (a b : ℕ) → IsGraph g → Connected g a → Contains (second_sides g a) b ↔ Pairs g (pair_of a b) }
    ensures once { (g : JoinGraph) (a : ℕ) → IsGraph g → AllPairs (λ b c. b ≢ c) (second_sides g a) }
{}
