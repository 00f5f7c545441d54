//! What holds of thin lists, and of the plans of a class.
ghost use Rattle.std.specs.Prelude.{◌≡◌, ℕ, ◌≤◌, ◌⊎◌, ◌↔◌, List, Contains};
ghost use Rattle.dpe_base.specs.declared.pair.Pair.{Pair};
ghost use Rattle.dpe_base.specs.Queries.{JoinQuery, IsQuery};
ghost use Rattle.dpe_base.specs.Sets.{size};
ghost use Rattle.join_graph.specs.Graphs.{JoinGraph, IsGraph, Connected, Pairs, graph_of};
ghost use Rattle.join_graph.specs.PairLists.{HasAllPairs};
ghost use Rattle.join_tree.specs.Trees.{JoinTree, Trees, Least, Best, Builds};
ghost use Rattle.pair_stream.specs.Orders.{Ordered, Complete};
ghost use Rattle.plan_space.specs.declared.class.Class.{Class};
ghost use Rattle.plan_space.specs.declared.class.Class.TheVariants.{Narrow, ZigZag, LeftDeep};
ghost use Rattle.plan_space.specs.Classes.{InClass, LeastIn, PlanIn};
ghost use Rattle.plan_space.specs.Thin.{thin, HasThinPairs};

/// The thin pairs of a list of all pairs are those that have a side of so few relations.
pub fn thin_lists_have_the_thin_pairs()
    ensures { (g : JoinGraph) (width : ℕ) (pairs : List Pair) (p : Pair) → HasAllPairs g pairs
        → Contains (thin width pairs) p ↔ (Pairs g p × ((size p.a ≤ width) ⊎ (size p.b ≤ width))) }
{}

/// The thin pairs of a list that is complete and ordered are ordered, and build the sides of each.
pub fn thin_lists_are_ordered()
    ensures { (g : JoinGraph) (width : ℕ) (pairs : List Pair) → IsGraph g → 1 ≤ width → Complete g pairs → Ordered pairs
        → Ordered (thin width pairs) × Builds g (thin width pairs) }
{}

/// The thin pairs of a complete list make the trees of a class.
pub fn thin_lists_make_the_classes()
    ensures { (model : ℕ) (q : JoinQuery) (pairs : List Pair) (t : JoinTree) → IsQuery q → Complete (graph_of q) pairs
        → (Trees model q (thin 2 pairs) t ↔ InClass Narrow model (graph_of q) t)
        × (Trees model q (thin 1 pairs) t ↔ InClass ZigZag model (graph_of q) t) }
{}

/// The least words over the thin pairs of a complete list are those of the class.
pub fn thin_lists_give_least_words()
    ensures { (model : ℕ) (q : JoinQuery) (pairs : List Pair) (s w : ℕ) → IsQuery q → Complete (graph_of q) pairs
        → (Least model q (thin 2 pairs) s w ↔ LeastIn Narrow model q s w)
        × (Least model q (thin 1 pairs) s w ↔ LeastIn ZigZag model q s w) }
{}

/// A list of the thin pairs, whatever made it, builds the sides of each.
pub fn thin_pairs_build_their_sides()
    ensures { (g : JoinGraph) (width : ℕ) (pairs : List Pair) → IsGraph g → 1 ≤ width
        → HasThinPairs g width pairs → Builds g pairs }
{}

/// A list of the thin pairs, whatever made it, makes the trees of a class.
pub fn thin_pairs_make_the_classes()
    ensures { (model : ℕ) (q : JoinQuery) (pairs : List Pair) (t : JoinTree) → IsQuery q
        → (HasThinPairs (graph_of q) 2 pairs → Trees model q pairs t ↔ InClass Narrow model (graph_of q) t)
        × (HasThinPairs (graph_of q) 1 pairs → Trees model q pairs t ↔ InClass ZigZag model (graph_of q) t) }
{}

/// The least words over a list of the thin pairs, whatever made it, are those of the class.
pub fn thin_pairs_give_least_words()
    ensures { (model : ℕ) (q : JoinQuery) (pairs : List Pair) (s w : ℕ) → IsQuery q
        → (HasThinPairs (graph_of q) 2 pairs → Least model q pairs s w ↔ LeastIn Narrow model q s w)
        × (HasThinPairs (graph_of q) 1 pairs → Least model q pairs s w ↔ LeastIn ZigZag model q s w) }
{}

/// The connected sets are those that have a least word in a class, and a set has at most one.
pub fn connected_sets_have_least_words_in()
    ensures { (c : Class) (model : ℕ) (q : JoinQuery) (s : ℕ) → IsQuery q
        → (Connected (graph_of q) s ↔ ((w : ℕ) × LeastIn c model q s w))
        × ((v w : ℕ) → LeastIn c model q s v → LeastIn c model q s w → v ≡ w) }
{}

/// The connected sets are those that have a plan in a class, and a set has at most one.
pub fn connected_sets_have_one_plan_in()
    ensures { (c : Class) (model : ℕ) (q : JoinQuery) (s : ℕ) → IsQuery q
        → (Connected (graph_of q) s ↔ ((t : JoinTree) × PlanIn c model q s t))
        × ((t u : JoinTree) → PlanIn c model q s t → PlanIn c model q s u → t ≡ u) }
{}

/// A left-deep tree is a zig-zag tree, and a zig-zag tree is a narrow one.
pub fn classes_are_nested()
    ensures { (model : ℕ) (g : JoinGraph) (t : JoinTree)
        → (InClass LeftDeep model g t → InClass ZigZag model g t) × (InClass ZigZag model g t → InClass Narrow model g t) }
{}

/// The least words of the classes over a set, the widest class first, don't fall.
pub fn narrower_classes_cost_no_less()
    ensures { (model : ℕ) (q : JoinQuery) (s best narrow zig_zag left_deep : ℕ)
        → Best model q s best → LeastIn Narrow model q s narrow
        → LeastIn ZigZag model q s zig_zag → LeastIn LeftDeep model q s left_deep
        → (best ≤ narrow) × (narrow ≤ zig_zag) × (zig_zag ≤ left_deep) }
{}
