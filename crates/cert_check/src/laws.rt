//! What a certificate shows, and that every plan has one.
ghost use Rattle.std.specs.Prelude.{ℕ, List};
ghost use Rattle.dpe_base.specs.Queries.{JoinQuery, IsQuery, relations};
ghost use Rattle.dpe_base.specs.Sets.{full};
ghost use Rattle.cost_model.specs.Words.{word_cost};
ghost use Rattle.join_tree.specs.Trees.{JoinTree, Best, Plan, cost};
ghost use Rattle.cert_check.specs.Certificates.{IsCertificate, bound_of};
ghost use Rattle.cert_check.specs.Laws.{IsLowerBound, IsLeastCost, AreLeastCosts};

/// The tree of a certificate costs no more than any legal tree over all relations.
pub fn certificates_convince()
    ensures { (model : ℕ) (q : JoinQuery) (t : JoinTree) (bounds : List ℕ) → IsQuery q
        → IsCertificate model q t bounds → IsLowerBound model q (full (relations q)) (cost model q t) }
{}

/// Each bound of a certificate is at most the cost of every legal tree over its set.
pub fn bounds_are_lower_bounds()
    ensures { (model : ℕ) (q : JoinQuery) (t : JoinTree) (bounds : List ℕ) → IsQuery q
        → IsCertificate model q t bounds → (s : ℕ) → IsLowerBound model q s (bound_of bounds s) }
{}

/// The plan over all relations is a certificate together with the least costs of the connected sets.
pub fn plans_are_certified()
    ensures { (model : ℕ) (q : JoinQuery) (t : JoinTree) (bounds : List ℕ) → IsQuery q
        → AreLeastCosts model q bounds → Plan model q (full (relations q)) t → IsCertificate model q t bounds }
{}

/// The cost in the best word of a set is the least cost over it, so a memo has the bounds of a certificate.
pub fn best_words_have_least_costs()
    ensures { (model : ℕ) (q : JoinQuery) (s w : ℕ) → IsQuery q
        → Best model q s w → IsLeastCost model q s (word_cost w) }
{}
