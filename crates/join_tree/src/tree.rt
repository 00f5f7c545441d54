ghost use Rattle.std.specs.Prelude.{◌≡◌, ◌<◌, ◌≤◌, ◌^◌, ◌↔◌, IsTrue, MatchOption};
ghost use Rattle.dpe_base.specs.Sets.{union};
ghost use Rattle.join_graph.specs.Graphs.{Connected, graph_of};
ghost use Rattle.card_scaled.specs.Cards.{rows};
ghost use Rattle.cost_model.specs.Costs.{operators, join_cost};
ghost use Rattle.join_tree.specs.Trees.{LeavesBelow, set_of, Legal, cost, root_word};
ghost use Rattle.join_tree.specs.TreeOf.{tree_of};

use card_scaled::rows_once;
use cost_model::{CostModel, LEAF, Word};
use dpe_base::{COST_LIMIT, Query, RelSet};
use join_graph::Graph;

/// A join tree.
#[derive(Debug, Drop)]
pub enum Tree {
    /// A relation.
    Leaf(u8),
    /// A join by an operator of the cost model.
    Join {
        /// The operator's number in the model.
        op: u8,
        /// The tree whose rows the operator takes on the left.
        left: Box<Tree>,
        /// The tree on the right.
        right: Box<Tree>,
    },
}

// What the operator costs on two connected sets.
#[tactic(auto, using(card_scaled::proofs::CardLaws::rows_bounds))]
fn operator_cost<M: CostModel>(
    model: &M,
    query: &Query,
    op: u8,
    left: RelSet,
    right: RelSet,
) -> u128
    requires op { op < operators M.KIND }
    requires left { Connected (graph_of query.now) left }
    requires right { Connected (graph_of query.now) right }
    ensures value { result ≡
        join_cost M.KIND op (rows query.now left) (rows query.now right)
        (rows query.now (union left right)) }
    ensures small { result < 2 ^ 90 }
{
    let (l, r) = (rows_once(query, left), rows_once(query, right));
    model.cost(op, l, r, rows_once(query, left.union(right)))
}

impl Tree {
    /// The set of the leaves.
    pub fn set(&self) -> RelSet
        requires { LeavesBelow 32 (tree_of self.now) }
        ensures { result ≡ set_of (tree_of self.now) }
    {
        match self {
            Tree::Leaf(r) => RelSet::single(*r),
            Tree::Join { op: _, left, right } => left.set().union(right.set()),
        }
    }

    /// Whether each leaf is a relation of the graph, and each join has an operator of the model and two
    /// sides without a common leaf that a predicate joins.
    pub fn legal<M: CostModel>(&self, model: &M, graph: &Graph) -> bool
        ensures { IsTrue result ↔ Legal M.KIND graph.now (tree_of self.now) }
    {
        let n = graph.n();
        match self {
            Tree::Leaf(r) => *r < n,
            Tree::Join { op, left, right } => {
                if *op >= M::OPS || !left.legal(model, graph) || !right.legal(model, graph) {
                    return false;
                }
                let (l, r) = (left.set(), right.set());
                !l.meets(r) && graph.joined(l, r)
            }
        }
    }

    /// The cost of all joins together.
    pub fn cost<M: CostModel>(&self, model: &M, query: &Query) -> u128
        requires { Legal M.KIND (graph_of query.now) (tree_of self.now) }
        ensures { result ≡ cost M.KIND query.now (tree_of self.now) }
    {
        query.recall();
        match self {
            Tree::Leaf(_) => 0,
            Tree::Join { op, left, right } => {
                let (l, r) = (left.set(), right.set());
                let join = operator_cost(model, query, *op, l, r);
                left.cost(model, query) + right.cost(model, query) + join
            }
        }
    }

    /// The word of the tree: its cost, the operator of its root and the left set. `None` exactly where
    /// the cost is `COST_LIMIT` or more.
    pub fn root_word<M: CostModel>(&self, model: &M, query: &Query) -> Option<Word>
        requires { Legal M.KIND (graph_of query.now) (tree_of self.now) }
        ensures { let tree = tree_of self.now in
            let total = cost M.KIND query.now tree in
            MatchOption result
            (COST_LIMIT ≤ total)
            (λ w. (total < COST_LIMIT) × (w ≡ root_word M.KIND query.now tree)) }
    {
        query.recall();
        let cost = self.cost(model, query);
        match self {
            Tree::Leaf(r) => Word::of(cost, LEAF, RelSet::single(*r)),
            Tree::Join { op, left, right: _ } => Word::of(cost, *op, left.set()),
        }
    }
}
