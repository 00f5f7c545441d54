//! A tree with the numbers that are printed of each of its nodes, each computed once.
ghost use Rattle.std.specs.Prelude.{◌≡◌, ◌<◌, ◌+◌, IfOk};
ghost use Rattle.dpe_base.specs.Queries.{IsQuery, relations};
ghost use Rattle.dpe_base.specs.Sets.{single, union, full};
ghost use Rattle.join_graph.specs.Graphs.{Connected, graph_of};
ghost use Rattle.card_scaled.specs.Cards.{rows};
ghost use Rattle.cost_model.specs.Costs.{operators, join_cost};
ghost use Rattle.join_tree.specs.Trees.{Legal, cost};
ghost use Rattle.join_tree.specs.TreeOf.{tree_of};
ghost use Rattle.plan_report.specs.Measures.{join_node, measured, measured_of, own_numbers, root_numbers, shape};

use card_scaled::rows_once;
use cost_model::CostModel;
use dpe_base::{COST_LIMIT, Query, RelSet};
use join_tree::Tree;
use std::alloc::{AllocError, Global};

/// What is printed of a node.
#[derive(Clone, Copy, Debug)]
pub struct Numbers {
    /// The relations below the node.
    pub set: RelSet,
    /// Their rows.
    pub rows: u64,
    /// The cost of all joins at and below the node.
    pub cost: u64,
}

/// A join tree with the numbers of each of its nodes.
#[derive(Debug, Drop)]
pub enum Measured {
    /// A relation.
    Scan {
        /// The relation's number.
        relation: u8,
        /// The relation, its rows, and no cost.
        numbers: Numbers,
    },
    /// A join by an operator of the cost model.
    Join {
        /// The operator's number in the model.
        op: u8,
        /// The numbers of the join.
        numbers: Numbers,
        /// The tree on the left.
        left: Box<Measured>,
        /// The tree on the right.
        right: Box<Measured>,
    },
}

fn of_scan(query: &Query, r: u8) -> Numbers
    requires { r < relations query.now }
    ensures { result ≡ record { set = single r; rows = rows query.now (single r); cost = 0 } }
{
    let _n = query.n();
    let set = RelSet::single(r);
    Numbers {
        set,
        rows: rows_once(query, set),
        cost: 0,
    }
}

// The numbers of a join, from those of its sides.
fn of_join<M: CostModel>(query: &Query, model: &M, op: u8, left: Numbers, right: Numbers) -> Numbers
    requires op { op < operators M.KIND }
    requires left { Connected (graph_of query.now) left.set }
    requires right { Connected (graph_of query.now) right.set }
    requires left_rows { left.rows ≡ rows query.now left.set }
    requires right_rows { right.rows ≡ rows query.now right.set }
    requires word { left.cost + right.cost + join_cost M.KIND op left.rows right.rows (rows query.now (union left.set right.set)) < COST_LIMIT }
    ensures { result ≡ record {
      set = union left.set right.set;
      rows = rows query.now (union left.set right.set);
      cost = left.cost + right.cost + join_cost M.KIND op left.rows right.rows (rows query.now (union left.set right.set));
    } }
{
    let set = left.set.union(right.set);
    let rows = rows_once(query, set);
    let join = model.cost(op, left.rows, right.rows, rows) as u64;
    Numbers {
        set,
        rows,
        cost: left.cost + right.cost + join,
    }
}

impl Measured {
    /// The numbers of the root.
    pub fn numbers(&self) -> Numbers
        ensures { result ≡ root_numbers (measured_of self.now) }
    {
        match self {
            Measured::Scan { numbers, .. } => *numbers,
            Measured::Join { numbers, .. } => *numbers,
        }
    }
}

fn joined(
    alloc: Global,
    op: u8,
    numbers: Numbers,
    left: Measured,
    right: Measured,
) -> Result<Measured, AllocError>
    ensures { IfOk result (λ m. measured_of m ≡ join_node op numbers (measured_of left) (measured_of right)) }
{
    Ok(Measured::Join {
        op,
        numbers,
        left: Box::new(alloc, left)?,
        right: Box::new(alloc, right)?,
    })
}

/// The tree with the numbers of each of its nodes.
///
/// Fails where there is no memory.
#[tactic(auto, using(crate::proofs::Measures::root_measured, crate::proofs::Measures::shape_measured))]
pub fn measure<M: CostModel>(
    alloc: Global,
    query: &Query,
    model: &M,
    tree: &Tree,
) -> Result<Measured, AllocError>
    requires legal { Legal M.KIND (graph_of query.now) (tree_of tree.now) }
    requires word { cost M.KIND query.now (tree_of tree.now) < COST_LIMIT }
    ensures value { IfOk result (λ m. measured_of m ≡ measured M.KIND query.now (tree_of tree.now)) }
    ensures root { IfOk result (λ m. root_numbers (measured_of m) ≡ own_numbers M.KIND query.now (tree_of tree.now)) }
    ensures shape { IfOk result (λ m. shape (measured_of m) ≡ tree_of tree.now) }
{
    match tree {
        Tree::Leaf(r) => Ok(Measured::Scan {
            relation: *r,
            numbers: of_scan(query, *r),
        }),
        Tree::Join { op, left, right } => {
            let left = measure(alloc, query, model, left)?;
            let right = measure(alloc, query, model, right)?;
            let numbers = of_join(query, model, *op, left.numbers(), right.numbers());
            joined(alloc, *op, numbers, left, right)
        }
    }
}

/// The rows of all relations, which are those of the tree where it has them all.
pub fn rows_of_all(query: &Query, tree: Numbers) -> u64
    requires { tree.rows ≡ rows query.now tree.set }
    ensures value { result ≡ rows query.now (full (relations query.now)) }
    ensures valid { IsQuery query.now }
{
    let all = RelSet::full(query.n());
    if tree.set.bits() == all.bits() {
        tree.rows
    } else {
        rows_once(query, all)
    }
}
