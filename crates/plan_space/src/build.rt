//! The plan of a class, read from words.
ghost use Rattle.std.specs.Prelude.{◌≡◌, ◌^◌, length, IfOk};
ghost use Rattle.dpe_base.specs.Queries.{relations};
ghost use Rattle.join_graph.specs.Graphs.{Connected, graph_of};
ghost use Rattle.join_tree.specs.TreeOf.{tree_of};
ghost use Rattle.plan_space.specs.Classes.{PlanIn};
ghost use Rattle.plan_space.specs.LeastWords.{HasLeastWords};

use crate::class::Class;
use cost_model::CostModel;
use dpe_base::{Query, RelSet};
use join_tree::{Tree, tree_of_words};
use std::alloc::{AllocError, Global};

/// The plan of the relations of `s` in the class: the word of each set, which is the least of the class, names the operator and
/// the left side of its root.
///
/// Fails when memory runs out.
pub fn build_class<M: CostModel>(
    alloc: Global,
    query: &Query,
    model: &M,
    class: Class,
    words: &[u64],
    s: RelSet,
) -> Result<Tree, AllocError>
    requires sized { length words.now ≡ 2 ^ relations query.now }
    requires connected { Connected (graph_of query.now) s }
    requires least { HasLeastWords class M.KIND query.now words.now s }
    ensures { IfOk result (λ t. PlanIn class M.KIND query.now s (tree_of t)) }
{
    query.recall();
    let tree = tree_of_words(alloc, words, s)?;
    Ok(tree)
}
