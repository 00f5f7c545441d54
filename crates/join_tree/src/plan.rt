//! The plan of a set of relations, read from words.
ghost use Rattle.std.specs.Prelude.{◌≡◌, ◌≢◌, ◌<◌, ◌^◌, length, IfOk, MatchOption};
ghost use Rattle.dpe_base.specs.Queries.{relations};
ghost use Rattle.dpe_base.specs.Sets.{size, single};
ghost use Rattle.join_graph.specs.Graphs.{Connected, graph_of};
ghost use Rattle.join_tree.specs.Trees.{JoinTree, Plan, join};
ghost use Rattle.join_tree.specs.TreeOf.{tree_of};
ghost use Rattle.join_tree.specs.Words.{HasBestWords, IsNamed};

use crate::tree::Tree;
use cost_model::{CostModel, Word};
use dpe_base::{Query, RelSet};
use std::alloc::{AllocError, Global};

// The only relation of the set, where it has one.
#[tactic(auto, using(crate::proofs::NamedTrees::least_alone, crate::proofs::NamedTrees::none_alone))]
fn alone(s: RelSet) -> Option<u8>
    ensures { MatchOption result (size s ≢ 1) (λ r. s ≡ single r) }
{
    if s.len() == 1 { s.least() } else { None }
}

fn joined(alloc: Global, op: u8, left: Tree, right: Tree) -> Result<Tree, AllocError>
    ensures { IfOk result (λ t. tree_of t ≡ join op (tree_of left) (tree_of right)) }
{
    Ok(Tree::Join {
        op,
        left: Box::new(alloc, left)?,
        right: Box::new(alloc, right)?,
    })
}

/// The one tree over `s` that the words name: at each set of several relations the word has the operator and the left side of the
/// tree's join over that set.
///
/// Fails where there is no memory.
pub fn tree_of_words(alloc: Global, words: &[u64], s: RelSet) -> Result<Tree, AllocError>
    requires known { s < length words.now }
    requires some { (t : JoinTree) × IsNamed words.now s t }
    ensures { IfOk result (λ t. (u : JoinTree) → IsNamed words.now s u → u ≡ tree_of t) }
{
    if let Some(r) = alone(s) {
        return Ok(Tree::Leaf(r));
    }
    let word = Word::of_bits(words[s.bits() as usize]);
    let left = word.left();
    let right = s.minus(left);
    let first = tree_of_words(alloc, words, left)?;
    let second = tree_of_words(alloc, words, right)?;
    let tree = joined(alloc, word.op(), first, second)?;
    Ok(tree)
}

/// The plan of the relations of `s`: the word of each set names the operator and the left side of its root.
///
/// Fails where there is no memory.
pub fn build<M: CostModel>(
    alloc: Global,
    query: &Query,
    model: &M,
    words: &[u64],
    s: RelSet,
) -> Result<Tree, AllocError>
    requires sized { length words.now ≡ 2 ^ relations query.now }
    requires connected { Connected (graph_of query.now) s }
    requires best { HasBestWords M.KIND query.now words.now s }
    ensures { IfOk result (λ t. Plan M.KIND query.now s (tree_of t)) }
{
    query.recall();
    let tree = tree_of_words(alloc, words, s)?;
    Ok(tree)
}
