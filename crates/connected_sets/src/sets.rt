ghost use Rattle.std.specs.Prelude.{◌≡◌, ◌≤◌, ◌<◌, length, IfSome, MatchOption};
ghost use Rattle.join_graph.specs.Graphs.{Connected};
ghost use Rattle.pair_stream.specs.Streams.{Takes};
ghost use Rattle.connected_sets.specs.Lists.{sets_by_least};
ghost use Rattle.connected_sets.specs.Left.{sets_left, SetsFit};
ghost use Rattle.connected_sets.specs.Greatest.{IsGreatest};

use crate::growth::Growth;
use dpe_base::RelSet;
use join_graph::Graph;

/// The connected sets of a graph: from each relation, the greatest first, those without a smaller one.
#[derive(Drop)]
pub struct ConnectedSets {
    /// Those from the relation at hand.
    pub growth: Growth,
    /// The relations below it are still to come.
    pub relations: u8,
}

impl ConnectedSets {
    /// All connected sets of the graph are left.
    pub fn over(graph: &Graph) -> ConnectedSets
        ensures left { sets_left graph.now result ≡ sets_by_least graph.now }
        ensures fits { SetsFit graph.now result }
    {
        ConnectedSets {
            growth: Growth::spent(graph),
            relations: graph.n(),
        }
    }

    /// The next set.
    pub fn next(&mut self, graph: &Graph) -> Option<RelSet>
        requires { SetsFit graph.now self.old }
        ensures set { Takes (sets_left graph.now self.old) (sets_left graph.now self.new) result }
        ensures fits { SetsFit graph.now self.new }
        ensures connected { IfSome result (λ a. Connected graph.now a) }
    {
        graph.recall();
        if let Some(s) = self.growth.next(graph) {
            return Some(s);
        }
        if self.relations == 0 {
            return None;
        }
        self.relations -= 1;
        let first = RelSet::single(self.relations);
        self.growth
            .begin(graph, first, RelSet::full(self.relations + 1));
        Some(first)
    }
}

/// How many connected sets the graph has, where they are at most `limit`. It looks at no more than one set beyond the limit.
pub fn count_up_to(graph: &Graph, limit: usize) -> Option<usize>
    ensures { MatchOption result (limit < length (sets_by_least graph.now)) (λ k. (k ≡ length (sets_by_least graph.now)) × (k ≤ limit)) }
{
    graph.recall();
    let mut sets = ConnectedSets::over(graph);
    let mut count = 0usize;
    'sets: while let Some(_) = sets.next(graph) {
        if count == limit {
            return None;
        }
        count += 1;
    }
    Some(count)
}

/// The greatest member, where there is one.
pub fn greatest(s: RelSet) -> Option<u8>
    ensures { MatchOption result (s ≡ 0) (λ r. IsGreatest s r) }
{
    if s.bits() == 0 {
        None
    } else {
        Some((31 - s.bits().leading_zeros()) as u8)
    }
}
