ghost use Rattle.std.specs.Prelude.{◌≡◌};
ghost use Rattle.join_graph.specs.Graphs.{Connected, IsNeighbours};
ghost use Rattle.dpe_base.specs.Sets.{Within, full, least};
ghost use Rattle.enum_dpsize.specs.Dpsize.{is_joinable, pair_by_least};
ghost use Rattle.enum_dpsize.specs.DpsizeLeft.{IsOf};

use dpe_base::{Pair, RelSet};
use join_graph::Graph;

/// A set with its neighbours, which are gathered once for all the sets that it is paired with.
#[derive(Clone, Copy, Debug)]
pub struct Neighbourhood {
    /// The set.
    pub set: RelSet,
    /// Its neighbours.
    pub around: RelSet,
}

impl Neighbourhood {
    /// That of a set.
    pub fn of(graph: &Graph, set: RelSet) -> Neighbourhood
        requires { Within set (full graph.now.n) }
        ensures { IsOf graph.now set result }
    {
        Neighbourhood {
            set,
            around: graph.neighbours(set),
        }
    }

    /// That of a connected set, where this one may be of another set.
    #[inline]
    pub fn turned_to(self, graph: &Graph, x: RelSet) -> Neighbourhood
        requires known { IsOf graph.now self.set self }
        requires connected { Connected graph.now x }
        ensures { IsOf graph.now x result }
    {
        if self.set.bits() == x.bits() {
            return self;
        }
        Neighbourhood::of(graph, x)
    }
}

/// Whether `y` is disjoint from `x` and joined to it, where `around` are the neighbours of `x`.
pub fn is_joinable(graph: &Graph, x: RelSet, around: RelSet, y: RelSet) -> bool
    requires { IsNeighbours graph.now x around }
    ensures { result ≡ is_joinable graph.now x y }
{
    graph.recall();
    if x.meets(y) {
        return false;
    }
    around.meets(y)
}

/// The least relation of a connected set.
pub fn least(graph: &Graph, x: RelSet) -> u8
    requires { Connected graph.now x }
    ensures { result ≡ least x }
{
    graph.recall();
    match x.least() {
        None => 0,
        Some(r) => r,
    }
}

/// The pair of two connected sets.
#[tactic(auto, unfolding(crate::specs::Dpsize::pair_by_least))]
pub fn pair_by_least(graph: &Graph, x: RelSet, y: RelSet) -> Pair
    requires x { Connected graph.now x }
    requires y { Connected graph.now y }
    ensures { result ≡ pair_by_least x y }
{
    if least(graph, x) < least(graph, y) {
        Pair { a: x, b: y }
    } else {
        Pair { a: y, b: x }
    }
}
