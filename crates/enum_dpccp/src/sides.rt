ghost use Rattle.std.specs.Prelude.{◌≡◌, ◌↔◌, ◌<◌, [], IsTrue};
ghost use Rattle.dpe_base.specs.Sets.{Within, full};
ghost use Rattle.std.specs.Option.{IfNone};
ghost use Rattle.join_graph.specs.Graphs.{Connected};
ghost use Rattle.pair_stream.specs.Streams.{Takes};
ghost use Rattle.enum_dpccp.specs.Dpccp.{excluded, second_sides, second_sides_from};
ghost use Rattle.connected_sets.specs.Growth.{growth_left};
ghost use Rattle.enum_dpccp.specs.Sides.{second_left, SecondFits};
ghost use Rattle.enum_dpccp.specs.Touching.{StandsAlone, touching_sides};

use connected_sets::{Growth, greatest, neighbours_outside};
use dpe_base::RelSet;
use join_graph::Graph;

/// The second sides of one first side: from each start, the greatest first, those without a smaller one.
#[derive(Drop)]
pub struct SecondSides {
    /// Those from the start at hand.
    pub growth: Growth,
    /// What no second side has.
    pub excluded: RelSet,
    /// The starts that are still to come.
    pub starts: RelSet,
}

// What no second side of `a` has: the relations up to the least of `a`, and `a`.
fn excluded(graph: &Graph, a: RelSet) -> RelSet
    requires { Connected graph.now a }
    ensures { result ≡ excluded a }
{
    graph.recall();
    match a.least() {
        None => a,
        Some(r) => RelSet::full(r + 1).union(a),
    }
}

// Whether `r` is excluded, or all its neighbours are, where `x` is.
fn stands_alone(graph: &Graph, x: RelSet, r: u8) -> bool
    requires { r < graph.now.n }
    ensures { IsTrue result ↔ StandsAlone graph.now x r }
{
    graph.recall();
    x.has(r) || graph.neighbours(RelSet::single(r)).within(x)
}

// Starts of second sides of `a`, among which are all whose union with it has `r`, where `x` is excluded: no others where `r` stands
// alone.
fn touching_starts(graph: &Graph, a: RelSet, x: RelSet, r: u8) -> RelSet
    requires connected { Connected graph.now a }
    requires relation { r < graph.now.n }
    requires excluded { x ≡ excluded a }
    ensures sides { touching_sides r a (second_sides_from graph.now x result) ≡ touching_sides r a (second_sides graph.now a) }
    ensures known { Within result (full graph.now.n) }
{
    graph.recall();
    let starts = neighbours_outside(graph, a, x);
    if a.has(r) {
        return starts;
    }
    if !stands_alone(graph, x, r) {
        return starts;
    }
    if starts.has(r) {
        RelSet::single(r)
    } else {
        RelSet::empty()
    }
}

impl SecondSides {
    /// There are none.
    pub fn none(graph: &Graph) -> SecondSides
        ensures left { second_left graph.now result ≡ [] }
        ensures fits { SecondFits graph.now result }
    {
        SecondSides {
            growth: Growth::spent(graph),
            excluded: RelSet::empty(),
            starts: RelSet::empty(),
        }
    }

    /// Begins those of `a`, where none are left.
    pub fn begin(&mut self, graph: &Graph, a: RelSet)
        requires fits { SecondFits graph.now self.old }
        requires spent { growth_left graph.now self.old.growth ≡ [] }
        requires connected { Connected graph.now a }
        ensures left { second_left graph.now self.new ≡ second_sides graph.now a }
        ensures fits { SecondFits graph.now self.new }
    {
        graph.recall();
        self.excluded = excluded(graph, a);
        self.starts = neighbours_outside(graph, a, self.excluded);
    }

    /// Begins those of `a` whose union with it has `r`, where none are left. Others may be among them.
    pub fn begin_touching(&mut self, graph: &Graph, a: RelSet, r: u8)
        requires fits { SecondFits graph.now self.old }
        requires spent { growth_left graph.now self.old.growth ≡ [] }
        requires connected { Connected graph.now a }
        requires relation { r < graph.now.n }
        ensures left { touching_sides r a (second_left graph.now self.new) ≡ touching_sides r a (second_sides graph.now a) }
        ensures fits { SecondFits graph.now self.new }
    {
        self.excluded = excluded(graph, a);
        self.starts = touching_starts(graph, a, self.excluded, r);
    }

    /// The next second side whose union with `a` has `r`.
    pub fn next_touching(&mut self, graph: &Graph, a: RelSet, r: u8) -> Option<RelSet>
        requires { SecondFits graph.now self.old }
        ensures set { Takes (touching_sides r a (second_left graph.now self.old)) (touching_sides r a (second_left graph.now self.new)) result }
        ensures fits { SecondFits graph.now self.new }
        ensures spent { IfNone result (growth_left graph.now self.new.growth ≡ []) }
    {
        'sides: while let Some(b) = self.next(graph) {
            if a.union(b).has(r) {
                return Some(b);
            }
        }
        None
    }

    /// The next second side.
    #[inline]
    pub fn next(&mut self, graph: &Graph) -> Option<RelSet>
        requires { SecondFits graph.now self.old }
        ensures set { Takes (second_left graph.now self.old) (second_left graph.now self.new) result }
        ensures fits { SecondFits graph.now self.new }
        ensures spent { IfNone result (growth_left graph.now self.new.growth ≡ []) }
    {
        if let Some(s) = self.growth.next(graph) {
            return Some(s);
        }
        self.next_start(graph)
    }

    // The next start, where the growth has nothing left.
    fn next_start(&mut self, graph: &Graph) -> Option<RelSet>
        requires fits { SecondFits graph.now self.old }
        requires spent { growth_left graph.now self.old.growth ≡ [] }
        requires empty { self.old.growth.calling.items ≡ [] }
        ensures set { Takes (second_left graph.now self.old) (second_left graph.now self.new) result }
        ensures fits { SecondFits graph.now self.new }
        ensures spent { IfNone result (growth_left graph.now self.new.growth ≡ []) }
    {
        graph.recall();
        let Some(i) = greatest(self.starts) else {
            return None;
        };
        let start = RelSet::single(i);
        // Of the starts, those above this one have come already.
        let excluded = self.excluded.union(self.starts);
        self.starts = self.starts.minus(start);
        self.growth.begin(graph, start, excluded);
        Some(start)
    }
}
