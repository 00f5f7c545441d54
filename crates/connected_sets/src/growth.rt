ghost use Rattle.std.specs.Prelude.{◌≡◌, ◌≢◌, ℕ, ◌++◌, [], length, IfSome};
ghost use Rattle.std.specs.Option.{IfNone};
ghost use Rattle.dpe_base.specs.Sets.{Within, full, union};
ghost use Rattle.pair_stream.specs.Streams.{Takes};
ghost use Rattle.connected_sets.specs.Lists.{neighbours_outside, all_extensions};
ghost use Rattle.connected_sets.specs.Growth.{calls_after, calling_left, growth_left, GrowthFits, CallFits, CallsFit, IsChild, NoChild, spent_call};

use arrayvec::ArrayVec;
use dpe_base::{N_MAX, RelSet};
use join_graph::Graph;

/// One call of the recursion.
#[derive(Clone, Copy, Debug, Default)]
pub struct Call {
    /// The set that it extends.
    pub base: RelSet,
    /// The neighbours of the base that are not excluded.
    pub neighbours: RelSet,
    /// What its own calls exclude, the neighbours among them.
    pub excluded: RelSet,
    /// The last subset of the neighbours that was taken.
    pub last: RelSet,
}

/// A call that has something to give.
#[derive(Clone, Copy, Debug)]
pub struct Child {
    /// The subset that leads to it.
    pub last: RelSet,
    /// Its neighbours.
    pub neighbours: RelSet,
}

/// The extensions of a connected set, a step at a time.
#[derive(Drop)]
pub struct Growth {
    /// The call that gives its own sets.
    pub giving: Call,
    /// The calls around it, which have given theirs, the innermost last.
    pub calling: ArrayVec<Call, N_MAX>,
}

impl Call {
    // A call that has nothing to give.
    fn spent(graph: &Graph) -> Call
        ensures { result ≡ spent_call graph.now }
    {
        graph.recall();
        Call {
            base: RelSet::empty(),
            neighbours: RelSet::empty(),
            excluded: RelSet::full(graph.n()),
            last: RelSet::empty(),
        }
    }
}

/// The neighbours of `s` that are not in `x`.
pub fn neighbours_outside(graph: &Graph, s: RelSet, x: RelSet) -> RelSet
    requires { Within s (full graph.now.n) }
    ensures { result ≡ neighbours_outside graph.now s x }
{
    graph.recall();
    graph.neighbours(s).minus(x)
}

// The first call after the subset `last` that has something to give.
fn next_child(graph: &Graph, call: &Call) -> Option<Child>
    requires { (k : ℕ) × CallFits graph.now k call.now }
    ensures some { IfSome result (λ child. IsChild graph.now call.now child) }
    ensures none { IfNone result (NoChild graph.now call.now) }
{
    graph.recall();
    // What no call for all neighbours reaches, no call for some of them does.
    if call.last.bits() == 0
        && neighbours_outside(graph, call.neighbours, call.excluded).bits() == 0
    {
        return None;
    }
    let mut last = call.last;
    'scan: while let Some(t) = last.next_subset(call.neighbours) {
        last = t;
        // The neighbours of the base are excluded, so those of the subset are all that are new.
        let neighbours = neighbours_outside(graph, t, call.excluded);
        if neighbours.bits() != 0 {
            return Some(Child { last, neighbours });
        }
    }
    None
}

impl Growth {
    /// Nothing is left.
    pub fn spent(graph: &Graph) -> Growth
        ensures left { growth_left graph.now result ≡ [] }
        ensures fits { GrowthFits graph.now result }
        ensures empty { result.calling.items ≡ [] }
    {
        graph.recall();
        Growth {
            giving: Call::spent(graph),
            calling: ArrayVec::new(),
        }
    }

    /// Begins the call for `s` and `x`, with no call around it.
    pub fn begin(&mut self, graph: &Graph, s: RelSet, x: RelSet)
        requires empty { self.old.calling.items ≡ [] }
        requires known { Within s (full graph.now.n) }
        requires some { s ≢ 0 }
        requires excluded { Within s x }
        ensures left { growth_left graph.now self.new ≡ all_extensions graph.now s x }
        ensures fits { GrowthFits graph.now self.new }
    {
        graph.recall();
        let neighbours = neighbours_outside(graph, s, x);
        self.giving = Call {
            base: s,
            neighbours,
            excluded: x.union(neighbours),
            last: RelSet::empty(),
        };
    }

    // The call has given its own sets: goes to the next call that has something to give.
    fn move_on(&mut self, graph: &Graph)
        requires fits { GrowthFits graph.now self.old }
        requires given { self.old.giving.last ≡ self.old.giving.neighbours }
        ensures left { growth_left graph.now self.new ≡ growth_left graph.now self.old }
        ensures fits { GrowthFits graph.now self.new }
        ensures spent { self.new.giving.last ≡ self.new.giving.neighbours → self.new.calling.items ≡ [] }
        ensures none { self.new.giving.last ≡ self.new.giving.neighbours → growth_left graph.now self.new ≡ [] }
    {
        graph.recall();
        if self.giving.neighbours.bits() == 0 && self.calling.is_empty() {
            return;
        }
        let mut call = Call {
            last: RelSet::empty(),
            ..self.giving
        };
        'calls: loop {
            if let Some(child) = next_child(graph, &call) {
                self.enter(graph, &call, &child);
                return;
            }
            match self.calling.pop() {
                None => {
                    self.giving = Call::spent(graph);
                    return;
                }
                Some(outer) => call = outer,
            }
        }
    }

    // Enters a call within `call`, which stays around it where more of its calls may come.
    fn enter(&mut self, graph: &Graph, call: &Call, child: &Child)
        requires calling { CallsFit graph.now 0 self.old.calling.items }
        requires call { CallFits graph.now (length self.old.calling.items) call.now }
        requires child { IsChild graph.now call.now child.now }
        ensures left { growth_left graph.now self.new ≡ calls_after graph.now call.now call.now.last ++ calling_left graph.now self.old.calling.items }
        ensures fits { GrowthFits graph.now self.new }
        ensures some { self.new.giving.last ≢ self.new.giving.neighbours }
    {
        graph.recall();
        if child.last.bits() != call.neighbours.bits() {
            let outer = Call {
                last: child.last,
                ..*call
            };
            self.calling.push(outer);
        }
        self.giving = Call {
            base: call.base.union(child.last),
            neighbours: child.neighbours,
            excluded: call.excluded.union(child.neighbours),
            last: RelSet::empty(),
        };
    }

    // Sees to it that the call at hand has something to give, if anything is left.
    #[inline]
    fn prepare(&mut self, graph: &Graph)
        requires { GrowthFits graph.now self.old }
        ensures left { growth_left graph.now self.new ≡ growth_left graph.now self.old }
        ensures fits { GrowthFits graph.now self.new }
        ensures spent { self.new.giving.last ≡ self.new.giving.neighbours → self.new.calling.items ≡ [] }
        ensures none { self.new.giving.last ≡ self.new.giving.neighbours → growth_left graph.now self.new ≡ [] }
    {
        if self.giving.last.bits() == self.giving.neighbours.bits() {
            self.move_on(graph);
        }
    }

    /// The next extension.
    #[inline]
    pub fn next(&mut self, graph: &Graph) -> Option<RelSet>
        requires { GrowthFits graph.now self.old }
        ensures set { Takes (growth_left graph.now self.old) (growth_left graph.now self.new) result }
        ensures fits { GrowthFits graph.now self.new }
        ensures empty { IfNone result (self.new.calling.items ≡ []) }
    {
        self.prepare(graph);
        let t = self.giving.last.next_subset(self.giving.neighbours)?;
        self.giving.last = t;
        Some(self.giving.base.union(t))
    }
}
