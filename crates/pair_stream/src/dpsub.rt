ghost use Rattle.std.specs.Prelude.{◌≡◌, refl, IfSome, List};
ghost use Rattle.std.specs.Option.{IfNone};
ghost use Rattle.dpe_base.specs.declared.pair.Pair.{Pair};
ghost use Rattle.dpe_base.specs.Sets.{Has, Within, full, least};
ghost use Rattle.pair_stream.specs.Subsets.{IsNextWithLeast};
ghost use Rattle.pair_stream.specs.Orders.{Ordered, Complete};
ghost use Rattle.pair_stream.specs.Dpsub.{is_split, seq_dpsub};

use crate::stream::PairStream;
use dpe_base::{N_MAX, Pair, RelSet, Steps};
use join_graph::Graph;
use std::marker::Model;
use std::sync::ledger::Ledger;

/// The enumeration by subsets, DPsub: it goes over the connected sets, ascending as numbers, and over
/// the splits of each into two connected sets, the side with the least relation ascending.
///
/// A query with few predicates has far more sets than connected ones, and this stream tests each. The
/// name is that of Moerkotte and Neumann, "Analysis of Two Existing and One New Dynamic Programming
/// Algorithm for the Generation of Optimal Bushy Join Trees without Cross Products", VLDB 2006.
#[derive(Drop)]
pub struct DpSub {
    graph: Graph,
    set: RelSet,
    // The last first side of `set` that was tried; `set` itself where none is to be tried.
    first: RelSet,
}

impl Model for DpSub {
    ghost use Rattle.std.specs.Prelude.{List, ◌≤◌};
    ghost use Rattle.dpe_base.specs.declared.pair.Pair.{Pair};
    ghost use Rattle.dpe_base.specs.Sets.{Within, full};
    ghost use Rattle.join_graph.specs.Graphs.{IsGraph};
    ghost use Rattle.pair_stream.specs.DpsubLeft.{dpsub_left};

    ghost Value = { List Pair };

    ghost view = { λ s. dpsub_left s.graph s.set s.first };

    ghost invariant = { λ s. IsGraph s.graph × Within s.first s.set × (s.set ≤ full s.graph.n) };
}

// The next subset of `set` after `first` that has the least relation of `set`.
fn next_with_least(set: RelSet, first: RelSet) -> Option<RelSet>
    requires known { Within set (full N_MAX) }
    requires part { Within first set }
    ensures none { IfNone result (first ≡ set) }
    ensures some { IfSome result (λ a. IsNextWithLeast first set a) }
{
    let next = first.next_subset(set)?;
    let least = set.least()?;
    Some(next.union(RelSet::single(least)))
}

// Whether `a` and the rest of `set` are both connected.
fn is_split(graph: &Graph, set: RelSet, a: RelSet) -> bool
    requires within { Within set (full graph.now.n) }
    requires part { Within a set }
    requires least { Has a (least set) }
    ensures { result ≡ is_split graph.now set a }
{
    graph.recall();
    if !graph.connected(set.minus(a)) {
        return false;
    }
    graph.connected(a)
}

impl DpSub {
    /// The pairs of the graph in this order. It takes no memory, and makes no probes.
    pub fn over(graph: &Graph) -> DpSub
        ensures list { result ≡ seq_dpsub graph.now }
        ensures complete { Complete graph.now result }
        ensures ordered { Ordered result }

        // At every later state too.
        ensures probes { (s : List Pair) → ⟦<DpSub as PairStream>⟧.probed s ≡ 0 }
        ensures total { ⟦<DpSub as PairStream>⟧.total result ≡ 0 }
    {
        graph.recall();
        DpSub {
            graph: *graph,
            set: RelSet::empty(),
            first: RelSet::empty(),
        }
    }
}

impl PairStream for DpSub {
    ghost use Rattle.pair_stream.specs.Streams.{is_over, over_is_empty};

    ghost left = { λ s. s };

    ghost ended = { λ s. is_over s };

    ghost probed = { λ _. 0 };

    ghost total = { λ _. 0 };

    fn next<L: Ledger>(&mut self, _steps: &mut Steps<L>) -> Option<Pair> {
        'scan: loop {
            match next_with_least(self.set, self.first) {
                Some(a) => {
                    self.first = a;
                    if is_split(&self.graph, self.set, a) {
                        let b = self.set.minus(a);
                        return Some(Pair { a, b });
                    }
                }
                None => {
                    if self.set.bits() == RelSet::full(self.graph.n()).bits() {
                        return None;
                    }
                    self.set = RelSet::of_bits(self.set.bits() + 1);
                    self.first = if self.graph.connected(self.set) {
                        RelSet::empty()
                    } else {
                        self.set
                    };
                }
            }
        }
    }

    fn probes(&self) -> u64 {
        0
    }

    ghost at_end = { λ s t. (over_is_empty s t, refl) };
}
