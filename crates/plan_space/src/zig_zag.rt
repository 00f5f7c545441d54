ghost use Rattle.std.specs.Prelude.{◌≡◌, ◌<◌, ◌≤◌, ◌⊎◌, ◌↔◌, IsTrue, List};
ghost use Rattle.dpe_base.specs.declared.pair.Pair.{Pair};
ghost use Rattle.dpe_base.specs.Sets.{Has, Within, full, least, size};
ghost use Rattle.join_graph.specs.Graphs.{Connected};
ghost use Rattle.pair_stream.specs.Orders.{Ordered};
ghost use Rattle.plan_space.specs.Thin.{IsThinList};
ghost use Rattle.plan_space.specs.ZigZag.{can_be_taken, taken_from, seq_zig_zag};

use dpe_base::{N_MAX, Pair, RelSet, Steps};
use join_graph::Graph;
use pair_stream::PairStream;
use std::marker::Model;
use std::sync::ledger::Ledger;

/// The pairs of a graph that have a side of one relation: it goes over the connected sets, ascending as numbers, and takes from
/// each the relations, ascending, without which it is still connected.
///
/// It makes no pair that it has to skip, so where most pairs have two wider sides it is far quicker than [`Thin`](crate::Thin)
/// of width 1. A query with few predicates has far more sets than connected ones, and this stream tests each: there `Thin` over
/// an enumerator by the graph is quicker.
#[derive(Drop)]
pub struct ZigZagPairs {
    graph: Graph,
    set: RelSet,
    // The relation of `set` to be tried next; the number of relations where none is to be tried.
    next: u8,
}

impl Model for ZigZagPairs {
    ghost use Rattle.std.specs.Prelude.{List, ◌≤◌};
    ghost use Rattle.dpe_base.specs.declared.pair.Pair.{Pair};
    ghost use Rattle.dpe_base.specs.Sets.{full};
    ghost use Rattle.join_graph.specs.Graphs.{IsGraph};
    ghost use Rattle.plan_space.specs.ZigZagLeft.{zig_zag_left};

    ghost Value = { List Pair };

    ghost view = { λ s. zig_zag_left s.graph s.set s.next };

    ghost invariant = { λ s. IsGraph s.graph × (s.set ≤ full s.graph.n) × (s.next ≤ s.graph.n) };
}

// Whether `r` is the least relation of `set`.
fn is_least(set: RelSet, r: u8) -> bool
    requires known { Within set (full N_MAX) }
    requires has { Has set r }
    ensures { IsTrue result ↔ (r ≡ least set) }
{
    match set.least() {
        Some(least) => r == least,
        None => false,
    }
}

// Whether the pair of `r` and the rest of `set` isn't given by the other of two relations.
fn counts(set: RelSet, r: u8) -> bool
    requires known { Within set (full N_MAX) }
    requires has { Has set r }
    ensures { IsTrue result ↔ ((r ≡ least set) ⊎ (3 ≤ size set)) }
{
    if is_least(set, r) {
        return true;
    }
    3 <= set.len()
}

// Whether `r` is in `set`, counts, and the rest of `set` is connected.
fn can_be_taken(graph: &Graph, set: RelSet, r: u8) -> bool
    requires known { Within set (full graph.now.n) }
    requires relation { r < graph.now.n }
    ensures { result ≡ can_be_taken graph.now set r }
{
    graph.recall();
    if !set.has(r) {
        return false;
    }
    if !counts(set, r) {
        return false;
    }
    graph.connected(set.minus(RelSet::single(r)))
}

// The pair of `r` and the rest of `set`.
fn taken_from(set: RelSet, r: u8) -> Pair
    requires known { Within set (full N_MAX) }
    requires has { Has set r }
    requires relation { r < N_MAX }
    ensures { result ≡ taken_from set r }
{
    let one = RelSet::single(r);
    let rest = set.minus(one);
    if is_least(set, r) {
        Pair { a: one, b: rest }
    } else {
        Pair { a: rest, b: one }
    }
}

impl ZigZagPairs {
    /// These pairs of the graph. It takes no memory, and makes no probes.
    pub fn over(graph: &Graph) -> ZigZagPairs
        ensures list { result ≡ seq_zig_zag graph.now }
        ensures complete { IsThinList graph.now 1 result }
        ensures ordered { Ordered result }

        // At every later state too.
        ensures probes { (s : List Pair) → ⟦<ZigZagPairs as PairStream>⟧.probed s ≡ 0 }
        ensures total { ⟦<ZigZagPairs as PairStream>⟧.total result ≡ 0 }
    {
        graph.recall();
        ZigZagPairs {
            graph: *graph,
            set: RelSet::empty(),
            next: graph.n(),
        }
    }
}

impl PairStream for ZigZagPairs {
    ghost use Rattle.std.specs.Prelude.{refl};
    ghost use Rattle.pair_stream.specs.Streams.{is_over, over_is_empty};

    ghost left = { λ s. s };

    ghost ended = { λ s. is_over s };

    ghost probed = { λ _. 0 };

    ghost total = { λ _. 0 };

    fn next<L: Ledger>(&mut self, _steps: &mut Steps<L>) -> Option<Pair> {
        'scan: loop {
            let r = self.next;
            if r < self.graph.n() {
                self.next = r + 1;
                if can_be_taken(&self.graph, self.set, r) {
                    return Some(taken_from(self.set, r));
                }
            } else {
                if self.set.bits() == RelSet::full(self.graph.n()).bits() {
                    return None;
                }
                self.set = RelSet::of_bits(self.set.bits() + 1);
                self.next = if self.graph.connected(self.set) {
                    0
                } else {
                    self.graph.n()
                };
            }
        }
    }

    fn probes(&self) -> u64 {
        0
    }

    ghost at_end = { λ s t. (over_is_empty s t, refl) };
}
