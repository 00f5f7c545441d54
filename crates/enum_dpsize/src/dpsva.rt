ghost use Rattle.std.specs.Prelude.{◌≡◌, ◌+◌, ◌^◌, ◌<◌, ◌≤◌, length, drop, All, IsNone};
ghost use Rattle.join_graph.specs.Graphs.{Connected, IsNeighbours};
ghost use Rattle.pair_stream.specs.Orders.{Ordered, Complete};
ghost use Rattle.pair_stream.specs.Parts.{parts_of};
ghost use Rattle.pair_stream.specs.Streams.{Takes};
ghost use Rattle.skip_vector.specs.Skips.{probes_from};
ghost use Rattle.enum_dpsize.specs.Dpsize.{pairs_with, seq_dpsize};
ghost use Rattle.enum_dpsize.specs.Dpsva.{dpsva_probes};

use crate::cursor::Cursor;
use crate::pairs::{Neighbourhood, is_joinable, pair_by_least};
use crate::skip_parts::SkipParts;
use dpe_base::{Pair, RelSet, Steps};
use join_graph::Graph;
use pair_stream::PairStream;
use skip_vector::SkipPart;
use std::marker::Model;
use std::sync::ledger::Ledger;

/// The enumeration by sizes with skip vectors, DPsva: the pairs of [`crate::DpSize`] in the same order, where for each
/// first side a scan leaps over second sides that share the prefix up to the relation that blocks them.
///
/// After Han, Kwak, Lee, Lohman and Markl, "Parallelizing Query Optimization", VLDB 2008.
#[derive(Drop)]
pub struct DpSva<'a> {
    graph: Graph,
    parts: &'a SkipParts,
    cursor: Cursor,
    at: Neighbourhood,
    probes: u64,
}

impl<'a> Model for DpSva<'a> {
    ghost use Rattle.std.specs.Prelude.{◌+◌};
    ghost use Rattle.enum_dpsize.specs.DpsizeLeft.{IsOf, left_at};
    ghost use Rattle.enum_dpsize.specs.Dpsva.{CountedStream};
    ghost use Rattle.enum_dpsize.specs.DpsvaLeft.{IsDpsvaState, probes_at};

    ghost Value = { CountedStream };

    ghost view = { λ s. record { pairs = left_at s.graph s.cursor; probed = s.probes; total = s.probes + probes_at s.graph s.cursor } };

    ghost invariant = { λ s. IsDpsvaState s.graph s.parts.now s.cursor s.probes × IsOf s.graph s.at.set s.at };
}

// The next pair of `x` with one of the entries from `next` on.
fn next_in_row<L: Ledger>(
    graph: &Graph,
    at: Neighbourhood,
    ys: &SkipPart,
    next: &mut usize,
    probes: &mut u64,
    steps: &mut Steps<L>,
) -> Option<Pair>
    requires x { Connected graph.now at.set }
    requires around { IsNeighbours graph.now at.set at.around }
    requires ys { All (Connected graph.now) ys.now }
    requires room { probes.old + probes_from ys.now next.old at.set < 2 ^ 64 }
    ensures pair { Takes (pairs_with graph.now (drop next.old ys.now) at.set) (pairs_with graph.now (drop next.new ys.now) at.set) result }
    ensures probes { probes.new + probes_from ys.now next.new at.set ≡ probes.old + probes_from ys.now next.old at.set }
    ensures end { IsNone result → length ys.now ≤ next.new }
    ensures steps { steps.new + probes.old ≡ steps.old + probes.new }
    ensures forward { steps.old ≤ steps.new }
{
    graph.recall();
    let Neighbourhood { set: x, around } = at;
    'row: while *next < ys.len() {
        let free = ys.next_free(*next, x, steps);
        match free.found {
            None => {
                *probes += free.probes;
                *next = ys.len();
                return None;
            }
            Some((place, y)) => {
                *probes += free.probes;
                *next = place + 1;
                if is_joinable(graph, x, around, y) {
                    return Some(pair_by_least(graph, x, y));
                }
            }
        }
    }
    None
}

impl<'a> DpSva<'a> {
    /// The stream of all pairs of the graph whose parts these are. It takes no memory.
    pub fn over(graph: &Graph, parts: &'a SkipParts) -> DpSva<'a>
        requires { parts.now ≡ parts_of graph.now }
        ensures list { result.pairs ≡ seq_dpsize graph.now }
        ensures complete { Complete graph.now result.pairs }
        ensures ordered { Ordered result.pairs }
        ensures probes { ⟦<DpSva<'a> as PairStream>⟧.probed result ≡ 0 }
        ensures total { ⟦<DpSva<'a> as PairStream>⟧.total result ≡ dpsva_probes graph.now }
    {
        graph.recall();
        DpSva {
            graph: *graph,
            parts,
            cursor: Cursor::first(graph),
            at: Neighbourhood::of(graph, RelSet::empty()),
            probes: 0,
        }
    }
}

impl<'a> PairStream for DpSva<'a> {
    ghost use Rattle.enum_dpsize.specs.Dpsva.{has_ended, ended_stream};

    ghost left = { λ s. s.pairs };

    ghost ended = { λ s. has_ended s };

    ghost probed = { λ s. s.probed };

    ghost total = { λ s. s.total };

    fn next<L: Ledger>(&mut self, steps: &mut Steps<L>) -> Option<Pair> {
        'rows: loop {
            let xs = self.parts.list(self.cursor.small);
            let ys = self.parts.skips(self.cursor.size - self.cursor.small);
            if self.cursor.row < xs.len() {
                let x = xs[self.cursor.row];
                self.at = self.at.turned_to(&self.graph, x);
                let (next, probes) = (&mut self.cursor.next, &mut self.probes);
                if let Some(p) = next_in_row(&self.graph, self.at, ys, next, probes, steps) {
                    return Some(p);
                }
                self.cursor.next_row();
                continue;
            }
            if !self.cursor.next_sizes(&self.graph) {
                return None;
            }
        }
    }

    fn probes(&self) -> u64 {
        self.probes
    }

    ghost at_end = { λ s t. ended_stream s t };
}
