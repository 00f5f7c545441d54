ghost use Rattle.std.specs.Prelude.{refl, ◌≡◌, List, drop, All};
ghost use Rattle.dpe_base.specs.declared.pair.Pair.{Pair};
ghost use Rattle.join_graph.specs.Graphs.{Connected, IsNeighbours};
ghost use Rattle.pair_stream.specs.Orders.{Ordered, Complete};
ghost use Rattle.pair_stream.specs.Parts.{parts_of};
ghost use Rattle.pair_stream.specs.Streams.{Takes};
ghost use Rattle.enum_dpsize.specs.Dpsize.{pairs_with, seq_dpsize};

use crate::cursor::Cursor;
use crate::pairs::{Neighbourhood, is_joinable, pair_by_least};
use dpe_base::{Pair, RelSet, Steps};
use join_graph::Graph;
use pair_stream::{PairStream, Parts};
use std::marker::Model;
use std::sync::ledger::Ledger;

/// The enumeration by sizes, DPsize: the size of the union ascends, then that of the smaller side, and for each two
/// sizes it goes over all pairs of connected sets in list order.
///
/// Its name is that of Moerkotte and Neumann, "Analysis of Two Existing and One New Dynamic Programming Algorithm for
/// the Generation of Optimal Bushy Join Trees without Cross Products", VLDB 2006.
#[derive(Drop)]
pub struct DpSize<'a> {
    graph: Graph,
    parts: &'a Parts,
    cursor: Cursor,
    at: Neighbourhood,
}

impl<'a> Model for DpSize<'a> {
    ghost use Rattle.std.specs.Prelude.{List};
    ghost use Rattle.dpe_base.specs.declared.pair.Pair.{Pair};
    ghost use Rattle.enum_dpsize.specs.DpsizeLeft.{IsDpsizeState, IsOf, left_at};

    ghost Value = { List Pair };

    ghost view = { λ s. left_at s.graph s.cursor };

    ghost invariant = { λ s. IsDpsizeState s.graph s.parts.now s.cursor × IsOf s.graph s.at.set s.at };
}

// The next pair of `x` with one of the sets from `next` on.
fn next_in_row(graph: &Graph, at: Neighbourhood, ys: &[RelSet], next: &mut usize) -> Option<Pair>
    requires x { Connected graph.now at.set }
    requires around { IsNeighbours graph.now at.set at.around }
    requires ys { All (Connected graph.now) ys.now }
    ensures { Takes (pairs_with graph.now (drop next.old ys.now) at.set) (pairs_with graph.now (drop next.new ys.now) at.set) result }
{
    graph.recall();
    let Neighbourhood { set: x, around } = at;
    'row: while *next < ys.len() {
        let y = ys[*next];
        *next += 1;
        if is_joinable(graph, x, around, y) {
            return Some(pair_by_least(graph, x, y));
        }
    }
    None
}

impl<'a> DpSize<'a> {
    /// The stream of all pairs of the graph whose parts these are. It takes no memory.
    pub fn over(graph: &Graph, parts: &'a Parts) -> DpSize<'a>
        requires { parts.now ≡ parts_of graph.now }
        ensures list { result ≡ seq_dpsize graph.now }
        ensures complete { Complete graph.now result }
        ensures ordered { Ordered result }

        // At every later state too.
        ensures probes { (s : List Pair) → ⟦<DpSize<'a> as PairStream>⟧.probed s ≡ 0 }
        ensures total { ⟦<DpSize<'a> as PairStream>⟧.total result ≡ 0 }
    {
        graph.recall();
        DpSize {
            graph: *graph,
            parts,
            cursor: Cursor::first(graph),
            at: Neighbourhood::of(graph, RelSet::empty()),
        }
    }
}

impl<'a> PairStream for DpSize<'a> {
    ghost use Rattle.pair_stream.specs.Streams.{is_over, over_is_empty};

    ghost left = { λ s. s };

    ghost ended = { λ s. is_over s };

    ghost probed = { λ _. 0 };

    ghost total = { λ _. 0 };

    fn next<L: Ledger>(&mut self, _steps: &mut Steps<L>) -> Option<Pair> {
        'rows: loop {
            let xs = self.parts.part(self.cursor.small);
            let ys = self.parts.part(self.cursor.size - self.cursor.small);
            if self.cursor.row < xs.len() {
                let x = xs[self.cursor.row];
                self.at = self.at.turned_to(&self.graph, x);
                let next = &mut self.cursor.next;
                if let Some(p) = next_in_row(&self.graph, self.at, ys, next) {
                    return Some(p);
                }
                self.cursor.next_row();
                continue;
            }
            if !self.cursor.next_sizes(&self.graph) {
                return None;
            }
        }
    }

    fn probes(&self) -> u64 {
        0
    }

    ghost at_end = { λ s t. (over_is_empty s t, refl) };
}
