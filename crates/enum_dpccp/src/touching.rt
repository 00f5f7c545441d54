ghost use Rattle.std.specs.Prelude.{◌≡◌, ◌<◌, refl, List};
ghost use Rattle.dpe_base.specs.declared.pair.Pair.{Pair};
ghost use Rattle.enum_dpccp.specs.Dpccp.{seq_dpccp};
ghost use Rattle.enum_dpccp.specs.Touching.{touching};

use crate::sides::SecondSides;
use connected_sets::ConnectedSets;
use dpe_base::{Pair, RelSet, Steps};
use join_graph::Graph;
use pair_stream::PairStream;
use std::marker::Model;
use std::sync::ledger::Ledger;

/// The pairs of [`DpCcp`](crate::DpCcp) whose union has one relation, in the same order: those that a change of the relation's
/// rows touches.
///
/// It comes to every first side. Of a first side without the relation, beside which the relation stands alone, it takes the one
/// second side that has it, and goes to no other: a leaf of a star costs no more than its pairs.
#[derive(Drop)]
pub struct DpCcpTouching {
    graph: Graph,
    relation: u8,
    firsts: ConnectedSets,
    first: RelSet,
    seconds: SecondSides,
}

impl Model for DpCcpTouching {
    ghost use Rattle.std.specs.Prelude.{List};
    ghost use Rattle.dpe_base.specs.declared.pair.Pair.{Pair};
    ghost use Rattle.enum_dpccp.specs.Left.{touching_left, TouchingFits};

    ghost Value = { List Pair };

    ghost view = { λ s. touching_left s.graph s.relation s.firsts s.first s.seconds };

    ghost invariant = { λ s. TouchingFits s.graph s.relation s.firsts s.seconds };
}

impl DpCcpTouching {
    /// The pairs of the graph whose union has relation `r`, in the order of DPccp. It takes no memory, and makes no probes.
    pub fn over(graph: &Graph, r: u8) -> DpCcpTouching
        requires { r < graph.now.n }
        ensures list { result ≡ touching r (seq_dpccp graph.now) }

        // At every later state too.
        ensures probes { (s : List Pair) → ⟦<DpCcpTouching as PairStream>⟧.probed s ≡ 0 }
        ensures total { ⟦<DpCcpTouching as PairStream>⟧.total result ≡ 0 }
    {
        graph.recall();
        DpCcpTouching {
            graph: *graph,
            relation: r,
            firsts: ConnectedSets::over(graph),
            first: RelSet::empty(),
            seconds: SecondSides::none(graph),
        }
    }
}

impl PairStream for DpCcpTouching {
    ghost use Rattle.pair_stream.specs.Streams.{is_over, over_is_empty};

    ghost left = { λ s. s };

    ghost ended = { λ s. is_over s };

    ghost probed = { λ _. 0 };

    ghost total = { λ _. 0 };

    fn next<L: Ledger>(&mut self, _steps: &mut Steps<L>) -> Option<Pair> {
        'firsts: loop {
            let (a, r) = (self.first, self.relation);
            if let Some(b) = self.seconds.next_touching(&self.graph, a, r) {
                return Some(Pair { a, b });
            }
            match self.firsts.next(&self.graph) {
                None => return None,
                Some(a) => {
                    self.first = a;
                    self.seconds.begin_touching(&self.graph, a, r);
                }
            }
        }
    }

    fn probes(&self) -> u64 {
        0
    }

    ghost at_end = { λ s t. (over_is_empty s t, refl) };
}
