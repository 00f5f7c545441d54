ghost use Rattle.std.specs.Prelude.{◌≡◌, refl, List};
ghost use Rattle.dpe_base.specs.declared.pair.Pair.{Pair};
ghost use Rattle.pair_stream.specs.Orders.{Ordered, Complete};
ghost use Rattle.enum_dpccp.specs.Dpccp.{seq_dpccp};

use crate::sides::SecondSides;
use connected_sets::ConnectedSets;
use dpe_base::{Pair, RelSet, Steps};
use join_graph::Graph;
use pair_stream::PairStream;
use std::marker::Model;
use std::sync::ledger::Ledger;

/// The enumeration DPccp of Moerkotte and Neumann, "Analysis of Two Existing and One New Dynamic
/// Programming Algorithm for the Generation of Optimal Bushy Join Trees without Cross Products", VLDB 2006.
///
/// It goes over the connected sets as first sides, and over the second sides of each, and comes to no set
/// that is not connected. A second side that starts with a neighbour excludes the neighbours up to it:
/// `EnumerateCmp` has also been printed with all neighbours excluded, which loses pairs of a clique of three.
/// The order is that of the recursion, which is here a list function for the contract, and in the code two
/// stacks of fixed size.
#[derive(Drop)]
pub struct DpCcp {
    graph: Graph,
    firsts: ConnectedSets,
    first: RelSet,
    seconds: SecondSides,
}

impl Model for DpCcp {
    ghost use Rattle.std.specs.Prelude.{List};
    ghost use Rattle.dpe_base.specs.declared.pair.Pair.{Pair};
    ghost use Rattle.enum_dpccp.specs.Left.{dpccp_left, DpccpFits};

    ghost Value = { List Pair };

    ghost view = { λ s. dpccp_left s.graph s.firsts s.first s.seconds };

    ghost invariant = { λ s. DpccpFits s.graph s.firsts s.seconds };
}

impl DpCcp {
    /// The pairs of the graph in this order. It takes no memory, and makes no probes.
    pub fn over(graph: &Graph) -> DpCcp
        ensures list { result ≡ seq_dpccp graph.now }
        ensures complete { Complete graph.now result }
        ensures ordered { Ordered result }

        // At every later state too.
        ensures probes { (s : List Pair) → ⟦<DpCcp as PairStream>⟧.probed s ≡ 0 }
        ensures total { ⟦<DpCcp as PairStream>⟧.total result ≡ 0 }
    {
        graph.recall();
        DpCcp {
            graph: *graph,
            firsts: ConnectedSets::over(graph),
            first: RelSet::empty(),
            seconds: SecondSides::none(graph),
        }
    }
}

impl PairStream for DpCcp {
    ghost use Rattle.pair_stream.specs.Streams.{is_over, over_is_empty};

    ghost left = { λ s. s };

    ghost ended = { λ s. is_over s };

    ghost probed = { λ _. 0 };

    ghost total = { λ _. 0 };

    fn next<L: Ledger>(&mut self, _steps: &mut Steps<L>) -> Option<Pair> {
        'firsts: loop {
            if let Some(b) = self.seconds.next(&self.graph) {
                return Some(Pair { a: self.first, b });
            }
            match self.firsts.next(&self.graph) {
                None => return None,
                Some(a) => {
                    self.first = a;
                    self.seconds.begin(&self.graph, a);
                }
            }
        }
    }

    fn probes(&self) -> u64 {
        0
    }

    ghost at_end = { λ s t. (over_is_empty s t, refl) };
}
