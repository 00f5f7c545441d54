//! What the functions that the lists of pairs are defined by say of a join graph, and what holds of the probes of a stream.
ghost use Rattle.std.specs.Prelude.{◌≡◌, ◌↔◌, ◌<◌, ℕ, true};
ghost use Rattle.join_graph.specs.Graphs.{JoinGraph, Connected, Crossed, IsGraph, IsNeighbours};
ghost use Rattle.dpe_base.specs.Sets.{meets};
ghost use Rattle.pair_stream.specs.Connectivity.{adjacent_to_members, is_connected, neighbours};

use crate::stream::PairStream;
use dpe_base::Steps;
use std::marker::Brand;
use std::sync::ledger::{Blank, Ledger};

/// `neighbours` has the neighbours of a set, `is_connected` tells the connected sets, and two sets are crossed where what is
/// joined to the one meets the other.
pub fn connectivity_is_that_of_the_graph()
    ensures neighbours { (g : JoinGraph) (s : ℕ) → IsGraph g → IsNeighbours g s (neighbours g s) }
    ensures connected { (g : JoinGraph) (s : ℕ) → IsGraph g → (is_connected g s ≡ true) ↔ Connected g s }
    ensures crossed { (g : JoinGraph) (a b : ℕ) → IsGraph g → (meets (adjacent_to_members g a g.n) b ≡ true) ↔ Crossed g a b }
{}

/// A stream whose probes stay 0 has the total 0, since its probes at the end are the total.
pub fn no_probes_no_total<S: PairStream>(stream: S)
    requires { (s : S) → S.probed s ≡ 0 }
    ensures { S.total stream ≡ 0 }
{
    run_to_end::<Brand, S>(stream, Blank::new(1));
}

// Takes all pairs, with the steps counted in a ledger of the caller's choice.
fn run_to_end<L: Ledger, S: PairStream>(mut stream: S, blank: Blank)
    requires none { (s : S) → S.probed s ≡ 0 }
    requires name { blank.name ≡ L.name }
    requires parts { blank.parts ≡ L.parts }
    requires some { 0 < L.parts }
    ensures { S.total stream ≡ 0 }
{
    let mut steps = Steps::<L>::new(blank);
    'pairs: while let Some(_) = stream.next(&mut steps) {}
}
