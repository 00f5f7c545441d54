ghost use Rattle.std.specs.Prelude.{◌≡◌, ◌≤◌, ℕ, ◌+◌, Bool, IsTrue, IsNone, List, []};
ghost use Rattle.dpe_base.specs.declared.pair.Pair.{Pair};
ghost use Rattle.pair_stream.specs.Streams.{Takes};

use dpe_base::{Pair, Steps};
use std::sync::ledger::Ledger;

/// A stream of pairs, as an enumerator gives them. Contracts see it by the list of the pairs that are
/// left. Some streams probe lists of sets for their pairs, and count each probe.
///
/// It is `Drop`, since a closure takes by move only what is.
pub trait PairStream: Drop + Send {
    /// The pairs that are left.
    ghost left: { Self → List Pair };

    /// Whether the stream has ended.
    ghost ended: { Self → Bool };

    /// The probes so far.
    ghost probed: { Self → ℕ };

    /// The probes of the whole stream. No call changes it.
    ghost total: { Self → ℕ };

    /// Takes the first of the pairs left. Where none is left the stream has ended.
    /// Each probe is a step, and no step is taken back.
    fn next<L: Ledger>(&mut self, steps: &mut Steps<L>) -> Option<Pair>
        ensures pair { Takes (left self.old) (left self.new) result }
        ensures end { IsNone result → IsTrue (ended self.new) }
        ensures whole { total self.new ≡ total self.old }
        ensures forward { steps.old ≤ steps.new }
        ensures counted { steps.new + probed self.old ≡ steps.old + probed self.new };

    /// The probes so far. Where the stream has ended they are all.
    fn probes(&self) -> u64
        ensures { result ≡ probed self.now };

    /// A stream that has ended has no pair left, and has made all its probes.
    ghost at_end: { (s : Self) → IsTrue (ended s) → (left s ≡ []) × (probed s ≡ total s) };
}
