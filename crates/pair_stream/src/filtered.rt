ghost use Rattle.std.specs.Prelude.{◌≡◌, Bool, List};
ghost use Rattle.std.specs.List.{filter};
ghost use Rattle.dpe_base.specs.declared.pair.Pair.{Pair};

use crate::stream::PairStream;
use dpe_base::{Pair, Steps};
use std::sync::ledger::Ledger;

/// A test of pairs.
pub trait PairTest: Drop + Send {
    /// The pairs that pass.
    ghost passes: { Self → Pair → Bool };

    /// Whether the pair passes.
    fn passes(&self, p: &Pair) -> bool
        ensures { result ≡ passes self.now p.now };
}

/// The pairs of a stream that pass a test, in their order.
///
/// It skips the others, which the inner stream still has to make: each costs one call of it.
#[derive(Drop)]
pub struct Filtered<P, T> {
    inner: P,
    test: T,
}

impl<P: PairStream, T: PairTest> Filtered<P, T> {
    /// Of the pairs that `inner` has left, those that pass the test. It takes no memory.
    pub fn over(inner: P, test: T) -> Filtered<P, T>
        ensures list { ⟦<Filtered<P, T> as PairStream>⟧.left result ≡ filter (T.passes test) (P.left inner) }
        ensures probed { ⟦<Filtered<P, T> as PairStream>⟧.probed result ≡ P.probed inner }
        ensures total { ⟦<Filtered<P, T> as PairStream>⟧.total result ≡ P.total inner }
    {
        Filtered { inner, test }
    }
}

impl<P: PairStream, T: PairTest> PairStream for Filtered<P, T> {
    ghost use Rattle.std.specs.List.{filter};
    ghost use Rattle.pair_stream.specs.Filters.{ended_filter};

    ghost left = { λ s. filter (T.passes s.test) (P.left s.inner) };

    ghost ended = { λ s. P.ended s.inner };

    ghost probed = { λ s. P.probed s.inner };

    ghost total = { λ s. P.total s.inner };

    fn next<L: Ledger>(&mut self, steps: &mut Steps<L>) -> Option<Pair> {
        'skip: loop {
            match self.inner.next(steps) {
                None => return None,
                Some(p) => {
                    if self.test.passes(&p) {
                        return Some(p);
                    }
                }
            }
        }
    }

    fn probes(&self) -> u64 {
        self.inner.probes()
    }

    ghost at_end = { λ s t. ended_filter (T.passes s.test) (P.left s.inner) (P.probed s.inner) (P.total s.inner) (P.at_end s.inner t) };
}
