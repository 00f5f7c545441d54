ghost use Rattle.std.specs.Prelude.{◌≡◌, ◌≤◌};
ghost use Rattle.plan_space.specs.Thin.{is_thin, thin};

use dpe_base::{Pair, Steps};
use pair_stream::{Filtered, PairStream, PairTest};
use std::sync::ledger::Ledger;

/// The pairs of a stream that have a side of at most so many relations.
///
/// It skips the others, which the inner stream still has to make: each costs one call of it.
#[derive(Drop)]
pub struct Thin<P> {
    pairs: Filtered<P, SmallSide>,
}

// Whether a side has at most `width` relations.
#[derive(Drop)]
struct SmallSide {
    width: u32,
}

impl PairTest for SmallSide {
    ghost use Rattle.plan_space.specs.Thin.{is_thin};

    ghost passes = { λ s p. is_thin s.width p };

    fn passes(&self, p: &Pair) -> bool {
        p.a.len() <= self.width || p.b.len() <= self.width
    }
}

impl<P: PairStream> Thin<P> {
    /// The pairs that `inner` has left, without those both of whose sides have more than `width` relations. It takes no memory.
    #[tactic(auto, unfolding(crate::specs::Thin::thin))]
    pub fn over(inner: P, width: u32) -> Thin<P>
        requires { 1 ≤ width }
        ensures list { ⟦<Thin<P> as PairStream>⟧.left result ≡ thin width (P.left inner) }
        ensures probed { ⟦<Thin<P> as PairStream>⟧.probed result ≡ P.probed inner }
        ensures total { ⟦<Thin<P> as PairStream>⟧.total result ≡ P.total inner }
    {
        Thin {
            pairs: Filtered::over(inner, SmallSide { width }),
        }
    }
}

impl<P: PairStream> PairStream for Thin<P> {
    ghost use Rattle.pair_stream.specs.Filters.{ended_filter};
    ghost use Rattle.plan_space.specs.Thin.{is_thin};

    ghost left = { λ s. ⟦<Filtered<P, SmallSide> as PairStream>⟧.left s.pairs };

    ghost ended = { λ s. ⟦<Filtered<P, SmallSide> as PairStream>⟧.ended s.pairs };

    ghost probed = { λ s. ⟦<Filtered<P, SmallSide> as PairStream>⟧.probed s.pairs };

    ghost total = { λ s. ⟦<Filtered<P, SmallSide> as PairStream>⟧.total s.pairs };

    fn next<L: Ledger>(&mut self, steps: &mut Steps<L>) -> Option<Pair> {
        self.pairs.next(steps)
    }

    fn probes(&self) -> u64 {
        self.pairs.probes()
    }

    ghost at_end = { λ s t. ended_filter (is_thin s.pairs.test.width) (P.left s.pairs.inner) (P.probed s.pairs.inner)
        (P.total s.pairs.inner) (P.at_end s.pairs.inner t) };
}
