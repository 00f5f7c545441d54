ghost use Rattle.std.specs.Prelude.{◌≡◌, ◌<◌};
ghost use Rattle.enum_dpccp.specs.Touching.{touches, touching};

use dpe_base::{Pair, Steps};
use pair_stream::{Filtered, PairStream, PairTest};
use std::sync::ledger::Ledger;

// Whether the union of a pair has the relation.
#[derive(Drop)]
struct Touches {
    r: u8,
}

impl PairTest for Touches {
    ghost use Rattle.enum_dpccp.specs.Touching.{touches};

    ghost passes = { λ s p. touches s.r p };

    fn passes(&self, p: &Pair) -> bool {
        p.a.union(p.b).has(self.r)
    }
}

/// The pairs of a stream whose union has one relation: those that a change of the relation's rows touches.
#[derive(Drop)]
pub struct Touching<P> {
    pairs: Filtered<P, Touches>,
}

impl<P: PairStream> Touching<P> {
    /// Of the pairs that `inner` has left, those whose union has relation `r`, in their order. It takes no memory.
    pub fn over(inner: P, r: u8) -> Touching<P>
        requires { r < 32 }
        ensures list { ⟦<Touching<P> as PairStream>⟧.left result ≡ touching r (P.left inner) }
        ensures probed { ⟦<Touching<P> as PairStream>⟧.probed result ≡ P.probed inner }
        ensures total { ⟦<Touching<P> as PairStream>⟧.total result ≡ P.total inner }
    {
        Touching {
            pairs: Filtered::over(inner, Touches { r }),
        }
    }
}

impl<P: PairStream> PairStream for Touching<P> {
    ghost use Rattle.pair_stream.specs.Filters.{ended_filter};
    ghost use Rattle.enum_dpccp.specs.Touching.{touches};

    ghost left = { λ s. ⟦<Filtered<P, Touches> as PairStream>⟧.left s.pairs };

    ghost ended = { λ s. ⟦<Filtered<P, Touches> as PairStream>⟧.ended s.pairs };

    ghost probed = { λ s. ⟦<Filtered<P, Touches> as PairStream>⟧.probed s.pairs };

    ghost total = { λ s. ⟦<Filtered<P, Touches> as PairStream>⟧.total s.pairs };

    fn next<L: Ledger>(&mut self, steps: &mut Steps<L>) -> Option<Pair> {
        self.pairs.next(steps)
    }

    fn probes(&self) -> u64 {
        self.pairs.probes()
    }

    ghost at_end = { λ s t. ended_filter (touches s.pairs.test.r) (P.left s.pairs.inner) (P.probed s.pairs.inner) (P.total s.pairs.inner)
        (P.at_end s.pairs.inner t) };
}
