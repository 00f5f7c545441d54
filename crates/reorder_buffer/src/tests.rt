use crate::Buffer;
use dpe_base::{Pair, RelSet, Steps};
use pair_stream::PairStream;
use std::alloc::{AllocError, Global};
use std::collections::LinkedList;
use std::sync::ledger::Ledger;
use std::test::Fail;

// A stream of the pairs of a list.
#[derive(Drop)]
struct Listed {
    pairs: LinkedList<Pair>,
}

impl PairStream for Listed {
    ghost use Rattle.std.specs.Prelude.{refl};
    ghost use Rattle.pair_stream.specs.Streams.{is_over, over_is_empty};

    ghost left = { λ s. s.pairs };

    ghost ended = { λ s. is_over s.pairs };

    ghost probed = { λ _. 0 };

    ghost total = { λ _. 0 };

    fn next<L: Ledger>(&mut self, _steps: &mut Steps<L>) -> Option<Pair> {
        self.pairs.pop_front()
    }

    fn probes(&self) -> u64 {
        0
    }

    ghost at_end = { λ s t. (over_is_empty s.pairs t, refl) };
}

fn stream_of(alloc: Global, pairs: &[(u32, u32)]) -> Result<Listed, AllocError> {
    let mut list = LinkedList::new(alloc);
    for pair in pairs {
        list.push_back(Pair {
            a: RelSet::of_bits(pair.0),
            b: RelSet::of_bits(pair.1),
        })?;
    }
    Ok(Listed { pairs: list })
}

// The pairs of a chain of four relations in the order of DPccp, three at a time. There are four runs, with seven groups.
#[test]
fn groups_of_a_chain_of_four(rt: HostRuntime) -> Result<(), Fail> {
    let pairs = [
        (4, 8),
        (2, 4),
        (2, 12),
        (6, 8),
        (1, 2),
        (1, 6),
        (1, 14),
        (3, 4),
        (3, 12),
        (7, 8),
    ];
    let mut stream = stream_of(rt.alloc(), &pairs)?;
    let mut buffer = Buffer::with_capacity(rt.alloc(), 3)?;
    let mut seen = Vec::new(rt.alloc());
    for run in 0..4u32 {
        buffer.fill(&mut stream);
        for size in 0..40u32 {
            for pair in buffer.group(size) {
                seen.push((run, size, pair.a.bits(), pair.b.bits()))?;
            }
        }
    }
    let expected = [
        (0, 2, 4, 8),
        (0, 2, 2, 4),
        (0, 3, 2, 12),
        (1, 2, 1, 2),
        (1, 3, 6, 8),
        (1, 3, 1, 6),
        (2, 3, 3, 4),
        (2, 4, 1, 14),
        (2, 4, 3, 12),
        (3, 4, 7, 8),
    ];
    assert_eq!(rt; seen.as_slice(), expected.as_slice());
    assert!(rt; buffer.len() == 1 && !buffer.is_full());
    let none = buffer.fill(&mut stream);
    assert!(rt; none == 0 && buffer.is_empty());
    Ok(())
}
