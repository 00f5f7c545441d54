//! The scan sees a part by `len`, `probe` and `after` alone, so that each entry that it looks at takes a step.
ghost use Rattle.std.specs.Prelude.{◌≡◌, ◌≤◌, ◌+◌, ◌-◌, length, MatchOption};
ghost use Rattle.skip_vector.specs.Skips.{IsFirstFree, NoneFree, probes};

use crate::prefix::blocking_len;
use crate::skip_part::SkipPart;
use dpe_base::{RelSet, Steps};
use std::sync::ledger::Ledger;

/// The place and the entry that a scan found, and how many entries it looked at.
#[derive(Clone, Copy, PartialEq, Eq, Debug)]
pub struct Free {
    /// The place of the entry, and the entry.
    pub found: Option<(usize, RelSet)>,
    /// How many entries were looked at for it.
    pub probes: u64,
}

impl SkipPart {
    /// The first entry at or after `from` that is disjoint from `x`.
    ///
    /// Of the entries that share the prefix up to their first relation in `x`, it looks at the first alone.
    pub fn next_free<L: Ledger>(&self, from: usize, x: RelSet, steps: &mut Steps<L>) -> Free
        requires { from ≤ length self.now }
        ensures found { MatchOption result.found (NoneFree self.now x from (length self.now)) (λ f. IsFirstFree self.now x from f.0 f.1) }
        ensures probes { MatchOption result.found (result.probes ≡ probes self.now from x (length self.now - from))
            (λ f. result.probes ≡ probes self.now from x (f.0 + 1 - from)) }
        ensures steps { steps.new ≡ steps.old + result.probes }
    {
        let mut place = from;
        let mut probes = 0u64;
        while place < self.len() {
            let entry = self.probe(place, steps);
            probes += 1;
            if !entry.meets(x) {
                return Free {
                    found: Some((place, entry)),
                    probes,
                };
            }
            let next = self.after(place, blocking_len(entry, x) as usize);
            place = next;
        }
        Free {
            found: None,
            probes,
        }
    }
}
