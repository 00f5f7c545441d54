ghost use Rattle.std.specs.Prelude.{◌≡◌, ◌≤◌, ◌<◌, ◌+◌, length, slice_index, IfOk};
ghost use Rattle.dpe_base.specs.Sets.{size};
ghost use Rattle.skip_vector.specs.Skips.{IsPart, IsAfter};

use crate::column::Column;
use dpe_base::{RelSet, Steps};
use std::alloc::{AllocError, Global};
use std::marker::Model;
use std::sync::ledger::Ledger;

/// Sets of one size in list order, with skip vectors: for each entry and each length of a prefix, the next entry that
/// begins otherwise.
///
/// After Han, Kwak, Lee, Lohman and Markl, "Parallelizing Query Optimization", VLDB 2008.
#[derive(Drop)]
pub struct SkipPart {
    entries: Vec<RelSet>,
    columns: Vec<Column>,
}

impl Model for SkipPart {
    ghost use Rattle.std.specs.Prelude.{List, ℕ};
    ghost use Rattle.skip_vector.specs.Skips.{IsSkipPart};

    ghost Value = { List ℕ };

    ghost view = { λ p. p.entries.items };

    ghost invariant = { λ p. IsSkipPart p.entries.items p.columns.items };
}

// The size of the sets of a part.
fn size_of(part: &[RelSet]) -> u32
    ensures { 0 < length part.now → result ≡ size (slice_index part.now 0) }
{
    if part.is_empty() { 0 } else { part[0].len() }
}

impl SkipPart {
    /// The part as it is, with its skip vectors. It must strictly ascend in list order.
    ///
    /// Fails where there is no memory.
    pub fn make(alloc: Global, part: &[RelSet]) -> Result<SkipPart, AllocError>
        requires { IsPart part.now }
        ensures { IfOk result (λ p. p ≡ part.now) }
    {
        let entries = Vec::from_slice(alloc, part)?;
        let mut columns = Vec::new(alloc);
        for p in 0..size_of(part) {
            columns.push(Column::make(alloc, part, p + 1)?)?;
        }
        Ok(SkipPart { entries, columns })
    }

    /// The entries.
    pub fn entries(&self) -> &[RelSet]
        ensures { result.now ≡ self.now }
    {
        self.entries.as_slice()
    }

    /// How many entries there are.
    pub fn len(&self) -> usize
        ensures value { result ≡ length self.now }
        ensures part { IsPart self.now }
    {
        self.entries.len()
    }

    /// The entry at place `i`, at the cost of one step.
    pub fn probe<L: Ledger>(&self, i: usize, steps: &mut Steps<L>) -> RelSet
        requires { i < length self.now }
        ensures value { result ≡ slice_index self.now i }
        ensures tick { steps.new ≡ steps.old + 1 }
    {
        steps.tick();
        self.entries[i]
    }

    /// The least place above `i` whose entry has other first `prefix_len` relations, or the length where there is none.
    pub fn after(&self, i: usize, prefix_len: usize) -> usize
        requires place { i < length self.now }
        requires some { 1 ≤ prefix_len }
        requires few { prefix_len ≤ size (slice_index self.now i) }
        ensures { IsAfter self.now i prefix_len result }
    {
        self.columns[prefix_len - 1].end(i)
    }
}
