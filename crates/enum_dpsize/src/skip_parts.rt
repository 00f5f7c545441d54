ghost use Rattle.std.specs.Prelude.{◌≡◌, ◌≤◌, ◌-◌, length, IfOk, slice_index_or};
ghost use Rattle.enum_dpsize.specs.Dpsva.{AreParts};

use dpe_base::RelSet;
use pair_stream::Parts;
use skip_vector::SkipPart;
use std::alloc::{AllocError, Global};
use std::marker::Model;

/// The connected sets of a join graph by size, each part with skip vectors.
#[derive(Drop)]
pub struct SkipParts {
    parts: Vec<SkipPart>,
}

impl Model for SkipParts {
    ghost use Rattle.std.specs.Prelude.{ℕ, List};

    ghost Value = { List (List ℕ) };

    ghost view = { λ p. p.parts.items };
}

impl SkipParts {
    /// The parts as they are, with the skip vectors of each.
    ///
    /// Fails where there is no memory.
    pub fn make(alloc: Global, parts: &Parts) -> Result<SkipParts, AllocError>
        requires { AreParts parts.now }
        ensures { IfOk result (λ p. p ≡ parts.now) }
    {
        // a relation alone is connected
        let n = parts.part(1).len();
        let mut all = Vec::new(alloc);
        for k in 0..n {
            let part = parts.part(k as u32 + 1);
            let skip = SkipPart::make(alloc, part)?;
            all.push(skip)?;
        }
        Ok(SkipParts { parts: all })
    }

    /// The connected sets of that many relations.
    pub(crate) fn list(&self, size: u32) -> &[RelSet]
        requires { (1 ≤ size) × (size ≤ length self.now) }
        ensures { result.now ≡ slice_index_or self.now (size - 1) result.now }
    {
        self.parts[size as usize - 1].entries()
    }

    /// The connected sets of that many relations with their skip vectors.
    pub(crate) fn skips(&self, size: u32) -> &SkipPart
        requires { (1 ≤ size) × (size ≤ length self.now) }
        ensures { result.now ≡ slice_index_or self.now (size - 1) result.now }
    {
        &self.parts[size as usize - 1]
    }
}
