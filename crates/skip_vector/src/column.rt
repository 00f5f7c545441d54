//! Where runs of entries that begin alike end, for one length of what they begin with.
ghost use Rattle.std.specs.Prelude.{◌≡◌, ◌<◌, ◌+◌, ◌/◌, length, IfOk};
ghost use Rattle.skip_vector.specs.Skips.{IsPart, IsAfter, IsColumn, end_in};

use crate::prefix::same_first;
use dpe_base::RelSet;
use std::alloc::{AllocError, Global};

// How many entries make a block.
const BLOCK: usize = 128;

// The distance that says that an entry's run goes beyond the end of its block.
const FAR: u8 = 255;

/// For each entry of a part the next entry with another prefix of one length.
///
/// Most such entries are near, so a byte an entry says how far away they are. Where one is [`FAR`] away or further, the run goes
/// on into the next block, and ends where the run of that block's first entry ends, which is kept for each block.
#[derive(Drop)]
pub struct Column {
    /// How far it is to the end of each entry's run, and at most [`FAR`].
    pub near: Vec<u8>,
    /// Where the run of each block's first entry ends.
    pub far: Vec<usize>,
}

// The place after the prefix at `i`, from the one at the next place.
fn place_after(entries: &[RelSet], i: usize, len: u32, later: usize) -> usize
    requires part { IsPart entries.now }
    requires place { i + 1 < length entries.now }
    requires later { IsAfter entries.now (i + 1) len later }
    ensures { IsAfter entries.now i len result }
{
    if same_first(entries[i + 1], entries[i], len) {
        later
    } else {
        i + 1
    }
}

impl Column {
    /// The column for prefixes of `len` relations.
    ///
    /// Fails where there is no memory.
    pub fn make(alloc: Global, entries: &[RelSet], len: u32) -> Result<Column, AllocError>
        requires { IsPart entries.now }
        ensures { IfOk result (λ c. IsColumn entries.now len c) }
    {
        let count = entries.len();
        let mut near = vec![in alloc; 1u8; count]?;
        let mut far = vec![in alloc; count; count / BLOCK + 2]?;
        let mut end = count;
        for back in 1..count {
            let i = count - 1 - back;
            end = place_after(entries, i, len, end);
            near[i] = (end - i).min(FAR as usize) as u8;
            if i % BLOCK == 0 {
                far[i / BLOCK] = end;
            }
        }
        Ok(Column { near, far })
    }

    /// The next entry after entry `i` with another prefix, or the number of entries where there is none.
    pub fn end(&self, i: usize) -> usize
        requires near { i < length self.now.near.items }
        requires far { i / 128 + 1 < length self.now.far.items }
        ensures { result ≡ end_in self.now.near.items self.now.far.items i }
    {
        let near = self.near[i];
        if near < FAR {
            i + near as usize
        } else {
            self.far[i / BLOCK + 1]
        }
    }
}
