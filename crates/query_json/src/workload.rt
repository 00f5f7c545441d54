//! Reading a workload.
ghost use Rattle.std.specs.Prelude.{◌≡◌, ◌<◌, length, Some, slice_get};
ghost use Rattle.serde_json.specs.View.{view};
ghost use Rattle.query_json.specs.Answer.{Gives};
ghost use Rattle.query_json.specs.Entries.{counted, entries_of, entries_of_value};
ghost use Rattle.query_json.specs.Sound.{IsEntrySound};

use crate::entry::Entry;
use crate::fault::FileFault;
use crate::file::File;
use crate::items::Items;
use crate::query::entries::entries_of;
use crate::tables::Tables;
use crate::walk::file_at;
use crate::walk::node::Node;
use crate::walk::tree::tree_of;
use crate::{QUERIES_MAX, TABLES_MAX};
use json::Scratch;
use serde_json::Value;
use std::alloc::Global;
use std::marker::Model;

/// The queries of a file in the file's order, which contracts see as the list of its entries.
#[derive(Drop)]
pub struct Workload {
    entries: Items<Entry>,
}

impl Model for Workload {
    ghost use Rattle.std.specs.Prelude.{List, All};
    ghost use Rattle.query_json.specs.declared.entry.Entry.{Entry};
    ghost use Rattle.query_json.specs.Sound.{IsEntrySound};

    ghost Value = { List Entry };

    ghost view = { λ w. w.entries };

    ghost invariant = { λ w. All IsEntrySound w.entries };
}

impl Workload {
    /// How many queries the file holds.
    pub fn len(&self) -> usize
        ensures { result ≡ length self.now }
    {
        self.entries.len()
    }

    /// The query at a place, counted from 0.
    pub fn entry(&self, i: usize) -> &Entry
        requires { i < length self.now }
        ensures value { slice_get self.now i ≡ Some result.now }
        ensures sound { IsEntrySound result.now }
    {
        &self.entries.as_slice()[i]
    }
}

fn count(file: &File) -> Result<(), FileFault>
    ensures { Gives result (counted file.now) }
{
    if file.tables.len() > TABLES_MAX {
        return Err(FileFault::TooManyTables);
    }
    if file.queries.len() > QUERIES_MAX {
        return Err(FileFault::TooManyQueries);
    }
    Ok(())
}

/// Reads a workload that is there as a tree already, by its root: [`read`] of a text is this of what
/// [`tree_of`](crate::tree_of) gives.
///
/// Fails with the first fault of the tree, in the order of [`read`], and never as not JSON. Fails also where there is no
/// memory.
#[tactic(auto, unfolding(crate::specs::Entries::entries_of_value))]
pub fn read_node<N: Node>(alloc: Global, root: &N) -> Result<Workload, FileFault>
    ensures { Gives result (entries_of_value (N.as_data root.now)) }
{
    let file = file_at(alloc, root)?;
    count(&file)?;
    let tables = Tables::new(alloc, file.tables.as_slice())?;
    let entries = entries_of(alloc, &tables, file.queries.as_slice())?;
    Ok(Workload { entries })
}

/// Reads the text of a workload file: one entry for each of its queries, in order.
///
/// Fails with the first fault of the text, in this order: it is not JSON, a place breaks the format, there are too many
/// tables, there are too many queries, a table has the name of an earlier one. Fails also where there is no memory.
#[tactic(auto, unfolding(crate::specs::Entries::entries_of))]
pub fn read(alloc: Global, bytes: &[u8]) -> Result<Workload, FileFault>
    ensures { Gives result (entries_of bytes.now) }
{
    let mut scratch = Scratch::new(alloc);
    let root = tree_of(alloc, bytes, &mut scratch)?;
    read_node(alloc, &root)
}

/// Reads a workload that is there as a value already: what [`read`] gives for a text of this value.
///
/// Fails with the first fault of the value, in the order of [`read`], and never as not JSON. Fails also where there is no
/// memory.
pub fn read_value(alloc: Global, value: &Value) -> Result<Workload, FileFault>
    ensures { Gives result (entries_of_value (view value.now)) }
{
    read_node(alloc, value)
}
