//! A table of the file, whose columns are found by name.
ghost use Rattle.std.specs.Prelude.{◌≡◌, ℕ, List, IfOk};
ghost use Rattle.std.specs.Str.{bytes_eq};
ghost use Rattle.indexmap.specs.IndexMap.{get_by};
ghost use Rattle.query_json.specs.Columns.{distinct_in};

use crate::file::{Column, Table};
use indexmap::IndexMap;
use std::alloc::{AllocError, Global};
use std::marker::Model;

// Of a table with more columns, the names stand in a map.
const SCANNED_MAX: usize = 32;

/// A table and, where it has many columns, the distinct count of each by name. Contracts see it as the table.
#[derive(Drop)]
pub struct KnownTable<'t, 'a> {
    table: &'t Table<'a>,
    counts: Option<IndexMap<&'t str, u64>>,
}

impl<'t, 'a> Model for KnownTable<'t, 'a> {
    ghost use Rattle.std.specs.Prelude.{◌≡◌, ℕ, List, IfSome};
    ghost use Rattle.std.specs.Str.{bytes_eq};
    ghost use Rattle.indexmap.specs.IndexMap.{get_by};
    ghost use Rattle.query_json.specs.declared.file.Table.{Table};
    ghost use Rattle.query_json.specs.Columns.{distinct_in};

    ghost Value = { Table };

    ghost view = { λ t. t.table.now };

    ghost invariant = { λ t. IfSome t.counts (λ m. (q : List ℕ) → get_by (λ k. bytes_eq q k.now) m ≡ distinct_in q t.table.now.columns) };
}

fn column_counts<'t, 'a>(
    alloc: Global,
    columns: &'t [Column<'a>],
) -> Result<IndexMap<&'t str, u64>, AllocError>
    ensures { IfOk result (λ m. (q : List ℕ) → get_by (λ k. bytes_eq q k.now) m ≡ distinct_in q columns.entry.now) }
{
    let mut counts = IndexMap::with_capacity(alloc, columns.len())?;
    let mut left = columns.len();
    // From the last to the first, so that of two columns of one name the first is put last, and stays.
    'left: while 0 < left {
        left -= 1;
        let column = &columns[left];
        let name = column.name.text();
        counts.insert(name, column.distinct)?;
    }
    Ok(counts)
}

// The distinct count of the first column of a name, looking at one column after the other.
fn distinct_in(columns: &[Column], name: &str) -> Option<u64>
    ensures { result ≡ distinct_in name.now columns.now }
{
    for column in columns {
        if name == column.name.text() {
            return Some(column.distinct);
        }
    }
    None
}

impl<'t, 'a> KnownTable<'t, 'a> {
    /// The table, which may have two columns of one name.
    pub fn new(alloc: Global, table: &'t Table<'a>) -> Result<KnownTable<'t, 'a>, AllocError>
        ensures { IfOk result (λ t. t ≡ table.entry.now) }
    {
        let columns = table.columns.as_slice();
        if columns.len() <= SCANNED_MAX {
            return Ok(KnownTable {
                table,
                counts: None,
            });
        }
        let counts = Some(column_counts(alloc, columns)?);
        Ok(KnownTable { table, counts })
    }

    /// The rows of the table.
    pub fn rows(&self) -> u64
        ensures { result ≡ self.now.rows }
    {
        self.table.rows
    }

    /// The distinct count of the first column of a name.
    pub fn distinct(&self, column: &str) -> Option<u64>
        ensures { result ≡ distinct_in column.now self.now.columns }
    {
        match &self.counts {
            Some(counts) => counts.get(column).copied(),
            None => distinct_in(self.table.columns.as_slice(), column),
        }
    }
}
