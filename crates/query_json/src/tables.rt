//! The tables of a file, found by name.
ghost use Rattle.std.specs.Prelude.{◌≡◌, IfOk, map, option_map};
ghost use Rattle.query_json.specs.Entries.{table_names, tables_of};
ghost use Rattle.query_json.specs.Answer.{Gives, GivesBy};
ghost use Rattle.query_json.specs.Queries.{table_named};

pub mod known_table;

use crate::fault::FileFault;
use crate::file::Table;
use crate::names::{HasName, Repeat, distinct, place_of};
use crate::tables::known_table::KnownTable;
use indexmap::IndexSet;
use std::alloc::{AllocError, Global};
use std::marker::Model;

impl<'a> HasName for Table<'a> {
    ghost label = { λ t. t.name };

    fn name(&self) -> &str {
        self.name.text()
    }
}

/// The tables of a file, which contracts see as their list.
#[derive(Drop)]
pub struct Tables<'t, 'a> {
    names: IndexSet<&'t str>,
    tables: Vec<KnownTable<'t, 'a>>,
}

impl<'t, 'a> Model for Tables<'t, 'a> {
    ghost use Rattle.std.specs.Prelude.{◌≡◌, List, map};
    ghost use Rattle.query_json.specs.declared.file.Table.{Table};

    ghost Value = { List Table };

    ghost view = { λ t. t.tables.items };

    ghost invariant = { λ t. map (λ k. k.now) t.names.keys ≡ map (λ x. x.name) t.tables.items };
}

fn all_known<'t, 'a>(
    alloc: Global,
    tables: &'t [Table<'a>],
) -> Result<Vec<KnownTable<'t, 'a>>, AllocError>
    ensures { IfOk result (λ v. v.items ≡ tables.entry.now) }
{
    let mut known = Vec::with_capacity(alloc, tables.len())?;
    for table in tables {
        let one = KnownTable::new(alloc, table)?;
        known.push(one)?;
    }
    Ok(known)
}

fn table_names<'t, 'a>(
    alloc: Global,
    tables: &'t [Table<'a>],
) -> Result<IndexSet<&'t str>, FileFault>
    ensures { GivesBy (λ s. map (λ k. k.now) s.keys) result (table_names tables.entry.now) }
{
    match distinct(alloc, tables) {
        Ok(names) => Ok(names),
        Err(Repeat::NoMemory) => Err(FileFault::NoMemory),
        Err(Repeat::Name(name)) => Err(FileFault::DuplicateTable(name)),
    }
}

impl<'t, 'a> Tables<'t, 'a> {
    /// The tables. `DuplicateTable` where two of them have one name.
    #[tactic(auto, using(crate::proofs::NameLaws::table_names_are))]
    pub fn new(alloc: Global, tables: &'t [Table<'a>]) -> Result<Tables<'t, 'a>, FileFault>
        ensures { Gives result (tables_of tables.entry.now) }
    {
        let names = table_names(alloc, tables)?;
        let tables = all_known(alloc, tables)?;
        Ok(Tables { names, tables })
    }

    /// The table of a name.
    pub fn named(&self, name: &str) -> Option<&KnownTable<'t, 'a>>
        ensures { option_map (λ t. t.now) result ≡ table_named self.now name.now }
    {
        let number = place_of(&self.names, name)?;
        self.tables.get(number)
    }
}
