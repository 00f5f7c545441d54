//! Names and their numbers.
ghost use Rattle.std.specs.Prelude.{◌≡◌, ℕ, List, map, position};
ghost use Rattle.std.specs.Str.{bytes_eq};
ghost use Rattle.query_json.specs.Names.{GivesNames, distinct_names};

use crate::label::copied;
use dpe_base::Name;
use indexmap::IndexSet;
use std::alloc::{AllocError, AllocFailed, Global};

/// A thing with a name.
pub trait HasName {
    ghost label: { Self → List ℕ };

    /// Its name.
    fn name(&self) -> &str
        ensures { result.now ≡ label self.now };
}

/// A name stands twice, or memory ran out.
#[derive(Debug, Drop)]
pub enum Repeat {
    /// Memory ran out, which says nothing of the names.
    NoMemory,
    /// The first name that stands twice.
    Name(Name),
}

impl From<AllocError> for Repeat {
    ghost use Rattle.std.specs.Prelude.{◌≡◌};
    ghost use Rattle.query_json.specs.declared.names.Repeat.TheVariants.{NoMemory};

    ghost from_gives = { λ _ e. e ≡ NoMemory };

    fn from(_: AllocError) -> Self {
        Repeat::NoMemory
    }
}

impl<T: Drop> From<AllocFailed<T>> for Repeat {
    ghost use Rattle.std.specs.Prelude.{◌≡◌};
    ghost use Rattle.query_json.specs.declared.names.Repeat.TheVariants.{NoMemory};

    ghost from_gives = { λ _ e. e ≡ NoMemory };

    fn from(_: AllocFailed<T>) -> Self {
        Repeat::NoMemory
    }
}

/// The names of the items, each at its item's number.
pub fn distinct<'a, T: HasName>(alloc: Global, items: &'a [T]) -> Result<IndexSet<&'a str>, Repeat>
    ensures { GivesNames (λ s. map (λ k. k.now) s.keys) result (distinct_names T.label items.entry.now) }
{
    let mut names = IndexSet::with_capacity(alloc, items.len())?;
    for item in items {
        let name = item.name();
        if !names.insert(name)? {
            return Err(Repeat::Name(copied(alloc, name)?));
        }
    }
    Ok(names)
}

/// The place of a name.
pub fn place_of(names: &IndexSet<&str>, name: &str) -> Option<usize>
    ensures { result ≡ position (bytes_eq name.now) (map (λ k. k.now) names.now.keys) }
{
    names.get_index_of(name)
}
