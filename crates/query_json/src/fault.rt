//! Why a file is refused.
ghost use Rattle.std.specs.Prelude.{◌≡◌};
ghost use Rattle.query_json.specs.declared.fault.FileFault.TheVariants.{NoMemory};

use crate::place::Place;
use dpe_base::Name;
use std::alloc::{AllocError, AllocFailed};

/// Why a file is refused: the first of these that holds.
#[derive(Debug, Drop)]
pub enum FileFault {
    /// The bytes aren't UTF-8, or `serde_json` has no reading of them.
    NotJson,
    /// The first place of the walk that breaks the format.
    Shape(Place),
    /// There are more than [`TABLES_MAX`](crate::TABLES_MAX) tables.
    TooManyTables,
    /// There are more than [`QUERIES_MAX`](crate::QUERIES_MAX) queries.
    TooManyQueries,
    /// The name of the first table whose name an earlier one has.
    DuplicateTable(Name),
    /// Memory ran out, which says nothing of the file.
    NoMemory,
}

impl From<AllocError> for FileFault {
    ghost from_gives = { λ _ e. e ≡ NoMemory };

    fn from(_: AllocError) -> Self {
        FileFault::NoMemory
    }
}

impl<T: Drop> From<AllocFailed<T>> for FileFault {
    ghost from_gives = { λ _ e. e ≡ NoMemory };

    fn from(_: AllocFailed<T>) -> Self {
        FileFault::NoMemory
    }
}
