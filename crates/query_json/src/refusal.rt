//! Why a query is refused.
ghost use Rattle.std.specs.Prelude.{◌≡◌};
ghost use Rattle.query_json.specs.declared.refusal.Stop.TheVariants.{NoMemory};
ghost use Rattle.query_json.specs.Texts.{refusal_code};

use dpe_base::Name;
use std::alloc::{AllocError, AllocFailed};

/// A filter or a selectivity, by its relation's or its join's number from 0.
#[derive(Clone, Copy, Debug, PartialEq, Eq)]
pub enum FracPlace {
    /// The filter of this relation.
    Relation(u32),
    /// The selectivity of this join.
    Join(u32),
}

/// Why a query is refused: the first of these that holds, and of its relations or joins the first.
#[derive(Debug, Drop)]
pub enum QueryRefusal {
    /// The query has no relation.
    NoRelations,
    /// The query has more than [`N_MAX`](dpe_base::N_MAX) relations, this many.
    TooManyRelations(u64),
    /// The alias of the first relation whose alias an earlier one has.
    DuplicateAlias(Name),
    /// The table of a relation, which the file doesn't have.
    UnknownTable(Name),
    /// The end of a join, which is no alias of the query. The left end comes before the right one.
    UnknownAlias(Name),
    /// The end of a join, and the column that its table doesn't have. The left end comes before the right one.
    UnknownColumn(Name, Name),
    /// The alias that stands at both ends of a join.
    SelfJoin(Name),
    /// A fraction [n, d] without 1 ≤ n ≤ d ≤ [`INPUT_CAP`](dpe_base::INPUT_CAP). The filters come before the selectivities.
    BadFraction(FracPlace),
    /// The alias of the first relation that no walk along the joins reaches from the first relation of all.
    Disconnected(Name),
}

impl QueryRefusal {
    /// The refusal's number, from 1 to 9.
    pub fn code(&self) -> u8
        ensures { result ≡ refusal_code self.now }
    {
        match self {
            QueryRefusal::NoRelations => 1,
            QueryRefusal::TooManyRelations(_) => 2,
            QueryRefusal::DuplicateAlias(_) => 3,
            QueryRefusal::UnknownTable(_) => 4,
            QueryRefusal::UnknownAlias(_) => 5,
            QueryRefusal::UnknownColumn(_, _) => 6,
            QueryRefusal::SelfJoin(_) => 7,
            QueryRefusal::BadFraction(_) => 8,
            QueryRefusal::Disconnected(_) => 9,
        }
    }
}

/// A query is refused, or memory ran out.
#[derive(Debug, Drop)]
pub enum Stop {
    /// Memory ran out, which says nothing of the query.
    NoMemory,
    /// The query is refused.
    Refused(QueryRefusal),
}

impl From<AllocError> for Stop {
    ghost from_gives = { λ _ e. e ≡ NoMemory };

    fn from(_: AllocError) -> Self {
        Stop::NoMemory
    }
}

impl<T: Drop> From<AllocFailed<T>> for Stop {
    ghost from_gives = { λ _ e. e ≡ NoMemory };

    fn from(_: AllocFailed<T>) -> Self {
        Stop::NoMemory
    }
}
