//! What a workload file holds.
use crate::items::Items;
use crate::refusal::QueryRefusal;
use dpe_base::{Name, Query};

/// A query, and the alias of each of its relations.
#[derive(Drop)]
pub struct Named {
    /// The relations and the predicates.
    pub query: Query,
    /// The alias of each relation, at the relation's number.
    pub aliases: Items<Name>,
}

/// A query of the file, or why it is refused.
#[derive(Drop)]
pub enum Part {
    /// A connected query within the limits.
    Accepted(Named),
    /// Why there is none.
    Refused(QueryRefusal),
}

/// What the file holds under the name of a query.
#[derive(Drop)]
pub struct Entry {
    /// The query's name, which another one may have too.
    pub name: Name,
    /// The query, or why it is refused.
    pub part: Part,
}
