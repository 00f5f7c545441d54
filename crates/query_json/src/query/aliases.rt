//! The aliases of a query's relations, which the joins name.
ghost use Rattle.std.specs.Prelude.{◌≡◌, map, position};
ghost use Rattle.std.specs.Str.{bytes_eq};
ghost use Rattle.query_json.specs.Answer.{Tells};
ghost use Rattle.query_json.specs.Queries.{aliases_of};

use crate::file::RelationItem;
use crate::refusal::{QueryRefusal, Stop};
use std::alloc::Global;

/// The number of the relation with an alias. There are few relations, so it looks at one after the other.
pub fn number_of(relations: &[RelationItem], alias: &str) -> Option<usize>
    ensures { result ≡ position (λ r. bytes_eq alias.now r.alias) relations.now }
{
    relations.iter().position(|r| alias == r.alias.text())
}

/// Refuses an alias that stands twice.
pub fn check_aliases(alloc: Global, relations: &[RelationItem]) -> Result<(), Stop>
    ensures { Tells (λ _. map (λ r. r.alias) relations.now) result (aliases_of relations.now) }
{
    'relations: for (at, relation) in relations.iter().enumerate() {
        if number_of(&relations[..at], relation.alias.text()).is_some() {
            let alias = relation.alias.to_name(alloc)?;
            return Err(Stop::Refused(QueryRefusal::DuplicateAlias(alias)));
        }
    }
    Ok(())
}
