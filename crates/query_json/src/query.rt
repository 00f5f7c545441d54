//! What a query of the file means, pass by pass: each pass finds the refusals of one kind.
ghost use Rattle.std.specs.Prelude.{◌<◌, map};
ghost use Rattle.query_json.specs.Answer.{Tells};
ghost use Rattle.query_json.specs.Queries.{apart, checked, each_of, filter_of, fraction_at, pred_over, rel_over, selectivity_over, sized, table_of};

pub mod aliases;
pub mod entries;
pub mod scope;

use crate::file::{JoinItem, Ratio, RelationItem};
use crate::query::scope::Ends;
use crate::refusal::{FracPlace, QueryRefusal, Stop};
use crate::tables::Tables;
use crate::tables::known_table::KnownTable;
use dpe_base::{INPUT_CAP, N_MAX, Pred, Rel};
use std::alloc::Global;

/// Refuses a query without relations, or with more than [`N_MAX`].
pub fn check_size(relations: &[RelationItem]) -> Result<(), Stop>
    ensures { Tells (λ u. u) result (sized relations.now) }
{
    if relations.is_empty() {
        return Err(Stop::Refused(QueryRefusal::NoRelations));
    }
    if relations.len() > N_MAX {
        return Err(Stop::Refused(QueryRefusal::TooManyRelations(relations.len() as u64)));
    }
    Ok(())
}

fn table_of<'t, 'a>(
    alloc: Global,
    tables: &'t Tables<'t, 'a>,
    relation: &RelationItem,
) -> Result<&'t KnownTable<'t, 'a>, Stop>
    ensures { Tells (λ t. t.now) result (table_of tables.entry.now relation.now) }
{
    match tables.named(relation.table.text()) {
        Some(table) => Ok(table),
        None => {
            let table = relation.table.to_name(alloc)?;
            Err(Stop::Refused(QueryRefusal::UnknownTable(table)))
        }
    }
}

/// The table of each relation, at the relation's number. It refuses a relation whose table the file does not have.
pub fn known_tables<'t, 'a>(
    alloc: Global,
    tables: &'t Tables<'t, 'a>,
    relations: &[RelationItem],
) -> Result<Vec<&'t KnownTable<'t, 'a>>, Stop>
    ensures { Tells (λ v. map (λ t. t.now) v.items) result (each_of (table_of tables.entry.now) relations.now) }
{
    let mut known = Vec::with_capacity(alloc, relations.len())?;
    for relation in relations {
        let table = table_of(alloc, tables, relation)?;
        known.push(table)?;
    }
    Ok(known)
}

/// Refuses a join with one alias at both ends.
pub fn check_apart(alloc: Global, joins: &[JoinItem]) -> Result<(), Stop>
    ensures { Tells (λ u. u) result (checked apart joins.now) }
{
    for join in joins {
        if join.left.text() == join.right.text() {
            let alias = join.left.to_name(alloc)?;
            return Err(Stop::Refused(QueryRefusal::SelfJoin(alias)));
        }
    }
    Ok(())
}

fn fraction_at(place: FracPlace, ratio: Ratio) -> Result<Ratio, Stop>
    ensures { Tells (λ r. r) result (fraction_at place ratio) }
{
    if 1 <= ratio.num && ratio.num <= ratio.den && ratio.den <= INPUT_CAP {
        Ok(ratio)
    } else {
        Err(Stop::Refused(QueryRefusal::BadFraction(place)))
    }
}

fn filter_of(at: u32, filter: Option<Ratio>) -> Result<Ratio, Stop>
    ensures { Tells (λ r. r) result (filter_of at filter) }
{
    match filter {
        None => Ok(Ratio { num: 1, den: 1 }),
        Some(ratio) => fraction_at(FracPlace::Relation(at), ratio),
    }
}

/// A relation with the rows of its table and the fraction of its filter.
pub fn rel_over(table: &KnownTable, at: u32, relation: &RelationItem) -> Result<Rel, Stop>
    ensures { Tells (λ r. r) result (rel_over table.now at relation.now) }
{
    let Ratio { num, den } = filter_of(at, relation.filter)?;
    Ok(Rel {
        rows: table.rows(),
        num,
        den,
    })
}

fn selectivity_over(distinct: u64, at: u32, selectivity: Option<Ratio>) -> Result<Ratio, Stop>
    ensures { Tells (λ r. r) result (selectivity_over distinct at selectivity) }
{
    match selectivity {
        None => Ok(Ratio {
            num: 1,
            den: distinct,
        }),
        Some(ratio) => fraction_at(FracPlace::Join(at), ratio),
    }
}

/// A join as a predicate between the relations at its ends.
pub fn pred_over(ends: Ends, distinct: u64, at: u32, join: &JoinItem) -> Result<Pred, Stop>
    requires left { ends.left < N_MAX }
    requires right { ends.right < N_MAX }
    ensures { Tells (λ p. p) result (pred_over ends distinct at join.now) }
{
    let Ends { left, right } = ends;
    let Ratio { num, den } = selectivity_over(distinct, at, join.selectivity)?;
    Ok(Pred {
        low: left.min(right) as u8,
        high: left.max(right) as u8,
        num,
        den,
    })
}
