//! The entries of a file.
ghost use Rattle.std.specs.Prelude.{◌≡◌, All, IfOk, OnOk, length, map};
ghost use Rattle.dpe_base.specs.Queries.{IsQuery, relations};
ghost use Rattle.dpe_base.specs.Sets.{full};
ghost use Rattle.join_graph.specs.Graphs.{Connected, graph_of};
ghost use Rattle.query_json.specs.Answer.{Tells};
ghost use Rattle.query_json.specs.Entries.{entry_of};
ghost use Rattle.query_json.specs.Queries.{named, named_of, or_disconnected, query_of};
ghost use Rattle.query_json.specs.Walk.Limits.{IsQueryWithin, IsTableWithin};
ghost use Rattle.query_json.specs.Sound.{IsEntrySound, IsSound};
ghost use Rattle.query_json.specs.Queries.Unreached.{first_unreached};

use crate::entry::{Entry, Named, Part};
use crate::file::{QueryItem, RelationItem};
use crate::items::Items;
use crate::query::aliases::check_aliases;
use crate::query::scope::Scope;
use crate::query::{check_apart, check_size, known_tables};
use crate::refusal::{QueryRefusal, Stop};
use crate::tables::Tables;
use dpe_base::{Name, Pred, Query, Rel};
use join_graph::Graph;
use std::alloc::{AllocError, Global};

// The query's two lists.
#[tactic(auto, unfolding(crate::specs::Queries::query_of))]
fn lists_of<'t, 'a>(
    alloc: Global,
    tables: &'t Tables<'t, 'a>,
    item: &'t QueryItem<'a>,
) -> Result<(Vec<Rel>, Vec<Pred>), Stop>
    requires { IsQueryWithin item.now }
    ensures { Tells (λ p. record { rels = p.0.items; preds = p.1.items }) result
        (query_of tables.entry.now item.entry.now) }
{
    let relations = item.relations.as_slice();
    check_size(relations)?;
    check_aliases(alloc, relations)?;
    let known = known_tables(alloc, tables, relations)?;
    let scope = Scope::new(tables, item, known);
    let ends = scope.all_ends(alloc)?;
    let distinct = scope.all_distinct(alloc, ends.as_slice())?;
    check_apart(alloc, item.joins.as_slice())?;
    let rels = scope.all_rels(alloc)?;
    let preds = scope.all_preds(alloc, ends.as_slice(), distinct.as_slice())?;
    Ok((rels, preds))
}

fn query_of<'t, 'a>(
    alloc: Global,
    tables: &'t Tables<'t, 'a>,
    item: &'t QueryItem<'a>,
) -> Result<Query, Stop>
    requires within { All IsTableWithin tables.now }
    requires few { IsQueryWithin item.now }
    ensures value { Tells (λ q. q) result (query_of tables.entry.now item.entry.now) }
    ensures valid { IfOk result (λ q. IsQuery q × (relations q ≡ length item.entry.now.relations)) }
{
    let (rels, preds) = lists_of(alloc, tables, item)?;
    let query = Query::new(rels, preds).unwrap();
    Ok(query)
}

fn check_connected(alloc: Global, query: &Query, items: &[RelationItem]) -> Result<(), Stop>
    requires valid { IsQuery query.now }
    requires sized { length items.now ≡ relations query.now }
    ensures value { Tells (λ u. u) result (or_disconnected items.now (first_unreached query.now)) }
    ensures connected { OnOk result (Connected (graph_of query.now) (full (relations query.now))) }
{
    match Graph::of(query).first_unreached() {
        None => Ok(()),
        Some(r) => {
            let alias = items[r as usize].alias.to_name(alloc)?;
            Err(Stop::Refused(QueryRefusal::Disconnected(alias)))
        }
    }
}

fn aliases_of(alloc: Global, relations: &[RelationItem]) -> Result<Items<Name>, AllocError>
    ensures { IfOk result (λ v. v ≡ map (λ r. r.alias) relations.now) }
{
    let mut aliases = Items::with_capacity(alloc, relations.len())?;
    for relation in relations {
        let alias = relation.alias.to_name(alloc)?;
        aliases.push(alias)?;
    }
    Ok(aliases)
}

// The query, where it is connected.
#[tactic(auto, unfolding(crate::specs::Queries::named_of))]
fn connected_query<'t, 'a>(
    alloc: Global,
    tables: &'t Tables<'t, 'a>,
    item: &'t QueryItem<'a>,
) -> Result<Query, Stop>
    requires within { All IsTableWithin tables.now }
    requires few { IsQueryWithin item.now }
    ensures value { Tells (λ q. named item.entry.now q) result (named_of tables.entry.now item.entry.now) }
    ensures sound { IfOk result (λ q. IsSound (named item.entry.now q)) }
{
    let query = query_of(alloc, tables, item)?;
    check_connected(alloc, &query, item.relations.as_slice())?;
    Ok(query)
}

#[tactic(auto, unfolding(crate::specs::Entries::entry_of))]
fn entry_of(alloc: Global, tables: &Tables, item: &QueryItem) -> Result<Entry, AllocError>
    requires within { All IsTableWithin tables.now }
    requires few { IsQueryWithin item.now }
    ensures value { IfOk result (λ e. e ≡ entry_of tables.now item.now) }
    ensures sound { IfOk result IsEntrySound }
{
    let part = match connected_query(alloc, tables, item) {
        Ok(query) => Part::Accepted(Named {
            query,
            aliases: aliases_of(alloc, item.relations.as_slice())?,
        }),
        Err(Stop::Refused(refusal)) => Part::Refused(refusal),
        Err(Stop::NoMemory) => return Err(AllocError),
    };
    let name = item.name.to_name(alloc)?;
    Ok(Entry { name, part })
}

/// The entry of each query.
pub fn entries_of(
    alloc: Global,
    tables: &Tables,
    queries: &[QueryItem],
) -> Result<Items<Entry>, AllocError>
    requires within { All IsTableWithin tables.now }
    requires few { All IsQueryWithin queries.now }
    ensures value { IfOk result (λ v. v ≡ map (entry_of tables.now) queries.now) }
    ensures sound { IfOk result (All IsEntrySound) }
{
    let mut entries = Items::with_capacity(alloc, queries.len())?;
    for query in queries {
        let one = entry_of(alloc, tables, query)?;
        entries.push(one)?;
    }
    Ok(entries)
}
