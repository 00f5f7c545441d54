//! A query over the tables of its file: its names are looked up here, each of them once.
ghost use Rattle.std.specs.Prelude.{◌≡◌, ◌≤◌, Some, Ok, length, option_map, map, position};
ghost use Rattle.std.specs.Str.{bytes_eq};
ghost use Rattle.query_json.specs.declared.refusal.QueryRefusal.TheVariants.{UnknownAlias};
ghost use Rattle.query_json.specs.Answer.{Tells};
ghost use Rattle.query_json.specs.Queries.{all_of, count_of, each_of, ends_of, most_distinct, pred_of, rel_of, relation_number, table_of};

use crate::file::{JoinItem, QueryItem};
use crate::label::Label;
use crate::query::aliases::number_of;
use crate::query::{pred_over, rel_over};
use crate::refusal::{QueryRefusal, Stop};
use crate::tables::Tables;
use crate::tables::known_table::KnownTable;
use dpe_base::{N_MAX, PREDS_MAX, Pred, Rel};
use std::alloc::Global;
use std::marker::Model;

/// The numbers of the relations at a join's ends.
#[derive(Clone, Copy, Debug, PartialEq, Eq)]
pub struct Ends {
    /// The relation whose alias stands first.
    pub left: usize,
    /// The relation whose alias stands second.
    pub right: usize,
}

/// A query over the tables of the file, with the table of each relation at its number.
#[derive(Drop)]
pub struct Scope<'t, 'a> {
    tables: &'t Tables<'t, 'a>,
    item: &'t QueryItem<'a>,
    known: Vec<&'t KnownTable<'t, 'a>>,
}

impl<'t, 'a> Model for Scope<'t, 'a> {
    ghost use Rattle.std.specs.Prelude.{◌≡◌, ◌≤◌, Ok, length, map};
    ghost use Rattle.query_json.specs.Queries.{each_of, table_of};
    ghost use Rattle.dpe_base.specs.declared.TheConstants.{N_MAX};
    ghost use Rattle.query_json.specs.Queries.Scope.{Scope};

    ghost Value = { Scope };

    ghost view = { λ s. record { tables = s.tables.now; item = s.item.now } };

    ghost invariant = { λ s. (each_of (table_of s.tables.now) s.item.now.relations ≡ Ok (map (λ t. t.now) s.known.items))
        × (length s.item.now.relations ≤ N_MAX) };
}

impl<'t, 'a> Scope<'t, 'a> {
    /// The query over the tables, with what was found for each relation.
    pub fn new(
        tables: &'t Tables<'t, 'a>,
        item: &'t QueryItem<'a>,
        known: Vec<&'t KnownTable<'t, 'a>>,
    ) -> Scope<'t, 'a>
        requires few { length item.now.relations ≤ N_MAX }
        requires known { each_of (table_of tables.now) item.now.relations ≡ Ok (map (λ t. t.now) known.items) }
        ensures { result ≡ record { tables = tables.entry.now; item = item.entry.now } }
    {
        Scope {
            tables,
            item,
            known,
        }
    }

    fn number(&self, alloc: Global, alias: &Label) -> Result<usize, Stop>
        ensures { Tells (λ n. n) result (relation_number self.now.item.relations (UnknownAlias alias.now) alias.now) }
    {
        match number_of(self.item.relations.as_slice(), alias.text()) {
            Some(number) => Ok(number),
            None => {
                let alias = alias.to_name(alloc)?;
                Err(Stop::Refused(QueryRefusal::UnknownAlias(alias)))
            }
        }
    }

    fn ends(&self, alloc: Global, join: &JoinItem) -> Result<Ends, Stop>
        ensures { Tells (λ e. e) result (ends_of self.now.item.relations join.now) }
    {
        let left = self.number(alloc, &join.left)?;
        let right = self.number(alloc, &join.right)?;
        Ok(Ends { left, right })
    }

    /// The ends of each join. It refuses an end that is no alias of the query, a left end before a right one.
    pub fn all_ends(&self, alloc: Global) -> Result<Vec<Ends>, Stop>
        ensures { Tells (λ v. v.items) result (each_of (ends_of self.now.item.relations) self.now.item.joins) }
    {
        let joins = self.item.joins.as_slice();
        let mut all = Vec::with_capacity(alloc, joins.len())?;
        for join in joins {
            let ends = self.ends(alloc, join)?;
            all.push(ends)?;
        }
        Ok(all)
    }

    // The distinct count of the column at a join's end: 1 where none is given.
    fn count(
        &self,
        alloc: Global,
        number: usize,
        alias: &Label,
        column: Option<&Label>,
    ) -> Result<u64, Stop>
        requires { position (λ r. bytes_eq alias.now r.alias) self.now.item.relations ≡ Some number }
        ensures { Tells (λ n. n) result
            (count_of self.now.tables self.now.item.relations alias.now (option_map (λ c. c.now) column.entry)) }
    {
        let Some(column) = column else {
            return Ok(1);
        };
        let known = self.known.as_slice();
        let table = known[number];
        match table.distinct(column.text()) {
            Some(count) => Ok(count),
            None => {
                let alias = alias.to_name(alloc)?;
                let column = column.to_name(alloc)?;
                Err(Stop::Refused(QueryRefusal::UnknownColumn(alias, column)))
            }
        }
    }

    #[tactic(auto, unfolding(crate::specs::Queries::most_distinct))]
    fn most_distinct(&self, alloc: Global, join: &JoinItem, ends: Ends) -> Result<u64, Stop>
        requires { ends_of self.now.item.relations join.now ≡ Ok ends }
        ensures { Tells (λ n. n) result (most_distinct self.now.tables self.now.item.relations join.now) }
    {
        let Ends { left, right } = ends;
        let left = self.count(alloc, left, &join.left, join.left_column.as_ref())?;
        let right = self.count(alloc, right, &join.right, join.right_column.as_ref())?;
        Ok(left.max(right).max(1))
    }

    /// The greatest of 1 and the distinct counts of each join's columns. It refuses a column that the table at its end does
    /// not have, a left one before a right one.
    pub fn all_distinct(&self, alloc: Global, ends: &[Ends]) -> Result<Vec<u64>, Stop>
        requires { each_of (ends_of self.now.item.relations) self.now.item.joins ≡ Ok ends.now }
        ensures { Tells (λ v. v.items) result
            (each_of (most_distinct self.now.tables self.now.item.relations) self.now.item.joins) }
    {
        let joins = self.item.joins.as_slice();
        let mut all = Vec::with_capacity(alloc, joins.len())?;
        for (at, join) in joins.iter().enumerate() {
            let joined = ends[at];
            let distinct = self.most_distinct(alloc, join, joined)?;
            all.push(distinct)?;
        }
        Ok(all)
    }

    /// Each relation with the rows of its table and the fraction of its filter. It refuses a filter that is no fraction.
    pub fn all_rels(&self, alloc: Global) -> Result<Vec<Rel>, Stop>
        ensures { Tells (λ v. v.items) result (all_of (rel_of self.now.tables) 0 self.now.item.relations) }
    {
        let relations = self.item.relations.as_slice();
        let known = self.known.as_slice();
        let mut rels = Vec::with_capacity(alloc, relations.len())?;
        for (at, relation) in relations.iter().enumerate() {
            let table = known[at];
            let rel = rel_over(table, at as u32, relation)?;
            rels.push(rel)?;
        }
        Ok(rels)
    }

    /// Each join as a predicate between two relations. It refuses a selectivity that is no fraction.
    pub fn all_preds(
        &self,
        alloc: Global,
        ends: &[Ends],
        distinct: &[u64],
    ) -> Result<Vec<Pred>, Stop>
        requires few { length self.now.item.joins ≤ PREDS_MAX }
        requires ends { each_of (ends_of self.now.item.relations) self.now.item.joins ≡ Ok ends.now }
        requires distinct { each_of (most_distinct self.now.tables self.now.item.relations) self.now.item.joins ≡ Ok distinct.now }
        ensures { Tells (λ v. v.items) result
            (all_of (pred_of self.now.tables self.now.item.relations) 0 self.now.item.joins) }
    {
        let joins = self.item.joins.as_slice();
        let mut preds = Vec::with_capacity(alloc, joins.len())?;
        for (at, join) in joins.iter().enumerate() {
            let joined = ends[at];
            let most = distinct[at];
            let pred = pred_over(joined, most, at as u32, join)?;
            preds.push(pred)?;
        }
        Ok(preds)
    }
}
