//! The walk through a file, site by site.
ghost use Rattle.std.specs.Prelude.{◌≡◌, ℕ, IfOk, Result, map, option_map};
ghost use Rattle.serde_json.specs.Data.{Data};
ghost use Rattle.serde_json.specs.View.{items_of};
ghost use Rattle.query_json.specs.declared.fault.FileFault.{FileFault};
ghost use Rattle.query_json.specs.declared.file.Version.{Version};
ghost use Rattle.query_json.specs.declared.file.Version.TheVariants.{Two};
ghost use Rattle.query_json.specs.Answer.{Gives};
ghost use Rattle.query_json.specs.Walk.Limits.{IsFileWithin};
ghost use Rattle.query_json.specs.Walk.{as_ratio, each, column_at, columns_at, table_at, relation_at, selectivity_at, join_at, joins_at, query_at, file_at};

mod decimal;
mod fields;
pub mod node;
mod number;
pub mod tree;

use crate::COLUMNS_MAX;
use crate::fault::FileFault;
use crate::file::{Column, File, JoinItem, QueryItem, Ratio, RelationItem, Table, Version};
use crate::items::Items;
use crate::place::{Place, Site};
pub use crate::walk::fields::is_name;
use crate::walk::fields::{
    array_of, as_ratio, name_of, object_of, optional_array_of, optional_name_of, optional_ratio_of,
    version_of, whole_of,
};
use crate::walk::node::Node;
use dpe_base::{INPUT_CAP, PREDS_MAX};
use std::alloc::Global;

fn place(site: Site, i: u64, j: u64) -> Place
    ensures { result ≡ record { site = site; i = i; j = j } }
{
    Place { site, i, j }
}

/// A member of a list, which is read by its place in a file of a version.
pub trait Element<'v>: Drop {
    ghost reads: { Version → ℕ → ℕ → Data → Result Self FileFault };

    /// The member at the place `at` of a list that stands in the table or query `outer`.
    fn read<N: Node>(
        alloc: Global,
        version: Version,
        outer: u64,
        at: u64,
        node: &'v N,
    ) -> Result<Self, FileFault>
    where
        Self: Sized,
        ensures { Gives result (reads version outer at (N.as_data node.now)) };
}

/// The members of a list in order.
pub fn elements<'v, T: Element<'v>, N: Node>(
    alloc: Global,
    version: Version,
    outer: u64,
    nodes: &'v [N],
) -> Result<Items<T>, FileFault>
    ensures { Gives result (each (T.reads version outer) 0 (items_of (map N.as_data nodes.now))) }
{
    let mut items = Items::with_capacity(alloc, nodes.len())?;
    for (at, node) in nodes.iter().enumerate() {
        let element = T::read(alloc, version, outer, at as u64, node)?;
        items.push(element)?;
    }
    Ok(items)
}

impl<'v> Element<'v> for Column<'v> {
    ghost reads = { λ version. column_at };

    #[tactic(auto, unfolding(crate::specs::Walk::column_at))]
    fn read<N: Node>(
        alloc: Global,
        version: Version,
        outer: u64,
        at: u64,
        node: &'v N,
    ) -> Result<Self, FileFault> {
        object_of(node, place(Site::Column, outer, at))?;
        let name = name_of(node.member("name"), place(Site::ColumnName, outer, at))?;
        let distinct = whole_of(
            node.member("distinct"),
            INPUT_CAP,
            place(Site::Distinct, outer, at),
        )?;
        Ok(Column { name, distinct })
    }
}

#[tactic(auto, unfolding(crate::specs::Walk::columns_at))]
fn columns_of<'v, N: Node>(
    alloc: Global,
    version: Version,
    i: u64,
    member: Option<&'v N>,
) -> Result<Items<Column<'v>>, FileFault>
    ensures { Gives result (columns_at i (option_map (λ v. N.as_data v.now) member.entry)) }
{
    match optional_array_of(member, COLUMNS_MAX, place(Site::Columns, i, 0))? {
        Some(values) => elements(alloc, version, i, values),
        None => Ok(Items::new(alloc)),
    }
}

impl<'v> Element<'v> for Table<'v> {
    ghost reads = { λ version. table_at };

    #[tactic(auto, unfolding(crate::specs::Walk::table_at))]
    fn read<N: Node>(
        alloc: Global,
        version: Version,
        outer: u64,
        at: u64,
        node: &'v N,
    ) -> Result<Self, FileFault> {
        object_of(node, place(Site::Table, at, 0))?;
        let name = name_of(node.member("name"), place(Site::TableName, at, 0))?;
        let rows = whole_of(
            node.member("rows"),
            INPUT_CAP,
            place(Site::TableRows, at, 0),
        )?;
        let columns = columns_of(alloc, version, at, node.member("columns"))?;
        Ok(Table {
            name,
            rows,
            columns,
        })
    }
}

impl<'v> Element<'v> for RelationItem<'v> {
    ghost reads = { relation_at };

    #[tactic(auto, unfolding(crate::specs::Walk::relation_at))]
    fn read<N: Node>(
        alloc: Global,
        version: Version,
        outer: u64,
        at: u64,
        node: &'v N,
    ) -> Result<Self, FileFault> {
        object_of(node, place(Site::Relation, outer, at))?;
        let alias = name_of(node.member("alias"), place(Site::Alias, outer, at))?;
        let table = name_of(node.member("table"), place(Site::TableRef, outer, at))?;
        let filter = optional_ratio_of(
            version,
            node.member("filter"),
            place(Site::Filter, outer, at),
        )?;
        Ok(RelationItem {
            alias,
            table,
            filter,
        })
    }
}

#[tactic(auto, unfolding(crate::specs::Walk::selectivity_at))]
fn selectivity_of<N: Node>(
    version: Version,
    member: Option<&N>,
    has_columns: bool,
    place: Place,
) -> Result<Option<Ratio>, FileFault>
    ensures { Gives result (selectivity_at version place has_columns (option_map (λ v. N.as_data v.now) member.entry)) }
{
    let found = optional_ratio_of(version, member, place)?;
    if !has_columns && found.is_none() {
        return Err(FileFault::Shape(place));
    }
    Ok(found)
}

impl<'v> Element<'v> for JoinItem<'v> {
    ghost reads = { join_at };

    #[tactic(auto, unfolding(crate::specs::Walk::join_at))]
    fn read<N: Node>(
        alloc: Global,
        version: Version,
        outer: u64,
        at: u64,
        node: &'v N,
    ) -> Result<Self, FileFault> {
        object_of(node, place(Site::JoinItem, outer, at))?;
        let left = name_of(node.member("left"), place(Site::Left, outer, at))?;
        let right = name_of(node.member("right"), place(Site::Right, outer, at))?;
        let left_column = optional_name_of(
            node.member("left_column"),
            place(Site::LeftColumn, outer, at),
        )?;
        let right_column = optional_name_of(
            node.member("right_column"),
            place(Site::RightColumn, outer, at),
        )?;
        let has_columns = left_column.is_some() && right_column.is_some();
        let selectivity = selectivity_of(
            version,
            node.member("selectivity"),
            has_columns,
            place(Site::Selectivity, outer, at),
        )?;
        Ok(JoinItem {
            left,
            right,
            left_column,
            right_column,
            selectivity,
        })
    }
}

#[tactic(auto, unfolding(crate::specs::Walk::joins_at))]
fn joins_of<'v, N: Node>(
    alloc: Global,
    version: Version,
    i: u64,
    member: Option<&'v N>,
) -> Result<Items<JoinItem<'v>>, FileFault>
    ensures { Gives result (joins_at version i (option_map (λ v. N.as_data v.now) member.entry)) }
{
    match optional_array_of(member, PREDS_MAX, place(Site::Joins, i, 0))? {
        Some(values) => elements(alloc, version, i, values),
        None => Ok(Items::new(alloc)),
    }
}

impl<'v> Element<'v> for QueryItem<'v> {
    ghost reads = { query_at };

    #[tactic(auto, unfolding(crate::specs::Walk::query_at))]
    fn read<N: Node>(
        alloc: Global,
        version: Version,
        outer: u64,
        at: u64,
        node: &'v N,
    ) -> Result<Self, FileFault> {
        object_of(node, place(Site::QueryItem, at, 0))?;
        let name = name_of(node.member("name"), place(Site::QueryName, at, 0))?;
        let Some(list) = array_of(node.member("relations")) else {
            return Err(FileFault::Shape(place(Site::Relations, at, 0)));
        };
        let relations = elements(alloc, version, at, list)?;
        let joins = joins_of(alloc, version, at, node.member("joins"))?;
        Ok(QueryItem {
            name,
            relations,
            joins,
        })
    }
}

#[tactic(auto, unfolding(crate::specs::Walk::file_at))]
fn parts_of<'v, N: Node>(alloc: Global, root: &'v N) -> Result<File<'v>, FileFault>
    ensures { Gives result (file_at (N.as_data root.now)) }
{
    object_of(root, place(Site::Root, 0, 0))?;
    let version = version_of(root.member("version"))?;
    let Some(table_list) = array_of(root.member("tables")) else {
        return Err(FileFault::Shape(place(Site::Tables, 0, 0)));
    };
    let tables = elements(alloc, version, 0, table_list)?;
    let Some(query_list) = array_of(root.member("queries")) else {
        return Err(FileFault::Shape(place(Site::Queries, 0, 0)));
    };
    let queries = elements(alloc, version, 0, query_list)?;
    Ok(File { tables, queries })
}

/// What a file says.
pub fn file_at<'v, N: Node>(alloc: Global, root: &'v N) -> Result<File<'v>, FileFault>
    ensures value { Gives result (file_at (N.as_data root.now)) }
    ensures within { IfOk result IsFileWithin }
{
    parts_of(alloc, root)
}

/// The fraction that a filter or a selectivity in version 2 means: an array of two whole numbers, or a decimal text. None where
/// the value is neither.
pub fn ratio_of<N: Node>(node: &N) -> Option<Ratio>
    ensures { result ≡ as_ratio Two (N.as_data node.now) }
{
    as_ratio(Version::Two, node)
}
