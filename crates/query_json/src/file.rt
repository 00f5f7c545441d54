//! What a workload file says, part by part, with no name looked up.
use crate::items::Items;
use crate::label::Label;

/// A column of a table, and how many distinct values it has.
#[derive(Debug, Drop)]
pub struct Column<'a> {
    /// The name, which another column of the table may have too.
    pub name: Label<'a>,
    /// How many values it has.
    pub distinct: u64,
}

/// A table, its rows and its columns.
#[derive(Debug, Drop)]
pub struct Table<'a> {
    /// The name.
    pub name: Label<'a>,
    /// How many rows it has.
    pub rows: u64,
    /// The columns, none where the file gives none.
    pub columns: Items<Column<'a>>,
}

/// The version of the format that a file is in.
#[derive(Clone, Copy, Debug, PartialEq, Eq)]
pub enum Version {
    /// The first one, also of a file that names none: a fraction is an array.
    One,
    /// A fraction may also be a decimal text.
    Two,
}

/// Two whole numbers, not yet looked at.
#[derive(Clone, Copy, Debug, PartialEq, Eq)]
pub struct Ratio {
    /// The first number.
    pub num: u64,
    /// The second number.
    pub den: u64,
}

/// A relation of a query: the name of its table, and what its filter keeps.
#[derive(Debug, Drop)]
pub struct RelationItem<'a> {
    /// What the joins call the relation.
    pub alias: Label<'a>,
    /// The name of its table.
    pub table: Label<'a>,
    /// The fraction of the rows that stay.
    pub filter: Option<Ratio>,
}

/// A join of a query: the aliases of its ends, and its columns or its selectivity.
#[derive(Debug, Drop)]
pub struct JoinItem<'a> {
    /// The alias of one end.
    pub left: Label<'a>,
    /// The alias of the other end.
    pub right: Label<'a>,
    /// A column of the left end's table.
    pub left_column: Option<Label<'a>>,
    /// A column of the right end's table.
    pub right_column: Option<Label<'a>>,
    /// The fraction of the pairs that stay.
    pub selectivity: Option<Ratio>,
}

/// A query as the file has it.
#[derive(Debug, Drop)]
pub struct QueryItem<'a> {
    /// The name.
    pub name: Label<'a>,
    /// The relations, in the order of their numbers.
    pub relations: Items<RelationItem<'a>>,
    /// The joins, none where the file gives none.
    pub joins: Items<JoinItem<'a>>,
}

/// A whole file.
#[derive(Debug, Drop)]
pub struct File<'a> {
    /// The tables.
    pub tables: Items<Table<'a>>,
    /// The queries.
    pub queries: Items<QueryItem<'a>>,
}
