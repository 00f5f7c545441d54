use std::marker::Model;

/// How many tables a sample has.
pub const TABLES: u64 = 8;

/// How many queries a sample has.
pub const QUERIES: u64 = 8;

/// Of so many rows a filter says how many it keeps.
pub const KEPT_OF: u64 = 100;

/// A table: its rows, and the distinct values of its one column.
#[derive(Clone, Copy)]
pub struct Table {
    pub rows: u64,
    pub distinct: u64,
}

/// A relation: the number of its table, and how many of [`KEPT_OF`] rows its filter keeps.
#[derive(Clone, Copy)]
pub struct Relation {
    pub table: u64,
    pub kept: u64,
}

/// A join of two relations, given by their numbers. It keeps one pair in `one_in`, and where there
/// is no such number it is a join by the two columns.
#[derive(Clone, Copy)]
pub struct Join {
    pub left: u64,
    pub right: u64,
    pub one_in: Option<u64>,
}

/// A query, which contracts see as its two lists.
#[derive(Drop)]
pub struct Query {
    pub relations: Vec<Relation>,
    pub joins: Vec<Join>,
}

impl Model for Query {
    ghost use Rattle.workload_gen.specs.Sample.{SampleQuery};

    ghost Value = { SampleQuery };

    ghost view = { λ q. record { relations = q.relations.items; joins = q.joins.items } };
}
