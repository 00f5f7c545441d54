ghost use Rattle.std.specs.Prelude.{◌≡◌, ℕ, IfOk};
ghost use Rattle.serde_json.specs.Data.{Data, array};
ghost use Rattle.serde_json.specs.View.{view};
ghost use Rattle.workload_gen.specs.Values.{join_value, query_value, relation_value, table_value, values};

use crate::sample::{Join, KEPT_OF, Query, Relation, Table};
use serde_json::{Value, json};
use std::alloc::{AllocError, Global};

/// A part of a sample, as it stands in the file.
pub trait Part {
    /// Its value, at its place in the list.
    ghost value_of: { ℕ → Self → Data };

    /// The value of the part at place `at`. Fails where there is no memory.
    fn value(&self, alloc: Global, at: u64) -> Result<Value, AllocError>
        ensures { IfOk result (λ v. view v ≡ value_of at self.now) };
}

impl Part for Table {
    ghost value_of = { table_value };

    #[tactic(auto, unfolding(crate::specs::Values::table_value))]
    fn value(&self, alloc: Global, at: u64) -> Result<Value, AllocError> {
        let name = format!(in alloc; "t{at}")?;
        let rows = self.rows;
        let distinct = self.distinct;
        json!(in alloc; {"name": name, "rows": rows, "columns": [{"name": "k", "distinct": distinct}]})
    }
}

impl Part for Relation {
    ghost value_of = { relation_value };

    #[tactic(auto, unfolding(crate::specs::Values::relation_value))]
    fn value(&self, alloc: Global, at: u64) -> Result<Value, AllocError> {
        let alias = format!(in alloc; "r{at}")?;
        let table = self.table;
        let table = format!(in alloc; "t{table}")?;
        let kept = self.kept;
        json!(in alloc; {"alias": alias, "table": table, "filter": [kept, KEPT_OF]})
    }
}

impl Part for Join {
    ghost value_of = { join_value };

    #[tactic(auto, unfolding(crate::specs::Values::join_value))]
    fn value(&self, alloc: Global, _at: u64) -> Result<Value, AllocError> {
        let left = self.left;
        let left = format!(in alloc; "r{left}")?;
        let right = self.right;
        let right = format!(in alloc; "r{right}")?;
        match self.one_in {
            None => {
                json!(in alloc; {"left": left, "right": right, "left_column": "k", "right_column": "k"})
            }
            Some(one_in) => {
                json!(in alloc; {"left": left, "right": right, "selectivity": [1u64, one_in]})
            }
        }
    }
}

impl Part for Query {
    ghost value_of = { query_value };

    #[tactic(auto, unfolding(crate::specs::Values::query_value))]
    fn value(&self, alloc: Global, at: u64) -> Result<Value, AllocError> {
        let name = format!(in alloc; "q{at}")?;
        let relations = values(alloc, self.relations.as_slice())?;
        let joins = values(alloc, self.joins.as_slice())?;
        json!(in alloc; {"name": name, "relations": relations, "joins": joins})
    }
}

/// The values of the parts, as one array. Fails where there is no memory.
pub fn values<T: Part>(alloc: Global, parts: &[T]) -> Result<Value, AllocError>
    ensures { IfOk result (λ v. view v ≡ array (values T.value_of 0 parts.now)) }
{
    let mut list = Vec::new(alloc);
    for (at, part) in parts.iter().enumerate() {
        list.push(part.value(alloc, at as u64)?)?;
    }
    Ok(Value::Array(list))
}
