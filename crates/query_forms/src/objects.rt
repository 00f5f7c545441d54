//! The objects of a file, each written with its members of the format alone.
ghost use Rattle.std.specs.Prelude.{◌≡◌, ◌++◌, IfOk, OnOk, Some, codes};
ghost use Rattle.serde_json.specs.Data.{number, unsigned};
ghost use Rattle.serde_json.specs.View.{view};
ghost use Rattle.query_forms.specs.Forms.{rewritten_column, rewritten_file, rewritten_join, rewritten_query, rewritten_relation, rewritten_table};
ghost use Rattle.query_forms.specs.Tokens.{tokens_of, tokens_of_member};

use crate::fraction::{fraction_in, write_fraction};
use crate::members::{
    Object, count_in, list_in, put_member, text_in, write_count, write_list, write_text,
};
use crate::text::Text;
use query_json::Node;
use serde_json::{Map, Value};
use std::alloc::{AllocError, Global};

/// A column of a table.
#[derive(Drop)]
pub struct Column;

/// A table.
#[derive(Drop)]
pub struct Table;

/// A relation of a query.
#[derive(Drop)]
pub struct Relation;

/// A join of a query.
#[derive(Drop)]
pub struct Join;

/// A query.
#[derive(Drop)]
pub struct Query;

impl Object for Column {
    ghost rewrites = { rewritten_column };

    #[tactic(auto, unfolding(crate::specs::Forms::rewritten_column))]
    fn rewrite(alloc: Global, value: &Value) -> Result<Value, AllocError> {
        let mut members = Map::new(alloc);
        let name = text_in(alloc, value.get("name"))?;
        put_member(&mut members, alloc, "name", name)?;
        let distinct = count_in(value.get("distinct"));
        put_member(&mut members, alloc, "distinct", distinct)?;
        Ok(Value::Object(members))
    }

    #[tactic(auto)]
    fn write<N: Node>(alloc: Global, out: &mut Text, node: &N) -> Result<(), AllocError> {
        out.begin_object()?;
        write_count(out, "distinct", node)?;
        write_text(out, "name", node)?;
        out.end_object()?;
        Ok(())
    }
}

impl Object for Table {
    ghost rewrites = { rewritten_table };

    #[tactic(auto, unfolding(crate::specs::Forms::rewritten_table))]
    fn rewrite(alloc: Global, value: &Value) -> Result<Value, AllocError> {
        let mut members = Map::new(alloc);
        let columns = list_in::<Column>(alloc, value.get("columns"))?;
        put_member(&mut members, alloc, "columns", columns)?;
        let name = text_in(alloc, value.get("name"))?;
        put_member(&mut members, alloc, "name", name)?;
        let rows = count_in(value.get("rows"));
        put_member(&mut members, alloc, "rows", rows)?;
        Ok(Value::Object(members))
    }

    #[tactic(auto)]
    fn write<N: Node>(alloc: Global, out: &mut Text, node: &N) -> Result<(), AllocError> {
        out.begin_object()?;
        write_list::<Column, N>(alloc, out, "columns", node)?;
        write_text(out, "name", node)?;
        write_count(out, "rows", node)?;
        out.end_object()?;
        Ok(())
    }
}

impl Object for Relation {
    ghost rewrites = { rewritten_relation };

    #[tactic(auto, unfolding(crate::specs::Forms::rewritten_relation))]
    fn rewrite(alloc: Global, value: &Value) -> Result<Value, AllocError> {
        let mut members = Map::new(alloc);
        let alias = text_in(alloc, value.get("alias"))?;
        put_member(&mut members, alloc, "alias", alias)?;
        let filter = fraction_in(alloc, value.get("filter"))?;
        put_member(&mut members, alloc, "filter", filter)?;
        let table = text_in(alloc, value.get("table"))?;
        put_member(&mut members, alloc, "table", table)?;
        Ok(Value::Object(members))
    }

    #[tactic(auto)]
    fn write<N: Node>(alloc: Global, out: &mut Text, node: &N) -> Result<(), AllocError> {
        out.begin_object()?;
        write_text(out, "alias", node)?;
        write_fraction(alloc, out, "filter", node)?;
        write_text(out, "table", node)?;
        out.end_object()?;
        Ok(())
    }
}

impl Object for Join {
    ghost rewrites = { rewritten_join };

    #[tactic(auto, unfolding(crate::specs::Forms::rewritten_join))]
    fn rewrite(alloc: Global, value: &Value) -> Result<Value, AllocError> {
        let mut members = Map::new(alloc);
        let left = text_in(alloc, value.get("left"))?;
        put_member(&mut members, alloc, "left", left)?;
        let left_column = text_in(alloc, value.get("left_column"))?;
        put_member(&mut members, alloc, "left_column", left_column)?;
        let right = text_in(alloc, value.get("right"))?;
        put_member(&mut members, alloc, "right", right)?;
        let right_column = text_in(alloc, value.get("right_column"))?;
        put_member(&mut members, alloc, "right_column", right_column)?;
        let selectivity = fraction_in(alloc, value.get("selectivity"))?;
        put_member(&mut members, alloc, "selectivity", selectivity)?;
        Ok(Value::Object(members))
    }

    #[tactic(auto)]
    fn write<N: Node>(alloc: Global, out: &mut Text, node: &N) -> Result<(), AllocError> {
        out.begin_object()?;
        write_text(out, "left", node)?;
        write_text(out, "left_column", node)?;
        write_text(out, "right", node)?;
        write_text(out, "right_column", node)?;
        write_fraction(alloc, out, "selectivity", node)?;
        out.end_object()?;
        Ok(())
    }
}

impl Object for Query {
    ghost rewrites = { rewritten_query };

    #[tactic(auto, unfolding(crate::specs::Forms::rewritten_query))]
    fn rewrite(alloc: Global, value: &Value) -> Result<Value, AllocError> {
        let mut members = Map::new(alloc);
        let joins = list_in::<Join>(alloc, value.get("joins"))?;
        put_member(&mut members, alloc, "joins", joins)?;
        let name = text_in(alloc, value.get("name"))?;
        put_member(&mut members, alloc, "name", name)?;
        let relations = list_in::<Relation>(alloc, value.get("relations"))?;
        put_member(&mut members, alloc, "relations", relations)?;
        Ok(Value::Object(members))
    }

    #[tactic(auto)]
    fn write<N: Node>(alloc: Global, out: &mut Text, node: &N) -> Result<(), AllocError> {
        out.begin_object()?;
        write_list::<Join, N>(alloc, out, "joins", node)?;
        write_text(out, "name", node)?;
        write_list::<Relation, N>(alloc, out, "relations", node)?;
        out.end_object()?;
        Ok(())
    }
}

/// A whole file in version 2.
#[tactic(auto, unfolding(crate::specs::Forms::rewritten_file))]
pub fn rewritten_file(alloc: Global, value: &Value) -> Result<Value, AllocError>
    ensures { IfOk result (λ v. view v ≡ rewritten_file (view value.now)) }
{
    let mut members = Map::new(alloc);
    let queries = list_in::<Query>(alloc, value.get("queries"))?;
    put_member(&mut members, alloc, "queries", queries)?;
    let tables = list_in::<Table>(alloc, value.get("tables"))?;
    put_member(&mut members, alloc, "tables", tables)?;
    serde_json::put(&mut members, alloc, "version", Value::from(2u64))?;
    Ok(Value::Object(members))
}

fn write_version(out: &mut Text) -> Result<(), AllocError>
    ensures { OnOk result (out.new ≡ out.old ++ tokens_of_member (codes "version") (Some (number (unsigned 2)))) }
{
    out.key("version")?;
    out.number(2)
}

/// Writes a whole file in version 2.
pub fn write_file<N: Node>(alloc: Global, out: &mut Text, node: &N) -> Result<(), AllocError>
    ensures { OnOk result (out.new ≡ out.old ++ tokens_of (rewritten_file (N.as_data node.now))) }
{
    out.begin_object()?;
    write_list::<Query, N>(alloc, out, "queries", node)?;
    write_list::<Table, N>(alloc, out, "tables", node)?;
    write_version(out)?;
    out.end_object()?;
    Ok(())
}
