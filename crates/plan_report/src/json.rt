//! The JSON of an entry, and of the whole report.
ghost use Rattle.std.specs.Prelude.{◌≡◌, ◌++◌, length, IfOk, false};
ghost use Rattle.serde_json.specs.View.{view};
ghost use Rattle.serde_json.specs.Written.{compact_text, has_float};
ghost use Rattle.join_tree.specs.Trees.{LeavesBelow};
ghost use Rattle.plan_report.specs.Json.{accepted_data, scan_data, join_data, stats_data, stats_member, tree_data, refused_data, report_data, values_of};
ghost use Rattle.plan_report.specs.Measures.{measured_of, shape};
ghost use Rattle.plan_report.specs.Texts.{newline};

use crate::entry::Stats;
use crate::measured::Measured;
use crate::names::{enumerator_name, operator_name};
use cost_model::CostModel;
use dpe_base::Name;
use query_json::{QueryRefusal, write_refusal};
use serde_json::{Value, json};
use std::alloc::{AllocError, Global};

fn scan_value(alloc: Global, alias: &str, rows: u64) -> Result<Value, AllocError>
    ensures { IfOk result (λ v. view v ≡ scan_data alias.now rows) }
{
    json!(in alloc; {"alias": alias, "op": "scan", "rows": rows})
}

fn join_value(
    alloc: Global,
    operator: &str,
    rows: u64,
    cost: u64,
    left: Value,
    right: Value,
) -> Result<Value, AllocError>
    ensures { IfOk result (λ v. view v ≡ join_data operator.now rows cost (view left) (view right)) }
{
    json!(in alloc; {"cost": cost, "left": left, "op": operator, "right": right, "rows": rows})
}

/// A tree as nested objects.
pub fn plan_value<M: CostModel>(
    alloc: Global,
    aliases: &[Name],
    tree: &Measured,
) -> Result<Value, AllocError>
    requires { LeavesBelow (length aliases.now) (shape (measured_of tree.now)) }
    ensures { IfOk result (λ v. view v ≡ tree_data M.KIND aliases.now (measured_of tree.now)) }
{
    match tree {
        Measured::Scan { relation, numbers } => {
            scan_value(alloc, aliases[*relation as usize].text(), numbers.rows)
        }
        Measured::Join {
            op,
            numbers,
            left,
            right,
        } => {
            let left = plan_value::<M>(alloc, aliases, left)?;
            let right = plan_value::<M>(alloc, aliases, right)?;
            let operator = operator_name(M::KIND, *op);
            join_value(alloc, operator, numbers.rows, numbers.cost, left, right)
        }
    }
}

fn stats_value(alloc: Global, stats: Stats) -> Result<Value, AllocError>
    ensures { IfOk result (λ v. view v ≡ stats_data stats) }
{
    let enumerator = enumerator_name(stats.enumerator);
    let Stats {
        buffer,
        buffers,
        rounds,
        probes,
        ..
    } = stats;
    json!(in alloc; {"buffer": buffer, "buffers": buffers, "enumerator": enumerator, "probes": probes, "rounds": rounds})
}

/// The entry of a planned query.
pub fn planned_value(
    alloc: Global,
    name: &Name,
    cost: u64,
    rows: u64,
    pairs: u64,
    plan: Value,
    stats: Option<Stats>,
) -> Result<Value, AllocError>
    ensures { IfOk result (λ v. view v ≡ accepted_data name.now cost rows pairs (view plan) (stats_member stats)) }
{
    let name = name.text();
    match stats {
        Some(stats) => {
            let stats = stats_value(alloc, stats)?;
            json!(in alloc; {"cost": cost, "name": name, "pairs": pairs, "plan": plan, "rows": rows, "stats": stats})
        }
        None => {
            json!(in alloc; {"cost": cost, "name": name, "pairs": pairs, "plan": plan, "rows": rows})
        }
    }
}

/// The entry of a refused query.
pub fn refused_value(alloc: Global, name: &Name, why: &QueryRefusal) -> Result<Value, AllocError>
    ensures { IfOk result (λ v. view v ≡ refused_data name.now why.now) }
{
    let mut text = String::new(alloc);
    write_refusal(&mut text, why)?;
    let (code, name, refusal) = (why.code(), name.text(), text.as_str());
    json!(in alloc; {"code": code, "name": name, "refusal": refusal})
}

/// The entries of a report as one object.
pub fn report_value(alloc: Global, entries: Vec<Value>) -> Result<Value, AllocError>
    ensures { IfOk result (λ v. view v ≡ report_data (values_of entries.items)) }
{
    json!(in alloc; {"queries": Value::Array(entries)})
}

/// The compact text of a value, as a line.
pub fn line_of(alloc: Global, value: &Value) -> Result<Vec<u8>, AllocError>
    requires { has_float (view value.now) ≡ false }
    ensures { IfOk result (λ v. v.items ≡ compact_text (view value.now) ++ newline) }
{
    let mut line = value.to_string(alloc)?;
    line.push('\n')?;
    Ok(line.into_bytes())
}
