//! The lines of an entry.
ghost use Rattle.std.specs.Prelude.{◌≡◌, ◌+◌, ◌^◌, ◌<◌, ◌++◌, length, OnOk, string_bytes};
ghost use Rattle.join_tree.specs.Trees.{LeavesBelow};
ghost use Rattle.plan_report.specs.Measures.{measured_of, shape};
ghost use Rattle.plan_report.specs.Texts.{indent, query_line, numbers_line, scan_line, join_line, stats_text, tree_text, refused_text, height};

use crate::entry::Stats;
use crate::measured::Measured;
use crate::names::{enumerator_name, operator_name};
use cost_model::CostModel;
use dpe_base::Name;
use query_json::{QueryRefusal, write_refusal};
use std::alloc::AllocError;

/// Appends the line of the query and the line of its numbers.
pub fn write_head(
    out: &mut String,
    name: &Name,
    cost: u64,
    rows: u64,
    pairs: u64,
) -> Result<(), AllocError>
    ensures { OnOk result (string_bytes out.new ≡ string_bytes out.old ++ (query_line name.now ++ numbers_line cost rows pairs)) }
{
    let name = name.text();
    writeln!(out, "query {name}")?;
    writeln!(out, "cost {cost} rows {rows} pairs {pairs}")
}

fn write_indent(out: &mut String, depth: u32) -> Result<(), AllocError>
    ensures { OnOk result (string_bytes out.new ≡ string_bytes out.old ++ indent depth) }
{
    for _ in 0..depth {
        out.push_str("  ")?;
    }
    Ok(())
}

fn write_scan(out: &mut String, alias: &str, rows: u64) -> Result<(), AllocError>
    ensures { OnOk result (string_bytes out.new ≡ string_bytes out.old ++ scan_line alias.now rows) }
{
    writeln!(out, "scan {alias} rows {rows}")
}

fn write_join(out: &mut String, operator: &str, rows: u64, cost: u64) -> Result<(), AllocError>
    ensures { OnOk result (string_bytes out.new ≡ string_bytes out.old ++ join_line operator.now rows cost) }
{
    writeln!(out, "{operator} rows {rows} cost {cost}")
}

/// Appends the lines of a tree, with the root at this depth.
pub fn write_plan<M: CostModel>(
    out: &mut String,
    aliases: &[Name],
    depth: u32,
    tree: &Measured,
) -> Result<(), AllocError>
    requires named { LeavesBelow (length aliases.now) (shape (measured_of tree.now)) }
    requires fits { depth + height (shape (measured_of tree.now)) < 2 ^ 32 }
    ensures { OnOk result (string_bytes out.new ≡ string_bytes out.old ++ tree_text M.KIND aliases.now depth (measured_of tree.now)) }
{
    write_indent(out, depth)?;
    match tree {
        Measured::Scan { relation, numbers } => {
            write_scan(out, aliases[*relation as usize].text(), numbers.rows)
        }
        Measured::Join {
            op,
            numbers,
            left,
            right,
        } => {
            write_join(out, operator_name(M::KIND, *op), numbers.rows, numbers.cost)?;
            write_plan::<M>(out, aliases, depth + 1, left)?;
            write_plan::<M>(out, aliases, depth + 1, right)
        }
    }
}

/// Appends the line of the statistics, where they are given.
pub fn write_stats(out: &mut String, stats: Option<Stats>) -> Result<(), AllocError>
    ensures { OnOk result (string_bytes out.new ≡ string_bytes out.old ++ stats_text stats) }
{
    let Some(stats) = stats else {
        return Ok(());
    };
    let enumerator = enumerator_name(stats.enumerator);
    let Stats {
        buffer,
        buffers,
        rounds,
        probes,
        ..
    } = stats;
    writeln!(
        out,
        "stats {enumerator} buffer {buffer} buffers {buffers} rounds {rounds} probes {probes}"
    )
}

/// Appends the entry of a refused query.
pub fn write_refused(out: &mut String, name: &Name, why: &QueryRefusal) -> Result<(), AllocError>
    ensures { OnOk result (string_bytes out.new ≡ string_bytes out.old ++ refused_text name.now why.now) }
{
    let (code, name) = (why.code(), name.text());
    writeln!(out, "query {name}")?;
    write!(out, "refused {code}: ")?;
    write_refusal(out, why)?;
    out.push('\n')
}
