ghost use Rattle.std.specs.Prelude.{◌≡◌, ◌<◌, length, IfOk, OnOk};
ghost use Rattle.plan_report.specs.Reports.{format_of};

mod certs;

use super::*;
use cost_model::{CostModel, Cout, LEAF, Ops};
use dpe_base::{EMPTY, Kind, Name, Pred, Query, Rel, RelSet, SPAN};
use join_graph::Graph;
use join_tree::Tree;
use query_json::QueryRefusal;
use std::alloc::Global;
use std::process::Abort;
use std::test::Fail;

fn name_of(alloc: Global, text: &str) -> Result<Name, Fail> {
    Ok(Name::of(String::from_str(alloc, text)?))
}

// A chain of relations without filters, each joined to the next by a predicate of 1/den.
fn chain(alloc: Global, rows: &[u64], den: u64) -> Result<Query, Fail>
    requires { length rows.now < 256 }
{
    let mut rels = Vec::new(alloc);
    for rows in rows {
        rels.push(Rel {
            rows: *rows,
            num: 1,
            den: 1,
        })?;
    }
    let mut preds = Vec::new(alloc);
    for high in 1..(rows.len() as u8) {
        preds.push(Pred {
            low: high - 1,
            high,
            num: 1,
            den,
        })?;
    }
    Ok(Query::new(rels, preds)?)
}

fn joined(alloc: Global, left: Tree, right: Tree) -> Result<Tree, Fail> {
    Ok(Tree::Join {
        op: 0,
        left: Box::new(alloc, left)?,
        right: Box::new(alloc, right)?,
    })
}

// Adds the entry of a tree over relations a, b, c.
fn add<M: CostModel>(
    rt: &impl Abort,
    alloc: Global,
    report: &mut Report,
    name: &str,
    query: &Query,
    model: &M,
    tree: &Tree,
    pairs: u64,
    stats: Option<Stats>,
) -> Result<(), Fail>
    ensures { OnOk result (format_of report.new ≡ format_of report.old) }
{
    let mut aliases = Vec::new(alloc);
    for alias in ["a", "b", "c"].iter().take(query.n() as usize) {
        aliases.push(name_of(alloc, alias)?)?;
    }
    assert_eq!(rt; aliases.len(), query.n() as usize);
    assert!(rt; tree.legal(model, &Graph::of(query)));
    assert!(rt; tree.root_word(model, query).is_some());
    report.planned(
        &name_of(alloc, name)?,
        aliases.as_slice(),
        query,
        model,
        tree,
        pairs,
        stats,
    )?;
    Ok(())
}

// Three entries: a bushy plan, a plan with statistics, and a refused query.
fn report_of(rt: &impl Abort, alloc: Global, format: Format) -> Result<Report, Fail>
    ensures { IfOk result (λ report. format_of report ≡ format) }
{
    let mut report = Report::new(alloc, format);
    let first = chain(alloc, &[100, 1000, 10], 100)?;
    let right = joined(alloc, Tree::Leaf(1), Tree::Leaf(2))?;
    let tree = joined(alloc, Tree::Leaf(0), right)?;
    add(
        rt,
        alloc,
        &mut report,
        "first",
        &first,
        &Cout,
        &tree,
        4,
        None,
    )?;
    let pair = chain(alloc, &[100, 1000], 1000)?;
    let tree = joined(alloc, Tree::Leaf(0), Tree::Leaf(1))?;
    let stats = Stats {
        enumerator: Kind::DpSva,
        buffer: 4096,
        buffers: 1,
        rounds: 2,
        probes: 3,
    };
    add(
        rt,
        alloc,
        &mut report,
        "pair",
        &pair,
        &Ops,
        &tree,
        1,
        Some(stats),
    )?;
    let why = QueryRefusal::Disconnected(name_of(alloc, "c")?);
    report.refused(&name_of(alloc, "split")?, &why)?;
    Ok(report)
}

const TEXT: &str = "query first
cost 200 rows 100 pairs 4
join rows 100 cost 200
  scan a rows 100
  join rows 100 cost 100
    scan b rows 1000
    scan c rows 10
query pair
cost 1300 rows 100 pairs 1
hash rows 100 cost 1300
  scan a rows 100
  scan b rows 1000
stats dpsva buffer 4096 buffers 1 rounds 2 probes 3
query split
refused 9: relation c is not connected
";

const ONE: &str = "query one
cost 0 rows 100 pairs 0
scan a rows 100
stats dpccp buffer 4096 buffers 0 rounds 0 probes 0
";

const JSON: &str =
    r#"{"queries":[{"cost":200,"name":"first","pairs":4,"plan":{"cost":200,"left":{"alias":"a","op":"scan","rows":100},"op":"join","right":{"cost":100,"left":{"alias":"b","op":"scan","rows":1000},"op":"join","right":{"alias":"c","op":"scan","rows":10},"rows":100},"rows":100},"rows":100},{"cost":1300,"name":"pair","pairs":1,"plan":{"cost":1300,"left":{"alias":"a","op":"scan","rows":100},"op":"hash","right":{"alias":"b","op":"scan","rows":1000},"rows":100},"rows":100,"stats":{"buffer":4096,"buffers":1,"enumerator":"dpsva","probes":3,"rounds":2}},{"code":9,"name":"split","refusal":"relation c is not connected"}]}
"#;

#[test]
fn text_has_an_entry_for_each_query(rt: HostRuntime) -> Result<(), Fail> {
    let text = report_of(&rt, rt.alloc(), Format::Text)?.text();
    assert_eq!(rt; text.as_slice(), TEXT.as_bytes());
    Ok(())
}

#[test]
fn json_has_an_entry_for_each_query(rt: HostRuntime) -> Result<(), Fail> {
    let json = report_of(&rt, rt.alloc(), Format::Json)?.json()?;
    assert_eq!(rt; json.as_slice(), JSON.as_bytes());
    Ok(())
}

#[test]
fn the_plan_of_one_relation_is_its_scan(rt: HostRuntime) -> Result<(), Fail> {
    let alloc = rt.alloc();
    let query = chain(alloc, &[100], 1)?;
    assert_eq!(rt; query.n(), 1);
    let tree = build(
        alloc,
        &query,
        &Ops,
        &[EMPTY, LEAF as u64 * SPAN + 1],
        RelSet::single(0),
    )?;
    let mut report = Report::new(alloc, Format::Text);
    let stats = Stats {
        enumerator: Kind::DpCcp,
        buffer: 4096,
        buffers: 0,
        rounds: 0,
        probes: 0,
    };
    add(
        &rt,
        alloc,
        &mut report,
        "one",
        &query,
        &Ops,
        &tree,
        0,
        Some(stats),
    )?;
    assert_eq!(rt; report.text().as_slice(), ONE.as_bytes());
    Ok(())
}
