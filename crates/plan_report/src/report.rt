//! A report of several queries.
ghost use Rattle.std.specs.Prelude.{◌≡◌, true};
ghost use Rattle.plan_report.specs.Json.{are_plain};

use crate::entry::Stats;
use crate::json::{line_of, plan_value, planned_value, refused_value, report_value};
use crate::measured::{measure, rows_of_all};
use crate::text::{write_head, write_plan, write_refused, write_stats};
use cost_model::CostModel;
use dpe_base::{COST_LIMIT, Name, Query};
use join_tree::Tree;
use query_json::QueryRefusal;
use serde_json::Value;
use std::alloc::{AllocError, Global};

/// Lines of text, or one line of JSON.
#[derive(Clone, Copy, Debug, PartialEq, Eq)]
pub enum Format {
    Text,
    Json,
}

/// The entries of the queries so far, in order.
#[derive(Drop)]
pub struct Report {
    alloc: Global,
    format: Format,
    text: String,
    entries: Vec<Value>,
    ghost plain: { are_plain entries.items ≡ true },
}

impl Report {
    ghost use Rattle.std.specs.Prelude.{◌≡◌, ◌<◌, [], ◌∷◌, ◌++◌, length, IfOk, OnOk, OnErr, true};
    ghost use Rattle.serde_json.specs.View.{view};
    ghost use Rattle.dpe_base.specs.Queries.{relations};
    ghost use Rattle.join_graph.specs.Graphs.{graph_of};
    ghost use Rattle.join_tree.specs.Trees.{Legal, cost};
    ghost use Rattle.join_tree.specs.TreeOf.{tree_of};
    ghost use Rattle.plan_report.specs.Entries.{planned, refused};
    ghost use Rattle.plan_report.specs.Json.{is_plain, report_line};
    ghost use Rattle.plan_report.specs.Reports.{format_of, text_in, entries_in, Appends, Keeps};

    /// A report without entries. It takes no memory.
    pub fn new(alloc: Global, format: Format) -> Report
        ensures format { format_of result ≡ format }
        ensures text { text_in result ≡ [] }
        ensures entries { entries_in result ≡ [] }
    {
        Report {
            alloc,
            format,
            text: String::new(alloc),
            entries: Vec::new(alloc),
        }
    }

    fn push_text(&mut self, entry: &str) -> Result<(), AllocError>
        ensures format { format_of self.new ≡ format_of self.old }
        ensures entries { entries_in self.new ≡ entries_in self.old }
        ensures ok { OnOk result (text_in self.new ≡ text_in self.old ++ entry.now) }
        ensures err { OnErr result (text_in self.new ≡ text_in self.old) }
    {
        self.text.push_str(entry)
    }

    fn push_value(&mut self, entry: Value) -> Result<(), AllocError>
        requires { is_plain entry ≡ true }
        ensures format { format_of self.new ≡ format_of self.old }
        ensures text { text_in self.new ≡ text_in self.old }
        ensures ok { OnOk result (entries_in self.new ≡ entries_in self.old ++ view entry ∷ []) }
        ensures err { OnErr result (entries_in self.new ≡ entries_in self.old) }
    {
        self.entries.push(entry)?;
        Ok(())
    }

    /// Appends the entry of a query with this plan and this number of pairs, and with the statistics
    /// where they are given. Where memory runs out, the report stays as it was.
    pub fn planned<M: CostModel>(
        &mut self,
        name: &Name,
        aliases: &[Name],
        query: &Query,
        model: &M,
        tree: &Tree,
        pairs: u64,
        stats: Option<Stats>,
    ) -> Result<(), AllocError>
        requires named { length aliases.now ≡ relations query.now }
        requires legal { Legal M.KIND (graph_of query.now) (tree_of tree.now) }
        requires word { cost M.KIND query.now (tree_of tree.now) < COST_LIMIT }
        ensures ok { OnOk result (Appends self.old self.new (planned (record {
          name = name.now;
          aliases = aliases.now;
          kind = M.KIND;
          query = query.now;
          tree = tree_of tree.now;
          pairs = pairs;
          stats = stats;
        }))) }
        ensures err { OnErr result (Keeps self.old self.new) }
    {
        let tree = measure(self.alloc, query, model, tree)?;
        let whole = tree.numbers();
        let (cost, rows) = (whole.cost, rows_of_all(query, whole));
        match self.format {
            Format::Text => {
                let mut entry = String::new(self.alloc);
                write_head(&mut entry, name, cost, rows, pairs)?;
                write_plan::<M>(&mut entry, aliases, 0, &tree)?;
                write_stats(&mut entry, stats)?;
                self.push_text(entry.as_str())
            }
            Format::Json => {
                let plan = plan_value::<M>(self.alloc, aliases, &tree)?;
                let entry = planned_value(self.alloc, name, cost, rows, pairs, plan, stats)?;
                self.push_value(entry)
            }
        }
    }

    /// Appends the entry of a refused query. Where memory runs out, the report stays as it was.
    pub fn refused(&mut self, name: &Name, why: &QueryRefusal) -> Result<(), AllocError>
        ensures ok { OnOk result (Appends self.old self.new (refused name.now why.now)) }
        ensures err { OnErr result (Keeps self.old self.new) }
    {
        match self.format {
            Format::Text => {
                let mut entry = String::new(self.alloc);
                write_refused(&mut entry, name, why)?;
                self.push_text(entry.as_str())
            }
            Format::Json => {
                let entry = refused_value(self.alloc, name, why)?;
                self.push_value(entry)
            }
        }
    }

    /// The text of all entries, of a report that is text.
    pub fn text(self) -> Vec<u8>
        requires { format_of self ≡ Format.Text }
        ensures { result.items ≡ text_in self }
    {
        let Report { text, .. } = self;
        text.into_bytes()
    }

    /// The line of all entries, of a report that is JSON.
    ///
    /// Fails where there is no memory.
    pub fn json(self) -> Result<Vec<u8>, AllocError>
        requires { format_of self ≡ Format.Json }
        ensures { IfOk result (λ v. v.items ≡ report_line (entries_in self)) }
    {
        let Report { alloc, entries, .. } = self;
        let whole = report_value(alloc, entries)?;
        line_of(alloc, &whole)
    }
}
