//! Modes plan, narrow, zigzag and leftdeep: the report of the workload that is read.
ghost use Rattle.std.specs.Prelude.{◌≡◌, OnOk, IfOk, IfSome};
ghost use Rattle.plan_report.specs.Entries.{PlannedQuery, ReportEntry, planned};
ghost use Rattle.plan_report.specs.Reports.{Appends};
ghost use Rattle.query_json.specs.Sound.{IsEntrySound, IsSound};
ghost use Rattle.dpe_top.specs.Batches.{IsPlanBy, IsFoundFor};
ghost use Rattle.dpe_top.specs.Modes.Report.{IsEntrySaid, IsPlanned, IsReport, has_refused, is_refused, model_number, outcome_of, report_of_bytes};
ghost use Rattle.dpe_top.specs.Replies.{Replies};

use crate::lines::fault_line;
use crate::planning::Planning;
use crate::reply::Reply;
use crate::status::Outcome;
use cost_model::{CostModel, Cout, ModelKind, Ops};
use dpe_base::Name;
use plan_report::{Format, Report};
use planner::{Gate, Planned};
use query_json::{Entry, FileFault, Named, Part, Workload};
use std::alloc::AllocError;
use std::thread::Threads;

impl<'a, G: Gate, R: Threads + Sync> Planning<'a, G, R> {
    /// Appends the entry of a query with the plan that was found.
    fn append_found<M: CostModel>(
        &self,
        report: &mut Report,
        name: &Name,
        named: &Named,
        model: M,
        found: &Planned,
    ) -> Result<(), AllocError>
        requires sound { IsSound named.now }
        requires model { model_number self.now.model ≡ M.KIND }
        requires found { IsPlanBy self.now M.KIND named.now.query found.now }
        ensures { OnOk result ((said : PlannedQuery) × IsPlanned self.now name.now named.now said
            × Appends report.old report.new (planned said)) }
    {
        let stats = self.stats(found);
        let aliases = named.aliases.as_slice();
        report.planned(
            name,
            aliases,
            &named.query,
            &model,
            &found.tree,
            found.pairs,
            stats,
        )
    }

    /// Plans the query and appends its entry to the report.
    fn append_planned<M: CostModel>(
        &self,
        report: &mut Report,
        name: &Name,
        named: &Named,
        model: M,
    ) -> Result<(), AllocError>
        requires sound { IsSound named.now }
        requires model { model_number self.now.model ≡ M.KIND }
        ensures { OnOk result ((said : PlannedQuery) × IsPlanned self.now name.now named.now said
            × Appends report.old report.new (planned said)) }
    {
        let found = self.plan(&named.query, model)?;
        self.append_found(report, name, named, model, &found)
    }

    /// Appends what the report says of the entry, with the plan that was found beforehand where there is a place for it.
    fn append_entry<M: CostModel>(
        &self,
        report: &mut Report,
        entry: &Entry,
        model: M,
        place: Option<&Option<Planned>>,
    ) -> Result<(), AllocError>
        requires sound { IsEntrySound entry.now }
        requires model { model_number self.now.model ≡ M.KIND }
        requires found { IfSome place (λ p. IsFoundFor self.now M.KIND entry.now.part p.now) }
        ensures { OnOk result ((said : ReportEntry) × IsEntrySaid self.now entry.now.name entry.now.part said
            × Appends report.old report.new said) }
    {
        match &entry.part {
            Part::Refused(why) => report.refused(&entry.name, why),
            Part::Accepted(named) => match place {
                None => self.append_planned(report, &entry.name, named, model),
                Some(Some(found)) => self.append_found(report, &entry.name, named, model, found),
                Some(None) => Err(AllocError),
            },
        }
    }

    /// The report under this model, which is that of the settings.
    fn report_under<M: CostModel>(
        &self,
        workload: &Workload,
        model: M,
    ) -> Result<Vec<u8>, AllocError>
        requires model { model_number self.now.model ≡ M.KIND }
        ensures { IfOk result (λ v. IsReport self.now workload.now v.items) }
    {
        let format = self.settings().format;
        let mut report = Report::new(self.alloc(), format);
        let places = self.plan_beforehand(workload, model)?;
        'entries: for i in 0..workload.len() {
            self.append_entry(&mut report, workload.entry(i), model, places.get(i))?;
        }
        match format {
            Format::Text => Ok(report.text()),
            Format::Json => report.json(),
        }
    }

    /// The report of a workload, with plans that are least by the settings' model, in the format that they ask for.
    fn report(&self, workload: &Workload) -> Result<Vec<u8>, AllocError>
        ensures { IfOk result (λ v. IsReport self.now workload.now v.items) }
    {
        match self.settings().model {
            ModelKind::Ops => self.report_under(workload, Ops),
            ModelKind::Cout => self.report_under(workload, Cout),
        }
    }
}

fn is_refused(entry: &Entry) -> bool
    ensures { result ≡ is_refused entry.now }
{
    match entry.part {
        Part::Accepted(_) => false,
        Part::Refused(_) => true,
    }
}

// Whether some query of the workload is refused.
fn has_refused(workload: &Workload) -> bool
    ensures { result ≡ has_refused workload.now }
{
    for i in 0..workload.len() {
        if is_refused(workload.entry(i)) {
            return true;
        }
    }
    false
}

/// The outcome of a workload's report.
pub fn outcome_of(workload: &Workload) -> Outcome
    ensures { result ≡ outcome_of workload.now }
{
    if has_refused(workload) {
        Outcome::SomeRefused
    } else {
        Outcome::Done
    }
}

/// The report of the workload that the bytes are, or the line of their fault.
pub fn reply<G: Gate, R: Threads + Sync>(
    planning: &Planning<G, R>,
    bytes: &[u8],
) -> Result<Reply, AllocError>
    ensures { IfOk result (Replies ((report_of_bytes planning.now).answer bytes.now)) }
{
    let alloc = planning.alloc();
    match query_json::read(alloc, bytes) {
        Ok(workload) => Ok(Reply {
            outcome: outcome_of(&workload),
            text: planning.report(&workload)?,
        }),
        Err(FileFault::NoMemory) => Err(AllocError),
        Err(fault) => Ok(Reply {
            outcome: Outcome::Input,
            text: fault_line(alloc, &fault)?.into_bytes(),
        }),
    }
}
