//! Mode reopt: the plans of the workload that is read, before and after each change.
ghost use Rattle.std.specs.Prelude.{◌≡◌, ◌≤◌, ◌<◌, ◌++◌, ℕ, List, length, IfOk, OnOk, string_bytes};
ghost use Rattle.std.specs.List.{All, sum_by};
ghost use Rattle.dpe_base.specs.declared.TheConstants.{INPUT_CAP};
ghost use Rattle.dpe_base.specs.Queries.{relations};
ghost use Rattle.query_json.specs.Sound.{IsPartSound};
ghost use Rattle.query_forms.specs.Changes.{AreRelationsOf, IsWithin};
ghost use Rattle.planner.specs.Plans.{IsConnected};
ghost use Rattle.plan_report.specs.Entries.{PlannedQuery};
ghost use Rattle.plan_report.specs.Texts.{planned_text, refused_text};
ghost use Rattle.reopt.specs.Keeping.{touched_pairs};
ghost use Rattle.dpe_top.specs.Modes.Report.{model_number};
ghost use Rattle.dpe_top.specs.Modes.Replan.{AreAgain, AreListed, CanBeMade, IsChangesText, IsEntryText, IsPlannedInText, IsTextFrom, change_line, named_as, replanned_of_bytes, uses_at, with_rows_of_all};
ghost use Rattle.dpe_top.specs.Replies.{Replies};

use crate::lines::change_fault_line;
use crate::modes::plan::outcome_of;
use crate::planning::Planning;
use crate::reply::Reply;
use crate::status::Outcome;
use cost_model::{CostModel, Cout, ModelKind, Ops};
use dpe_base::{Name, Query};
use plan_report::{Format, Report};
use planner::Gate;
use query_forms::{Change, ChangeFault, Changed, read_changes};
use query_json::{Entry, Part, QueryRefusal};
use reopt::Kept;
use std::alloc::{AllocError, Global};
use std::thread::Threads;

/// What stays of a query while the rows of its relations change.
#[derive(Drop)]
pub struct Subject<'a, M: CostModel> {
    /// Its place in the file.
    pub place: usize,
    pub name: &'a Name,
    pub aliases: &'a [Name],
    pub model: M,
}

/// A query whose words are kept, and how many csg-cmp-pairs it has.
#[derive(Drop)]
pub struct Followed<M: CostModel> {
    pub kept: Kept<M>,
    pub pairs: u64,
}

// The same query.
fn copy_of(alloc: Global, query: &Query) -> Result<Query, AllocError>
    ensures { IfOk result (λ q. q ≡ query.now) }
{
    query.recall();
    let rels = query.rels().to_vec(alloc)?;
    let preds = query.preds().to_vec(alloc)?;
    match Query::new(rels, preds) {
        Ok(copy) => Ok(copy),
        Err(_) => unreachable!(),
    }
}

// The relations on the changed table, of the query at a place of the file.
fn uses_at(change: &Change, place: usize) -> &[u8]
    ensures { result.now ≡ uses_at place change.now }
{
    match change.uses.as_slice().get(place) {
        Some(uses) => uses.as_slice(),
        None => &[],
    }
}

// The line of change `j`, for which so many pairs were processed again.
#[tactic(auto, unfolding(crate::specs::Modes::Replan::change_line))]
fn change_line(alloc: Global, j: usize, again: u128) -> Result<String, AllocError>
    ensures { IfOk result (λ s. string_bytes s ≡ change_line j again) }
{
    let mut line = String::new(alloc);
    writeln!(line, "change {j} again {again}")?;
    Ok(line)
}

fn append(out: &mut Vec<u8>, bytes: &[u8]) -> Result<(), AllocError>
    ensures { OnOk result (out.new.items ≡ out.old.items ++ bytes.now) }
{
    out.extend_from_slice(bytes)
}

// The entry of a refused query.
fn refused_entry(alloc: Global, name: &Name, why: &QueryRefusal) -> Result<Vec<u8>, AllocError>
    ensures { IfOk result (λ v. v.items ≡ refused_text name.now why.now) }
{
    let mut report = Report::new(alloc, Format::Text);
    report.refused(name, why)?;
    Ok(report.text())
}

impl<'a, G: Gate, R: Threads + Sync> Planning<'a, G, R> {
    // Plans a connected query and keeps its words.
    fn follow<M: CostModel>(&self, query: &Query, model: M) -> Result<Followed<M>, AllocError>
        requires connected { IsConnected query.now }
        ensures query { IfOk result (λ f. f.kept.query ≡ query.now) }
        ensures listed { IfOk result (λ f. AreListed query.now f.pairs) }
    {
        let query = copy_of(self.alloc(), query)?;
        let solved = self.run_all(&query, model)?;
        let kept = Kept::make(self.alloc(), query, model, solved.words)?;
        Ok(Followed {
            kept,
            pairs: solved.pairs,
        })
    }

    // The entry of the query with its present rows.
    fn planned_entry<M: CostModel>(
        &self,
        subject: &Subject<M>,
        followed: &Followed<M>,
    ) -> Result<Vec<u8>, AllocError>
        requires aliases { length subject.now.aliases.now ≡ relations followed.now.kept.query }
        requires pairs { AreListed followed.now.kept.query followed.now.pairs }
        requires model { model_number self.now.model ≡ M.KIND }
        ensures { IfOk result (λ v. (said : PlannedQuery)
            × IsPlannedInText self.now subject.now.name.now (named_as followed.now.kept.query subject.now.aliases.now) said
            × (v.items ≡ planned_text said)) }
    {
        let mut report = Report::new(self.alloc(), Format::Text);
        let tree = followed.kept.plan(self.alloc())?;
        let query = followed.kept.query();
        query.recall();
        let (name, aliases) = (subject.name, subject.aliases);
        let pairs = followed.pairs;
        report.planned(name, aliases, query, &subject.model, &tree, pairs, None)?;
        Ok(report.text())
    }

    // Gives each of these relations so many rows, one after the other, and answers how many pairs were processed again.
    fn change_all<M: CostModel>(
        &self,
        kept: &mut Kept<M>,
        uses: &[u8],
        rows: u64,
    ) -> Result<u128, AllocError>
        requires relations { All (λ r. r < relations kept.old.query) uses.now }
        requires rows { rows ≤ INPUT_CAP }
        ensures query { IfOk result (λ _. kept.new.query ≡ with_rows_of_all kept.old.query rows uses.now) }
        ensures again { IfOk result (λ n. n ≡ sum_by (λ r. length (touched_pairs kept.old.query r)) uses.now) }
    {
        let mut again = 0u128;
        'uses: for r in uses {
            again += self.change(kept, *r, rows)? as u128;
        }
        Ok(again)
    }

    // Makes change `j` of the query, and appends its line and the entry with the rows so far.
    fn append_change<M: CostModel>(
        &self,
        out: &mut Vec<u8>,
        subject: &Subject<M>,
        followed: &mut Followed<M>,
        j: usize,
        change: &Change,
    ) -> Result<(), AllocError>
        requires made { CanBeMade followed.old.kept.query subject.now.place change.now }
        requires aliases { length subject.now.aliases.now ≡ relations followed.old.kept.query }
        requires pairs { AreListed followed.old.kept.query followed.old.pairs }
        requires model { model_number self.now.model ≡ M.KIND }
        ensures pairs { OnOk result (followed.new.pairs ≡ followed.old.pairs) }
        ensures query { OnOk result (followed.new.kept.query
            ≡ with_rows_of_all followed.old.kept.query change.now.rows (uses_at subject.now.place change.now)) }
        ensures text { OnOk result ((again : ℕ) × AreAgain followed.old.kept.query (uses_at subject.now.place change.now) again
            × ((said : PlannedQuery)
            × IsPlannedInText self.now subject.now.name.now (named_as followed.new.kept.query subject.now.aliases.now) said
            × (out.new.items ≡ out.old.items ++ (change_line j again ++ planned_text said)))) }
    {
        let uses = uses_at(change, subject.place);
        let again = self.change_all(&mut followed.kept, uses, change.rows)?;
        let line = change_line(self.alloc(), j, again)?;
        let entry = self.planned_entry(subject, followed)?;
        append(out, line.as_bytes())?;
        append(out, entry.as_slice())?;
        Ok(())
    }

    // Makes the changes of the query one after the other, and appends what each makes of it.
    fn append_changes<M: CostModel>(
        &self,
        out: &mut Vec<u8>,
        subject: &Subject<M>,
        followed: &mut Followed<M>,
        changes: &[Change],
    ) -> Result<(), AllocError>
        requires made { All (CanBeMade followed.old.kept.query subject.now.place) changes.now }
        requires aliases { length subject.now.aliases.now ≡ relations followed.old.kept.query }
        requires pairs { AreListed followed.old.kept.query followed.old.pairs }
        requires model { model_number self.now.model ≡ M.KIND }
        ensures { OnOk result ((text : List ℕ)
            × IsChangesText self.now subject.now.name.now subject.now.place (named_as followed.old.kept.query subject.now.aliases.now) 0 changes.now text
            × (out.new.items ≡ out.old.items ++ text)) }
    {
        'changes: for (j, change) in changes.iter().enumerate() {
            self.append_change(out, subject, followed, j, change)?;
        }
        Ok(())
    }

    // Appends the entry of an accepted query, and what the changes make of it.
    fn append_query<M: CostModel>(
        &self,
        out: &mut Vec<u8>,
        subject: &Subject<M>,
        query: &Query,
        changes: &[Change],
    ) -> Result<(), AllocError>
        requires made { All (CanBeMade query.now subject.now.place) changes.now }
        requires connected { IsConnected query.now }
        requires aliases { length subject.now.aliases.now ≡ relations query.now }
        requires model { model_number self.now.model ≡ M.KIND }
        ensures { OnOk result ((text : List ℕ)
            × IsEntryText self.now changes.now subject.now.place subject.now.name.now (Part.Accepted (named_as query.now subject.now.aliases.now)) text
            × (out.new.items ≡ out.old.items ++ text)) }
    {
        let mut followed = self.follow(query, subject.model)?;
        let entry = self.planned_entry(subject, &followed)?;
        append(out, entry.as_slice())?;
        self.append_changes(out, subject, &mut followed, changes)?;
        Ok(())
    }

    // Appends the entry at a place of the file, and what the changes make of it.
    fn append_replanned<M: CostModel>(
        &self,
        out: &mut Vec<u8>,
        entry: &Entry,
        place: usize,
        changes: &[Change],
        model: M,
    ) -> Result<(), AllocError>
        requires within { All (λ c. (c.rows ≤ INPUT_CAP) × AreRelationsOf entry.now.part (uses_at place c)) changes.now }
        requires sound { IsPartSound entry.now.part }
        requires model { model_number self.now.model ≡ M.KIND }
        ensures { OnOk result ((text : List ℕ) × IsEntryText self.now changes.now place entry.now.name entry.now.part text
            × (out.new.items ≡ out.old.items ++ text)) }
    {
        match &entry.part {
            Part::Refused(why) => {
                let text = refused_entry(self.alloc(), &entry.name, why)?;
                append(out, text.as_slice())
            }
            Part::Accepted(named) => {
                let subject = Subject {
                    place,
                    name: &entry.name,
                    aliases: named.aliases.as_slice(),
                    model,
                };
                self.append_query(out, &subject, &named.query, changes)
            }
        }
    }

    // The text under this model, which is that of the settings.
    fn text_under<M: CostModel>(&self, file: &Changed, model: M) -> Result<Vec<u8>, AllocError>
        requires within { All (IsWithin file.now.workload) file.now.changes }
        requires model { model_number self.now.model ≡ M.KIND }
        ensures { IfOk result (λ v. IsTextFrom self.now file.now.changes 0 file.now.workload v.items) }
    {
        let mut out = Vec::new(self.alloc());
        let changes = file.changes.as_slice();
        'entries: for i in 0..file.workload.len() {
            self.append_replanned(&mut out, file.workload.entry(i), i, changes, model)?;
        }
        Ok(out)
    }

    // The plans before and after each change of the file.
    fn replanned(&self, file: &Changed) -> Result<Vec<u8>, AllocError>
        requires within { All (IsWithin file.now.workload) file.now.changes }
        ensures { IfOk result (λ v. IsTextFrom self.now file.now.changes 0 file.now.workload v.items) }
    {
        match self.settings().model {
            ModelKind::Ops => self.text_under(file, Ops),
            ModelKind::Cout => self.text_under(file, Cout),
        }
    }
}

/// The plans of the file of changes that the bytes are, or the line of their fault.
pub fn reply<G: Gate, R: Threads + Sync>(
    planning: &Planning<G, R>,
    bytes: &[u8],
) -> Result<Reply, AllocError>
    ensures { IfOk result (Replies ((replanned_of_bytes planning.now).answer bytes.now)) }
{
    let alloc = planning.alloc();
    match read_changes(alloc, bytes) {
        Ok(file) => Ok(Reply {
            outcome: outcome_of(&file.workload),
            text: planning.replanned(&file)?,
        }),
        Err(ChangeFault::NoMemory) => Err(AllocError),
        Err(fault) => Ok(Reply {
            outcome: Outcome::Input,
            text: change_fault_line(alloc, &fault)?.into_bytes(),
        }),
    }
}
