//! Mode sample: the summary of a workload that is made from a number.
ghost use Rattle.std.specs.Prelude.{None, ◌≡◌, ◌+◌, ◌*◌, ◌-◌, ◌^◌, ℕ, IfOk, string_bytes};
ghost use Rattle.planner.specs.Plans.{IsConnected};
ghost use Rattle.dpe_top.specs.Modes.Report.{model_number};
ghost use Rattle.dpe_top.specs.Modes.Sample.{AreTotals, IsSample, IsShare, IsSummary, sample, summary_line};
ghost use Rattle.dpe_top.specs.Replies.{Replies};
ghost use Rattle.dpe_top.specs.Classes.{class_of};
ghost use Rattle.dpe_top.specs.Totals.{AreAtMost, with_query};

use crate::planning::Planning;
use crate::reply::Reply;
use crate::status::Outcome;
use cost_model::{CostModel, Cout, ModelKind, Ops};
use dpe_base::Query;
use planner::Gate;
use query_json::{FileFault, Part, Workload};
use std::alloc::{AllocError, Global};
use std::thread::Threads;
use workload_gen::generate;

/// What a planned query adds to a summary: how many csg-cmp-pairs it has, and what its plan costs.
#[derive(Clone, Copy)]
pub struct Share {
    /// How many csg-cmp-pairs the query has.
    pub pairs: u64,
    /// The cost of its plan by the settings' model.
    pub cost: u64,
}

/// The sums of a summary, wide enough for as many queries as there can be.
#[derive(Clone, Copy)]
pub struct Totals {
    /// How many queries were planned.
    pub queries: u128,
    /// The relations of all of them.
    pub relations: u128,
    /// The join predicates of all of them.
    pub joins: u128,
    /// The csg-cmp-pairs of all of them.
    pub pairs: u128,
    /// The costs of their plans.
    pub cost: u128,
}

impl Totals {
    const NONE: Totals = Totals {
        queries: 0,
        relations: 0,
        joins: 0,
        pairs: 0,
        cost: 0,
    };

    /// The sums with one query more.
    #[tactic(auto, using(crate::proofs::Sums::small_more))]
    fn with(self, query: &Query, share: Share) -> Totals
        requires room { AreAtMost (2 ^ 64 * (2 ^ 64 - 1)) self }
        ensures sums { result ≡ with_query self query.now share }
        ensures small { (i : ℕ) → AreAtMost (2 ^ 64 * i) self → AreAtMost (2 ^ 64 * (i + 1)) result }
    {
        Totals {
            queries: self.queries + 1,
            relations: self.relations + query.n() as u128,
            joins: self.joins + query.preds().len() as u128,
            pairs: self.pairs + share.pairs as u128,
            cost: self.cost + share.cost as u128,
        }
    }
}

#[tactic(auto, unfolding(crate::specs::Modes::Sample::summary_line))]
fn line_of(alloc: Global, number: u64, totals: Totals) -> Result<String, AllocError>
    ensures { IfOk result (λ s. string_bytes s ≡ summary_line number totals) }
{
    let Totals {
        queries,
        relations,
        joins,
        pairs,
        cost,
    } = totals;
    let mut line = String::new(alloc);
    writeln!(
        line,
        "sample {number} queries {queries} relations {relations} joins {joins} pairs {pairs} cost {cost}"
    )?;
    Ok(line)
}

impl<'a, G: Gate, R: Threads + Sync> Planning<'a, G, R> {
    /// Plans the query.
    fn share_of<M: CostModel>(&self, query: &Query, model: M) -> Result<Share, AllocError>
        requires all { class_of self.now.mode ≡ None }
        requires connected { IsConnected query.now }
        ensures { IfOk result (IsShare M.KIND query.now) }
    {
        // its clause says what every query keeps
        let _n = query.n();
        let planned = self.plan(query, model)?;
        let cost = planned.tree.cost(&model, query) as u64;
        Ok(Share {
            pairs: planned.pairs,
            cost,
        })
    }

    /// Plans each query of the workload.
    fn totals_under<M: CostModel>(
        &self,
        workload: &Workload,
        model: M,
    ) -> Result<Totals, AllocError>
        requires all { class_of self.now.mode ≡ None }
        ensures { IfOk result (AreTotals M.KIND workload.now) }
    {
        let mut totals = Totals::NONE;
        'entries: for i in 0..workload.len() {
            if let Part::Accepted(named) = &workload.entry(i).part {
                let share = self.share_of(&named.query, model)?;
                totals = totals.with(&named.query, share);
            }
        }
        Ok(totals)
    }

    /// The summary of a workload, under the number that it comes from.
    fn summary(&self, workload: &Workload) -> Result<Vec<u8>, AllocError>
        requires all { class_of self.now.mode ≡ None }
        ensures { IfOk result (λ v. IsSummary (model_number self.now.model) self.now.number workload.now v.items) }
    {
        let settings = self.settings();
        let totals = match settings.model {
            ModelKind::Ops => self.totals_under(workload, Ops)?,
            ModelKind::Cout => self.totals_under(workload, Cout)?,
        };
        Ok(line_of(self.alloc(), settings.number, totals)?.into_bytes())
    }

    /// Plans the sample workload of the settings' number: its summary under the settings' model.
    fn sample(&self) -> Result<Vec<u8>, AllocError>
        requires all { class_of self.now.mode ≡ None }
        ensures { IfOk result (λ v. IsSample (model_number self.now.model) self.now.number v.items) }
    {
        let alloc = self.alloc();
        let bytes = generate(alloc, self.settings().number)?;
        match query_json::read(alloc, &bytes) {
            Ok(workload) => self.summary(&workload),
            Err(FileFault::NoMemory) => Err(AllocError),
            // the generator's bytes have no fault
            Err(_) => unreachable!(),
        }
    }
}

/// The summary of the workload that the settings' number gives.
pub fn reply<G: Gate, R: Threads + Sync>(planning: &Planning<G, R>) -> Result<Reply, AllocError>
    requires all { class_of planning.now.mode ≡ None }
    ensures { IfOk result (Replies (sample planning.now)) }
{
    Ok(Reply {
        outcome: Outcome::Done,
        text: planning.sample()?,
    })
}
