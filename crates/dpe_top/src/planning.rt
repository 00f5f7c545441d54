//! What planning by the settings of a command line takes.
ghost use Rattle.std.specs.Prelude.{◌≡◌, ◌≤◌, ◌<◌, length, IfOk};
ghost use Rattle.dpe_base.specs.declared.TheConstants.{INPUT_CAP};
ghost use Rattle.dpe_base.specs.Queries.{relations, with_rows};
ghost use Rattle.dpe_words.specs.Line.{AreInRange};
ghost use Rattle.planner.specs.Costs.{IsCostedPlan};
ghost use Rattle.planner.specs.Plans.{IsConnected, IsPlanOf};
ghost use Rattle.planner.specs.Ranges.{AreAllowed};
ghost use Rattle.reopt.specs.Keeping.{AreBestWords, touched_pairs};
ghost use Rattle.dpe_top.specs.Modes.Replan.{AreListed};
ghost use Rattle.dpe_top.specs.Statistics.{options_of, options_with, stats_with};

use crate::classes::class_of;
use cost_model::CostModel;
use dpe_base::{Query, WORKERS_MAX};
use dpe_engine::{Engine, Solved};
use dpe_words::Settings;
use enum_dpccp::DpCcp;
use join_graph::Graph;
use plan_report::Stats;
use planner::{CostedPlan, Gate, Options, Planned, plan, plan_alone, plan_with_costs};
use reopt::Kept;
use std::alloc::{AllocError, Global};
use std::marker::Model;
use std::thread::Threads;

/// The settings, and all else that it takes to plan queries by them. Contracts see the settings alone.
#[derive(Drop)]
pub struct Planning<'a, G: Gate, R: Threads + Sync> {
    rt: &'a R,
    alloc: Global,
    settings: &'a Settings,
    gate: &'a G,
}

impl<'a, G: Gate, R: Threads + Sync> Model for Planning<'a, G, R> {
    ghost use Rattle.dpe_words.specs.declared.choices.Settings.{Settings};
    ghost use Rattle.dpe_words.specs.Line.{AreInRange};

    ghost Value = { Settings };

    ghost view = { λ p. p.settings.now };

    ghost invariant = { λ p. AreInRange p.settings.now };
}

impl<'a, G: Gate, R: Threads + Sync> Planning<'a, G, R> {
    /// Planning by the settings of a command line. The gate is told of each draw and of each buffer.
    pub fn by(rt: &'a R, alloc: Global, settings: &'a Settings, gate: &'a G) -> Planning<'a, G, R>
        requires ranges { AreInRange settings.now }
        ensures { result ≡ settings.entry.now }
    {
        Planning {
            rt,
            alloc,
            settings,
            gate,
        }
    }

    /// The settings.
    pub fn settings(&self) -> &Settings
        ensures { result.now ≡ self.entry.now }
    {
        self.settings
    }

    /// Where memory is taken from.
    pub fn alloc(&self) -> Global {
        self.alloc
    }

    /// What starts threads.
    pub fn rt(&self) -> &R {
        self.rt
    }

    /// How many workers there are.
    pub fn workers(&self) -> u32
        ensures value { result ≡ self.now.workers }
        ensures some { 1 ≤ result }
    {
        self.settings.workers
    }

    // How the settings ask a query to be planned, but by so many workers.
    fn options(&self, workers: u32) -> Options
        requires { (1 ≤ workers) × (workers ≤ WORKERS_MAX) }
        ensures value { result ≡ options_with self.now workers }
        ensures allowed { AreAllowed result }
    {
        Options {
            enumerator: self.settings.enumerator,
            buffer: self.settings.buffer,
            workers,
            class: class_of(self.settings.mode),
        }
    }

    /// The plan of a connected query, by the enumerator, the buffers and the workers of the settings, and among the trees of
    /// the mode's class.
    pub fn plan<M: CostModel>(&self, query: &Query, model: M) -> Result<Planned, AllocError>
        requires connected { IsConnected query.now }
        ensures { IfOk result (IsPlanOf M.KIND (options_of self.now) query.now) }
    {
        let options = self.options(self.settings.workers);
        plan(self.rt, self.alloc, query, model, &options, self.gate)
    }

    /// The same plan by one worker, in the calling thread.
    pub fn plan_alone<M: CostModel>(&self, query: &Query, model: M) -> Result<Planned, AllocError>
        requires connected { IsConnected query.now }
        ensures { IfOk result (IsPlanOf M.KIND (options_with self.now 1) query.now) }
    {
        let options = self.options(1);
        plan_alone(self.alloc, query, model, &options, self.gate)
    }

    /// The plan of a connected query with the least cost of each set of its relations, found in the same way.
    pub fn plan_with_costs<M: CostModel>(
        &self,
        query: &Query,
        model: M,
    ) -> Result<CostedPlan, AllocError>
        requires connected { IsConnected query.now }
        ensures { IfOk result (IsCostedPlan M.KIND query.now) }
    {
        let options = self.options(self.settings.workers);
        plan_with_costs(self.rt, self.alloc, query, model, &options, self.gate)
    }

    /// What a run of the engine leaves over all pairs of a connected query, as DPccp lists them.
    pub fn run_all<M: CostModel>(&self, query: &Query, model: M) -> Result<Solved, AllocError>
        requires connected { IsConnected query.now }
        ensures best { IfOk result (λ s. AreBestWords M.KIND query.now s.words.row) }
        ensures listed { IfOk result (λ s. AreListed query.now s.pairs) }
    {
        query.recall();
        let graph = Graph::of(query);
        let all = DpCcp::over(&graph);
        let (buffer, workers) = (self.settings.buffer, self.settings.workers);
        let engine = Engine::prepare(self.alloc, query, model, buffer, workers, &all)?;
        let (solved, _) = engine.run(self.rt, all, self.gate);
        Ok(solved)
    }

    /// Gives a relation of a kept query so many rows, and answers how many pairs were processed again for it.
    ///
    /// Fails when memory runs out.
    pub fn change<M: CostModel>(
        &self,
        kept: &mut Kept<M>,
        r: u8,
        rows: u64,
    ) -> Result<u64, AllocError>
        requires relation { r < relations kept.old.query }
        requires rows { rows ≤ INPUT_CAP }
        ensures query { IfOk result (λ _. kept.new.query ≡ with_rows kept.old.query r rows) }
        ensures again { IfOk result (λ n. n ≡ length (touched_pairs kept.new.query r)) }
    {
        let (buffer, workers) = (self.settings.buffer, self.settings.workers);
        kept.change(self.rt, self.alloc, r, rows, buffer, workers, self.gate)
    }

    /// The statistics of a plan, where the settings ask for them and the mode prints them.
    pub fn stats(&self, planned: &Planned) -> Option<Stats>
        ensures { result ≡ stats_with self.now planned.now.buffers planned.now.rounds planned.now.probes }
    {
        if !self.settings.stats || class_of(self.settings.mode).is_some() {
            return None;
        }
        Some(Stats {
            enumerator: self.settings.enumerator,
            buffer: self.settings.buffer,
            buffers: planned.buffers,
            rounds: planned.rounds,
            probes: planned.probes,
        })
    }
}
