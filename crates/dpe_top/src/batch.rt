//! The queries of a workload planned side by side, before the report is made.
ghost use Rattle.std.specs.Prelude.{◌≡◌, ◌+◌, ◌*◌, ◌^◌, ◌<◌, ◌≤◌, length, IfOk, Option, Some, None};
ghost use Rattle.std.specs.List.{slice_get};
ghost use Rattle.dpe_base.specs.Queries.{relations};
ghost use Rattle.query_json.specs.declared.entry.Entry.{Entry};
ghost use Rattle.query_json.specs.Sound.{IsEntrySound};
ghost use Rattle.planner.specs.declared.planning.Planned.{Planned};
ghost use Rattle.dpe_top.specs.Batches.{IsFoundFor, AreFound};

use crate::planning::Planning;
use cost_model::CostModel;
use dpe_base::N_MAX;
use planner::{Gate, Planned};
use query_json::{Entry, Part, Workload};
use std::alloc::AllocError;
use std::thread::{Threads, for_each_mut};

// The tables of the queries that are planned at the same time have no more sets of relations than this, all together: eight queries
// of twenty relations. A set takes some 34 bytes in them, and up to 50 by DPsva, so all tables stay below 1 GiB.
const SETS_AT_ONCE: usize = 1 << 23;

// Queries that have fewer sets than this, all together, are planned sooner than threads are started.
const SETS_WORTH: u64 = 1 << 13;

// How many relations an accepted query has; 0 where there is none.
fn relations_of(entry: &Entry) -> u8
    ensures { result ≤ N_MAX }
{
    match &entry.part {
        Part::Accepted(named) => named.query.n(),
        Part::Refused(_) => 0,
    }
}

// How many queries may be planned at the same time by as many workers, where none has more relations than `n`.
fn may_run(workers: u32, n: u8) -> usize
    requires some { 1 ≤ workers }
    requires relations { n ≤ N_MAX }
    ensures some { 1 ≤ result }
    ensures workers { result ≤ workers }
    ensures memory { result * 2 ^ n ≤ SETS_AT_ONCE }
{
    (SETS_AT_ONCE >> n).min(workers as usize)
}

// How many queries of the workload are planned at the same time: one where one alone is accepted, or all are small.
fn at_once(workload: &Workload, workers: u32) -> usize
    requires { 1 ≤ workers }
    ensures { (1 ≤ result) × (result ≤ workers) }
{
    let mut accepted = 0u64;
    let mut sets = 0u64;
    let mut most = 0u8;
    'entries: for i in 0..workload.len() {
        let n = relations_of(workload.entry(i));
        if n > 0 {
            accepted = accepted.saturating_add(1);
            sets = sets.saturating_add(1 << n);
            most = most.max(n);
        }
    }
    if accepted < 2 || sets < SETS_WORTH {
        return 1;
    }
    may_run(workers, most)
}

// Finds the plan of each accepted entry, by so many workers that each plan one query at a time.
fn find_all<M: CostModel, G: Gate, R: Threads + Sync>(
    planning: &Planning<G, R>,
    workload: &Workload,
    model: M,
    workers: usize,
    places: &mut [Option<Planned>],
)
    requires some { 0 < workers }
    requires sized { length places.old ≤ length workload.now }
    ensures { AreFound planning.now M.KIND workload.now places.new }
{
    for_each_mut(
        planning.rt(),
        places,
        workers,
        &|i, place: &mut Option<Planned>|
            requires { i < length workload.now }
            ensures { (entry : Entry) → slice_get workload.entry.now i ≡ Some entry → IsFoundFor planning.entry.now M.KIND entry.part place.new }
        { *place = planning.find(workload.entry(i), model) },
    );
}

impl<'a, G: Gate, R: Threads + Sync> Planning<'a, G, R> {
    /// The plan of an accepted query, by one worker in the calling thread; nothing for a refused one, nor where memory runs out.
    pub fn find<M: CostModel>(&self, entry: &Entry, model: M) -> Option<Planned>
        requires sound { IsEntrySound entry.now }
        ensures { IsFoundFor self.now M.KIND entry.now.part result }
    {
        match &entry.part {
            Part::Accepted(named) => self.plan_alone(&named.query, model).ok(),
            Part::Refused(_) => None,
        }
    }

    /// A place for each entry, with the plan of its query: several queries are planned at the same time, each by one worker, as
    /// many as there are workers and memory for. No place where one query alone is accepted, all are
    /// small, or there is one worker: such queries are planned one after the other, each by all workers.
    ///
    /// A place without the plan of an accepted query tells that memory ran out. Fails when there is none for the places.
    pub fn plan_beforehand<M: CostModel>(
        &self,
        workload: &Workload,
        model: M,
    ) -> Result<Vec<Option<Planned>>, AllocError>
        ensures { IfOk result (λ v. AreFound self.now M.KIND workload.now v.items) }
    {
        let mut places = Vec::new(self.alloc());
        let workers = at_once(workload, self.workers());
        if workers < 2 {
            return Ok(places);
        }
        'places: while places.len() < workload.len() {
            places.push(None)?;
        }
        find_all(self, workload, model, workers, places.as_mut_slice());
        Ok(places)
    }
}
