//! What the tests share: queries of a shape, runs over them, and gates that watch a run.
ghost use Rattle.std.specs.Prelude.{◌≡◌, ◌≤◌, IfOk};
ghost use Rattle.join_graph.specs.Graphs.{graph_of};
ghost use Rattle.pair_stream.specs.Orders.{Complete, Ordered};

use crate::{Engine, Gate, Solved};
use cost_model::Ops;
use dpe_base::{BUFFER_MAX, EMPTY, Pred, Query, Rel, SPAN, WORKERS_MAX};
use enum_dpccp::DpCcp;
use enum_dpsize::DpSize;
use join_graph::Graph;
use pair_stream::{PairStream, Parts};
use std::alloc::{AllocError, Global};
use std::sync::atomic::{AtomicBool, AtomicU64, Ordering};
use std::test::Fail;
use std::thread::Threads;

// ---- queries

#[derive(Clone, Copy)]
pub enum Shape {
    Chain,
    Cycle,
    /// Its centre is relation 0.
    Star,
    Clique,
}

impl Shape {
    // Whether a predicate stands between the two of n relations.
    fn joins(self, low: u8, high: u8, n: u8) -> bool {
        let is_step = low.saturating_add(1) == high;
        match self {
            Shape::Chain => is_step,
            Shape::Cycle => is_step || (low == 0 && high.saturating_add(1) == n),
            Shape::Star => low == 0,
            Shape::Clique => true,
        }
    }
}

fn predicates(alloc: Global, shape: Shape, n: u8) -> Result<Vec<Pred>, AllocError> {
    let mut preds = Vec::new(alloc);
    'highs: for high in 0..n {
        'lows: for low in 0..high {
            if shape.joins(low, high, n) {
                preds.push(Pred {
                    low,
                    high,
                    num: 1,
                    den: 1,
                })?;
            }
        }
    }
    Ok(preds)
}

/// A query of `n` relations of one row each, joined in the shape by predicates that keep all.
pub fn query_of_ones(alloc: Global, shape: Shape, n: u8) -> Result<Query, Fail> {
    let one = Rel {
        rows: 1,
        num: 1,
        den: 1,
    };
    let rels = vec![in alloc; one; n as usize]?;
    let preds = predicates(alloc, shape, n)?;
    Ok(Query::new(rels, preds)?)
}

// A relation alone costs nothing; each join costs two, by a loop, which has number 2.
const LEAF: u64 = 3 * SPAN;

const ONE_JOIN: u64 = (4 * 2 + 2) * SPAN;

const TWO_JOINS: u64 = (4 * 4 + 2) * SPAN;

const THREE_JOINS: u64 = (4 * 6 + 2) * SPAN;

/// The words of a chain of four relations of one row, each with the lesser set left.
pub const CHAIN_OF_FOUR: [u64; 16] = [
    EMPTY,
    LEAF + 1,
    LEAF + 2,
    ONE_JOIN + 1,
    LEAF + 4,
    EMPTY,
    ONE_JOIN + 2,
    TWO_JOINS + 1,
    LEAF + 8,
    EMPTY,
    EMPTY,
    EMPTY,
    ONE_JOIN + 4,
    EMPTY,
    TWO_JOINS + 2,
    THREE_JOINS + 1,
];

// ---- runs

// An engine for all pairs of the query.
fn engine_over<P: PairStream>(
    alloc: Global,
    query: &Query,
    buffer: u32,
    workers: u32,
    stream: &P,
) -> Result<Engine<Ops>, AllocError>
    requires buffer { (1 ≤ buffer) × (buffer ≤ BUFFER_MAX) }
    requires workers { (1 ≤ workers) × (workers ≤ WORKERS_MAX) }
    requires complete { Complete (graph_of query.now) (P.left stream.now) }
    requires ordered { Ordered (P.left stream.now) }
    ensures { IfOk result (λ e. e.pairs ≡ P.left stream.now) }
{
    Engine::<Ops>::prepare(alloc, query, Ops, buffer, workers, stream)
}

// An engine processes all pairs of the query.
fn solve<P: PairStream, G: Gate, R: Threads + Sync>(
    rt: &R,
    alloc: Global,
    query: &Query,
    buffer: u32,
    workers: u32,
    stream: P,
    gate: &G,
) -> Result<Solved, AllocError>
    requires buffer { (1 ≤ buffer) × (buffer ≤ BUFFER_MAX) }
    requires workers { (1 ≤ workers) × (workers ≤ WORKERS_MAX) }
    requires complete { Complete (graph_of query.now) (P.left stream) }
    requires ordered { Ordered (P.left stream) }
{
    let engine = engine_over(alloc, query, buffer, workers, &stream)?;
    let (solved, _) = engine.run(rt, stream, gate);
    Ok(solved)
}

/// A run over the stream of DPccp.
pub fn solve_by_dpccp<G: Gate, R: Threads + Sync>(
    rt: &R,
    alloc: Global,
    query: &Query,
    buffer: u32,
    workers: u32,
    gate: &G,
) -> Result<Solved, AllocError>
    requires buffer { (1 ≤ buffer) × (buffer ≤ BUFFER_MAX) }
    requires workers { (1 ≤ workers) × (workers ≤ WORKERS_MAX) }
{
    let stream = DpCcp::over(&Graph::of(query));
    solve(rt, alloc, query, buffer, workers, stream, gate)
}

/// A run over the stream of DPccp that starts no thread.
pub fn solve_alone_by_dpccp<G: Gate>(
    alloc: Global,
    query: &Query,
    buffer: u32,
    workers: u32,
    gate: &G,
) -> Result<Solved, AllocError>
    requires buffer { (1 ≤ buffer) × (buffer ≤ BUFFER_MAX) }
    requires workers { (1 ≤ workers) × (workers ≤ WORKERS_MAX) }
{
    let stream = DpCcp::over(&Graph::of(query));
    let engine = engine_over(alloc, query, buffer, workers, &stream)?;
    let (solved, _) = engine.run_alone(stream, gate);
    Ok(solved)
}

/// A run over the stream of DPsize.
pub fn solve_by_dpsize<G: Gate, R: Threads + Sync>(
    rt: &R,
    alloc: Global,
    query: &Query,
    buffer: u32,
    workers: u32,
    gate: &G,
) -> Result<Solved, AllocError>
    requires buffer { (1 ≤ buffer) × (buffer ≤ BUFFER_MAX) }
    requires workers { (1 ≤ workers) × (workers ≤ WORKERS_MAX) }
{
    let graph = Graph::of(query);
    let parts = Parts::make(alloc, &graph)?;
    let stream = DpSize::over(&graph, &parts);
    solve(rt, alloc, query, buffer, workers, stream, gate)
}

// ---- gates

// How often one worker looks for the others before it goes on alone.
const TURNS: u64 = 10_000_000_000;

// So many counters of 0.
fn counters(alloc: Global, count: u64) -> Result<Vec<AtomicU64>, AllocError> {
    let mut counters = Vec::new(alloc);
    'counters: for _ in 0..count {
        counters.push(AtomicU64::new(0))?;
    }
    Ok(counters)
}

// Whether each counter is at `count`.
fn all_at(counters: &[AtomicU64], count: u64) -> bool {
    'counters: for counter in counters.iter() {
        if counter.load(Ordering::SeqCst) != count {
            return false;
        }
    }
    true
}

/// The first draws of all workers, and the filling of one buffer where one is named, wait for each other. Tickets below
/// `first` don't count.
#[derive(Drop)]
pub struct Meeting {
    first: u64,
    // The number of the buffer, or no buffer's number.
    buffer: u64,
    expected: u64,
    workers: Vec<AtomicU64>,
    present: AtomicU64,
    late: AtomicBool,
}

impl Meeting {
    /// Of all workers, from this ticket on.
    pub fn of_workers(alloc: Global, workers: u32, first: u64) -> Result<Meeting, AllocError> {
        Ok(Meeting {
            first,
            buffer: u64::MAX,
            expected: workers as u64,
            workers: counters(alloc, workers as u64)?,
            present: AtomicU64::new(0),
            late: AtomicBool::new(false),
        })
    }

    /// Of the first draw of any worker from this ticket on, and the filling of buffer `buffer`.
    pub fn with_filling(alloc: Global, first: u64, buffer: u64) -> Result<Meeting, AllocError> {
        Ok(Meeting {
            first,
            buffer,
            expected: 2,
            workers: counters(alloc, 1)?,
            present: AtomicU64::new(0),
            late: AtomicBool::new(false),
        })
    }

    // One more is present, and waits for the rest.
    fn come(&self) {
        self.present.fetch_add(1, Ordering::SeqCst);
        'turns: for _ in 0..TURNS {
            if self.present.load(Ordering::SeqCst) >= self.expected
                || self.late.load(Ordering::SeqCst)
            {
                return;
            }
        }
        self.late.store(true, Ordering::SeqCst);
    }

    /// Whether all came, and none went on alone.
    pub fn took_place(&self) -> bool {
        self.present.load(Ordering::SeqCst) == self.expected && !self.late.load(Ordering::SeqCst)
    }
}

impl Gate for Meeting {
    fn before(&self, worker: u32, ticket: u64) {
        if ticket < self.first {
            return;
        }
        let place = if self.buffer == u64::MAX {
            worker as usize
        } else {
            0
        };
        if let Some(seen) = self.workers.get(place) {
            if seen.fetch_add(1, Ordering::SeqCst) == 0 {
                self.come();
            }
        }
    }

    fn filling(&self, buffer: u64) {
        if buffer == self.buffer {
            self.come();
        }
    }
}

// How often the draw that is watched looks for another one: some 50 ms. A thread has started long before.
const LOOKS: u64 = 20_000_000;

/// Whether another draw comes while the first one from a ticket on is held up.
#[derive(Drop)]
pub struct Watch {
    first: u64,
    draws: AtomicU64,
    met: AtomicBool,
}

impl Watch {
    /// From this ticket on.
    pub fn from(first: u64) -> Watch {
        Watch {
            first,
            draws: AtomicU64::new(0),
            met: AtomicBool::new(false),
        }
    }

    /// Whether a draw was held up, and none came meanwhile.
    pub fn saw_one_thread(&self) -> bool {
        self.draws.load(Ordering::SeqCst) > 0 && !self.met.load(Ordering::SeqCst)
    }
}

impl Gate for Watch {
    fn before(&self, _worker: u32, ticket: u64) {
        if ticket < self.first || self.draws.fetch_add(1, Ordering::SeqCst) != 0 {
            return;
        }
        'looks: for _ in 0..LOOKS {
            if self.draws.load(Ordering::SeqCst) > 1 {
                self.met.store(true, Ordering::SeqCst);
                return;
            }
        }
    }

    fn filling(&self, _buffer: u64) {}
}

/// How often each ticket was drawn, how often each worker drew, how often each buffer was filled, and how many draws there
/// were before it.
#[derive(Drop)]
pub struct Tally {
    tickets: Vec<AtomicU64>,
    workers: Vec<AtomicU64>,
    buffers: Vec<AtomicU64>,
    draws: AtomicU64,
    draws_before: Vec<AtomicU64>,
    strays: AtomicU64,
}

impl Tally {
    /// For so many tickets, workers and buffers.
    pub fn of(
        alloc: Global,
        tickets: u64,
        workers: u32,
        buffers: u64,
    ) -> Result<Tally, AllocError> {
        Ok(Tally {
            tickets: counters(alloc, tickets)?,
            workers: counters(alloc, workers as u64)?,
            buffers: counters(alloc, buffers)?,
            draws: AtomicU64::new(0),
            draws_before: counters(alloc, buffers)?,
            strays: AtomicU64::new(0),
        })
    }

    // One more at the place.
    fn note(&self, counters: &[AtomicU64], place: usize) {
        let counter = match counters.get(place) {
            Some(counter) => counter,
            None => &self.strays,
        };
        counter.fetch_add(1, Ordering::SeqCst);
    }

    /// Whether each ticket was drawn once and each buffer filled once, and no other ticket, worker or buffer was named.
    pub fn has_each_once(&self) -> bool {
        all_at(self.tickets.as_slice(), 1)
            && all_at(self.buffers.as_slice(), 1)
            && self.strays.load(Ordering::SeqCst) == 0
    }

    /// How often the worker drew.
    pub fn draws_of(&self, worker: usize) -> u64 {
        match self.workers.get(worker) {
            Some(draws) => draws.load(Ordering::SeqCst),
            None => 0,
        }
    }

    /// Whether each worker drew as often as there were rounds, or oftener.
    pub fn has_all_workers(&self, rounds: u64) -> bool {
        'workers: for draws in self.workers.iter() {
            if draws.load(Ordering::SeqCst) < rounds {
                return false;
            }
        }
        true
    }

    /// How many draws there were before the buffer was filled.
    pub fn draws_before(&self, buffer: usize) -> u64 {
        match self.draws_before.get(buffer) {
            Some(draws) => draws.load(Ordering::SeqCst),
            None => u64::MAX,
        }
    }
}

impl Gate for Tally {
    fn before(&self, worker: u32, ticket: u64) {
        self.draws.fetch_add(1, Ordering::SeqCst);
        self.note(self.workers.as_slice(), worker as usize);
        self.note(self.tickets.as_slice(), ticket as usize);
    }

    fn filling(&self, buffer: u64) {
        self.note(self.buffers.as_slice(), buffer as usize);
        if let Some(draws) = self.draws_before.get(buffer as usize) {
            draws.store(self.draws.load(Ordering::SeqCst), Ordering::SeqCst);
        }
    }
}

/// Whether the workers take turns: each draws after the one before it is done, and the first after the last.
#[derive(Drop)]
pub struct Rota {
    workers: u64,
    last: AtomicU64,
    broken: AtomicBool,
}

impl Rota {
    /// Of so many workers.
    pub fn of(workers: u32) -> Rota {
        Rota {
            workers: workers as u64,
            last: AtomicU64::new(0),
            broken: AtomicBool::new(false),
        }
    }

    /// Whether all took turns, and the last to draw was the last worker.
    pub fn was_kept(&self) -> bool {
        self.last.load(Ordering::SeqCst).wrapping_add(1) == self.workers
            && !self.broken.load(Ordering::SeqCst)
    }
}

impl Gate for Rota {
    fn before(&self, worker: u32, _ticket: u64) {
        let worker = worker as u64;
        let last = self.last.swap(worker, Ordering::SeqCst);
        let next = last.wrapping_add(1);
        let follows = worker == next || (worker == 0 && next == self.workers);
        if worker != last && !follows {
            self.broken.store(true, Ordering::SeqCst);
        }
    }

    fn filling(&self, _buffer: u64) {}
}
