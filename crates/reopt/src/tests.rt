ghost use Rattle.std.specs.Prelude.{◌≡◌, ◌≤◌, ◌<◌, IfOk};
ghost use Rattle.dpe_base.specs.Queries.{relations};
ghost use Rattle.dpe_base.specs.Sets.{full};
ghost use Rattle.join_graph.specs.Graphs.{Connected, graph_of};
ghost use Rattle.reopt.specs.Keeping.{AreBestWords};

use crate::{Kept, Touching};
use cost_model::{CostModel, Ops};
use dpe_base::{BUFFER_MAX, INPUT_CAP, N_MAX, Pred, Query, Rel, WORKERS_MAX};
use dpe_engine::{Engine, Gate, OpenGate};
use enum_dpccp::DpCcp;
use join_graph::Graph;
use memo_table::Words;
use pair_stream::collect_pairs;
use std::alloc::{AllocError, Global};
use std::sync::atomic::{AtomicU64, Ordering};
use std::test::Fail;
use std::thread::Threads;

// Counts the draws, the buffers, and those that were named out of turn.
#[derive(Drop)]
struct Notes {
    draws: AtomicU64,
    buffers: AtomicU64,
    strays: AtomicU64,
}

impl Notes {
    fn new() -> Notes {
        Notes {
            draws: AtomicU64::new(0),
            buffers: AtomicU64::new(0),
            strays: AtomicU64::new(0),
        }
    }

    // How many draws, buffers and strays there were.
    fn counts(&self) -> (u64, u64, u64) {
        (
            self.draws.load(Ordering::SeqCst),
            self.buffers.load(Ordering::SeqCst),
            self.strays.load(Ordering::SeqCst),
        )
    }
}

impl Gate for Notes {
    fn before(&self, _worker: u32, _ticket: u64) {
        self.draws.fetch_add(1, Ordering::SeqCst);
    }

    fn filling(&self, buffer: u64) {
        if self.buffers.fetch_add(1, Ordering::SeqCst) != buffer {
            self.strays.fetch_add(1, Ordering::SeqCst);
        }
    }
}

#[derive(Clone, Copy)]
enum Shape {
    Chain,
    Cycle,
    Star,
    Clique,
}

impl Shape {
    // Whether a predicate stands between the two of n relations.
    fn joins(self, low: u8, high: u8, n: u8) -> bool {
        let is_step = low.saturating_add(1) == high;
        match self {
            Shape::Chain => is_step,
            Shape::Cycle => is_step || (low == 0 && high.saturating_add(1) == n),
            Shape::Star => low == 0,
            Shape::Clique => true,
        }
    }
}

// A query of relations of these rows, whose predicates keep a tenth.
fn query_of(alloc: Global, shape: Shape, rows: &[u64]) -> Result<Query, Fail> {
    let n = rows.len().min(N_MAX) as u8;
    let mut rels = Vec::new(alloc);
    let mut preds = Vec::new(alloc);
    for high in 0..n {
        rels.push(Rel {
            rows: rows[high as usize],
            num: 1,
            den: 1,
        })?;
        for low in 0..high {
            if shape.joins(low, high, n) {
                preds.push(Pred {
                    low,
                    high,
                    num: 1,
                    den: 10,
                })?;
            }
        }
    }
    Ok(Query::new(rels, preds)?)
}

// The words of a run over all pairs.
fn words_of<R: Threads + Sync>(rt: &R, alloc: Global, query: &Query) -> Result<Words, AllocError>
    requires { Connected (graph_of query.now) (full (relations query.now)) }
    ensures { IfOk result (λ w. AreBestWords ⟦<Ops as CostModel>⟧.KIND query.now w.row) }
{
    let graph = Graph::of(query);
    let all = DpCcp::over(&graph);
    query.recall();
    let engine = Engine::<Ops>::prepare(alloc, query, Ops, 4096, 4, &all)?;
    let (solved, _) = engine.run(rt, all, &OpenGate);
    Ok(solved.words)
}

// The query with these words.
fn keep<R: Threads + Sync>(rt: &R, alloc: Global, query: Query) -> Result<Kept<Ops>, AllocError>
    requires { Connected (graph_of query) (full (relations query)) }
{
    let words = words_of(rt, alloc, &query)?;
    Kept::make(alloc, query, Ops, words)
}

// How many pairs of the query a change of the relation touches.
fn touched(alloc: Global, query: &Query, r: u8) -> Result<usize, AllocError>
    requires { r < 32 }
{
    let graph = Graph::of(query);
    let mut stream = Touching::over(DpCcp::over(&graph), r);
    Ok(collect_pairs(alloc, &mut stream)?.len())
}

#[test]
fn a_change_at_the_end_of_a_chain(rt: HostRuntime) -> Result<(), Fail> {
    let query = query_of(rt.alloc(), Shape::Chain, &[10; 3])?;
    assert_eq!(rt; query.n(), 3);
    assert!(rt; Graph::of(&query).first_unreached().is_none());
    let mut kept = Kept::planned(&rt, rt.alloc(), query, Ops, 4096, 4, &OpenGate)?;
    let gate = Notes::new();
    let again = kept.change(&rt, rt.alloc(), 2, 20, 4096, 4, &gate)?;
    assert_eq!(rt; again, 3);
    // a draw for each pair, and one for each of four workers in two rounds
    assert_eq!(rt; gate.counts(), (11, 1, 0));
    assert_eq!(rt; kept.words().drawn(), 11);
    Ok(())
}

// Three full buffers of one pair and an empty one. A round of one worker draws a ticket past its pair.
#[test]
fn a_gate_is_told_of_each_buffer(rt: HostRuntime) -> Result<(), Fail> {
    let query = query_of(rt.alloc(), Shape::Chain, &[10; 3])?;
    assert_eq!(rt; query.n(), 3);
    assert!(rt; Graph::of(&query).first_unreached().is_none());
    let mut kept = Kept::planned(&rt, rt.alloc(), query, Ops, 4096, 4, &OpenGate)?;
    let gate = Notes::new();
    kept.change(&rt, rt.alloc(), 2, 20, 1, 1, &gate)?;
    assert_eq!(rt; gate.counts(), (6, 4, 0));
    Ok(())
}

// The pairs of the 19 intervals that end at the last relation, of 2 to 20 relations: one fewer than each has relations.
#[test]
fn a_change_of_a_chain_of_twenty(rt: HostRuntime) -> Result<(), Fail> {
    let query = query_of(rt.alloc(), Shape::Chain, &[10; 20])?;
    assert_eq!(rt; query.n(), 20);
    assert!(rt; Graph::of(&query).first_unreached().is_none());
    let mut kept = Kept::planned(&rt, rt.alloc(), query, Ops, 4096, 4, &OpenGate)?;
    let again = kept.change(&rt, rt.alloc(), 19, 500, 4096, 4, &OpenGate)?;
    assert_eq!(rt; again, 190);
    let anew = words_of(&rt, rt.alloc(), kept.query())?;
    assert!(rt; kept.words().row() == anew.row());
    Ok(())
}

// What a case gives to `change`.
#[derive(Clone, Copy)]
struct Case {
    r: u8,
    rows: u64,
    buffer: u32,
    workers: u32,
}

// Whether the words after the change are those of the changed query, and as many pairs were processed as it touches.
fn is_planning_anew<R: Threads + Sync>(
    rt: &R,
    alloc: Global,
    kept: &mut Kept<Ops>,
    case: &Case,
) -> Result<bool, Fail>
    requires relation { case.now.r < relations kept.old.query }
    requires rows { case.now.rows ≤ INPUT_CAP }
    requires buffer { (1 ≤ case.now.buffer) × (case.now.buffer ≤ BUFFER_MAX) }
    requires workers { (1 ≤ case.now.workers) × (case.now.workers ≤ WORKERS_MAX) }
    ensures { relations kept.new.query ≡ relations kept.old.query }
{
    kept.query().recall();
    let again = kept.change(
        rt,
        alloc,
        case.r,
        case.rows,
        case.buffer,
        case.workers,
        &OpenGate,
    )?;
    let count = touched(alloc, kept.query(), case.r)?;
    let anew = words_of(rt, alloc, kept.query())?;
    Ok(again == count as u64 && kept.words().row() == anew.row())
}

const ROWS: [u64; 5] = [10, 1000, 3, 70, 10];

// How many pairs a buffer holds, and how many workers there are.
const SETTINGS: [(u32, u32); 3] = [(1, 1), (3, 4), (4096, 2)];

// Rows that go down and up, one after the other.
const CHANGES: [u64; 5] = [0, INPUT_CAP, 7, 7, 500];

// Changes each relation of the query several times, and answers how often the words differed from those of planning anew.
fn change_all<R: Threads + Sync>(rt: &R, alloc: Global, kept: &mut Kept<Ops>) -> Result<u32, Fail> {
    let n = kept.query().n();
    let mut differed = 0u32;
    'relations: for r in 0..n {
        'changes: for rows in CHANGES {
            let (buffer, workers) = SETTINGS[r as usize % SETTINGS.len()];
            let case = Case {
                r,
                rows,
                buffer,
                workers,
            };
            if !is_planning_anew(rt, alloc, kept, &case)? {
                differed = differed.saturating_add(1);
            }
        }
    }
    Ok(differed)
}

#[test]
fn a_change_is_planning_anew(rt: HostRuntime) -> Result<(), Fail> {
    for shape in [Shape::Chain, Shape::Cycle, Shape::Star, Shape::Clique] {
        for n in [1, 2, 3, 5] {
            let query = query_of(rt.alloc(), shape, &ROWS[..n])?;
            assert!(rt; Graph::of(&query).first_unreached().is_none());
            let mut kept = keep(&rt, rt.alloc(), query)?;
            let differed = change_all(&rt, rt.alloc(), &mut kept)?;
            assert_eq!(rt; differed, 0);
        }
    }
    Ok(())
}
