//! The words of a query, kept for the next change of its rows.
ghost use Rattle.std.specs.Prelude.{◌≡◌, ◌<◌, ◌≤◌, IfOk, IfErr};
ghost use Rattle.dpe_base.specs.Queries.{relations};
ghost use Rattle.dpe_base.specs.Sets.{full};
ghost use Rattle.join_graph.specs.Graphs.{Connected, graph_of};
ghost use Rattle.join_tree.specs.Trees.{Plan};
ghost use Rattle.join_tree.specs.TreeOf.{tree_of};
ghost use Rattle.reopt.specs.Keeping.{KeptWords, AreBestWords, IsPlanned, HasChanged};

use crate::replan::{Settings, plan_all, replan};
use cost_model::CostModel;
use dpe_base::{BUFFER_MAX, INPUT_CAP, Query, RelSet, WORKERS_MAX};
use dpe_engine::{Gate, Solved};
use join_tree::{Tree, build};
use memo_table::Words;
use std::alloc::{AllocError, Global};
use std::marker::Model;
use std::thread::Threads;

/// A connected query with the best word of each set of its relations.
#[derive(Drop)]
pub struct Kept<M: CostModel> {
    query: Query,
    model: M,
    words: Words,
}

impl<M: CostModel> Model for Kept<M> {
    ghost use Rattle.reopt.specs.Keeping.{KeptWords, AreBestWords};

    ghost Value = { KeptWords };

    ghost view = { λ k. record { query = k.query; words = k.words } };

    ghost invariant = { λ k. AreBestWords M.KIND k.query k.words.row };
}

impl<M: CostModel> Kept<M> {
    /// Keeps the words that a run over all pairs of the query has left, as `Solved::words`.
    ///
    /// It takes no memory today, but a caller has to be ready for an `AllocError`: the words may be kept in another form one day.
    /// The query and the words are dropped then.
    pub fn make(_alloc: Global, query: Query, model: M, words: Words) -> Result<Kept<M>, AllocError>
        requires { AreBestWords M.KIND query words.row }
        ensures { IfOk result (λ k. k ≡ record { query = query; words = words }) }
    {
        Ok(Kept {
            query,
            model,
            words,
        })
    }

    /// Plans the connected query over all its pairs, and keeps the words. `buffer` and `workers` are as for an engine, and the
    /// gate is told of each draw and of each buffer. Whether a query is connected is told by `Graph::of(&query).first_unreached()`,
    /// which is `None` exactly then.
    ///
    /// Fails when memory runs out. The query is dropped then.
    pub fn planned<G: Gate, R: Threads + Sync>(
        rt: &R,
        alloc: Global,
        query: Query,
        model: M,
        buffer: u32,
        workers: u32,
        gate: &G,
    ) -> Result<Kept<M>, AllocError>
        requires connected { Connected (graph_of query) (full (relations query)) }
        requires buffer { (1 ≤ buffer) × (buffer ≤ BUFFER_MAX) }
        requires workers { (1 ≤ workers) × (workers ≤ WORKERS_MAX) }
        ensures { IfOk result (IsPlanned query buffer workers) }
    {
        query.recall();
        let solved = plan_all(rt, alloc, &query, model, buffer, workers, gate)?;
        Ok(Kept {
            query,
            model,
            words: solved.words,
        })
    }

    /// The plan of the query with its present rows: the tree whose every subtree has the least cost, of those the least
    /// operator, then the least left set.
    ///
    /// Fails when memory runs out.
    pub fn plan(&self, alloc: Global) -> Result<Tree, AllocError>
        ensures { IfOk result (λ t. Plan M.KIND self.now.query (full (relations self.now.query)) (tree_of t)) }
    {
        let all = RelSet::full(self.query.n());
        build(alloc, &self.query, &self.model, self.words.row(), all)
    }

    /// The query, with the rows of the last change.
    pub fn query(&self) -> &Query
        ensures value { result.now ≡ self.now.query }
        ensures best { AreBestWords M.KIND self.now.query self.now.words.row }
    {
        &self.query
    }

    /// The words of this query.
    pub fn words(&self) -> &Words
        ensures value { result.now ≡ self.now.words }
        ensures best { AreBestWords M.KIND self.now.query self.now.words.row }
    {
        &self.words
    }

    /// Relation `r` has `rows` rows from now on, and the words are those of planning this query from scratch. It answers
    /// how many pairs were processed for it: those whose union has the relation. The words of all other sets stay, since no
    /// tree over them has it.
    ///
    /// As in an engine, `buffer` is how many pairs are taken at once, `workers` how many seats share the memo, and the gate
    /// is told of each draw and of each buffer.
    ///
    /// Fails when memory runs out; nothing has changed then.
    pub fn change<G: Gate, R: Threads + Sync>(
        &mut self,
        rt: &R,
        alloc: Global,
        r: u8,
        rows: u64,
        buffer: u32,
        workers: u32,
        gate: &G,
    ) -> Result<u64, AllocError>
        requires relation { r < relations self.old.query }
        requires rows { rows ≤ INPUT_CAP }
        requires buffer { (1 ≤ buffer) × (buffer ≤ BUFFER_MAX) }
        requires workers { (1 ≤ workers) × (workers ≤ WORKERS_MAX) }
        ensures changed { IfOk result (λ k. HasChanged M.KIND record { r = r; rows = rows; buffer = buffer; workers = workers } self.old self.new k) }
        ensures unchanged { IfErr result (λ _. self.new ≡ self.old) }
    {
        let settings = Settings {
            model: self.model,
            r,
            buffer,
            workers,
        };
        // the query is changed in place, since a copy of it would take memory, and changed back when memory runs out
        let before = self.query.rels()[r as usize].rows;
        self.query.set_rows(r, rows);
        match replan(rt, alloc, &self.query, &self.words, &settings, gate) {
            Ok(
                Solved {
                    words,
                    pairs,
                    buffers: _,
                    rounds: _,
                },
            ) => {
                self.words = words;
                Ok(pairs)
            }
            Err(error) => {
                self.query.set_rows(r, before);
                Err(error)
            }
        }
    }
}
