//! What planning a query is made of, with threads or without.
ghost use Rattle.std.specs.Prelude.{◌≡◌, ◌^◌, Some, length, IfOk, IsTrue};
ghost use Rattle.dpe_base.specs.Queries.{relations};
ghost use Rattle.dpe_base.specs.Sets.{full};
ghost use Rattle.dpe_engine.specs.Engines.{IsSolved};
ghost use Rattle.join_graph.specs.Graphs.{graph_of};
ghost use Rattle.join_tree.specs.TreeOf.{tree_of};
ghost use Rattle.plan_space.specs.declared.class.Class.TheVariants.{LeftDeep};
ghost use Rattle.planner.specs.Classes.{IsPlanAmong, HasWordsAmong};
ghost use Rattle.planner.specs.Enumerations.{IsListing};
ghost use Rattle.planner.specs.Plans.{IsConnected, IsPlanOf, engine_of, listed_pairs};
ghost use Rattle.planner.specs.Ranges.{AreAllowed};

use crate::count::count_pairs;
use crate::options::Options;
use crate::planning::Planned;
use card_scaled::CardTable;
use cost_model::CostModel;
use dpe_base::{Query, RelSet};
use dpe_engine::{Engine, Gate, Solved};
use join_graph::Graph;
use join_tree::{Tree, build};
use pair_stream::PairStream;
use plan_space::{ZigZagPairs, build_class, left_words};
use std::alloc::{AllocError, Global};

/// A query to be planned, and how.
#[derive(Drop)]
pub(crate) struct Job<'a, M: CostModel, G: Gate> {
    pub(crate) alloc: Global,
    pub(crate) query: &'a Query,
    pub(crate) model: M,
    pub(crate) options: &'a Options,
    pub(crate) gate: &'a G,
}

impl<'a, M: CostModel, G: Gate> Job<'a, M, G> {
    /// An engine for the pairs of the stream, which is only named.
    pub(crate) fn engine<P: PairStream>(&self, stream: &P) -> Result<Engine<M>, AllocError>
        requires options { AreAllowed self.now.options.now }
        requires stream { IsListing self.now.options.now.class self.now.options.now.enumerator (graph_of self.now.query.now)
            (P.left stream.now) (P.total stream.now) }
        ensures { IfOk result (λ engine. engine ≡ engine_of self.now.options.now self.now.query.now (P.left stream.now)) }
    {
        Engine::prepare(
            self.alloc,
            self.query,
            self.model,
            self.options.buffer,
            self.options.workers,
            stream,
        )
    }

    // The plan that the words of a row tell.
    fn tree(&self, words: &[u64]) -> Result<Tree, AllocError>
        requires sized { length words.now ≡ 2 ^ relations self.now.query.now }
        requires connected { IsConnected self.now.query.now }
        requires words { HasWordsAmong self.now.options.now.class M.KIND self.now.query.now words.now (full (relations self.now.query.now)) }
        ensures { IfOk result
            (λ t. IsPlanAmong self.now.options.now.class M.KIND self.now.query.now (full (relations self.now.query.now)) (tree_of t)) }
    {
        let all = RelSet::full(self.query.n());
        match self.options.class {
            None => build(self.alloc, self.query, &self.model, words, all),
            Some(class) => build_class(self.alloc, self.query, &self.model, class, words, all),
        }
    }

    /// The plan and its counts, from a run over the pairs that are asked for and the stream that gave them.
    pub(crate) fn planned<P: PairStream>(
        &self,
        solved: Solved,
        stream: P,
    ) -> Result<Planned, AllocError>
        requires connected { IsConnected self.now.query.now }
        requires listing { IsListing self.now.options.now.class self.now.options.now.enumerator (graph_of self.now.query.now)
            (listed_pairs self.now.options.now self.now.query.now) (P.total stream) }
        requires run { IsSolved M.KIND
            (engine_of self.now.options.now self.now.query.now (listed_pairs self.now.options.now self.now.query.now)) solved }
        requires ended { IsTrue (P.ended stream) }
        ensures { IfOk result (IsPlanOf M.KIND self.now.options.now self.now.query.now) }
    {
        self.query.recall();
        let tree = self.tree(solved.words.row())?;
        Ok(Planned {
            tree,
            pairs: solved.pairs,
            buffers: solved.buffers,
            rounds: solved.rounds,
            probes: stream.probes(),
            drawn: solved.words.drawn(),
        })
    }

    /// The left-deep plan. Its words are made from those of smaller sets, without workers.
    pub(crate) fn left_deep(&self, graph: &Graph) -> Result<Planned, AllocError>
        requires options { AreAllowed self.now.options.now }
        requires class { self.now.options.now.class ≡ Some LeftDeep }
        requires connected { IsConnected self.now.query.now }
        requires graph { graph.now ≡ graph_of self.now.query.now }
        ensures { IfOk result (IsPlanOf M.KIND self.now.options.now self.now.query.now) }
    {
        self.query.recall();
        let cards = CardTable::make(self.alloc, self.query)?;
        let words = left_words(self.alloc, self.query, &self.model, &cards)?;
        let tree = self.tree(&words)?;
        let stream = ZigZagPairs::over(graph);
        let pairs = count_pairs(stream);
        Ok(Planned {
            tree,
            pairs,
            buffers: 0,
            rounds: 0,
            probes: 0,
            drawn: 0,
        })
    }
}
