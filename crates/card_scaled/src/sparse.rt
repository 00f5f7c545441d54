ghost use Rattle.std.specs.Prelude.{◌≡◌, ◌≢◌, ◌≤◌, ◌<◌, ◌^◌, length, IfOk, IfSome, slice_index};
ghost use Rattle.dpe_base.specs.Queries.{JoinQuery};
ghost use Rattle.dpe_base.specs.Sets.{Within, full};
ghost use Rattle.join_graph.specs.Graphs.{graph_of};
ghost use Rattle.card_scaled.specs.Cards.{rows, IsCardTable};
ghost use Rattle.card_scaled.specs.Sparse.{AreCards};

use crate::cards::rows_once;
use crate::factors::Factors;
use crate::places::Places;
use connected_sets::ConnectedSets;
use dpe_base::{Query, RelSet};
use join_graph::Graph;
use std::alloc::{AllocError, Global};
use std::marker::Model;

/// The number of rows of each connected set; that of another set is computed when it is asked for.
#[derive(Drop)]
pub struct ConnectedRows {
    query: Query,
    known: Places,
}

impl Model for ConnectedRows {
    ghost use Rattle.std.specs.Prelude.{◌≡◌};
    ghost use Rattle.card_scaled.specs.Cards.{RowTable};
    ghost use Rattle.card_scaled.specs.Sparse.{AreCards, table_of};

    ghost Value = { RowTable };

    ghost view = { λ t. table_of t.query };

    ghost invariant = { λ t. AreCards t.query t.known.items.items };
}

// The same query.
fn copy_of(alloc: Global, query: &Query) -> Result<Query, AllocError>
    ensures { IfOk result (λ q. q ≡ query.now) }
{
    query.recall();
    let rels = query.rels().to_vec(alloc)?;
    let preds = query.preds().to_vec(alloc)?;
    match Query::new(rels, preds) {
        Ok(copy) => Ok(copy),
        Err(_) => unreachable!(),
    }
}

// The connected sets, each from the sets within it that came before.
fn connected_cards(
    alloc: Global,
    query: &Query,
    graph: &Graph,
    count: usize,
) -> Result<Places, AllocError>
    requires graph { graph.now ≡ graph_of query.now }
    requires few { count ≤ 2 ^ 32 }
    ensures { IfOk result (λ known. AreCards query.now known.items.items) }
{
    let factors = Factors::of(alloc, query)?;
    let mut known = Places::with_room_for(alloc, count)?;
    let mut sets = ConnectedSets::over(graph);
    'sets: while let Some(s) = sets.next(graph) {
        let card = factors.card(query, &known, s);
        known.put(s, card);
    }
    Ok(known)
}

impl ConnectedRows {
    /// The rows of the query's connected sets, of which there are so many.
    pub fn make(
        alloc: Global,
        query: &Query,
        graph: &Graph,
        count: usize,
    ) -> Result<ConnectedRows, AllocError>
        requires graph { graph.now ≡ graph_of query.now }
        requires few { count ≤ 2 ^ 32 }
        ensures { IfOk result (λ t. IsCardTable query.now t) }
    {
        let known = connected_cards(alloc, query, graph, count)?;
        let query = copy_of(alloc, query)?;
        Ok(ConnectedRows { query, known })
    }

    /// The number of rows of the set, the same as by [`rows_once`].
    pub fn rows(&self, s: RelSet) -> u64
        requires some { s ≢ 0 }
        requires within { Within s (full self.now.n) }
        ensures entry { result ≡ slice_index self.now.rows s }
        ensures cardinality { (q : JoinQuery) → IsCardTable q self.now → result ≡ rows q s }
    {
        match self.known.find(s) {
            Some(place) => place.rows,
            None => rows_once(&self.query, s),
        }
    }
}
