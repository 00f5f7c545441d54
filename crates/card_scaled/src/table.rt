ghost use Rattle.std.specs.Prelude.{◌≡◌, ◌≢◌, ◌≤◌, ◌^◌, IfOk, IfSome, slice_index};
ghost use Rattle.dpe_base.specs.Queries.{JoinQuery};
ghost use Rattle.dpe_base.specs.Sets.{Within, full};
ghost use Rattle.card_scaled.specs.Cards.{rows, IsCardTable};

use crate::cards::AllRows;
use crate::sparse::ConnectedRows;
use connected_sets::count_up_to;
use dpe_base::{Query, RelSet};
use join_graph::Graph;
use std::alloc::{AllocError, Global};
use std::marker::Model;

/// The number of rows of each set of a query's relations.
///
/// Where few of the sets are connected, only these are kept; else all are.
#[derive(Drop)]
pub struct CardTable {
    kept: Kept,
}

#[derive(Drop)]
enum Kept {
    All(AllRows),
    Connected(ConnectedRows),
}

impl Model for CardTable {
    ghost use Rattle.card_scaled.specs.Cards.{RowTable};
    ghost use Rattle.card_scaled.specs.Tables.{kept_rows};

    ghost Value = { RowTable };

    ghost view = { λ t. kept_rows t.kept };
}

// How many sets are connected, where it pays to keep these alone: from twelve relations on, and at most one set in 32.
fn few_connected(graph: &Graph) -> Option<usize>
    ensures { IfSome result (λ count. count ≤ 2 ^ 32) }
{
    let n = graph.n();
    if n < 12 {
        return None;
    }
    count_up_to(graph, 1usize << (n - 5))
}

impl CardTable {
    /// The rows of all sets of the query's relations, each from the set without its greatest relation.
    ///
    /// Fails where there is no memory.
    pub fn make(alloc: Global, query: &Query) -> Result<CardTable, AllocError>
        ensures { IfOk result (λ t. IsCardTable query.now t) }
    {
        let graph = Graph::of(query);
        let kept = match few_connected(&graph) {
            Some(count) => {
                let connected = ConnectedRows::make(alloc, query, &graph, count)?;
                Kept::Connected(connected)
            }
            None => {
                let all = AllRows::make(alloc, query)?;
                Kept::All(all)
            }
        };
        Ok(CardTable { kept })
    }

    /// The number of rows of the set, the same as by [`rows_once`](crate::rows_once).
    pub fn rows(&self, s: RelSet) -> u64
        requires some { s ≢ 0 }
        requires within { Within s (full self.now.n) }
        ensures entry { result ≡ slice_index self.now.rows s }
        ensures cardinality { (q : JoinQuery) → IsCardTable q self.now → result ≡ rows q s }
    {
        match &self.kept {
            Kept::All(table) => table.rows(s),
            Kept::Connected(table) => table.rows(s),
        }
    }
}
