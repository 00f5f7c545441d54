ghost use Rattle.std.specs.Prelude.{◌≡◌, ◌≢◌, ◌<◌, ◌^◌};
ghost use Rattle.dpe_base.specs.Queries.{relations};
ghost use Rattle.dpe_base.specs.Sets.{Within, full};
ghost use Rattle.join_graph.specs.Graphs.{graph_of};
ghost use Rattle.cert_check.specs.Steps.{IsKnownRows, AreKnownRows};

use card_scaled::rows_once;
use dpe_base::{Query, RelSet};
use join_graph::Graph;

// How many sets have their rows in the table. It stands on the stack.
const TABLE: usize = 4096;

/// The rows of the connected sets of a query: from a table where the set's number is small, and else by
/// going over its relations and all predicates.
#[derive(Drop)]
pub(crate) struct KnownRows {
    graph: Graph,
    table: [u64; TABLE],
}

// The rows of a connected set, and 0 of any other.
fn rows_if_connected(query: &Query, graph: &Graph, s: RelSet) -> u64
    requires graph { graph.now ≡ graph_of query.now }
    requires within { Within s (full (relations query.now)) }
    ensures { IsKnownRows query.now s result }
{
    if graph.connected(s) {
        rows_once(query, s)
    } else {
        0
    }
}

impl KnownRows {
    /// The rows of the query's connected sets.
    pub(crate) fn of(query: &Query) -> KnownRows
        ensures graph { result.graph ≡ graph_of query.now }
        ensures table { AreKnownRows query.now result.table }
    {
        let graph = Graph::of(query);
        let mut table = [0u64; TABLE];
        let sets = TABLE.min(1 << query.n());
        for s in 0..sets {
            table[s] = rows_if_connected(query, &graph, RelSet::of_bits(s as u32));
        }
        KnownRows { graph, table }
    }

    /// The rows of a connected set, and 0 of any other.
    pub(crate) fn rows(&self, query: &Query, s: RelSet) -> u64
        requires graph { self.now.graph ≡ graph_of query.now }
        requires table { AreKnownRows query.now self.now.table }
        requires within { Within s (full (relations query.now)) }
        ensures { IsKnownRows query.now s result }
    {
        let place = s.bits() as usize;
        if place < TABLE {
            self.table[place]
        } else {
            rows_if_connected(query, &self.graph, s)
        }
    }
}
