//! What a seat knows.
use dpe_base::{Pair, Query, RelSet};
use std::collections::LinkedList;

/// A query and a list of pairs: a memo's words are those of the trees that the pairs make.
/// No value of it is made.
pub struct TreeSpace {
    /// The query.
    pub query: Query,
    /// Pairs of the query.
    pub pairs: LinkedList<Pair>,
}

/// What a seat knows. It stays true whatever other seats do. No value of it is made.
pub struct View {
    /// The memo's query.
    pub query: Query,
    /// The memo's pairs: the trees that count are those that they make.
    pub pairs: LinkedList<Pair>,
    /// Sets, each with the word of a tree over it that was seen or offered.
    pub bounds: LinkedList<(RelSet, u64)>,
    /// A number that the counter has reached.
    pub floor: u64,
    /// The numbers that were drawn.
    pub tickets: LinkedList<u64>,
    /// How much of the right to know all tickets and all bounds.
    pub weight: u64,
    /// How many numbers may still be drawn.
    pub allowance: u64,
}
