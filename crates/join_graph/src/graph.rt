ghost use Rattle.std.specs.Prelude.{◌≡◌, ℕ, ◌<◌, ◌↔◌, IsTrue, IsNone, IfSome, All};
ghost use Rattle.dpe_base.specs.Sets.{Has, Within, full, union};
ghost use Rattle.join_graph.specs.Graphs.{JoinGraph, graph_of, Crossed, Connected, Edge, other_end, adjacent_to, adjacency, IsNeighbours, IsFirstUnreached, IsGraph};
ghost use Rattle.join_graph.specs.Growth.{IsFrontier, IsGrown};

use dpe_base::{N_MAX, Pred, Query, RelSet};
use std::marker::Model;

/// The join graph of a query: how many relations, and the neighbours of each.
#[derive(Clone, Copy, Debug)]
pub struct Graph {
    n: u8,
    adjacent: [RelSet; N_MAX],
}

impl Model for Graph {
    ghost use Rattle.join_graph.specs.Graphs.{JoinGraph, IsGraph};

    ghost Value = { JoinGraph };

    ghost view = { λ g. record { n = g.n; adjacent = g.adjacent } };

    ghost invariant = { λ g. IsGraph (record { n = g.n; adjacent = g.adjacent }) };

    ghost inverse = { λ v. record { n = v.n; adjacent = v.adjacent } };
}

// The other end of a predicate with an end at `r`.
#[tactic(auto, unfolding(crate::specs::Graphs::other_end))]
fn other_end(r: u8, p: &Pred) -> RelSet
    requires { (p.now.low < p.now.high) × (p.now.high < N_MAX) }
    ensures { result ≡ other_end r p.now }
{
    if p.low == r {
        RelSet::single(p.high)
    } else if p.high == r {
        RelSet::single(p.low)
    } else {
        RelSet::empty()
    }
}

// The relations that a predicate joins to `r`.
#[tactic(auto, unfolding(crate::specs::Graphs::adjacent_to))]
fn adjacent_to(preds: &[Pred], r: u8) -> RelSet
    requires { All (λ p. (p.low < p.high) × (p.high < N_MAX)) preds.now }
    ensures { result ≡ adjacent_to preds.now r }
{
    let mut all = RelSet::empty();
    for p in preds {
        all = all.union(other_end(r, p));
    }
    all
}

// The neighbours of each relation.
fn adjacency(preds: &[Pred]) -> [RelSet; N_MAX]
    requires { All (λ p. (p.low < p.high) × (p.high < N_MAX)) preds.now }
    ensures { result ≡ adjacency preds.now }
{
    let mut adjacent = [RelSet::empty(); N_MAX];
    for r in 0..N_MAX {
        adjacent[r] = adjacent_to(preds, r as u8);
    }
    adjacent
}

impl Graph {
    /// The join graph of the query: two relations are neighbours where a predicate has them as its ends.
    pub fn of(query: &Query) -> Graph
        ensures { result ≡ graph_of query.now }
    {
        Graph {
            n: query.n(),
            adjacent: adjacency(query.preds()),
        }
    }

    /// How many relations the query has: they are the numbers below it.
    pub fn n(&self) -> u8
        ensures value { result ≡ self.now.n }
        ensures valid { IsGraph self.now }
    {
        self.n
    }

    /// What every graph keeps, for a proof that needs it. It does nothing.
    pub fn recall(&self)
        ensures { IsGraph self.now }
    {
        let _ = &self.n;
    }

    // The relations that are joined to one in `s`.
    fn gathered(&self, s: RelSet) -> RelSet
        requires { Within s (full self.now.n) }
        ensures { (t : ℕ) → Has result t ↔ ((k : ℕ) × Has s k × Edge self.now k t) }
    {
        let mut all = RelSet::empty();
        let mut rest = s;
        'rest: while let Some(r) = rest.least() {
            all = all.union(self.adjacent[r as usize]);
            rest = rest.minus(RelSet::single(r));
        }
        all
    }

    /// The relations outside `s` that a predicate joins to one in `s`.
    pub fn neighbours(&self, s: RelSet) -> RelSet
        requires { Within s (full self.now.n) }
        ensures { IsNeighbours self.now s result }
    {
        self.gathered(s).minus(s)
    }

    /// Whether a predicate has one end in `a` and the other in `b`.
    pub fn joined(&self, a: RelSet, b: RelSet) -> bool
        requires a_in { Within a (full self.now.n) }
        requires b_in { Within b (full self.now.n) }
        ensures { IsTrue result ↔ Crossed self.now a b }
    {
        self.recall();
        self.gathered(a).meets(b)
    }

    // The relations of `s` outside `part` that are joined to one in `part`.
    fn frontier(&self, part: RelSet, s: RelSet) -> RelSet
        requires { Within part (full self.now.n) }
        ensures { IsFrontier self.now part s result }
    {
        let outside = self.neighbours(part);
        outside.minus(outside.minus(s))
    }

    // The same of `part` and its frontier `more`. What is joined to `part` is in `more`, so that alone counts.
    fn next_frontier(&self, part: RelSet, more: RelSet, s: RelSet) -> RelSet
        requires within { Within more (full self.now.n) }
        requires frontier { IsFrontier self.now part s more }
        ensures { IsFrontier self.now (union part more) s result }
    {
        let outside = s.minus(part.union(more));
        if outside.bits() == 0 {
            return outside;
        }
        outside.minus(outside.minus(self.gathered(more)))
    }

    // What a walk inside `s` reaches from `first`.
    fn grown(&self, first: u8, s: RelSet) -> RelSet
        requires within { Within s (full self.now.n) }
        requires first { Has s first }
        ensures { IsGrown self.now first s result }
    {
        self.recall();
        let mut part = RelSet::single(first);
        let mut more = self.frontier(part, s);
        'walk: while more.bits() != 0 {
            let next = self.next_frontier(part, more, s);
            part = part.union(more);
            more = next;
        }
        part
    }

    /// Whether `s` is not empty and a predicate crosses every split of `s` into two parts that are not empty.
    pub fn connected(&self, s: RelSet) -> bool
        requires { Within s (full self.now.n) }
        ensures { IsTrue result ↔ Connected self.now s }
    {
        self.recall();
        match s.least() {
            None => false,
            Some(first) => self.grown(first, s).bits() == s.bits(),
        }
    }

    /// The least relation that no walk from relation 0 reaches; `None` exactly where the graph is connected.
    pub fn first_unreached(&self) -> Option<u8>
        ensures none { IsNone result ↔ Connected self.now (full self.now.n) }
        ensures some { IfSome result (λ r. IsFirstUnreached self.now r) }
    {
        let all = RelSet::full(self.n);
        let reached = self.grown(0, all);
        let unreached = all.minus(reached);
        unreached.least()
    }
}
