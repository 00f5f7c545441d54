ghost use Rattle.std.specs.Prelude.{◌≡◌, ◌≢◌, ◌<◌, ◌^◌, ◌+◌, length, map, IfOk};
ghost use Rattle.std.specs.List.{range_with_len};
ghost use Rattle.dpe_base.specs.Queries.{relations};
ghost use Rattle.dpe_base.specs.Sets.{Within, full};
ghost use Rattle.card_scaled.specs.Scaled.{IsNear};
ghost use Rattle.card_scaled.specs.Cards.{base_of, with_relation, card};
ghost use Rattle.card_scaled.specs.Sparse.{AreFactors, AreCards, links_up, times_link};

use crate::cards::base_of;
use crate::places::Places;
use crate::scaled::Scaled;
use connected_sets::greatest;
use dpe_base::{Query, RelSet};
use std::alloc::{AllocError, Global};

/// A predicate, seen from its greater relation.
#[derive(Clone, Copy, Debug)]
pub struct Link {
    /// The lesser relation.
    pub low: u8,
    /// The predicate's fraction.
    pub fraction: Scaled,
}

/// What the relations and the predicates of a query bring into each product.
#[derive(Drop)]
pub struct Factors {
    /// Of each relation, its rows times its filter's fraction.
    pub bases: Vec<Scaled>,
    /// Of each relation, the predicates from lesser ones up to it.
    pub links: Vec<Vec<Link>>,
}

fn bases_of(alloc: Global, query: &Query) -> Result<Vec<Scaled>, AllocError>
    ensures { IfOk result (λ v. v.items ≡ map base_of query.now.rels) }
{
    let rels = query.rels();
    let mut bases = Vec::with_capacity(alloc, rels.len())?;
    for rel in rels {
        bases.push(base_of(rel))?;
    }
    Ok(bases)
}

// The predicates up to `r`.
#[tactic(auto, unfolding(crate::specs::Sparse::links_up))]
fn links_up(alloc: Global, query: &Query, r: u8) -> Result<Vec<Link>, AllocError>
    ensures { IfOk result (λ v. v.items ≡ links_up query.now r) }
{
    let preds = query.preds();
    let mut links = Vec::new(alloc);
    for p in preds {
        if p.high == r {
            let fraction = Scaled::frac(p.num, p.den);
            links.push(Link {
                low: p.low,
                fraction,
            })?;
        }
    }
    Ok(links)
}

// Those of each relation.
fn all_links(alloc: Global, query: &Query) -> Result<Vec<Vec<Link>>, AllocError>
    ensures { IfOk result (λ v. map (λ l. l.items) v.items ≡ map (links_up query.now) (range_with_len 0 (relations query.now))) }
{
    let mut all = Vec::new(alloc);
    for r in 0..query.n() {
        let links = links_up(alloc, query, r)?;
        all.push(links)?;
    }
    Ok(all)
}

// `c` times the predicate's fraction, where `s` has its lesser relation.
fn times_link(s: RelSet, c: Scaled, link: Link) -> Scaled
    requires near { IsNear (2 ^ 24) c.scale }
    requires fraction { IsNear (2 ^ 24) link.fraction.scale }
    ensures { result ≡ times_link s c link }
{
    if s.has(link.low) {
        c.mul(link.fraction)
    } else {
        c
    }
}

impl Factors {
    /// The factors of the query.
    pub fn of(alloc: Global, query: &Query) -> Result<Factors, AllocError>
        ensures { IfOk result (λ f. AreFactors query.now f) }
    {
        let bases = bases_of(alloc, query)?;
        let links = all_links(alloc, query)?;
        Ok(Factors { bases, links })
    }

    // `c` with one more relation, where `s` has those below it.
    fn with_relation(&self, query: &Query, s: RelSet, c: Scaled, r: u8) -> Scaled
        requires factors { AreFactors query.now self.now }
        requires known { r < relations query.now }
        requires near { IsNear (2 ^ 23 + 2 ^ 22) c.scale }
        ensures { result ≡ with_relation query.now s c r }
    {
        query.recall();
        let base = self.bases[r as usize];
        let mut product = c.mul(base);
        let links = self.links[r as usize].as_slice();
        'links: for i in 0..links.len() {
            product = times_link(s, product, links[i]);
        }
        product
    }

    /// The number of rows of `s` before rounding, from the least number of relations beyond a set that is known.
    pub fn card(&self, query: &Query, known: &Places, s: RelSet) -> Scaled
        requires factors { AreFactors query.now self.now }
        requires known { AreCards query.now known.now.items.items }
        requires within { Within s (full (relations query.now)) }
        ensures { result ≡ card query.now s }
    {
        query.recall();
        let Some(r) = greatest(s) else {
            return Scaled::one();
        };
        let rest = s.minus(RelSet::single(r));
        let before = match known.find(rest) {
            Some(place) => place.card,
            None => self.card(query, known, rest),
        };
        self.with_relation(query, rest, before, r)
    }
}
