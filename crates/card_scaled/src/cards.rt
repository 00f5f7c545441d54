ghost use Rattle.std.specs.Prelude.{◌≡◌, ◌≢◌, ◌≤◌, ◌<◌, ◌^◌, ◌+◌, ◌*◌, ℕ, length, get_or, IfOk, slice_index};
ghost use Rattle.dpe_base.specs.Queries.{JoinQuery, relations};
ghost use Rattle.dpe_base.specs.Sets.{Within, full};
ghost use Rattle.card_scaled.specs.Scaled.{IsNear, one, mul, rounded};
ghost use Rattle.card_scaled.specs.Cards.{base_of, times_pred, with_relation, card, rows, IsCardTable};

use crate::scaled::Scaled;
use dpe_base::{INPUT_CAP, Pred, Query, Rel, RelSet};
use std::alloc::{AllocError, Global};
use std::marker::Model;

/// The relation's rows, at least 1, times its filter's fraction.
#[tactic(auto, unfolding(crate::specs::Cards::base_of))]
pub fn base_of(rel: &Rel) -> Scaled
    requires some { 1 ≤ rel.now.num }
    requires proper { rel.now.num ≤ rel.now.den }
    requires small { rel.now.den ≤ INPUT_CAP }
    ensures { result ≡ base_of rel.now }
{
    Scaled::norm(rel.rows.max(1) as u128).mul(Scaled::frac(rel.num, rel.den))
}

// `c` times the predicate's fraction, where the predicate leads from a member of `s` up to `r`.
fn times_pred(s: RelSet, r: u8, c: Scaled, p: Pred) -> Scaled
    requires near { IsNear (2 ^ 24) c.scale }
    requires some { 1 ≤ p.num }
    requires proper { p.num ≤ p.den }
    requires small { p.den ≤ INPUT_CAP }
    ensures { result ≡ times_pred s r c p }
{
    if p.high == r && s.has(p.low) {
        c.mul(Scaled::frac(p.num, p.den))
    } else {
        c
    }
}

// `c` with one more relation of `s`.
fn with_relation(query: &Query, s: RelSet, c: Scaled, r: u8) -> Scaled
    requires known { r < relations query.now }
    requires near { IsNear (2 ^ 23 + 2 ^ 22) c.scale }
    ensures { result ≡ with_relation query.now s c r }
{
    let rels = query.rels();
    let rel = &rels[r as usize];
    let mut product = c.mul(base_of(rel));
    let preds = query.preds();
    for p in preds {
        product = times_pred(s, r, product, *p);
    }
    product
}

/// The number of rows that the join of the relations of `s` has, by going over all of them and all predicates.
///
/// At least 1 and at most `ROW_CAP`.
pub fn rows_once(query: &Query, s: RelSet) -> u64
    requires some { s ≢ 0 }
    requires within { Within s (full (relations query.now)) }
    ensures { result ≡ rows query.now s }
{
    let mut product = Scaled::one();
    for r in 0..query.n() {
        if s.has(r) {
            product = with_relation(query, s, product, r);
        }
    }
    product.rows()
}

/// The number of rows of every set, at the place of its bits.
#[derive(Drop)]
pub struct AllRows {
    n: u8,
    rows: Vec<u64>,
}

impl Model for AllRows {
    ghost use Rattle.std.specs.Prelude.{◌≡◌, ◌≤◌, ◌^◌, length};
    ghost use Rattle.dpe_base.specs.declared.TheConstants.{N_MAX};
    ghost use Rattle.card_scaled.specs.Cards.{RowTable};

    ghost Value = { RowTable };

    ghost view = { λ t. record { n = t.n; rows = t.rows.items } };

    ghost invariant = { λ t. (t.n ≤ N_MAX) × (length t.rows.items ≡ 2 ^ t.n) };
}

// Multiplies the sets from `half` on that the predicate leads in, up to their greatest relation `r`.
fn multiply_in(cards: &mut [Scaled], half: usize, r: u8, p: Pred)
    requires room { half + half ≤ length cards.old }
    requires half { half ≡ 2 ^ r }
    requires near { (k : ℕ) → half ≤ k → k < half + half → IsNear (2 ^ 24) (get_or cards.old k one).scale }
    requires some { 1 ≤ p.num }
    requires proper { p.num ≤ p.den }
    requires small { p.den ≤ INPUT_CAP }
    requires low { p.low < p.high }
    requires high { p.high < 32 }
    ensures length { length cards.new ≡ length cards.old }
    ensures below { (k : ℕ) → k < half → get_or cards.new k one ≡ get_or cards.old k one }
    ensures here { (k : ℕ) → half ≤ k → k < half + half → get_or cards.new k one ≡ times_pred k r (get_or cards.old k one) p }
{
    if p.high != r {
        return;
    }
    let factor = Scaled::frac(p.num, p.den);
    let bit = 1usize << p.low;
    // the sets that have the lower end, in ascending order
    let mut k = half | bit;
    while k < half + half {
        let card = cards[k];
        let product = card.mul(factor);
        cards[k] = product;
        k = (k + 1) | bit;
    }
}

// The sets from `half` on, each from the set without its greatest relation, which has these rows.
fn multiply_base(cards: &mut [Scaled], half: usize, base: Scaled)
    requires room { half + half ≤ length cards.old }
    requires near { (k : ℕ) → k < half → IsNear (2 ^ 24) (get_or cards.old k one).scale }
    requires base_near { IsNear (2 ^ 24) base.scale }
    ensures length { length cards.new ≡ length cards.old }
    ensures below { (k : ℕ) → k < half → get_or cards.new k one ≡ get_or cards.old k one }
    ensures here { (k : ℕ) → k < half → get_or cards.new (half + k) one ≡ mul (get_or cards.old k one) base }
{
    for k in 0..half {
        let card = cards[k];
        let product = card.mul(base);
        cards[half + k] = product;
    }
}

// Adds the sets whose greatest relation is `r`.
fn add_relation(query: &Query, cards: &mut [Scaled], r: u8)
    requires known { r < relations query.now }
    requires room { 2 ^ r + 2 ^ r ≤ length cards.old }
    requires filled { (k : ℕ) → k < 2 ^ r → get_or cards.old k one ≡ card query.now k }
    ensures length { length cards.new ≡ length cards.old }
    ensures filled { (k : ℕ) → k < 2 ^ r + 2 ^ r → get_or cards.new k one ≡ card query.now k }
{
    let rels = query.rels();
    let half = 1usize << r;
    let rel = &rels[r as usize];
    let base = base_of(rel);
    multiply_base(cards, half, base);
    let preds = query.preds();
    for p in preds {
        multiply_in(cards, half, r, *p);
    }
}

// The cardinalities of all sets.
fn all_cards(alloc: Global, query: &Query) -> Result<Vec<Scaled>, AllocError>
    ensures length { IfOk result (λ v. length v.items ≡ 2 ^ relations query.now) }
    ensures each { IfOk result (λ v. (k : ℕ) → k < 2 ^ relations query.now → get_or v.items k one ≡ card query.now k) }
{
    let n = query.n();
    let size = 1usize << n;
    let mut cards = vec![in alloc; Scaled::one(); size]?;
    for r in 0..n {
        add_relation(query, &mut cards, r);
    }
    Ok(cards)
}

// Each of the numbers, rounded.
fn round_all(alloc: Global, cards: &[Scaled]) -> Result<Vec<u64>, AllocError>
    ensures length { IfOk result (λ v. length v.items ≡ length cards.now) }
    ensures each { IfOk result (λ v. (k : ℕ) → k < length cards.now → slice_index v.items k ≡ rounded (get_or cards.now k one)) }
{
    let mut rows = vec![in alloc; 0u64; cards.len()]?;
    for k in 0..cards.len() {
        let card = cards[k];
        rows[k] = card.rows();
    }
    Ok(rows)
}

impl AllRows {
    /// The rows of all sets of the query's relations, each from the set without its greatest relation.
    pub fn make(alloc: Global, query: &Query) -> Result<AllRows, AllocError>
        ensures { IfOk result (λ t. IsCardTable query.now t) }
    {
        let cards = all_cards(alloc, query)?;
        let rows = round_all(alloc, &cards)?;
        Ok(AllRows { n: query.n(), rows })
    }

    /// The number of rows of the set, the same as by [`rows_once`].
    pub fn rows(&self, s: RelSet) -> u64
        requires some { s ≢ 0 }
        requires within { Within s (full self.now.n) }
        ensures entry { result ≡ slice_index self.now.rows s }
        ensures cardinality { (q : JoinQuery) → IsCardTable q self.now → result ≡ rows q s }
    {
        self.rows[s.bits() as usize]
    }
}
