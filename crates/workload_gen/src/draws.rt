ghost use Rattle.std.specs.Prelude.{◌≡◌, ◌≤◌, ◌<◌, ◌+◌, ◌-◌, ◌^◌, IfOk};
ghost use Rattle.workload_gen.specs.Draws.{draw_each, extra_join, extra_joins, joins_tried, pick, pick_from, query, relation, table, tree_join};

use crate::sample::{Join, KEPT_OF, QUERIES, Query, Relation, TABLES, Table};
use rand_core::utils::NextWord;
use rand_xoshiro::Xoshiro256PlusPlus;
use std::alloc::{AllocError, Global};

// The most rows of a table.
const ROWS_MAX: u64 = 1_000_000;

// The most pairs of which a further join keeps one.
const ONE_IN_MAX: u64 = 1000;

// How many numbers of tries at further joins there are: 0 to 3.
const EXTRA_COUNTS: u64 = 4;

// The fewest relations of a query, and how many numbers of them there are: 2 to 12.
const N_MIN: u64 = 2;

const N_COUNTS: u64 = 11;

/// The remainder of the next word by `k`.
fn pick(rng: &mut Xoshiro256PlusPlus, k: u64) -> u64
    requires { 1 ≤ k }
    ensures { (result, rng.new) ≡ pick k rng.old }
{
    rng.next_word() % k
}

/// One of the `k` numbers from `low` on.
fn pick_from(rng: &mut Xoshiro256PlusPlus, low: u64, k: u64) -> u64
    requires some { 1 ≤ k }
    requires fits { low + k < 2 ^ 64 }
    ensures drawn { (result, rng.new) ≡ pick_from low k rng.old }
    ensures least { low ≤ result }
    ensures most { result < low + k }
{
    low + pick(rng, k)
}

/// A table of 1 to 1,000,000 rows.
#[tactic(auto, unfolding(crate::specs::Draws::table))]
fn table(rng: &mut Xoshiro256PlusPlus) -> Table
    ensures { (result, rng.new) ≡ table rng.old }
{
    let rows = pick_from(rng, 1, ROWS_MAX);
    let distinct = pick_from(rng, 1, rows);
    Table { rows, distinct }
}

/// A relation over one of the tables, with a filter.
#[tactic(auto, unfolding(crate::specs::Draws::relation))]
fn relation(rng: &mut Xoshiro256PlusPlus) -> Relation
    ensures { (result, rng.new) ≡ relation rng.old }
{
    let table = pick(rng, TABLES);
    let kept = pick_from(rng, 1, KEPT_OF);
    Relation { table, kept }
}

/// A join of relation `i` with an earlier one.
#[tactic(auto, unfolding(crate::specs::Draws::tree_join))]
fn tree_join(rng: &mut Xoshiro256PlusPlus, i: u64) -> Join
    requires { 1 ≤ i }
    ensures { (result, rng.new) ≡ tree_join i rng.old }
{
    Join {
        left: pick(rng, i),
        right: i,
        one_in: None,
    }
}

/// A join of two of `n` relations, unless they are the same.
#[tactic(auto, unfolding(crate::specs::Draws::extra_join))]
fn extra_join(rng: &mut Xoshiro256PlusPlus, n: u64) -> Option<Join>
    requires { 1 ≤ n }
    ensures { (result, rng.new) ≡ extra_join n rng.old }
{
    let left = pick(rng, n);
    let right = pick(rng, n);
    if left == right {
        return None;
    }
    let one_in = Some(pick_from(rng, 1, ONE_IN_MAX));
    Some(Join {
        left,
        right,
        one_in,
    })
}

/// The tables of a sample.
///
/// Fails where there is no memory, as do the other lists.
pub fn tables(alloc: Global, rng: &mut Xoshiro256PlusPlus) -> Result<Vec<Table>, AllocError>
    ensures { IfOk result (λ v. (v.items, rng.new) ≡ draw_each (λ t. table) 0 8 rng.old) }
{
    let mut tables = Vec::new(alloc);
    'tables: for _ in 0..TABLES {
        tables.push(table(rng))?;
    }
    Ok(tables)
}

/// The relations of a query of `n` relations.
fn relations(
    alloc: Global,
    rng: &mut Xoshiro256PlusPlus,
    n: u64,
) -> Result<Vec<Relation>, AllocError>
    ensures { IfOk result (λ v. (v.items, rng.new) ≡ draw_each (λ i. relation) 0 n rng.old) }
{
    let mut relations = Vec::new(alloc);
    'relations: for _ in 0..n {
        relations.push(relation(rng))?;
    }
    Ok(relations)
}

/// The joins that connect `n` relations, one for each after the first.
fn tree_joins(alloc: Global, rng: &mut Xoshiro256PlusPlus, n: u64) -> Result<Vec<Join>, AllocError>
    requires { 1 ≤ n }
    ensures { IfOk result (λ v. (v.items, rng.new) ≡ draw_each tree_join 1 (n - 1) rng.old) }
{
    let mut joins = Vec::new(alloc);
    'joins: for i in 1..n {
        joins.push(tree_join(rng, i))?;
    }
    Ok(joins)
}

/// What is given by `count` tries at a join of two of `n` relations.
fn joins_tried(
    alloc: Global,
    rng: &mut Xoshiro256PlusPlus,
    n: u64,
    count: u64,
) -> Result<Vec<Join>, AllocError>
    requires { 1 ≤ n }
    ensures { IfOk result (λ v. (v.items, rng.new) ≡ joins_tried n count rng.old) }
{
    let mut joins = Vec::new(alloc);
    'joins: for _ in 0..count {
        if let Some(join) = extra_join(rng, n) {
            joins.push(join)?;
        }
    }
    Ok(joins)
}

/// Up to three further joins of `n` relations.
#[tactic(auto, unfolding(crate::specs::Draws::extra_joins))]
fn extra_joins(alloc: Global, rng: &mut Xoshiro256PlusPlus, n: u64) -> Result<Vec<Join>, AllocError>
    requires { 1 ≤ n }
    ensures { IfOk result (λ v. (v.items, rng.new) ≡ extra_joins n rng.old) }
{
    let count = pick(rng, EXTRA_COUNTS);
    joins_tried(alloc, rng, n, count)
}

/// A connected query of 2 to 12 relations.
#[tactic(auto, unfolding(crate::specs::Draws::query))]
fn query(alloc: Global, rng: &mut Xoshiro256PlusPlus) -> Result<Query, AllocError>
    ensures { IfOk result (λ q. (q, rng.new) ≡ query rng.old) }
{
    let n = pick_from(rng, N_MIN, N_COUNTS);
    let relations = relations(alloc, rng, n)?;
    let mut joins = tree_joins(alloc, rng, n)?;
    let mut extra = extra_joins(alloc, rng, n)?;
    joins.append(&mut extra)?;
    Ok(Query { relations, joins })
}

/// The queries of a sample.
pub fn queries(alloc: Global, rng: &mut Xoshiro256PlusPlus) -> Result<Vec<Query>, AllocError>
    ensures { IfOk result (λ v. (v.items, rng.new) ≡ draw_each (λ j. query) 0 8 rng.old) }
{
    let mut queries = Vec::new(alloc);
    'queries: for _ in 0..QUERIES {
        queries.push(query(alloc, rng)?)?;
    }
    Ok(queries)
}
