//! Queries whose joins differ, for all tests.
mod all_costs;
mod all_trees;
mod pairs;
mod plans;
mod quick;

use crate::Class;
use dpe_base::{Pred, Query, Rel};
use std::alloc::Global;
use std::test::Fail;

#[derive(Clone, Copy)]
enum Shape {
    Chain,
    Cycle,
    Star,
    Clique,
    // A drawn tree and drawn edges, by the seed.
    Drawn(u32),
}

// A number drawn for two relations.
fn drawn(seed: u32, low: u8, high: u8) -> u32 {
    let place = seed
        .wrapping_mul(64)
        .wrapping_add(low as u32 * 8)
        .wrapping_add(high as u32);
    place.wrapping_mul(0x9e37_79b1) >> 16
}

// Whether two relations of the shape are joined, the lower first.
fn is_edge(shape: Shape, n: u8, low: u8, high: u8) -> bool {
    match shape {
        Shape::Chain => high.saturating_sub(low) == 1,
        Shape::Cycle => {
            high.saturating_sub(low) == 1 || (low == 0 && high.saturating_add(1) == n)
        }
        Shape::Star => low == 0,
        Shape::Clique => true,
        Shape::Drawn(seed) => {
            low as u32 == drawn(seed, high, high) % (high.max(1) as u32)
                || drawn(seed, low, high) % 4 == 0
        }
    }
}

// A query whose relations and predicates differ, so that the order of joins matters.
fn query(alloc: Global, n: u8, shape: Shape) -> Result<Query, Fail> {
    let mut rels = Vec::new(alloc);
    let mut preds = Vec::new(alloc);
    for high in 0..n {
        rels.push(Rel {
            rows: 10 + (high as u64) * 37 % 100,
            num: 1,
            den: 1,
        })?;
        for low in 0..high {
            if is_edge(shape, n, low, high) {
                preds.push(Pred {
                    low,
                    high,
                    num: 1,
                    den: 2 + (high as u64 * 7 + low as u64 * 11) % 30,
                })?;
            }
        }
    }
    Ok(Query::new(rels, preds)?)
}

const SHAPES: [Shape; 6] = [
    Shape::Chain,
    Shape::Cycle,
    Shape::Star,
    Shape::Clique,
    Shape::Drawn(1),
    Shape::Drawn(2),
];

const CLASSES: [Class; 3] = [Class::Narrow, Class::ZigZag, Class::LeftDeep];

// A chain of four relations whose ends join far more narrowly than its middle.
fn bushy(alloc: Global) -> Result<Query, Fail> {
    let rel = Rel {
        rows: 1000,
        num: 1,
        den: 1,
    };
    let rels = vec![in alloc; rel; 4]?;
    let mut preds = Vec::new(alloc);
    for (low, high, den) in [(0u8, 1u8, 100_000), (1, 2, 1), (2, 3, 100_000)] {
        preds.push(Pred {
            low,
            high,
            num: 1,
            den,
        })?;
    }
    Ok(Query::new(rels, preds)?)
}
