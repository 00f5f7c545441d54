ghost use Rattle.std.specs.Prelude.{◌≡◌, IfOk};
ghost use Rattle.serde_json.specs.View.{view};
ghost use Rattle.query_json.specs.Entries.{entries_of};
ghost use Rattle.workload_gen.specs.Accepted.{HoldsEightQueries};
ghost use Rattle.workload_gen.specs.Draws.{sample_of};
ghost use Rattle.workload_gen.specs.Values.{workload_of, workload_value};

use crate::draws::{queries, tables};
use crate::values::values;
use rand_core::SeedableRng;
use rand_xoshiro::Xoshiro256PlusPlus;
use serde_json::{Value, json};
use std::alloc::{AllocError, Global};

// The workload of a number as a value.
#[tactic(auto, unfolding(crate::specs::Draws::sample_of, crate::specs::Draws::sample, crate::specs::Values::workload_value))]
fn workload(alloc: Global, number: u64) -> Result<Value, AllocError>
    ensures { IfOk result (λ v. view v ≡ workload_value (sample_of number)) }
{
    let mut rng = Xoshiro256PlusPlus::seed_from_u64(number);
    let tables = tables(alloc, &mut rng)?;
    let queries = queries(alloc, &mut rng)?;
    let tables = values(alloc, tables.as_slice())?;
    let queries = values(alloc, queries.as_slice())?;
    json!(in alloc; {"tables": tables, "queries": queries})
}

#[tactic(auto, using(crate::proofs::Plain::workload_is_plain), unfolding(crate::specs::Values::workload_of))]
fn text_of(alloc: Global, number: u64) -> Result<Vec<u8>, AllocError>
    ensures { IfOk result (λ bytes. bytes.items ≡ workload_of number) }
{
    workload(alloc, number)?.to_vec(alloc)
}

/// The bytes of the sample workload of a number: compact JSON, without a newline.
///
/// Fails where there is no memory.
pub fn generate(alloc: Global, number: u64) -> Result<Vec<u8>, AllocError>
    ensures text { IfOk result (λ bytes. bytes.items ≡ workload_of number) }

    // Their reader finds no fault and refuses none of the eight queries.
    ensures accepted { IfOk result (λ bytes. HoldsEightQueries (entries_of bytes.items)) }
{
    text_of(alloc, number)
}
