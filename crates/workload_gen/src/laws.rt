//! A law on every sample.
ghost use Rattle.std.specs.Prelude.{ℕ};
ghost use Rattle.query_json.specs.Entries.{entries_of};
ghost use Rattle.workload_gen.specs.Accepted.{HoldsEightQueries};
ghost use Rattle.workload_gen.specs.Values.{workload_of};

/// Whatever the number, its sample has no fault, and holds eight queries of which none is refused.
pub fn every_sample_holds_eight_queries()
    ensures { (number : ℕ) → HoldsEightQueries (entries_of (workload_of number)) }
{}
