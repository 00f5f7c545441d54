//! Sample workloads: a number gives the bytes of a workload file with eight tables and eight queries.
//!
//! Begin at [`generate`]. The number seeds a generator, `draws.rt` draws the tables and the queries from it as plain records
//! (`sample.rt`), and `values.rt` makes them JSON. `specs/Draws` has the order and the range of each draw. Every sample is
//! accepted, whatever its number ([`laws`]).
#![tactic(auto)]

mod draws;
pub mod laws;
mod sample;
#[cfg(test)]
mod tests;
mod values;
mod workload;

pub use workload::generate;
