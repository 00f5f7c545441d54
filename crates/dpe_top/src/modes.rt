//! What the program does in each mode: one file a mode, each with a `reply`.
pub mod certify;
pub mod check;
pub mod migrate;
pub mod plan;
pub mod replan;
pub mod sample;
