//! What a run keeps from buffer to buffer, and its two paths: with threads (`pipeline`) and without (`alone`).

pub(crate) mod alone;
pub(crate) mod consumer;
pub(crate) mod pipeline;
pub(crate) mod producer;
pub(crate) mod shared;
mod threads;
