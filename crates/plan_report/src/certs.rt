//! The certificate file: a workload, a cost model, and for each query a certificate or null.
pub mod cert;
pub mod fault;
mod member;
mod plan;
pub mod read;
pub mod write;
