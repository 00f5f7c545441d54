//! The report of several queries, as lines of text or as one line of JSON.
//!
//! Begin at [`Report`]: an entry is added by `planned` or by `refused`, and `text` or `json` gives the bytes. A tree is first
//! measured (`measured.rt`): each node gets its set, its rows and its cost. The two printers (`text.rt`, `json.rt`) borrow the
//! measured tree. What the bytes are stands in `specs/Texts` and `specs/Json`, entry by entry, and `specs/Reports` says what a
//! report of a list of entries is. An entry is added whole or not at all: where memory runs out, the report stays as it was.
#![tactic(auto)]

mod certs;
mod entry;
mod json;
mod measured;
mod names;
mod report;
mod text;

pub use certs::cert::{Cert, Certs};
pub use certs::fault::CertFault;
pub use certs::read::{CERTIFIED_MAX, read_certs};
pub use certs::write::write_certs;
pub use entry::Stats;
pub use join_tree::build;
pub use names::enumerator_name;
pub use report::{Format, Report};

#[cfg(test)]
mod tests;
