//! The workload file: where it breaks the format, and the queries that it holds, each accepted or refused.
//!
//! Begin at [`read`], or at [`read_value`] where the file is there as a value already. The bytes become a tree of JSON over
//! the file's own text (`walk/tree.rt`); a [`serde_json::Value`] is a tree as it stands, and `walk/node.rt` is what the walk asks of
//! either. [`tree_of`] and [`read_node`] serve who wants this tree too. The walk (`walk.rt`) goes through it site by site, stops at
//! the first place that breaks the format, and gives what the file says with no name looked up (`file.rt`). Then each query is
//! looked up over the tables (`tables.rt`, `query.rt`): every name once, pass by pass, so that the first refusal in the order of
//! [`QueryRefusal`] decides. `specs/Entries` says the same in a page, `specs/Walk` what may stand where, and `specs/Decimals` what a
//! decimal text means. What holds of each accepted entry, and in what sense a fault or a refusal is the first, stands in [`laws`].
#![tactic(auto)]

mod entry;
mod fault;
mod file;
mod items;
mod label;
pub mod laws;
mod names;
mod place;
mod query;
mod refusal;
mod tables;
#[cfg(test)]
mod tests;
mod text;
mod walk;
mod workload;

pub use entry::{Entry, Named, Part};
pub use fault::FileFault;
pub use file::Ratio;
pub use items::Items;
pub use place::{Place, Site};
pub use refusal::{FracPlace, QueryRefusal};
pub use text::{write_path, write_refusal};
pub use walk::node::Node;
pub use walk::tree::tree_of;
pub use walk::{is_name, ratio_of};
pub use workload::{Workload, read, read_node, read_value};

/// The most bytes of a name.
pub const NAME_MAX: usize = 128;

/// The most digits behind the point of a decimal text.
pub const DECIMALS_MAX: usize = 12;

/// The most tables of a file.
pub const TABLES_MAX: usize = 4096;

/// The most columns of a table.
pub const COLUMNS_MAX: usize = 4096;

/// The most queries of a file.
pub const QUERIES_MAX: usize = 1024;
