//! The enumerations of pairs by the sizes of their sides: [`DpSize`] by a plain scan, and [`DpSva`] by skip vectors.
//!
//! Both give one list: the size of the union ascends, then that of the smaller side, and for each two sizes all pairs of connected
//! sets in list order. They differ in how many entries they look at for it, which `DpSva` counts.
//!
//! Begin with `cursor.rt`, which says where a scan stands and how it goes on, for both. `specs/Dpsize.antt` has the list and
//! `specs/Dpsva.antt` the number of probes.
#![tactic(auto)]

mod cursor;
mod dpsize;
mod dpsva;
mod pairs;
mod skip_parts;
#[cfg(test)]
mod tests;

pub use dpsize::DpSize;
pub use dpsva::DpSva;
pub use skip_parts::SkipParts;
