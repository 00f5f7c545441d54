//! A buffer that takes the next run of a stream of pairs and gives its pairs by the size of their unions, so that
//! workers find the sides of a pair done before they come to it.
//!
//! The union of the pairs that build a side is smaller than the union of the pair with that side. So the pairs of one size, a
//! group, need nothing of each other, and several workers may take them at once when the smaller sizes are done.
//!
//! Begin with [`Buffer`]: `with_capacity` takes all its memory, `fill` takes a run from a stream, and `group` gives the pairs of
//! one size. `links.rt` counts the pairs of each size while they come, and links each to the one before it of its size. What a
//! group is stands in `specs/Groups.antt`, and `laws` says that the groups have each pair of the run once.
#![tactic(auto)]

mod buffer;
pub mod laws;
mod links;
#[cfg(test)]
mod tests;

pub use buffer::Buffer;
use dpe_base::BUFFER_MAX;

/// How many sizes a set of relations can have: 0 to 32.
pub const SIZES: usize = 33;

// A set has 32 binary digits, and a place has 16.
const _: () = prove!(SIZES == u32::BITS as usize + 1);

const _: () = prove!(BUFFER_MAX == 1 << u16::BITS);
