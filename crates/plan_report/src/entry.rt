use dpe_base::Kind;

/// How the pairs of a query were enumerated and worked.
#[derive(Clone, Copy, Debug, PartialEq, Eq)]
pub struct Stats {
    /// The enumerator that gave the pairs.
    pub enumerator: Kind,
    /// How many pairs a buffer takes.
    pub buffer: u32,
    /// How many buffers were filled.
    pub buffers: u64,
    /// How many groups of pairs were worked.
    pub rounds: u64,
    /// How many entries were looked at through skip vectors.
    pub probes: u64,
}
