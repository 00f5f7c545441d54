use dpe_base::Kind;
use plan_space::Class;

/// How a query is planned. The plan depends on the class alone; the time and the counts of `Planned` on all.
#[derive(Clone, Copy, Debug, PartialEq, Eq)]
pub struct Options {
    /// Which enumerator lists the csg-cmp-pairs. Zig-zag and left-deep plans are found without it.
    pub enumerator: Kind,
    /// How many pairs a buffer holds: 1 to `BUFFER_MAX`.
    pub buffer: u32,
    /// How many workers share the memo: 1 to `WORKERS_MAX`.
    pub workers: u32,
    /// Which trees are considered: those of a class, or all of them for `None`.
    pub class: Option<Class>,
}

impl Options {
    /// DPccp, buffers of 4,096 pairs, four workers, and all trees.
    pub const DEFAULT: Options = Options {
        enumerator: Kind::DpCcp,
        buffer: 4096,
        workers: 4,
        class: None,
    };
}
