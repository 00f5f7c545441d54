/// Which joins a tree may have.
#[derive(Clone, Copy, PartialEq, Eq, Debug)]
pub enum Class {
    /// A side of each join has at most two relations.
    Narrow,
    /// A side of each join is a relation.
    ZigZag,
    /// The right side of each join is a relation.
    LeftDeep,
}
