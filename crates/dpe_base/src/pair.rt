use crate::rel_set::RelSet;

/// Two sets of relations that a join may combine. In a csg-cmp-pair the least relation of both is in `a`.
#[derive(Clone, Copy, PartialEq, Eq, Debug)]
pub struct Pair {
    /// The first set.
    pub a: RelSet,
    /// The second set.
    pub b: RelSet,
}
