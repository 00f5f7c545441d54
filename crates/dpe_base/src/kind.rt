/// Which enumerator gives the pairs of a query: DPccp, DPsub and DPsize of Moerkotte and Neumann (VLDB 2006), or
/// DPsva, which is DPsize with the skip vectors of Han et al. (VLDB 2008).
#[derive(Clone, Copy, PartialEq, Eq, Debug)]
pub enum Kind {
    DpCcp,
    DpSub,
    DpSize,
    DpSva,
}
