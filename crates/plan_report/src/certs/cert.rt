use cost_model::ModelKind;
use join_tree::Tree;
use query_json::{Items, Workload};

/// A plan, and a bound for each set of the query's relations, which stands at the set's number.
#[derive(Drop)]
pub struct Cert {
    /// The plan. Its leaves are the places of the relations in the query.
    pub tree: Tree,
    /// The bounds.
    pub bounds: Items<u64>,
}

/// What a certificate file holds.
#[derive(Drop)]
pub struct Certs {
    /// The cost model under which the plans are least.
    pub model: ModelKind,
    /// The queries.
    pub workload: Workload,
    /// A member for each query: its certificate, or none.
    pub certs: Items<Option<Cert>>,
}
