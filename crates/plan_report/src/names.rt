//! The printed names of operators, enumerators and cost models.
ghost use Rattle.std.specs.Prelude.{◌≡◌};
ghost use Rattle.plan_report.specs.Names.{operator_name, enumerator_name, model_name};

use cost_model::{HASH, MERGE, ModelKind, OPS};
use dpe_base::Kind;

/// The name of an operator, by the model's number and its own.
pub fn operator_name(model: u8, op: u8) -> &'static str
    ensures { result.now ≡ operator_name model op }
{
    match (model, op) {
        (OPS, HASH) => "hash",
        (OPS, MERGE) => "merge",
        (OPS, _) => "loop",
        _ => "join",
    }
}

/// The name of an enumerator.
pub fn enumerator_name(enumerator: Kind) -> &'static str
    ensures { result.now ≡ enumerator_name enumerator }
{
    match enumerator {
        Kind::DpCcp => "dpccp",
        Kind::DpSub => "dpsub",
        Kind::DpSize => "dpsize",
        Kind::DpSva => "dpsva",
    }
}

/// The name of a cost model.
pub fn model_name(model: ModelKind) -> &'static str
    ensures { result.now ≡ model_name model }
{
    match model {
        ModelKind::Ops => "ops",
        ModelKind::Cout => "cout",
    }
}
