//! Writing a certificate file.
ghost use Rattle.std.specs.Prelude.{◌≡◌, IfOk, false};
ghost use Rattle.serde_json.specs.View.{view};
ghost use Rattle.serde_json.specs.Written.{compact_text, has_float};
ghost use Rattle.plan_report.specs.Certs.{ReadsBack, file_written};
ghost use Rattle.plan_report.specs.Certs.Members.{certificates_of};

use crate::certs::cert::Cert;
use crate::certs::member::members_to_value;
use crate::names::model_name;
use cost_model::ModelKind;
use serde_json::{Value, json};
use std::alloc::{AllocError, Global};

// The file as a value.
fn file_to_value(
    alloc: Global,
    model: ModelKind,
    workload: Value,
    certs: &[Option<Cert>],
) -> Result<Value, AllocError>
    ensures { IfOk result (λ v. view v ≡ file_written model (view workload) (certificates_of certs.now)) }
{
    let members = members_to_value(alloc, certs)?;
    let model = model_name(model);
    json!(in alloc; {"certificates": members, "model": model, "workload": workload})
}

/// The text of a certificate file with this workload, in which no number has a point or an exponent, and with a member for
/// each query: its certificate, or null. It is compact, and no newline stands at its end.
///
/// [`read_certs`](crate::read_certs) reads it as it was written where the workload has no fault, each member may stand for its query,
/// and neither the numbers nor the levels of the file are more than is read.
///
/// Fails where there is no memory.
pub fn write_certs(
    alloc: Global,
    model: ModelKind,
    workload: Value,
    certs: &[Option<Cert>],
) -> Result<Vec<u8>, AllocError>
    requires { has_float (view workload) ≡ false }
    ensures text { IfOk result (λ v. v.items ≡ compact_text (file_written model (view workload) (certificates_of certs.now))) }
    ensures read { IfOk result (λ v. ReadsBack model (view workload) (certificates_of certs.now) v.items) }
{
    let file = file_to_value(alloc, model, workload, certs)?;
    Ok(file.to_vec(alloc)?)
}
