//! A member of a certificate file as JSON.
ghost use Rattle.std.specs.Prelude.{◌≡◌, List, IfOk, map, option_map, option_and_then};
ghost use Rattle.serde_json.specs.Find.{as_array};
ghost use Rattle.serde_json.specs.Data.{array};
ghost use Rattle.serde_json.specs.View.{view, items_view, items_of};
ghost use Rattle.plan_report.specs.Certs.Faults.{Gives, GivesBy, or_bad};
ghost use Rattle.plan_report.specs.Certs.Members.{bound_read, bounds_written, certificate_of, certificate_read, certificates_of, each_item, member_read, member_written};

use crate::certs::cert::Cert;
use crate::certs::fault::CertFault;
use crate::certs::plan::{plan_of_value, plan_to_value};
use query_json::Items;
use serde_json::{Value, json};
use std::alloc::{AllocError, Global};

fn bounds_to_value(alloc: Global, bounds: &[u64]) -> Result<Value, AllocError>
    ensures { IfOk result (λ v. view v ≡ bounds_written bounds.now) }
{
    let mut values = Vec::with_capacity(alloc, bounds.len())?;
    'bounds: for bound in bounds {
        values.push(Value::from(*bound))?;
    }
    Ok(Value::Array(values))
}

fn member_to_value(alloc: Global, cert: &Option<Cert>) -> Result<Value, AllocError>
    ensures { IfOk result (λ v. view v ≡ member_written (option_map certificate_of cert.now)) }
{
    let Some(cert) = cert else {
        return Ok(Value::Null);
    };
    let bounds = bounds_to_value(alloc, cert.bounds.as_slice())?;
    let plan = plan_to_value(alloc, &cert.tree)?;
    json!(in alloc; {"bounds": bounds, "plan": plan})
}

/// The members as a value.
pub fn members_to_value(alloc: Global, certs: &[Option<Cert>]) -> Result<Value, AllocError>
    ensures { IfOk result (λ v. view v ≡ array (items_of (map member_written (certificates_of certs.now)))) }
{
    let mut values = Vec::with_capacity(alloc, certs.len())?;
    'certs: for cert in certs {
        let value = member_to_value(alloc, cert)?;
        values.push(value)?;
    }
    Ok(Value::Array(values))
}

// The bounds that the items of an array are.
fn bounds_of_values(alloc: Global, values: &[Value]) -> Result<Vec<u64>, CertFault>
    ensures { GivesBy (λ v. v.items) result (each_item bound_read (items_view values.now)) }
{
    let mut bounds = Vec::with_capacity(alloc, values.len())?;
    'values: for value in values {
        let Some(bound) = value.as_u64() else {
            return Err(CertFault::BadCertificates);
        };
        bounds.push(bound)?;
    }
    Ok(bounds)
}

/// The items of an array that must be there.
pub fn array_of(member: Option<&Value>) -> Result<&[Value], CertFault>
    ensures { GivesBy (λ vs. items_view vs.now) result (or_bad (option_and_then as_array (option_map (λ v. view v.now) member.entry))) }
{
    match member {
        Some(Value::Array(values)) => Ok(values.as_slice()),
        _ => Err(CertFault::BadCertificates),
    }
}

// The certificate that a value is.
#[tactic(auto, unfolding(crate::specs::Certs::Members::certificate_read))]
fn certificate_of_value(alloc: Global, value: &Value) -> Result<Cert, CertFault>
    ensures { GivesBy certificate_of result (certificate_read (view value.now)) }
{
    let values = array_of(value.get("bounds"))?;
    let bounds = Items::from_vec(bounds_of_values(alloc, values)?);
    let Some(plan) = value.get("plan") else {
        return Err(CertFault::BadCertificates);
    };
    let tree = plan_of_value(alloc, plan)?;
    Ok(Cert { tree, bounds })
}

fn member_of_value(alloc: Global, value: &Value) -> Result<Option<Cert>, CertFault>
    ensures { GivesBy (option_map certificate_of) result (member_read (view value.now)) }
{
    match value {
        Value::Null => Ok(None),
        _ => Ok(Some(certificate_of_value(alloc, value)?)),
    }
}

/// The members that the items of an array are.
pub fn members_of_values(alloc: Global, values: &[Value]) -> Result<Vec<Option<Cert>>, CertFault>
    ensures { GivesBy (λ v. certificates_of v.items) result (each_item member_read (items_view values.now)) }
{
    let mut members = Vec::with_capacity(alloc, values.len())?;
    'values: for value in values {
        let member = member_of_value(alloc, value)?;
        members.push(member)?;
    }
    Ok(members)
}
