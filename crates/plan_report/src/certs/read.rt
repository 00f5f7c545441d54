//! Reading a certificate file.
ghost use Rattle.std.specs.Prelude.{◌≡◌, IfErr, IfOk, option_map, option_and_then, true};
ghost use Rattle.serde_json.specs.Find.{as_str};
ghost use Rattle.serde_json.specs.View.{view};
ghost use Rattle.query_json.specs.Entries.{entries_of_value};
ghost use Rattle.query_json.specs.Walk.{json_of};
ghost use Rattle.plan_report.specs.declared.certs.fault.CertFault.TheVariants.{NotJson};
ghost use Rattle.plan_report.specs.Certs.{all_suit, certs_read, file_of, model_named, suits, suits_query};
ghost use Rattle.plan_report.specs.Certs.Faults.{Gives, GivesBy, HasOneName, of_workload, or_bad, or_fault};
ghost use Rattle.plan_report.specs.Certs.Members.{certificate_of, certificates_of};

use crate::certs::cert::{Cert, Certs};
use crate::certs::fault::CertFault;
use crate::certs::member::{array_of, members_of_values};
use cost_model::ModelKind;
use dpe_base::Query;
use query_json::{FileFault, Items, Part, Workload, read_value};
use serde_json::Value;
use std::alloc::Global;

/// The most relations of a query that may have a certificate.
pub const CERTIFIED_MAX: u8 = 12;

// The value of the file's bytes.
fn value_of(alloc: Global, bytes: &[u8]) -> Result<Value, CertFault>
    ensures { GivesBy view result (or_fault NotJson (json_of bytes.now)) }
{
    match Value::from_slice(alloc, bytes) {
        Ok(value) => Ok(value),
        Err(error) => {
            if error.is_memory() {
                return Err(CertFault::NoMemory);
            }
            Err(CertFault::NotJson)
        }
    }
}

// The cost model that a member names.
fn model_of(member: Option<&Value>) -> Result<ModelKind, CertFault>
    ensures { Gives result (or_bad (option_and_then model_named (option_and_then as_str (option_map (λ v. view v.now) member.entry)))) }
{
    match member.and_then(Value::as_str) {
        Some("ops") => Ok(ModelKind::Ops),
        Some("cout") => Ok(ModelKind::Cout),
        _ => Err(CertFault::BadCertificates),
    }
}

// The workload that a value is.
fn workload_of(alloc: Global, value: &Value) -> Result<Workload, CertFault>
    ensures { Gives result (of_workload (entries_of_value (view value.now))) }
{
    match read_value(alloc, value) {
        Ok(workload) => Ok(workload),
        Err(FileFault::NoMemory) => Err(CertFault::NoMemory),
        Err(fault) => Err(CertFault::Workload(fault)),
    }
}

// Whether the certificate may stand for the query.
fn suits_query(query: &Query, cert: &Cert) -> bool
    ensures { result ≡ suits_query query.now (certificate_of cert.now) }
{
    let n = query.n();
    n <= CERTIFIED_MAX && cert.bounds.len() == 1usize << n
}

// Whether the member may stand for the query.
fn suits(part: &Part, member: &Option<Cert>) -> bool
    ensures { result ≡ suits part.now (option_map certificate_of member.now) }
{
    match (part, member) {
        (_, None) => true,
        (Part::Accepted(named), Some(cert)) => suits_query(&named.query, cert),
        (Part::Refused(_), Some(_)) => false,
    }
}

// Whether there is a member for each query, which may stand for it.
fn all_suit(workload: &Workload, members: &[Option<Cert>]) -> bool
    ensures { result ≡ all_suit workload.now (certificates_of members.now) }
{
    if members.len() != workload.len() {
        return false;
    }
    'members: for (i, member) in members.iter().enumerate() {
        if !suits(&workload.entry(i).part, member) {
            return false;
        }
    }
    true
}

// The model, the workload and the members of a file.
#[tactic(auto, unfolding(crate::specs::Certs::certs_read))]
fn certs_of_bytes(alloc: Global, bytes: &[u8]) -> Result<Certs, CertFault>
    ensures file { GivesBy file_of result (certs_read bytes.now) }
    ensures suits { IfOk result (λ c. all_suit c.workload (certificates_of c.certs) ≡ true) }
{
    let root = value_of(alloc, bytes)?;
    let model = model_of(root.get("model"))?;
    let values = array_of(root.get("certificates"))?;
    let Some(workload) = root.get("workload") else {
        return Err(CertFault::BadCertificates);
    };
    let workload = workload_of(alloc, workload)?;
    let certs = members_of_values(alloc, values)?;
    if !all_suit(&workload, &certs) {
        return Err(CertFault::BadCertificates);
    }
    let certs = Items::from_vec(certs);
    Ok(Certs {
        model,
        workload,
        certs,
    })
}

/// Reads a certificate file: its model, its workload, and a member for each query, in the order of the queries.
///
/// Fails with the first fault of the file in the order of [`CertFault`], where a member that is no certificate of its query
/// comes after the workload's fault. Fails also where there is no memory.
pub fn read_certs(alloc: Global, bytes: &[u8]) -> Result<Certs, CertFault>
    ensures file { GivesBy file_of result (certs_read bytes.now) }
    ensures suits { IfOk result (λ c. all_suit c.workload (certificates_of c.certs) ≡ true) }
    ensures named { IfErr result HasOneName }
{
    certs_of_bytes(alloc, bytes)
}
