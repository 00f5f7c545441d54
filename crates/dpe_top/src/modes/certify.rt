//! Mode certify: a certificate for each query of the workload that is read.
ghost use Rattle.std.specs.Prelude.{◌≡◌, ◌++◌, IfOk, Ok, false, option_map};
ghost use Rattle.serde_json.specs.View.{view};
ghost use Rattle.serde_json.specs.Written.{compact_text, has_float};
ghost use Rattle.query_json.specs.Answer.{GivesBy};
ghost use Rattle.query_json.specs.Entries.{entries_of_value};
ghost use Rattle.query_json.specs.Sound.{IsPartSound};
ghost use Rattle.query_json.specs.Walk.{json_at};
ghost use Rattle.query_forms.specs.Forms.{rewritten_file};
ghost use Rattle.planner.specs.Plans.{IsConnected};
ghost use Rattle.plan_report.specs.Certs.{file_written};
ghost use Rattle.plan_report.specs.Certs.Members.{certificate_of, certificates_of};
ghost use Rattle.plan_report.specs.Texts.{newline};
ghost use Rattle.dpe_top.specs.Modes.Certify.{AreMembers, Certifies, IsMember, certificates_of_bytes, certified, certify_outcome, file_of, is_null, some_null, workload_file};
ghost use Rattle.dpe_top.specs.Modes.Report.{model_number};
ghost use Rattle.dpe_top.specs.Replies.{Replies};

use crate::lines::fault_line;
use crate::planning::Planning;
use crate::reply::Reply;
use crate::status::Outcome;
use cost_model::{CostModel, Cout, ModelKind, Ops};
use dpe_base::Query;
use plan_report::{CERTIFIED_MAX, Cert, write_certs};
use planner::Gate;
use query_forms::rewritten;
use query_json::{FileFault, Items, Part, Workload, read_value};
use serde_json::Value;
use std::alloc::{AllocError, Global};
use std::thread::Threads;

/// A workload file: its value and what it holds.
#[derive(Drop)]
pub struct ReadFile {
    pub value: Value,
    pub workload: Workload,
}

impl<'a, G: Gate, R: Threads + Sync> Planning<'a, G, R> {
    // The certificate of a query: its plan, and the least costs as bounds.
    fn certificate<M: CostModel>(&self, query: &Query, model: M) -> Result<Cert, AllocError>
        requires connected { IsConnected query.now }
        ensures { IfOk result (λ c. Certifies M.KIND query.now (certificate_of c)) }
    {
        query.recall();
        let found = self.plan_with_costs(query, model)?;
        let bounds = Items::from_vec(found.costs);
        Ok(Cert {
            tree: found.tree,
            bounds,
        })
    }

    // The member of a query.
    fn member<M: CostModel>(&self, part: &Part, model: M) -> Result<Option<Cert>, AllocError>
        requires sound { IsPartSound part.now }
        ensures { IfOk result (λ m. IsMember M.KIND part.now (option_map certificate_of m)) }
    {
        let Part::Accepted(named) = part else {
            return Ok(None);
        };
        if named.query.n() > CERTIFIED_MAX {
            return Ok(None);
        }
        Ok(Some(self.certificate(&named.query, model)?))
    }

    // The members of all queries under this model.
    fn members_under<M: CostModel>(
        &self,
        workload: &Workload,
        model: M,
    ) -> Result<Vec<Option<Cert>>, AllocError>
        ensures { IfOk result (λ v. AreMembers M.KIND workload.now (certificates_of v.items)) }
    {
        let mut members = Vec::new(self.alloc());
        'entries: for i in 0..workload.len() {
            let member = self.member(&workload.entry(i).part, model)?;
            members.push(member)?;
        }
        Ok(members)
    }

    // The members of all queries under the settings' model.
    fn members(&self, workload: &Workload) -> Result<Vec<Option<Cert>>, AllocError>
        ensures { IfOk result (λ v. AreMembers (model_number self.now.model) workload.now (certificates_of v.items)) }
    {
        match self.settings().model {
            ModelKind::Ops => self.members_under(workload, Ops),
            ModelKind::Cout => self.members_under(workload, Cout),
        }
    }
}

fn is_null(member: &Option<Cert>) -> bool
    ensures { result ≡ is_null (option_map certificate_of member.now) }
{
    match member {
        Some(_) => false,
        None => true,
    }
}

// Whether some member is null.
fn some_null(members: &[Option<Cert>]) -> bool
    ensures { result ≡ some_null (certificates_of members.now) }
{
    for member in members {
        if is_null(member) {
            return true;
        }
    }
    false
}

// The value of the bytes.
#[tactic(auto, using(query_json::proofs::JsonLaws::json_text, query_json::proofs::JsonLaws::json_none))]
fn value_of(alloc: Global, bytes: &[u8]) -> Result<Value, FileFault>
    ensures { GivesBy view result (json_at bytes.now) }
{
    match Value::from_slice(alloc, bytes) {
        Ok(value) => Ok(value),
        Err(error) => {
            if error.is_memory() {
                return Err(FileFault::NoMemory);
            }
            Err(FileFault::NotJson)
        }
    }
}

// The workload file that the bytes are.
#[tactic(auto, unfolding(crate::specs::Modes::Certify::workload_file))]
fn workload_file(alloc: Global, bytes: &[u8]) -> Result<ReadFile, FileFault>
    ensures file { GivesBy file_of result (workload_file bytes.now) }
    ensures entries { IfOk result (λ f. entries_of_value (view f.value) ≡ Ok f.workload) }
{
    let value = value_of(alloc, bytes)?;
    let workload = read_value(alloc, &value)?;
    Ok(ReadFile { value, workload })
}

// The workload as a certificate file has it.
fn rewritten_workload(alloc: Global, file: &ReadFile) -> Result<Value, AllocError>
    requires { entries_of_value (view file.now.value) ≡ Ok file.now.workload }
    ensures value { IfOk result (λ v. view v ≡ rewritten_file (view file.now.value)) }
    ensures plain { IfOk result (λ v. has_float (view v) ≡ false) }
{
    match rewritten(alloc, &file.value) {
        Ok(workload) => Ok(workload),
        // the workload has no fault, so only memory runs out
        Err(_) => Err(AllocError),
    }
}

// The certificate file, and a newline.
fn text_of(
    alloc: Global,
    model: ModelKind,
    workload: Value,
    certs: &[Option<Cert>],
) -> Result<Vec<u8>, AllocError>
    requires { has_float (view workload) ≡ false }
    ensures { IfOk result (λ v. v.items ≡ compact_text (file_written model (view workload) (certificates_of certs.now)) ++ newline) }
{
    let mut text = write_certs(alloc, model, workload, certs)?;
    text.push(b'\n')?;
    Ok(text)
}

// The outcome of a file with these members.
fn outcome_of(certs: &[Option<Cert>]) -> Outcome
    ensures { result ≡ certify_outcome (some_null (certificates_of certs.now)) }
{
    if some_null(certs) {
        Outcome::SomeRefused
    } else {
        Outcome::Done
    }
}

// The certificate file of a workload.
fn certificates<G: Gate, R: Threads + Sync>(
    planning: &Planning<G, R>,
    file: &ReadFile,
) -> Result<Reply, AllocError>
    requires { entries_of_value (view file.now.value) ≡ Ok file.now.workload }
    ensures { IfOk result (Replies (certified planning.now (file_of file.now))) }
{
    let alloc = planning.alloc();
    let model = planning.settings().model;
    let members = planning.members(&file.workload)?;
    let certs = members.as_slice();
    let workload = rewritten_workload(alloc, file)?;
    let text = text_of(alloc, model, workload, certs)?;
    let outcome = outcome_of(certs);
    Ok(Reply { outcome, text })
}

/// The certificate file of the workload that the bytes are, or the line of their fault.
pub fn reply<G: Gate, R: Threads + Sync>(
    planning: &Planning<G, R>,
    bytes: &[u8],
) -> Result<Reply, AllocError>
    ensures { IfOk result (Replies ((certificates_of_bytes planning.now).answer bytes.now)) }
{
    let alloc = planning.alloc();
    match workload_file(alloc, bytes) {
        Ok(file) => certificates(planning, &file),
        Err(FileFault::NoMemory) => Err(AllocError),
        Err(fault) => Ok(Reply {
            outcome: Outcome::Input,
            text: fault_line(alloc, &fault)?.into_bytes(),
        }),
    }
}
