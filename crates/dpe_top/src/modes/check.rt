//! Mode check: a verdict on each certificate of the file that is read.
ghost use Rattle.std.specs.Prelude.{◌≡◌, ◌++◌, ◌||◌, List, IfOk, OnOk, Option, option_map, string_bytes, true};
ghost use Rattle.plan_report.specs.Certs.{CertFile, all_suit, file_of, suits};
ghost use Rattle.plan_report.specs.Certs.Members.{certificate_of, certificates_of};
ghost use Rattle.dpe_top.specs.declared.modes.check.Verdict.{Verdict};
ghost use Rattle.dpe_top.specs.Modes.Check.{AreVerdicts, IsVerdict, IsVerdictOf, checked, is_wrong, some_wrong, verdict_lines, verdict_outcome, verdict_text, verdicts_of_bytes, verdicts_text};
ghost use Rattle.dpe_top.specs.Modes.Report.{model_number};
ghost use Rattle.dpe_top.specs.Replies.{Replies};

use crate::lines::cert_fault_line;
use crate::reply::Reply;
use crate::status::Outcome;
use cert_check::check_cert;
use cost_model::{CostModel, Cout, ModelKind, Ops};
use dpe_base::{Name, Query};
use plan_report::{Cert, CertFault, Certs, read_certs};
use query_json::Part;
use std::alloc::{AllocError, Global};

/// What is said of a member of a certificate file.
#[derive(Clone, Copy)]
pub enum Verdict {
    /// It is a certificate of its query: no plan costs less than this.
    Optimal(u128),
    /// It is no certificate of its query.
    Wrong,
    /// It is null.
    NoCertificate,
}

/// The lines of the verdicts so far, and whether one of them is wrong.
#[derive(Drop)]
pub struct Verdicts {
    pub text: String,
    pub wrong: bool,
}

// The verdict on the certificate of a query.
fn verdict_of<M: CostModel>(model: &M, query: &Query, cert: &Cert) -> Verdict
    ensures { IsVerdictOf M.KIND query.now (certificate_of cert.now) result }
{
    if check_cert(query, model, &cert.tree, cert.bounds.as_slice()) {
        Verdict::Optimal(cert.tree.cost(model, query))
    } else {
        Verdict::Wrong
    }
}

// The verdict on a member.
fn verdict_on<M: CostModel>(model: &M, part: &Part, member: &Option<Cert>) -> Verdict
    requires { suits part.now (option_map certificate_of member.now) ≡ true }
    ensures { IsVerdict M.KIND part.now (option_map certificate_of member.now) result }
{
    match (part, member) {
        (_, None) => Verdict::NoCertificate,
        (Part::Accepted(named), Some(cert)) => verdict_of(model, &named.query, cert),
        // a refused query has no certificate
        (Part::Refused(_), Some(_)) => unreachable!(),
    }
}

fn write_verdict(out: &mut String, verdict: Verdict) -> Result<(), AllocError>
    ensures { OnOk result (string_bytes out.new ≡ string_bytes out.old ++ verdict_text verdict) }
{
    match verdict {
        Verdict::Optimal(total) => write!(out, "optimal cost {total}"),
        Verdict::Wrong => write!(out, "wrong"),
        Verdict::NoCertificate => write!(out, "none"),
    }
}

// Appends the two lines of a query.
fn write_lines(out: &mut String, name: &Name, verdict: Verdict) -> Result<(), AllocError>
    ensures { OnOk result (string_bytes out.new ≡ string_bytes out.old ++ verdict_lines name.now verdict) }
{
    let name = name.text();
    write!(out, "query {name}\nverdict ")?;
    write_verdict(out, verdict)?;
    writeln!(out)
}

fn is_wrong(verdict: Verdict) -> bool
    ensures { result ≡ is_wrong verdict }
{
    match verdict {
        Verdict::Wrong => true,
        Verdict::Optimal(_) | Verdict::NoCertificate => false,
    }
}

impl Verdicts {
    // Appends the two lines of a query.
    fn push(&mut self, name: &Name, verdict: Verdict) -> Result<(), AllocError>
        ensures wrong { OnOk result (self.new.wrong ≡ (self.old.wrong || is_wrong verdict)) }
        ensures text { OnOk result (string_bytes self.new.text ≡ string_bytes self.old.text ++ verdict_lines name.now verdict) }
    {
        self.wrong |= is_wrong(verdict);
        write_lines(&mut self.text, name, verdict)
    }
}

// The verdicts by this model, which is that of the file.
fn verdicts_under<M: CostModel>(
    alloc: Global,
    certs: &Certs,
    model: M,
) -> Result<Verdicts, AllocError>
    requires { all_suit certs.now.workload (certificates_of certs.now.certs) ≡ true }
    ensures { IfOk result (λ v. (verdicts : List Verdict)
        × AreVerdicts M.KIND certs.now.workload (certificates_of certs.now.certs) verdicts
        × (v.wrong ≡ some_wrong verdicts)
        × (string_bytes v.text ≡ verdicts_text certs.now.workload verdicts)) }
{
    let members = certs.certs.as_slice();
    let mut verdicts = Verdicts {
        text: String::new(alloc),
        wrong: false,
    };
    'members: for (i, member) in members.iter().enumerate() {
        let entry = certs.workload.entry(i);
        let verdict = verdict_on(&model, &entry.part, member);
        verdicts.push(&entry.name, verdict)?;
    }
    Ok(verdicts)
}

// The verdicts on what the file holds.
fn reply_to_certs(alloc: Global, certs: &Certs) -> Result<Reply, AllocError>
    requires { all_suit certs.now.workload (certificates_of certs.now.certs) ≡ true }
    ensures { IfOk result (Replies (checked (file_of certs.now))) }
{
    let verdicts = match certs.model {
        ModelKind::Ops => verdicts_under(alloc, certs, Ops)?,
        ModelKind::Cout => verdicts_under(alloc, certs, Cout)?,
    };
    Ok(Reply {
        outcome: if verdicts.wrong {
            Outcome::SomeRefused
        } else {
            Outcome::Done
        },
        text: verdicts.text.into_bytes(),
    })
}

/// The verdicts on the certificate file that the bytes are, or the line of their fault.
pub fn reply(alloc: Global, bytes: &[u8]) -> Result<Reply, AllocError>
    ensures { IfOk result (Replies (verdicts_of_bytes.answer bytes.now)) }
{
    match read_certs(alloc, bytes) {
        Ok(certs) => reply_to_certs(alloc, &certs),
        Err(CertFault::NoMemory) => Err(AllocError),
        Err(fault) => Ok(Reply {
            outcome: Outcome::Input,
            text: cert_fault_line(alloc, &fault)?.into_bytes(),
        }),
    }
}
