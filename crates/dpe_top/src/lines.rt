//! The lines that are written in place of a report.
ghost use Rattle.std.specs.Prelude.{◌≡◌, ◌++◌, IfOk, OnOk, string_bytes};
ghost use Rattle.dpe_top.specs.Lines.{bad_certificates_line, bad_changes_line, cert_fault_line, change_fault_line, fault_line, fault_text, too_long_line, unknown_table_line};

use plan_report::CertFault;
use query_forms::ChangeFault;
use query_json::{FileFault, QUERIES_MAX, TABLES_MAX, write_path};
use std::alloc::{AllocError, Global};

fn write_fault(out: &mut String, fault: &FileFault) -> Result<(), AllocError>
    ensures { OnOk result (string_bytes out.new ≡ string_bytes out.old ++ fault_text fault.now) }
{
    match fault {
        FileFault::NotJson => write!(out, "not JSON"),
        FileFault::Shape(place) => {
            write!(out, "bad shape at ")?;
            write_path(out, *place)
        }
        FileFault::TooManyTables => write!(out, "more than {TABLES_MAX} tables"),
        FileFault::TooManyQueries => write!(out, "more than {QUERIES_MAX} queries"),
        FileFault::DuplicateTable(name) => {
            let name = name.text();
            write!(out, "table {name} twice")
        }
        FileFault::NoMemory => Ok(()),
    }
}

/// Why the file is no workload.
#[tactic(auto, unfolding(crate::specs::Lines::fault_line))]
pub fn fault_line(alloc: Global, fault: &FileFault) -> Result<String, AllocError>
    ensures { IfOk result (λ s. string_bytes s ≡ fault_line fault.now) }
{
    let mut line = String::from_str(alloc, "input: ")?;
    write_fault(&mut line, fault)?;
    writeln!(line)?;
    Ok(line)
}

// The line for a root or a member that is none of a certificate file.
#[tactic(auto, unfolding(crate::specs::Lines::bad_certificates_line))]
fn bad_certificates_line() -> &'static str
    ensures { result.now ≡ bad_certificates_line }
{
    "input: bad certificates\n"
}

/// Why the file is no certificate file.
pub fn cert_fault_line(alloc: Global, fault: &CertFault) -> Result<String, AllocError>
    ensures { IfOk result (λ s. string_bytes s ≡ cert_fault_line fault.now) }
{
    match fault {
        CertFault::NotJson => fault_line(alloc, &FileFault::NotJson),
        CertFault::BadCertificates => String::from_str(alloc, bad_certificates_line()),
        CertFault::Workload(fault) => fault_line(alloc, fault),
        CertFault::NoMemory => fault_line(alloc, &FileFault::NoMemory),
    }
}

// The line for a root or a change that is none of a file of changes.
#[tactic(auto, unfolding(crate::specs::Lines::bad_changes_line))]
fn bad_changes_line() -> &'static str
    ensures { result.now ≡ bad_changes_line }
{
    "input: bad changes\n"
}

// The line for a change of a table that isn't there.
#[tactic(auto, unfolding(crate::specs::Lines::unknown_table_line))]
fn unknown_table_line(alloc: Global, j: u32) -> Result<String, AllocError>
    ensures { IfOk result (λ s. string_bytes s ≡ unknown_table_line j) }
{
    let mut line = String::new(alloc);
    write!(line, "input: change {j} names no table\n")?;
    Ok(line)
}

/// Why the file is no file of changes.
pub fn change_fault_line(alloc: Global, fault: &ChangeFault) -> Result<String, AllocError>
    ensures { IfOk result (λ s. string_bytes s ≡ change_fault_line fault.now) }
{
    match fault {
        ChangeFault::NotJson => fault_line(alloc, &FileFault::NotJson),
        ChangeFault::BadChanges => String::from_str(alloc, bad_changes_line()),
        ChangeFault::Workload(fault) => fault_line(alloc, fault),
        ChangeFault::UnknownTable(j) => unknown_table_line(alloc, *j),
        ChangeFault::NoMemory => fault_line(alloc, &FileFault::NoMemory),
    }
}

/// The line for more bytes than a workload may have.
#[tactic(auto, unfolding(crate::specs::Lines::too_long_line))]
pub fn too_long_line() -> &'static str
    ensures { result.now ≡ too_long_line }
{
    "input: more than 8388608 bytes\n"
}
