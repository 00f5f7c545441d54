//! The settings of the program, and the choices that they are made of.
ghost use Rattle.std.specs.Prelude.{◌≡◌};
ghost use Rattle.dpe_words.specs.declared.choices.WordFault.TheVariants.{NoMemory};

use cost_model::ModelKind;
use dpe_base::Kind;
use plan_report::Format;
use std::alloc::{AllocError, AllocFailed, Global};

/// What the program is asked to do.
#[derive(Clone, Copy, Debug, PartialEq, Eq)]
pub enum Mode {
    /// A report of the workload that is read.
    Plan,
    /// The sums of a workload made from a number.
    Sample,
    /// Rewrites a workload.
    Migrate,
    /// Plans with certificates of optimality.
    Certify,
    /// Checks certificates.
    Check,
    /// A report with plans among the trees in which a side of each join has at most two relations.
    Narrow,
    /// A report with plans among the trees in which a side of each join is a relation.
    Zigzag,
    /// A report with plans among the trees in which the right side of each join is a relation.
    Leftdeep,
    /// The plans of a workload, and after each change of the rows of a table the plans with the rows so far.
    Reopt,
}

/// What a command line asks for.
#[derive(Clone, Copy, Debug, PartialEq, Eq)]
pub struct Settings {
    /// What the program is asked to do.
    pub mode: Mode,
    /// How the pairs of a query are enumerated.
    pub enumerator: Kind,
    /// How many pairs a buffer holds: 1 to [`BUFFER_MAX`](dpe_base::BUFFER_MAX).
    pub buffer: u32,
    /// How many workers share the memo: 1 to [`WORKERS_MAX`](dpe_base::WORKERS_MAX).
    pub workers: u32,
    /// The cost model by which plans are compared.
    pub model: ModelKind,
    /// The form of the report.
    pub format: Format,
    /// Whether the report has a line of statistics for each query.
    pub stats: bool,
    /// The number that a sample workload is drawn from.
    pub number: u64,
}

/// Why a list of arguments gives no settings.
#[derive(Clone, Copy, Debug, PartialEq, Eq)]
pub enum WordFault {
    /// The arguments are invalid.
    Usage = 1,
    /// Memory ran out.
    NoMemory = 2,
}

impl From<AllocError> for WordFault {
    ghost from_gives = { λ _ e. e ≡ NoMemory };

    fn from(_: AllocError) -> Self {
        WordFault::NoMemory
    }
}

impl<T: Drop> From<AllocFailed<T>> for WordFault {
    ghost from_gives = { λ _ e. e ≡ NoMemory };

    fn from(_: AllocFailed<T>) -> Self {
        WordFault::NoMemory
    }
}
