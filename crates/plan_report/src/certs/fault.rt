//! Why a certificate file is refused.
ghost use Rattle.std.specs.Prelude.{◌≡◌};
ghost use Rattle.plan_report.specs.declared.certs.fault.CertFault.TheVariants.{NoMemory};

use query_json::FileFault;
use std::alloc::{AllocError, AllocFailed};

/// Why a certificate file is refused: the first of these that holds.
#[derive(Debug, Drop)]
pub enum CertFault {
    /// The bytes aren't UTF-8, or `serde_json` has no reading of them.
    NotJson,
    /// The root has no model, no workload or no list of certificates; or, where the workload has no fault, the
    /// list hasn't a member for each query, or some member is no certificate that may stand for its query.
    BadCertificates,
    /// The fault of the workload, which is neither `NotJson` nor `NoMemory`.
    Workload(FileFault),
    /// Memory ran out, which says nothing of the file.
    NoMemory,
}

impl From<AllocError> for CertFault {
    ghost from_gives = { λ _ e. e ≡ NoMemory };

    fn from(_: AllocError) -> Self {
        CertFault::NoMemory
    }
}

impl<T: Drop> From<AllocFailed<T>> for CertFault {
    ghost from_gives = { λ _ e. e ≡ NoMemory };

    fn from(_: AllocFailed<T>) -> Self {
        CertFault::NoMemory
    }
}
