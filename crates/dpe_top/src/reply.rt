use crate::status::Outcome;

/// A whole answer, before any of it is written.
#[derive(Drop)]
pub struct Reply {
    /// How the run ends, once the answer is written.
    pub outcome: Outcome,
    /// The bytes to be written: a report, a summary or one line.
    pub text: Vec<u8>,
}
