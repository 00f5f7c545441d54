//! What watches a run.

/// It is told of each draw, before the pair is processed, and of each buffer, before it is filled. It answers nothing, and
/// it returns.
pub trait Gate: Sync {
    /// The worker has just drawn this ticket. The pair of the ticket, if it has one, is processed after it.
    fn before(&self, worker: u32, ticket: u64);

    /// Buffer `buffer` is filled next. The first is 0.
    fn filling(&self, buffer: u64);
}

/// It does nothing.
pub struct OpenGate;

impl Gate for OpenGate {
    fn before(&self, _worker: u32, _ticket: u64) {}

    fn filling(&self, _buffer: u64) {}
}
