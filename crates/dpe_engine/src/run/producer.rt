//! What fills buffers.
ghost use Rattle.std.specs.Prelude.{◌≡◌};
ghost use Rattle.dpe_engine.specs.Running.Buffers.{IsFilled};

use crate::gate::Gate;
use pair_stream::PairStream;
use reorder_buffer::Buffer;

/// The stream, and the buffer that takes its next run. It is moved to the thread that fills the buffer, and back.
#[derive(Drop)]
pub(crate) struct Producer<P> {
    pub(crate) stream: P,
    pub(crate) next: Buffer,
}

impl<P: PairStream> Producer<P> {
    /// Tells the gate, and fills the buffer with the next run. The buffer is number `number` of the run, from 0.
    pub(crate) fn fill<G: Gate>(self, gate: &G, number: u64) -> Producer<P>
        ensures filled { IsFilled P.left P.ended self result }
        ensures total { P.total result.stream ≡ P.total self.stream }
    {
        let Producer {
            mut stream,
            mut next,
        } = self;
        gate.filling(number);
        next.fill(&mut stream);
        let _recall = next.len();
        Producer { stream, next }
    }
}
