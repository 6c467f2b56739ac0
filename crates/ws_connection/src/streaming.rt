//! A connection as a stream of a machine.

use crate::connection::Connection;
use crate::ending::EndsDirection;
use crate::waiting::WaitingRead;
use ws_base::NoMemory;
use ws_machines::{ReadOutcome, Stream, WriteOutcome};

impl<R: WaitingRead, W: EndsDirection> Stream for Connection<R, W> {
    ghost use Rattle.ws_connection.specs.StreamCalls.{DidCalls};

    type Fault = NoMemory;

    ghost did = { λ start now told. DidCalls start now told };

    #[tactic(auto, using(crate::proofs::StreamLemmas::extends_by_call))]
    fn read(&mut self, room: &mut [u8]) -> ReadOutcome {
        self.read_once(room)
    }

    #[tactic(auto, using(crate::proofs::StreamLemmas::extends_by_call))]
    fn write(&mut self, bytes: &[u8]) -> WriteOutcome {
        self.write_once(bytes)
    }

    fn end_direction(&mut self) {
        self.end_once();
    }

    fn begin_wait(&mut self) {
        self.wait_anew();
    }

    /// Lines are reported to nobody.
    fn report(&mut self, _lines: &[u8]) -> Result<(), NoMemory> {
        Ok(())
    }
}
