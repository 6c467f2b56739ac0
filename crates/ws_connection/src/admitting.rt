//! The opening handshake of a server that goes on over the connection itself (RFC 6455 section 4.2): the request is
//! read and answered, and what it asks for is handed back.

ghost use Rattle.std.specs.Prelude.{IfOk, map};
ghost use Rattle.ws_upgrade.specs.Protocols.{AreOffers};
ghost use Rattle.ws_connection.specs.Admitting.{Admits};
ghost use Rattle.ws_connection.specs.Connections.{IsNewConnection};

use crate::connection::Connection;
use crate::ending::EndsDirection;
use crate::waiting::WaitingRead;
use std::alloc::Global;
use ws_base::NoMemory;
use ws_handshake::{Admission, AdmitMachine, HEAD_READ_SIZE};
use ws_machines::{Machine, run_machine};

/// Serves an `AdmitMachine` over a connection until it is done: the head of a request is read, at most 8192 bytes, and
/// the response written, or the refusal. The response names the first subprotocol that the request offers and that is
/// known. Neither the head nor what came with it counts for the budget of the connection.
pub fn admit<R: WaitingRead, W: EndsDirection>(
    alloc: Global,
    known: &[&[u8]],
    connection: &mut Connection<R, W>,
) -> Result<Admission, NoMemory>
    requires new { IsNewConnection connection.old }
    requires known { AreOffers (map (λ name. name.now) known.now) }
    ensures { IfOk result (λ admission. Admits (map (λ name. name.now) known.now) admission
        (record { old = connection.old; new = connection.new })) }
{
    let mut room = [0; HEAD_READ_SIZE];
    let mut machine = AdmitMachine::new(alloc, known);
    run_machine(&mut machine, connection, &mut room)?;
    let admission = machine.into_end()?;
    Ok(admission)
}
