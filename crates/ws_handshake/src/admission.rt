//! What comes of the request of a client, and the response to one that is accepted (RFC 6455 section 4.2).

ghost use Rattle.std.specs.Prelude.{IfOk, map};
ghost use Rattle.ws_upgrade.specs.Protocols.{AreOffers};
ghost use Rattle.ws_handshake.specs.Admissions.{HoldsUpgrade, IsTakenFrom};

use std::alloc::Global;
use ws_base::NoMemory;
use ws_upgrade::{HeadFault, Offers, RequestRead, read_request_with, response_of};

/// A request that was accepted.
#[derive(Drop)]
pub struct AcceptedRequest {
    /// The path and the query that it asks for.
    pub path: Vec<u8>,
    /// What came behind its head, in one piece with the end of it.
    pub behind: Vec<u8>,
}

/// What came of the request of a connection.
#[derive(Drop)]
pub enum Admission {
    /// It was accepted, and the response was written: a script can be run.
    Accepted(AcceptedRequest),
    /// It is to be refused, and the refusal was written, or what the writer took of it.
    Refused(HeadFault),
    /// The stream ended inside the head, a read failed there, or the response could not be written.
    Lost,
}

/// The response to a head that is accepted, what it asks for, and what came behind it.
pub fn request_in(
    alloc: Global,
    known: &[&[u8]],
    head: &[u8],
) -> Result<(Vec<u8>, AcceptedRequest), NoMemory>
    requires known { AreOffers (map (λ name. name.now) known.now) }
    requires accepted { HoldsUpgrade (map (λ name. name.now) known.now) head.now }
    ensures { IfOk result (λ taken.
        IsTakenFrom (map (λ name. name.now) known.now) head.now taken.0.items taken.1) }
{
    match read_request_with(head, known) {
        RequestRead::Got { upgrade, used } => {
            let chosen = Offers::proved(known).chosen(upgrade.protocol);
            let response = response_of(alloc, &upgrade.accept, chosen)?;
            let path = upgrade.path.to_vec(alloc)?;
            let behind = head[used..].to_vec(alloc)?;
            Ok((response, AcceptedRequest { path, behind }))
        }
        // The same bytes were accepted before.
        RequestRead::Need | RequestRead::Refused(_) => unreachable!(),
    }
}
