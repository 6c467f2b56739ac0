//! An echo as a peer: a right server or client, by which a script and the judge can be tried (RFC 6455 sections 5.4 to
//! 5.6).

ghost use Rattle.std.specs.Prelude.{◌≡◌, ◌↔◌, [], true, false};
ghost use Rattle.ws_wire.specs.declared.role.Role.TheVariants.{Server};
ghost use Rattle.ws_session.specs.Exchange.{is_over};
ghost use Rattle.ws_peer.specs.declared.peer.Going.TheVariants.{Ended};
ghost use Rattle.ws_peer.specs.EchoTalks.{MayHaveHad};
ghost use Rattle.ws_peer.specs.EchoRuns.{echo_end};

use crate::peer::{Going, Peer};
use std::alloc::Global;
use std::marker::Model;
use ws_base::NoMemory;
use ws_echo::echo_laws;
use ws_session::{Echo, Limits};
use ws_wire::{NO_KEY, Role};

/// An endpoint that sends each message back, answers what is owed, and ends the connection once its session is over.
#[derive(Drop)]
pub struct EchoPeer {
    echo: Echo,
    key: [u8; 4],
    is_spent: bool,
}

impl Model for EchoPeer {
    ghost use Rattle.ws_peer.specs.EchoTalks.{EchoPeerValue, HasTakenSomething};

    ghost Value = { EchoPeerValue };

    ghost view = { λ p. record { session = p.echo; key = p.key; is_spent = p.is_spent } };

    ghost invariant = { λ p. HasTakenSomething p.echo };
}

impl EchoPeer {
    /// A server with which nothing was said yet.
    pub fn new(alloc: Global) -> EchoPeer
        ensures new { MayHaveHad result (echo_end Server result.key) [] }
        ensures spent { result.is_spent ≡ false }
    {
        EchoPeer::with_role(alloc, Role::Server, NO_KEY)
    }

    /// A peer of this role with which nothing was said yet. A client masks each frame that it sends with the key; to a
    /// server the key is nothing (RFC 6455 section 5.1).
    pub fn with_role(alloc: Global, role: Role, key: [u8; 4]) -> EchoPeer
        ensures new { MayHaveHad result (echo_end role key) [] }
        ensures spent { result.is_spent ≡ false }
    {
        echo_laws();
        EchoPeer {
            echo: Echo::new(alloc, Limits::largest(), role),
            key,
            is_spent: false,
        }
    }
}

impl Peer for EchoPeer {
    ghost use Rattle.ws_peer.specs.EchoTalks.{MayHaveHad};

    ghost agrees = { MayHaveHad };

    ghost is_spent = { λ peer. peer.is_spent };

    fn feed(&mut self, piece: &[u8], out: &mut Vec<u8>) -> Result<Going, NoMemory> {
        if self.is_spent {
            return Err(NoMemory);
        }
        echo_laws();
        match self.echo.pass(piece, self.key, out) {
            Ok(()) => {
                let going = going_after(&self.echo);
                Ok(going)
            }
            Err(_) => {
                self.is_spent = true;
                Err(NoMemory)
            }
        }
    }

    fn finish(&mut self, _out: &mut Vec<u8>) -> Result<(), NoMemory> {
        if self.is_spent {
            return Err(NoMemory);
        }
        echo_laws();
        Ok(())
    }
}

/// Whether an echo takes more.
fn going_after(echo: &Echo) -> Going
    ensures { (result ≡ Ended) ↔ (is_over echo.now.status ≡ true) }
{
    if echo.status().is_over() {
        Going::Ended
    } else {
        Going::More
    }
}
