//! An application as a peer that needn't echo: it sends what it likes, closes when it likes, and may lag behind what it
//! was fed (RFC 6455 sections 5.4 to 5.6). By it the verdict by the protocol can be tried.

ghost use Rattle.std.specs.Prelude.{◌≡◌, [], ◌∷◌, false, if◌then◌else◌, IsErr, OnOk, OnErr};
ghost use Rattle.std.specs.Io.{StartsWith};
ghost use Rattle.ws_session.specs.Exchange.{is_over};
ghost use Rattle.ws_peer.specs.declared.peer.Going.TheVariants.{Ended, More};
ghost use Rattle.ws_peer.specs.Apps.{MayHaveSaid, SendsOwn, app_end, planned_in};
ghost use Rattle.ws_peer.specs.EchoTalks.{HasTakenSomething};
ghost use Rattle.ws_peer.specs.InnerAppLaws.{IsDoneOrRefused};
ghost use Rattle.ws_peer.specs.Talks.{Fed, Says};

use crate::lemmas::{app_laws, send_laws};
use crate::peer::{Going, Peer};
use std::alloc::Global;
use std::marker::Model;
use ws_base::NoMemory;
use ws_sends::KeyedSend;
use ws_session::{Limits, SendFault, Session};
use ws_wire::Role;

/// What an application does at one `feed`.
#[derive(Drop)]
pub struct AppStep {
    /// It takes at most so many of the bytes that it was fed and hasn't taken.
    pub takes: usize,
    /// Then it sends these. Each that is refused is passed over.
    pub sends: Vec<KeyedSend>,
}

/// An endpoint with a plan: what it does at each `feed`. Behind the plan it takes all that it was fed and sends nothing
/// of its own. Pings and a close are answered as they are taken.
#[derive(Drop)]
pub struct AppPeer {
    session: Session,
    /// The key of the answers of a client.
    key: [u8; 4],
    plan: Vec<AppStep>,
    /// How many steps of the plan it has done.
    done: usize,
    /// All that it was fed.
    fed: Vec<u8>,
    /// How many bytes of that it has taken.
    taken: usize,
    is_spent: bool,
}

impl Model for AppPeer {
    ghost use Rattle.std.specs.Prelude.{◌≤◌, length};
    ghost use Rattle.ws_peer.specs.Apps.{AppPeerValue, planned_in};
    ghost use Rattle.ws_peer.specs.EchoTalks.{HasTakenSomething};

    ghost Value = { AppPeerValue };

    ghost view = { λ p. record {
      session = p.session;
      key = p.key;
      plan = planned_in p.plan.items;
      done = p.done;
      fed = p.fed.items;
      taken = p.taken;
      is_spent = p.is_spent;
    } };

    ghost invariant = { λ p. (p.taken ≤ length p.fed.items) × HasTakenSomething p.session };
}

impl AppPeer {
    /// A peer of this role with which nothing was said yet. A client masks its answers with the key; to a server the
    /// key is nothing (RFC 6455 section 5.1).
    pub fn new(alloc: Global, role: Role, key: [u8; 4], plan: Vec<AppStep>) -> AppPeer
        ensures new { MayHaveSaid result (app_end role key (planned_in plan.items)) [] }
        ensures spent { result.is_spent ≡ false }
    {
        AppPeer {
            session: Session::new(alloc, role, Limits::largest()),
            key,
            plan,
            done: 0,
            fed: Vec::new(alloc),
            taken: 0,
            is_spent: false,
        }
    }

    /// What it does at a `feed` of this piece.
    fn step(&mut self, piece: &[u8], out: &mut Vec<u8>) -> Result<(), NoMemory>
        ensures said { OnOk result (Says MayHaveSaid self.old self.new (λ appended. Fed piece.now appended
            (if is_over self.new.session.status then Ended else More)) out.old.items out.new.items) }
        ensures grown { StartsWith out.new.items out.old.items }
        ensures spent { self.new.is_spent ≡ self.old.is_spent }
    {
        app_laws();
        self.fed.extend_from_slice(piece)?;
        let (_, waiting) = self.fed.as_slice().split_at(self.taken);
        let Some(step) = self.plan.as_slice().get(self.done) else {
            self.session.pass(waiting, self.key, out)?;
            self.taken = self.fed.len();
            return Ok(());
        };
        let count = step.takes.min(waiting.len());
        let (now, _) = waiting.split_at(count);
        self.session.pass(now, self.key, out)?;
        send_each(&mut self.session, step.sends.as_slice(), out)?;
        self.taken += count;
        self.done += 1;
        Ok(())
    }
}

/// Sends each frame that isn't refused.
fn send_each(session: &mut Session, sends: &[KeyedSend], out: &mut Vec<u8>) -> Result<(), NoMemory>
    ensures sent { OnOk result (SendsOwn sends.now session.old session.new out.old.items out.new.items) }
    ensures grown { StartsWith out.new.items out.old.items }
    ensures some { HasTakenSomething session.old → HasTakenSomething session.new }
{
    for send in sends {
        send_unless_refused(session, send, out)?;
    }
    Ok(())
}

/// Sends a frame, if it isn't refused.
fn send_unless_refused(
    session: &mut Session,
    send: &KeyedSend,
    out: &mut Vec<u8>,
) -> Result<(), NoMemory>
    ensures sent { OnOk result (SendsOwn (send.now ∷ []) session.old session.new out.old.items out.new.items) }
    ensures kept { OnErr result ((session.new ≡ session.old) × (out.new.items ≡ out.old.items)) }
{
    send_laws();
    session.agrees();
    let sent = session.send(&send.outgoing(), send.key(), out);
    done_or_refused(sent)?;
    Ok(())
}

/// A send was done, or refused for what is wrong with it. Want of memory is neither.
fn done_or_refused(sent: Result<(), SendFault>) -> Result<(), NoMemory>
    ensures told { OnOk result (IsDoneOrRefused sent) }
    ensures memory { OnErr result (IsErr sent) }
{
    match sent {
        Ok(()) => Ok(()),
        Err(SendFault::NoMemory) => Err(NoMemory),
        Err(_) => Ok(()),
    }
}

impl Peer for AppPeer {
    ghost use Rattle.ws_peer.specs.Apps.{MayHaveSaid};

    ghost agrees = { MayHaveSaid };

    ghost is_spent = { λ peer. peer.is_spent };

    fn feed(&mut self, piece: &[u8], out: &mut Vec<u8>) -> Result<Going, NoMemory> {
        if self.is_spent {
            return Err(NoMemory);
        }
        match self.step(piece, out) {
            Ok(()) => Ok(if self.session.status().is_over() {
                Going::Ended
            } else {
                Going::More
            }),
            Err(_) => {
                self.is_spent = true;
                Err(NoMemory)
            }
        }
    }

    fn finish(&mut self, _out: &mut Vec<u8>) -> Result<(), NoMemory> {
        if self.is_spent {
            return Err(NoMemory);
        }
        Ok(())
    }
}
