//! Peers that are fed turn by turn. One that lacked memory is spent: it answers so to every later call, and what it
//! appends to begins as it did.

use crate::streams::FRAGMENTS;
use crate::tally::Tally;
use std::alloc::Global;
use ws_base::NoMemory;
use ws_peer::{EchoPeer, Peer, TungPeer};

/// A peer that is fed.
#[derive(Drop)]
enum Fed {
    Echo(EchoPeer),
    Tung(TungPeer),
}

impl Fed {
    /// Whether it takes a piece.
    fn takes(&mut self, piece: &[u8], out: &mut Vec<u8>) -> bool {
        match self {
            Fed::Echo(peer) => peer.feed(piece, out).is_ok(),
            Fed::Tung(peer) => peer.feed(piece, out).is_ok(),
        }
    }

    /// Whether it finishes.
    fn finishes(&mut self, out: &mut Vec<u8>) -> bool {
        match self {
            Fed::Echo(peer) => peer.finish(out).is_ok(),
            Fed::Tung(peer) => peer.finish(out).is_ok(),
        }
    }
}

/// Feeds an echo, and another one where the first is spent.
pub fn feed_echo(alloc: Global, tally: &mut Tally) -> Result<(), NoMemory> {
    let mut first = Fed::Echo(EchoPeer::new(alloc));
    if feed(alloc, "feed of an echo", &mut first, tally) {
        return Ok(());
    }
    let mut second = Fed::Echo(EchoPeer::new(alloc));
    let lasts = feed(alloc, "feed of an echo", &mut second, tally);
    tally.compare(lasts);
    Ok(())
}

/// Feeds a peer of `tungstenite`, and another one where the first is spent.
pub fn feed_tungstenite(alloc: Global, tally: &mut Tally) -> Result<(), NoMemory> {
    let mut first = Fed::Tung(TungPeer::new(alloc)?);
    if feed(alloc, "feed of tungstenite", &mut first, tally) {
        return Ok(());
    }
    let mut second = Fed::Tung(TungPeer::new(alloc)?);
    let lasts = feed(alloc, "feed of tungstenite", &mut second, tally);
    tally.compare(lasts);
    Ok(())
}

/// Feeds all pieces, and finishes the peer. `false` where it lacked memory, which is told under the name `call`.
fn feed(alloc: Global, call: &'static str, peer: &mut Fed, tally: &mut Tally) -> bool {
    let mut out = Vec::new(alloc);
    for piece in FRAGMENTS.pieces {
        let before = out.len();
        if !peer.takes(piece, &mut out) {
            tally.refuse(call);
            tally.compare(keeps(out.as_slice(), before));
            check_spent(peer, piece, &mut out, tally);
            return false;
        }
    }
    tally.call();
    tally.compare(out.as_slice() == FRAGMENTS.echoed);
    tally.compare(peer.finishes(&mut out));
    true
}

/// A spent peer answers want of memory to each call, and what stood in `out` stands there.
fn check_spent(peer: &mut Fed, piece: &[u8], out: &mut Vec<u8>, tally: &mut Tally) {
    let before = out.len();
    tally.compare(!peer.takes(piece, out));
    tally.compare(keeps(out.as_slice(), before));
    tally.compare(!peer.finishes(out));
    tally.compare(keeps(out.as_slice(), before));
}

/// Whether `out` begins with so many bytes of what is due.
fn keeps(out: &[u8], before: usize) -> bool {
    match (out.get(..before), FRAGMENTS.echoed.get(..before)) {
        (Some(got), Some(wanted)) => got == wanted,
        _ => false,
    }
}
