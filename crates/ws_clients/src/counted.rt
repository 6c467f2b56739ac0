//! A listener of which so many clients are taken, and no more.

ghost use Rattle.std.specs.Prelude.{◌≡◌, ◌<◌};
ghost use Rattle.ws_clients.specs.Counting.{IsLeftOf};

use std::marker::Model;
use ws_loops::{Listener, TryAccept};

/// A listener that is asked for clients as long as fewer than so many were given, if they are counted. Behind them it
/// isn't asked, and no more come.
#[derive(Drop)]
pub struct Counted<L> {
    listener: L,
    left: Option<u64>,
}

impl<L> Model for Counted<L> {
    ghost use Rattle.ws_clients.specs.Counting.{CountedValue};

    ghost Value = { CountedValue L };

    ghost view = { λ x. record { listener = x.listener; left = x.left } };
}

impl<L: Listener> Counted<L> {
    /// At most so many clients of this listener are to be taken, if they are counted.
    pub fn new(listener: L, most: Option<u64>) -> Counted<L>
        ensures listener { result.listener ≡ listener }
        ensures left { result.left ≡ most }
    {
        Counted {
            listener,
            left: most,
        }
    }
}

impl<L: Listener> Listener for Counted<L> {
    ghost use Rattle.ws_clients.specs.Counting.{HasCounted};

    type Client = L::Client;

    type Miss = L::Miss;

    ghost did = { λ start now told. HasCounted L.did start now told };

    fn try_accept(&mut self, at: usize) -> TryAccept<L::Client, L::Miss> {
        match self.left {
            Some(left) => {
                if left == 0 {
                    return TryAccept::NotReady;
                }
                let got = self.listener.try_accept(at);
                self.left = left_behind(&got, left);
                got
            }
            None => self.listener.try_accept(at),
        }
    }
}

/// How many clients may still be taken once this came of the next one, where so many might be.
fn left_behind<S, W>(got: &TryAccept<S, W>, left: u64) -> Option<u64>
    requires { 0 < left }
    ensures { IsLeftOf left got.now result }
{
    match got {
        TryAccept::Client(_) => Some(left.saturating_sub(1)),
        TryAccept::Lost(_) | TryAccept::Failed(_) | TryAccept::NotReady => Some(left),
    }
}
