//! Where a run takes place, and what is told of its waits.

use std::alloc::Global;
use std::cell::Cell;
use wst_sockets::{Network, Notice, Running, WaitTeller};
use wst_testing::TellingPoller;

/// Where a run takes place: its memory, and what gives its networks.
#[derive(Clone, Copy)]
pub struct Site<'n, 'c, N, C> {
    pub alloc: Global,
    pub net: &'n N,
    pub connector: &'c C,
}

/// It waits as another poller does, and tells of the waits of the case that is run.
pub(crate) fn telling<'a, P, N: Network>(
    alloc: Global,
    net: &'a N,
    poller: P,
    notice: &'a Cell<Notice>,
    running: Running<'a>,
) -> TellingPoller<'a, P, N> {
    TellingPoller::of(poller, WaitTeller::of(alloc, net, notice, running))
}
