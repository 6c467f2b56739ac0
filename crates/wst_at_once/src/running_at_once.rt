//! A server that is tested in several cases at a time.

ghost use Rattle.std.specs.Prelude.{◌≡◌, ◌<◌};

use crate::crowd::{Crowd, Terms};
use std::alloc::Global;
use std::marker::Model;
use wst_network::Connector;
use wst_sockets::Network;
use wst_testing::{AddressServer, CaseRunner, CaseSource, RunStop, Sink, run_cases};

/// It runs cases over a server, so many at a time. Contracts see the server.
#[derive(Drop)]
pub struct AtOnce<'s, 'a, N, C> {
    pub(crate) server: &'s AddressServer<'a, N, C>,
    /// So many connections go on at a time.
    pub(crate) most: usize,
    /// The name of each case is told as it begins.
    pub(crate) progress: bool,
}

impl<'s, 'a, N, C> Model for AtOnce<'s, 'a, N, C> {
    ghost use Rattle.std.specs.Prelude.{◌<◌};
    ghost use Rattle.wst_testing.specs.Servers.{AddressValue};

    ghost Value = { AddressValue };

    ghost view = { λ at_once. at_once.server.now };

    ghost invariant = { λ at_once. 0 < at_once.most };
}

impl<'s, 'a, N, C> AtOnce<'s, 'a, N, C> {
    /// Over this server, so many at a time. The name of each case is told as it begins, where that is asked for.
    pub fn new(
        server: &'s AddressServer<'a, N, C>,
        most: usize,
        progress: bool,
    ) -> AtOnce<'s, 'a, N, C>
        requires { 0 < most }
        ensures { result ≡ server.now }
    {
        AtOnce {
            server,
            most,
            progress,
        }
    }
}

impl<N: Network, C: Connector> CaseRunner for AtOnce<'_, '_, N, C> {
    ghost use Rattle.wst_testing.specs.Servers.{MeetsAtAddress};

    ghost meets = { λ at_once key case meeting. MeetsAtAddress at_once key case meeting };

    fn run_each<S: CaseSource, K: Sink<Item = S::Item>>(
        &self,
        alloc: Global,
        key: [u8; 4],
        source: &mut S,
        sink: &mut K,
    ) -> Result<(), RunStop> {
        match self.server.network(alloc) {
            Ok((network, poller)) => {
                let terms = Terms {
                    server: self.server,
                    most: self.most,
                    progress: self.progress,
                    key,
                };
                let mut crowd = Crowd::new(alloc, terms, network)?;
                crowd.run(poller, source, sink)
            }
            // There is no network for all of them: each asks for one of its own.
            Err(_) => run_cases(alloc, self.server, key, source, sink),
        }
    }
}
