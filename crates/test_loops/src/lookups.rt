//! Rows of names that are looked up, and a network whose names can be lists of addresses.

ghost use Rattle.std.specs.Prelude.{◌≤◌, length, IfOk};

use crate::row_fault::RowFault;
use std::alloc::Global;
use std::fmt::Write;
use std::io;
use std::io::ErrorKind;
use std::net::{IpAddr, Net, SocketAddr};
use std::time::{Clock, Duration};
use ws_networks::Network;
use wst_network::{ConnectMiss, system_network};

/// A network, in which a name with commas has the addresses that these part, in their order. A word with `ms` behind
/// digits is no address: so many milliseconds pass there. Other names have the addresses that they have in the network
/// below.
#[derive(Clone, Copy)]
pub struct ListedNames<'a, N> {
    pub net: &'a N,
}

impl<N: Net + Clock> Net for ListedNames<'_, N> {
    type Stream = N::Stream;

    type Listener = N::Listener;

    fn bind(&self, addr: SocketAddr) -> io::Result<N::Listener> {
        self.net.bind(addr)
    }

    fn connect(&self, addr: SocketAddr) -> io::Result<N::Stream> {
        self.net.connect(addr)
    }

    fn lookup_host(&self, host: &str, port: u16, found: &mut [SocketAddr]) -> io::Result<usize>
        ensures in_bounds { IfOk result (λ n. n ≤ length found.new) }
    {
        if !host.contains(',') {
            return self.net.lookup_host(host, port, found);
        }
        let mut count = 0;
        for word in host.split(',') {
            if let Some(time) = time_in(word) {
                let_pass(self.net, time)?;
            } else {
                let Ok(address) = word.parse::<IpAddr>() else {
                    return Err(io::Error::from(ErrorKind::InvalidInput));
                };
                if count < found.len() {
                    found[count] = SocketAddr::new(address, port);
                    count += 1;
                }
            }
        }
        Ok(count)
    }
}

impl<N: Clock> Clock for ListedNames<'_, N> {
    fn monotonic(&self) -> io::Result<Duration> {
        self.net.monotonic()
    }

    fn since_1970(&self) -> io::Result<Duration> {
        self.net.since_1970()
    }
}

/// The time that a word of a name says, if it says one.
fn time_in(word: &str) -> Option<Duration> {
    let digits = word.strip_suffix("ms")?;
    let Ok(time) = digits.parse::<u64>() else {
        return None;
    };
    Some(Duration::from_millis(time))
}

/// Lets so much time pass.
fn let_pass<C: Clock>(clock: &C, time: Duration) -> io::Result<()> {
    let start = clock.monotonic()?;
    for _ in 0..u64::MAX {
        let now = clock.monotonic()?;
        if now.saturating_sub(start) >= time {
            return Ok(());
        }
    }
    Ok(())
}

/// `look_up ADDRESS`: the addresses of a name, as the system's network tells them.
pub fn run_lookup<N: Net + Clock>(
    alloc: Global,
    net: &N,
    words: &[&str],
    out: &mut String,
) -> Result<(), RowFault> {
    let [name] = words else {
        return Err(RowFault::NotARow);
    };
    let Ok((mut network, _)) = system_network(alloc, net) else {
        return Err(RowFault::NoNetwork);
    };
    match network.look_up(alloc, name) {
        Ok(addresses) => {
            for address in addresses.as_slice() {
                write!(out, "{address} ")?;
            }
            write!(out, "of {}", addresses.len())?;
        }
        Err(ConnectMiss::NotFound(kind) | ConnectMiss::NotTaken(kind)) => {
            write!(out, "failed: {kind}")?
        }
    }
    Ok(())
}
