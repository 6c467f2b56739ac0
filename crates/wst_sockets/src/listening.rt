//! An address of a network that is listened at, and the clients that come to it.

ghost use Rattle.std.specs.Prelude.{◌≡◌, ◌↔◌, IsTrue, MatchOption, MatchResult};
ghost use Rattle.wst_sockets.specs.Listening.{AreZeros, CanNotListen, CanNotTell, CutsAtPort, IsAtPort0, IsToldFor};
ghost use Rattle.wst_sockets.specs.Listening.{IsWithPort, LacksPort0, SpellsPort0, listen_fault_at, lookup_fault_at};

use std::alloc::Global;
use std::io::ErrorKind;
use ws_networks::{Network, Unheard};
use wst_commands::{Fault, ListenFault};
use wst_network::{ConnectMiss, Connector};

/// A network, what is listened by, what waits for the streams of both, and the address that is told of it.
#[derive(Drop)]
pub struct Heard<N, L, P> {
    pub network: N,
    pub listener: L,
    pub poller: P,
    pub told: Vec<u8>,
}

/// Listens at an address, over a network whose sockets don't wait. The port that the system chose stands in the address
/// that is told in the place of a port 0.
pub fn listen_over<C: Connector>(
    alloc: Global,
    connector: &C,
    address: &str,
) -> Result<Heard<C::Network, <C::Network as Network>::Listener, C::Poller>, Fault>
    ensures { MatchResult result (λ heard. IsToldFor address.now heard.told.items) CanNotListen }
{
    let (mut network, poller) = match connector.network(alloc) {
        Ok(made) => made,
        Err(error) => return Err(Fault::NotListening(listen_fault(error.kind()))),
    };
    let listener = match ws_networks::listen(alloc, &mut network, address) {
        Ok(listener) => listener,
        Err(why) => return Err(unheard_fault(why)),
    };
    let port = match network.address_of(&listener) {
        Ok(address) => Some(address.port()),
        Err(_) => None,
    };
    let told = told_address(alloc, port, address)?;
    Ok(Heard {
        network,
        listener,
        poller,
        told,
    })
}

/// Why nothing is listened at, where a network says so.
fn unheard_fault(why: Unheard<ConnectMiss>) -> Fault
    ensures { CanNotListen result }
{
    match why {
        Unheard::NoAddress => Fault::NotListening(ListenFault::NoSuchHost),
        Unheard::Failed(ConnectMiss::NotFound(ErrorKind::OutOfMemory)) => Fault::NoMemory,
        Unheard::Failed(ConnectMiss::NotFound(kind)) => {
            Fault::NotListening(listen_lookup_fault(kind))
        }
        Unheard::Failed(ConnectMiss::NotTaken(kind)) => Fault::NotListening(listen_fault(kind)),
    }
}

/// What is told of an address at which a listener takes connections: the word as it was given, but that the port which
/// the system chose, which is this one, stands in the place of a port 0. Where it is not known, that can't be told.
fn told_address(alloc: Global, port: Option<u16>, address: &str) -> Result<Vec<u8>, Fault>
    ensures { MatchResult result (λ told. IsToldFor address.now told.items) CanNotTell }
{
    match host_at_port_0(address) {
        Some(host) => told_with_port(alloc, port, host),
        None => told_as_given(alloc, address),
    }
}

/// An address whose port is not 0.
fn told_as_given(alloc: Global, address: &str) -> Result<Vec<u8>, Fault>
    ensures { MatchResult result (λ told. told.items ≡ address.now) CanNotTell }
{
    let mut told = Vec::new(alloc);
    told.extend_from_slice(address.as_bytes())?;
    Ok(told)
}

/// A host with the port that the system chose.
fn told_with_port(alloc: Global, port: Option<u16>, host: &[u8]) -> Result<Vec<u8>, Fault>
    ensures { MatchResult result (λ told. IsWithPort host.now told.items) CanNotTell }
{
    let Some(port) = port else {
        return Err(Fault::NotListening(ListenFault::Failed));
    };
    let port = format!(in alloc; ":{port}")?;
    let mut told = Vec::new(alloc);
    told.extend_from_slice(host)?;
    told.extend_from_slice(port.as_bytes())?;
    Ok(told)
}

/// The host of an address whose port is 0, however many zeros spell it: for it the system chooses a port.
fn host_at_port_0(address: &str) -> Option<&[u8]>
    ensures { MatchOption result (LacksPort0 address.now) (λ host. IsAtPort0 address.now host.now) }
{
    let (host, word) = cut_at_port(address.as_bytes())?;
    if spells_port_0(word) {
        Some(host)
    } else {
        None
    }
}

/// What stands before the last colon, and what behind it. `None` where there is none.
fn cut_at_port(bytes: &[u8]) -> Option<(&[u8], &[u8])>
    ensures { CutsAtPort bytes.now result }
{
    let at = bytes.iter().rposition(|byte| *byte == b':')?;
    Some((&bytes[..at], &bytes[at + 1..]))
}

/// Whether a port is read as 0. The standard library reads a plus before its digits, and any number of zeros.
fn spells_port_0(word: &[u8]) -> bool
    ensures { IsTrue result ↔ SpellsPort0 word.now }
{
    if word.first() == Some(&b'+') {
        are_zeros(&word[1..])
    } else {
        are_zeros(word)
    }
}

/// Whether there are zeros, and nothing else.
fn are_zeros(word: &[u8]) -> bool
    ensures { IsTrue result ↔ AreZeros word.now }
{
    !word.is_empty() && word.iter().all(|byte| *byte == b'0')
}

/// Why nothing can be listened at, where the look-up of the address fails so.
fn listen_lookup_fault(kind: ErrorKind) -> ListenFault
    ensures { result ≡ lookup_fault_at kind }
{
    match kind {
        ErrorKind::OutOfMemory => ListenFault::Failed,
        _ => ListenFault::NoSuchHost,
    }
}

/// Why nothing can be listened at, where the address can't be bound so.
fn listen_fault(kind: ErrorKind) -> ListenFault
    ensures { result ≡ listen_fault_at kind }
{
    match kind {
        ErrorKind::AddrInUse => ListenFault::AddressInUse,
        ErrorKind::PermissionDenied => ListenFault::NotPermitted,
        _ => ListenFault::Failed,
    }
}
