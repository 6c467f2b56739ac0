//! A target, and how a word names it.

ghost use Rattle.std.specs.Prelude.{◌≡◌, IfOk, MatchOption, MatchResult, drop, length, position, string_bytes, take};
ghost use Rattle.std.specs.Str.{str_eq_ignore_ascii_case};
ghost use Rattle.ws_targets.specs.Reading.{IsPlaceAsked, HasParts, IsUrlRead};
ghost use Rattle.ws_targets.specs.Reading.{LacksPlaceAsked, RefusesResource, RefusesUrl, address_at};
ghost use Rattle.ws_targets.specs.Targets.{HasScheme, IsTargetText, NamesNoTarget, authority_of};
ghost use Rattle.ws_targets.specs.Targets.{begins_with_wss, connected_at, ends_authority, path_of, resource_of};
ghost use Rattle.ws_upgrade.specs.Texts.{IsHost, IsPath};

use crate::place::{Place, place_of};
use std::alloc::Global;
use std::marker::Model;
use ws_base::NoMemory;
use ws_upgrade::{is_host, is_path};

/// What a URL begins with.
const SCHEME: &[u8] = b"ws://";

/// What a URL begins with whose connection is encrypted.
const ENCRYPTED: &[u8] = b"wss:";

/// Where a server is, and what a request asks it for. Contracts see the address that a connection is made to, the host
/// and the path.
#[derive(Drop)]
pub struct Target {
    address: String,
    host: String,
    path: Vec<u8>,
}

impl Model for Target {
    ghost use Rattle.std.specs.Prelude.{string_bytes};
    ghost use Rattle.ws_targets.specs.Targets.{TargetValue};
    ghost use Rattle.ws_upgrade.specs.Texts.{IsHost, IsPath};

    ghost Value = { TargetValue };

    ghost view = { λ target. record {
      address = string_bytes target.address;
      host = string_bytes target.host;
      path = target.path.items;
    } };

    ghost invariant = { λ target. IsHost (string_bytes target.host) × IsPath (target.path.items) };
}

/// Why a word names no target.
#[derive(Clone, Copy, Debug, PartialEq, Eq)]
pub enum TargetFault {
    /// It is no URL that begins with `ws://`, and no host: see `read_target`.
    Bad,
    /// Memory ran out.
    NoMemory,
}

impl From<NoMemory> for TargetFault {
    ghost use Rattle.std.specs.Prelude.{◌≡◌};
    ghost use Rattle.ws_targets.specs.declared.target.TargetFault.TheVariants.{NoMemory};

    ghost from_gives = { λ _ fault. fault ≡ NoMemory };

    fn from(_refused: NoMemory) -> TargetFault {
        TargetFault::NoMemory
    }
}

impl Target {
    /// What a connection is made to: a host, a colon and a port.
    pub fn address(&self) -> &str
        ensures { result.now ≡ self.now.address }
    {
        self.address.as_str()
    }

    /// What the request calls the server.
    pub fn host(&self) -> &str
        ensures host { result.now ≡ self.now.host }
        ensures fits { IsHost result.now }
    {
        self.host.as_str()
    }

    /// The path and the query that the request asks for.
    pub fn path(&self) -> &[u8]
        ensures path { result.now ≡ self.now.path }
        ensures fits { IsPath result.now }
    {
        self.path.as_slice()
    }

    /// The target to which a connection is made at another address, as by way of a TLS client. What is asked for stays.
    /// The target is lost where memory runs out.
    pub fn connected_at(self, alloc: Global, address: &str) -> Result<Target, NoMemory>
        ensures { IfOk result (λ target. target ≡ connected_at address.now self) }
    {
        let Ok(address) = String::from_str(alloc, address) else {
            return Err(NoMemory);
        };
        Ok(Target {
            address,
            host: self.host,
            path: self.path,
        })
    }
}

/// The target that a word names. A word with `://` is a URL: `ws://` in any case, a host, `:` and a port where it isn't
/// 80, then the path and the query as they are asked for. Another word is a host and a port, at which `/` is asked for.
/// The host and the path are what `ws_upgrade::request` takes; a URL has no user and no fragment.
pub fn read_target(alloc: Global, text: &str) -> Result<Target, TargetFault>
    ensures { MatchResult result (IsTargetText text.now) (NamesNoTarget text.now) }
{
    if text.contains("://") {
        url_target(alloc, text.as_bytes())
    } else if is_host(text.as_bytes()) {
        target_of(alloc, text, false, b"")
    } else {
        Err(TargetFault::Bad)
    }
}

/// Whether a word begins as a URL whose connection is encrypted.
pub fn asks_for_tls(text: &str) -> bool
    ensures { result ≡ begins_with_wss text.now }
{
    begins_with(text.as_bytes(), ENCRYPTED)
}

/// Whether bytes begin with these, without regard to ASCII case.
pub(crate) fn begins_with(bytes: &[u8], front: &[u8]) -> bool
    ensures { result ≡ str_eq_ignore_ascii_case (take (length front.now) bytes.now) front.now }
{
    bytes[..front.len().min(bytes.len())].eq_ignore_ascii_case(front)
}

/// The target of a URL.
fn url_target(alloc: Global, url: &[u8]) -> Result<Target, TargetFault>
    ensures { MatchResult result (IsUrlRead url.now) (RefusesUrl url.now) }
{
    let Some(rest) = behind_scheme(url) else {
        return Err(TargetFault::Bad);
    };
    let (authority, resource) = cut_authority(rest);
    let Some(place) = place_asked(authority) else {
        return Err(TargetFault::Bad);
    };
    let Some(host) = host_text(place.host) else {
        return Err(TargetFault::Bad);
    };
    target_of(alloc, host, place.at_default, resource)
}

/// What stands behind `ws://`.
fn behind_scheme(url: &[u8]) -> Option<&[u8]>
    ensures { MatchOption result (¬ (HasScheme url.now)) (λ rest. (rest.now ≡ drop 5 url.now) × HasScheme url.now) }
{
    if begins_with(url, SCHEME) {
        Some(&url[SCHEME.len().min(url.len())..])
    } else {
        None
    }
}

/// The authority of a URL that begins with `ws://`.
pub(crate) fn authority_in(url: &[u8]) -> Option<&[u8]>
    ensures { MatchOption result (¬ (HasScheme url.now))
        (λ found. (found.now ≡ authority_of (drop 5 url.now)) × HasScheme url.now) }
{
    let rest = behind_scheme(url)?;
    Some(cut_authority(rest).0)
}

/// The authority of a URL, by what stands behind its scheme, and what stands behind the authority.
fn cut_authority(rest: &[u8]) -> (&[u8], &[u8])
    ensures authority { result.0.now ≡ authority_of rest.now }
    ensures resource { result.1.now ≡ resource_of rest.now }
{
    match end_of_authority(rest) {
        Some(end) => rest.split_at(end),
        None => (rest, b""),
    }
}

/// Where the authority of a URL ends, where something stands behind it.
fn end_of_authority(rest: &[u8]) -> Option<usize>
    ensures { result ≡ position ends_authority rest.now }
{
    rest.iter().position(|byte| ends_authority(*byte))
}

/// Whether a byte ends the authority of a URL.
fn ends_authority(byte: u8) -> bool
    ensures { result ≡ ends_authority byte }
{
    byte == b'/' || byte == b'?' || byte == b'#'
}

/// What an authority without a user names.
fn place_asked(authority: &[u8]) -> Option<Place<'_>>
    ensures { MatchOption result (LacksPlaceAsked authority.now) (IsPlaceAsked authority.now) }
{
    if authority.contains(&b'@') {
        None
    } else {
        place_of(authority)
    }
}

/// A host that can be asked for, as text.
fn host_text(host: &[u8]) -> Option<&str>
    ensures { MatchOption result (¬ (IsHost host.now)) (λ text. (text.now ≡ host.now) × IsHost host.now) }
{
    if !is_host(host) {
        return None;
    }
    match std::str::from_utf8(host) {
        Ok(text) => Some(text),
        Err(_) => None,
    }
}

/// The target of these parts: the host, whether the port 80 is to be put behind it, and what is asked for there.
fn target_of(
    alloc: Global,
    host: &str,
    at_default: bool,
    resource: &[u8],
) -> Result<Target, TargetFault>
    requires { IsHost host.now }
    ensures { MatchResult result (HasParts host.now at_default resource.now) (RefusesResource resource.now) }
{
    let path = path_text(alloc, resource)?;
    if !is_path(path.as_slice()) {
        return Err(TargetFault::Bad);
    }
    Ok(Target {
        address: address_text(alloc, host, at_default)?,
        host: copied(alloc, host)?,
        path,
    })
}

/// What is asked for, with a slash first.
fn path_text(alloc: Global, resource: &[u8]) -> Result<Vec<u8>, NoMemory>
    ensures { IfOk result (λ path. path.items ≡ path_of resource.now) }
{
    let mut path = Vec::new(alloc);
    if resource.first() != Some(&b'/') {
        path.push(b'/')?;
    }
    path.extend_from_slice(resource)?;
    Ok(path)
}

/// Where a connection is made.
fn address_text(alloc: Global, host: &str, at_default: bool) -> Result<String, NoMemory>
    ensures { IfOk result (λ text. string_bytes text ≡ address_at at_default host.now) }
{
    let mut address = copied(alloc, host)?;
    if at_default {
        address.push_str(":80")?;
    }
    Ok(address)
}

/// A copy of a text.
fn copied(alloc: Global, text: &str) -> Result<String, NoMemory>
    ensures { IfOk result (λ copy. string_bytes copy ≡ text.now) }
{
    Ok(String::from_str(alloc, text)?)
}
