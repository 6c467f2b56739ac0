//! The headers that a request has beside its own, such as `Origin` or `Authorization` (RFC 6455 section 4.1, item 12).

ghost use Rattle.std.specs.Prelude.{◌≡◌, ◌↔◌, [], IsTrue, All, MatchOption, map, take, codes};
ghost use Rattle.std.specs.Str.{str_eq_ignore_ascii_case};
ghost use Rattle.ws_upgrade.specs.AddedHeaders.{AreAddedHeaders, IsAddedHeader, IsAddedName, IsAddedValue};
ghost use Rattle.ws_upgrade.specs.AddedHeaders.{header_pair, is_kept_name, names_kept};
ghost use Rattle.ws_upgrade.specs.Members.{has_word};

use crate::members::{is_same_word, trim};
use crate::protocols::is_protocol_name;
use std::marker::Model;

/// The most headers that are added to a request.
const MAX_HEADERS: usize = 32;

/// The most bytes that the value of an added header has.
const MAX_VALUE: usize = 4096;

/// What the names of the protocol's own headers begin with.
const KEPT_FRONT: &[u8] = b"Sec-WebSocket-";

/// A header that is added to a request.
#[derive(Clone, Copy)]
pub struct AddedHeader<'a> {
    /// Its name.
    pub name: &'a [u8],
    /// Its value.
    pub value: &'a [u8],
}

/// Headers that can be added to a request, in their order. Contracts see of each its name and its value.
#[derive(Drop)]
pub struct AddedHeaders<'h, 'b> {
    headers: &'h [AddedHeader<'b>],
}

impl<'h, 'b> Model for AddedHeaders<'h, 'b> {
    ghost use Rattle.std.specs.Prelude.{map};
    ghost use Rattle.ws_upgrade.specs.AddedHeaders.{AreAddedHeaders, header_pair};
    ghost use Rattle.ws_upgrade.specs.Members.{HeaderPairs};

    ghost Value = { HeaderPairs };

    ghost view = { λ added. map header_pair added.headers.now };

    ghost invariant = { λ added. AreAddedHeaders (map header_pair added.headers.now) };
}

impl<'h, 'b> AddedHeaders<'h, 'b> {
    /// These headers. `None` where `are_added_headers` denies that they can be added.
    pub fn new(headers: &'h [AddedHeader<'b>]) -> Option<AddedHeaders<'h, 'b>>
        ensures { let given = map header_pair headers.now
            in MatchOption result (¬ (AreAddedHeaders given)) (λ added. (added ≡ given) × AreAddedHeaders given) }
    {
        if are_added_headers(headers) {
            Some(AddedHeaders::proved(headers))
        } else {
            None
        }
    }

    /// Headers that were proved fit.
    pub fn proved(headers: &'h [AddedHeader<'b>]) -> AddedHeaders<'h, 'b>
        requires { AreAddedHeaders (map header_pair headers.now) }
        ensures { result ≡ map header_pair headers.now }
    {
        AddedHeaders { headers }
    }

    /// No header.
    pub fn none() -> AddedHeaders<'static, 'static>
        ensures { result ≡ [] }
    {
        AddedHeaders { headers: &[] }
    }

    /// The headers.
    pub fn as_slice(&self) -> &'h [AddedHeader<'b>]
        ensures headers { map header_pair result.now ≡ self.now }
        ensures added { AreAddedHeaders (map header_pair result.now) }
    {
        self.headers
    }
}

/// Whether a request can have these headers beside its own: at most 32. A name has 1 to 64 bytes, letters, digits and
/// ``!#$%&'*+-.^_`|~``; in any case it is none of `Host`, `Upgrade`, `Connection`, `Content-Length` and
/// `Transfer-Encoding`, and doesn't begin with `Sec-WebSocket-`. A value has at most 4096 bytes from the space to `~`,
/// with no space at its ends. It takes no memory.
pub fn are_added_headers(headers: &[AddedHeader<'_>]) -> bool
    ensures { IsTrue result ↔ AreAddedHeaders (map header_pair headers.now) }
{
    if headers.len() > MAX_HEADERS {
        return false;
    }
    are_each_added(headers)
}

/// Whether each of these headers can be added.
fn are_each_added(headers: &[AddedHeader<'_>]) -> bool
    ensures { IsTrue result ↔ All (λ header. IsAddedHeader (header_pair header)) headers.now }
{
    headers.iter().all(|header| is_added_header(header))
}

/// Whether a header can be added.
fn is_added_header(header: &AddedHeader<'_>) -> bool
    ensures { IsTrue result ↔ IsAddedHeader (header_pair header.now) }
{
    is_added_name(header.name) && is_added_value(header.value)
}

/// Whether an added header can have this name.
fn is_added_name(name: &[u8]) -> bool
    ensures { IsTrue result ↔ IsAddedName name.now }
{
    is_protocol_name(name) && !is_kept_name(name)
}

/// Whether no added header has this name.
fn is_kept_name(name: &[u8]) -> bool
    ensures { result ≡ is_kept_name name.now }
{
    is_one_kept(name) || has_kept_front(name)
}

/// Whether a name is that of a header that a request has itself, or of one that speaks of a body.
fn is_one_kept(name: &[u8]) -> bool
    ensures { result ≡ has_word name.now names_kept }
{
    is_same_word(b"Host", name)
        || is_same_word(b"Upgrade", name)
        || is_same_word(b"Connection", name)
        || is_same_word(b"Content-Length", name)
        || is_same_word(b"Transfer-Encoding", name)
}

/// Whether a name begins as those of the protocol's own headers do.
fn has_kept_front(name: &[u8]) -> bool
    ensures { result ≡ str_eq_ignore_ascii_case (take 14 name.now) (codes "Sec-WebSocket-") }
{
    is_same_word(&name[..KEPT_FRONT.len().min(name.len())], KEPT_FRONT)
}

/// Whether an added header can have this value.
fn is_added_value(value: &[u8]) -> bool
    ensures { IsTrue result ↔ IsAddedValue value.now }
{
    value.len() <= MAX_VALUE
        && value.iter().all(|byte| matches!(*byte, 0x20..=0x7e))
        && trim(value) == value
}
