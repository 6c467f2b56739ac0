//! Subprotocols (RFC 6455 sections 1.9, 4.1 and 4.2.2): their names, and the place of a name in a list.

ghost use Rattle.std.specs.Prelude.{◌≡◌, ◌↔◌, IsTrue, MatchOption, All, map, position, slice_get};
ghost use Rattle.std.specs.List.{AllPairs};
ghost use Rattle.std.specs.Str.{bytes_eq};
ghost use Rattle.ws_upgrade.specs.Protocols.{AreOffers, IsProtocolName, is_token_byte, name_chosen};

use std::marker::Model;

/// The most bytes that the name of a subprotocol has.
const MAX_NAME: usize = 64;

/// The most subprotocols that a request offers.
const MAX_OFFERS: usize = 16;

/// The header that names subprotocols.
pub(crate) const PROTOCOL_HEADER: &[u8] = b"Sec-WebSocket-Protocol";

/// The name of a subprotocol. Contracts see its bytes.
#[derive(Drop)]
pub struct ProtocolName<'a> {
    bytes: &'a [u8],
}

impl<'a> Model for ProtocolName<'a> {
    ghost use Rattle.std.specs.Prelude.{List, ℕ};
    ghost use Rattle.ws_upgrade.specs.Protocols.{IsProtocolName};

    ghost Value = { List ℕ };

    ghost view = { λ name. name.bytes.now };

    ghost invariant = { λ name. IsProtocolName name.bytes.now };
}

impl<'a> ProtocolName<'a> {
    /// The name of these bytes, as `are_offers` has it. `None` where they are none.
    pub fn new(bytes: &'a [u8]) -> Option<ProtocolName<'a>>
        ensures { MatchOption result (¬ (IsProtocolName bytes.now))
            (λ name. (name ≡ bytes.now) × IsProtocolName bytes.now) }
    {
        if is_protocol_name(bytes) {
            Some(ProtocolName::proved(bytes))
        } else {
            None
        }
    }

    /// The name of bytes that were proved to be one.
    pub fn proved(bytes: &'a [u8]) -> ProtocolName<'a>
        requires { IsProtocolName bytes.now }
        ensures { result ≡ bytes.now }
    {
        ProtocolName { bytes }
    }

    /// Its bytes.
    pub fn as_bytes(&self) -> &'a [u8]
        ensures bytes { result.now ≡ self.now }
        ensures name { IsProtocolName result.now }
    {
        self.bytes
    }
}

/// Subprotocols that a request can offer, or that a server can know, in their order. Contracts see the list of their
/// names.
#[derive(Drop)]
pub struct Offers<'n, 'b> {
    names: &'n [&'b [u8]],
}

impl<'n, 'b> Model for Offers<'n, 'b> {
    ghost use Rattle.std.specs.Prelude.{List, ℕ, map};
    ghost use Rattle.ws_upgrade.specs.Protocols.{AreOffers};

    ghost Value = { List (List ℕ) };

    ghost view = { λ offers. map (λ name. name.now) offers.names.now };

    ghost invariant = { λ offers. AreOffers (map (λ name. name.now) offers.names.now) };
}

impl<'n, 'b> Offers<'n, 'b> {
    /// The subprotocols of these names. `None` where `are_offers` denies that they can be offered.
    pub fn new(names: &'n [&'b [u8]]) -> Option<Offers<'n, 'b>>
        ensures { let given = map (λ name. name.now) names.now
            in MatchOption result (¬ (AreOffers given)) (λ offers. (offers ≡ given) × AreOffers given) }
    {
        if are_offers(names) {
            Some(Offers::proved(names))
        } else {
            None
        }
    }

    /// The subprotocols of names that were proved to be such.
    pub fn proved(names: &'n [&'b [u8]]) -> Offers<'n, 'b>
        requires { AreOffers (map (λ name. name.now) names.now) }
        ensures { result ≡ map (λ name. name.now) names.now }
    {
        Offers { names }
    }

    /// Their names.
    pub fn as_slice(&self) -> &'n [&'b [u8]]
        ensures names { map (λ name. name.now) result.now ≡ self.now }
        ensures offers { AreOffers (map (λ name. name.now) result.now) }
    {
        self.names
    }

    /// The name at the place that was chosen, if any was.
    pub fn chosen(&self, place: Option<usize>) -> Option<ProtocolName<'b>>
        ensures { result ≡ name_chosen self.now place }
    {
        match place {
            Some(place) => self.name_at(place),
            None => None,
        }
    }

    /// The name at a place.
    fn name_at(&self, place: usize) -> Option<ProtocolName<'b>>
        ensures { result ≡ slice_get self.now place }
    {
        match self.names.get(place) {
            Some(name) => Some(ProtocolName::proved(name)),
            None => None,
        }
    }
}

/// Whether a request can offer these subprotocols: at most 16 names, no two of them equal. A name has 1 to 64 bytes:
/// letters, digits and ``!#$%&'*+-.^_`|~``. It takes no memory.
pub fn are_offers(names: &[&[u8]]) -> bool
    ensures { IsTrue result ↔ AreOffers (map (λ name. name.now) names.now) }
{
    if names.len() > MAX_OFFERS {
        return false;
    }
    if !are_names(names) {
        return false;
    }
    are_distinct(names)
}

/// Whether these are names of subprotocols.
fn are_names(names: &[&[u8]]) -> bool
    ensures { IsTrue result ↔ All (λ name. IsProtocolName name.now) names.now }
{
    names.iter().all(|name| is_protocol_name(name))
}

/// Whether a subprotocol can have this name: 1 to 64 bytes, as `are_offers` has them. It takes no memory.
pub fn is_protocol_name(name: &[u8]) -> bool
    ensures { IsTrue result ↔ IsProtocolName name.now }
{
    !name.is_empty() && name.len() <= MAX_NAME && name.iter().all(|byte| is_token_byte(*byte))
}

/// Whether a byte can stand in a name.
fn is_token_byte(byte: u8) -> bool
    ensures { result ≡ is_token_byte byte }
{
    byte.is_ascii_alphanumeric() || b"!#$%&'*+-.^_`|~".contains(&byte)
}

/// Whether no two names are equal.
fn are_distinct(names: &[&[u8]]) -> bool
    ensures { IsTrue result ↔ AllPairs (λ one other. ¬ (one ≡ other)) (map (λ name. name.now) names.now) }
{
    for place in 0..names.len() {
        if place_of(names, names[place]) != Some(place) {
            return false;
        }
    }
    true
}

/// The first place of a name in a list, compared byte for byte.
pub(crate) fn place_of(names: &[&[u8]], name: &[u8]) -> Option<usize>
    ensures { result ≡ position (λ other. bytes_eq other.now name.now) names.now }
{
    names.iter().position(|other| *other == name)
}
