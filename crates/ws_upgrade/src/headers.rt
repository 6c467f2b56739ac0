//! The headers of a head by name (RFC 6455 section 4.2.1, RFC 9110 section 5.1).

ghost use Rattle.std.specs.Prelude.{◌≡◌, ◌↔◌, [], List, ℕ, length, map, All, IsTrue, MatchOption, MatchResult};
ghost use Rattle.httparse.specs.Spans.{header_bytes, IsHeaderWithin};
ghost use Rattle.ws_upgrade.specs.Members.{IsOnlyValue, values_of, members_of, has_member};
ghost use Rattle.ws_upgrade.specs.Protocols.{IsChoice, NamesOffered};

use crate::faults::HeadFault;
use crate::members::{Members, Values, is_same_word};
use crate::protocols::place_of;
use httparse::spans::HeaderSpan;
use std::marker::Model;

/// The headers of a head, in their order.
#[derive(Drop)]
pub(crate) struct Headers<'h, 'b> {
    bytes: &'b [u8],
    spans: &'h [HeaderSpan],
}

impl<'h, 'b> Model for Headers<'h, 'b> {
    ghost use Rattle.std.specs.Prelude.{length, map, All};
    ghost use Rattle.httparse.specs.Spans.{header_bytes, IsHeaderWithin};
    ghost use Rattle.ws_upgrade.specs.Members.{HeaderPairs};

    ghost Value = { HeaderPairs };

    ghost view = { λ h. map (header_bytes h.bytes.now) h.spans.now };

    ghost invariant = { λ h. All (IsHeaderWithin (length h.bytes.now)) h.spans.now };
}

impl<'h, 'b> Headers<'h, 'b> {
    /// The headers whose places in the bytes these are.
    pub(crate) fn new(bytes: &'b [u8], spans: &'h [HeaderSpan]) -> Headers<'h, 'b>
        requires { All (IsHeaderWithin (length bytes.now)) spans.now }
        ensures { result ≡ map (header_bytes bytes.now) spans.now }
    {
        Headers { bytes, spans }
    }

    /// The values of the headers of this name.
    fn values<'n>(&self, name: &'n [u8]) -> Values<'h, 'b, 'n>
        ensures { result ≡ values_of name.now self.now }
    {
        Values::new(name, self.bytes, self.spans)
    }

    /// The members of the headers of this name.
    pub(crate) fn members<'n>(&self, name: &'n [u8]) -> Members<'h, 'b, 'n>
        ensures { result ≡ members_of name.now self.now }
    {
        Members::new(self.values(name))
    }

    /// The value of the only header of this name. `None` where there is none or more than one.
    pub(crate) fn only_value(&self, name: &[u8]) -> Option<&'b [u8]>
        ensures { MatchOption result ((value : List ℕ) → ¬ (IsOnlyValue name.now self.now value))
            (λ value. IsOnlyValue name.now self.now value.now) }
    {
        let mut values = self.values(name);
        let value = values.next()?;
        match values.next() {
            Some(_) => None,
            None => Some(value),
        }
    }

    /// Whether exactly one header has this name, and this value.
    pub(crate) fn has_only_value(&self, name: &[u8], value: &[u8]) -> bool
        ensures { IsTrue result ↔ IsOnlyValue name.now self.now value.now }
    {
        match self.only_value(name) {
            Some(only) => only == value,
            None => false,
        }
    }

    /// Whether a member of the headers of this name is this word.
    pub(crate) fn has_member(&self, name: &[u8], word: &[u8]) -> bool
        ensures { result ≡ has_member name.now word.now self.now }
    {
        self.members(name).any(|member| is_same_word(member, word))
    }

    /// Whether the headers of this name have no member.
    pub(crate) fn has_no_member(&self, name: &[u8]) -> bool
        ensures { IsTrue result ↔ (members_of name.now self.now ≡ []) }
    {
        self.members(name).next().is_none()
    }

    /// The first member of the headers of this name that is among these names, byte for byte: its
    /// first place among them.
    pub(crate) fn first_known(&self, name: &[u8], known: &[&[u8]]) -> Option<usize>
        ensures { IsChoice (map (λ other. other.now) known.now) (members_of name.now self.now) result }
    {
        for member in self.members(name) {
            if let Some(place) = place_of(known, member) {
                return Some(place);
            }
        }
        None
    }

    /// The place among the offers of what the headers of this name name, if they name anything.
    /// `Protocol` where that is more than one member, or one that is not offered.
    pub(crate) fn only_offered(
        &self,
        name: &[u8],
        offers: &[&[u8]],
    ) -> Result<Option<usize>, HeadFault>
        ensures { let offered = map (λ other. other.now) offers.now in
            let members = members_of name.now self.now in
            MatchResult result (λ choice. NamesOffered offered members × IsChoice offered members choice)
            (λ fault. (fault ≡ HeadFault.Protocol) × ¬ (NamesOffered offered members)) }
    {
        let mut members = self.members(name);
        let Some(member) = members.next() else {
            return Ok(None);
        };
        if members.next().is_some() {
            return Err(HeadFault::Protocol);
        }
        match place_of(offers, member) {
            Some(place) => Ok(Some(place)),
            None => Err(HeadFault::Protocol),
        }
    }
}
