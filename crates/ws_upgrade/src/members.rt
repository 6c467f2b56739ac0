//! The values of the headers of one name, and the members of values that are lists (RFC 9110 section 5.6.1).

ghost use Rattle.std.specs.Prelude.{◌≡◌, ◌<◌, ◌∷◌, ◌++◌, [], length, not, ◌==◌, All, filter, map, position, reverse};
ghost use Rattle.std.specs.Prelude.{MatchOption};
ghost use Rattle.std.specs.List.{flat_map};
ghost use Rattle.std.specs.Iterator.{YieldsFirstRef, item_count};
ghost use Rattle.std.specs.Str.{str_eq_ignore_ascii_case};
ghost use Rattle.httparse.specs.Grammar.{skip_ows, trim_ows};
ghost use Rattle.httparse.specs.Spans.{header_bytes, IsHeaderWithin};
ghost use Rattle.ws_upgrade.specs.Members.{comma, members_in, values_of};

use httparse::spans::HeaderSpan;
use std::marker::Model;

/// The values of the headers of one name that are still to come. Contracts see the list of them.
#[derive(Drop)]
pub(crate) struct Values<'h, 'b, 'n> {
    name: &'n [u8],
    bytes: &'b [u8],
    spans: &'h [HeaderSpan],
}

impl<'h, 'b, 'n> Model for Values<'h, 'b, 'n> {
    ghost use Rattle.std.specs.Prelude.{List, ℕ, All, length, map};
    ghost use Rattle.httparse.specs.Spans.{header_bytes, IsHeaderWithin};
    ghost use Rattle.ws_upgrade.specs.Members.{values_of};

    ghost Value = { List (List ℕ) };

    ghost view = { λ values. values_of values.name.now (map (header_bytes values.bytes.now) values.spans.now) };

    ghost invariant = { λ values. All (IsHeaderWithin (length values.bytes.now)) values.spans.now };
}

impl<'h, 'b, 'n> Values<'h, 'b, 'n> {
    /// The values of this name among the headers whose places in the bytes these are.
    pub(crate) fn new(
        name: &'n [u8],
        bytes: &'b [u8],
        spans: &'h [HeaderSpan],
    ) -> Values<'h, 'b, 'n>
        requires { All (IsHeaderWithin (length bytes.now)) spans.now }
        ensures { result ≡ values_of name.now (map (header_bytes bytes.now) spans.now) }
    {
        Values { name, bytes, spans }
    }
}

impl<'h, 'b, 'n> Iterator for Values<'h, 'b, 'n> {
    type Item = &'b [u8];

    ghost next_gives = { YieldsFirstRef (λ values. values) };

    ghost remaining = { item_count (λ values. values) };

    fn next(&mut self) -> Option<&'b [u8]> {
        while let Some((span, others)) = self.spans.split_first() {
            self.spans = others;
            if is_same_word(span.name.of(self.bytes), self.name) {
                return Some(span.value.of(self.bytes));
            }
        }
        None
    }
}

/// The members of the headers of one name that are still to come. Contracts see the list of them.
#[derive(Drop)]
pub(crate) struct Members<'h, 'b, 'n> {
    /// What is left of the value that is being read.
    rest: &'b [u8],
    /// The values after it.
    values: Values<'h, 'b, 'n>,
}

impl<'h, 'b, 'n> Model for Members<'h, 'b, 'n> {
    ghost use Rattle.std.specs.Prelude.{List, ℕ, ◌++◌};
    ghost use Rattle.std.specs.List.{flat_map};
    ghost use Rattle.ws_upgrade.specs.Members.{members_in};

    ghost Value = { List (List ℕ) };

    ghost view = { λ members. members_in members.rest.now ++ flat_map members_in members.values };
}

impl<'h, 'b, 'n> Members<'h, 'b, 'n> {
    /// The members of these values.
    pub(crate) fn new(values: Values<'h, 'b, 'n>) -> Members<'h, 'b, 'n>
        ensures { result ≡ flat_map members_in values.entry }
    {
        Members { rest: &[], values }
    }
}

impl<'h, 'b, 'n> Iterator for Members<'h, 'b, 'n> {
    type Item = &'b [u8];

    ghost next_gives = { YieldsFirstRef (λ members. members) };

    ghost remaining = { item_count (λ members. members) };

    fn next(&mut self) -> Option<&'b [u8]> {
        loop {
            if let Some((member, after)) = first_member(self.rest) {
                self.rest = after;
                return Some(member);
            }
            self.rest = self.values.next()?;
        }
    }
}

/// The first member of a value, and what stands after its comma. `None` where there is no member.
fn first_member(value: &[u8]) -> Option<(&[u8], &[u8])>
    ensures { MatchOption result (members_in value.now ≡ [])
        (λ found. members_in value.now ≡ found.0.now ∷ members_in found.1.now) }
{
    let mut rest = value;
    while !rest.is_empty() {
        let (part, after) = cut(rest);
        let member = trim(part);
        if !member.is_empty() {
            return Some((member, after));
        }
        rest = after;
    }
    None
}

/// What stands before the first comma, and what stands after it, which is nothing where there is
/// no comma.
fn cut(value: &[u8]) -> (&[u8], &[u8])
    requires { 0 < length value.now }
    ensures shorter { length result.1.now < length value.now }
    ensures members { members_in value.now
        ≡ filter (λ member. not (length member == 0)) (trim_ows result.0.now ∷ []) ++ members_in result.1.now }
{
    match first_comma(value) {
        Some(at) => (&value[..at], &value[at + 1..]),
        None => (value, &[]),
    }
}

/// Where the first comma stands, if there is one.
fn first_comma(value: &[u8]) -> Option<usize>
    ensures { result ≡ position (λ byte. byte == comma) value.now }
{
    value.iter().position(|byte| *byte == b',')
}

/// The bytes without the spaces and tabs at both ends.
pub(crate) fn trim(bytes: &[u8]) -> &[u8]
    ensures { result.now ≡ trim_ows bytes.now }
{
    trim_end(trim_start(bytes))
}

/// The bytes from the first on that is no space or tab.
fn trim_start(bytes: &[u8]) -> &[u8]
    ensures { result.now ≡ skip_ows bytes.now }
{
    let mut rest = bytes;
    while let [b' ' | b'\t', after @ ..] = rest {
        rest = after;
    }
    rest
}

/// The bytes up to the last that is no space or tab.
fn trim_end(bytes: &[u8]) -> &[u8]
    ensures { result.now ≡ reverse (skip_ows (reverse bytes.now)) }
{
    let mut rest = bytes;
    while let [before @ .., b' ' | b'\t'] = rest {
        rest = before;
    }
    rest
}

/// Whether two words are the same without regard to ASCII case.
pub(crate) fn is_same_word(left: &[u8], right: &[u8]) -> bool
    ensures { result ≡ str_eq_ignore_ascii_case left.now right.now }
{
    left.eq_ignore_ascii_case(right)
}
