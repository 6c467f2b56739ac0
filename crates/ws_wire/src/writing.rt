//! From a header to its bytes (RFC 6455 section 5.2).

ghost use Rattle.std.specs.Prelude.{◌≡◌, ◌≤◌, ◌<◌, ◌+◌, length, ◌++◌};
ghost use Rattle.ws_wire.specs.Header.{CanHold, IsMaskingKey, header_bytes, length_bits, length_bytes, key_bytes};

use crate::header::{Form, Header};
use ws_base::ShortBytes;

/// The most bytes that a header has: two, eight of length, and four of masking key.
const MAX_HEADER: usize = 14;

/// The bytes of one header, at most 14, kept in place.
pub type HeadBytes = ShortBytes<MAX_HEADER>;

impl Header {
    /// The header's bytes on the wire, in its own form.
    pub fn write(&self) -> HeadBytes
        ensures { result ≡ header_bytes self.now }
    {
        let fin = if self.fin() { 0x80 } else { 0 };
        let mask = if self.key().is_some() { 0x80 } else { 0 };
        let first = fin + (16 * self.rsv() + self.opcode());
        let second = mask + seven_bits(self.form(), self.payload_len());
        let mut bytes = HeadBytes::of(&[first, second]);
        push_length(&mut bytes, self.form(), self.payload_len());
        push_key(&mut bytes, &self.key());
        bytes
    }
}

/// The seven bits beside MASK.
fn seven_bits(form: Form, len: u64) -> u8
    requires { CanHold form len }
    ensures value { result ≡ length_bits form len }
    ensures small { result < 128 }
{
    match form {
        Form::Short => len as u8,
        Form::Two => 126,
        Form::Eight => 127,
    }
}

/// Puts the length bytes after the first two.
fn push_length(bytes: &mut HeadBytes, form: Form, len: u64)
    requires room { length bytes.old ≤ 2 }
    requires holds { CanHold form len }
    ensures pushed { bytes.new ≡ bytes.old ++ length_bytes form len }
    ensures len { length bytes.new ≤ length bytes.old + 8 }
{
    match form {
        Form::Short => {}
        Form::Two => bytes.push(&(len as u16).to_be_bytes()),
        Form::Eight => bytes.push(&len.to_be_bytes()),
    }
}

/// Puts the masking key after them, if there is one.
fn push_key(bytes: &mut HeadBytes, key: &Option<[u8; 4]>)
    requires room { length bytes.old ≤ 10 }
    requires is_key { IsMaskingKey key.now }
    ensures { bytes.new ≡ bytes.old ++ key_bytes key.now }
{
    if let Some(key) = key {
        bytes.push(key);
    }
}
