//! Where a head is looked for, a request's or a response's (RFC 6455 section 4).

ghost use Rattle.std.specs.Prelude.{◌≡◌};
ghost use Rattle.ws_upgrade.specs.Reading.{head_part};

/// A head is looked for in so many bytes.
pub const MAX_HEAD: usize = 8192;

/// The most headers that a head has.
pub(crate) const MAX_HEADERS: usize = 64;

/// The bytes in which a head is looked for.
pub(crate) fn head_part(bytes: &[u8]) -> &[u8]
    ensures { result.now ≡ head_part bytes.now }
{
    if bytes.len() < MAX_HEAD {
        bytes
    } else {
        &bytes[..MAX_HEAD]
    }
}
