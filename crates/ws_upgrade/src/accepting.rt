//! The key of a handshake and the value that accepts it (RFC 6455 sections 4.1 and 4.2.2).

ghost use Rattle.std.specs.Prelude.{◌≡◌, ◌≤◌, length, take, IfSome, IsNone, IsErr, IsTrue, ◌↔◌};
ghost use Rattle.base64.specs.Engines.{standard};
ghost use Rattle.base64.specs.GeneralPurpose.{decode_of, IsBytes};
ghost use Rattle.ws_upgrade.specs.Accept.{accept_value_of, key_of, IsHandshakeKey};

use base64::engine::general_purpose::STANDARD;
use sha1::Sha1;

/// The text that a server appends to the key (section 1.3).
const ACCEPT_SUFFIX: &[u8] = b"258EAFA5-E914-47DA-95CA-C5AB0DC85B11";

/// The length of an accept value: the base64 of the 20 bytes of a SHA-1.
pub const ACCEPT_LEN: usize = 28;

/// The length of a nonce.
pub const NONCE_LEN: usize = 16;

/// The length of a key: the base64 of a nonce.
pub(crate) const KEY_LEN: usize = 24;

/// The value of `Sec-WebSocket-Accept` that accepts this key, which is taken as it stands, right or
/// not.
pub fn accept_of(key: &[u8]) -> [u8; 28]
    ensures { result ≡ accept_value_of key.now }
{
    let mut hasher = Sha1::new();
    hasher.update(key);
    hasher.update(ACCEPT_SUFFIX);
    let digest = hasher.finalize();
    let mut text = [0; ACCEPT_LEN];
    let _ = STANDARD.encode_slice(&digest, &mut text);
    text
}

/// The key for a nonce: its base64.
pub(crate) fn key_text(nonce: &[u8; 16]) -> [u8; 24]
    ensures { result ≡ key_of nonce.now }
{
    let mut text = [0; KEY_LEN];
    let _ = STANDARD.encode_slice(nonce, &mut text);
    text
}

/// Whether a key is the base64 of some 16 bytes.
pub(crate) fn is_key(key: &[u8]) -> bool
    ensures { IsTrue result ↔ IsHandshakeKey key.now }
{
    nonce_of(key).is_some()
}

/// The 16 bytes whose base64 a key is. `None` where it is not that of 16 bytes.
pub(crate) fn nonce_of(key: &[u8]) -> Option<[u8; 16]>
    ensures found { IfSome result (λ nonce. IsBytes nonce × (length nonce ≡ 16) × (key.now ≡ key_of nonce)) }
    ensures none { IsNone result → ¬ (IsHandshakeKey key.now) }
{
    if key.len() != KEY_LEN {
        return None;
    }
    let mut bytes = [0; 18];
    let len = decode(key, &mut bytes)?;
    if len != NONCE_LEN {
        return None;
    }
    Some(copy_nonce(&bytes[..NONCE_LEN]))
}

/// The same 16 bytes as an array.
fn copy_nonce(bytes: &[u8]) -> [u8; 16]
    requires { length bytes.now ≡ 16 }
    ensures same { result ≡ bytes.now }
    ensures bytes { IsBytes result }
{
    let mut nonce = [0; NONCE_LEN];
    nonce.copy_from_slice(bytes);
    nonce
}

/// Decodes a text of a key's length, and answers how many bytes it is. `None` where it is no base64.
fn decode(key: &[u8], bytes: &mut [u8; 18]) -> Option<usize>
    requires { length key.now ≡ 24 }
    ensures found { IfSome result (λ len. (len ≤ 18) × (decode_of standard key.now ≡ Ok (take len bytes.new))) }
    ensures len { length bytes.new ≡ 18 }
    ensures none { IsNone result → IsErr (decode_of standard key.now) }
{
    match STANDARD.decode_slice_unchecked(key, bytes) {
        Ok(len) => Some(len),
        Err(_) => None,
    }
}
