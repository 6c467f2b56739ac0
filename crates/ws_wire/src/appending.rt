//! A whole frame, from its header and its payload to bytes (RFC 6455 section 5.2).

ghost use Rattle.std.specs.Prelude.{◌≡◌, ◌++◌, length, take, OnOk, OnErr, vec_len};
ghost use Rattle.std.specs.Bool.{OnTrue, OnFalse};
ghost use Rattle.ws_wire.specs.Header.{header_bytes};
ghost use Rattle.ws_wire.specs.Masking.{masked_payload};

use crate::{Header, mask};
use ws_base::NoMemory;

/// Appends a frame to `out`: the header, then the payload, masked from its first byte on where
/// the header has a key. The header's payload length is that of `payload`. The bytes are those of a
/// frame as it is sent where the header has the shortest form, as `Header::shortest` gives it.
/// `NoMemory` where `out` can't grow: then it holds what it held.
pub fn append_frame(header: &Header, payload: &[u8], out: &mut Vec<u8>) -> Result<(), NoMemory>
    requires { header.now.len ≡ length payload.now }
    ensures appended { OnOk result (out.new.items
        ≡ out.old.items ++ (header_bytes header.now ++ masked_payload header.now.key payload.now)) }
    ensures kept { OnErr result (out.new.items ≡ out.old.items) }
{
    let start = out.len();
    if !try_append(header, payload, out) {
        out.truncate(start);
        return Err(NoMemory);
    }
    Ok(())
}

/// Appends the frame to `out` and answers true, or appends a beginning of it and answers false.
fn try_append(header: &Header, payload: &[u8], out: &mut Vec<u8>) -> bool
    ensures whole { OnTrue result (out.new.items
        ≡ out.old.items ++ (header_bytes header.now ++ masked_payload header.now.key payload.now)) }
    ensures part { OnFalse result (take (vec_len out.old) out.new.items ≡ out.old.items) }
{
    let head = header.write();
    if out.extend_from_slice(head.as_slice()).is_err() {
        return false;
    }
    let from = out.len();
    if out.extend_from_slice(payload).is_err() {
        return false;
    }
    if let Some(key) = header.key() {
        mask(key, 0, &mut out[from..]);
    }
    true
}
