//! What a whole close frame says (RFC 6455 section 5.5.1).

ghost use Rattle.std.specs.Prelude.{◌≡◌, ℕ, ◌+◌, ◌≤◌, List, ◌++◌, length, Option, MatchResult};
ghost use Rattle.ws_session.specs.declared.message.Message.{Message};
ghost use Rattle.ws_session.specs.Events.{close_in};
ghost use Rattle.ws_wire.specs.Header.{HeaderFields};
ghost use Rattle.ws_session.specs.InnerMasked.{masked_from};
ghost use Rattle.ws_session.specs.InnerChecking.{reason_of_close, NoneInPayload, IsFirstInPayload};

use crate::control_payload::{Small, unmasked};
use crate::reason::Reason;
use ws_text::{Close, CloseFault, ClosePayload};
use ws_wire::Header;

/// What a close frame says, or what is wrong with it. Its payload is the bytes of it that came before, and these, which
/// are masked.
#[inline(never)]
pub(super) fn read_close(
    header: &Header,
    before: &[u8],
    more: &[u8],
) -> Result<Option<Close>, Reason>
    requires opcode { header.now.opcode ≡ 8 }
    requires whole { length before.now + length more.now ≡ header.now.len }
    requires short { header.now.len ≤ 125 }
    ensures { (opened : Option Message) (payload : List ℕ)
        → payload ≡ before.now ++ masked_from header.now.key (length before.now) more.now
        → MatchResult result
        (λ close. (close ≡ close_in payload) × NoneInPayload opened header.now payload)
        (λ reason. IsFirstInPayload opened header.now payload (length payload) reason) }
{
    // Most closes have a code alone and come whole.
    if before.is_empty() {
        if let [first, second] = more {
            let key = header.key();
            return close_of(&[unmasked(key, 0, *first), unmasked(key, 1, *second)]);
        }
    }
    let payload = Small::whole(before, header.key(), more);
    close_of(payload.as_slice())
}

/// What a whole close payload says, or what is wrong with it.
fn close_of(payload: &[u8]) -> Result<Option<Close>, Reason>
    requires { length payload.now ≤ 125 }
    ensures { (opened : Option Message) (header : HeaderFields) → header.opcode ≡ 8 → length payload.now ≡ header.len
        → MatchResult result
        (λ close. (close ≡ close_in payload.now) × NoneInPayload opened header payload.now)
        (λ reason. IsFirstInPayload opened header payload.now (length payload.now) reason) }
{
    match ClosePayload::read(payload) {
        Ok(close) => Ok(close),
        Err(fault) => Err(reason_of(fault)),
    }
}

/// The reason that a close payload gives.
fn reason_of(fault: CloseFault) -> Reason
    ensures { result ≡ reason_of_close fault }
{
    match fault {
        CloseFault::OneByte => Reason::CloseOneByte,
        CloseFault::BadCode => Reason::CloseCode,
        CloseFault::ReasonNotText => Reason::CloseReason,
    }
}
