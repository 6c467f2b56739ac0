//! What a frame is that begins with a header, by its opcode (RFC 6455 sections 5.2 and 5.4 to 5.6).

ghost use Rattle.std.specs.Prelude.{◌≡◌, ◌≤◌, ◌⊎◌, ◌↔◌, IsTrue};
ghost use Rattle.ws_session.specs.Faults.{IsControl};
ghost use Rattle.ws_session.specs.PingsAndPongs.{means_ping_or_pong};

use ws_wire::{Header, Opcode};

/// Whether it is a data frame (section 5.6).
pub(super) fn is_data(header: &Header) -> bool
    ensures { IsTrue result ↔ (header.now.opcode ≤ 2) }
{
    match header.kind() {
        Opcode::Continuation | Opcode::Text | Opcode::Binary => true,
        Opcode::Close | Opcode::Ping | Opcode::Pong | Opcode::Reserved(_) => false,
    }
}

/// Whether it is a control frame (section 5.5).
pub(super) fn is_control(header: &Header) -> bool
    ensures { IsTrue result ↔ IsControl header.now }
{
    match header.kind() {
        Opcode::Close | Opcode::Ping | Opcode::Pong => true,
        Opcode::Continuation | Opcode::Text | Opcode::Binary | Opcode::Reserved(_) => false,
    }
}

/// Whether it is a close frame (section 5.5.1).
pub(super) fn is_close(header: &Header) -> bool
    ensures { IsTrue result ↔ (header.now.opcode ≡ 8) }
{
    matches!(header.kind(), Opcode::Close)
}

/// Whether it is a ping or a pong (sections 5.5.2 and 5.5.3).
pub(super) fn is_ping_or_pong(header: &Header) -> bool
    ensures { result ≡ means_ping_or_pong header.now.opcode }
{
    matches!(header.kind(), Opcode::Ping | Opcode::Pong)
}

/// Whether its opcode is reserved (section 5.2).
pub(super) fn is_reserved(header: &Header) -> bool
    ensures { IsTrue result
        ↔ (((3 ≤ header.now.opcode) × (header.now.opcode ≤ 7)) ⊎ (11 ≤ header.now.opcode)) }
{
    matches!(header.kind(), Opcode::Reserved(_))
}

/// Whether it goes on with a message (section 5.4).
pub(super) fn continues_message(header: &Header) -> bool
    ensures { IsTrue result ↔ (header.now.opcode ≡ 0) }
{
    matches!(header.kind(), Opcode::Continuation)
}

/// Whether it begins a message (section 5.4).
pub(super) fn begins_message(header: &Header) -> bool
    ensures { IsTrue result ↔ ((header.now.opcode ≡ 1) ⊎ (header.now.opcode ≡ 2)) }
{
    matches!(header.kind(), Opcode::Text | Opcode::Binary)
}

/// Whether it begins a text (section 5.6).
pub(super) fn begins_text(header: &Header) -> bool
    ensures { IsTrue result ↔ (header.now.opcode ≡ 1) }
{
    matches!(header.kind(), Opcode::Text)
}
