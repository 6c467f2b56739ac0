//! Whether the frame under way is a ping or a pong (RFC 6455 sections 5.5.2 and 5.5.3).

ghost use Rattle.std.specs.Prelude.{◌≡◌};
ghost use Rattle.ws_session.specs.PingsAndPongs.{begins_ping_or_pong};

use crate::receiver::Receiver;
use crate::receiver::header_kind::is_ping_or_pong;
use crate::receiver::under_way::UnderWay;

impl Receiver {
    /// Whether a ping or a pong has begun to come.
    pub(crate) fn is_in_ping_or_pong(&self) -> bool
        ensures { result ≡ begins_ping_or_pong self.now.partial_frame }
    {
        match &self.frame {
            UnderWay::Header(start) => begins_ping_or_pong(start.as_slice()),
            UnderWay::Data { .. } => false,
            UnderWay::Control { header, .. } => is_ping_or_pong(header),
        }
    }
}

/// Whether the first bytes of a header are those of a ping or a pong.
fn begins_ping_or_pong(start: &[u8]) -> bool
    ensures { result ≡ begins_ping_or_pong start.now }
{
    match start {
        [] => false,
        [first, ..] => {
            let opcode = *first % 16;
            opcode == 9 || opcode == 10
        }
    }
}
