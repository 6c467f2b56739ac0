//! The rules of a handshake, each by what is wrong with a head that breaks it.

ghost use Rattle.std.specs.Prelude.{◌≡◌};
ghost use Rattle.wst_testing.specs.HeadRules.{head_rule};

use ws_upgrade::HeadFault;

/// The rule that such a head breaks.
pub fn head_rule(fault: HeadFault) -> &'static str
    ensures { result.now ≡ head_rule fault }
{
    match fault {
        HeadFault::Head => "A server answers in HTTP (RFC 6455 section 4.2.2)",
        HeadFault::Method => "The method of a request is GET (RFC 6455 section 4.2.1)",
        HeadFault::Version => "A head is one of HTTP/1.1 (RFC 6455 sections 4.2.1 and 4.2.2)",
        HeadFault::Host => "A request has exactly one Host (RFC 6455 section 4.2.1)",
        HeadFault::Upgrade =>
            "A head has an Upgrade that names websocket (RFC 6455 sections 4.1 and 4.2.1)",
        HeadFault::Connection =>
            "A head has a Connection that names Upgrade (RFC 6455 sections 4.1 and 4.2.1)",
        HeadFault::Key =>
            "A request has exactly one Sec-WebSocket-Key, 16 bytes in base64 (RFC 6455 section 4.2.1)",
        HeadFault::WsVersion =>
            "A request has exactly one Sec-WebSocket-Version, and that is 13 (RFC 6455 section 4.2.1)",
        HeadFault::Status =>
            "A server accepts a connection with the status 101 (RFC 6455 section 4.1)",
        HeadFault::Accept =>
            "A response has exactly one Sec-WebSocket-Accept, the value for the key of the request \
             (RFC 6455 sections 4.1 and 4.2.2)",
        HeadFault::Extension =>
            "A response names no extension that was not offered, and none was (RFC 6455 section 4.1)",
        HeadFault::Protocol =>
            "A response names at most one subprotocol, and one that was offered (RFC 6455 section 4.1)",
        HeadFault::TooLarge => "A head has at most 8192 bytes and 64 headers (ours)",
    }
}
