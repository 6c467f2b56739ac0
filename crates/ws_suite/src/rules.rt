//! The rule behind a verdict, as a sentence.

ghost use Rattle.std.specs.Prelude.{◌≡◌, option_map};
ghost use Rattle.ws_scripts.specs.declared.expectation.Expectation.TheVariants.{Echo};
ghost use Rattle.ws_suite.specs.Words.{fail_rule, loose_rule, protocol_loose_rule, protocol_rule, rule_words};

use crate::verdict::{FailWhy, LooseWhy, Verdict};
use ws_scripts::Expectation;
use ws_wire::Role;

/// The rule that the verdict on an end of this role speaks of, in one line of ASCII that names its section of RFC 6455,
/// or says that the rule is ours: `rule_with` of an end that is to echo. `None` of a Pass.
pub fn rule(tested: Role, verdict: Verdict) -> Option<&'static str>
    ensures { option_map (λ words. words.now) result ≡ rule_words tested Echo verdict }
{
    rule_with(tested, Expectation::Echo, verdict)
}

/// The same of an end of which this is expected. By the protocol each Fail has the sentence of the standard that orders
/// it, and so has the Loose of a pong that is missing, which may be that for the last ping.
pub fn rule_with(tested: Role, expected: Expectation, verdict: Verdict) -> Option<&'static str>
    ensures { option_map (λ words. words.now) result ≡ rule_words tested expected verdict }
{
    match verdict {
        Verdict::Pass => None,
        Verdict::Loose(why) => Some(match expected {
            Expectation::Echo => loose_rule(tested, why),
            Expectation::Protocol => protocol_loose_rule(tested, why),
        }),
        Verdict::Fail(why) => Some(match expected {
            Expectation::Echo => fail_rule(tested, why),
            Expectation::Protocol => protocol_rule(tested, why),
        }),
    }
}

/// The rule that was broken.
fn fail_rule(tested: Role, why: FailWhy) -> &'static str
    ensures { result.now ≡ fail_rule tested why }
{
    match why {
        FailWhy::NotFrames => match tested {
            Role::Server =>
                "All that a server sends must be valid (the last `got` line says what was not): unmasked \
                 frames in a valid order, with valid lengths and close payloads (RFC 6455 section 5), text in \
                 UTF-8 (section 8.1), no end inside a frame and nothing after its close frame (both ours)",
            Role::Client =>
                "All that a client sends must be valid (the last `got` line says what was not): masked frames \
                 in a valid order, with valid lengths and close payloads (RFC 6455 section 5), text in UTF-8 \
                 (section 8.1), no end inside a frame and nothing after its close frame (both ours)",
        },
        FailWhy::Early =>
            "A pong, a close frame or an echo is sent only after what it answers (ours; RFC 6455 allows \
             unprompted pongs in section 5.5.3 and, from a server, an unprompted close in section 7.3)",
        FailWhy::Messages =>
            "An echo sends back each message, in order, with its kind and payload (ours; RFC 6455 \
             sections 5.4 and 5.6 define a message); after a violation nothing is sent back, and \
             messages just before it may be missing",
        FailWhy::Pongs =>
            "A pong answers a ping (ours) with its payload (RFC 6455 section 5.5.3), and no ping is answered twice \
             (ours). The last ping, or the last before a violation, is always answered (section 5.5.2), and none \
             after a violation (section 7.1.7)",
        FailWhy::Close =>
            "A close frame is answered by a close frame (RFC 6455 section 5.5.1), and none is sent unless \
             a close frame or a violation was received (ours)",
        FailWhy::End => match tested {
            Role::Server =>
                "After a close frame (RFC 6455 section 5.5.1) or a violation (section 7.1.7; ours where the broken \
                 rule is), a server ends the connection; without either, it does not (ours)",
            Role::Client =>
                "After a close frame or a violation, a client sends a close frame or ends the \
                 connection (RFC 6455 sections 5.5.1 and 7.1.7); otherwise it does not end it \
                 (ours)",
        },
    }
}

/// The rule that asks or allows otherwise.
fn loose_rule(tested: Role, why: LooseWhy) -> &'static str
    ensures { result.now ≡ loose_rule tested why }
{
    match why {
        LooseWhy::PongsSkipped =>
            "Of several pings, only the last needs an answer (RFC 6455 section 5.5.3)",
        LooseWhy::PongElsewhere =>
            "A pong is sent as soon as is practical (RFC 6455 section 5.5.2); the reference echo sends \
             pongs and messages in the order of what they answer (ours)",
        LooseWhy::OtherCode =>
            "A close frame after a violation has the code for that violation (RFC 6455 section \
             7.4.1), and one that answers a valid close frame typically has its code (section \
             5.5.1); another code is told also of an endpoint that closes first (ours)",
        LooseWhy::LateEnd => match tested {
            Role::Server =>
                "After a close frame a server closes the connection immediately (RFC 6455 section 5.5.1), and \
                 after a violation it should (section 7.1.1)",
            Role::Client =>
                "A client should answer a close frame as soon as is practical (RFC 6455 section 5.5.1), and \
                 should send one at a violation at which it fails the connection (section 7.1.7); that it \
                 does so in the same turn is ours",
        },
        LooseWhy::EchoShort =>
            "An endpoint that fails the connection may drop what it has read (RFC 6455 section 7.1.7); \
             the reference echo answers it (ours)",
        LooseWhy::BrokenEnd =>
            "A connection should be closed cleanly (RFC 6455 section 7.1.1), but a read or a write failed",
        LooseWhy::OwnFault =>
            "An endpoint closes with 1002 because of a protocol error, and with 1007 because of data that \
             does not fit its type (RFC 6455 section 7.4.1), but no complete violation was sent before",
        LooseWhy::OwnClose => match tested {
            Role::Server =>
                "A server may close the connection whenever desired (RFC 6455 section 7.3)",
            Role::Client =>
                "A client should not close the connection arbitrarily (RFC 6455 section 7.3)",
        },
        LooseWhy::OwnEnd =>
            "An endpoint closes the connection by a close frame first (RFC 6455 section 7.1.2); when \
             necessary it may close it by any means (section 7.1.1), and at data that it does not understand \
             it may drop it (section 10.7)",
        LooseWhy::LateFault =>
            "How an endpoint fails the connection at a violation is in RFC 6455 section 7.1.7, and when is \
             not; the frame with the violation, or the message with invalid text, was not sent completely",
        LooseWhy::Tolerated =>
            "The rules for lengths, fragments and control frames bind the sender (RFC 6455 sections 5.2, 5.4 \
             and 5.5), and none bounds a message (section 10.4); the receiver may fail the connection or not",
        LooseWhy::NoClose =>
            "A close frame is answered by one (RFC 6455 section 5.5.1), and an endpoint that has to fail the \
             connection closes it (section 7.1.7); it may not have read so far, or was sending a message of \
             its own",
        LooseWhy::BehindClose =>
            "No data frame follows a close frame (RFC 6455 section 5.5.1); that no control frame follows \
             one is ours",
        LooseWhy::TooBig =>
            "A message has at most 16777216 bytes (ours; RFC 6455 section 10.4 leaves the limit to each \
             endpoint)",
    }
}

/// The rule of the standard that an end broke which needn't echo. It has no rule that an echo alone keeps.
fn protocol_rule(tested: Role, why: FailWhy) -> &'static str
    ensures { result.now ≡ protocol_rule tested why }
{
    match why {
        FailWhy::NotFrames => match tested {
            Role::Server =>
                "All that a server sends must be valid (the last `got` line says what was not): unmasked \
                 frames in a valid order (RFC 6455 section 5), text in UTF-8 (section 8.1), close codes that \
                 may be sent (section 7.4) and no data frame after its close frame (section 5.5.1); that it \
                 does not end inside a frame is ours",
            Role::Client =>
                "All that a client sends must be valid (the last `got` line says what was not): masked frames \
                 in a valid order (RFC 6455 section 5), text in UTF-8 (section 8.1), close codes that may be \
                 sent (section 7.4) and no data frame after its close frame (section 5.5.1); that it does not \
                 end inside a frame is ours",
        },
        FailWhy::Early | FailWhy::Messages => fail_rule(tested, why),
        FailWhy::Pongs =>
            "An endpoint that receives a ping sends a pong with its payload, unless it has already \
             received a close frame (RFC 6455 section 5.5.2); a pong for the latest ping is enough \
             (section 5.5.3)",
        FailWhy::Close =>
            "An endpoint that receives a close frame, and has sent none, sends one (RFC 6455 section 5.5.1); \
             one that drops the connection just before the close frame comes looks the same (that this is a \
             FAIL is ours)",
        FailWhy::End => match tested {
            Role::Server =>
                "A server closes the connection when it has to fail it after a violation (RFC 6455 sections \
                 5.1, 5.2, 7.1.7 and 8.1), and immediately when it has sent and received a close frame \
                 (section 5.5.1)",
            Role::Client =>
                "A client that has to fail the connection closes it (RFC 6455 sections 5.1, 5.2, 7.1.7 and \
                 8.1), and should send a close frame before (section 7.1.7); it also answers a close frame by \
                 one (section 5.5.1)",
        },
    }
}

/// The rule that allows what an end did which needn't echo. It is another than that of an echo only where a pong is
/// missing.
fn protocol_loose_rule(tested: Role, why: LooseWhy) -> &'static str
    ensures { result.now ≡ protocol_loose_rule tested why }
{
    match why {
        LooseWhy::PongsSkipped =>
            "A ping needs no answer if a later one is answered (RFC 6455 section 5.5.3), or if the endpoint \
             may not have read it or was sending a data frame: frames are not interleaved (section 5.4), and \
             a pong should come as soon as is practical (section 5.5.2)",
        _ => loose_rule(tested, why),
    }
}
