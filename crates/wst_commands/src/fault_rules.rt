//! The rule that a fault breaks, as a sentence.

ghost use Rattle.std.specs.Prelude.{◌≡◌, option_map};
ghost use Rattle.wst_commands.specs.FaultRules.{doomed_rule, ending_rule, got_rule, reason_rule, sender_rule};
ghost use Rattle.wst_commands.specs.FaultRules.{sender_rule_of, sent_rule};

use ws_session::Reason;
use ws_suite::{Ending, FailWhy, InTurn, Verdict};

/// The rule that what was sent breaks, if it ends with a fault or is doomed.
pub(crate) fn sent_rule(sent: &Option<InTurn<Ending>>) -> Option<&'static str>
    ensures { option_map (λ words. words.now) result ≡ sent_rule sent.now }
{
    match sent {
        None => None,
        Some(ending) => ending_rule(&ending.what),
    }
}

/// The rule that what ends here breaks. A close breaks none.
fn ending_rule(ending: &Ending) -> Option<&'static str>
    ensures { option_map (λ words. words.now) result ≡ ending_rule ending.now }
{
    match ending {
        Ending::Closed(_) => None,
        Ending::Failed(reason) => Some(reason_rule(*reason)),
        Ending::Doomed => Some(doomed_rule()),
    }
}

/// The rule of bytes that can become no valid frame.
fn doomed_rule() -> &'static str
    ensures { result.now ≡ doomed_rule }
{
    "What was sent cannot become a valid frame, whatever follows, so the connection may be failed before \
     the rest arrives (RFC 6455 section 7.1.7; ours)"
}

/// The rule that the bytes of this fault break.
fn reason_rule(reason: Reason) -> &'static str
    ensures { result.now ≡ reason_rule reason }
{
    match reason {
        Reason::ReservedBits =>
            "A reserved bit is 0 unless an extension defines it, and an endpoint that receives a 1 fails \
             the connection (RFC 6455 section 5.2)",
        Reason::Opcode =>
            "A frame has a defined opcode, and an endpoint that receives another opcode fails the \
             connection (RFC 6455 section 5.2)",
        Reason::MaskWrong =>
            "A client masks its frames, a server does not, and an endpoint that receives the opposite \
             closes the connection (RFC 6455 section 5.1)",
        Reason::NotShortest =>
            "A length is written in the shortest form that holds it (RFC 6455 section 5.2); that \
             the receiver fails the connection otherwise is ours",
        Reason::BadLength =>
            "The top bit of a length in eight bytes is 0 (RFC 6455 section 5.2); that the receiver \
             fails the connection otherwise is ours",
        Reason::ControlCut =>
            "A control frame is not fragmented (RFC 6455 sections 5.4 and 5.5); that the receiver \
             fails the connection otherwise is ours",
        Reason::ControlLong =>
            "A control frame has at most 125 bytes of payload (RFC 6455 section 5.5); that the \
             receiver fails the connection otherwise is ours",
        Reason::NothingToContinue =>
            "A continuation follows the first fragment of its message (RFC 6455 section 5.4); that \
             the receiver fails the connection otherwise is ours",
        Reason::MessageOpen =>
            "The fragments of a message are not interleaved with another message (RFC 6455 section \
             5.4); that the receiver fails the connection otherwise is ours",
        Reason::TooBig =>
            "A message has at most 16777216 bytes (ours; RFC 6455 section 10.4 leaves the limit to each \
             endpoint)",
        Reason::NotText =>
            "A text message is UTF-8, and an endpoint that is to interpret other bytes as such fails \
             the connection (RFC 6455 section 8.1)",
        Reason::TextCut =>
            "A text message is UTF-8 as a whole, so it ends after a whole character (RFC 6455 sections \
             5.6 and 8.1)",
        Reason::CloseOneByte =>
            "The payload of a close frame is empty or begins with a code of two bytes (RFC 6455 \
             section 5.5.1); that the receiver fails the connection otherwise is ours",
        Reason::CloseCode =>
            "A close frame has a code that may be sent (RFC 6455 sections 7.4.1 and 7.4.2); that \
             the receiver fails the connection otherwise is ours",
        Reason::CloseReason =>
            "The reason of a close frame is UTF-8 (RFC 6455 section 5.5.1), and an endpoint that is \
             to interpret other bytes as such fails the connection (section 8.1)",
        Reason::FrameBig =>
            "A data frame is at most as large as its receiver accepts (ours; RFC 6455 section 10.4 leaves \
             the limit to each endpoint)",
    }
}

/// The rule that what came breaks, if the verdict is about that.
pub(crate) fn got_rule(verdict: Verdict, got: &Option<InTurn<Ending>>) -> Option<&'static str>
    ensures { option_map (λ words. words.now) result ≡ got_rule verdict got.now }
{
    match (verdict, got) {
        (Verdict::Fail(FailWhy::NotFrames), Some(ending)) => sender_rule_of(&ending.what),
        _ => None,
    }
}

/// The rule of the end that sends, which what ends here breaks. A close breaks none.
fn sender_rule_of(ending: &Ending) -> Option<&'static str>
    ensures { option_map (λ words. words.now) result ≡ sender_rule_of ending.now }
{
    match ending {
        Ending::Closed(_) => None,
        Ending::Failed(reason) => Some(sender_rule(*reason)),
        Ending::Doomed => None,
    }
}

/// The rule of the end that sends, which the bytes of this fault break.
fn sender_rule(reason: Reason) -> &'static str
    ensures { result.now ≡ sender_rule reason }
{
    match reason {
        Reason::ReservedBits =>
            "A sender sets a reserved bit only if an extension defines it (RFC 6455 section 5.2)",
        Reason::Opcode =>
            "A sender uses no opcode but those that are defined: 0, 1, 2, 8, 9 and 10 (RFC 6455 section \
             5.2)",
        Reason::MaskWrong =>
            "A client masks all frames that it sends, and a server masks none (RFC 6455 section 5.1)",
        Reason::NotShortest =>
            "A sender writes a length in the shortest form that holds it (RFC 6455 section 5.2)",
        Reason::BadLength =>
            "A sender leaves the top bit of a length in eight bytes at 0 (RFC 6455 section 5.2)",
        Reason::ControlCut =>
            "A sender never fragments a control frame (RFC 6455 sections 5.4 and 5.5)",
        Reason::ControlLong =>
            "A sender puts at most 125 bytes of payload into a control frame (RFC 6455 section 5.5)",
        Reason::NothingToContinue =>
            "A sender continues a message only after its first fragment (RFC 6455 section 5.4)",
        Reason::MessageOpen =>
            "A sender begins no message before the last fragment of the one before (RFC 6455 section \
             5.4)",
        Reason::TooBig =>
            "A message has at most 16777216 bytes (ours; RFC 6455 section 10.4 leaves the limit to each \
             endpoint)",
        Reason::NotText =>
            "A sender puts nothing but UTF-8 into a text message (RFC 6455 sections 5.6 and 8.1)",
        Reason::TextCut =>
            "A sender ends a text message after a whole character of UTF-8 (RFC 6455 sections 5.6 and \
             8.1)",
        Reason::CloseOneByte =>
            "A sender leaves a close frame empty or begins it with a code of two bytes (RFC 6455 \
             section 5.5.1)",
        Reason::CloseCode =>
            "A sender closes only with a code that may be sent (RFC 6455 sections 7.4.1 and 7.4.2)",
        Reason::CloseReason =>
            "A sender gives the reason of a close frame in UTF-8 (RFC 6455 section 5.5.1)",
        Reason::FrameBig =>
            "A data frame is at most as large as its receiver accepts (ours; RFC 6455 section 10.4 \
             leaves the limit to each endpoint)",
    }
}
