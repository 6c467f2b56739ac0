//! The laws of the layer below, for proofs.

ghost use Rattle.ws_wire.specs.Header.{AreBytes};
ghost use Rattle.ws_suite.specs.InnerCollecting.{FrameLaws, EventLaws};
ghost use Rattle.ws_suite.specs.InnerEchoReplyLaws.{EchoReplyLaws};

use ws_session::laws;
use ws_wire::laws as wire_laws;

/// The laws of the layer below that serve here. Nothing runs.
pub(crate) fn session_laws()
    ensures { EventLaws }
{
    laws::one_list_of_events();
    laws::events_go_on();
}

/// Those that speak of valid frames.
pub(crate) fn frame_laws()
    ensures { FrameLaws }
{
    laws::one_list_of_events();
    laws::valid_frames_are_told();
    laws::greater_limits_pass_none();
    wire_laws::one_split();
}

/// Those that speak of what an echo owes.
pub(crate) fn echo_reply_laws()
    ensures { EchoReplyLaws }
{
    frame_laws();
    session_laws();
    laws::every_stream_has_events();
    laws::the_end_comes_last();
    laws::replies_go_on();
    laws::echo_replies_stay_valid();
    laws::echo_replies_can_be_sent();
    laws::keys_fit_the_other_role();
}

/// Each of these bytes is one. Nothing runs.
pub(crate) fn are_bytes(bytes: &[u8])
    ensures { AreBytes bytes.now }
{}
