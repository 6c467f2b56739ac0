//! What the layer below and the types say, called where a proof stands on it. Nothing runs here.

ghost use Rattle.std.specs.Prelude.{Some};
ghost use Rattle.ws_wire.specs.Header.{IsMaskingKey};
ghost use Rattle.ws_peer.specs.InnerAppLaws.{AppLaws, SendLaws};

use ws_session::laws;

/// The laws of the layer below on what an endpoint is told and what it replies.
pub(crate) fn app_laws()
    ensures { AppLaws }
{
    laws::every_stream_has_events();
    laws::one_list_of_events();
    laws::events_go_on();
    laws::the_end_comes_last();
    laws::valid_frames_are_told();
    laws::replies_stay_valid();
    laws::replies_can_be_sent();
}

/// The laws of the layer below on what an endpoint may send.
pub(crate) fn send_laws()
    ensures { SendLaws }
{
    laws::one_list_of_events();
    laws::sends_stay_valid();
}

/// A key is four bytes, as its type says.
pub(crate) fn has_key_bytes(key: [u8; 4])
    ensures { IsMaskingKey (Some key) }
{}
