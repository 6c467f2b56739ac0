//! What the layer below and the types say, called where a proof stands on it. Nothing runs here.

ghost use Rattle.std.specs.Prelude.{Some};
ghost use Rattle.ws_wire.specs.Header.{IsMaskingKey};
ghost use Rattle.ws_pair.specs.InnerPlaying.{LawsOfEachSession};

use ws_session::laws;

/// A key is four bytes, as its type says.
pub(crate) fn has_key_bytes(key: [u8; 4])
    ensures { IsMaskingKey (Some key) }
{}

/// The laws of the layer below that serve here.
pub(crate) fn session_laws()
    ensures { LawsOfEachSession }
{
    laws::one_list_of_events();
    laws::events_go_on();
    laws::replies_go_on();
    laws::appended_frames_are_not_within();
    laws::more_bytes_after_the_last();
    laws::valid_frames_are_told();
    laws::messages_are_told();
    laws::sends_stay_valid();
    laws::replies_stay_valid();
    laws::replies_can_be_sent();
}
