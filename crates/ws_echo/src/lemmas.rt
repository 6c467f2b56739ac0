//! What the layer below says of bytes, called where a proof stands on it. Nothing runs here.

ghost use Rattle.ws_echo.specs.EchoLaws.{EchoLaws};

use ws_session::laws;

/// The laws of the layer below on what an echo makes of bytes.
pub fn echo_laws()
    ensures { EchoLaws }
{
    laws::one_list_of_events();
    laws::events_go_on();
    laws::replies_go_on();
    laws::valid_frames_are_told();
}
