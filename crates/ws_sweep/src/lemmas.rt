//! The laws of the layers below, for proofs.

ghost use Rattle.ws_wire.specs.Header.{IsMaskingKey};
ghost use Rattle.ws_sweep.specs.InnerLaws.{EndLaws, OneListOfEvents};

use ws_session::laws;

/// Those that speak of events. Nothing runs.
pub(crate) fn event_laws()
    ensures { OneListOfEvents }
{
    laws::one_list_of_events();
}

/// Those that speak of a close or a fault and what follows it.
pub(crate) fn end_laws()
    ensures { EndLaws }
{
    laws::every_stream_has_events();
    laws::events_go_on();
    laws::the_end_comes_last();
}

/// A key is four bytes, as its type says, where there is one.
pub(crate) fn law_masking_key(key: Option<[u8; 4]>)
    ensures { IsMaskingKey key }
{
    match key {
        Some(_) => {}
        None => {}
    }
}
