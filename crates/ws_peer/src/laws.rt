//! Laws over the definitions, each the contract of a function that does nothing.

ghost use Rattle.std.specs.Prelude.{ℕ, List};
ghost use Rattle.ws_wire.specs.Header.{AreBytes, IsMaskingKey};
ghost use Rattle.ws_session.specs.Replies.{key_for};
ghost use Rattle.ws_scripts.specs.declared.transcript.Transcript.{Transcript};
ghost use Rattle.ws_suite.specs.declared.verdict.Verdict.TheVariants.{Pass};
ghost use Rattle.ws_suite.specs.Verdicts.{IsVerdictOf};
ghost use Rattle.ws_peer.specs.Apps.{AppHistory, IsAppTalk, IsFairToApps};
ghost use Rattle.ws_peer.specs.Talks.{Entry, PeerEnd, fed_in};
ghost use Rattle.ws_peer.specs.EchoTalks.{IsEchoTalk};
ghost use Rattle.ws_peer.specs.Runs.{IsRunOf};

use crate::lemmas::app_laws;
use ws_echo::echo_laws;
use ws_suite::laws::{
    an_apps_transcript_fails_nowhere, an_apps_transcript_passes, an_echos_transcript_passes,
};

/// Whatever was fed, lawful or not, in whatever pieces and turns: the transcript of a run whose talk is an echo's, be
/// it a server or a client that masks with some key, has the verdict Pass. `run_case_with` says of each peer which talk
/// it had.
pub fn an_echos_run_passes()
    ensures { (tested : PeerEnd) (turns : List (List (List ℕ))) (talk : List Entry) (transcript : Transcript) →
        IsRunOf turns talk transcript → IsEchoTalk tested talk → IsMaskingKey (key_for tested.role tested.key) →
        AreBytes (fed_in talk) → IsVerdictOf tested.role transcript Pass }
{
    echo_laws();
    an_echos_transcript_passes();
}

/// Whatever was fed, lawful or not, in whatever pieces and turns: on a run whose talk is an application's, be it a
/// server or a client that masks its answers with some key, the verdict by the protocol is no Fail where it has taken
/// all by the end of each turn; and it is Pass where it sends no close of its own.
pub fn an_apps_run_is_fair()
    ensures { (tested : PeerEnd) (turns : List (List (List ℕ))) (talk : List Entry) (said : ℕ → AppHistory)
        (transcript : Transcript) → IsRunOf turns talk transcript → IsAppTalk tested talk said →
        IsMaskingKey (key_for tested.role tested.key) → AreBytes (fed_in talk) →
        IsFairToApps tested.role tested.plan turns transcript }
{
    app_laws();
    an_apps_transcript_fails_nowhere();
    an_apps_transcript_passes();
}
