//! Laws over the definitions, each the contract of a function that does nothing: proofs of the layers above call them.

ghost use Rattle.std.specs.Prelude.{◌≡◌, ◌++◌, ℕ, Bool, false, true, List, []};
ghost use Rattle.std.specs.List.{concat};
ghost use Rattle.ws_wire.specs.declared.role.Role.{Role};
ghost use Rattle.ws_wire.specs.declared.role.Role.TheVariants.{Client, Server};
ghost use Rattle.ws_session.specs.declared.event.Event.{Event};
ghost use Rattle.ws_scripts.specs.declared.transcript.Ended.TheVariants.{Peer, Tester};
ghost use Rattle.ws_scripts.specs.declared.transcript.Transcript.{Transcript};
ghost use Rattle.ws_scripts.specs.declared.expectation.Expectation.{Expectation};
ghost use Rattle.ws_suite.specs.declared.verdict.FailWhy.{FailWhy};
ghost use Rattle.ws_suite.specs.declared.verdict.FailWhy.TheVariants as fail;
ghost use Rattle.ws_suite.specs.declared.verdict.LooseWhy.TheVariants as loose;
ghost use Rattle.ws_suite.specs.declared.verdict.Verdict.{Verdict};
ghost use Rattle.ws_suite.specs.declared.verdict.Verdict.TheVariants.{Fail, Loose, Pass};
ghost use Rattle.ws_suite.specs.AppFairness.{IsAppTranscript, SendsNoClose};
ghost use Rattle.ws_suite.specs.Evidence.{AreEventsByTurn, EndsWithByte, StandsInTurn, HoldsByte};
ghost use Rattle.ws_suite.specs.Examples.{close_got, close_sent, in_one_turn, in_two_turns, ping_sent, policy_got};
ghost use Rattle.ws_suite.specs.Examples.{pong_got, text_got, text_sent};
ghost use Rattle.ws_suite.specs.Fairness.{IsEchoTranscript};
ghost use Rattle.ws_suite.specs.Growing.{AreTurnsAnswered};
ghost use Rattle.ws_suite.specs.Protocol.{IsProtocolVerdictOf, IsVerdictBy};
ghost use Rattle.ws_suite.specs.Tapped.{IsTappedVerdictOf};
ghost use Rattle.ws_suite.specs.Verdicts.{IsVerdictOf};

use crate::lemmas::{echo_reply_laws, frame_laws, session_laws};

/// A transcript has one verdict on the tested end, as a server or as a client.
pub fn one_verdict()
    ensures { (tested : Role) (transcript : Transcript) (one other : Verdict) → IsVerdictOf tested transcript one →
        IsVerdictOf tested transcript other → one ≡ other }
{
    session_laws();
}

/// By whatever is expected of the tested end, an echo or the protocol alone, it has one verdict.
pub fn one_verdict_by()
    ensures { (expected : Expectation) (tested : Role) (transcript : Transcript) (one other : Verdict) →
        IsVerdictBy expected tested transcript one → IsVerdictBy expected tested transcript other → one ≡ other }
{
    session_laws();
}

/// And of an end that was tapped.
pub fn one_tapped_verdict()
    ensures { (tested : Role) (is_first : Bool) (transcript : Transcript) (one other : Verdict) →
        IsTappedVerdictOf tested is_first transcript one → IsTappedVerdictOf tested is_first transcript other →
        one ≡ other }
{
    session_laws();
}

/// Whatever was sent, lawful or not, in whatever turns: the transcript of a tester and an echo, be it a server or a
/// client, has the verdict Pass.
pub fn an_echos_transcript_passes()
    ensures { (tested : Role) (transcript : Transcript) → IsEchoTranscript tested transcript →
        IsVerdictOf tested transcript Pass }
{
    echo_reply_laws();
}

/// Whatever was sent, lawful or not, in whatever turns: the transcript of a tester and an application that keeps the
/// protocol, be it a server or a client, has no Fail by the protocol.
pub fn an_apps_transcript_fails_nowhere()
    ensures { (tested : Role) (transcript : Transcript) (why : FailWhy) → IsAppTranscript tested transcript →
        ¬ (IsProtocolVerdictOf tested transcript (Fail why)) }
{
    echo_reply_laws();
}

/// Where the application sends no close of its own, it passes.
pub fn an_apps_transcript_passes()
    ensures { (tested : Role) (transcript : Transcript) (app : IsAppTranscript tested transcript) →
        SendsNoClose tested transcript app → IsProtocolVerdictOf tested transcript Pass }
{
    echo_reply_laws();
}

/// An event stands in the turn that holds its last byte: the last one of the fewest bytes that have the event.
pub fn events_stand_with_their_last_byte()
    ensures { (role : Role) (turns : List (List ℕ)) (events : List (List Event)) (turn place n : ℕ) →
        AreEventsByTurn role turns events → StandsInTurn events turn place →
        EndsWithByte role (concat turns) place n → HoldsByte turns turn n }
{
    session_laws();
}

/// Worked examples: a ping whose pong comes in its turn; the same where the server ends the connection; a pong that
/// comes in the turn before its ping; a ping without a pong; and two pings of which the second alone is answered.
pub fn worked_verdicts()
    ensures answered { IsVerdictOf Server (in_one_turn ping_sent pong_got Tester) Pass }
    ensures ended { IsVerdictOf Server (in_one_turn ping_sent pong_got Peer) (Fail fail.End) }
    ensures early { IsVerdictOf Server (in_two_turns [] pong_got ping_sent [] Tester) (Fail fail.Early) }
    ensures silent { IsVerdictOf Server (in_one_turn ping_sent [] Tester) (Fail fail.Pongs) }
    ensures latest { IsVerdictOf Server (in_one_turn (ping_sent ++ ping_sent) pong_got Tester)
        (Loose loose.PongsSkipped) }
{
    frame_laws();
}

/// Worked examples of verdicts by the protocol alone: a server sends a message of its own, and then ends the
/// connection, or closes it; it answers a close, and not the ping before it; and it ends the connection at a close.
pub fn worked_protocol_verdicts()
    ensures own_message { IsProtocolVerdictOf Server (in_one_turn text_sent text_got Tester) Pass }
    ensures own_end { IsProtocolVerdictOf Server (in_one_turn text_sent text_got Peer) (Loose loose.OwnEnd) }
    ensures own_close { IsProtocolVerdictOf Server (in_one_turn text_sent (text_got ++ policy_got) Peer)
        (Loose loose.OwnClose) }
    ensures no_pong { IsProtocolVerdictOf Server (in_two_turns ping_sent [] close_sent close_got Peer)
        (Fail fail.Pongs) }
    ensures no_close { IsProtocolVerdictOf Server (in_one_turn close_sent [] Peer) (Fail fail.Close) }
{
    frame_laws();
    session_laws();
}

/// Worked examples of verdicts on a tapped server: it sends a message of its own and ends the connection, first or not;
/// it closes it; and it ends it at a close.
pub fn worked_tapped_verdicts()
    ensures first_end { IsTappedVerdictOf Server true (in_one_turn text_sent text_got Peer) (Loose loose.OwnEnd) }
    ensures second_end { IsTappedVerdictOf Server false (in_one_turn text_sent text_got Peer) Pass }
    ensures own_close { IsTappedVerdictOf Server false (in_one_turn text_sent (text_got ++ policy_got) Peer) Pass }
    ensures no_close { IsTappedVerdictOf Server true (in_one_turn close_sent [] Peer) (Fail fail.Close) }
{
    frame_laws();
    session_laws();
}

/// Worked examples of what has come for a ping: its pong in its turn answers it; none doesn't, nor does one that comes
/// in the turn before; and of two pings one pong answers the latter.
pub fn worked_answers()
    ensures answered { AreTurnsAnswered Server (in_one_turn ping_sent pong_got Tester).turns }
    ensures silent { ¬ (AreTurnsAnswered Server (in_one_turn ping_sent [] Tester).turns) }
    ensures early { ¬ (AreTurnsAnswered Server (in_two_turns [] pong_got ping_sent [] Tester).turns) }
    ensures latest { AreTurnsAnswered Server (in_one_turn (ping_sent ++ ping_sent) pong_got Tester).turns }
{
    frame_laws();
    session_laws();
}
