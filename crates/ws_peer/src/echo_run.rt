//! A script run over a new echo (RFC 6455 sections 5.4 to 5.6).

ghost use Rattle.std.specs.Prelude.{◌≡◌, IfOk};
ghost use Rattle.ws_wire.specs.declared.role.Role.TheVariants.{Server};
ghost use Rattle.ws_session.specs.Replies.{key_for};
ghost use Rattle.ws_scripts.specs.Scripts.{CanBeRun};
ghost use Rattle.ws_suite.specs.declared.verdict.Verdict.TheVariants.{Pass};
ghost use Rattle.ws_suite.specs.Evidence.{other_role};
ghost use Rattle.ws_suite.specs.Verdicts.{IsVerdictOf};
ghost use Rattle.ws_peer.specs.EchoRuns.{IsEchoRun};

use crate::echo_peer::EchoPeer;
use crate::laws::an_echos_run_passes;
use crate::lemmas::has_key_bytes;
use crate::running::run_case_with;
use std::alloc::Global;
use ws_base::NoMemory;
use ws_suite::{Case, Transcript};
use ws_wire::Role;

/// Runs a script over a new echo that is a server, its frames masked with `key`: `run_over_echo_as` of the role
/// `Server`. Whatever the script sends, lawful or not, the verdict of the transcript is Pass: where `judge` has the
/// memory that it asks for, it answers so.
pub fn run_over_echo(alloc: Global, case: &Case, key: [u8; 4]) -> Result<Transcript, NoMemory>
    requires { CanBeRun case.now }
    ensures run { IfOk result (λ transcript. IsEchoRun Server case.now key transcript) }
    ensures passes { IfOk result (λ transcript. IsVerdictOf Server transcript Pass) }
{
    let transcript = run_over_echo_as(alloc, Role::Server, case, key)?;
    Ok(transcript)
}

/// Runs a script over a new echo that has this role. The client masks its frames with `key`: it is the tester where the
/// echo is a server, else the echo. Whatever the script sends, lawful or not, the verdict of the transcript on a tested
/// end of this role is Pass: where `judge_end` has the memory that it asks for, it answers so.
pub fn run_over_echo_as(
    alloc: Global,
    tested: Role,
    case: &Case,
    key: [u8; 4],
) -> Result<Transcript, NoMemory>
    requires { CanBeRun case.now }
    ensures run { IfOk result (λ transcript. IsEchoRun tested case.now key transcript) }
    ensures passes { IfOk result (λ transcript. IsVerdictOf tested transcript Pass) }
{
    an_echos_run_passes();
    has_key_bytes(key);
    let mut peer = EchoPeer::with_role(alloc, tested, key);
    let transcript = run_case_with(alloc, case, &mut peer, tester_key(tested, key))?;
    Ok(transcript)
}

/// The key with which the tester masks its frames, if it is the client (RFC 6455 section 5.1).
pub fn tester_key(tested: Role, key: [u8; 4]) -> Option<[u8; 4]>
    ensures { result ≡ key_for (other_role tested) key }
{
    match tested {
        Role::Server => Some(key),
        Role::Client => None,
    }
}
