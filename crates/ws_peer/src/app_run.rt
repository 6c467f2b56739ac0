//! A script run over a new application that needn't echo (RFC 6455 sections 5.4 to 5.6).

ghost use Rattle.std.specs.Prelude.{List, ℕ, IfOk};
ghost use Rattle.ws_scripts.specs.Scripts.{CanBeRun};
ghost use Rattle.ws_peer.specs.Apps.{IsAppRun, IsFairToApps, planned_in};

use crate::app_peer::{AppPeer, AppStep};
use crate::echo_run::tester_key;
use crate::laws::an_apps_run_is_fair;
use crate::lemmas::has_key_bytes;
use crate::running::run_case_with;
use std::alloc::Global;
use ws_base::NoMemory;
use ws_suite::{Case, Transcript};
use ws_wire::Role;

/// Runs a script over a new application that has this role and this plan. The client masks its frames, but those of the
/// plan, with `key`: it is the tester where the application is a server, else the application. Whatever the script
/// sends, lawful or not, and whatever the application sends, the verdict by the protocol on it is no Fail where it has
/// taken all by the end of each turn; and it is Pass where it sends no close of its own.
pub fn run_over_app(
    alloc: Global,
    tested: Role,
    case: &Case,
    key: [u8; 4],
    plan: Vec<AppStep>,
) -> Result<Transcript, NoMemory>
    requires { CanBeRun case.now }
    ensures { IfOk result (λ transcript. (turns : List (List (List ℕ)))
        × IsAppRun tested case.now key (planned_in plan.items) turns transcript
        × IsFairToApps tested (planned_in plan.items) turns transcript) }
{
    an_apps_run_is_fair();
    has_key_bytes(key);
    let mut peer = AppPeer::new(alloc, tested, key, plan);
    let transcript = run_case_with(alloc, case, &mut peer, tester_key(tested, key))?;
    Ok(transcript)
}
