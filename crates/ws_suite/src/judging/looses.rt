//! The six Looses, in their order.

ghost use Rattle.std.specs.Prelude.{◌≡◌, ◌↔◌, IsTrue};
ghost use Rattle.ws_suite.specs.InnerJudging.{AreFindingsOf, IsFirstLoose, without_pings};
ghost use Rattle.ws_suite.specs.Matching.{IsCodeFor};
ghost use Rattle.ws_suite.specs.Verdicts.{EchoesShort, EndsLate, HasOtherCode, SkipsPongs};

use crate::evidence::{Ending, Evidence, ends_with_fault, is_close_in_turn};
use crate::judging::findings::Findings;
use crate::verdict::LooseWhy;
use ws_scripts::Ended;
use ws_wire::Role;

/// The lowest Loose that applies.
pub(super) fn first_loose(tested: Role, x: &Evidence, found: Findings) -> Option<LooseWhy>
    requires { AreFindingsOf (without_pings x.now) found }
    ensures { IsFirstLoose tested (without_pings x.now) result }
{
    if skips_pongs(x, found) {
        return Some(LooseWhy::PongsSkipped);
    }
    if !found.keeps_order {
        return Some(LooseWhy::PongElsewhere);
    }
    if has_other_code(x) {
        return Some(LooseWhy::OtherCode);
    }
    if ends_late(tested, x) {
        return Some(LooseWhy::LateEnd);
    }
    if echoes_short(x, found) {
        return Some(LooseWhy::EchoShort);
    }
    if x.ended == Ended::Broken {
        return Some(LooseWhy::BrokenEnd);
    }
    None
}

/// Whether there are fewer pongs than are due, and the last one is there.
fn skips_pongs(x: &Evidence, found: Findings) -> bool
    requires { AreFindingsOf (without_pings x.now) found }
    ensures { IsTrue result ↔ SkipsPongs (without_pings x.now) }
{
    found.is_short_of_pongs && found.has_last_pong
}

/// Whether a close was got with another code than is due or right.
pub(super) fn has_other_code(x: &Evidence) -> bool
    ensures { IsTrue result ↔ HasOtherCode (without_pings x.now) }
{
    match (&x.got.ending, &x.due.ending) {
        (Some(got), Some(due)) => match got.what {
            Ending::Closed(code) => !is_code_for(&due.what, code),
            Ending::Failed(_) | Ending::Doomed => false,
        },
        _ => false,
    }
}

/// Whether a close has the code, or the want of one, that is due for a close or right for a fault. No code is asked
/// where the fault has not come.
fn is_code_for(ending: &Ending, code: Option<u16>) -> bool
    ensures { IsTrue result ↔ IsCodeFor ending.now code }
{
    match ending {
        Ending::Closed(due) => code == *due,
        Ending::Failed(reason) => code == Some(reason.close_code()),
        Ending::Doomed => true,
    }
}

/// Whether the close or the fault that was sent stands in a turn before the last. Of a client that answered it by a
/// close in its turn no more is asked.
pub(super) fn ends_late(tested: Role, x: &Evidence) -> bool
    ensures { IsTrue result ↔ EndsLate tested (without_pings x.now) }
{
    match &x.due.ending {
        Some(due) => {
            due.turn < x.turns
                && due.turn + 1 < x.turns
                && (tested == Role::Server || !is_close_in_turn(&x.got.ending, due.turn))
        }
        None => false,
    }
}

/// Whether after a fault there are fewer messages than are due, or fewer pongs and not the last.
fn echoes_short(x: &Evidence, found: Findings) -> bool
    requires { AreFindingsOf (without_pings x.now) found }
    ensures { IsTrue result ↔ EchoesShort (without_pings x.now) }
{
    if !ends_with_fault(&x.due.ending) {
        return false;
    }
    found.is_short_of_messages || (found.is_short_of_pongs && !found.has_last_pong)
}
