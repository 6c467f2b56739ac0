//! Why there is no connection to a tested end, and the address at which that was refused.

ghost use Rattle.ws_frame.specs.Devices.{watched};
ghost use Rattle.wst_commands.specs.Devices.{StaysFailed};
ghost use Rattle.wst_testing.specs.Notes.{TellsEach};
ghost use Rattle.wst_testing.specs.Tried.{address_notes, missed_notes, tried_notes, tried_texts};

use crate::run_plans::TestedEnd;
use std::io::Write;
use ws_frame::Watched;
use ws_targets::Target;
use wst_commands::tell;
use wst_sockets::ConnectFault;

/// Tells why there is no connection to a tested end, and where that was refused, at which address.
pub fn tell_missed<F: Write>(tested: &TestedEnd<'_>, why: ConnectFault, faults: &mut Watched<F>)
    ensures told { TellsEach (missed_notes tested.now why) (watched F.contents faults.old faults.new) }
    ensures still { StaysFailed faults.old faults.new }
{
    tell(why.line(), faults);
    tell_tried(tested, why, faults);
}

/// Tells the address at which a connection was refused.
pub(crate) fn tell_tried<F: Write>(
    tested: &TestedEnd<'_>,
    why: ConnectFault,
    faults: &mut Watched<F>,
)
    ensures told { TellsEach (tried_notes tested.now why) (watched F.contents faults.old faults.new) }
    ensures still { StaysFailed faults.old faults.new }
{
    match why {
        ConnectFault::Refused => tell_address(tested, faults),
        ConnectFault::NoSuchHost
        | ConnectFault::Unreachable
        | ConnectFault::TimedOut
        | ConnectFault::NoAnswer
        | ConnectFault::ClosedBeforeAnswer
        | ConnectFault::Failed => {}
    }
}

/// Tells at which address a connection to a tested end is tried, where it has one.
fn tell_address<F: Write>(tested: &TestedEnd<'_>, faults: &mut Watched<F>)
    ensures told { TellsEach (address_notes tested.now) (watched F.contents faults.old faults.new) }
    ensures still { StaysFailed faults.old faults.new }
{
    match tested {
        TestedEnd::Server(target) => tell_tried_at(target, faults),
        TestedEnd::Memory(_) | TestedEnd::Clients(_) => {}
    }
}

/// Tells that a connection was tried at the address of a target. It takes no memory.
fn tell_tried_at<F: Write>(target: &Target, faults: &mut Watched<F>)
    ensures told { TellsEach (tried_texts target.now.address) (watched F.contents faults.old faults.new) }
    ensures still { StaysFailed faults.old faults.new }
{
    tell(b"  tried ", faults);
    tell(target.address().as_bytes(), faults);
    tell(b"\n", faults);
}
