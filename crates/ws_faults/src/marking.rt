//! The frames of a transcript that are marked.

ghost use Rattle.std.specs.Prelude.{◌≡◌, IfOk};
ghost use Rattle.ws_suite.specs.Evidence.{other_role};
ghost use Rattle.ws_faults.specs.PayloadFaults.{AreMarkedFrames};

use crate::finding::FaultFinder;
use std::alloc::Global;
use ws_base::NoMemory;
use ws_scripts::AsTranscript;
use ws_wire::Role;

/// Where the frame begins, in each direction, whose text or close payload is the first violation, if there is one.
#[derive(Clone, Copy)]
pub struct MarkedFrames {
    /// Of what the tester sent.
    pub sent: Option<u64>,
    /// Of what the tested end sent.
    pub got: Option<u64>,
}

/// Those of a transcript, whose tested end has this role.
pub fn marked_frames<T: AsTranscript>(
    alloc: Global,
    tested: Role,
    transcript: &T,
) -> Result<MarkedFrames, NoMemory>
    ensures { IfOk result (AreMarkedFrames tested (T.transcript transcript.now)) }
{
    let mut sent = FaultFinder::new(alloc, tested);
    let mut got = FaultFinder::new(alloc, other(tested));
    let mut walk = transcript.as_transcript().turns();
    for _number in 0..walk.len() {
        let turn = walk.take_first();
        sent.take(turn.sent)?;
        got.take(turn.got)?;
    }
    Ok(MarkedFrames {
        sent: sent.fault(),
        got: got.fault(),
    })
}

/// The other role.
fn other(role: Role) -> Role
    ensures { result ≡ other_role role }
{
    match role {
        Role::Client => Role::Server,
        Role::Server => Role::Client,
    }
}
