//! A run of clients that ends since none has come in time.

ghost use Rattle.std.specs.Prelude.{◌≡◌, ◌+◌, ◌<◌, ◌^◌, IfOk, OnErr, OnOk, if◌then◌else◌, length, string_bytes};
ghost use Rattle.ws_frame.specs.Devices.{watched};
ghost use Rattle.wst_commands.specs.Devices.{StaysFailed};
ghost use Rattle.wst_clients.specs.LateClients.{late_line, late_texts, run_count, was_run};
ghost use Rattle.wst_testing.specs.Notes.{TellsEach};

use std::alloc::Global;
use std::io::Write;
use ws_base::NoMemory;
use ws_frame::Watched;
use ws_paths::{Behavior, Standing};
use ws_suite::Case;
use wst_commands::{TimeLimit, tell};

/// Tells that a client was waited for so long in vain, and how many of the cases were run.
pub(crate) fn tell_late<F: Write>(
    alloc: Global,
    wait: TimeLimit,
    cases: &[Case],
    standing: &Standing,
    faults: &mut Watched<F>,
) -> Result<(), NoMemory>
    ensures told { OnOk result (TellsEach (late_texts wait (run_count standing.now.behaviors) (length cases.now))
        (watched F.contents faults.old faults.new)) }
    ensures kept { OnErr result (faults.new ≡ faults.old) }
    ensures still { StaysFailed faults.old faults.new }
{
    match wait {
        TimeLimit::Unlimited => Ok(()),
        TimeLimit::Seconds(seconds) => {
            let line = late_line(alloc, seconds, run_count(standing), cases.len())?;
            tell(line.as_bytes(), faults);
            Ok(())
        }
    }
}

/// The line that tells it.
fn late_line(alloc: Global, seconds: u32, run: u32, all: usize) -> Result<String, NoMemory>
    ensures { IfOk result (λ line. string_bytes line ≡ late_line seconds run all) }
{
    let line = format!(in alloc;
        "no client for {seconds} seconds: {run} of {all} cases were run\n"
    )?;
    Ok(line)
}

/// How many of the cases were run.
fn run_count(standing: &Standing) -> u32
    ensures { result ≡ run_count standing.now.behaviors }
{
    let mut count = 0;
    for place in 0..standing.count() {
        count = counted_with(count, standing.behavior(place + 1));
    }
    count
}

/// How many there are with one more of which this came.
fn counted_with(count: u32, behavior: Behavior) -> u32
    requires { count + 1 < 2 ^ 32 }
    ensures { result ≡ (if was_run behavior then count + 1 else count) }
{
    match behavior {
        Behavior::Unimplemented => count,
        Behavior::Ok | Behavior::NonStrict | Behavior::Failed => count + 1,
    }
}
