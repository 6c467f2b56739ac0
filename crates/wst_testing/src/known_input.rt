//! The earlier run that comes in, where one is to be known.

ghost use Rattle.std.specs.Prelude.{◌≡◌, MatchResult, false};
ghost use Rattle.ws_frame.specs.Devices.{watched};
ghost use Rattle.ws_frame.specs.Watching.{has_failed};
ghost use Rattle.wst_testing.specs.KnownInput.{IsKnownBy, StopsKnowing, TellsKnownStop, known_stop, read_stop};

use std::alloc::Global;
use std::io::{Read, Write};
use ws_base::TextFault;
use ws_frame::Watched;
use ws_reports::{KnownVerdicts, read_known};
use wst_commands::{Exit, Fault, ReadStop, RunDamage, read_whole, run_damage, tell_fault};

/// Why the earlier run isn't known.
#[derive(Clone, Copy)]
pub enum KnownStop {
    /// The input failed.
    Device,
    /// The first line that is none of a run, counted from 1, and what is wrong with it.
    NotAVerdict(u64, RunDamage),
    /// Memory ran out.
    NoMemory,
}

/// The verdicts of the run whose lines come in, where they are asked for; else nothing is read.
pub fn known_given<R: Read>(
    alloc: Global,
    is_asked: bool,
    reader: &mut Watched<R>,
) -> Result<Option<KnownVerdicts>, KnownStop>
    requires { has_failed reader.old ≡ false }
    ensures { MatchResult result
        (λ known. IsKnownBy is_asked known (watched R.remaining reader.old reader.new))
        (λ why. StopsKnowing is_asked why (watched R.remaining reader.old reader.new)) }
{
    if !is_asked {
        return Ok(None);
    }
    let text = match read_whole(alloc, reader) {
        Ok(text) => text,
        Err(why) => return Err(read_stop(why)),
    };
    let bytes = text.as_slice();
    match read_known(alloc, bytes) {
        Ok(known) => Ok(Some(known)),
        Err(why) => Err(known_stop(bytes, why)),
    }
}

/// Why an input that can't be read tells no run.
fn read_stop(why: ReadStop) -> KnownStop
    ensures { result ≡ read_stop why }
{
    match why {
        ReadStop::Fault => KnownStop::Device,
        ReadStop::NoMemory => KnownStop::NoMemory,
    }
}

/// Why a text tells no run.
fn known_stop(text: &[u8], why: TextFault) -> KnownStop
    ensures { result ≡ known_stop text.now why }
{
    match why {
        TextFault::Damaged(line) => KnownStop::NotAVerdict(line, run_damage(text, line)),
        TextFault::NoMemory => KnownStop::NoMemory,
    }
}

/// Tells why nothing is run, and answers how that ends.
pub fn tell_known_stop<F: Write>(alloc: Global, why: KnownStop, faults: &mut Watched<F>) -> Exit
    ensures { TellsKnownStop why result (watched F.contents faults.old faults.new) }
{
    match why {
        KnownStop::Device => Exit::Failed,
        KnownStop::NotAVerdict(line, damage) => {
            tell_fault(alloc, Fault::NotAVerdict(line, damage), faults)
        }
        KnownStop::NoMemory => tell_fault(alloc, Fault::NoMemory, faults),
    }
}
