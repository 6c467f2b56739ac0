//! Rows of machines that are run over a stream: the tester of a script, and an exchange.

ghost use Rattle.std.specs.Prelude.{[], IfOk};
ghost use Rattle.ws_machines.specs.Eithers.{agrees_either, wants_either};
ghost use Rattle.ws_machines.specs.Exchanges.{IsExchanged, wanted_by};
ghost use Rattle.ws_machines.specs.Machines.{HasNext};

use crate::machine_stream::MachineStream;
use crate::testers::{put_transcript, tester_of};
use std::alloc::Global;
use test_row_frames::{
    RowFault, bytes_of, expectation_of, number_of, put, put_hex, put_number, role_of,
};
use ws_machines::{Either, Exchange, Machine, run_machine};
use ws_tester::TestPlan;

/// How many bytes are read at once at most.
const ROOM: usize = 16;

/// `test_over ROLE EXPECTATION BUDGET SCRIPT FIRST TAKE FAIL WORD ..`: a script is run over a stream, where waits can
/// be in vain. What was asked of the stream, what was written, and what is recorded.
pub fn run_tester(alloc: Global, words: &[&str], out: &mut String) -> Result<(), RowFault> {
    let [role, expected, budget, text, first, take, fail, words @ ..] = words else {
        return Err(RowFault::NotARow);
    };
    let plan = TestPlan {
        tested: role_of(role)?,
        expected: expectation_of(expected)?,
        has_timeouts: true,
    };
    let mut stream = MachineStream::of(alloc, take, fail, words)?;
    let tester = tester_of(alloc, plan, text, first, number_of(budget)?)?;
    let transcript = run(tester, &mut stream)?;
    put_stream(&stream, out)?;
    put(out, ", ")?;
    put_transcript(&transcript, out)
}

/// `exchange KIND BYTES MOST TAKE FAIL WORD ..`: these bytes are written over a stream that does what the words say, as
/// `MachineStream` has it, and at most so many are read. `KIND` is `plain`, or `left` or `right` for one of two
/// machines. What was asked of the stream, what was written, and what was got.
pub fn run_exchange(alloc: Global, words: &[&str], out: &mut String) -> Result<(), RowFault> {
    let [kind, bytes, most, take, fail, words @ ..] = words else {
        return Err(RowFault::NotARow);
    };
    let exchange = exchange_of(alloc, bytes, number_of(most)?)?;
    let mut stream = MachineStream::of(alloc, take, fail, words)?;
    let got = match *kind {
        "plain" => run(exchange, &mut stream)?,
        "left" => run(one_of(exchange, true), &mut stream)?,
        "right" => run(one_of(exchange, false), &mut stream)?,
        _ => return Err(RowFault::NotARow),
    };
    put_stream(&stream, out)?;
    put_hex(out, ", got ", got.as_slice())
}

/// An exchange that reads at most so many bytes.
fn exchange_of(alloc: Global, bytes: &str, most: u64) -> Result<Exchange, RowFault>
    ensures told { IfOk result (λ exchange. IsExchanged exchange exchange []) }
    ensures goes_on { IfOk result (λ exchange. HasNext (wanted_by exchange)) }
{
    let bytes = bytes_of(alloc, bytes)?.into_vec();
    let exchange = Exchange::new(alloc, bytes, most as usize);
    if exchange.is_done() || exchange.room() > 0 {
        return Ok(exchange);
    }
    Err(RowFault::NotARow)
}

/// One of two machines that is this one.
fn one_of<M: Machine + Drop>(machine: M, is_left: bool) -> Either<M, M>
    requires told { M.agrees machine machine [] }
    requires goes_on { HasNext (M.wants machine) }
    ensures told { agrees_either M.agrees M.agrees result result [] }
    ensures goes_on { HasNext (wants_either M.wants M.wants result) }
{
    if is_left {
        Either::Left(machine)
    } else {
        Either::Right(machine)
    }
}

/// Runs a machine until it is done.
fn run<M: Machine + Drop>(machine: M, stream: &mut MachineStream) -> Result<M::End, RowFault>
    requires told { M.agrees machine machine [] }
    requires goes_on { HasNext (M.wants machine) }
{
    let mut machine = machine;
    let mut room = [0; ROOM];
    run_machine(&mut machine, stream, &mut room)?;
    let end = machine.into_end()?;
    Ok(end)
}

/// What was asked of a stream, and what was written to it.
fn put_stream(stream: &MachineStream, out: &mut String) -> Result<(), RowFault> {
    put_hex(out, "calls ", stream.calls.as_bytes())?;
    put_number(out, ", waits ", stream.waits)?;
    put_hex(out, ", wrote ", stream.written.as_slice())
}
