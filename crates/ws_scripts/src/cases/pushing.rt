//! What a script sends, put at the end of its steps.

ghost use Rattle.std.specs.Prelude.{◌≡◌, ◌<◌, OnOk, true};
ghost use Rattle.ws_scripts.specs.InnerCases.{act_fits};
ghost use Rattle.ws_scripts.specs.Scripts.{FitHeaders};

use crate::cases::row::{Act, Data};
use crate::script::Step;
use std::alloc::Global;
use ws_base::{NoMemory, Payload};

/// A close payload of code 1000 alone.
const NORMAL_CLOSURE: &[u8] = b"\x03\xe8";

/// Puts what a row sends at the end of the steps.
pub(crate) fn push_act(alloc: Global, act: Act, steps: &mut Vec<Step>) -> Result<(), NoMemory>
    requires { act_fits act ≡ true }
    ensures { FitHeaders steps.old.items → OnOk result (FitHeaders steps.new.items) }
{
    match act {
        Act::Fin(opcode, data) => push_frame(true, 0, opcode, bytes_of(alloc, data)?, steps),
        Act::Part(opcode, data) => push_frame(false, 0, opcode, bytes_of(alloc, data)?, steps),
        Act::Reserved(rsv, opcode, data) => push_frame(
            true,
            rsv,
            opcode,
            bytes_of(alloc, data)?,
            steps,
        ),
        Act::ByteByByte(bytes) => push_fragments(alloc, bytes, steps),
        Act::Bare(bytes) => push_raw(bytes.to_vec(alloc)?, steps),
        Act::Pause => push_wait(steps),
    }
}

/// Puts a close with code 1000 at the end of the steps, in a turn of its own.
pub(crate) fn push_close(alloc: Global, steps: &mut Vec<Step>) -> Result<(), NoMemory>
    ensures { FitHeaders steps.old.items → OnOk result (FitHeaders steps.new.items) }
{
    push_wait(steps)?;
    push_frame(true, 0, 8, NORMAL_CLOSURE.to_vec(alloc)?, steps)?;
    Ok(())
}

/// Puts a text message at the end of the steps, each byte in a frame of its own.
fn push_fragments(alloc: Global, bytes: &[u8], steps: &mut Vec<Step>) -> Result<(), NoMemory>
    ensures { FitHeaders steps.old.items → OnOk result (FitHeaders steps.new.items) }
{
    for place in 0..bytes.len() {
        let opcode = if place == 0 { 1 } else { 0 };
        let fin = place + 1 == bytes.len();
        push_frame(
            fin,
            0,
            opcode,
            bytes[place..place + 1].to_vec(alloc)?,
            steps,
        )?;
    }
    Ok(())
}

/// Puts a frame at the end of the steps.
pub(crate) fn push_frame(
    fin: bool,
    rsv: u8,
    opcode: u8,
    payload: Vec<u8>,
    steps: &mut Vec<Step>,
) -> Result<(), NoMemory>
    requires rsv { rsv < 8 }
    requires opcode { opcode < 16 }
    ensures { FitHeaders steps.old.items → OnOk result (FitHeaders steps.new.items) }
{
    steps.push(Step::Frame {
        fin,
        rsv,
        opcode,
        payload: Payload::from_vec(payload),
    })?;
    Ok(())
}

/// Puts bytes as they are at the end of the steps.
fn push_raw(bytes: Vec<u8>, steps: &mut Vec<Step>) -> Result<(), NoMemory>
    ensures { FitHeaders steps.old.items → OnOk result (FitHeaders steps.new.items) }
{
    steps.push(Step::Raw(Payload::from_vec(bytes)))?;
    Ok(())
}

/// Ends the turn.
fn push_wait(steps: &mut Vec<Step>) -> Result<(), NoMemory>
    ensures { FitHeaders steps.old.items → OnOk result (FitHeaders steps.new.items) }
{
    steps.push(Step::Wait)?;
    Ok(())
}

/// The payload of a frame.
fn bytes_of(alloc: Global, data: Data) -> Result<Vec<u8>, NoMemory> {
    let (front, byte, count) = match data {
        Data::Bytes(bytes) => (bytes, 0, 0),
        Data::Run(byte, count) => (b"".as_slice(), byte, count),
        Data::BytesAndRun(bytes, byte, count) => (bytes, byte, count),
    };
    let mut bytes = front.to_vec(alloc)?;
    for _ in 0..count {
        bytes.push(byte)?;
    }
    Ok(bytes)
}
