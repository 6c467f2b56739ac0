//! A script as what goes over the wire: turns, and the pieces of each (RFC 6455 section 5.2).

ghost use Rattle.std.specs.Prelude.{◌≡◌, ◌+◌, ◌-◌, ◌^◌, ◌<◌, ◌≤◌, ◌++◌, [], ◌∷◌, length, take, drop, min, flat_map};
ghost use Rattle.std.specs.Prelude.{IfOk, OnOk, List, ℕ};
ghost use Rattle.std.specs.List.{AllByRecursion};
ghost use Rattle.ws_scripts.specs.InnerCutting.{ends_of};
ghost use Rattle.ws_scripts.specs.Scripts.{ArePieces, AreTurns, CanBeRun, CutsOff, FitHeaders, FitsAHeader};
ghost use Rattle.ws_scripts.specs.Scripts.{IsAct, is_wait, step_bytes, turn_bytes, turns_of, without_empty};
ghost use Rattle.ws_wire.specs.Frame.{Frame, KeyedFrame, frame_bytes, sent_as};
ghost use Rattle.ws_wire.specs.Header.{header_bytes};
ghost use Rattle.ws_scripts.specs.declared.script.Chop.TheVariants.{Octets, PerFrame, Whole};
ghost use Rattle.ws_scripts.specs.declared.script.Step.TheVariants.{Wait};

use crate::cut_turn::CutTurn;
use crate::script::{Case, Chop, Step};
use std::alloc::Global;
use ws_base::{NoMemory, Sequence};
use ws_wire::{Header, append_frame};

/// What a client sends for a script, its frames masked with `key`: that of `turns_with` with this key.
pub fn turns(alloc: Global, case: &Case, key: [u8; 4]) -> Result<Sequence<CutTurn>, NoMemory>
    requires { CanBeRun case.now }
    ensures { IfOk result (λ turns. AreTurns case.now (Some key) turns) }
{
    let turns = turns_with(alloc, case, Some(key))?;
    Ok(turns)
}

/// What is sent for a script, its frames masked with `key`, or plain where there is none, as those of a tester that is
/// the server: the pieces of each turn, in order. A turn without bytes has no pieces.
pub fn turns_with(
    alloc: Global,
    case: &Case,
    key: Option<[u8; 4]>,
) -> Result<Sequence<CutTurn>, NoMemory>
    requires { CanBeRun case.now }
    ensures { IfOk result (λ turns. AreTurns case.now key turns) }
{
    let mut turns = Vec::new(alloc);
    let mut rest = case.steps.as_slice();
    while !rest.is_empty() {
        let (steps, after) = first_turn(rest);
        let pieces = pieces_of(alloc, case.chop, key, steps)?;
        turns.push(pieces)?;
        rest = after;
    }
    Ok(Sequence::from_vec(turns))
}

/// What is sent for steps in all, their frames masked with `key`, or plain where there is none: the bytes of their
/// turns, one after the other.
pub fn bytes_with(alloc: Global, steps: &[Step], key: Option<[u8; 4]>) -> Result<Vec<u8>, NoMemory>
    requires { FitHeaders steps.now }
    ensures { IfOk result (λ bytes. bytes.items ≡ flat_map (turn_bytes key) (turns_of steps.now)) }
{
    let sent = bytes_of(alloc, key, steps)?;
    Ok(sent)
}

/// The steps up to the first `Wait`, and those after it.
fn first_turn(steps: &[Step]) -> (&[Step], &[Step])
    requires { 0 < length steps.now }
    ensures turns { turns_of steps.now ≡ result.0.now ∷ turns_of result.1.now }
    ensures fewer { length result.1.now < length steps.now }
    ensures fit { FitHeaders steps.now → FitHeaders result.0.now × FitHeaders result.1.now }
{
    let at = first_wait(steps);
    if at < steps.len() {
        (&steps[..at], &steps[at + 1..])
    } else {
        (steps, &[])
    }
}

/// How many steps stand before the first `Wait`: all where there is none.
fn first_wait(steps: &[Step]) -> usize
    ensures within { result ≤ length steps.now }
    ensures acts { AllByRecursion IsAct (take result steps.now) }
    ensures wait { result < length steps.now → drop result steps.now ≡ Wait ∷ drop (result + 1) steps.now }
{
    let mut at = 0;
    while at < steps.len() && !is_wait(&steps[at]) {
        at += 1;
    }
    at
}

/// Whether the turn ends.
fn is_wait(step: &Step) -> bool
    ensures { result ≡ is_wait step.now }
{
    match step {
        Step::Frame { .. } | Step::Raw(_) => false,
        Step::Wait => true,
    }
}

/// The pieces of a turn.
fn pieces_of(
    alloc: Global,
    chop: Chop,
    key: Option<[u8; 4]>,
    steps: &[Step],
) -> Result<CutTurn, NoMemory>
    requires fit { FitHeaders steps.now }
    requires cuts { CutsOff chop }
    ensures { IfOk result (λ pieces. ArePieces chop key steps.now pieces) }
{
    match chop {
        Chop::Whole => one_piece(alloc, key, steps),
        Chop::PerFrame => one_piece_a_step(alloc, key, steps),
        Chop::Octets(n) => octets(alloc, n, key, steps),
    }
}

/// The bytes of a turn as one piece, or none where there are no bytes.
fn one_piece(alloc: Global, key: Option<[u8; 4]>, steps: &[Step]) -> Result<CutTurn, NoMemory>
    requires { FitHeaders steps.now }
    ensures { IfOk result (λ pieces. ArePieces Whole key steps.now pieces) }
{
    let bytes = bytes_of(alloc, key, steps)?;
    let count = bytes.len().max(1);
    let pieces = CutTurn::every(bytes, count);
    Ok(pieces)
}

/// The bytes of each step as a piece, where there are any.
fn one_piece_a_step(
    alloc: Global,
    key: Option<[u8; 4]>,
    steps: &[Step],
) -> Result<CutTurn, NoMemory>
    requires { FitHeaders steps.now }
    ensures { IfOk result (λ pieces. ArePieces PerFrame key steps.now pieces) }
{
    let mut bytes = Vec::with_capacity(alloc, room_for(steps, key))?;
    let mut ends = Vec::with_capacity(alloc, steps.len())?;
    for step in steps {
        let before = bytes.len();
        append_step(step, key, &mut bytes)?;
        push_end(before, bytes.len(), &mut ends)?;
    }
    let pieces = CutTurn::at(bytes, ends);
    Ok(pieces)
}

/// Puts where a piece ends that begins at a place after the ends of those before it, where it has any bytes.
fn push_end(before: usize, end: usize, ends: &mut Vec<usize>) -> Result<(), NoMemory>
    ensures { (piece : List ℕ) → before + length piece ≡ end
        → OnOk result (ends.new.items ≡ ends.old.items ++ ends_of before (without_empty (piece ∷ []))) }
{
    if before < end {
        ends.push(end)?;
    }
    Ok(())
}

/// The bytes of a turn in pieces of `n` bytes, the last of them as long as it comes.
fn octets(alloc: Global, n: u32, key: Option<[u8; 4]>, steps: &[Step]) -> Result<CutTurn, NoMemory>
    requires fit { FitHeaders steps.now }
    requires cuts { 0 < n }
    ensures { IfOk result (λ pieces. ArePieces (Octets n) key steps.now pieces) }
{
    let bytes = bytes_of(alloc, key, steps)?;
    let pieces = CutTurn::every(bytes, n as usize);
    Ok(pieces)
}

/// The bytes of a turn.
fn bytes_of(alloc: Global, key: Option<[u8; 4]>, steps: &[Step]) -> Result<Vec<u8>, NoMemory>
    requires { FitHeaders steps.now }
    ensures { IfOk result (λ bytes. bytes.items ≡ turn_bytes key steps.now) }
{
    let mut bytes = Vec::with_capacity(alloc, room_for(steps, key))?;
    for step in steps {
        append_step(step, key, &mut bytes)?;
    }
    Ok(bytes)
}

/// How many bytes the steps have, where a `usize` can tell: so much room is asked for, and no more, so that asking is
/// no new way to fail.
fn room_for(steps: &[Step], key: Option<[u8; 4]>) -> usize
    ensures { result ≡ min (length (turn_bytes key steps.now)) (2 ^ 64 - 1) }
{
    let mut room: usize = 0;
    for step in steps {
        room = room.saturating_add(bytes_in(step, key));
    }
    room
}

/// How many bytes a step has, where a `usize` can tell.
fn bytes_in(step: &Step, key: Option<[u8; 4]>) -> usize
    ensures { result ≡ min (length (step_bytes key step.now)) (2 ^ 64 - 1) }
{
    match step {
        Step::Frame { payload, .. } => payload.len().saturating_add(header_len(payload.len(), key)),
        Step::Raw(bytes) => bytes.len(),
        Step::Wait => 0,
    }
}

/// How many bytes the shortest header of a frame has, by the length of its payload and its key (RFC 6455 section 5.2).
fn header_len(payload: usize, key: Option<[u8; 4]>) -> usize
    ensures { (x : KeyedFrame) → length x.frame.payload ≡ payload → x.key ≡ key →
        result ≡ length (header_bytes (sent_as x).header) }
{
    let masking_key = if key.is_some() { 4 } else { 0 };
    match payload {
        0..=125 => 2 + masking_key,
        126..=65_535 => 4 + masking_key,
        _ => 10 + masking_key,
    }
}

/// Puts what is sent for a step at the end of `out`, a frame masked with `key`, or plain where there is none.
pub fn append_step(step: &Step, key: Option<[u8; 4]>, out: &mut Vec<u8>) -> Result<(), NoMemory>
    requires { FitsAHeader step.now }
    ensures { OnOk result (out.new.items ≡ out.old.items ++ step_bytes key step.now) }
{
    match step {
        Step::Frame {
            fin,
            rsv,
            opcode,
            payload,
        } => append_frame_of(*fin, *rsv, *opcode, payload.as_slice(), key, out)?,
        Step::Raw(bytes) => out.extend_from_slice(bytes.as_slice())?,
        Step::Wait => {}
    }
    Ok(())
}

/// Puts a frame at the end of `out`, masked with the key if there is one, its length in the shortest form.
fn append_frame_of(
    fin: bool,
    rsv: u8,
    opcode: u8,
    payload: &[u8],
    key: Option<[u8; 4]>,
    out: &mut Vec<u8>,
) -> Result<(), NoMemory>
    requires rsv { rsv < 8 }
    requires opcode { opcode < 16 }
    ensures { let frame : Frame = record { fin = fin; rsv = rsv; opcode = opcode; payload = payload.now }
        in OnOk result (out.new.items ≡ out.old.items ++ frame_bytes (record { frame = frame; key = key })) }
{
    let Some(header) = Header::shortest(fin, rsv, opcode, key, payload.len() as u64) else {
        unreachable!()
    };
    append_frame(&header, payload, out)?;
    Ok(())
}
