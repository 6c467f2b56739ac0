//! The line of a frame (RFC 6455 section 5.2): its name, its fields and its payload.

ghost use Rattle.std.specs.Prelude.{◌≡◌, ◌++◌, ◌<◌, IfErr, IfOk, MatchOption, codes, length};
ghost use Rattle.ws_base.specs.Finding.{Finds};
ghost use Rattle.ws_formats.specs.Reading.{Reads};
ghost use Rattle.ws_formats.specs.Words.{opcode_word};
ghost use Rattle.std.specs.Fmt.{decimal};
ghost use Rattle.ws_base.specs.declared.text_fault.LineFault.TheVariants.{NoMemory};
ghost use Rattle.ws_wire.specs.Header.{CanHold, IsMaskingKey, header_bytes};
ghost use Rattle.ws_wire.specs.Masking.{masked_payload};
ghost use Rattle.ws_scripts.specs.ScriptLines.{IsFrameName, IsPayloadField, form_for, frame_name_word, named_opcode};
ghost use Rattle.ws_scripts.specs.ScriptLines.{own_header};
ghost use Rattle.ws_scripts.specs.InnerScripting.{HasMaskingKey, IsFrameRest, IsLaidOut, IsReserved};
ghost use Rattle.ws_scripts.specs.declared.script_text.frame_line.FrameName.TheVariants.{CloseWith};

use crate::script::Step;
use crate::script_text::data::read_data;
use crate::script_text::fields::{FrameFields, Layout, read_fields};
use crate::script_text::numbers::read_number;
use crate::script_text::words::after_name;
use std::alloc::Global;
use ws_base::{LineFault, Payload};
use ws_formats::read_u16;
use ws_wire::{Form, Header, append_frame};

/// The opcode of a close frame.
const CLOSE: u8 = 8;

/// The most that an opcode can be.
const MAX_OPCODE: u32 = 15;

/// The first word of a frame's line.
#[derive(Clone, Copy)]
pub(crate) enum FrameName {
    /// The name of an opcode, which is at most 15.
    Kind(u8),
    /// `close=` and a code, with which the payload begins.
    CloseWith(u16),
}

impl FrameName {
    /// The opcode of the frame.
    fn opcode(self) -> u8
        ensures { result ≡ named_opcode self }
    {
        match self {
            FrameName::Kind(opcode) => opcode,
            FrameName::CloseWith(_) => CLOSE,
        }
    }
}

/// The name that a word is.
pub(crate) fn read_frame_name(word: &[u8]) -> Option<FrameName>
    ensures { Finds result (λ name. IsFrameName name × (word.now ≡ frame_name_word name)) }
{
    match after_name(b"close=", word) {
        Some(code) => {
            let code = read_u16(code)?;
            Some(FrameName::CloseWith(code))
        }
        None => {
            let opcode = read_kind(word)?;
            Some(FrameName::Kind(opcode))
        }
    }
}

/// The opcode with this name.
fn read_kind(word: &[u8]) -> Option<u8>
    ensures { Finds result (λ opcode. (opcode < 16) × (word.now ≡ opcode_word opcode)) }
{
    if word == b"cont".as_slice() {
        return Some(0);
    }
    if word == b"text".as_slice() {
        return Some(1);
    }
    if word == b"binary".as_slice() {
        return Some(2);
    }
    if word == b"close".as_slice() {
        return Some(8);
    }
    if word == b"ping".as_slice() {
        return Some(9);
    }
    if word == b"pong".as_slice() {
        return Some(10);
    }
    read_reserved(word)
}

/// The reserved opcode with this name.
fn read_reserved(word: &[u8]) -> Option<u8>
    ensures { Finds result (λ opcode. IsReserved opcode × (word.now ≡ codes "op" ++ decimal opcode)) }
{
    let digits = after_name(b"op", word)?;
    let number = read_number(MAX_OPCODE, digits)?;
    if number < 3 {
        return None;
    }
    if number > 7 && number < 11 {
        return None;
    }
    Some(number as u8)
}

/// The step that the rest of a frame's line tells, after its name.
pub(crate) fn read_frame(alloc: Global, name: FrameName, text: &[u8]) -> Result<Step, LineFault>
    requires { IsFrameName name }
    ensures { Reads result (λ step. IsFrameRest name step text.now) }
{
    let Some((fields, last)) = read_fields(text) else {
        return Err(LineFault::Damaged);
    };
    let payload = read_payload(alloc, name, last)?;
    let step = lay_out(alloc, fields, name.opcode(), payload)?;
    Ok(step)
}

/// The payload of a frame.
fn read_payload(alloc: Global, name: FrameName, text: &[u8]) -> Result<Payload, LineFault>
    ensures { Reads result (λ payload. IsPayloadField name payload text.now) }
{
    match name {
        FrameName::Kind(_) => {
            let Some(word) = after_name(b" ", text) else {
                return Err(LineFault::Damaged);
            };
            let payload = read_data(alloc, word)?;
            Ok(payload)
        }
        FrameName::CloseWith(code) => {
            let payload = read_close_payload(alloc, code, text)?;
            Ok(payload)
        }
    }
}

/// The two bytes of a code, and the data after it, which may be left out for none.
fn read_close_payload(alloc: Global, code: u16, text: &[u8]) -> Result<Payload, LineFault>
    ensures { Reads result (λ payload. IsPayloadField (CloseWith code) payload text.now) }
{
    let mut payload = code.to_be_bytes().to_vec(alloc)?;
    if text.is_empty() {
        return Ok(Payload::from_vec(payload));
    }
    let Some(word) = after_name(b" ", text) else {
        return Err(LineFault::Damaged);
    };
    let data = read_data(alloc, word)?;
    payload.extend_from_slice(data.as_slice())?;
    Ok(Payload::from_vec(payload))
}

/// The step of a frame, where its form holds the length of its payload.
fn lay_out(
    alloc: Global,
    fields: FrameFields,
    opcode: u8,
    payload: Payload,
) -> Result<Step, LineFault>
    requires rsv { fields.rsv < 8 }
    requires opcode { opcode < 16 }
    requires key { HasMaskingKey fields.layout }
    ensures { Reads result (λ step. IsLaidOut fields opcode payload step) }
{
    let FrameFields { fin, rsv, layout } = fields;
    match layout {
        Layout::Tester => Ok(Step::Frame {
            fin,
            rsv,
            opcode,
            payload,
        }),
        Layout::Own(key, form) => {
            let len = payload.len() as u64;
            let Some(header) = own_header(fin, rsv, opcode, key, form, len) else {
                return Err(LineFault::Damaged);
            };
            let bytes = frame_bytes(alloc, &header, payload.as_slice())?;
            Ok(Step::Raw(bytes))
        }
    }
}

/// The header with these fields, in this form or else the shortest, where the form holds the length.
fn own_header(
    fin: bool,
    rsv: u8,
    opcode: u8,
    key: Option<[u8; 4]>,
    form: Option<Form>,
    len: u64,
) -> Option<Header>
    requires rsv { rsv < 8 }
    requires opcode { opcode < 16 }
    requires key { IsMaskingKey key }
    ensures { MatchOption result (¬ (CanHold (form_for form len) len))
        (λ header. (header ≡ own_header fin rsv opcode key form len) × CanHold (form_for form len) len) }
{
    match form {
        None => Header::shortest(fin, rsv, opcode, key, len),
        Some(form) => Header::new(fin, rsv, opcode, key, len, form),
    }
}

/// The bytes of a frame with this header.
fn frame_bytes(alloc: Global, header: &Header, payload: &[u8]) -> Result<Payload, LineFault>
    requires { header.now.len ≡ length payload.now }
    ensures bytes { IfOk result (λ bytes. bytes
        ≡ header_bytes header.now ++ masked_payload header.now.key payload.now) }
    ensures memory { IfErr result (λ fault. fault ≡ NoMemory) }
{
    let mut bytes = Vec::new(alloc);
    match append_frame(header, payload, &mut bytes) {
        Ok(()) => Ok(Payload::from_vec(bytes)),
        Err(_) => Err(LineFault::NoMemory),
    }
}
