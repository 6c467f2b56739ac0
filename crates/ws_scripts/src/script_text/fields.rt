//! The fields of a frame's line (RFC 6455 section 5.2): FIN, the reserved bits, and a header of the frame's own.

ghost use Rattle.std.specs.Prelude.{◌≡◌};
ghost use Rattle.ws_base.specs.Finding.{Finds};
ghost use Rattle.ws_formats.specs.Words.{bit_word};
ghost use Rattle.ws_wire.specs.Header.{form_word};
ghost use Rattle.ws_scripts.specs.ScriptLines.{IsKeyValue};
ghost use Rattle.ws_scripts.specs.InnerScripting.{CutsFields, CutsFin, CutsForm, CutsLayout, CutsRsv, FindsCut};

use crate::script_text::numbers::read_number;
use crate::script_text::words::take_field;
use ws_formats::read_key;
use ws_wire::Form;

/// The most that the reserved bits can be.
const MAX_RSV: u32 = 7;

/// What the fields of a frame's line tell.
#[derive(Clone, Copy)]
pub(crate) struct FrameFields {
    pub fin: bool,
    /// 4 * RSV1 + 2 * RSV2 + RSV3.
    pub rsv: u8,
    pub layout: Layout,
}

/// How a frame is laid out.
#[derive(Clone, Copy)]
pub(crate) enum Layout {
    /// As the tester does it: masked with its key where it is a client, in the shortest form.
    Tester,
    /// With this masking key or none, in this form or else the shortest.
    Own(Option<[u8; 4]>, Option<Form>),
}

/// The fields at the front of a text, and the rest.
pub(crate) fn read_fields(text: &[u8]) -> Option<(FrameFields, &[u8])>
    ensures { FindsCut (λ value rest. CutsFields value rest text.now) result }
{
    let (fin, second) = read_fin(text)?;
    let (rsv, third) = read_rsv(second)?;
    let (layout, rest) = read_layout(third)?;
    Some((FrameFields { fin, rsv, layout }, rest))
}

/// Whether FIN is set, which it is where no field says otherwise.
fn read_fin(text: &[u8]) -> Option<(bool, &[u8])>
    ensures { FindsCut (λ value rest. CutsFin value rest text.now) result }
{
    let Some((word, rest)) = take_field(b" fin=", text) else {
        return Some((true, text));
    };
    let fin = read_bit(word)?;
    Some((fin, rest))
}

/// The reserved bits, none of which is set where no field says otherwise.
fn read_rsv(text: &[u8]) -> Option<(u8, &[u8])>
    ensures { FindsCut (λ value rest. CutsRsv value rest text.now) result }
{
    let Some((word, rest)) = take_field(b" rsv=", text) else {
        return Some((0, text));
    };
    let rsv = read_number(MAX_RSV, word)?;
    Some((rsv as u8, rest))
}

/// How the frame is laid out.
fn read_layout(text: &[u8]) -> Option<(Layout, &[u8])>
    ensures { FindsCut (λ value rest. CutsLayout value rest text.now) result }
{
    let Some((word, after)) = take_field(b" key=", text) else {
        return Some((Layout::Tester, text));
    };
    let key = read_key_or_none(word)?;
    let (form, rest) = read_form(after)?;
    Some((Layout::Own(key, form), rest))
}

/// The form of the length, where it is named.
fn read_form(text: &[u8]) -> Option<(Option<Form>, &[u8])>
    ensures { FindsCut (λ value rest. CutsForm value rest text.now) result }
{
    let Some((word, rest)) = take_field(b" form=", text) else {
        return Some((None, text));
    };
    let form = read_form_word(word)?;
    Some((Some(form), rest))
}

/// Whether a bit is set.
fn read_bit(word: &[u8]) -> Option<bool>
    ensures { Finds result (λ bit. word.now ≡ bit_word bit) }
{
    match word {
        b"0" => Some(false),
        b"1" => Some(true),
        _ => None,
    }
}

/// The masking key that a word spells, or that there is none.
fn read_key_or_none(word: &[u8]) -> Option<Option<[u8; 4]>>
    ensures { Finds result (λ key. IsKeyValue key word.now) }
{
    if word == b"-".as_slice() {
        return Some(None);
    }
    let key = read_key(word)?;
    Some(Some(key))
}

/// The form with this name.
fn read_form_word(word: &[u8]) -> Option<Form>
    ensures { Finds result (λ form. word.now ≡ form_word form) }
{
    match word {
        b"short" => Some(Form::Short),
        b"two" => Some(Form::Two),
        b"eight" => Some(Form::Eight),
        _ => None,
    }
}
