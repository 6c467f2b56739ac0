//! Scripts of calls of an echo, one call a line.

ghost use Rattle.std.specs.Prelude.{◌≡◌, map};
ghost use Rattle.ws_formats.specs.Reading.{Reads};
ghost use Rattle.ws_base.specs.Finding.{Finds};
ghost use Rattle.ws_calls.specs.Script.{AreEchoCallWords, IsEchoCallLine, IsEchoCallOf};
ghost use Rattle.ws_calls.specs.Script.{echo_name_word};

use crate::calls::EchoCall;
use std::alloc::Global;
use ws_base::LineFault;
use ws_formats::{read_hex, read_key_or_dash};
use ws_line_words::few_words;

/// The call of an echo that a line tells, which is given without its LF.
pub(crate) fn read_echo_call(alloc: Global, line: &[u8]) -> Result<EchoCall, LineFault>
    ensures { Reads result (λ found. IsEchoCallLine found line.now) }
{
    let Some(words) = few_words(line) else {
        return Err(LineFault::Damaged);
    };
    let found = read_echo_words(alloc, words.as_slice())?;
    Ok(found)
}

/// The call of an echo that words tell.
fn read_echo_words(alloc: Global, words: &[&[u8]]) -> Result<EchoCall, LineFault>
    ensures { Reads result (λ found. AreEchoCallWords found (map (λ w. w.now) words.now)) }
{
    let [name, fields @ ..] = words else {
        return Err(LineFault::Damaged);
    };
    let Some(name) = read_echo_name(name) else {
        return Err(LineFault::Damaged);
    };
    let found = read_echo_fields(alloc, name, fields)?;
    Ok(found)
}

/// What the first word of an echo's call is.
#[derive(Clone, Copy)]
pub(crate) enum EchoName {
    Take,
    End,
}

/// The first word of an echo's call.
pub(crate) fn read_echo_name(word: &[u8]) -> Option<EchoName>
    ensures { Finds result (λ name. word.now ≡ echo_name_word name) }
{
    match word {
        b"take" => Some(EchoName::Take),
        b"end" => Some(EchoName::End),
        _ => None,
    }
}

/// The call of an echo of this name, by the words behind it.
pub(crate) fn read_echo_fields(
    alloc: Global,
    name: EchoName,
    fields: &[&[u8]],
) -> Result<EchoCall, LineFault>
    ensures { Reads result (λ found. IsEchoCallOf name found (map (λ w. w.now) fields.now)) }
{
    match name {
        EchoName::Take => {
            let [piece, key] = fields else {
                return Err(LineFault::Damaged);
            };
            let piece = read_hex(alloc, piece)?;
            let Some(key) = read_key_or_dash(key) else {
                return Err(LineFault::Damaged);
            };
            Ok(EchoCall::Take { piece, key })
        }
        EchoName::End => {
            if fields.is_empty() {
                Ok(EchoCall::End)
            } else {
                Err(LineFault::Damaged)
            }
        }
    }
}
