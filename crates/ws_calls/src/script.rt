//! Scripts of calls of one endpoint, one call a line.

ghost use Rattle.std.specs.Prelude.{◌≡◌, map};
ghost use Rattle.ws_formats.specs.Reading.{Reads};
ghost use Rattle.ws_calls.specs.Script.{AreCallWords, IsCallLine, as_call};

use crate::calls::{Call, EchoCall};
use crate::echo_script::{read_echo_fields, read_echo_name};
use std::alloc::Global;
use ws_base::LineFault;
use ws_line_words::few_words;
use ws_sends::read_send;

/// The call that a line tells, which is given without its LF.
pub(crate) fn read_call(alloc: Global, line: &[u8]) -> Result<Call, LineFault>
    ensures { Reads result (λ found. IsCallLine found line.now) }
{
    let Some(words) = few_words(line) else {
        return Err(LineFault::Damaged);
    };
    let found = read_words(alloc, words.as_slice())?;
    Ok(found)
}

/// The call that words tell.
fn read_words(alloc: Global, words: &[&[u8]]) -> Result<Call, LineFault>
    ensures { Reads result (λ found. AreCallWords found (map (λ w. w.now) words.now)) }
{
    let [name, fields @ ..] = words else {
        return Err(LineFault::Damaged);
    };
    match read_echo_name(name) {
        Some(name) => {
            let call = read_echo_fields(alloc, name, fields)?;
            Ok(call_of(call))
        }
        None => {
            let send = read_send(alloc, name, fields)?;
            Ok(Call::Send(send))
        }
    }
}

/// A call of an echo, as a session is asked for it.
fn call_of(call: EchoCall) -> Call
    ensures { result ≡ as_call call }
{
    match call {
        EchoCall::Take { piece, key } => Call::Take { piece, key },
        EchoCall::End => Call::End,
    }
}
