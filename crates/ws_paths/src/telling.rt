//! What a client under test is told, and the scripts that tell it.

ghost use Rattle.std.specs.Prelude.{◌≡◌, IfOk, string_bytes, true};
ghost use Rattle.ws_scripts.specs.Scripts.{CanBeRun};
ghost use Rattle.ws_paths.specs.Texts.{count_text, info_text, status_text};
ghost use Rattle.ws_paths.specs.Telling.{IsToldBy};
ghost use Rattle.ws_scripts.specs.declared.script.Step.TheVariants.{Frame};

use crate::behavior::Behavior;
use std::alloc::Global;
use ws_base::{NoMemory, Sequence};
use ws_scripts::{Case, Chop, Step};

/// A close payload of code 1000 alone (RFC 6455 sections 5.5.1 and 7.4.1).
const NORMAL_CLOSURE: &[u8] = b"\x03\xe8";

/// The opcode of a text frame.
const TEXT: u8 = 1;

/// The opcode of a close frame.
const CLOSE: u8 = 8;

/// The name of a script that is no case.
const NO_NAME: &str = "-";

/// The text that tells how many cases there are.
pub fn count_text(alloc: Global, count: u32) -> Result<String, NoMemory>
    ensures { IfOk result (λ text. string_bytes text ≡ count_text count) }
{
    Ok(format!(in alloc; "{count}")?)
}

/// The text that tells of a case its name, which has no quotation mark, no `\` and no control character, and how many
/// turns it has.
pub fn info_text(alloc: Global, id: &str, turns: usize) -> Result<String, NoMemory>
    ensures { IfOk result (λ text. string_bytes text ≡ info_text id.now turns) }
{
    let text = format!(in alloc; "{{\"id\":\"{id}\",\"description\":\"{turns} turns\"}}")?;
    Ok(text)
}

/// The text that tells what came of a case.
pub fn status_text(alloc: Global, behavior: Behavior) -> Result<String, NoMemory>
    ensures { IfOk result (λ text. string_bytes text ≡ status_text behavior) }
{
    let text = format!(in alloc; "{{\"behavior\":\"{}\"}}", behavior.word())?;
    Ok(text)
}

/// The script of a connection that runs no case: a message with this text, if there is one, and a close frame of code
/// 1000 in the same turn.
pub fn script_of(alloc: Global, text: Option<String>) -> Result<Case, NoMemory>
    ensures tells { IfOk result (IsToldBy text) }
    ensures runs { IfOk result CanBeRun }
{
    let mut steps = Vec::new(alloc);
    if let Some(text) = text {
        steps.push(frame(TEXT, text.into_bytes()))?;
    }
    steps.push(frame(CLOSE, NORMAL_CLOSURE.to_vec(alloc)?))?;
    Ok(Case {
        id: String::from_str(alloc, NO_NAME)?,
        steps: Sequence::from_vec(steps),
        chop: Chop::Whole,
    })
}

/// A frame of its own.
fn frame(opcode: u8, payload: Vec<u8>) -> Step
    ensures { result ≡ Frame true 0 opcode payload.items }
{
    Step::Frame {
        fin: true,
        rsv: 0,
        opcode,
        payload: Sequence::from_vec(payload),
    }
}
