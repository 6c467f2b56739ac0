//! Rows of peers.

ghost use Rattle.ws_scripts.specs.Scripts.{CanBeRun, CutsOff};

use std::alloc::Global;
use test_row_frames::{
    RowFault, bytes_of, mask_key_of, put, put_hex, put_number, put_shown, role_of,
};
use ws_base::NoMemory;
use ws_peer::{AppStep, TungPeer, run_case_with, run_over_app, run_over_echo_as, tester_key};
use ws_sends::{KeyedSend, read_send};
use ws_suite::{
    Case, Chop, Ended, Expectation, Step, Transcript, Verdict, case, ids, judge_end, judge_with,
    read_script,
};
use ws_wire::Role;

/// The key of the cases where none is given.
const KEY: [u8; 4] = [0x37, 0xfa, 0x21, 0x3d];

/// `verdict own|tung NAME`, `verdict_client ..`: the verdict on our echo, or on `tungstenite`, as an end of this role
/// in a case. `none` where no case has the name.
pub fn tell_verdict(
    alloc: Global,
    tested: Role,
    words: &[&str],
    out: &mut String,
) -> Result<(), RowFault> {
    let [peer, name] = words else {
        return Err(RowFault::NotARow);
    };
    let Ok(name) = String::from_utf8(bytes_of(alloc, name)?.into_vec()) else {
        return Err(RowFault::NotARow);
    };
    let Some(case) = case(alloc, name.as_str())? else {
        return put(out, "none");
    };
    let verdict = match *peer {
        "own" => own_verdict(alloc, tested, &case, KEY)?,
        "tung" => tung_verdict(alloc, tested, &case)?,
        _ => return Err(RowFault::NotARow),
    };
    put_shown(out, "", &verdict)
}

/// `verdict_of ROLE SCRIPT`: the verdict on our echo in this role, to which the script that the text tells is run, or
/// why it tells none.
pub fn tell_script_verdict(
    alloc: Global,
    words: &[&str],
    out: &mut String,
) -> Result<(), RowFault> {
    let [role, text] = words else {
        return Err(RowFault::NotARow);
    };
    let tested = role_of(role)?;
    let text = bytes_of(alloc, text)?;
    match read_script(alloc, text.as_slice()) {
        Ok(case) => put_shown(out, "", &own_verdict(alloc, tested, &case, KEY)?),
        Err(fault) => put_shown(out, "", &fault),
    }
}

/// The verdict on a new echo.
fn own_verdict(alloc: Global, tested: Role, case: &Case, key: [u8; 4]) -> Result<Verdict, NoMemory>
    requires { CanBeRun case.now }
{
    let transcript = run_over_echo_as(alloc, tested, case, key)?;
    judge_end(alloc, tested, &transcript)
}

/// `verdicts CHOP KEY`, `verdicts_client ..`: how many of the listed cases our echo passes in this role where each is
/// cut so and masked with this key, by the client, or the first that it doesn't, and the verdict. `CHOP` is as in the
/// table of cases. In single bytes, `O1`, the cases are run alone whose payloads have at most 1000 bytes.
pub fn count_passes(
    alloc: Global,
    tested: Role,
    words: &[&str],
    out: &mut String,
) -> Result<(), RowFault> {
    let [chop, key] = words else {
        return Err(RowFault::NotARow);
    };
    let (chop, most) = match *chop {
        "W" => (Chop::Whole, u32::MAX),
        "P" => (Chop::PerFrame, u32::MAX),
        "O1" => (Chop::Octets(1), 1000),
        "O997" => (Chop::Octets(997), u32::MAX),
        _ => return Err(RowFault::NotARow),
    };
    let key = mask_key_of(key)?;
    let mut passed = 0_u32;
    for name in ids(alloc)?.as_slice() {
        match cut_verdict(alloc, tested, name.as_str(), chop, most, key)? {
            None => {}
            Some(Verdict::Pass) => passed = passed.saturating_add(1),
            Some(verdict) => {
                put(out, name.as_str())?;
                return put_shown(out, " ", &verdict);
            }
        }
    }
    put_number(out, "", u64::from(passed))?;
    put(out, " PASS")
}

/// The verdict on a new echo in the case of this name where that is cut so, if its payloads have at most so many bytes.
fn cut_verdict(
    alloc: Global,
    tested: Role,
    name: &str,
    chop: Chop,
    most: u32,
    key: [u8; 4],
) -> Result<Option<Verdict>, RowFault>
    requires { CutsOff chop }
{
    let Some(case) = case(alloc, name)? else {
        return Err(RowFault::NotARow);
    };
    if !has_payloads_of(&case, most) {
        return Ok(None);
    }
    let cut = Case {
        id: case.id,
        steps: case.steps,
        chop,
    };
    let verdict = own_verdict(alloc, tested, &cut, key)?;
    Ok(Some(verdict))
}

/// Whether each payload of a case has at most so many bytes.
fn has_payloads_of(case: &Case, most: u32) -> bool {
    for step in case.steps.as_slice() {
        if let Step::Frame { payload, .. } = step {
            if payload.as_slice().len() > most as usize {
                return false;
            }
        }
    }
    true
}

/// The verdict on a new peer of `tungstenite`.
fn tung_verdict(alloc: Global, tested: Role, case: &Case) -> Result<Verdict, NoMemory>
    requires { CanBeRun case.now }
{
    let mut peer = TungPeer::with_role(alloc, tested, KEY)?;
    let transcript = run_case_with(alloc, case, &mut peer, tester_key(tested, KEY))?;
    judge_end(alloc, tested, &transcript)
}

/// `app ROLE SCRIPT TAKES SENDS ..`: the verdict by the protocol on an application in this role, to which the script
/// that the text tells is run. Of each of its steps it is said how many bytes it takes at most, and what it sends:
/// lines, each ended by LF.
pub fn judge_app(alloc: Global, words: &[&str], out: &mut String) -> Result<(), RowFault> {
    let [role, text, plan @ ..] = words else {
        return Err(RowFault::NotARow);
    };
    let tested = role_of(role)?;
    let transcript = run_of_app(alloc, tested, text, plan)?;
    let verdict = judge_with(alloc, tested, Expectation::Protocol, &transcript)?;
    put_shown(out, "", &verdict)
}

/// `app_got ROLE SCRIPT TAKES SENDS ..`: what was got of the same application, turn by turn, and which end ended the
/// connection.
pub fn tell_app(alloc: Global, words: &[&str], out: &mut String) -> Result<(), RowFault> {
    let [role, text, plan @ ..] = words else {
        return Err(RowFault::NotARow);
    };
    let transcript = run_of_app(alloc, role_of(role)?, text, plan)?;
    for turn in transcript.turns.as_slice() {
        put_hex(out, "", turn.got.as_slice())?;
        put(out, ", ")?;
    }
    let end = match transcript.ended {
        Ended::Tester => "tester",
        Ended::Peer => "peer",
        Ended::Broken => "broken",
    };
    put(out, end)
}

/// The transcript of a script over a new application with this plan.
fn run_of_app(
    alloc: Global,
    tested: Role,
    text: &str,
    plan: &[&str],
) -> Result<Transcript, RowFault> {
    let text = bytes_of(alloc, text)?;
    let Ok(case) = read_script(alloc, text.as_slice()) else {
        return Err(RowFault::NotARow);
    };
    let transcript = run_over_app(alloc, tested, &case, KEY, plan_of(alloc, plan)?)?;
    Ok(transcript)
}

/// The steps of an application, two words each.
fn plan_of(alloc: Global, words: &[&str]) -> Result<Vec<AppStep>, RowFault> {
    let mut plan = Vec::new(alloc);
    let mut takes = None;
    for word in words {
        match takes {
            None => {
                let Ok(count) = word.parse::<usize>() else {
                    return Err(RowFault::NotARow);
                };
                takes = Some(count);
            }
            Some(count) => {
                let sends = sends_of(alloc, word)?;
                plan.push(AppStep {
                    takes: count,
                    sends,
                })?;
                takes = None;
            }
        }
    }
    Ok(plan)
}

/// What an application sends at a step.
fn sends_of(alloc: Global, word: &str) -> Result<Vec<KeyedSend>, RowFault> {
    let text = bytes_of(alloc, word)?;
    let mut sends = Vec::new(alloc);
    for line in text.as_slice().split(|byte| *byte == b'\n') {
        let words: Vec<&[u8]> = line.split(|byte| *byte == b' ').collect(alloc)?;
        if let [name, fields @ ..] = words.as_slice() {
            if !name.is_empty() {
                let Ok(send) = read_send(alloc, name, fields) else {
                    return Err(RowFault::NotARow);
                };
                sends.push(send)?;
            }
        }
    }
    Ok(sends)
}
