//! The steps of which short scripts are made: each as a line in the text of a script, and what that line tells.

ghost use Rattle.std.specs.Prelude.{◌≡◌, ◌<◌, IfOk, IsTrue, map};
ghost use Rattle.ws_sweep.specs.Alphabet.{letter_row, shared_steps, step_at, step_of, wrong_mask};
ghost use Rattle.ws_sweep.specs.Order.{alphabet_size};

use std::alloc::Global;
use ws_base::{NoMemory, Payload};
use ws_scripts::Step;
use ws_wire::Role;

/// What a step sends.
#[derive(Clone, Copy)]
pub(crate) enum Sends {
    /// A frame, laid out by the tester: FIN, the reserved bits, the opcode, the payload.
    Frame(bool, u8, u8, &'static [u8]),
    /// These bytes.
    Raw(&'static [u8]),
    /// Nothing: the turn ends.
    Nothing,
}

/// A step: its line, and what that tells.
#[derive(Clone, Copy)]
pub(crate) struct Letter {
    pub line: &'static str,
    pub sends: Sends,
}

/// Those that are sent to either end, in the order of the alphabet.
static SHARED: [Letter; 26] = [
    Letter {
        line: "text \"a\"",
        sends: Sends::Frame(true, 0, 1, b"a"),
    },
    Letter {
        line: "text fin=0 \"a\"",
        sends: Sends::Frame(false, 0, 1, b"a"),
    },
    Letter {
        line: "text -",
        sends: Sends::Frame(true, 0, 1, b""),
    },
    Letter {
        line: "text fin=0 -",
        sends: Sends::Frame(false, 0, 1, b""),
    },
    Letter {
        line: "text fin=0 c3",
        sends: Sends::Frame(false, 0, 1, b"\xc3"),
    },
    Letter {
        line: "text c3",
        sends: Sends::Frame(true, 0, 1, b"\xc3"),
    },
    Letter {
        line: "text c328",
        sends: Sends::Frame(true, 0, 1, b"\xc3\x28"),
    },
    Letter {
        line: "binary 00ff",
        sends: Sends::Frame(true, 0, 2, b"\x00\xff"),
    },
    Letter {
        line: "binary fin=0 00ff",
        sends: Sends::Frame(false, 0, 2, b"\x00\xff"),
    },
    Letter {
        line: "cont \"b\"",
        sends: Sends::Frame(true, 0, 0, b"b"),
    },
    Letter {
        line: "cont fin=0 \"b\"",
        sends: Sends::Frame(false, 0, 0, b"b"),
    },
    Letter {
        line: "cont a9",
        sends: Sends::Frame(true, 0, 0, b"\xa9"),
    },
    Letter {
        line: "cont -",
        sends: Sends::Frame(true, 0, 0, b""),
    },
    Letter {
        line: "ping \"p\"",
        sends: Sends::Frame(true, 0, 9, b"p"),
    },
    Letter {
        line: "ping -",
        sends: Sends::Frame(true, 0, 9, b""),
    },
    Letter {
        line: "ping fin=0 \"p\"",
        sends: Sends::Frame(false, 0, 9, b"p"),
    },
    Letter {
        line: "ping 2a*126",
        sends: Sends::Frame(true, 0, 9, &[0x2a; 126]),
    },
    Letter {
        line: "pong \"q\"",
        sends: Sends::Frame(true, 0, 10, b"q"),
    },
    Letter {
        line: "close 03e8",
        sends: Sends::Frame(true, 0, 8, b"\x03\xe8"),
    },
    Letter {
        line: "close -",
        sends: Sends::Frame(true, 0, 8, b""),
    },
    Letter {
        line: "close 03",
        sends: Sends::Frame(true, 0, 8, b"\x03"),
    },
    Letter {
        line: "close 03ed",
        sends: Sends::Frame(true, 0, 8, b"\x03\xed"),
    },
    Letter {
        line: "text rsv=4 \"a\"",
        sends: Sends::Frame(true, 4, 1, b"a"),
    },
    Letter {
        line: "op3 -",
        sends: Sends::Frame(true, 0, 3, b""),
    },
    Letter {
        line: "op11 -",
        sends: Sends::Frame(true, 0, 11, b""),
    },
    Letter {
        line: "wait",
        sends: Sends::Nothing,
    },
];

/// They.
fn shared() -> &'static [Letter]
    ensures { map letter_row result.now ≡ shared_steps }
{
    &SHARED
}

/// The last step: a frame whose mask is wrong for a tested end of this role (section 5.1).
fn wrong_mask(tested: Role) -> Letter
    ensures { letter_row result ≡ wrong_mask tested }
{
    match tested {
        Role::Server => Letter {
            line: "text key=- \"a\"",
            sends: Sends::Raw(b"\x81\x01a"),
        },
        Role::Client => Letter {
            line: "text key=00000000 \"a\"",
            sends: Sends::Raw(b"\x81\x81\x00\x00\x00\x00a"),
        },
    }
}

/// The step at this place of the alphabet for a tested end of this role.
pub(crate) fn letter_at(tested: Role, place: usize) -> Letter
    requires { place < alphabet_size }
    ensures { letter_row result ≡ step_at tested place }
{
    let shared = shared();
    if place < shared.len() {
        shared[place]
    } else {
        wrong_mask(tested)
    }
}

/// The line of the step at this place of the alphabet, counted from 0, for a tested end of this role.
pub fn step_line(tested: Role, place: usize) -> &'static str
    requires { place < alphabet_size }
    ensures { result.now ≡ (step_at tested place).line }
{
    letter_at(tested, place).line
}

/// What a step sends, as a step of a script.
pub(crate) fn step_of(alloc: Global, sends: Sends) -> Result<Step, NoMemory>
    ensures { IfOk result (λ step. step ≡ step_of sends) }
{
    match sends {
        Sends::Frame(fin, rsv, opcode, payload) => {
            let payload = Payload::from_vec(Vec::from_slice(alloc, payload)?);
            Ok(Step::Frame {
                fin,
                rsv,
                opcode,
                payload,
            })
        }
        Sends::Raw(bytes) => {
            let bytes = Payload::from_vec(Vec::from_slice(alloc, bytes)?);
            Ok(Step::Raw(bytes))
        }
        Sends::Nothing => Ok(Step::Wait),
    }
}

/// Whether a step is what these send.
pub(crate) fn is_step_of(sends: Sends, step: &Step) -> bool
    ensures { IsTrue result → step.now ≡ step_of sends }
{
    match (step, sends) {
        (
            Step::Frame {
                fin,
                rsv,
                opcode,
                payload,
            },
            Sends::Frame(this_fin, this_rsv, this_opcode, data),
        ) => {
            *fin == this_fin
                && *rsv == this_rsv
                && *opcode == this_opcode
                && payload.as_slice() == data
        }
        (Step::Raw(bytes), Sends::Raw(data)) => bytes.as_slice() == data,
        (Step::Wait, Sends::Nothing) => true,
        _ => false,
    }
}
