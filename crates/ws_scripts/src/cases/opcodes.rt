//! Group 4, reserved opcodes (RFC 6455 section 5.2). Each row breaks this rule.

ghost use Rattle.std.specs.Prelude.{◌≡◌, true};
ghost use Rattle.std.specs.List.{list_all};
ghost use Rattle.ws_scripts.specs.CaseNames.{opcode_names};
ghost use Rattle.ws_scripts.specs.InnerCases.{section_names_of, section_fits};

use crate::cases::payloads::HELLO;
use crate::cases::row::Act::Fin;
use crate::cases::row::Data::Bytes;
use crate::cases::row::Finish::Plain;
use crate::cases::row::Row;
use crate::cases::row::Section::{self, Rows};
use crate::script::Chop::{Octets, PerFrame, Whole};

/// The sections of group 4.
pub(crate) fn sections() -> &'static [Section]
    ensures fits { list_all section_fits result.now ≡ true }
    ensures names { section_names_of result.now ≡ opcode_names }
{
    &SECTIONS
}

static SECTIONS: [Section; 2] = [Rows(&DATA), Rows(&CONTROL)];

/// Opcodes of data frames.
const DATA: [Row; 5] = [
    Row("4.1.1", Whole, Plain, &[Fin(3, Bytes(b""))]),
    Row("4.1.2", Whole, Plain, &[Fin(4, Bytes(HELLO))]),
    Row(
        "4.1.3",
        Whole,
        Plain,
        &[Fin(1, Bytes(HELLO)), Fin(5, Bytes(b"")), Fin(9, Bytes(b""))],
    ),
    Row(
        "4.1.4",
        PerFrame,
        Plain,
        &[
            Fin(1, Bytes(HELLO)),
            Fin(6, Bytes(HELLO)),
            Fin(9, Bytes(b"")),
        ],
    ),
    Row(
        "4.1.5",
        Octets(1),
        Plain,
        &[
            Fin(1, Bytes(HELLO)),
            Fin(7, Bytes(HELLO)),
            Fin(9, Bytes(b"")),
        ],
    ),
];

/// Opcodes of control frames.
const CONTROL: [Row; 5] = [
    Row("4.2.1", Whole, Plain, &[Fin(11, Bytes(b""))]),
    Row("4.2.2", Whole, Plain, &[Fin(12, Bytes(HELLO))]),
    Row(
        "4.2.3",
        Whole,
        Plain,
        &[
            Fin(1, Bytes(HELLO)),
            Fin(13, Bytes(b"")),
            Fin(9, Bytes(b"")),
        ],
    ),
    Row(
        "4.2.4",
        PerFrame,
        Plain,
        &[
            Fin(1, Bytes(HELLO)),
            Fin(14, Bytes(HELLO)),
            Fin(9, Bytes(b"")),
        ],
    ),
    Row(
        "4.2.5",
        Octets(1),
        Plain,
        &[
            Fin(1, Bytes(HELLO)),
            Fin(15, Bytes(HELLO)),
            Fin(9, Bytes(b"")),
        ],
    ),
];
