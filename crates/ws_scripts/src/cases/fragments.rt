//! Group 5, fragments (RFC 6455 section 5.4).

ghost use Rattle.std.specs.Prelude.{◌≡◌, true};
ghost use Rattle.std.specs.List.{list_all};
ghost use Rattle.ws_scripts.specs.CaseNames.{fragment_names};
ghost use Rattle.ws_scripts.specs.InnerCases.{section_names_of, section_fits};

use crate::cases::payloads::HELLO;
use crate::cases::row::Act::{self, Fin, Part, Pause};
use crate::cases::row::Data::{self, Bytes};
use crate::cases::row::Finish::{Closed, Plain};
use crate::cases::row::Row;
use crate::cases::row::Section::{self, Rows};
use crate::script::Chop::{Octets, PerFrame, Whole};

/// The sections of group 5.
pub(crate) fn sections() -> &'static [Section]
    ensures fits { list_all section_fits result.now ≡ true }
    ensures names { section_names_of result.now ≡ fragment_names }
{
    &SECTIONS
}

static SECTIONS: [Section; 1] = [Rows(&ROWS)];

const F1: Data = Bytes(b"fragment1");

const F2: Data = Bytes(b"fragment2");

const F3: Data = Bytes(b"fragment3");

const F4: Data = Bytes(b"fragment4");

const F5: Data = Bytes(b"fragment5");

const PING: Data = Bytes(b"ping payload");

const STRAY: Data = Bytes(b"non-continuation payload");

/// A message in two fragments.
const TWO: [Act; 2] = [Part(1, F1), Fin(0, F2)];

/// The same with a ping between them.
const PING_BETWEEN: [Act; 3] = [Part(1, F1), Fin(9, PING), Fin(0, F2)];

/// A last continuation of no message, and a message.
const STRAY_LAST: [Act; 2] = [Fin(0, STRAY), Fin(1, Bytes(HELLO))];

/// A continuation of no message that is not the last.
const STRAY_PART: [Act; 2] = [Part(0, STRAY), Fin(1, Bytes(HELLO))];

/// Five fragments in two turns, with a ping in each.
const FIVE: [Act; 8] = [
    Part(1, F1),
    Part(0, F2),
    Fin(9, Bytes(b"ping 1")),
    Pause,
    Part(0, F3),
    Part(0, F4),
    Fin(9, Bytes(b"ping 2")),
    Fin(0, F5),
];

const ROWS: [Row; 20] = [
    Row("5.1", Whole, Plain, &[Part(9, F1), Fin(0, F2)]),
    Row("5.2", Whole, Plain, &[Part(10, F1), Fin(0, F2)]),
    Row("5.3", Whole, Closed, &TWO),
    Row("5.4", PerFrame, Closed, &TWO),
    Row("5.5", Octets(1), Closed, &TWO),
    Row("5.6", Whole, Closed, &PING_BETWEEN),
    Row("5.7", PerFrame, Closed, &PING_BETWEEN),
    Row("5.8", Octets(1), Closed, &PING_BETWEEN),
    Row("5.9", Whole, Plain, &STRAY_LAST),
    Row("5.10", PerFrame, Plain, &STRAY_LAST),
    Row("5.11", Octets(1), Plain, &STRAY_LAST),
    Row("5.12", Whole, Plain, &STRAY_PART),
    Row("5.13", PerFrame, Plain, &STRAY_PART),
    Row("5.14", Octets(1), Plain, &STRAY_PART),
    Row(
        "5.15",
        Whole,
        Plain,
        &[Part(1, F1), Fin(0, F2), Part(0, F3), Fin(1, F4)],
    ),
    Row(
        "5.16",
        Whole,
        Plain,
        &[
            Part(0, F1),
            Part(1, F2),
            Fin(0, F3),
            Part(0, F1),
            Part(1, F2),
            Fin(0, F3),
        ],
    ),
    Row(
        "5.17",
        Whole,
        Plain,
        &[
            Fin(0, F1),
            Part(1, F2),
            Fin(0, F3),
            Fin(0, F1),
            Part(1, F2),
            Fin(0, F3),
        ],
    ),
    Row("5.18", Whole, Plain, &[Part(1, F1), Fin(1, F2)]),
    Row("5.19", Whole, Closed, &FIVE),
    Row("5.20", PerFrame, Closed, &FIVE),
];
