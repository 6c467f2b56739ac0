//! Group 7, closes (RFC 6455 sections 5.5.1 and 7.4).

ghost use Rattle.std.specs.Prelude.{◌≡◌, true};
ghost use Rattle.std.specs.List.{list_all};
ghost use Rattle.ws_scripts.specs.CaseNames.{close_names};
ghost use Rattle.ws_scripts.specs.InnerCases.{section_names_of, section_fits};

use crate::cases::payloads::HELLO;
use crate::cases::row::Act::{self, Fin, Part};
use crate::cases::row::Data::{Bytes, BytesAndRun, Run};
use crate::cases::row::Finish::Plain;
use crate::cases::row::Row;
use crate::cases::row::Section::{self, Codes, Rows};
use crate::script::Chop::Whole;

/// The sections of group 7.
pub(crate) fn sections() -> &'static [Section]
    ensures fits { list_all section_fits result.now ≡ true }
    ensures names { section_names_of result.now ≡ close_names }
{
    &SECTIONS
}

static SECTIONS: [Section; 5] = [
    Rows(&AFTER_CLOSE),
    Rows(&PAYLOADS),
    Rows(&REASONS),
    Codes("7.7", &ALLOWED),
    Codes("7.9", &REFUSED),
];

/// A close with code 1000.
const CLOSE: Act = Fin(8, Bytes(b"\x03\xe8"));

/// What stands behind a close.
const AFTER_CLOSE: [Row; 6] = [
    Row("7.1.1", Whole, Plain, &[Fin(1, Bytes(HELLO)), CLOSE]),
    Row("7.1.2", Whole, Plain, &[CLOSE, CLOSE]),
    Row("7.1.3", Whole, Plain, &[CLOSE, Fin(9, Bytes(b""))]),
    Row("7.1.4", Whole, Plain, &[CLOSE, Fin(1, Bytes(HELLO))]),
    Row(
        "7.1.5",
        Whole,
        Plain,
        &[
            Part(1, Bytes(b"fragment1")),
            CLOSE,
            Fin(0, Bytes(b"fragment2")),
        ],
    ),
    Row(
        "7.1.6",
        Whole,
        Plain,
        &[Fin(1, Run(0x2a, 262_144)), CLOSE, Fin(9, Bytes(b""))],
    ),
];

/// Close payloads.
const PAYLOADS: [Row; 6] = [
    Row("7.3.1", Whole, Plain, &[Fin(8, Bytes(b""))]),
    Row("7.3.2", Whole, Plain, &[Fin(8, Bytes(b"\x61"))]),
    Row("7.3.3", Whole, Plain, &[CLOSE]),
    Row(
        "7.3.4",
        Whole,
        Plain,
        &[Fin(8, Bytes(b"\x03\xe8Hello, world!"))],
    ),
    Row(
        "7.3.5",
        Whole,
        Plain,
        &[Fin(8, BytesAndRun(b"\x03\xe8", 0x2a, 123))],
    ),
    Row(
        "7.3.6",
        Whole,
        Plain,
        &[Fin(8, BytesAndRun(b"\x03\xe8", 0x2a, 124))],
    ),
];

/// A close reason that is no text.
const REASONS: [Row; 1] = [Row(
    "7.5.1",
    Whole,
    Plain,
    &[Fin(
        8,
        Bytes(b"\x03\xe8\xce\xba\xe1\xbd\xb9\xcf\x83\xce\xbc\xce\xb5\xed\xa0\x80edited"),
    )],
)];

/// Codes that may stand in a close frame.
const ALLOWED: [u16; 13] = [
    1000, 1001, 1002, 1003, 1007, 1008, 1009, 1010, 1011, 3000, 3999, 4000, 4999,
];

/// Codes that may not.
const REFUSED: [u16; 9] = [0, 999, 1004, 1005, 1006, 1016, 1100, 2000, 2999];
