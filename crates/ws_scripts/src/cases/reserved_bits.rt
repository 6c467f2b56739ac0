//! Group 3, reserved bits (RFC 6455 section 5.2). Each row breaks this rule.

ghost use Rattle.std.specs.Prelude.{◌≡◌, true};
ghost use Rattle.std.specs.List.{list_all};
ghost use Rattle.ws_scripts.specs.CaseNames.{reserved_bit_names};
ghost use Rattle.ws_scripts.specs.InnerCases.{section_names_of, section_fits};

use crate::cases::payloads::{BINARY, HELLO};
use crate::cases::row::Act::{Fin, Reserved};
use crate::cases::row::Data::Bytes;
use crate::cases::row::Finish::Plain;
use crate::cases::row::Row;
use crate::cases::row::Section::{self, Rows};
use crate::script::Chop::{Octets, PerFrame, Whole};

/// The sections of group 3.
pub(crate) fn sections() -> &'static [Section]
    ensures fits { list_all section_fits result.now ≡ true }
    ensures names { section_names_of result.now ≡ reserved_bit_names }
{
    &SECTIONS
}

static SECTIONS: [Section; 1] = [Rows(&ROWS)];

const ROWS: [Row; 7] = [
    Row("3.1", Whole, Plain, &[Reserved(1, 1, Bytes(HELLO))]),
    Row(
        "3.2",
        Whole,
        Plain,
        &[
            Fin(1, Bytes(HELLO)),
            Reserved(2, 1, Bytes(HELLO)),
            Fin(9, Bytes(b"")),
        ],
    ),
    Row(
        "3.3",
        PerFrame,
        Plain,
        &[
            Fin(1, Bytes(HELLO)),
            Reserved(3, 1, Bytes(HELLO)),
            Fin(9, Bytes(b"")),
        ],
    ),
    Row(
        "3.4",
        Octets(1),
        Plain,
        &[
            Fin(1, Bytes(HELLO)),
            Reserved(4, 1, Bytes(HELLO)),
            Fin(9, Bytes(b"")),
        ],
    ),
    Row("3.5", Whole, Plain, &[Reserved(5, 2, Bytes(BINARY))]),
    Row("3.6", Whole, Plain, &[Reserved(6, 9, Bytes(HELLO))]),
    Row("3.7", Whole, Plain, &[Reserved(7, 8, Bytes(b""))]),
];
