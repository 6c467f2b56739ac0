//! Cases that are run only where they are named: bytes that no client sends, an end in single bytes, and no bytes (RFC
//! 6455 sections 5.1, 5.2, 5.5.1 and 10.4).

ghost use Rattle.std.specs.Prelude.{◌≡◌, true};
ghost use Rattle.std.specs.List.{list_all};
ghost use Rattle.ws_scripts.specs.CaseNames.{hostile_names};
ghost use Rattle.ws_scripts.specs.InnerCases.{section_names_of, section_fits};

use crate::cases::payloads::HELLO;
use crate::cases::row::Act::{Bare, Fin};
use crate::cases::row::Data::Bytes;
use crate::cases::row::Finish::Plain;
use crate::cases::row::Row;
use crate::cases::row::Section::{self, Rows};
use crate::script::Chop::{Octets, Whole};

/// The section of these cases.
pub(crate) fn sections() -> &'static [Section]
    ensures fits { list_all section_fits result.now ≡ true }
    ensures names { section_names_of result.now ≡ hostile_names }
{
    &SECTIONS
}

static SECTIONS: [Section; 1] = [Rows(&ROWS)];

const ROWS: [Row; 6] = [
    // A length in a longer form than it needs.
    Row(
        "x.1",
        Whole,
        Plain,
        &[Bare(b"\x81\xfe\x00\x05\x37\xfa\x21\x3d\x7f\x9f\x4d\x51\x58")],
    ),
    // A length with its top bit set.
    Row(
        "x.2",
        Octets(1),
        Plain,
        &[Bare(b"\x82\xff\x80\x00\x00\x00\x00\x00\x00\x00\x37\xfa\x21\x3d")],
    ),
    // A frame that isn't masked.
    Row(
        "x.3",
        Whole,
        Plain,
        &[Bare(b"\x81\x05\x48\x65\x6c\x6c\x6f")],
    ),
    Row(
        "x.4",
        Octets(1),
        Plain,
        &[Fin(1, Bytes(HELLO)), Fin(8, Bytes(b"\x03\xe9bye"))],
    ),
    // The header of a frame of 4 GiB.
    Row(
        "x.5",
        Whole,
        Plain,
        &[Bare(b"\x82\xff\x00\x00\x00\x01\x00\x00\x00\x00\x37\xfa\x21\x3d")],
    ),
    Row("x.6", Whole, Plain, &[]),
];
