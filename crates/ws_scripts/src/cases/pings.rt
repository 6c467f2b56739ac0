//! Group 2, pings and pongs (RFC 6455 sections 5.5.2 and 5.5.3).

ghost use Rattle.std.specs.Prelude.{◌≡◌, true};
ghost use Rattle.std.specs.List.{list_all};
ghost use Rattle.ws_scripts.specs.CaseNames.{ping_names};
ghost use Rattle.ws_scripts.specs.InnerCases.{section_names_of, section_fits};

use crate::cases::payloads::{BINARY, HELLO};
use crate::cases::row::Act::{self, Fin};
use crate::cases::row::Data::{Bytes, Run};
use crate::cases::row::Finish::{Closed, Plain};
use crate::cases::row::Row;
use crate::cases::row::Section::{self, Rows};
use crate::script::Chop::{Octets, Whole};

/// The sections of group 2.
pub(crate) fn sections() -> &'static [Section]
    ensures fits { list_all section_fits result.now ≡ true }
    ensures names { section_names_of result.now ≡ ping_names }
{
    &SECTIONS
}

static SECTIONS: [Section; 1] = [Rows(&ROWS)];

const UNSOLICITED: &[u8] = b"unsolicited pong payload";

const TEN_PINGS: [Act; 10] = [
    Fin(9, Bytes(b"payload-0")),
    Fin(9, Bytes(b"payload-1")),
    Fin(9, Bytes(b"payload-2")),
    Fin(9, Bytes(b"payload-3")),
    Fin(9, Bytes(b"payload-4")),
    Fin(9, Bytes(b"payload-5")),
    Fin(9, Bytes(b"payload-6")),
    Fin(9, Bytes(b"payload-7")),
    Fin(9, Bytes(b"payload-8")),
    Fin(9, Bytes(b"payload-9")),
];

const ROWS: [Row; 11] = [
    Row("2.1", Whole, Closed, &[Fin(9, Bytes(b""))]),
    Row("2.2", Whole, Closed, &[Fin(9, Bytes(HELLO))]),
    Row("2.3", Whole, Closed, &[Fin(9, Bytes(BINARY))]),
    Row("2.4", Whole, Closed, &[Fin(9, Run(0xfe, 125))]),
    Row("2.5", Whole, Plain, &[Fin(9, Run(0xfe, 126))]),
    Row("2.6", Octets(1), Closed, &[Fin(9, Run(0xfe, 125))]),
    Row("2.7", Whole, Closed, &[Fin(10, Bytes(b""))]),
    Row("2.8", Whole, Closed, &[Fin(10, Bytes(UNSOLICITED))]),
    Row(
        "2.9",
        Whole,
        Closed,
        &[Fin(10, Bytes(UNSOLICITED)), Fin(9, Bytes(b"ping payload"))],
    ),
    Row("2.10", Whole, Closed, &TEN_PINGS),
    Row("2.11", Octets(1), Closed, &TEN_PINGS),
];
