//! Group 1, framing: messages of each form of length (RFC 6455 section 5.2).

ghost use Rattle.std.specs.Prelude.{◌≡◌, true};
ghost use Rattle.std.specs.List.{list_all};
ghost use Rattle.ws_scripts.specs.CaseNames.{framing_names};
ghost use Rattle.ws_scripts.specs.InnerCases.{section_names_of, section_fits};

use crate::cases::row::Act::Fin;
use crate::cases::row::Data::{Bytes, Run};
use crate::cases::row::Finish::Closed;
use crate::cases::row::Row;
use crate::cases::row::Section::{self, Rows};
use crate::script::Chop::{Octets, Whole};

/// The sections of group 1.
pub(crate) fn sections() -> &'static [Section]
    ensures fits { list_all section_fits result.now ≡ true }
    ensures names { section_names_of result.now ≡ framing_names }
{
    &SECTIONS
}

static SECTIONS: [Section; 2] = [Rows(&TEXTS), Rows(&BINARIES)];

/// A text's byte.
const STAR: u8 = 0x2a;

/// A byte that is no text.
const BYTE: u8 = 0xfe;

/// Text messages.
const TEXTS: [Row; 8] = [
    Row("1.1.1", Whole, Closed, &[Fin(1, Bytes(b""))]),
    Row("1.1.2", Whole, Closed, &[Fin(1, Run(STAR, 125))]),
    Row("1.1.3", Whole, Closed, &[Fin(1, Run(STAR, 126))]),
    Row("1.1.4", Whole, Closed, &[Fin(1, Run(STAR, 127))]),
    Row("1.1.5", Whole, Closed, &[Fin(1, Run(STAR, 128))]),
    Row("1.1.6", Whole, Closed, &[Fin(1, Run(STAR, 65535))]),
    Row("1.1.7", Whole, Closed, &[Fin(1, Run(STAR, 65536))]),
    Row("1.1.8", Octets(997), Closed, &[Fin(1, Run(STAR, 65536))]),
];

/// Binary messages.
const BINARIES: [Row; 8] = [
    Row("1.2.1", Whole, Closed, &[Fin(2, Bytes(b""))]),
    Row("1.2.2", Whole, Closed, &[Fin(2, Run(BYTE, 125))]),
    Row("1.2.3", Whole, Closed, &[Fin(2, Run(BYTE, 126))]),
    Row("1.2.4", Whole, Closed, &[Fin(2, Run(BYTE, 127))]),
    Row("1.2.5", Whole, Closed, &[Fin(2, Run(BYTE, 128))]),
    Row("1.2.6", Whole, Closed, &[Fin(2, Run(BYTE, 65535))]),
    Row("1.2.7", Whole, Closed, &[Fin(2, Run(BYTE, 65536))]),
    Row("1.2.8", Octets(997), Closed, &[Fin(2, Run(BYTE, 65536))]),
];
