//! Group 6, text (RFC 6455 section 8.1, RFC 3629).

ghost use Rattle.std.specs.Prelude.{◌≡◌, true};
ghost use Rattle.std.specs.List.{list_all};
ghost use Rattle.ws_scripts.specs.CaseNames.{text_names};
ghost use Rattle.ws_scripts.specs.InnerCases.{section_names_of, section_fits};

use crate::cases::payloads::{BROKEN_TEXT, KOSME};
use crate::cases::row::Act::{ByteByByte, Fin, Part, Pause};
use crate::cases::row::Data::Bytes;
use crate::cases::row::Finish::{Closed, Plain};
use crate::cases::row::Row;
use crate::cases::row::Section::{self, Fronts, Rows, Texts};
use crate::script::Chop::{Octets, PerFrame, Whole};

/// The sections of group 6 up to 6.11.
pub(crate) fn sections() -> &'static [Section]
    ensures fits { list_all section_fits result.now ≡ true }
    ensures names { section_names_of result.now ≡ text_names }
{
    &SECTIONS
}

static SECTIONS: [Section; 11] = [
    Rows(&EMPTY),
    Rows(&CUT),
    Rows(&BROKEN),
    Rows(&AT_ONCE),
    Texts("6.5", &WORD),
    Fronts("6.6", KOSME),
    Texts("6.7", &FIRST),
    Texts("6.8", &FIRST_TOO_LONG),
    Texts("6.9", &LAST),
    Texts("6.10", &LAST_TOO_LONG),
    Texts("6.11", &EDGES),
];

/// `Hello-µ@ßöäüàá-UTF-8!!`, and its first 11 bytes and the rest.
const GREETING: &[u8] = b"Hello-\xc2\xb5@\xc3\x9f\xc3\xb6\xc3\xa4\xc3\xbc\xc3\xa0\xc3\xa1-UTF-8!!";

const GREETING_FRONT: &[u8] = b"Hello-\xc2\xb5@\xc3\x9f";

const GREETING_REST: &[u8] = b"\xc3\xb6\xc3\xa4\xc3\xbc\xc3\xa0\xc3\xa1-UTF-8!!";

/// The Greek word, a character above U+10FFFF, and `edited`.
const TOO_HIGH: &[u8] = b"\xce\xba\xe1\xbd\xb9\xcf\x83\xce\xbc\xce\xb5\xf4\x90\x80\x80edited";

/// Empty fragments.
const EMPTY: [Row; 3] = [
    Row("6.1.1", Whole, Closed, &[Fin(1, Bytes(b""))]),
    Row(
        "6.1.2",
        Whole,
        Closed,
        &[Part(1, Bytes(b"")), Part(0, Bytes(b"")), Fin(0, Bytes(b""))],
    ),
    Row(
        "6.1.3",
        Whole,
        Closed,
        &[
            Part(1, Bytes(b"")),
            Part(0, Bytes(b"middle")),
            Fin(0, Bytes(b"")),
        ],
    ),
];

/// Text cut into fragments, also inside characters.
const CUT: [Row; 4] = [
    Row("6.2.1", Whole, Closed, &[Fin(1, Bytes(GREETING))]),
    Row(
        "6.2.2",
        Whole,
        Closed,
        &[Part(1, Bytes(GREETING_FRONT)), Fin(0, Bytes(GREETING_REST))],
    ),
    Row("6.2.3", Whole, Closed, &[ByteByByte(GREETING)]),
    Row("6.2.4", Whole, Closed, &[ByteByByte(KOSME)]),
];

/// What is no text, whole and in fragments.
const BROKEN: [Row; 2] = [
    Row("6.3.1", Whole, Plain, &[Fin(1, Bytes(BROKEN_TEXT))]),
    Row("6.3.2", PerFrame, Plain, &[ByteByByte(BROKEN_TEXT)]),
];

/// What is no text, in pieces: the fault is due as soon as nothing completes the text.
const AT_ONCE: [Row; 4] = [
    Row(
        "6.4.1",
        Whole,
        Plain,
        &[
            Part(1, Bytes(KOSME)),
            Pause,
            Part(0, Bytes(b"\xf4\x90\x80\x80")),
            Pause,
            Fin(0, Bytes(b"edited")),
        ],
    ),
    Row(
        "6.4.2",
        Whole,
        Plain,
        &[
            Part(
                1,
                Bytes(b"\xce\xba\xe1\xbd\xb9\xcf\x83\xce\xbc\xce\xb5\xf4"),
            ),
            Pause,
            Part(0, Bytes(b"\x90")),
            Pause,
            Fin(0, Bytes(b"\x80\x80edited")),
        ],
    ),
    Row("6.4.3", Octets(17), Plain, &[Fin(1, Bytes(TOO_HIGH))]),
    Row("6.4.4", Octets(1), Plain, &[Fin(1, Bytes(TOO_HIGH))]),
];

const WORD: [&[u8]; 1] = [KOSME];

/// The first character of each length.
const FIRST: [&[u8]; 4] = [b"\x00", b"\xc2\x80", b"\xe0\xa0\x80", b"\xf0\x90\x80\x80"];

/// Those of lengths that UTF-8 has no more.
const FIRST_TOO_LONG: [&[u8]; 2] = [b"\xf8\x88\x80\x80\x80", b"\xfc\x84\x80\x80\x80\x80"];

/// The last character of each length.
const LAST: [&[u8]; 4] = [b"\x7f", b"\xdf\xbf", b"\xef\xbf\xbf", b"\xf4\x8f\xbf\xbf"];

/// Those above U+10FFFF.
const LAST_TOO_LONG: [&[u8]; 3] = [
    b"\xf7\xbf\xbf\xbf",
    b"\xfb\xbf\xbf\xbf\xbf",
    b"\xfd\xbf\xbf\xbf\xbf\xbf",
];

/// Round the surrogates and the last character.
const EDGES: [&[u8]; 5] = [
    b"\xed\x9f\xbf",
    b"\xee\x80\x80",
    b"\xef\xbf\xbd",
    b"\xf4\x8f\xbf\xbf",
    b"\xf4\x90\x80\x80",
];
