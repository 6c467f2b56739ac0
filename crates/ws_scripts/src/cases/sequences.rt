//! Group 6, text, its second half: sequences of bytes that are a character, or none (RFC 3629).

ghost use Rattle.std.specs.Prelude.{◌≡◌, true};
ghost use Rattle.std.specs.List.{list_all};
ghost use Rattle.ws_scripts.specs.CaseNames.{sequence_names};
ghost use Rattle.ws_scripts.specs.InnerCases.{section_names_of, section_fits};

use crate::cases::row::Section::{self, Joined, NonCharacters, Texts};

/// The sections of group 6 from 6.12 on.
pub(crate) fn sections() -> &'static [Section]
    ensures fits { list_all section_fits result.now ≡ true }
    ensures names { section_names_of result.now ≡ sequence_names }
{
    &SECTIONS
}

static SECTIONS: [Section; 12] = [
    Texts("6.12", &STRAY),
    Texts("6.13", &LONELY),
    Texts("6.14", &UNFINISHED),
    Joined("6.15", &UNFINISHED),
    Texts("6.16", &IMPOSSIBLE),
    Texts("6.17", &LONG_SLASH),
    Texts("6.18", &LONG_LAST),
    Texts("6.19", &LONG_ZERO),
    Texts("6.20", &SURROGATES),
    Texts("6.21", &PAIRS),
    NonCharacters("6.22"),
    Texts("6.23", &SPECIALS),
];

/// All bytes that go on with a character, in order.
const CONTINUATIONS: &[u8] = b"\x80\x81\x82\x83\x84\x85\x86\x87\x88\x89\x8a\x8b\x8c\x8d\x8e\x8f\
\x90\x91\x92\x93\x94\x95\x96\x97\x98\x99\x9a\x9b\x9c\x9d\x9e\x9f\
\xa0\xa1\xa2\xa3\xa4\xa5\xa6\xa7\xa8\xa9\xaa\xab\xac\xad\xae\xaf\
\xb0\xb1\xb2\xb3\xb4\xb5\xb6\xb7\xb8\xb9\xba\xbb\xbc\xbd\xbe\xbf";

/// Continuations of no character.
const STRAY: [&[u8]; 8] = [
    b"\x80",
    b"\xbf",
    b"\x80\xbf",
    b"\x80\xbf\x80",
    b"\x80\xbf\x80\xbf",
    b"\x80\xbf\x80\xbf\x80",
    b"\x80\xbf\x80\xbf\x80\xbf",
    CONTINUATIONS,
];

/// Lead bytes without a continuation.
const LONELY: [&[u8]; 5] = [
    b"\xc0\x20",
    b"\xe0\x20",
    b"\xf0\x20",
    b"\xf8\x20",
    b"\xfc\x20",
];

/// Characters without their last byte.
const UNFINISHED: [&[u8]; 10] = [
    b"\xc0",
    b"\xe0\x80",
    b"\xf0\x80\x80",
    b"\xf8\x80\x80\x80",
    b"\xfc\x80\x80\x80\x80",
    b"\xdf",
    b"\xef\xbf",
    b"\xf7\xbf\xbf",
    b"\xfb\xbf\xbf\xbf",
    b"\xfd\xbf\xbf\xbf\xbf",
];

/// Bytes that no text has.
const IMPOSSIBLE: [&[u8]; 3] = [b"\xfe", b"\xff", b"\xfe\xfe\xff\xff"];

/// A slash in more bytes than it needs.
const LONG_SLASH: [&[u8]; 5] = [
    b"\xc0\xaf",
    b"\xe0\x80\xaf",
    b"\xf0\x80\x80\xaf",
    b"\xf8\x80\x80\x80\xaf",
    b"\xfc\x80\x80\x80\x80\xaf",
];

/// The last characters that need fewer bytes.
const LONG_LAST: [&[u8]; 5] = [
    b"\xc1\xbf",
    b"\xe0\x9f\xbf",
    b"\xf0\x8f\xbf\xbf",
    b"\xf8\x87\xbf\xbf\xbf",
    b"\xfc\x83\xbf\xbf\xbf\xbf",
];

/// U+0000 in more bytes than it needs.
const LONG_ZERO: [&[u8]; 5] = [
    b"\xc0\x80",
    b"\xe0\x80\x80",
    b"\xf0\x80\x80\x80",
    b"\xf8\x80\x80\x80\x80",
    b"\xfc\x80\x80\x80\x80\x80",
];

/// Surrogates.
const SURROGATES: [&[u8]; 7] = [
    b"\xed\xa0\x80",
    b"\xed\xad\xbf",
    b"\xed\xae\x80",
    b"\xed\xaf\xbf",
    b"\xed\xb0\x80",
    b"\xed\xbe\x80",
    b"\xed\xbf\xbf",
];

/// Pairs of surrogates.
const PAIRS: [&[u8]; 8] = [
    b"\xed\xa0\x80\xed\xb0\x80",
    b"\xed\xa0\x80\xed\xbf\xbf",
    b"\xed\xad\xbf\xed\xb0\x80",
    b"\xed\xad\xbf\xed\xbf\xbf",
    b"\xed\xae\x80\xed\xb0\x80",
    b"\xed\xae\x80\xed\xbf\xbf",
    b"\xed\xaf\xbf\xed\xb0\x80",
    b"\xed\xaf\xbf\xed\xbf\xbf",
];

/// The specials, of which the last two are non-characters.
const SPECIALS: [&[u8]; 7] = [
    b"\xef\xbf\xb9",
    b"\xef\xbf\xba",
    b"\xef\xbf\xbb",
    b"\xef\xbf\xbc",
    b"\xef\xbf\xbd",
    b"\xef\xbf\xbe",
    b"\xef\xbf\xbf",
];
