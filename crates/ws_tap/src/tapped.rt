//! Which connection is tapped, and how what passes over it is shown.

ghost use Rattle.std.specs.Prelude.{◌≡◌};
ghost use Rattle.ws_tap.specs.Texts.{source_at};

use ws_frame::{DataStyle, Mark, Source};
use ws_wire::Role;

/// A tapped connection, as its lines tell of it.
#[derive(Clone, Copy)]
pub struct Tapped {
    /// Its number, which each line begins with.
    pub number: u32,
    /// How payloads are shown.
    pub style: DataStyle,
}

/// One end of a tapped connection.
#[derive(Clone, Copy)]
pub(crate) struct TappedEnd {
    pub(crate) role: Role,
    pub(crate) tapped: Tapped,
}

impl TappedEnd {
    /// Its stream, as the lines of its frames have it.
    pub(crate) fn source(self) -> Source
        ensures source { result ≡ source_at self.role self.tapped }
        ensures style { result.style ≡ self.tapped.style }
    {
        let mark = match self.role {
            Role::Client => Mark::ClientOf(self.tapped.number),
            Role::Server => Mark::ServerOf(self.tapped.number),
        };
        Source {
            from: self.role,
            mark,
            style: self.tapped.style,
            fault: None,
        }
    }
}
