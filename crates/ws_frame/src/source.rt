//! Whose stream is shown, and how its lines begin.

ghost use Rattle.std.specs.Prelude.{◌≡◌, ◌≤◌, ◌+◌, ◌++◌, length};
ghost use Rattle.ws_frame.specs.Lines.{alone, mark_word, plain};

use crate::room::Room;
use ws_wire::Role;

/// What stands before each line of a stream: nothing where one stream is shown alone.
#[derive(Clone, Copy, PartialEq, Eq)]
pub enum Mark {
    /// Nothing.
    Plain,
    /// `> `: the bytes that a tester sent.
    Sent,
    /// `< `: the bytes that a tester got.
    Got,
    /// `N > `: the bytes that the client of the connection of this number sent.
    ClientOf(u32),
    /// `N < `: the bytes that its server sent.
    ServerOf(u32),
}

impl Mark {
    /// Puts the mark behind what stands in the room. A stream that is shown alone has none.
    #[inline(always)]
    pub(crate) fn push_to(self, room: &mut Room)
        requires { length room.old + 23 ≤ 2048 }
        ensures pushed { room.new ≡ room.old ++ mark_word self }
        ensures len { length room.new ≤ length room.old + 23 }
    {
        if let Mark::Plain = self {
            return;
        }
        self.push_word_to(room);
    }

    /// The same of any mark. It stands apart, so that a stream that is shown alone doesn't pay for it.
    fn push_word_to(self, room: &mut Room)
        requires { length room.old + 23 ≤ 2048 }
        ensures pushed { room.new ≡ room.old ++ mark_word self }
        ensures len { length room.new ≤ length room.old + 23 }
    {
        match self {
            Mark::Plain => {}
            Mark::Sent => room.push(b"> "),
            Mark::Got => room.push(b"< "),
            Mark::ClientOf(number) => {
                room.push_decimal(u64::from(number));
                room.push(b" > ");
            }
            Mark::ServerOf(number) => {
                room.push_decimal(u64::from(number));
                room.push(b" < ");
            }
        }
    }
}

/// How a line shows a payload.
#[derive(Clone, Copy, PartialEq, Eq)]
pub enum DataStyle {
    /// Its first sixteen bytes, as hexadecimal digits.
    Hex,
    /// As text where all of it is text, of a close frame the code as a number; else as `Hex`.
    Text,
    /// All of it, as hexadecimal digits.
    All,
}

/// Whose stream is shown: the end that sent it, for the remarks on masking, what stands before each of its lines, how
/// these show payloads, and which of them tells that the payload breaks a rule.
#[derive(Clone, Copy)]
pub struct Source {
    pub from: Role,
    pub mark: Mark,
    pub style: DataStyle,
    /// Where the frame begins whose text or close payload is the first violation, if it is known.
    pub fault: Option<u64>,
}

impl Source {
    /// A stream that is shown alone, by the first bytes of its payloads.
    pub fn plain(from: Role) -> Source
        ensures { result ≡ plain from }
    {
        Source::alone(from, DataStyle::Hex)
    }

    /// A stream that is shown alone, with its payloads in this style.
    pub fn alone(from: Role, style: DataStyle) -> Source
        ensures { result ≡ alone from style }
    {
        Source {
            from,
            mark: Mark::Plain,
            style,
            fault: None,
        }
    }
}
