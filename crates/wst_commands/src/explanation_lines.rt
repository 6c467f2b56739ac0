//! How the lines of an explanation are written.

ghost use Rattle.std.specs.Prelude.{◌≡◌};
ghost use Rattle.wst_commands.specs.Explaining.{ended_word, fault_word, side_word};
ghost use Rattle.wst_commands.specs.InnerExplaining.{lent_fault, printed_beyond, printed_cut, printed_data};
ghost use Rattle.wst_commands.specs.InnerExplaining.{printed_ending, printed_explanation, printed_last, printed_line};
ghost use Rattle.wst_commands.specs.InnerExplaining.{printed_place, printed_reply, printed_rule, printed_side};

use crate::fault_rules::{got_rule, sent_rule};
use crate::styled_data::StyledData;
use std::alloc::Global;
use std::fmt;
use ws_formats::HexDigits;
use ws_frame::DataStyle;
use ws_scripts::Ended;
use ws_suite::{
    Direction, Ending, Expectation, Explanation, FoundFault, InTurn, Kept, ReplyKind, rule_with,
};
use ws_wire::Role;

/// A payload is shown up to so many bytes.
pub(crate) const SHOWN: usize = 16;

/// What was owed, or what came.
#[derive(Clone, Copy)]
pub(crate) enum Side {
    Due,
    Got,
}

impl Side {
    /// Its word.
    pub(crate) fn word(self) -> &'static str
        ensures { result.now ≡ side_word self }
    {
        match self {
            Side::Due => "due",
            Side::Got => "got",
        }
    }

    /// The word of a fault in it.
    fn fault_word(self) -> &'static str
        ensures { result.now ≡ fault_word self }
    {
        match self {
            Side::Due => "end",
            Side::Got => "failed",
        }
    }
}

/// The lines of an explanation.
#[derive(Drop)]
pub(crate) struct ExplanationLines<'a> {
    pub(crate) alloc: Global,
    /// How payloads of what was owed and of what came are shown.
    pub(crate) style: DataStyle,
    pub(crate) last: LastLines<'a>,
}

impl fmt::Display for ExplanationLines<'_> {
    ghost use Rattle.std.specs.Prelude.{Some};

    ghost output = { λ lines. Some (printed_explanation lines) };

    fn fmt<W: fmt::Write>(&self, f: &mut fmt::Formatter<W>) -> fmt::Result {
        let due = SideLines {
            alloc: self.alloc,
            style: self.style,
            side: Side::Due,
            direction: &self.last.explanation.due,
            fault: None,
        };
        let got = SideLines {
            alloc: self.alloc,
            style: self.style,
            side: Side::Got,
            direction: &self.last.explanation.got,
            fault: found_fault(self.last.explanation),
        };
        write!(f, "{due}{got}{}", self.last)
    }
}

/// The lines of an explanation behind those of what was owed and of what came.
#[derive(Clone, Copy)]
pub(crate) struct LastLines<'a> {
    pub(crate) tested: Role,
    pub(crate) expected: Expectation,
    pub(crate) explanation: &'a Explanation,
    /// The turn, from 0, in which what came ends inside a frame.
    pub(crate) cut: Option<usize>,
}

impl fmt::Display for LastLines<'_> {
    ghost use Rattle.std.specs.Prelude.{Some};

    ghost output = { λ lines. Some (printed_last lines) };

    fn fmt<W: fmt::Write>(&self, f: &mut fmt::Formatter<W>) -> fmt::Result {
        let beyond = BeyondLine {
            turn: self.explanation.beyond,
            bytes: self.explanation.found.behind.as_slice(),
        };
        let cut = CutLine(self.cut);
        let ended = ended_word(self.explanation.ended);
        let rule = RuleLine(rule_with(self.tested, self.expected, self.explanation.verdict));
        write!(f, "{beyond}{cut}")?;
        writeln!(f, "  end {ended} {}", self.explanation.turns)?;
        let got = RuleLine(got_rule(self.explanation.verdict, &self.explanation.got.ending));
        let sent = RuleLine(sent_rule(&self.explanation.due.ending));
        write!(f, "{rule}{got}{sent}")
    }
}

/// The lines of what was owed, or of what came.
#[derive(Drop)]
struct SideLines<'a> {
    alloc: Global,
    style: DataStyle,
    side: Side,
    direction: &'a Direction,
    fault: Option<&'a FoundFault>,
}

impl fmt::Display for SideLines<'_> {
    ghost use Rattle.std.specs.Prelude.{Some};

    ghost output = { λ lines. Some (printed_side lines) };

    fn fmt<W: fmt::Write>(&self, f: &mut fmt::Formatter<W>) -> fmt::Result {
        let mut replies = self.direction.replies.iter();
        while let Some(reply) = replies.next() {
            let line = ReplyLine {
                alloc: self.alloc,
                style: self.style,
                side: self.side,
                reply,
            };
            write!(f, "{line}")?;
        }
        let last = EndingLine {
            side: self.side,
            ending: &self.direction.ending,
            fault: self.fault,
        };
        write!(f, "{last}")
    }
}

/// The line of a message, a pong or a ping.
#[derive(Drop)]
struct ReplyLine<'a> {
    alloc: Global,
    style: DataStyle,
    side: Side,
    reply: Kept<'a>,
}

impl fmt::Display for ReplyLine<'_> {
    ghost use Rattle.std.specs.Prelude.{Some};

    ghost output = { λ line. Some (printed_reply line) };

    fn fmt<W: fmt::Write>(&self, f: &mut fmt::Formatter<W>) -> fmt::Result {
        let start = LineStart {
            side: self.side,
            turn: self.reply.turn,
        };
        let data = StyledData {
            alloc: self.alloc,
            style: self.style,
            payload: self.reply.payload,
        };
        match self.reply.kind {
            ReplyKind::Text => writeln!(f, "{start}text {data}"),
            ReplyKind::Binary => writeln!(f, "{start}binary {data}"),
            ReplyKind::Pong => writeln!(f, "{start}pong {data}"),
            ReplyKind::Ping => writeln!(f, "{start}ping {data}"),
        }
    }
}

/// The line of a close or a fault, if there is one.
#[derive(Drop)]
pub(crate) struct EndingLine<'a> {
    pub(crate) side: Side,
    pub(crate) ending: &'a Option<InTurn<Ending>>,
    /// Where the fault is, with the bytes that show it: only of what came.
    pub(crate) fault: Option<&'a FoundFault>,
}

impl fmt::Display for EndingLine<'_> {
    ghost use Rattle.std.specs.Prelude.{Some};

    ghost output = { λ line. Some (printed_ending line) };

    fn fmt<W: fmt::Write>(&self, f: &mut fmt::Formatter<W>) -> fmt::Result {
        let Some(ending) = self.ending else {
            return Ok(());
        };
        let start = LineStart {
            side: self.side,
            turn: ending.turn,
        };
        let fault = self.side.fault_word();
        let place = PlaceWords(self.fault);
        match ending.what {
            Ending::Closed(None) => writeln!(f, "{start}close none"),
            Ending::Closed(Some(code)) => writeln!(f, "{start}close {code}"),
            Ending::Failed(reason) => writeln!(f, "{start}{fault} {reason}{place}"),
            Ending::Doomed => writeln!(f, "{start}{fault} Doomed"),
        }
    }
}

/// Where a fault is, and the bytes that show it, if there is one.
#[derive(Drop)]
struct PlaceWords<'a>(Option<&'a FoundFault>);

impl fmt::Display for PlaceWords<'_> {
    ghost use Rattle.std.specs.Prelude.{Some};

    ghost output = { λ place. Some (printed_place place) };

    fn fmt<W: fmt::Write>(&self, f: &mut fmt::Formatter<W>) -> fmt::Result {
        match self.0 {
            None => Ok(()),
            Some(fault) => {
                let data = Shown(fault.bytes.as_slice());
                write!(f, " at {} {data}", fault.place)
            }
        }
    }
}

/// The fault that is found in what came, if there is one.
pub(crate) fn found_fault(explanation: &Explanation) -> Option<&FoundFault>
    ensures { lent_fault result ≡ explanation.now.found.fault }
{
    match &explanation.found.fault {
        None => None,
        Some(fault) => Some(fault),
    }
}

/// The line that bytes follow the close that came, if they do: with the first of them.
#[derive(Drop)]
struct BeyondLine<'a> {
    turn: Option<usize>,
    bytes: &'a [u8],
}

impl fmt::Display for BeyondLine<'_> {
    ghost use Rattle.std.specs.Prelude.{Some};

    ghost output = { λ line. Some (printed_beyond line) };

    fn fmt<W: fmt::Write>(&self, f: &mut fmt::Formatter<W>) -> fmt::Result {
        match self.turn {
            None => Ok(()),
            Some(turn) => {
                let start = LineStart {
                    side: Side::Got,
                    turn,
                };
                let data = Shown(self.bytes);
                writeln!(f, "{start}beyond {data}")
            }
        }
    }
}

/// The line that the bytes that came end inside a frame, if they do.
#[derive(Drop)]
struct CutLine(Option<usize>);

impl fmt::Display for CutLine {
    ghost use Rattle.std.specs.Prelude.{Some};

    ghost output = { λ line. Some (printed_cut line) };

    fn fmt<W: fmt::Write>(&self, f: &mut fmt::Formatter<W>) -> fmt::Result {
        match self.0 {
            None => Ok(()),
            Some(turn) => {
                let start = LineStart {
                    side: Side::Got,
                    turn,
                };
                writeln!(f, "{start}cut")
            }
        }
    }
}

/// The line of a rule, if there is one.
#[derive(Drop)]
struct RuleLine(Option<&'static str>);

impl fmt::Display for RuleLine {
    ghost use Rattle.std.specs.Prelude.{Some};

    ghost output = { λ line. Some (printed_rule line) };

    fn fmt<W: fmt::Write>(&self, f: &mut fmt::Formatter<W>) -> fmt::Result {
        match self.0 {
            None => Ok(()),
            Some(sentence) => writeln!(f, "  rule {sentence}"),
        }
    }
}

/// What a line begins with: its side, and its turn, from 0.
#[derive(Drop)]
struct LineStart {
    side: Side,
    turn: usize,
}

impl fmt::Display for LineStart {
    ghost use Rattle.std.specs.Prelude.{Some};

    ghost output = { λ start. Some (printed_line start) };

    fn fmt<W: fmt::Write>(&self, f: &mut fmt::Formatter<W>) -> fmt::Result {
        let number = self.turn as u128 + 1;
        write!(f, "  {} {number} ", self.side.word())
    }
}

/// A payload, of which the first bytes are shown.
#[derive(Drop)]
pub(crate) struct Shown<'a>(pub(crate) &'a [u8]);

impl fmt::Display for Shown<'_> {
    ghost use Rattle.std.specs.Prelude.{Some};

    ghost output = { λ payload. Some (printed_data payload) };

    fn fmt<W: fmt::Write>(&self, f: &mut fmt::Formatter<W>) -> fmt::Result {
        if self.0.is_empty() {
            write!(f, "-")
        } else if self.0.len() > SHOWN {
            write!(f, "{}..", HexDigits(&self.0[..SHOWN]))
        } else {
            write!(f, "{}", HexDigits(self.0))
        }
    }
}

/// The word for how a connection ended.
fn ended_word(ended: Ended) -> &'static str
    ensures { result.now ≡ ended_word ended }
{
    match ended {
        Ended::Tester => "tester",
        Ended::Peer => "peer",
        Ended::Broken => "broken",
    }
}
