//! What is wrong with a line that `report` or `test --known` can't read, where that is known to happen often.

ghost use Rattle.std.specs.Prelude.{◌≡◌};
ghost use Rattle.wst_commands.specs.RunDamages.{begun_damage, known_damage_words, run_damage, run_damage_words};
ghost use Rattle.wst_commands.specs.RunDamages.{run_line_damage};

use crate::step_damages::{behind_lines, cut_at};

/// What is wrong with a line of runs.
#[derive(Clone, Copy, Debug, PartialEq, Eq)]
pub enum RunDamage {
    /// It is the last line, and has no LF.
    CutLine,
    /// It ends in CR.
    LineWithCr,
    /// It begins a document of XML.
    Document,
    /// It begins as the name of a peer, and has no space behind that.
    Name,
    /// It is none of these.
    Unknown,
}

impl RunDamage {
    /// What is printed of the line, where it stands in an earlier run.
    pub(crate) fn known_words(self) -> &'static str
        ensures { result.now ≡ known_damage_words self }
    {
        match self {
            RunDamage::Document =>
                "not a verdict\n  --known reads the lines of wst test, not its JUnit document",
            RunDamage::Name =>
                "not a verdict\n  --known reads one run: leave out the lines that begin with #",
            RunDamage::CutLine | RunDamage::LineWithCr | RunDamage::Unknown => self.words(),
        }
    }

    /// What is printed of the line. The second line says what to do, where that is known.
    pub(crate) fn words(self) -> &'static str
        ensures { result.now ≡ run_damage_words self }
    {
        match self {
            RunDamage::CutLine => "not a verdict\n  end the last line with a line feed too",
            RunDamage::LineWithCr =>
                "not a verdict\n  end lines with LF alone, not with CR LF: tr -d '\\r'",
            RunDamage::Document =>
                "not a verdict\n  report reads the lines of wst test, not its JUnit document",
            RunDamage::Name =>
                "not a verdict\n  a peer is # NAME, with a space, and more of it is #: TEXT",
            RunDamage::Unknown => "not a verdict",
        }
    }
}

/// What is wrong with the line of this number, counted from 1, of runs that are damaged there.
pub fn run_damage(text: &[u8], number: u64) -> RunDamage
    ensures { result ≡ run_damage text.now number }
{
    let rest = behind_lines(text, number.saturating_sub(1));
    match cut_at(rest, b'\n') {
        Some((line, _)) => run_line_damage(line),
        None => RunDamage::CutLine,
    }
}

/// What is wrong with a line that has an LF.
fn run_line_damage(line: &[u8]) -> RunDamage
    ensures { result ≡ run_line_damage line.now }
{
    if line.ends_with(b"\r") {
        RunDamage::LineWithCr
    } else {
        begun_damage(line)
    }
}

/// What is wrong with it by its first byte.
fn begun_damage(line: &[u8]) -> RunDamage
    ensures { result ≡ begun_damage line.now }
{
    match line {
        [b'<', ..] => RunDamage::Document,
        [b'#', ..] => RunDamage::Name,
        _ => RunDamage::Unknown,
    }
}
