//! The marks with which lines of bytes begin.

ghost use Rattle.ws_capture_text.specs.InnerMarks.{CutsMark};

/// Which way the bytes of a line went.
#[derive(Clone, Copy)]
pub(crate) enum Mark {
    /// They were sent.
    Sent,
    /// They were got.
    Got,
}

/// The mark of a line and the word behind it. `None` where a line has no mark.
#[inline(always)]
pub(crate) fn cut_mark(line: &[u8]) -> Option<(Mark, &[u8])>
    ensures { CutsMark line.now result }
{
    match line {
        [b'>', b' ', word @ ..] => Some((Mark::Sent, word)),
        [b'<', b' ', word @ ..] => Some((Mark::Got, word)),
        _ => None,
    }
}
