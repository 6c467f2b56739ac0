//! Segments that stand for bytes which were not captured.

ghost use Rattle.std.specs.Prelude.{◌↔◌, All, IsTrue, MatchOption};
ghost use Rattle.ws_followed.specs.Gaps.{AreCountDigits, IsFirstGap, IsGap, IsNoGap};

use crate::segment::Segment;

/// What stands behind their number, before which there is a `[`.
const GAP_END: &[u8] = b" bytes missing in capture file]\0";

/// The place of the first segment that stands for missing bytes.
pub(crate) fn first_gap(segments: &[Segment]) -> Option<usize>
    ensures { MatchOption result (All IsNoGap segments.now) (IsFirstGap segments.now) }
{
    let mut at = 0;
    while at < segments.len() {
        if is_gap(segments[at].bytes.as_slice()) {
            return Some(at);
        }
        at += 1;
    }
    None
}

/// Whether these bytes of a segment stand for others.
fn is_gap(bytes: &[u8]) -> bool
    ensures { IsTrue result ↔ IsGap bytes.now }
{
    let [b'[', rest @ ..] = bytes else {
        return false;
    };
    if rest.len() < GAP_END.len() {
        return false;
    }
    let (count, end) = rest.split_at(rest.len() - GAP_END.len());
    end == GAP_END && are_count_digits(count)
}

/// Whether these are digits, one at least.
fn are_count_digits(word: &[u8]) -> bool
    ensures { IsTrue result ↔ AreCountDigits word.now }
{
    !word.is_empty() && word.iter().all(|byte| byte.is_ascii_digit())
}
