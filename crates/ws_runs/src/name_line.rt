//! Whether a line of a text is that of a name.

ghost use Rattle.std.specs.Prelude.{◌≡◌, ◌-◌};
ghost use Rattle.ws_runs.specs.NameLines.{from_line, is_name_line};

use ws_formats::cut_line;

/// Whether the line of this number, counted from 1, names a peer or says more of one.
pub fn is_name_line(text: &[u8], number: u64) -> bool
    ensures { result ≡ is_name_line number text.now }
{
    let rest = from_line(text, number.saturating_sub(1));
    rest.starts_with(b"# ") || rest.starts_with(b"#: ")
}

/// A text behind so many lines. Empty if it has fewer.
fn from_line(text: &[u8], lines: u64) -> &[u8]
    ensures { result.now ≡ from_line lines text.now }
{
    let mut rest = text;
    let mut left = lines;
    while left > 0 {
        let Some((_, after)) = cut_line(rest) else {
            return b"";
        };
        rest = after;
        left -= 1;
    }
    rest
}
