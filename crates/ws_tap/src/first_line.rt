//! The first line of a head.

ghost use Rattle.std.specs.Prelude.{◌≡◌, ◌≤◌, length, not};
ghost use Rattle.std.specs.List.{position_or_len};
ghost use Rattle.ws_tap.specs.Texts.{first_line, is_line_end};

/// The first line of a head, without its line end. Empty lines before it are passed over.
pub(crate) fn first_line(head: &[u8]) -> &[u8]
    ensures line { result.now ≡ first_line head.now }
    ensures bound { length result.now ≤ length head.now }
{
    let line = &head[line_start(head)..];
    &line[..line_len(line)]
}

/// How many bytes stand before the first line that is not empty.
fn line_start(bytes: &[u8]) -> usize
    ensures place { result ≡ position_or_len (λ byte. not (is_line_end byte)) bytes.now }
    ensures bound { result ≤ length bytes.now }
{
    bytes
        .iter()
        .position(|byte| !is_line_end(*byte))
        .unwrap_or(bytes.len())
}

/// How many bytes stand before the first line end.
fn line_len(bytes: &[u8]) -> usize
    ensures place { result ≡ position_or_len is_line_end bytes.now }
    ensures bound { result ≤ length bytes.now }
{
    bytes
        .iter()
        .position(|byte| is_line_end(*byte))
        .unwrap_or(bytes.len())
}

/// Whether a byte ends a line, or is part of its end.
fn is_line_end(byte: u8) -> bool
    ensures { result ≡ is_line_end byte }
{
    byte == b'\n' || byte == b'\r'
}
