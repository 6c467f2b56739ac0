//! The words of a line that takes a piece, which are most of a script's: they are read in passing.

ghost use Rattle.std.specs.Prelude.{◌≡◌, ◌++◌, IfSome, MatchOption, codes};
ghost use Rattle.ws_calls.specs.Script.{IsTakeLine};

use ws_formats::read_key_or_dash;
use ws_line_words::cut_word;

/// How many bytes the name has with the space behind it.
const NAME: usize = 5;

/// The word that spells the piece, and the key, of a line that takes one.
pub(crate) fn take_words(line: &[u8]) -> Option<(&[u8], [u8; 4])>
    ensures { IfSome result (λ found. IsTakeLine found.0.now found.1 line.now) }
{
    let fields = behind_name(line)?;
    let (piece, key) = cut_word(fields)?;
    let key = read_key_or_dash(key)?;
    Some((piece, key))
}

/// What stands behind the name and its space.
#[inline(always)]
fn behind_name(line: &[u8]) -> Option<&[u8]>
    ensures { IfSome result (λ fields. line.now ≡ codes "take " ++ fields.now) }
{
    match line {
        [b't', b'a', b'k', b'e', b' ', fields @ ..] => Some(fields),
        _ => None,
    }
}

/// Keeps of a line that takes a piece the word that spells it. The key; any other line stays as it is.
pub(crate) fn keep_piece(line: &mut Vec<u8>) -> Option<[u8; 4]>
    ensures { MatchOption result (line.new.items ≡ line.old.items)
        (λ key. IsTakeLine line.new.items key line.old.items) }
{
    let (piece, key) = take_words(line.as_slice())?;
    let len = piece.len();
    line.copy_within(NAME..NAME + len, 0);
    line.truncate(len);
    Some(key)
}
