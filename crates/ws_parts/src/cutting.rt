//! A long piece, cut into parts that are taken one after the other.

ghost use Rattle.std.specs.Prelude.{◌≡◌, ◌++◌, length, min};

/// So few bytes are taken at once that the memory for what they tell doesn't count.
const AT_ONCE: usize = 4096;

/// Cuts the first part off a piece: it, and the rest. Who takes a long piece part by part needs memory for what one
/// part tells, and none for what all of it does.
pub fn cut_part(piece: &[u8]) -> (&[u8], &[u8])
    ensures whole { result.0.now ++ result.1.now ≡ piece.now }
    ensures part { length result.0.now ≡ min (length piece.now) 4096 }
{
    piece.split_at(piece.len().min(AT_ONCE))
}
