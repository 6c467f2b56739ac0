//! The character inside which a piece of text ends (RFC 3629 section 3).

ghost use Rattle.std.specs.Prelude.{◌≡◌, ◌≤◌, ◌<◌, ℕ, List, [], ◌∷◌, ◌++◌, length, take, IsTrue, ◌↔◌, ◌⊎◌, MatchOption};
ghost use Rattle.std.specs.Prelude.{MatchResult, IfOk, IfErr};
ghost use Rattle.std.specs.Int.{IsInRange};
ghost use Rattle.std.specs.Str.{IsAscii};
ghost use Rattle.ws_text.specs.Text.{HasUnfinished, IsText, IsUnfinished};
ghost use Rattle.ws_text.specs.Stream.{BreaksTextAt, IsWanted};
ghost use Rattle.ws_text.specs.InnerStep.{kept_bytes, BeginsCharacter, GoesOn};

use crate::whole::{HANDFUL, LANES, few_ascii, is_short_ascii, valid_behind, valid_prefix};

/// The first bytes of a character that is not all there, or none.
#[derive(Clone, Copy)]
pub(crate) enum Unfinished {
    Nothing,
    One(u8),
    Two(u8, u8),
    Three(u8, u8, u8),
}

impl Unfinished {
    /// Whether no byte is kept.
    pub(crate) fn is_nothing(self) -> bool
        ensures { IsTrue result ↔ (kept_bytes self ≡ []) }
    {
        matches!(self, Unfinished::Nothing)
    }

    /// How many bytes of the character are missing: its first byte tells how many it has.
    pub(crate) fn missing(self) -> usize
        requires { IsUnfinished (kept_bytes self) }
        ensures wanted { IsWanted (kept_bytes self) result }
        ensures bound { result ≤ 3 }
    {
        match self {
            Unfinished::Nothing => 0,
            Unfinished::One(lead) => {
                if lead < 0xe0 {
                    return 1;
                }
                if lead < 0xf0 {
                    return 2;
                }
                3
            }
            Unfinished::Two(lead, _) => {
                if lead < 0xf0 {
                    return 1;
                }
                2
            }
            Unfinished::Three(_, _, _) => 1,
        }
    }

    /// What the next byte makes of it: `None` where no character goes on so.
    fn push_byte(self, byte: u8) -> Option<Unfinished>
        requires { IsUnfinished (kept_bytes self) }
        ensures { MatchOption result (¬ BeginsCharacter (kept_bytes self ++ byte ∷ []))
            (λ new. GoesOn (kept_bytes self) byte (kept_bytes new)) }
    {
        match self {
            Unfinished::Nothing => after_first(byte),
            Unfinished::One(lead) => {
                if !may_be_second(lead, byte) {
                    return None;
                }
                if lead < 0xe0 {
                    return Some(Unfinished::Nothing);
                }
                Some(Unfinished::Two(lead, byte))
            }
            Unfinished::Two(lead, second) => {
                if !may_be_later(byte) {
                    return None;
                }
                if lead < 0xf0 {
                    return Some(Unfinished::Nothing);
                }
                Some(Unfinished::Three(lead, second, byte))
            }
            Unfinished::Three(_, _, _) => {
                if !may_be_later(byte) {
                    return None;
                }
                Some(Unfinished::Nothing)
            }
        }
    }

    /// Takes a piece: what is unfinished after it, or the place of the byte with which no text goes on.
    pub(crate) fn push(self, piece: &[u8]) -> Result<Unfinished, usize>
        requires { IsUnfinished (kept_bytes self) }
        ensures unfinished { IfOk result (λ new. IsUnfinished (kept_bytes new)) }
        ensures text { (text : List ℕ) → HasUnfinished text (kept_bytes self) →
            MatchResult result (λ new. HasUnfinished (text ++ piece.now) (kept_bytes new))
            (BreaksTextAt text piece.now) }
    {
        if self.is_nothing() {
            if piece.len() < LANES {
                let ascii = few_ascii(piece);
                if ascii == piece.len() {
                    return Ok(Unfinished::Nothing);
                }
                return push_few(piece, ascii);
            }
            if is_short_ascii(piece) {
                return Ok(Unfinished::Nothing);
            }
        }
        self.push_any(piece)
    }

    /// The same of any piece: a cut character is joined byte by byte, and so is one that the piece cuts; `valid_prefix`
    /// checks what lies between. It stands apart, so that a short piece of ASCII doesn't pay for it.
    #[inline(never)]
    fn push_any(self, piece: &[u8]) -> Result<Unfinished, usize>
        requires { IsUnfinished (kept_bytes self) }
        ensures unfinished { IfOk result (λ new. IsUnfinished (kept_bytes new)) }
        ensures text { (text : List ℕ) → HasUnfinished text (kept_bytes self) →
            MatchResult result (λ new. HasUnfinished (text ++ piece.now) (kept_bytes new))
            (BreaksTextAt text piece.now) }
    {
        if piece.len() <= HANDFUL {
            return self.push_bytes(piece);
        }
        let (unfinished, used) = self.complete(piece)?;
        let rest = &piece[used..];
        let whole = valid_prefix(rest);
        if whole == rest.len() {
            return Ok(unfinished);
        }
        match unfinished.push_bytes(&rest[whole..]) {
            Ok(unfinished) => Ok(unfinished),
            Err(place) => Err(used + whole + place),
        }
    }

    /// Takes bytes until no character is unfinished, or the piece ends: what is unfinished then and
    /// how many bytes it took, or the place of the byte with which no text goes on.
    fn complete(self, piece: &[u8]) -> Result<(Unfinished, usize), usize>
        requires { IsUnfinished (kept_bytes self) }
        ensures used { IfOk result (λ end. (end.1 ≤ length piece.now)
            × ((kept_bytes end.0 ≡ []) ⊎ (end.1 ≡ length piece.now))) }
        ensures unfinished { IfOk result (λ end. IsUnfinished (kept_bytes end.0)) }
        ensures text { (text : List ℕ) → HasUnfinished text (kept_bytes self) →
            MatchResult result (λ end. HasUnfinished (text ++ take end.1 piece.now) (kept_bytes end.0))
            (BreaksTextAt text piece.now) }
    {
        let mut unfinished = self;
        for (place, byte) in piece.iter().enumerate() {
            if unfinished.is_nothing() {
                return Ok((unfinished, place));
            }
            match unfinished.push_byte(*byte) {
                Some(next) => unfinished = next,
                None => return Err(place),
            }
        }
        Ok((unfinished, piece.len()))
    }

    /// Takes every byte of the piece, one by one.
    fn push_bytes(self, piece: &[u8]) -> Result<Unfinished, usize>
        requires { IsUnfinished (kept_bytes self) }
        ensures unfinished { IfOk result (λ new. IsUnfinished (kept_bytes new)) }
        ensures within { IfErr result (λ place. place < length piece.now) }
        ensures text { (text : List ℕ) → HasUnfinished text (kept_bytes self) →
            MatchResult result (λ new. HasUnfinished (text ++ piece.now) (kept_bytes new))
            (BreaksTextAt text piece.now) }
    {
        let mut unfinished = self;
        for (i, byte) in piece.iter().enumerate() {
            match unfinished.push_byte(*byte) {
                Some(next) => unfinished = next,
                None => return Err(i),
            }
        }
        Ok(unfinished)
    }
}

/// Takes a piece of few bytes after whole characters, so many at its front known to be ASCII. It stands apart, so that
/// these don't pay for what `simdutf8` sets up.
#[inline(never)]
fn push_few(piece: &[u8], ascii: usize) -> Result<Unfinished, usize>
    requires within { ascii ≤ length piece.now }
    requires front { IsAscii (take ascii piece.now) }
    ensures unfinished { IfOk result (λ new. IsUnfinished (kept_bytes new)) }
    ensures text { (text : List ℕ) → IsText text →
        MatchResult result (λ new. HasUnfinished (text ++ piece.now) (kept_bytes new))
        (BreaksTextAt text piece.now) }
{
    let whole = valid_behind(piece, ascii);
    if whole == piece.len() {
        return Ok(Unfinished::Nothing);
    }
    match Unfinished::Nothing.push_bytes(&piece[whole..]) {
        Ok(unfinished) => Ok(unfinished),
        Err(place) => Err(whole + place),
    }
}

/// What a character's first byte makes of nothing.
fn after_first(byte: u8) -> Option<Unfinished>
    ensures { MatchOption result (¬ BeginsCharacter (byte ∷ []))
        (λ new. GoesOn [] byte (kept_bytes new)) }
{
    match byte {
        0x00..=0x7f => Some(Unfinished::Nothing),
        0x80..=0xc1 => None,
        0xc2..=0xf4 => Some(Unfinished::One(byte)),
        0xf5..=0xff => None,
    }
}

/// Whether some character begins with these two bytes.
fn may_be_second(lead: u8, byte: u8) -> bool
    requires { IsUnfinished (lead ∷ []) }
    ensures { IsTrue result ↔ BeginsCharacter (lead ∷ byte ∷ []) }
{
    let (least, most) = second_bytes(lead);
    least <= byte && byte <= most
}

/// The least and the greatest byte that may be the second after this first one: neither a longer
/// form than is needed, nor a surrogate, nor past the last character.
fn second_bytes(lead: u8) -> (u8, u8)
    requires { IsUnfinished (lead ∷ []) }
    ensures { (byte : ℕ) → (BeginsCharacter (lead ∷ byte ∷ []) ↔ IsInRange result.0 result.1 byte) }
{
    match lead {
        0xe0 => (0xa0, 0xbf),
        0xed => (0x80, 0x9f),
        0xf0 => (0x90, 0xbf),
        0xf4 => (0x80, 0x8f),
        _ => (0x80, 0xbf),
    }
}

/// Whether the byte may be the third or fourth of a character.
fn may_be_later(byte: u8) -> bool
    ensures { IsTrue result ↔ IsInRange 0x80 0xbf byte }
{
    matches!(byte, 0x80..=0xbf)
}
