//! Byte strings that take little room: they stand one behind the other, and each has a length of one byte.

ghost use Rattle.std.specs.Prelude.{◌≡◌, ◌<◌, ◌++◌, ◌∷◌, [], length, nat_le, OnErr, OnOk};

use std::alloc::Global;
use std::marker::Model;
use ws_base::NoMemory;

/// Says in place of a length that it stands among the long ones.
const IS_LONG: u8 = 255;

/// Byte strings in their order. Contracts see the list of them.
#[derive(Drop)]
pub(crate) struct Pieces {
    /// The length of each, or `IS_LONG`.
    lens: Vec<u8>,
    /// The lengths that are no byte below `IS_LONG`.
    long: Vec<usize>,
    bytes: Vec<u8>,
}

impl Model for Pieces {
    ghost use Rattle.std.specs.Prelude.{List, ℕ};
    ghost use Rattle.ws_scripts.specs.Pieces.{HasPieces, kept_pieces};

    ghost Value = { List (List ℕ) };

    ghost view = { λ p. kept_pieces p.lens.items p.long.items p.bytes.items };

    ghost invariant = { λ p. HasPieces p.lens.items p.long.items p.bytes.items };
}

impl Pieces {
    /// None.
    pub(crate) fn new(alloc: Global) -> Pieces
        ensures { result ≡ [] }
    {
        Pieces {
            lens: Vec::new(alloc),
            long: Vec::new(alloc),
            bytes: Vec::new(alloc),
        }
    }

    /// One more byte string, behind the others.
    pub(crate) fn push(&mut self, piece: &[u8]) -> Result<(), NoMemory>
        ensures longer { OnOk result (self.new ≡ self.old ++ piece.now ∷ []) }
        ensures kept { OnErr result (self.new ≡ self.old) }
    {
        if piece.len() < IS_LONG as usize {
            self.lens.reserve(1)?;
            self.bytes.extend_from_slice(piece)?;
            self.lens.push_reserved(piece.len() as u8);
        } else {
            self.lens.reserve(1)?;
            self.long.reserve(1)?;
            self.bytes.extend_from_slice(piece)?;
            self.lens.push_reserved(IS_LONG);
            self.long.push_reserved(piece.len());
        }
        Ok(())
    }

    /// The byte strings, one after the other.
    pub(crate) fn walk(&self) -> PieceWalk<'_>
        ensures { result ≡ self.now }
    {
        PieceWalk {
            lens: self.lens.as_slice(),
            long: self.long.as_slice(),
            bytes: self.bytes.as_slice(),
        }
    }
}

/// The byte strings that are still to come. Contracts see the list of them.
#[derive(Drop)]
pub(crate) struct PieceWalk<'a> {
    lens: &'a [u8],
    long: &'a [usize],
    bytes: &'a [u8],
}

impl<'a> Model for PieceWalk<'a> {
    ghost use Rattle.std.specs.Prelude.{List, ℕ};
    ghost use Rattle.ws_scripts.specs.Pieces.{HasPieces, kept_pieces};

    ghost Value = { List (List ℕ) };

    ghost view = { λ w. kept_pieces w.lens.now w.long.now w.bytes.now };

    ghost invariant = { λ w. HasPieces w.lens.now w.long.now w.bytes.now };
}

impl<'a> PieceWalk<'a> {
    /// None is to come.
    pub(crate) fn none() -> PieceWalk<'a>
        ensures { result ≡ [] }
    {
        PieceWalk {
            lens: &[],
            long: &[],
            bytes: &[],
        }
    }

    /// The same byte strings once more.
    pub(crate) fn again(&self) -> PieceWalk<'a>
        ensures { result ≡ self.now }
    {
        PieceWalk {
            lens: self.lens,
            long: self.long,
            bytes: self.bytes,
        }
    }

    /// How many are to come.
    pub(crate) fn len(&self) -> usize
        ensures { result ≡ length self.now }
    {
        self.lens.len()
    }

    /// The next one, which is there.
    pub(crate) fn take_first(&mut self) -> &'a [u8]
        requires { 0 < length self.old }
        ensures { self.old ≡ result.now ∷ self.new }
    {
        let len = if self.lens[0] == IS_LONG {
            let len = self.long[0];
            self.long = &self.long[1..];
            len
        } else {
            self.lens[0] as usize
        };
        let (piece, others) = self.bytes.split_at(len);
        self.lens = &self.lens[1..];
        self.bytes = others;
        piece
    }
}
