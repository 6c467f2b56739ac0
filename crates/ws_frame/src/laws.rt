//! Laws over the definitions, each the contract of a function that does nothing.

ghost use Rattle.std.specs.Prelude.{◌≡◌, ℕ, List, ◌++◌};
ghost use Rattle.ws_wire.specs.Header.{AreBytes};
ghost use Rattle.ws_frame.specs.Lines.{AreLinesOf, AreCertainLines};
ghost use Rattle.ws_frame.specs.declared.source.Source.{Source};
ghost use Rattle.ws_frame.specs.declared.showing.StreamEnd.{StreamEnd};

/// Every stream that has ended has its lines.
pub fn every_stream_has_lines()
    ensures { (source : Source) (bytes : List ℕ) → AreBytes bytes
        → (end : StreamEnd) × (lines : List ℕ) × AreLinesOf source bytes end lines }
{}

/// A stream that has ended has one list of lines, and one end.
pub fn one_list_of_lines()
    ensures { (source : Source) (bytes : List ℕ) (end other : StreamEnd) (lines others : List ℕ)
        → AreLinesOf source bytes end lines → AreLinesOf source bytes other others → (end ≡ other) × (lines ≡ others) }
{}

/// More bytes of a stream leave the lines that were certain.
pub fn certain_lines_stay()
    ensures { (source : Source) (bytes more lines : List ℕ) → AreBytes bytes → AreBytes more
        → AreCertainLines source bytes lines
        → (next : List ℕ) × AreCertainLines source (bytes ++ more) (lines ++ next) }
{}

/// The lines that are certain begin all lines of the stream, if it ends there.
pub fn certain_lines_begin_all()
    ensures { (source : Source) (bytes lines : List ℕ) → AreCertainLines source bytes lines
        → (end : StreamEnd) × (last : List ℕ) × AreLinesOf source bytes end (lines ++ last) }
{}

/// A stream has one list of lines that are certain.
pub fn one_list_of_certain_lines()
    ensures { (source : Source) (bytes lines others : List ℕ)
        → AreCertainLines source bytes lines → AreCertainLines source bytes others → lines ≡ others }
{}
