//! Laws over the definitions, each the contract of a function that does nothing.

ghost use Rattle.std.specs.Prelude.{◌≡◌, ℕ, List};
ghost use Rattle.std.specs.List.{AllByRecursion};
ghost use Rattle.ws_lines.specs.declared.transcript_lines.Showing.{Showing};
ghost use Rattle.ws_scripts.specs.declared.transcript.Transcript.{Transcript};
ghost use Rattle.ws_scripts.specs.Captures.{AreOfBytes};
ghost use Rattle.ws_lines.specs.TurnLines.{HasTurnLines};

/// Every transcript has its lines.
pub fn every_transcript_has_lines()
    ensures { (showing : Showing) (transcript : Transcript) → AllByRecursion AreOfBytes transcript.turns
        → (text : List ℕ) × HasTurnLines showing transcript text }
{}

/// A transcript has one text of lines.
pub fn one_text_of_turn_lines()
    ensures { (showing : Showing) (transcript : Transcript) (text other : List ℕ)
        → HasTurnLines showing transcript text → HasTurnLines showing transcript other → text ≡ other }
{}
