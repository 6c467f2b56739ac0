//! Laws over the definitions of captures and of scripts as text, each the contract of a function that does nothing.

ghost use Rattle.std.specs.Prelude.{◌≡◌, ◌≢◌, ℕ, List};
ghost use Rattle.std.specs.List.{AllByRecursion};
ghost use Rattle.ws_scripts.specs.ScriptTexts.{CanBeWritten, IsScriptText, written_script};
ghost use Rattle.ws_scripts.specs.declared.script.Case.{Case};
ghost use Rattle.ws_scripts.specs.declared.capture.Capture.{Capture};
ghost use Rattle.ws_scripts.specs.declared.transcript.Ended.TheVariants.{Broken};
ghost use Rattle.ws_scripts.specs.declared.transcript.Transcript.{Transcript};
ghost use Rattle.ws_scripts.specs.Captures.{AreOfBytes, AreParted, IsCaptureOf, as_read, written_capture};
ghost use Rattle.ws_scripts.specs.Captures2.{AreAnsweredTurns, HasLines2, HoldsBytes, IsAnyCaptureOf, IsCapture2Of};
ghost use Rattle.ws_scripts.specs.Captures2.{written_capture2};

/// A text is a capture of one transcript.
pub fn one_capture()
    ensures { (text : List ℕ) (one other : Transcript) → IsCaptureOf one text → IsCaptureOf other text → one ≡ other }
{}

/// What is written is a capture: of the same turns, run together where nothing was got in the one or nothing sent in
/// the next, and of one that broke as of one that the peer ended.
pub fn written_captures_are_read()
    ensures read { (transcript : Transcript) → AllByRecursion AreOfBytes transcript.turns →
        IsCaptureOf (as_read transcript) (written_capture transcript) }

    // So a transcript is read as it was where none of that happens.
    ensures same { (transcript : Transcript) → AreParted transcript.turns → transcript.ended ≢ Broken →
        as_read transcript ≡ transcript }
{}

/// In format 2 a capture has exactly one list of lines, and no list is that of two captures.
pub fn one_list_of_capture_lines()
    ensures has { (capture : Capture) → HoldsBytes capture → (lines : List (List ℕ)) × HasLines2 capture lines }
    ensures one { (capture : Capture) (lines others : List (List ℕ)) → HasLines2 capture lines →
        HasLines2 capture others → lines ≡ others }
    ensures of_one { (one other : Capture) (lines : List (List ℕ)) → HasLines2 one lines →
        HasLines2 other lines → one ≡ other }
{}

/// No text is two captures, whatever their formats, and what is written in format 2 is the capture that was given.
pub fn one_capture_in_either_format()
    ensures one { (text : List ℕ) (one other : Capture) → IsAnyCaptureOf one text → IsAnyCaptureOf other text →
        one ≡ other }
    ensures written { (capture : Capture) → HoldsBytes capture → IsCapture2Of capture (written_capture2 capture) }
{}

/// What format 1 gives back of a transcript is that transcript, and no other, where it did not break, something was
/// sent in each turn and something was got in each but the last.
pub fn format_1_gives_back()
    ensures same { (transcript : Transcript) → AllByRecursion AreOfBytes transcript.turns →
        AreAnsweredTurns transcript.turns → transcript.ended ≢ Broken →
        IsCaptureOf transcript (written_capture transcript) }
    ensures alone { (transcript other : Transcript) → AllByRecursion AreOfBytes transcript.turns →
        AreAnsweredTurns transcript.turns → transcript.ended ≢ Broken →
        IsCaptureOf other (written_capture transcript) → other ≡ transcript }
{}

/// What is written of a case is a text of it.
pub fn written_scripts_are_texts()
    ensures { (case : Case) → CanBeWritten case → IsScriptText case (written_script case) }
{}

/// Two cases with one text have the same steps, cut in the same way.
pub fn one_script_of_a_text()
    ensures { (text : List ℕ) (one other : Case) → IsScriptText one text → IsScriptText other text →
        (one.steps ≡ other.steps) × (one.chop ≡ other.chop) }
{}
