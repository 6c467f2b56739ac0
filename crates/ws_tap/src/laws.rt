//! Laws over the definitions, each the contract of a function that does nothing.

ghost use Rattle.std.specs.Prelude.{◌≡◌, List, ℕ, true};
ghost use Rattle.ws_tap.specs.declared.tap.Tap.{Tap};
ghost use Rattle.ws_tap.specs.declared.tapped.Tapped.{Tapped};
ghost use Rattle.ws_tap.specs.Told.{TapTold, ArePassedOn, passage};
ghost use Rattle.ws_tap.specs.Texts.{TellsOfBoth};
ghost use Rattle.ws_tap.specs.Tapping.{HasTapped, is_tap_over};
ghost use Rattle.ws_wire.specs.declared.role.Role.TheVariants.{Client, Server};

/// What a tap has told is the text of both ends, for all that it was told of them and for what the server has answered,
/// in the order in which things came.
pub fn a_tap_tells_both_ends()
    ensures { (tapped : Tapped) (told : List TapTold) (tap : Tap) (text : List ℕ)
        → HasTapped tapped told tap text → TellsOfBoth tapped told text }
{}

/// What was taken of a direction is a beginning of what came, of which at most 65536 bytes are missing, and none where
/// its end was passed on.
pub fn a_tap_passes_all_on()
    ensures { (tapped : Tapped) (told : List TapTold) (tap : Tap) (text : List ℕ)
        → HasTapped tapped told tap text → ArePassedOn told }
{}

/// Where nothing is left to be done, both directions were ended, behind all that came of them.
pub fn a_tap_that_is_over_has_passed_all_on()
    ensures client { (tapped : Tapped) (told : List TapTold) (tap : Tap) (text : List ℕ)
        → HasTapped tapped told tap text → is_tap_over tap ≡ true
        → ((passage Client told).passed ≡ true) × ((passage Client told).taken ≡ (passage Client told).came) }
    ensures server { (tapped : Tapped) (told : List TapTold) (tap : Tap) (text : List ℕ)
        → HasTapped tapped told tap text → is_tap_over tap ≡ true
        → ((passage Server told).passed ≡ true) × ((passage Server told).taken ≡ (passage Server told).came) }
{}
