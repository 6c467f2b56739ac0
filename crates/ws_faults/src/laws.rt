//! Laws over the definitions, each the contract of a function that does nothing.

ghost use Rattle.std.specs.Prelude.{◌≤◌, ◌++◌, ℕ, List, length, None, Some};
ghost use Rattle.std.specs.List.{flat_map};
ghost use Rattle.ws_wire.specs.declared.role.Role.{Role};
ghost use Rattle.ws_wire.specs.Frame.{WireFrame, wire_bytes};
ghost use Rattle.ws_wire.specs.Stream.{SplitsIntoAnyForm};
ghost use Rattle.ws_faults.specs.PayloadFaults.{IsMarkOf};

/// The frame that is marked once more bytes have come begins behind the whole frames of those before.
pub fn mark_is_ahead()
    ensures { (role : Role) (bytes more : List ℕ) (place : ℕ) → IsMarkOf role bytes None
        → IsMarkOf role (bytes ++ more) (Some place) → (frames : List WireFrame) (rest : List ℕ)
        → SplitsIntoAnyForm bytes frames rest → length (flat_map wire_bytes frames) ≤ place }
{}

/// A frame that is marked stays so, whatever comes behind it.
pub fn mark_stays()
    ensures { (role : Role) (bytes more : List ℕ) (place : ℕ) → IsMarkOf role bytes (Some place)
        → IsMarkOf role (bytes ++ more) (Some place) }
{}
