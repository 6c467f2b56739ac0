//! Where names stand in a list.

ghost use Rattle.std.specs.Prelude.{◌≡◌, ◌++◌, ℕ, List, [], ◌∷◌, None, OnErr, OnOk, length};
ghost use Rattle.std.specs.BTreeMap.{IsUnchanged};
ghost use Rattle.ws_runs.specs.Names.{place_among};
ghost use Rattle.ws_runs.specs.Places.{AreNotedPlaces};

use std::collections::BTreeMap;
use ws_base::NoMemory;

/// The place of each name in a list.
pub(crate) type Places<'a> = BTreeMap<&'a [u8], usize>;

/// The place of a name. `None` if it isn't in the list.
pub(crate) fn place_of<'a>(places: &Places<'a>, name: &'a [u8]) -> Option<usize>
    ensures { (names : List (List ℕ)) → AreNotedPlaces names places.now → result ≡ place_among name.now names }
{
    places.get(&name).copied()
}

/// Notes the place of a name that comes last in the list.
pub(crate) fn note_place<'a>(
    places: &mut Places<'a>,
    name: &'a [u8],
    place: usize,
) -> Result<(), NoMemory>
    ensures noted { OnOk result ((names : List (List ℕ)) → AreNotedPlaces names places.old
        → place_among name.now names ≡ None → length names ≡ place
        → AreNotedPlaces (names ++ name.now ∷ []) places.new) }
    ensures err { OnErr result (IsUnchanged places.old places.new) }
{
    places.insert(name, place)?;
    Ok(())
}
