//! The subprotocols that words name (RFC 6455 section 1.9).

ghost use Rattle.std.specs.Prelude.{◌≡◌, IfOk, MatchOption, map};
ghost use Rattle.ws_upgrade.specs.Protocols.{AreOffers};
ghost use Rattle.ws_connection.specs.Protocols.{names_in, protocols_given};

use std::alloc::{AllocError, Global};
use std::marker::Model;
use ws_base::NoMemory;
use ws_upgrade::are_offers;

/// Subprotocols that can be offered, in the order in which they were given. Contracts see the list of their names.
#[derive(Drop)]
pub struct Protocols<'a> {
    names: Vec<&'a [u8]>,
}

impl<'a> Model for Protocols<'a> {
    ghost use Rattle.std.specs.Prelude.{List, ℕ, map};
    ghost use Rattle.ws_upgrade.specs.Protocols.{AreOffers};

    ghost Value = { List (List ℕ) };

    ghost view = { λ protocols. map (λ name. name.now) protocols.names.items };

    ghost invariant = { λ protocols. AreOffers (map (λ name. name.now) protocols.names.items) };
}

impl<'a> Protocols<'a> {
    /// Their names.
    pub fn as_slice(&self) -> &[&'a [u8]]
        ensures names { map (λ name. name.now) result.now ≡ self.now }
        ensures offers { AreOffers (map (λ name. name.now) result.now) }
    {
        self.names.as_slice()
    }
}

/// The subprotocols of a list of names joined by commas, none where there is no list. `None` where they can't be
/// offered: more than 16, two equal ones, or one that is no name.
pub fn protocols_of<'a>(
    alloc: Global,
    list: Option<&'a str>,
) -> Result<Option<Protocols<'a>>, NoMemory>
    ensures { IfOk result (λ found. MatchOption found (¬ (AreOffers (protocols_given list.entry)))
        (λ protocols. (protocols ≡ protocols_given list.entry) × AreOffers (protocols_given list.entry))) }
{
    let names = names_given(alloc, list)?;
    if are_offers(names.as_slice()) {
        Ok(Some(Protocols { names }))
    } else {
        Ok(None)
    }
}

/// The names of the list that is given, none where there is no list.
fn names_given<'a>(alloc: Global, list: Option<&'a str>) -> Result<Vec<&'a [u8]>, AllocError>
    ensures { IfOk result (λ names. map (λ name. name.now) names.items ≡ protocols_given list.entry) }
{
    match list {
        Some(list) => {
            let names = names_in(alloc, list.as_bytes())?;
            Ok(names)
        }
        None => Ok(Vec::new(alloc)),
    }
}

/// The names between the commas of a list.
fn names_in(alloc: Global, list: &[u8]) -> Result<Vec<&[u8]>, AllocError>
    ensures { IfOk result (λ names. map (λ name. name.now) names.items ≡ names_in list.now) }
{
    list.split(|byte| *byte == b',').collect(alloc)
}
