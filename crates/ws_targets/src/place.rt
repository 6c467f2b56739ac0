//! The host and the port that the authority of a URL names (RFC 3986 section 3.2).

ghost use Rattle.std.specs.Prelude.{◌≡◌, ◌↔◌, ◌∷◌, ◌++◌, Bool, IsTrue, MatchOption, codes};
ghost use Rattle.ws_targets.specs.Places.{CutsAtLastColon, IsAddress, IsPlace};
ghost use Rattle.ws_targets.specs.Reading.{IsPlaceRead, LacksPlace, EndsSoInPort};

use ws_formats::read_u16;
use ws_upgrade::is_host;

/// The port of a `ws` URL that names none.
const DEFAULT_PORT: u16 = 80;

/// What a request calls a server, and whether a connection to it is made at the port 80, which the host then lacks.
#[derive(Clone, Copy)]
pub(crate) struct Place<'a> {
    pub(crate) host: &'a [u8],
    pub(crate) at_default: bool,
}

/// What an authority names. `None` where it names a port that is no number of 16 bits, or a port of no host.
pub(crate) fn place_of(authority: &[u8]) -> Option<Place<'_>>
    ensures { MatchOption result (LacksPlace authority.now) (IsPlaceRead authority.now) }
{
    let Some((name, word)) = cut_at_last_colon(authority) else {
        return Some(Place {
            host: authority,
            at_default: true,
        });
    };
    if word.contains(&b']') {
        return Some(Place {
            host: authority,
            at_default: true,
        });
    }
    let port = read_u16(word)?;
    if name.is_empty() {
        return None;
    }
    if port == DEFAULT_PORT {
        Some(Place {
            host: name,
            at_default: true,
        })
    } else {
        Some(Place {
            host: authority,
            at_default: false,
        })
    }
}

/// What stands before the last colon, and what behind it. `None` where there is none.
pub(crate) fn cut_at_last_colon(bytes: &[u8]) -> Option<(&[u8], &[u8])>
    ensures { CutsAtLastColon bytes.now result }
{
    let at = bytes.iter().rposition(|byte| *byte == b':')?;
    Some((&bytes[..at], &bytes[at + 1..]))
}

/// Whether a connection can be made to an address whose host can be asked for: the host of a request, with a colon and
/// a port behind at least one byte. It takes no memory.
pub fn is_address(bytes: &[u8]) -> bool
    ensures { IsTrue result ↔ IsAddress bytes.now }
{
    is_host(bytes) && ends_in_port(bytes)
}

/// Whether a port stands at the end, behind at least one byte and a colon.
fn ends_in_port(bytes: &[u8]) -> bool
    ensures { IsTrue result ↔ EndsSoInPort bytes.now }
{
    match cut_at_last_colon(bytes) {
        Some((name, word)) => !name.is_empty() && read_u16(word).is_some(),
        None => false,
    }
}
