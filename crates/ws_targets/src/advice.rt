//! What is to be typed in the place of a word that names no target.

ghost use Rattle.std.specs.Prelude.{◌≡◌, ◌↔◌, IsTrue};
ghost use Rattle.ws_targets.specs.Advice.{Advises, AdvisesAuthority, AdvisesBytes, AdvisesUrl, HasBadPort};
ghost use Rattle.ws_targets.specs.Advice.{IsLargeNumber, IsNoPort, IsVisible, begins_as_web};

use crate::place::cut_at_last_colon;
use crate::target::{asks_for_tls, authority_in, begins_with};
use ws_formats::read_u16;

/// What is wrong with a word that names no target, where that is known to be typed often.
#[derive(Clone, Copy, Debug, PartialEq, Eq)]
pub enum Advice {
    /// It begins as a URL whose connection is encrypted.
    Encrypted,
    /// It begins as a URL of a page.
    Web,
    /// A user stands before the host of the URL.
    User,
    /// The port of the URL is left out behind its colon, or too large.
    Port,
    /// A byte of the URL is no visible ASCII character.
    Unencoded,
    /// The URL has a fragment.
    Fragment,
    /// A URL is given, and an address is wanted.
    Url,
    /// It is none of these.
    Nothing,
}

/// What is wrong with a word that names no server.
pub fn target_advice(word: &str) -> Advice
    ensures { Advises word.now result }
{
    if asks_for_tls(word) {
        return Advice::Encrypted;
    }
    if begins_as_web(word) {
        return Advice::Web;
    }
    match authority_in(word.as_bytes()) {
        Some(authority) => url_advice(word.as_bytes(), authority),
        None => Advice::Nothing,
    }
}

/// What is wrong with a URL that has this authority.
fn url_advice(url: &[u8], authority: &[u8]) -> Advice
    ensures { AdvisesUrl url.now authority.now result }
{
    match authority_advice(authority) {
        Advice::Nothing => bytes_advice(url),
        advice => advice,
    }
}

/// What is wrong with the bytes of a URL.
fn bytes_advice(url: &[u8]) -> Advice
    ensures { AdvisesBytes url.now result }
{
    if !is_visible(url) {
        return Advice::Unencoded;
    }
    if url.contains(&b'#') {
        Advice::Fragment
    } else {
        Advice::Nothing
    }
}

/// Whether all bytes are visible ASCII characters.
fn is_visible(bytes: &[u8]) -> bool
    ensures { IsTrue result ↔ IsVisible bytes.now }
{
    bytes.iter().all(|byte| byte.is_ascii_graphic())
}

/// Whether a word begins as the URL of a page.
fn begins_as_web(word: &str) -> bool
    ensures { result ≡ begins_as_web word.now }
{
    begins_with(word.as_bytes(), b"http:") || begins_with(word.as_bytes(), b"https:")
}

/// What is wrong with the authority of a URL.
fn authority_advice(authority: &[u8]) -> Advice
    ensures { AdvisesAuthority authority.now result }
{
    if authority.contains(&b'@') {
        return Advice::User;
    }
    if has_bad_port(authority) {
        return Advice::Port;
    }
    Advice::Nothing
}

/// Whether a port is left out behind the last colon, or too large.
fn has_bad_port(authority: &[u8]) -> bool
    ensures { IsTrue result ↔ HasBadPort authority.now }
{
    match cut_at_last_colon(authority) {
        Some((_name, word)) => is_no_port(word),
        None => false,
    }
}

/// Whether nothing stands in the place of a port, or a number that is too large.
fn is_no_port(word: &[u8]) -> bool
    ensures { IsTrue result ↔ IsNoPort word.now }
{
    match word {
        [] => true,
        _ => is_large_number(word),
    }
}

/// Whether these are digits that begin with no zero, and no number of 16 bits.
fn is_large_number(word: &[u8]) -> bool
    ensures { IsTrue result ↔ IsLargeNumber word.now }
{
    match word {
        [] | [b'0', ..] => false,
        _ => word.iter().all(|byte| byte.is_ascii_digit()) && read_u16(word).is_none(),
    }
}
