//! The headers that words add to a request, each a name, a colon, a space and a value (RFC 9112 section 5).

ghost use Rattle.std.specs.Prelude.{◌≡◌, ◌≤◌, All, IfOk, MatchOption, length, map, position};
ghost use Rattle.ws_upgrade.specs.AddedHeaders.{AreAddedHeaders, header_pair};
ghost use Rattle.ws_connection.specs.RequestHeaders.{AreHeaderWords, HasColonSpace, header_in, headers_in, is_colon};
ghost use Rattle.ws_connection.specs.RequestHeaders.{name_length};

use std::alloc::Global;
use std::marker::Model;
use ws_base::NoMemory;
use ws_upgrade::{AddedHeader, are_added_headers};

/// Headers that can be added to a request, in the order in which they were given. Contracts see of each its name and
/// its value.
#[derive(Drop)]
pub struct RequestHeaders<'a> {
    headers: Vec<AddedHeader<'a>>,
}

impl<'a> Model for RequestHeaders<'a> {
    ghost use Rattle.std.specs.Prelude.{map};
    ghost use Rattle.ws_upgrade.specs.AddedHeaders.{AreAddedHeaders, header_pair};
    ghost use Rattle.ws_upgrade.specs.Members.{HeaderPairs};

    ghost Value = { HeaderPairs };

    ghost view = { λ added. map header_pair added.headers.items };

    ghost invariant = { λ added. AreAddedHeaders (map header_pair added.headers.items) };
}

impl<'a> RequestHeaders<'a> {
    /// The headers.
    pub fn as_slice(&self) -> &[AddedHeader<'a>]
        ensures headers { map header_pair result.now ≡ self.now }
        ensures added { AreAddedHeaders (map header_pair result.now) }
    {
        self.headers.as_slice()
    }
}

/// The headers of these words. Each is parted at its first colon, behind which a space stands. `None` where one is not
/// so, or they can't be added to a request.
pub fn headers_of<'a>(
    alloc: Global,
    words: &[&'a str],
) -> Result<Option<RequestHeaders<'a>>, NoMemory>
    ensures { let given = map (λ word. word.now) words.now
        in IfOk result (λ found. MatchOption found (¬ (AreHeaderWords given))
        (λ headers. (headers ≡ headers_in given) × AreHeaderWords given)) }
{
    let found = headers_in(alloc, words)?;
    let Some(headers) = found else {
        return Ok(None);
    };
    if are_added_headers(headers.as_slice()) {
        Ok(Some(RequestHeaders { headers }))
    } else {
        Ok(None)
    }
}

/// The headers of these words, whatever they are. `None` where a word is not parted so.
fn headers_in<'a>(
    alloc: Global,
    words: &[&'a str],
) -> Result<Option<Vec<AddedHeader<'a>>>, NoMemory>
    ensures { let given = map (λ word. word.now) words.now
        in IfOk result (λ found. MatchOption found (¬ (All HasColonSpace given))
        (λ headers. (map header_pair headers.items ≡ headers_in given) × All HasColonSpace given)) }
{
    let mut headers = Vec::new(alloc);
    for word in words {
        let Some(header) = header_in(word) else {
            return Ok(None);
        };
        headers.push(header)?;
    }
    Ok(Some(headers))
}

/// The header of a word. `None` where it has no colon, or no space behind the first one.
fn header_in(word: &str) -> Option<AddedHeader<'_>>
    ensures { MatchOption result (¬ (HasColonSpace word.now))
        (λ header. (header_pair header ≡ header_in word.now) × HasColonSpace word.now) }
{
    let bytes = word.as_bytes();
    let end = name_length(bytes);
    if bytes.get(end + 1) != Some(&b' ') {
        return None;
    }
    Some(AddedHeader {
        name: &bytes[..end],
        value: &bytes[end + 2..],
    })
}

/// How many bytes of a word stand before its first colon, all of them where there is none.
fn name_length(word: &[u8]) -> usize
    ensures length { result ≡ name_length word.now }
    ensures bound { result ≤ length word.now }
{
    match colon_at(word) {
        Some(at) => at,
        None => word.len(),
    }
}

/// Where the first colon of a word stands, if there is one.
fn colon_at(word: &[u8]) -> Option<usize>
    ensures { result ≡ position is_colon word.now }
{
    word.iter().position(|byte| is_colon(*byte))
}

/// Whether a byte is a colon.
fn is_colon(byte: u8) -> bool
    ensures { result ≡ is_colon byte }
{
    byte == b':'
}
