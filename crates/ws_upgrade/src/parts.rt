//! What a request is made of (RFC 6455 section 4.1): a host and a path, each a type whose values were proved fit.

ghost use Rattle.std.specs.Prelude.{◌≡◌, ◌↔◌, IsTrue, MatchOption, codes};
ghost use Rattle.ws_upgrade.specs.Texts.{IsHost, IsPathByte, IsPath};

use std::marker::Model;

/// The most bytes that a host has: as many as a name of the domain name system.
const MAX_HOST: usize = 255;

/// The most bytes that a path has.
const MAX_PATH: usize = 2048;

/// A host that can be asked for, with a port where it needs one. Contracts see its bytes.
#[derive(Drop)]
pub struct Host<'a> {
    bytes: &'a [u8],
}

impl<'a> Model for Host<'a> {
    ghost use Rattle.std.specs.Prelude.{List, ℕ};
    ghost use Rattle.ws_upgrade.specs.Texts.{IsHost};

    ghost Value = { List ℕ };

    ghost view = { λ host. host.bytes.now };

    ghost invariant = { λ host. IsHost host.bytes.now };
}

impl<'a> Host<'a> {
    /// The host of these bytes: 1 to 255 visible ASCII characters. `None` where they are none.
    pub fn new(bytes: &'a [u8]) -> Option<Host<'a>>
        ensures { MatchOption result (¬ (IsHost bytes.now)) (λ host. (host ≡ bytes.now) × IsHost bytes.now) }
    {
        if is_host(bytes) {
            Some(Host::proved(bytes))
        } else {
            None
        }
    }

    /// The host of bytes that were proved to be one.
    pub fn proved(bytes: &'a [u8]) -> Host<'a>
        requires { IsHost bytes.now }
        ensures { result ≡ bytes.now }
    {
        Host { bytes }
    }

    /// Its bytes.
    pub fn as_bytes(&self) -> &'a [u8]
        ensures bytes { result.now ≡ self.now }
        ensures host { IsHost result.now }
    {
        self.bytes
    }
}

/// A path that can be asked for. Contracts see its bytes.
#[derive(Drop)]
pub struct Path<'a> {
    bytes: &'a [u8],
}

impl<'a> Model for Path<'a> {
    ghost use Rattle.std.specs.Prelude.{List, ℕ};
    ghost use Rattle.ws_upgrade.specs.Texts.{IsPath};

    ghost Value = { List ℕ };

    ghost view = { λ path. path.bytes.now };

    ghost invariant = { λ path. IsPath path.bytes.now };
}

impl<'a> Path<'a> {
    /// The path of these bytes: `/` first, at most 2048 bytes, visible ASCII characters but ``"#<>\^`{|}``. `None`
    /// where they are none.
    pub fn new(bytes: &'a [u8]) -> Option<Path<'a>>
        ensures { MatchOption result (¬ (IsPath bytes.now)) (λ path. (path ≡ bytes.now) × IsPath bytes.now) }
    {
        if is_path(bytes) {
            Some(Path::proved(bytes))
        } else {
            None
        }
    }

    /// The path of bytes that were proved to be one.
    pub fn proved(bytes: &'a [u8]) -> Path<'a>
        requires { IsPath bytes.now }
        ensures { result ≡ bytes.now }
    {
        Path { bytes }
    }

    /// The path `/`.
    pub fn root() -> Path<'static>
        ensures { result ≡ codes "/" }
    {
        Path::proved(b"/")
    }

    /// Its bytes.
    pub fn as_bytes(&self) -> &'a [u8]
        ensures bytes { result.now ≡ self.now }
        ensures path { IsPath result.now }
    {
        self.bytes
    }
}

/// Whether a host can be asked for. It takes no memory.
pub fn is_host(bytes: &[u8]) -> bool
    ensures { IsTrue result ↔ IsHost bytes.now }
{
    !bytes.is_empty()
        && bytes.len() <= MAX_HOST
        && bytes.iter().all(|byte| matches!(*byte, 0x21..=0x7e))
}

/// Whether a path can be asked for. It takes no memory.
pub fn is_path(bytes: &[u8]) -> bool
    ensures { IsTrue result ↔ IsPath bytes.now }
{
    bytes.first() == Some(&b'/')
        && bytes.len() <= MAX_PATH
        && bytes.iter().all(|byte| is_path_byte(*byte))
}

/// Whether a byte can stand in a path.
fn is_path_byte(byte: u8) -> bool
    ensures { IsTrue result ↔ IsPathByte byte }
{
    matches!(byte, 0x21..=0x7e) && !b"\"#<>\\^`{|}".contains(&byte)
}
