//! Payloads that several groups send.

/// `Hello, world!`.
pub(crate) const HELLO: &[u8] = b"Hello, world!";

/// Bytes that are no text.
pub(crate) const BINARY: &[u8] = b"\x00\xff\xfe\xfd\xfc\xfb\x00\xff";

/// A Greek word: five characters in 11 bytes.
pub(crate) const KOSME: &[u8] = b"\xce\xba\xe1\xbd\xb9\xcf\x83\xce\xbc\xce\xb5";

/// The Greek word, a surrogate, which no text has, and `edited`.
pub(crate) const BROKEN_TEXT: &[u8] =
    b"\xce\xba\xe1\xbd\xb9\xcf\x83\xce\xbc\xce\xb5\xed\xa0\x80edited";
