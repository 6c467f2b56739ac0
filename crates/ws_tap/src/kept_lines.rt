//! Lines that wait to be told, as far as they fit.

ghost use Rattle.std.specs.Prelude.{◌≡◌, IfOk};
ghost use Rattle.ws_tap.specs.Telling.{kept_after, nothing_kept};

use std::alloc::Global;
use std::marker::Model;
use ws_base::NoMemory;

/// So many bytes of lines are kept.
const MAX_KEPT: usize = 65536;

/// Lines that wait: the first of them, up to the first one that doesn't fit whole. They lie in memory that is taken at
/// first, so that none lacks later.
#[derive(Drop)]
pub(crate) struct KeptLines {
    bytes: Vec<u8>,
    /// A line was left out, and so is each later one.
    is_full: bool,
}

impl Model for KeptLines {
    ghost use Rattle.std.specs.Prelude.{◌≤◌, vec_capacity, vec_len};
    ghost use Rattle.ws_tap.specs.KeptValues.{KeptValue};

    ghost Value = { KeptValue };

    ghost view = { λ kept. record { text = kept.bytes.items; is_full = kept.is_full } };

    ghost invariant = { λ kept. (vec_len kept.bytes ≤ 65536) × (65536 ≤ vec_capacity kept.bytes) };
}

impl KeptLines {
    /// None waits.
    pub(crate) fn new(alloc: Global) -> Result<KeptLines, NoMemory>
        ensures { IfOk result (λ made. made ≡ nothing_kept) }
    {
        let bytes = Vec::with_capacity(alloc, MAX_KEPT)?;
        Ok(KeptLines {
            bytes,
            is_full: false,
        })
    }

    /// The lines that are kept.
    pub(crate) fn as_slice(&self) -> &[u8]
        ensures { result.now ≡ self.now.text }
    {
        self.bytes.as_slice()
    }

    /// One more line waits, or none where it has no bytes.
    pub(crate) fn push(&mut self, line: &[u8])
        ensures { self.new ≡ kept_after self.old line.now }
    {
        if self.is_full || line.len() > MAX_KEPT - self.bytes.len() {
            self.is_full = true;
            return;
        }
        if self.bytes.extend_from_slice(line).is_err() {
            unreachable!()
        }
    }
}
