//! Bytes of which each differs from its neighbours.

use crate::row_fault::RowFault;
use std::alloc::Global;

/// So many bytes, of which each differs from its neighbours.
pub fn counted(alloc: Global, len: usize) -> Result<Vec<u8>, RowFault> {
    let mut bytes = Vec::with_capacity(alloc, len)?;
    for at in 0..len {
        bytes.push((at % 251) as u8)?;
    }
    Ok(bytes)
}

/// Whether the bytes are those that `counted` makes.
pub fn is_counted(bytes: &[u8]) -> bool {
    for (at, byte) in bytes.iter().enumerate() {
        if usize::from(*byte) != at % 251 {
            return false;
        }
    }
    true
}
