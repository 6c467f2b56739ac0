//! Rows of what is doomed.

use std::alloc::Global;
use test_row_frames::{RowFault, both_limits_of, bytes_of, put, role_of};
use ws_session::Session;

/// `doomed ROLE MESSAGE FRAME BYTES`: under limits of so many bytes of a message and of a frame, a mark for each number
/// of the bytes, from none to all: `-` where some right frame begins so or none has begun, `d` where the frame under
/// way is doomed, `.` where the session is over.
pub fn mark_lengths(alloc: Global, words: &[&str], out: &mut String) -> Result<(), RowFault> {
    let [role, max_message, max_frame, bytes] = words else {
        return Err(RowFault::NotARow);
    };
    let limits = both_limits_of(max_message, max_frame)?;
    let mut session = Session::new(alloc, role_of(role)?, limits);
    let bytes = bytes_of(alloc, bytes)?;
    let mut written = Vec::new(alloc);
    put(out, mark_of(&session))?;
    for byte in bytes.as_slice() {
        session.take(&[*byte], [0; 4], &mut written)?;
        put(out, mark_of(&session))?;
    }
    Ok(())
}

fn mark_of(session: &Session) -> &'static str {
    if session.status().is_over() {
        "."
    } else if session.is_doomed() {
        "d"
    } else {
        "-"
    }
}
