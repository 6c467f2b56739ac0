//! The descriptors of the standard devices. A program may be started with one of them closed, and what it opens first
//! gets that number: of a socket, the output of the program would go to its peer.

use std::fs::{File, Files};
use std::os::fd::AsRawFd;

/// What is opened in the place of a standard device: at once at its end when it is read, and not for writing.
const NOTHING: &str = "/dev/null";

/// The last descriptor of a standard device.
const LAST: i32 = 2;

/// Opens those of the standard devices that are closed, for as long as the answer is held: a read of one finds its end,
/// and a write fails. Where nothing can be opened they stay closed.
pub fn open_the_closed<F: Files>(files: &F) -> [Option<F::File>; 3]
where
    F::File: AsRawFd,
{
    let mut held = [None, None, None];
    for place in &mut held {
        match File::open(files, NOTHING) {
            Ok(file) if file.as_raw_fd() <= LAST => *place = Some(file),
            _ => return held,
        }
    }
    held
}
