//! The stack that the commands need, used once before a command asks for memory.
//!
//! The system adds to a stack as more of it is used. If a limit on address space (`ulimit -v`) leaves no room for
//! that, it stops the program by SIGSEGV. So all that a command over files or in memory uses later is used at the
//! start: from then on only calls that can say `no memory` ask for more.

/// How many bytes are used: `send` needs the most of these commands, three rooms of 64 KiB and some 30 KiB.
const DEEPEST: usize = 288 * 1024;

/// Uses the stack. `place` is a number that is known only as the program runs, so that the compiler keeps the room.
/// Without that much stack the system stops the program here. The answer is read only so that the call is made.
#[inline(never)]
pub fn is_there(place: usize) -> bool {
    let mut room = [0_u8; DEEPEST];
    room[place % DEEPEST] = 1;
    let other = place.saturating_mul(DEEPEST / 2) % DEEPEST;
    room[other] <= 1
}
