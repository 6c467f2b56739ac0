//! `wst`, the frame-level WebSocket tester: the words of the command line, watched devices, the system's network and
//! the exit status.
#![tactic(auto)]

mod descriptors;
mod stack;

use descriptors::open_the_closed;
use std::io::ErrorKind;
use std::process::ExitCode;
use std::{env, io};
use ws_frame::Watched;
use wst_network::SystemConnector;
use wst_run::{Site, run, words_are_no_text};
use wst_sockets::Resumed;

/// The status of a device that failed, for a stack that is not there.
const NO_STACK: u8 = 3;

fn main(rt: HostRuntime) -> ExitCode {
    let held = open_the_closed(&rt);
    if !stack::is_there(held.iter().filter(|place| place.is_some()).count()) {
        return ExitCode::from(NO_STACK);
    }
    let mut input = Watched::new(Resumed::of(rt.stdin()));
    let mut output = Watched::new(Resumed::of(rt.stdout()));
    let mut faults = Watched::new(Resumed::of(rt.stderr()));
    let alloc = rt.alloc();
    let exit = match arguments(&rt) {
        Ok(words) => {
            let site = Site {
                alloc,
                net: &rt,
                connector: &SystemConnector::of(&rt),
            };
            run(site, words.as_slice(), &mut input, &mut output, &mut faults)
        }
        Err(error) => {
            let no_memory = error.kind() == ErrorKind::OutOfMemory;
            words_are_no_text(alloc, no_memory, &mut faults)
        }
    };
    ExitCode::from(exit.status())
}

/// The words of the command line, the program's name first. An error where one is no UTF-8 or
/// memory ran out.
fn arguments(rt: &(impl std::rt::Env + AllocGlobal)) -> io::Result<Vec<String>> {
    let words = env::args(rt)?.collect(rt.alloc())?;
    Ok(words)
}
