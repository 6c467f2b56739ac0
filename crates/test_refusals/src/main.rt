//! `test_refusals`: plays fixed lists of calls, and makes each call again that lacked memory. What stands after want of
//! memory is compared with what stood before, and what comes of a list with what comes of it where memory is there.
//! A request for memory is refused from outside, by `rows/refusals`: one in a run. The last line is
//! `N calls, R refused, S started again, D differ`, and the status is 0; which call lacked memory, and where something
//! differs, is told in lines before it.
#![tactic(auto)]

mod captures;
mod events;
mod feeding;
mod pairs;
mod parts;
mod peers;
mod rooms;
mod script_texts;
mod scripts;
mod sending;
mod spent;
mod streams;
mod taking;
mod tally;

use crate::parts::PARTS;
use crate::tally::Tally;
use std::io;

fn main(rt: HostRuntime) -> io::Result<()> {
    let mut all = Tally::new();
    for part in PARTS {
        let tally = part.play_again(rt.alloc());
        if let Some(call) = tally.lacking {
            println!(rt; "lacked memory: {call}")?;
        }
        if tally.differing > 0 {
            println!(rt; "differs: {}, {} times", part.name(), tally.differing)?;
        }
        all.add(&tally);
    }
    println!(rt;
        "{} calls, {} refused, {} started again, {} differ",
        all.calls, all.refused, all.restarted, all.differing
    )
}
