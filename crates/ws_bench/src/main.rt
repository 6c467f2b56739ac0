//! `ws_bench`: a server that takes a stream of frames and counts its messages, to be measured from outside by
//! `bench/peers`. No crate of the product uses it, and it looks at no clock.
//!
//!     ws_bench SIZE                      takes the standard input, in pieces of at most SIZE bytes
//!     ws_bench SIZE --lent               the same by the call that lends what it read
//!     ws_bench SIZE --peer tungstenite   the same by the crate `tungstenite`
//!     ws_bench SIZE --copy               only reads the pieces
//!     ws_bench --make FILL LENGTH COUNT  writes COUNT messages as a client masks them, and a close frame: `binary`,
//!                                        `text` or `greek`, of LENGTH bytes each, or pings: `ping`
#![tactic(auto)]

mod counts;
mod making;
mod pieces;
mod taking;

use anyhow::{Context, Result, bail, ensure};
use making::{Fill, make};
use pieces::Pieces;
use std::env;
use taking::{read_only, take, take_by_tungstenite, take_lent};

fn main(rt: HostRuntime) -> Result<()> {
    let alloc = rt.alloc();
    let given: Vec<String> = env::args(&rt)?.collect(alloc)?;
    let words: Vec<&str> = given.iter().map(|word| word.as_str()).collect(alloc)?;
    match words.as_slice() {
        [_, "--make", fill, len, count] => {
            let fill = Fill::from_word(fill).context("no such filling")?;
            let (len, count) = (len.parse::<usize>()?, count.parse::<u64>()?);
            make(alloc, fill, len, count, &mut rt.stdout())
        }
        [_, size] => {
            let pieces = Pieces::new(alloc, rt.stdin(), size_of(size)?)?;
            println!(rt; "{}", take(alloc, pieces)?)?;
            Ok(())
        }
        [_, size, "--lent"] => {
            let pieces = Pieces::new(alloc, rt.stdin(), size_of(size)?)?;
            println!(rt; "{}", take_lent(alloc, pieces)?)?;
            Ok(())
        }
        [_, size, "--peer", "tungstenite"] => {
            let pieces = Pieces::new(alloc, rt.stdin(), size_of(size)?)?;
            println!(rt; "{}", take_by_tungstenite(alloc, pieces)?)?;
            Ok(())
        }
        [_, size, "--copy"] => {
            let pieces = Pieces::new(alloc, rt.stdin(), size_of(size)?)?;
            println!(rt; "{} bytes", read_only(alloc, pieces)?)?;
            Ok(())
        }
        _ => bail!(
            "wrong arguments: SIZE, SIZE --lent, SIZE --peer tungstenite, SIZE --copy, --make FILL LENGTH COUNT"
        ),
    }
}

/// The most bytes of a piece.
fn size_of(word: &str) -> Result<usize> {
    let size = word.parse::<usize>()?;
    ensure!(size > 0, "a piece has at least one byte");
    Ok(size)
}
