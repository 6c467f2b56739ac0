//! `show` over a stream of frames that is made as it is read.

use crate::chance::Chance;
use crate::endpoint::STREAM;
use crate::frames::{Frames, Mix};
use crate::input::run_wst;
use anyhow::Result;
use std::alloc::{AllocError, Global};
use std::io::{self, ErrorKind, Read};
use wst_sockets::Network;

/// `show` over a stream of at least so many bytes.
pub fn show<N: Network>(
    alloc: Global,
    net: &N,
    frames: Frames,
    mix: Mix,
    size: usize,
    chance: Chance,
    results: &mut String,
) -> Result<()> {
    let stream = Stream {
        frames,
        mix,
        left: size,
        block: Vec::new(alloc),
        given: 0,
        chance,
    };
    run_wst(alloc, net, "wst show --from client", stream, results)
}

/// A stream of frames that is made as it is read.
#[derive(Drop)]
struct Stream {
    frames: Frames,
    mix: Mix,
    /// How many bytes are still to be made, at least.
    left: usize,
    block: Vec<u8>,
    /// How many bytes of the block were given.
    given: usize,
    chance: Chance,
}

/// The bytes of a block, at least.
const BLOCK: usize = 262_144;

impl Stream {
    /// Makes the next block, or none at the end.
    fn make(&mut self) -> Result<(), AllocError> {
        self.block.clear();
        self.given = 0;
        for _ in 0..BLOCK {
            if self.left == 0 || self.block.len() >= BLOCK {
                break;
            }
            let part = self.frames.part(self.mix, &mut self.chance);
            let before = self.block.len();
            self.frames
                .put_cut(&part, STREAM, &mut self.chance, &mut self.block)?;
            self.left = self
                .left
                .saturating_sub(self.block.len().saturating_sub(before));
        }
        Ok(())
    }
}

impl Read for Stream {
    fn read(&mut self, buf: &mut [u8]) -> io::Result<usize> {
        if self.given >= self.block.len() && self.make().is_err() {
            return Err(io::Error::from(ErrorKind::OutOfMemory));
        }
        let (_, ready) = self
            .block
            .as_slice()
            .split_at(self.given.min(self.block.len()));
        let count = buf.len().min(ready.len());
        buf[..count].copy_from_slice(&ready[..count]);
        self.given = self.given.saturating_add(count);
        Ok(count)
    }
}
