//! Inputs in memory, and a run of `wst` over one.

use crate::digest::Digest;
use anyhow::Result;
use std::alloc::Global;
use std::fmt::Write;
use std::io::{self, Read};
use ws_frame::Watched;
use wst_network::SystemConnector;
use wst_run::{Site, run};
use wst_sockets::Network;

/// A reader of a text in memory.
#[derive(Drop)]
pub struct Text<'a> {
    left: &'a [u8],
}

impl<'a> Text<'a> {
    /// A reader of these bytes.
    pub fn of(bytes: &'a [u8]) -> Text<'a> {
        Text { left: bytes }
    }
}

impl Read for Text<'_> {
    fn read(&mut self, buf: &mut [u8]) -> io::Result<usize> {
        let count = buf.len().min(self.left.len());
        buf[..count].copy_from_slice(&self.left[..count]);
        self.left = &self.left[count..];
        Ok(count)
    }
}

/// Runs `wst` with these words, parted by spaces, over what a reader gives. Puts its exit status, the digest of what it
/// wrote and that of what it told on the fault output. It stays a function of its own, so that its instructions can be
/// counted.
#[inline(never)]
pub fn run_wst<N: Network, R: Read + Drop>(
    alloc: Global,
    net: &N,
    words: &str,
    reader: R,
    results: &mut String,
) -> Result<()> {
    let mut line = Vec::new(alloc);
    for word in words.split(' ') {
        line.push(String::from_str(alloc, word)?)?;
    }
    let mut reader = Watched::new(reader);
    let mut writer = Watched::new(Digest::new());
    let mut faults = Watched::new(Digest::new());
    let site = Site {
        alloc,
        net,
        connector: &SystemConnector::of(net),
    };
    let exit = run(site, line.as_slice(), &mut reader, &mut writer, &mut faults);
    let (written, told) = (writer.into_inner(), faults.into_inner());
    write!(results, " {} {written} {told}", exit.status())?;
    Ok(())
}
