//! The waits for a tested end: each has a limit of time, or once in a run it is told that it goes on.

ghost use Rattle.std.specs.Prelude.{◌≡◌, ◌≤◌, List, ℕ, [], OnErr, OnOk, length};
ghost use Rattle.ws_frame.specs.Devices.{watched};
ghost use Rattle.wst_commands.specs.declared.time_limit.TimeLimit.{TimeLimit};
ghost use Rattle.wst_commands.specs.declared.time_limit.TimeLimit.TheVariants.{Seconds};
ghost use Rattle.wst_sockets.specs.Waiting.{TellsWait, after_wait, notes_of_waits, notice_of};

use crate::resuming::Resumed;
use std::alloc::Global;
use std::cell::Cell;
use std::io::Write;
use std::net::Net;
use std::rt::{HostRuntime, Stderr};
use std::time::Clock;
use ws_base::NoMemory;
use ws_frame::Watched;
use ws_suite::Case;
use wst_commands::{TimeLimit, tell};

/// After so many seconds in which nothing came it is told that a wait goes on.
pub const PATIENCE: u64 = 10;

/// A network with a clock, and where it is told that a run waits: it waits inside of a read, to which no other device
/// is lent.
pub trait Network: Net + Clock {
    /// Takes what is told.
    type Notices: Write + Drop;

    /// Where it is told.
    fn notices(&self) -> Self::Notices;
}

/// It is told on the standard error.
impl Network for HostRuntime {
    type Notices = Resumed<Stderr>;

    fn notices(&self) -> Resumed<Stderr> {
        Resumed::of(self.stderr())
    }
}

/// What a run has still to tell of its waits.
#[derive(Clone, Copy, PartialEq, Eq)]
pub enum Notice {
    /// That it waits, at the first wait of ten seconds in which nothing comes.
    Pending,
    /// Nothing: it was told.
    Told,
    /// Nothing: a limit of time ends each wait.
    Needless,
}

impl Notice {
    /// That of a run whose end is waited for so long.
    pub fn of(timeout: TimeLimit) -> Notice
        ensures { result ≡ notice_of timeout }
    {
        match timeout {
            TimeLimit::Unlimited => Notice::Pending,
            TimeLimit::Seconds(_) => Notice::Needless,
        }
    }
}

/// Tells that the case of this name waits, where a run has still to tell it. Where memory runs out for the line,
/// nothing is told.
pub fn tell_wait<F: Write>(
    alloc: Global,
    notice: &mut Notice,
    name: &str,
    output: &mut Watched<F>,
) -> Result<(), NoMemory>
    ensures told { OnOk result (TellsWait notice.old name.now (watched F.contents output.old output.new)) }
    ensures once { notice.new ≡ after_wait notice.old }
    ensures kept { OnErr result (output.new ≡ output.old) }
{
    match *notice {
        Notice::Pending => {
            *notice = Notice::Told;
            let line = format!(in alloc;
                "still waiting: {name} (--timeout SECONDS ends a wait)\n"
            )?;
            tell(line.as_bytes(), output);
            Ok(())
        }
        Notice::Told | Notice::Needless => Ok(()),
    }
}

/// Of all waits of a run one is told at most, and none where a limit ends each.
pub fn law_one_wait_is_told()
    ensures one { (timeout : TimeLimit) (names : List (List ℕ)) →
        length (notes_of_waits (notice_of timeout) names) ≤ 1 }
    ensures none { (seconds : ℕ) (names : List (List ℕ)) → notes_of_waits (notice_of (Seconds seconds)) names ≡ [] }
{}

/// Which of some cases is run, if one is: its number, from 1.
#[derive(Clone, Copy)]
pub struct Running<'a> {
    pub cases: &'a [Case],
    pub number: &'a Cell<Option<u32>>,
}

impl<'a> Running<'a> {
    /// Its name.
    fn name(self) -> Option<&'a str> {
        let number = self.number.get()?;
        let place = (number as usize).checked_sub(1)?;
        let case = self.cases.get(place)?;
        Some(case.id.as_str())
    }
}

/// Tells of the waits of a run over a network.
#[derive(Clone, Copy)]
pub struct WaitTeller<'a, N> {
    alloc: Global,
    net: &'a N,
    notice: &'a Cell<Notice>,
    running: Running<'a>,
}

impl<'a, N: Network> WaitTeller<'a, N> {
    /// Tells it by this notice of the run, of the case that is run.
    pub fn of(
        alloc: Global,
        net: &'a N,
        notice: &'a Cell<Notice>,
        running: Running<'a>,
    ) -> WaitTeller<'a, N> {
        WaitTeller {
            alloc,
            net,
            notice,
            running,
        }
    }

    /// Where it stands which case is run.
    pub fn number(&self) -> &'a Cell<Option<u32>> {
        self.running.number
    }

    /// Whether a wait is still to be told.
    pub fn is_pending(&self) -> bool {
        self.name_to_tell().is_some()
    }

    /// The name of the case whose wait is still to be told. `None` where none is.
    fn name_to_tell(&self) -> Option<&'a str> {
        match self.notice.get() {
            Notice::Pending => self.running.name(),
            Notice::Told | Notice::Needless => None,
        }
    }

    /// Tells that a case waits, where that is still to be told.
    pub fn tell(&self) {
        let Some(name) = self.name_to_tell() else {
            return;
        };
        let mut notice = self.notice.get();
        let mut output = Watched::new(self.net.notices());
        let _ = tell_wait(self.alloc, &mut notice, name, &mut output);
        self.notice.set(notice);
    }
}
