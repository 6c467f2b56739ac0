//! The lines that tell of both ends of a tapped connection.

ghost use Rattle.std.specs.Prelude.{◌≡◌, [], length, false, IfOk};
ghost use Rattle.ws_frame.specs.Devices.{watched};
ghost use Rattle.ws_frame.specs.Watching.{has_failed};
ghost use Rattle.ws_tap.specs.Standing.{CanTellMore, HasToldLines, SendsTo, TellsPieceOf, TellsEnded};

use crate::head_room::HeadRoom;
use crate::kept_lines::KeptLines;
use crate::release::Release;
use crate::tapped::{Tapped, TappedEnd};
use crate::telling::{SideStage, tell_end, tell_some};
use std::alloc::Global;
use std::io::Write;
use ws_base::NoMemory;
use ws_frame::{ShowFault, Watched, WriteFault};
use ws_wire::Role;

/// The lines of both ends, and whether those of their frames are told.
#[derive(Drop)]
pub(crate) struct TapLines {
    pub(crate) tapped: Tapped,
    pub(crate) client: SideStage,
    pub(crate) server: SideStage,
    pub(crate) release: Release,
}

impl TapLines {
    /// Nothing has come.
    pub(crate) fn new(alloc: Global, tapped: Tapped) -> Result<TapLines, NoMemory>
        ensures begun { IfOk result (λ made. HasToldLines tapped [] made []) }
    {
        let client = HeadRoom::new(alloc)?;
        let server = HeadRoom::new(alloc)?;
        let kept = KeptLines::new(alloc)?;
        Ok(TapLines {
            tapped,
            client: SideStage::Head(client),
            server: SideStage::Head(server),
            release: Release::Awaited(kept),
        })
    }

    /// More bytes came from an end: what they make certain is told. At an error the output has failed, or memory ran
    /// out.
    pub(crate) fn came<W: Write>(
        &mut self,
        alloc: Global,
        role: Role,
        output: &mut Watched<W>,
        piece: &[u8],
    ) -> Result<(), ShowFault>
        requires output_works { has_failed output.old ≡ false }
        requires stands { CanTellMore role (length piece.now) self.old }
        ensures told { TellsPieceOf role self.old self.new piece.now (watched W.contents output.old output.new) result }
    {
        let used = self.sent(alloc, role, output, piece)?;
        if used < piece.len() {
            self.sent(alloc, role, output, &piece[used..])?;
        }
        Ok(())
    }

    /// An end has ended its direction: a cut is told, or its line waits. At an error the output has failed.
    pub(crate) fn ended<W: Write>(
        &mut self,
        role: Role,
        output: &mut Watched<W>,
    ) -> Result<(), WriteFault>
        requires output_works { has_failed output.old ≡ false }
        requires stands { CanTellMore role 0 self.old }
        ensures told { TellsEnded role self.old self.new (watched W.contents output.old output.new) result }
    {
        match role {
            Role::Client => tell_end(&mut self.client, &mut self.release, output),
            Role::Server => tell_end(&mut self.server, &mut self.release, output),
        }
    }

    /// As `tell_some` at the stage of this end.
    fn sent<W: Write>(
        &mut self,
        alloc: Global,
        role: Role,
        output: &mut Watched<W>,
        piece: &[u8],
    ) -> Result<usize, ShowFault>
        requires output_works { has_failed output.old ≡ false }
        requires stands { CanTellMore role (length piece.now) self.old }
        ensures told { SendsTo role self.old self.new piece.now (watched W.contents output.old output.new) result }
    {
        let tapped = self.tapped;
        match role {
            Role::Client => tell_some(
                alloc,
                TappedEnd {
                    role: Role::Client,
                    tapped,
                },
                &mut self.client,
                &mut self.release,
                output,
                piece,
            ),
            Role::Server => tell_some(
                alloc,
                TappedEnd {
                    role: Role::Server,
                    tapped,
                },
                &mut self.server,
                &mut self.release,
                output,
                piece,
            ),
        }
    }
}
