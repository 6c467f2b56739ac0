//! Moves at two joined sessions (RFC 6455 sections 5.4 to 5.6 and 7.1), and the report of them.

use crate::tally::Tally;
use std::alloc::Global;
use ws_base::{NoMemory, TextFault};
use ws_frame::{ByteWriter, Failing, Watched};
use ws_pair::{Move, Report, read_moves, run_pair, write_report};
use ws_session::Limits;

/// Moves, and the report of them.
pub struct Script {
    /// The most payload bytes of a message to the client.
    pub client: u32,
    /// The most payload bytes of a message to the server.
    pub server: u32,
    pub moves: &'static str,
    pub report: &'static str,
}

/// A message of ten bytes, and one of eleven where ten are the most.
pub const OVERSIZED: Script = Script {
    client: 1_048_576,
    server: 10,
    moves: "\
begin client binary fin 00010203040506070809 -
begin client binary fin 000102030405060708090a -
arrive server 22 -
arrive client 100 -
",
    report: "\
ok
ok
arrived 22
arrived 4
client put 828a0000000000010203040506070809828b00000000000102030405060708090a88820000000003f1
client reached 4
client status clean 1009
server put 880203f1
server reached 22
server got binary 00010203040506070809
server status failed TooBig
",
};

/// What case 5.19 sends, turn by turn, to a server that answers what is owed.
pub const FRAGMENTS: Script = Script {
    client: 1000,
    server: 1000,
    moves: "\
begin client text part 667261676d656e7431 -
more client part 667261676d656e7432 -
ping client 70696e672031 -
arrive server 1000 -
arrive client 1000 -
more client part 667261676d656e7433 -
more client part 667261676d656e7434 -
ping client 70696e672032 -
more client fin 667261676d656e7435 -
arrive server 1000 -
arrive client 1000 -
close client 1000 - -
arrive server 1000 -
arrive client 1000 -
",
    report: "\
ok
ok
ok
arrived 42
arrived 8
ok
ok
ok
ok
arrived 57
arrived 8
ok
arrived 8
arrived 4
client put 018900000000667261676d656e7431008900000000667261676d656e743289860000000070696e672031\
008900000000667261676d656e7433008900000000667261676d656e743489860000000070696e672032\
808900000000667261676d656e743588820000000003e8
client reached 20
client status clean 1000
server put 8a0670696e6720318a0670696e672032880203e8
server reached 107
server got text 667261676d656e7431667261676d656e7432667261676d656e7433667261676d656e7434667261676d656e7435
server status clean 1000
",
};

/// Plays the moves of a script, and compares the report.
pub fn play(alloc: Global, script: &Script, tally: &mut Tally) -> Result<(), NoMemory> {
    let (Some(client), Some(server)) = (Limits::new(script.client), Limits::new(script.server))
    else {
        return Err(NoMemory);
    };
    match read_moves(alloc, script.moves.as_bytes()) {
        Ok(moves) => {
            let report = run_again(alloc, client, server, moves.as_slice(), tally)?;
            let lines = lines_of(alloc, &report)?;
            tally.compare(lines.as_slice() == script.report.as_bytes());
        }
        Err(TextFault::NoMemory) => return Err(NoMemory),
        Err(TextFault::Damaged(_)) => tally.compare(false),
    }
    Ok(())
}

/// The lines of a report.
fn lines_of(alloc: Global, report: &Report) -> Result<Vec<u8>, NoMemory> {
    let mut writer = Watched::new(ByteWriter::new(alloc, Failing::Never));
    match write_report(alloc, report, &mut writer) {
        Ok(()) => Ok(writer.into_inner().taken),
        Err(_) => Err(NoMemory),
    }
}

/// One run, made again where memory runs out.
fn run_again(
    alloc: Global,
    client: Limits,
    server: Limits,
    moves: &[Move],
    tally: &mut Tally,
) -> Result<Report, NoMemory> {
    tally.call();
    match run(alloc, client, server, moves) {
        Ok(report) => Ok(report),
        Err(NoMemory) => {
            tally.refuse("run_pair");
            run(alloc, client, server, moves)
        }
    }
}

fn run(alloc: Global, client: Limits, server: Limits, moves: &[Move]) -> Result<Report, NoMemory> {
    run_pair(alloc, client, server, moves)
}
