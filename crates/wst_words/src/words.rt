//! What the words of a command line ask for.

ghost use Rattle.std.specs.Prelude.{◌≡◌, ◌≢◌, IfOk, MatchOption, Some, codes, map, string_bytes};
ghost use Rattle.clap.specs.Words.{found_of, kind_of, rows_of, subcommand_rows_of};
ghost use Rattle.clap.specs.declared.error.kind.ErrorKind.TheVariants.{OutOfMemory};
ghost use Rattle.wst_words.specs.declared.words.WordsFault.TheVariants.{Clap};
ghost use Rattle.wst_words.specs.Arguments.{Places};
ghost use Rattle.wst_words.specs.Words.{CommandAsks, CommandAsksNothing, IsOfClap, IsRead, wst_app};

use crate::cases::{CasesOptions, cases_options};
use crate::commands::wst_command;
use crate::convert::{ConvertOptions, convert_options};
use crate::head::{HeadOptions, head_options};
use crate::judge::{JudgeOptions, judge_options};
use crate::pair::{PairOptions, pair_options};
use crate::report::{ReportOptions, report_options};
use crate::send::{SendOptions, send_options};
use crate::serve::{ServeOptions, serve_options};
use crate::session::{SessionOptions, session_options};
use crate::show::{ShowOptions, show_options};
use crate::sweep::{SweepOptions, sweep_options};
use crate::tap::{TapOptions, tap_options};
use crate::test::{TestOptions, test_options};
use clap::{ArgMatches, Command, Error};
use std::alloc::{AllocError, Global};

/// What the words ask for: a command, with its options.
#[derive(Drop)]
pub enum Task<'a> {
    /// The lines of the frames that come in.
    Show(ShowOptions),
    /// The report of the moves that come in.
    Pair(PairOptions),
    /// The answer to the head of a request that comes in.
    Head(HeadOptions<'a>),
    /// The answers of one endpoint to the calls that come in.
    Session(SessionOptions),
    /// The verdict on the capture that comes in.
    Judge(JudgeOptions),
    /// The capture that comes in, in format 2.
    Convert(ConvertOptions<'a>),
    /// The list of cases, or the text of one.
    Cases(CasesOptions<'a>),
    /// The verdicts on a server in cases.
    Test(TestOptions<'a>),
    /// The frames that come back for those of the script that comes in.
    Send(SendOptions<'a>),
    /// The verdicts on a server in every short script.
    Sweep(SweepOptions<'a>),
    /// What the lines of runs tell, side by side.
    Report(ReportOptions<'a>),
    /// Connections to serve.
    Serve(ServeOptions<'a>),
    /// Connections between clients and a server to tap.
    Tap(TapOptions<'a>),
}

/// Why the words give no task.
#[derive(Drop)]
pub enum WordsFault {
    /// What `clap` tells: the words are wrong, they ask for help or the version, or memory ran out.
    Clap(Error),
    /// `clap` finds no fault in the words, and they ask for no task. Since a command is required and each
    /// option has a default, this never comes; that is tested, and not proved.
    NoTask,
}

impl From<Error> for WordsFault {
    ghost from_gives = { λ error fault. fault ≡ Clap error };

    fn from(error: Error) -> WordsFault {
        WordsFault::Clap(error)
    }
}

impl From<AllocError> for WordsFault {
    ghost from_gives = { λ _ fault. IsOfClap (λ error. kind_of error ≡ OutOfMemory) fault };

    fn from(error: AllocError) -> WordsFault {
        WordsFault::Clap(Error::from(error))
    }
}

/// What the words ask for, the program's name first, or why they give no task. It is `clap`'s reading
/// of the words by the commands of `wst`.
pub fn read_words<'a>(alloc: Global, words: &'a [String]) -> Result<Task<'a>, WordsFault>
    ensures read { (places : Places) × IsRead (wst_app places) (map string_bytes words.entry.now) result }
{
    let command: Command<'a> = wst_command(alloc)?;
    let matches = command.try_get_matches_from(words)?;
    let task = task_of(alloc, &matches)?;
    match task {
        Some(task) => Ok(task),
        None => Err(WordsFault::NoTask),
    }
}

/// The task of the command that was met. `None` where there is none, or an option has no value.
fn task_of<'a>(alloc: Global, matches: &ArgMatches<'a>) -> Result<Option<Task<'a>>, AllocError>
    ensures { IfOk result (λ found. MatchOption found (CommandAsksNothing (subcommand_rows_of matches.now))
        (CommandAsks (subcommand_rows_of matches.now))) }
{
    let Some((name, options)) = matches.subcommand() else {
        return Ok(None);
    };
    match name {
        "test" => {
            let found = test_task(alloc, options)?;
            Ok(found)
        }
        "send" => {
            let found = send_task(alloc, options)?;
            Ok(found)
        }
        "sweep" => {
            let found = sweep_task(alloc, options)?;
            Ok(found)
        }
        _ => Ok(plain_task(name, options)),
    }
}

/// The task of the command `test`. `None` where a word has no value.
fn test_task<'a>(alloc: Global, options: &ArgMatches<'a>) -> Result<Option<Task<'a>>, AllocError>
    ensures { IfOk result (λ found. MatchOption found
        (CommandAsksNothing (Some (codes "test", rows_of (found_of options.now))))
        (CommandAsks (Some (codes "test", rows_of (found_of options.now))))) }
{
    let found = test_options(alloc, options)?;
    match found {
        Some(options) => Ok(Some(Task::Test(options))),
        None => Ok(None),
    }
}

/// The task of the command `send`. `None` where a word has no value.
fn send_task<'a>(alloc: Global, options: &ArgMatches<'a>) -> Result<Option<Task<'a>>, AllocError>
    ensures { IfOk result (λ found. MatchOption found
        (CommandAsksNothing (Some (codes "send", rows_of (found_of options.now))))
        (CommandAsks (Some (codes "send", rows_of (found_of options.now))))) }
{
    let found = send_options(alloc, options)?;
    match found {
        Some(options) => Ok(Some(Task::Send(options))),
        None => Ok(None),
    }
}

/// The task of the command `sweep`. `None` where a word has no value.
fn sweep_task<'a>(alloc: Global, options: &ArgMatches<'a>) -> Result<Option<Task<'a>>, AllocError>
    ensures { IfOk result (λ found. MatchOption found
        (CommandAsksNothing (Some (codes "sweep", rows_of (found_of options.now))))
        (CommandAsks (Some (codes "sweep", rows_of (found_of options.now))))) }
{
    let found = sweep_options(alloc, options)?;
    match found {
        Some(options) => Ok(Some(Task::Sweep(options))),
        None => Ok(None),
    }
}

/// The task of a command whose options take no memory. `None` where there is none of this name, or an option has no
/// value.
fn plain_task<'a>(name: &str, options: &ArgMatches<'a>) -> Option<Task<'a>>
    requires test { name.now ≢ codes "test" }
    requires send { name.now ≢ codes "send" }
    requires sweep { name.now ≢ codes "sweep" }
    ensures { MatchOption result (CommandAsksNothing (Some (name.now, rows_of (found_of options.now))))
        (CommandAsks (Some (name.now, rows_of (found_of options.now)))) }
{
    match name {
        "show" => Some(Task::Show(show_options(options)?)),
        "pair" => Some(Task::Pair(pair_options(options)?)),
        "head" => Some(Task::Head(head_options(options))),
        "session" => Some(Task::Session(session_options(options)?)),
        "judge" => Some(Task::Judge(judge_options(options)?)),
        "convert" => Some(Task::Convert(convert_options(options))),
        "cases" => Some(Task::Cases(cases_options(options)?)),
        "report" => Some(Task::Report(report_options(options)?)),
        "serve" => Some(Task::Serve(serve_options(options)?)),
        "tap" => Some(Task::Tap(tap_options(options)?)),
        _ => None,
    }
}
