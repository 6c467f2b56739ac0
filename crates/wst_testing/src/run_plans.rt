//! What the options that commands share ask for: over which end scripts are run, and how. One place judges them.

ghost use Rattle.std.specs.Prelude.{◌≡◌, ◌≢◌, ◌↔◌, IfOk, IsTrue, List, MatchOption, MatchResult, ℕ, codes};
ghost use Rattle.ws_frame.specs.Devices.{watched};
ghost use Rattle.wst_commands.specs.Devices.{Tells};
ghost use Rattle.ws_connection.specs.RequestHeaders.{headers_in};
ghost use Rattle.wst_testing.specs.RunPlans.{GivesAtOnce, GivesMaxFail, HasTestsAtOnce, HasHeaders, HasMaxFail};
ghost use Rattle.wst_testing.specs.RunPlans.{asks_in_turn, header_words, is_memory_word};
ghost use Rattle.wst_testing.specs.RunPlans.{CanConnect, IsClientsAddress, IsConnectAddress, IsEndOf, IsRunPlan};
ghost use Rattle.wst_testing.specs.RunPlans.{CanNotRun, IsUrl};
ghost use Rattle.wst_testing.specs.RunPlans.{AdvisesClients, RefusesTarget, TellsRefusal, address_text, is_in_memory};
ghost use Rattle.wst_testing.specs.RunPlans.{IsLimitRefusal, WaitsForServer};
ghost use Rattle.wst_testing.specs.RunPlans.{gives_limit, tested_role, tells_waits, usual_deadline, usual_timeout};
ghost use Rattle.ws_wire.specs.declared.role.Role.{Role};
ghost use Rattle.ws_wire.specs.declared.role.Role.TheVariants.{Client, Server};
ghost use Rattle.wst_commands.specs.declared.exit.Exit.TheVariants.{WrongWords};
ghost use Rattle.wst_testing.specs.declared.run_plans.TestedEnd.TheVariants.{Memory};

use crate::case_server::{MemoryEnd, MemoryPeer};
use std::alloc::Global;
use std::io::Write;
use ws_base::NoMemory;
use ws_connection::{Protocols, RequestHeaders, headers_of, protocols_of};
use ws_formats::read_key;
use ws_frame::Watched;
use ws_suite::Expectation;
use ws_targets::{
    Advice, Target, TargetFault, asks_for_tls, is_address, read_target, target_advice,
};
use ws_upgrade::is_host;
use ws_wire::Role;
use wst_commands::{
    Exit, NoCases, TimeLimit, count_given, deadline_given, has_unit, run_timeout_given, tell,
    tell_no_cases, wait_given,
};
use wst_words::RunOptions;

/// At most so many failures end a run.
const MOST_FAILURES: u32 = 1000;

/// At most so many cases run at a time.
const MOST_AT_ONCE: u32 = 100;

/// The end that scripts are run over.
#[derive(Drop)]
pub enum TestedEnd<'a> {
    /// It stands in memory.
    Memory(MemoryEnd),
    /// A server that is met there.
    Server(Target),
    /// Clients that come to this address.
    Clients(&'a str),
}

impl TestedEnd<'_> {
    /// Its role.
    pub fn role(&self) -> Role
        ensures { result ≡ tested_role self.now }
    {
        match self {
            TestedEnd::Memory(end) => end.role,
            TestedEnd::Server(_) => Role::Server,
            TestedEnd::Clients(_) => Role::Client,
        }
    }

    /// Whether it stands in memory.
    pub fn is_in_memory(&self) -> bool
        ensures { result ≡ is_in_memory self.now }
    {
        match self {
            TestedEnd::Memory(_) => true,
            TestedEnd::Server(_) | TestedEnd::Clients(_) => false,
        }
    }
}

/// Over which end scripts are run, and how.
#[derive(Drop)]
pub struct RunPlan<'a> {
    /// The masking key of the client's frames that have none of their own.
    pub key: [u8; 4],
    pub tested: TestedEnd<'a>,
    /// What is expected of it.
    pub expected: Expectation,
    /// How long an end that is not in memory is waited for.
    pub timeout: TimeLimit,
    /// Whether that limit was asked for: one that is only usual changes nothing where there is no connection.
    pub gives_limit: bool,
    /// How long a connection to such an end may last.
    pub deadline: TimeLimit,
    /// How long a client is waited for that comes to an address.
    pub wait: TimeLimit,
    /// At most so many bytes are read of such an end in one script behind its head.
    pub budget: u64,
    /// The subprotocols that are offered to a server, or of which one is chosen for a client.
    pub protocols: Protocols<'a>,
    /// The headers that the request to a server has behind its own.
    pub headers: RequestHeaders<'a>,
}

impl RunPlan<'_> {
    /// Whether it is told that a run waits for a server: one that is met over a network, without a limit of time.
    pub fn tells_waits(&self) -> bool
        ensures { result ≡ tells_waits self.now }
    {
        match self.tested {
            TestedEnd::Server(_) => !self.timeout.is_limited(),
            TestedEnd::Memory(_) | TestedEnd::Clients(_) => false,
        }
    }
}

/// How long a tested end is waited for, and how long a connection to it may last, where that isn't given.
#[derive(Clone, Copy, PartialEq, Eq)]
pub enum UsualTimes {
    /// As long as it takes, both: a script whose command gives a limit of its own.
    OfScript,
    /// Ten seconds, and ten times as long as the tested end is waited for: so no run of cases hangs.
    OfCases,
}

impl UsualTimes {
    /// How long the tested end is waited for.
    fn timeout(self) -> TimeLimit
        ensures { result ≡ usual_timeout self }
    {
        match self {
            UsualTimes::OfScript => TimeLimit::Unlimited,
            UsualTimes::OfCases => TimeLimit::Seconds(10),
        }
    }

    /// How long a connection lasts, where the tested end is waited for so long.
    fn deadline(self, timeout: TimeLimit) -> TimeLimit
        ensures { result ≡ usual_deadline self timeout }
    {
        match self {
            UsualTimes::OfScript => TimeLimit::Unlimited,
            UsualTimes::OfCases => timeout.ten_times(),
        }
    }
}

/// Why nothing is run: the first of these that applies.
#[derive(Clone, Copy)]
pub enum Refusal<'a> {
    /// It is given how long a client is waited for, and a server is tested.
    WaitForServer,
    /// The names that are given can't be offered as subprotocols.
    BadProtocols,
    /// A word is no header that can be added to a request, or there are too many.
    BadHeader,
    /// The seconds are no limit of time.
    BadTimeout,
    /// The same, and they are digits with a unit.
    TimeoutWithUnit,
    /// The seconds are no limit of time for a client to come.
    BadWait,
    /// The same, and they are digits with a unit.
    WaitWithUnit,
    /// The seconds are no limit of time for a connection.
    BadDeadline,
    /// The same, and they are digits with a unit.
    DeadlineWithUnit,
    /// The key is not eight lower-case hexadecimal digits.
    BadKey,
    /// The target names no end, with what is wrong with it.
    BadAddress(Advice),
    /// No connection can be made at the address that is given for the target.
    BadConnect,
    /// A capture is asked for beside an earlier run or a document.
    CaptureInReport,
    /// Times are asked for, and the end stands in memory.
    TimeInMemory,
    /// A capture is asked for, and not exactly one case is given.
    NotOneCase,
    /// The number of failures that are to end a run is none of 1 to 1000.
    BadMaxFail,
    /// It is given how many cases run at a time, and they can run only one after the other.
    AtOnceInTurn,
    /// The number of cases that are to run at a time is none of 1 to 100.
    BadAtOnce,
    /// A word stands for no case, or memory ran out.
    NoCases(NoCases<'a>),
}

impl<'a> From<NoCases<'a>> for Refusal<'a> {
    ghost use Rattle.wst_testing.specs.declared.run_plans.Refusal.TheVariants as refusal;

    ghost from_gives = { λ why given. given ≡ refusal.NoCases why };

    fn from(why: NoCases<'a>) -> Self {
        Refusal::NoCases(why)
    }
}

impl From<NoMemory> for Refusal<'_> {
    ghost use Rattle.wst_commands.specs.declared.given_cases.NoCases.TheVariants as why;
    ghost use Rattle.wst_testing.specs.declared.run_plans.Refusal.TheVariants as refusal;

    ghost from_gives = { λ _ given. given ≡ refusal.NoCases why.NoMemory };

    fn from(_refused: NoMemory) -> Self {
        Refusal::NoCases(NoCases::NoMemory)
    }
}

/// What the options ask for, with these times where none are given, or the first reason against it.
#[tactic(auto, using(crate::proofs::PlanLemmas::timeout_refused, crate::proofs::PlanLemmas::wait_refused))]
pub fn plan_run<'a>(
    alloc: Global,
    options: &RunOptions<'a>,
    usual: UsualTimes,
) -> Result<RunPlan<'a>, Refusal<'a>>
    ensures { MatchResult result (IsRunPlan usual options.now) (CanNotRun options.now) }
{
    if waits_for_server(options.role, options.wait) {
        return Err(Refusal::WaitForServer);
    }
    let Some(protocols) = protocols_of(alloc, options.protocols)? else {
        return Err(Refusal::BadProtocols);
    };
    let Some(headers) = headers_given(alloc, options)? else {
        return Err(Refusal::BadHeader);
    };
    let Some(timeout) = run_timeout_given(options.timeout, usual.timeout()) else {
        return Err(limit_refusal(
            options.timeout,
            Refusal::TimeoutWithUnit,
            Refusal::BadTimeout,
        ));
    };
    let Some(wait) = wait_given(options.wait) else {
        return Err(limit_refusal(options.wait, Refusal::WaitWithUnit, Refusal::BadWait));
    };
    let Some(deadline) = deadline_given(options.deadline, usual.deadline(timeout)) else {
        return Err(limit_refusal(
            options.deadline,
            Refusal::DeadlineWithUnit,
            Refusal::BadDeadline,
        ));
    };
    let Some(key) = read_key(options.key.as_bytes()) else {
        return Err(Refusal::BadKey);
    };
    let named = end_named(alloc, options.role, options.target)?;
    if !can_connect(options.connect) {
        return Err(Refusal::BadConnect);
    }
    let tested = connected(alloc, named, options.connect)?;
    Ok(RunPlan {
        key,
        tested,
        expected: options.expect,
        timeout,
        gives_limit: gives_limit(options.timeout, timeout),
        deadline,
        wait,
        budget: options.budget,
        protocols,
        headers,
    })
}

/// Whether this limit of time for a tested end was asked for.
fn gives_limit(word: Option<&str>, timeout: TimeLimit) -> bool
    ensures { result ≡ gives_limit word.entry timeout }
{
    match word {
        Some(_) => timeout.is_limited(),
        None => false,
    }
}

/// How many failures end a run, by the word of an option: a number of 1 to 1000, and none where it is left out. `None`
/// where the word is no such number.
pub fn max_fail_given(word: Option<&str>) -> Option<Option<u32>>
    ensures { MatchOption result (¬ (HasMaxFail word.entry)) (GivesMaxFail word.entry) }
{
    let Some(word) = word else {
        return Some(None);
    };
    match count_given(word, MOST_FAILURES) {
        Some(count) => Some(Some(count)),
        None => None,
    }
}

/// How many cases run at a time, by the word of an option: a number of 1 to 100, and 1 where it is left out. `None`
/// where the word is no such number.
pub fn at_once_given(word: Option<&str>) -> Option<u32>
    ensures { MatchOption result (¬ (HasTestsAtOnce word.entry)) (GivesAtOnce word.entry) }
{
    match word {
        Some(word) => count_given(word, MOST_AT_ONCE),
        None => Some(1),
    }
}

/// Whether it is given how many cases run at a time, and the end stands in memory, or is a client: it is tested in one
/// case after the other.
pub fn asks_in_turn(at_once: Option<&str>, role: Role, target: &str) -> bool
    ensures { result ≡ asks_in_turn at_once.entry role target.now }
{
    match (at_once, role) {
        (Some(_), Role::Client) => true,
        (Some(_), Role::Server) => is_memory_word(target),
        (None, _) => false,
    }
}

/// Whether a word names an end in memory.
fn is_memory_word(word: &str) -> bool
    ensures { result ≡ is_memory_word word.now }
{
    word == "own" || word == "tung"
}

/// Whether it is given how long a client is waited for, and a server is tested.
fn waits_for_server(role: Role, wait: Option<&str>) -> bool
    ensures { IsTrue result ↔ WaitsForServer role wait.entry }
{
    match (role, wait) {
        (Role::Server, Some(_)) => true,
        _ => false,
    }
}

/// What is wrong with a word that is no limit of time: the one where it is digits with a unit, else the other.
fn limit_refusal<'a>(word: Option<&str>, with_unit: Refusal<'a>, bad: Refusal<'a>) -> Refusal<'a>
    ensures { IsLimitRefusal word.entry with_unit.entry bad.entry result }
{
    if has_unit(word) { with_unit } else { bad }
}

/// The headers of the words. `None` where a request can't have them.
fn headers_given<'a>(
    alloc: Global,
    options: &RunOptions<'a>,
) -> Result<Option<RequestHeaders<'a>>, NoMemory>
    ensures { IfOk result (λ found. MatchOption found (¬ (HasHeaders options.now))
        (λ headers. (headers ≡ headers_in (header_words options.now)) × HasHeaders options.now)) }
{
    let found = headers_of(alloc, options.headers.as_slice())?;
    Ok(found)
}

/// The end of this role that a word names.
fn end_named<'a>(alloc: Global, role: Role, word: &'a str) -> Result<TestedEnd<'a>, Refusal<'a>>
    ensures { MatchResult result (IsEndOf role word.now None) (RefusesTarget role word.now) }
{
    match word {
        "own" => Ok(in_memory(MemoryPeer::Own, role)),
        "tung" => Ok(in_memory(MemoryPeer::Tung, role)),
        _ => end_at(alloc, role, word),
    }
}

/// The end of this role at an address.
fn end_at<'a>(alloc: Global, role: Role, word: &'a str) -> Result<TestedEnd<'a>, Refusal<'a>>
    requires own { word.now ≢ codes "own" }
    requires tung { word.now ≢ codes "tung" }
    ensures { MatchResult result (IsEndOf role word.now None) (RefusesTarget role word.now) }
{
    match role {
        Role::Server => server_at(alloc, word),
        Role::Client => clients_at(word),
    }
}

/// This one in memory.
fn in_memory<'a>(peer: MemoryPeer, role: Role) -> TestedEnd<'a>
    ensures { result ≡ Memory (record { peer = peer; role = role }) }
{
    TestedEnd::Memory(MemoryEnd { peer, role })
}

/// The server at a target.
fn server_at<'a>(alloc: Global, word: &'a str) -> Result<TestedEnd<'a>, Refusal<'a>>
    requires own { word.now ≢ codes "own" }
    requires tung { word.now ≢ codes "tung" }
    ensures { MatchResult result (IsEndOf Server word.now None) (RefusesTarget Server word.now) }
{
    match read_target(alloc, word) {
        Ok(target) => Ok(TestedEnd::Server(target)),
        Err(TargetFault::NoMemory) => Err(Refusal::NoCases(NoCases::NoMemory)),
        Err(TargetFault::Bad) => Err(Refusal::BadAddress(target_advice(word))),
    }
}

/// The clients that come to an address.
fn clients_at<'a>(word: &'a str) -> Result<TestedEnd<'a>, Refusal<'a>>
    requires own { word.now ≢ codes "own" }
    requires tung { word.now ≢ codes "tung" }
    ensures { MatchResult result (IsEndOf Client word.now None) (RefusesTarget Client word.now) }
{
    if is_clients_address(word) {
        Ok(TestedEnd::Clients(word))
    } else {
        Err(Refusal::BadAddress(clients_advice(word)))
    }
}

/// Whether clients can come to a word: it is the host of a request, and no URL.
fn is_clients_address(word: &str) -> bool
    ensures { IsTrue result ↔ IsClientsAddress word.now }
{
    is_host(word.as_bytes()) && !is_url(word)
}

/// What is wrong with a word to which no clients can come.
fn clients_advice(word: &str) -> Advice
    ensures { AdvisesClients word.now result }
{
    if asks_for_tls(word) {
        return Advice::Encrypted;
    }
    if is_url(word) {
        return Advice::Url;
    }
    Advice::Nothing
}

/// Whether a word is a URL.
pub fn is_url(word: &str) -> bool
    ensures { IsTrue result ↔ IsUrl word.now }
{
    word.contains("://")
}

/// Whether a connection can be made at the address that is given, if one is.
fn can_connect(connect: Option<&str>) -> bool
    ensures { IsTrue result ↔ CanConnect connect.entry }
{
    match connect {
        Some(address) => is_connected_at(address),
        None => true,
    }
}

/// Whether a connection can be made at a word: it is a host and a port, and no URL.
fn is_connected_at(word: &str) -> bool
    ensures { IsTrue result ↔ IsConnectAddress word.now }
{
    is_address(word.as_bytes()) && !is_url(word)
}

/// The end, where a server is met at the address that is given, if one is.
fn connected<'a>(
    alloc: Global,
    end: TestedEnd<'a>,
    connect: Option<&str>,
) -> Result<TestedEnd<'a>, NoMemory>
    ensures { IfOk result (λ at. (role : Role) (word : List ℕ) → IsEndOf role word None end.entry →
        IsEndOf role word connect.entry at) }
{
    match (end, connect) {
        (TestedEnd::Server(target), Some(address)) => {
            let target = target.connected_at(alloc, address)?;
            Ok(TestedEnd::Server(target))
        }
        (end, _) => Ok(end),
    }
}

/// Tells a refusal in its lines, where the fault output takes them, and answers the exit that it stands for.
pub fn tell_refusal<F: Write>(alloc: Global, refusal: Refusal<'_>, faults: &mut Watched<F>) -> Exit
    ensures { TellsRefusal refusal.entry result (watched F.contents faults.old faults.new) }
{
    match refusal {
        Refusal::WaitForServer => tell_wrong(b"--wait takes --role client\n", faults),
        Refusal::BadProtocols => tell_wrong(
            b"bad protocol list\n  up to 16 different names, joined by commas: --protocols chat,echo\n",
            faults,
        ),
        Refusal::BadHeader => tell_wrong(
            b"bad header\n  NAME: VALUE, up to 32, none wst sends itself: --header 'Origin: http://localhost'\n",
            faults,
        ),
        Refusal::BadTimeout => tell_wrong(
            b"bad timeout\n  a whole number of seconds, 1 to 3600: --timeout 5\n",
            faults,
        ),
        Refusal::TimeoutWithUnit => tell_wrong(
            b"bad timeout\n  seconds without a unit: --timeout 5\n",
            faults,
        ),
        Refusal::BadWait => tell_wrong(
            b"bad wait\n  a whole number of seconds, 1 to 86400: --wait 60\n",
            faults,
        ),
        Refusal::WaitWithUnit => tell_wrong(
            b"bad wait\n  seconds without a unit: --wait 60\n",
            faults,
        ),
        Refusal::BadDeadline => tell_wrong(
            b"bad timeout\n  a whole number of seconds, 1 to 86400: --deadline 60\n",
            faults,
        ),
        Refusal::DeadlineWithUnit => tell_wrong(
            b"bad timeout\n  seconds without a unit: --deadline 60\n",
            faults,
        ),
        Refusal::BadKey => tell_wrong(
            b"bad key\n  eight lower-case hexadecimal digits: --key 37fa213d\n",
            faults,
        ),
        Refusal::BadAddress(advice) => tell_wrong(address_text(advice), faults),
        Refusal::BadConnect => { tell_wrong(b"bad address\n  --connect takes HOST:PORT\n", faults) }
        Refusal::CaptureInReport => {
            tell_wrong(b"--capture does not go with --known or --junit\n", faults)
        }
        Refusal::TimeInMemory => tell_wrong(b"--time does not go with own or tung\n", faults),
        Refusal::NotOneCase => tell_wrong(b"--capture takes one case\n", faults),
        Refusal::BadMaxFail => tell_wrong(
            b"bad max-fail\n  a whole number, 1 to 1000: --max-fail 10\n",
            faults,
        ),
        Refusal::AtOnceInTurn => tell_wrong(
            b"--at-once does not go with own, tung, --role client or --capture\n",
            faults,
        ),
        Refusal::BadAtOnce => tell_wrong(
            b"bad at-once\n  a whole number, 1 to 100: --at-once 16\n",
            faults,
        ),
        Refusal::NoCases(why) => tell_no_cases(alloc, why, faults),
    }
}

/// The lines that tell of a bad address: the second says what to type, where that is known.
fn address_text(advice: Advice) -> &'static [u8]
    ensures { result.now ≡ address_text advice }
{
    match advice {
        Advice::Encrypted => {
            b"bad address\nwss:// is not supported; run socat or stunnel and pass its address to --connect\n"
        }
        Advice::Web => b"bad address\n  expected ws://HOST:PORT/PATH\n",
        Advice::User =>
            b"bad address\n  no user before the host: ws://HOST:PORT/PATH, see --header\n",
        Advice::Port =>
            b"bad address\n  a port is at most 65535, and 80 without one: ws://HOST:PORT/PATH\n",
        Advice::Unencoded => {
            b"bad address\n  a URL is visible ASCII: a space is %20, and an umlaut such as %C3%BC\n"
        }
        Advice::Fragment => b"bad address\n  no fragment: a # of a path or a query is %23\n",
        Advice::Url => b"bad address\n  an address to listen at is wanted: HOST:PORT\n",
        Advice::Nothing => b"bad address\n",
    }
}

/// Tells what is wrong with the words.
fn tell_wrong<F: Write>(text: &[u8], faults: &mut Watched<F>) -> Exit
    ensures exit { result ≡ WrongWords }
    ensures told { Tells text.now (watched F.contents faults.old faults.new) }
{
    tell(text, faults);
    Exit::WrongWords
}
