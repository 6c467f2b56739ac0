//! The limits of time that words give.

ghost use Rattle.std.specs.Prelude.{◌≡◌, ◌↔◌, ◌≤◌, IsTrue, MatchOption, position};
ghost use Rattle.ws_base.specs.Finding.{Finds};
ghost use Rattle.wst_commands.specs.TimeLimits.{GivesDeadline, GivesLimit, GivesTimeout, GivesWait, HasDeadline};
ghost use Rattle.wst_commands.specs.TimeLimits.{GivesLimitOrNone, GivesRunTimeout, HasLimitOrNone, HasRunTimeout};
ghost use Rattle.wst_commands.specs.TimeLimits.{HasLimit, HasTimeout, HasUnit, HasUnitAt, HasWait, IsCountWord};
ghost use Rattle.wst_commands.specs.TimeLimits.{IsWithUnit, Reaches, is_limited, is_no_digit, milliseconds_of};
ghost use Rattle.wst_commands.specs.TimeLimits.{ten_times};

use std::time::Duration;
use ws_formats::read_u32;

/// For at most so many seconds the tested end is waited for.
const MAX_TIMEOUT: u32 = 3600;

/// For at most so many seconds a client is waited for, and at most so many a connection may last: a day.
const MAX_WAIT: u32 = 86_400;

/// For so many seconds a client is waited for, where nothing else is asked for.
const USUAL_WAIT: u32 = 60;

/// How long is waited for a peer that sends nothing, or for one that comes, or how long a connection may last.
#[derive(Clone, Copy, PartialEq, Eq)]
pub enum TimeLimit {
    /// As long as it takes.
    Unlimited,
    /// So many seconds.
    Seconds(u32),
}

impl TimeLimit {
    /// Whether there is a limit.
    pub fn is_limited(self) -> bool
        ensures { result ≡ is_limited self }
    {
        match self {
            TimeLimit::Unlimited => false,
            TimeLimit::Seconds(_) => true,
        }
    }

    /// Ten times as long, and no more than a day.
    pub fn ten_times(self) -> TimeLimit
        ensures { result ≡ ten_times self }
    {
        match self {
            TimeLimit::Unlimited => TimeLimit::Unlimited,
            TimeLimit::Seconds(seconds) => TimeLimit::Seconds(seconds.min(MAX_WAIT / 10) * 10),
        }
    }

    /// It in milliseconds, `None` where there is no limit.
    pub fn milliseconds(self) -> Option<u64>
        ensures { result ≡ milliseconds_of self }
    {
        match self {
            TimeLimit::Unlimited => None,
            TimeLimit::Seconds(seconds) => Some(u64::from(seconds) * 1000),
        }
    }

    /// The time that is waited for, `None` where there is no limit.
    pub fn duration(self) -> Option<Duration> {
        match self {
            TimeLimit::Unlimited => None,
            TimeLimit::Seconds(seconds) => Some(Duration::from_secs(u64::from(seconds))),
        }
    }
}

/// The limit that the word of an option gives for the tested end, none where the option is left out. `None` where the
/// word is not a number of 1 to 3600 in decimal digits without leading zeros.
pub fn timeout_given(word: Option<&str>) -> Option<TimeLimit>
    ensures { MatchOption result (¬ (HasTimeout word.entry)) (GivesTimeout word.entry) }
{
    limit_given(word, MAX_TIMEOUT)
}

/// The limit that it gives for the tested end where scripts are run: a number of 1 to 3600, or none by the word `none`.
/// This one where it is left out.
pub fn run_timeout_given(word: Option<&str>, usual: TimeLimit) -> Option<TimeLimit>
    ensures { MatchOption result (¬ (HasRunTimeout word.entry)) (GivesRunTimeout usual word.entry) }
{
    limit_or_none(word, MAX_TIMEOUT, usual)
}

/// The limit that it gives for a client to come: a number of 1 to 86400, or none by the word `none`. A minute where it
/// is left out.
pub fn wait_given(word: Option<&str>) -> Option<TimeLimit>
    ensures { MatchOption result (¬ (HasWait word.entry)) (GivesWait word.entry) }
{
    limit_or_none(word, MAX_WAIT, TimeLimit::Seconds(USUAL_WAIT))
}

/// The limit that it gives for a connection, a number of 1 to 86400, or this one where it is left out.
pub fn deadline_given(word: Option<&str>, usual: TimeLimit) -> Option<TimeLimit>
    ensures { MatchOption result (¬ (HasDeadline word.entry)) (GivesDeadline usual word.entry) }
{
    match word {
        Some(_) => limit_given(word, MAX_WAIT),
        None => Some(usual),
    }
}

/// The limit of at most so many seconds that it gives.
fn limit_given(word: Option<&str>, most: u32) -> Option<TimeLimit>
    requires { most ≤ 86400 }
    ensures { MatchOption result (¬ (HasLimit most word.entry)) (GivesLimit most word.entry) }
{
    let Some(word) = word else {
        return Some(TimeLimit::Unlimited);
    };
    match count_given(word, most) {
        Some(seconds) => Some(TimeLimit::Seconds(seconds)),
        None => None,
    }
}

/// The limit of at most so many seconds that it gives, or none by the word `none`. This one where it is left out.
fn limit_or_none(word: Option<&str>, most: u32, usual: TimeLimit) -> Option<TimeLimit>
    requires { most ≤ 86400 }
    ensures { MatchOption result (¬ (HasLimitOrNone most word.entry)) (GivesLimitOrNone most usual word.entry) }
{
    let Some(word) = word else {
        return Some(usual);
    };
    if word == "none" {
        return Some(TimeLimit::Unlimited);
    }
    match count_given(word, most) {
        Some(seconds) => Some(TimeLimit::Seconds(seconds)),
        None => None,
    }
}

/// The number of 1 to the most that a word gives, in decimal digits without leading zeros.
pub fn count_given(word: &str, most: u32) -> Option<u32>
    requires { most ≤ 86400 }
    ensures { Finds result (λ count. IsCountWord most count word.now) }
{
    let count = read_u32(word.as_bytes())?;
    if count >= 1 && count <= most {
        Some(count)
    } else {
        None
    }
}

/// Whether the word of an option is digits with a unit behind them, as `5s`.
pub fn has_unit(word: Option<&str>) -> bool
    ensures { IsTrue result ↔ HasUnit word.entry }
{
    match word {
        Some(word) => is_with_unit(word.as_bytes()),
        None => false,
    }
}

/// Whether a word is digits with a unit behind them.
fn is_with_unit(word: &[u8]) -> bool
    ensures { IsTrue result ↔ IsWithUnit word.now }
{
    has_unit_at(first_no_digit(word), word)
}

/// Where the first byte stands that is no digit, if there is one.
fn first_no_digit(word: &[u8]) -> Option<usize>
    ensures first { result ≡ position is_no_digit word.now }
    ensures within { Reaches result word.now }
{
    word.iter().position(|byte| is_no_digit(*byte))
}

/// Whether a byte is no digit.
fn is_no_digit(byte: u8) -> bool
    ensures { result ≡ is_no_digit byte }
{
    !byte.is_ascii_digit()
}

/// Whether letters alone stand from a place on, which is not the first.
fn has_unit_at(at: Option<usize>, word: &[u8]) -> bool
    requires { Reaches at word.now }
    ensures { IsTrue result ↔ HasUnitAt at word.now }
{
    match at {
        Some(at) => at > 0 && word[at..].iter().all(|byte| byte.is_ascii_alphabetic()),
        None => false,
    }
}
