//! What is told of a tested end in a case, what a report writes of it, and what a run of cases has come to.

ghost use Rattle.std.specs.Prelude.{◌≡◌, ◌+◌, ◌<◌, ◌^◌, ◌&&◌, IfOk, IfSome, OnErr, OnOk, string_bytes, false};
ghost use Rattle.std.specs.Prelude.{if◌then◌else◌};
ghost use Rattle.wst_testing.specs.Failures.{is_enough};
ghost use Rattle.wst_testing.specs.Outcomes.{below_line, count_in, exit_of_tests, head_rule_line, is_fail, no_tally};
ghost use Rattle.wst_testing.specs.Outcomes.{outcome_words, status_line};
ghost use Rattle.wst_testing.specs.Outcomes.{tally_with, tally_with_verdict, total_line};
ghost use Rattle.wst_testing.specs.Notes.{TellsEach};
ghost use Rattle.wst_testing.specs.Reporting.{ClosesReport, EndsReporting, behind_text, beside_notes, case_score};
ghost use Rattle.wst_testing.specs.Reporting.{exit_of_report, no_score, report_text, score_by};
ghost use Rattle.ws_frame.specs.Devices.{watched};
ghost use Rattle.ws_frame.specs.Watching.{has_failed};
ghost use Rattle.ws_reports.specs.KnownCounts.{counts_if};
ghost use Rattle.wst_commands.specs.Devices.{StaysFailed};

use crate::head_rules::head_rule;
use crate::summary::summary_lines;
use std::alloc::Global;
use std::fmt;
use std::io::Write;
use ws_base::NoMemory;
use ws_frame::Watched;
use ws_reports::{CaseScore, Change, KeptVerdicts, KnownCounts, Report, Told};
use ws_suite::{Case, Verdict};
use ws_titles::title_of;
use ws_upgrade::HeadFault;
use wst_commands::{Exit, Fault, Judgement, deliver, tell};
use wst_sockets::ConnectFault;

/// What is told of an answer that is to be refused.
#[derive(Clone, Copy)]
pub struct ToldRefusal {
    pub fault: HeadFault,
    /// Its status, where that is to be told.
    pub status: Option<u16>,
    /// The rule is told.
    pub has_rule: bool,
}

/// What is told of a tested end in a case.
#[derive(Drop)]
pub enum Outcome {
    /// Whether it kept the rules, and why that is told.
    Judged(Judgement),
    /// Its answer to the request for an upgrade is to be refused, which counts as a Fail.
    HeadRefused(ToldRefusal),
    /// There is no connection to it, which counts as a Fail where a run goes on.
    NoConnection(ConnectFault),
    /// It is a client that never asked for it, which counts as a Fail.
    NotRun,
}

impl fmt::Display for Outcome {
    ghost use Rattle.std.specs.Prelude.{Some};

    ghost output = { λ outcome. Some (outcome_words outcome) };

    fn fmt<W: fmt::Write>(&self, f: &mut fmt::Formatter<W>) -> fmt::Result {
        match self {
            Outcome::Judged(told) => write!(f, "{}", told.verdict),
            Outcome::HeadRefused(refusal) => write!(f, "FAIL Head {}", refusal.fault),
            Outcome::NoConnection(_) => write!(f, "no connection"),
            Outcome::NotRun => write!(f, "FAIL NotRun"),
        }
    }
}

/// What stands below the line of a case that had an outcome.
#[derive(Clone, Copy)]
pub struct Below<'a>(pub &'a Outcome);

impl fmt::Display for Below<'_> {
    ghost use Rattle.std.specs.Prelude.{Some};

    ghost output = { λ below. Some (below_line below.0.now) };

    fn fmt<W: fmt::Write>(&self, f: &mut fmt::Formatter<W>) -> fmt::Result {
        match self.0 {
            Outcome::Judged(told) => write!(f, "{}", told.below),
            Outcome::HeadRefused(refusal) => {
                let (status, rule) = (StatusLine(refusal.status), RuleLine(*refusal));
                write!(f, "{status}{rule}")
            }
            Outcome::NoConnection(_) | Outcome::NotRun => Ok(()),
        }
    }
}

/// The line that tells a status, where one is to be told.
#[derive(Clone, Copy)]
struct StatusLine(Option<u16>);

impl fmt::Display for StatusLine {
    ghost use Rattle.std.specs.Prelude.{Some};

    ghost output = { λ line. Some (status_line line.0) };

    fn fmt<W: fmt::Write>(&self, f: &mut fmt::Formatter<W>) -> fmt::Result {
        match self.0 {
            Some(status) => {
                let (hundreds, tens, ones) = (status / 100, status / 10 % 10, status % 10);
                write!(f, "  status {hundreds}{tens}{ones}\n")
            }
            None => Ok(()),
        }
    }
}

/// The line that tells the rule of an answer that is to be refused, where that is to be told.
#[derive(Clone, Copy)]
struct RuleLine(ToldRefusal);

impl fmt::Display for RuleLine {
    ghost use Rattle.std.specs.Prelude.{Some};

    ghost output = { λ line. Some (head_rule_line line.0) };

    fn fmt<W: fmt::Write>(&self, f: &mut fmt::Formatter<W>) -> fmt::Result {
        if self.0.has_rule {
            write!(f, "  rule {}\n", head_rule(self.0.fault))
        } else {
            Ok(())
        }
    }
}

/// How many cases had each kind of outcome.
#[derive(Clone, Copy)]
pub struct Tally {
    pub pass: usize,
    pub loose: usize,
    pub fail: usize,
}

impl Tally {
    /// Of no case.
    pub fn new() -> Tally
        ensures { result ≡ no_tally }
    {
        Tally {
            pass: 0,
            loose: 0,
            fail: 0,
        }
    }

    /// How many there are of all kinds.
    pub fn count(self) -> usize
        requires { count_in self < 2 ^ 64 }
        ensures { result ≡ count_in self }
    {
        self.pass + self.loose + self.fail
    }

    /// With one outcome more.
    pub fn with(self, outcome: &Outcome) -> Tally
        requires pass { self.pass + 1 < 2 ^ 64 }
        requires loose { self.loose + 1 < 2 ^ 64 }
        requires fail { self.fail + 1 < 2 ^ 64 }
        ensures { result ≡ tally_with self outcome.now }
    {
        match outcome {
            Outcome::Judged(told) => self.with_verdict(told.verdict),
            Outcome::HeadRefused(_) | Outcome::NoConnection(_) | Outcome::NotRun => Tally {
                fail: self.fail + 1,
                ..self
            },
        }
    }

    /// With one verdict more.
    fn with_verdict(self, verdict: Verdict) -> Tally
        requires pass { self.pass + 1 < 2 ^ 64 }
        requires loose { self.loose + 1 < 2 ^ 64 }
        requires fail { self.fail + 1 < 2 ^ 64 }
        ensures { result ≡ tally_with_verdict self verdict }
    {
        match verdict {
            Verdict::Pass => Tally {
                pass: self.pass + 1,
                ..self
            },
            Verdict::Loose(_) => Tally {
                loose: self.loose + 1,
                ..self
            },
            Verdict::Fail(_) => Tally {
                fail: self.fail + 1,
                ..self
            },
        }
    }

    /// How a run of these cases ends.
    pub fn exit(self) -> Exit
        ensures { result ≡ exit_of_tests self }
    {
        if self.fail > 0 {
            Exit::Damaged
        } else {
            Exit::Done
        }
    }
}

/// The line of a total.
pub fn total_line(alloc: Global, tally: Tally) -> Result<String, NoMemory>
    ensures { IfOk result (λ line. string_bytes line ≡ total_line tally) }
{
    let line = format!(in alloc;
        "{} pass, {} loose, {} fail\n",
        tally.pass, tally.loose, tally.fail
    )?;
    Ok(line)
}

/// What a run of cases has come to.
#[derive(Drop)]
pub struct Score {
    /// How many cases had each kind of outcome.
    pub tally: Tally,
    /// One is such that the run is said to have failed.
    pub is_failed: bool,
    /// How many are a FAIL or without a connection, and such cases.
    pub failures: usize,
    /// How many stand how beside an earlier run, where one is known.
    pub known: KnownCounts,
    /// The verdicts that its summary tells, where one is asked for.
    pub kept: KeptVerdicts,
}

impl Score {
    /// Of no case.
    pub fn new(alloc: Global) -> Score
        ensures { result ≡ no_score }
    {
        Score {
            tally: Tally::new(),
            is_failed: false,
            failures: 0,
            known: KnownCounts::none(),
            kept: KeptVerdicts::new(alloc),
        }
    }

    /// With one case more, which had this outcome and adds this. Where memory runs out, or 64 bits can't count it, it
    /// is as before.
    pub fn count(&mut self, outcome: &Outcome, case: CaseScore) -> Result<(), NoMemory>
        requires pass { self.old.tally.pass + 1 < 2 ^ 64 }
        requires loose { self.old.tally.loose + 1 < 2 ^ 64 }
        requires fail { self.old.tally.fail + 1 < 2 ^ 64 }
        requires failures { self.old.failures + 1 < 2 ^ 64 }
        ensures counted { OnOk result (self.new ≡ score_by self.old outcome.now case) }
        ensures kept { OnErr result (self.new ≡ self.old) }
    {
        let CaseScore {
            is_failed,
            change,
            verdict,
        } = case;
        let Some(known) = counted_with(self.known, change) else {
            return Err(NoMemory);
        };
        self.kept.keep_any(verdict)?;
        self.known = known;
        self.tally = self.tally.with(outcome);
        self.is_failed = self.is_failed || is_failed;
        self.failures = failures_with(self.failures, outcome, is_failed);
        Ok(())
    }

    /// Whether a run ends behind so many failures. Where 0 is given, one is enough.
    pub fn is_enough(&self, most: Option<u32>) -> bool
        ensures { result ≡ is_enough most self.now.failures }
    {
        is_enough(most, self.failures)
    }

    /// How a run ends that came to this.
    pub fn exit(&self) -> Exit
        ensures { result ≡ exit_of_report self.now.is_failed }
    {
        if self.is_failed {
            Exit::Damaged
        } else {
            Exit::Done
        }
    }
}

/// The counts with a case more that stands so, where an earlier run is known. `None` where 64 bits can't count it.
fn counted_with(counts: KnownCounts, change: Option<Change>) -> Option<KnownCounts>
    ensures { IfSome result (λ counted. counted ≡ counts_if counts change) }
{
    match change {
        Some(change) => counts.with(change),
        None => Some(counts),
    }
}

/// How many failures there are with one outcome more, by which a run fails or not.
fn failures_with(failures: usize, outcome: &Outcome, is_failed: bool) -> usize
    requires { failures + 1 < 2 ^ 64 }
    ensures { result ≡ (if is_fail outcome.now && is_failed then failures + 1 else failures) }
{
    if is_fail(outcome) && is_failed {
        failures + 1
    } else {
        failures
    }
}

/// Whether an outcome is a FAIL, or without a connection.
pub fn is_fail(outcome: &Outcome) -> bool
    ensures { result ≡ is_fail outcome.now }
{
    match outcome {
        Outcome::Judged(told) => match told.verdict {
            Verdict::Pass | Verdict::Loose(_) => false,
            Verdict::Fail(_) => true,
        },
        Outcome::HeadRefused(_) | Outcome::NoConnection(_) | Outcome::NotRun => true,
    }
}

/// Whether so many failures end a run, where a number of them is given. Where 0 is given, one is enough.
pub fn is_enough(most: Option<u32>, failures: usize) -> bool
    ensures { result ≡ is_enough most failures }
{
    match most {
        Some(most) => failures > 0 && !(failures < most as usize),
        None => false,
    }
}

/// What a report writes of a case, and what that adds to what a run comes to.
#[derive(Drop)]
pub struct Reported {
    pub text: String,
    pub score: CaseScore,
}

/// What a report writes of a case, and what that adds to what a run comes to.
pub fn report_case(
    alloc: Global,
    report: &Report,
    case: &Case,
    outcome: &Outcome,
) -> Result<Reported, NoMemory>
    ensures text { IfOk result (λ told. string_bytes told.text ≡ report_text report.now (case.now, outcome.now)) }
    ensures score { IfOk result (λ told. told.score ≡ case_score report.now (case.now, outcome.now)) }
{
    let verdict = format!(in alloc; "{outcome}")?;
    let below = format!(in alloc; "{}", Below(outcome))?;
    let told = Told {
        id: case.id.as_str(),
        title: title_of(case.id.as_str()),
        verdict: verdict.as_str(),
        below: below.as_str(),
    };
    let text = report.case_text(alloc, told)?;
    let score = report.case_score(alloc, told)?;
    Ok(Reported { text, score })
}

/// What stands behind the cases of a run that came to this: its total, its summary, and how the cases stand beside the
/// earlier run.
pub fn behind_text(alloc: Global, report: &Report, score: &Score) -> Result<String, NoMemory>
    ensures { IfOk result (λ text. string_bytes text ≡ behind_text report.now score.now) }
{
    let mut text = total_line(alloc, score.tally)?;
    let summary = summary_lines(alloc, score.kept.as_slice())?;
    text.push_str(summary.as_str())?;
    let known = report.known_line(alloc, score.known)?;
    text.push_str(known.as_str())?;
    Ok(text)
}

/// Tells on the fault output what stands behind the cases of a document.
pub fn tell_beside<F: Write>(report: &Report, behind: &str, faults: &mut Watched<F>)
    ensures told { TellsEach (beside_notes report.now behind.now) (watched F.contents faults.old faults.new) }
    ensures still { StaysFailed faults.old faults.new }
{
    if report.is_junit() {
        tell(behind.as_bytes(), faults);
    }
}

/// Writes what a report has last, behind a run that came to this. What stands behind the cases of a document goes to
/// `faults`.
pub(crate) fn tell_end<W: Write, F: Write>(
    alloc: Global,
    report: &Report,
    score: &Score,
    writer: &mut Watched<W>,
    faults: &mut Watched<F>,
) -> Result<Exit, Fault>
    requires { has_failed writer.old ≡ false }
    ensures is { EndsReporting report.now score.now result (writer.new ≡ writer.old) (faults.new ≡ faults.old)
        (watched W.contents writer.old writer.new) (watched F.contents faults.old faults.new) }
    ensures still { StaysFailed faults.old faults.new }
{
    let behind = behind_text(alloc, report, score)?;
    let text = report.end_text(behind.as_str());
    let exit = deliver(score.exit(), text.as_bytes(), writer);
    tell_beside(report, behind.as_str(), faults);
    Ok(exit)
}

/// Writes what a report has behind all cases, where a run ended before it was written and the output works.
pub fn close_report<W: Write>(report: &Report, ended: &Result<Exit, Fault>, writer: &mut Watched<W>)
    ensures { ClosesReport report.now ended.now (has_failed writer.old) (watched W.contents writer.old writer.new) }
{
    if writer.failed() {
        return;
    }
    match ended {
        Ok(Exit::Done) | Ok(Exit::Damaged) | Ok(Exit::WrongWords) => {}
        Ok(Exit::Failed) | Err(_) => tell(report.end_text("").as_bytes(), writer),
    }
}
