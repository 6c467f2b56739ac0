//! How a run tells what comes of its cases.

ghost use Rattle.std.specs.Prelude.{◌≡◌, ◌++◌, IfOk, Some, false, true, string_bytes, if◌then◌else◌};
ghost use Rattle.ws_reports.specs.Junit.{failed_case, noted_case, noted_text};
ghost use Rattle.ws_reports.specs.Kept.{verdict_kept};
ghost use Rattle.ws_reports.specs.KnownCounts.{change_on, known_line};
ghost use Rattle.ws_reports.specs.Remarks.{reason_beside, reason_on, remark_on, remark_words, told_failed};
ghost use Rattle.ws_reports.specs.Reports.{case_element, case_text, element_by, end_text, start_text, told_words};
ghost use Rattle.ws_reports.specs.Told.{texts_of};

use crate::case_score::CaseScore;
use crate::junit::{END, failed_case, junit_start, noted_case, passed_case, skipped_case};
use crate::kept::KeptVerdict;
use crate::known::KnownVerdicts;
use crate::known_counts::{Change, KnownCounts, change_by, change_since, counts_line};
use crate::remark::Remark;
use crate::told::Told;
use crate::verdict_words::{is_same_verdict, tells_fail};
use std::alloc::Global;
use std::marker::Model;
use ws_base::{NoMemory, Payload};

/// Why a case is said to have failed that passed, and of which nothing is known.
const NO_KNOWN: &str = "no known verdict: write the known verdicts again\n";

/// The same, where a Fail is known of it.
const FIXED: &str = "fixed: write the known verdicts again\n";

/// How a run tells what comes of its cases: whether as a JUnit document, whether a summary stands behind them, and
/// beside which earlier run, if one is known.
#[derive(Drop)]
pub struct Report {
    is_junit: bool,
    has_summary: bool,
    known: Option<KnownVerdicts>,
}

impl Model for Report {
    ghost use Rattle.ws_reports.specs.Reports.{ReportValue};

    ghost Value = { ReportValue };

    ghost view = { λ report.
        record { is_junit = report.is_junit; has_summary = report.has_summary; known = report.known } };
}

impl Report {
    /// Lines, or a JUnit document, with a summary or without, beside the earlier run that is known.
    pub fn new(is_junit: bool, has_summary: bool, known: Option<KnownVerdicts>) -> Report
        ensures junit { result.is_junit ≡ is_junit }
        ensures summary { result.has_summary ≡ has_summary }
        ensures known { result.known ≡ known }
    {
        Report {
            is_junit,
            has_summary,
            known,
        }
    }

    /// Whether it is a JUnit document.
    pub fn is_junit(&self) -> bool
        ensures { result ≡ self.now.is_junit }
    {
        self.is_junit
    }

    /// Whether a summary stands behind the cases.
    pub fn has_summary(&self) -> bool
        ensures { result ≡ self.now.has_summary }
    {
        self.has_summary
    }

    /// What is written before any case runs.
    pub fn start_text(&self, alloc: Global, target: &str) -> Result<String, NoMemory>
        ensures { IfOk result (λ text. string_bytes text ≡ start_text self.now target.now) }
    {
        if self.is_junit {
            junit_start(alloc, target)
        } else {
            Ok(String::new(alloc))
        }
    }

    /// What is written of a case.
    pub fn case_text(&self, alloc: Global, told: Told<'_>) -> Result<String, NoMemory>
        ensures { IfOk result (λ text. string_bytes text ≡ case_text self.now (texts_of told.entry)) }
    {
        let words = self.words_text(alloc, told)?;
        if self.is_junit {
            return self.element_text(alloc, told, words.as_str());
        }
        Ok(format!(in alloc; "{} {words}\n{}", told.id, told.below)?)
    }

    /// The element of a case in a JUnit document.
    fn element_text(&self, alloc: Global, told: Told<'_>, words: &str) -> Result<String, NoMemory>
        requires { words.now ≡ told_words self.now (texts_of told) }
        ensures { IfOk result (λ text. string_bytes text ≡ case_element self.now (texts_of told.entry)) }
    {
        let name = format!(in alloc; "{} {}", told.id, told.title)?;
        let reason = self.reason(told);
        element_by(
            alloc,
            self.is_failed(told),
            reason,
            told,
            name.as_str(),
            words,
        )
    }

    /// Why a case is said to have failed whose verdict is no Fail.
    fn reason(&self, told: Told<'_>) -> &'static str
        ensures { result.now ≡ reason_on self.now.known (texts_of told.entry) }
    {
        let Some(known) = &self.known else {
            return "";
        };
        if tells_fail(told.verdict.as_bytes()) {
            return "";
        }
        match known.verdict_of(told.id) {
            None => NO_KNOWN,
            Some(words) => reason_since(words),
        }
    }

    /// The words of a case's verdict, and what stands behind them.
    fn words_text(&self, alloc: Global, told: Told<'_>) -> Result<String, NoMemory>
        ensures { IfOk result (λ text. string_bytes text ≡ told_words self.now (texts_of told.entry)) }
    {
        Ok(format!(in alloc; "{}{}", told.verdict, self.remark(told))?)
    }

    /// What stands behind the verdict of a case.
    fn remark(&self, told: Told<'_>) -> Remark<'_>
        ensures { remark_words result ≡ remark_on self.now.known (texts_of told.entry) }
    {
        let Some(known) = &self.known else {
            return Remark::Nothing;
        };
        match known.verdict_of(told.id) {
            None => Remark::New,
            Some(words) if words == told.verdict => Remark::Nothing,
            Some(words) => Remark::Was(words),
        }
    }

    /// Whether a run of this case alone would be said to have failed: where no earlier run is known, its verdict is a
    /// Fail; else it is new, or doesn't count as the same.
    pub fn is_failed(&self, told: Told<'_>) -> bool
        ensures { result ≡ told_failed self.now.known (texts_of told.entry) }
    {
        let Some(known) = &self.known else {
            return tells_fail(told.verdict.as_bytes());
        };
        match known.verdict_of(told.id) {
            None => true,
            Some(words) => !is_same_verdict(words.as_bytes(), told.verdict.as_bytes()),
        }
    }

    /// How a case stands beside the earlier run, where one is known.
    pub fn change(&self, told: Told<'_>) -> Option<Change>
        ensures { result ≡ change_on self.now.known (texts_of told.entry) }
    {
        let Some(known) = &self.known else {
            return None;
        };
        let change = match known.verdict_of(told.id) {
            None => change_by(false, tells_fail(told.verdict.as_bytes())),
            Some(words) => change_since(words, told.verdict),
        };
        Some(change)
    }

    /// The verdict of a case, where a summary is asked for.
    fn verdict_kept(&self, alloc: Global, told: Told<'_>) -> Result<Option<KeptVerdict>, NoMemory>
        ensures { IfOk result (λ verdict. verdict ≡ verdict_kept self.now (texts_of told.entry)) }
    {
        if !self.has_summary {
            return Ok(None);
        }
        Ok(Some(KeptVerdict {
            id: Payload::from_vec(told.id.as_bytes().to_vec(alloc)?),
            words: Payload::from_vec(told.verdict.as_bytes().to_vec(alloc)?),
        }))
    }

    /// What a case adds to what a run comes to.
    pub fn case_score(&self, alloc: Global, told: Told<'_>) -> Result<CaseScore, NoMemory>
        ensures failed { IfOk result (λ score. score.is_failed ≡ told_failed self.now.known (texts_of told.entry)) }
        ensures change { IfOk result (λ score. score.change ≡ change_on self.now.known (texts_of told.entry)) }
        ensures verdict { IfOk result (λ score. score.verdict ≡ verdict_kept self.now (texts_of told.entry)) }
    {
        let verdict = self.verdict_kept(alloc, told)?;
        Ok(CaseScore {
            is_failed: self.is_failed(told),
            change: self.change(told),
            verdict,
        })
    }

    /// The line of these counts, where an earlier run is known.
    pub fn known_line(&self, alloc: Global, counts: KnownCounts) -> Result<String, NoMemory>
        ensures { IfOk result (λ line. string_bytes line ≡ known_line self.now.known counts) }
    {
        match self.known {
            Some(_) => counts_line(alloc, counts),
            None => Ok(String::new(alloc)),
        }
    }

    /// What is written last, in place of the total that is given where it is a JUnit document.
    pub fn end_text<'a>(&self, total: &'a str) -> &'a str
        ensures { result.now ≡ end_text self.now total.now }
    {
        if self.is_junit { END } else { total }
    }
}

/// Why a case is said to have failed whose verdict is no Fail, where these words are known of it.
fn reason_since(known: &str) -> &'static str
    ensures { result.now ≡ reason_beside (Some known.now) }
{
    if tells_fail(known.as_bytes()) {
        FIXED
    } else {
        ""
    }
}

/// The element of a case of this name in a JUnit document, with these words, and this reason where it failed.
fn element_by(
    alloc: Global,
    is_failed: bool,
    reason: &str,
    told: Told<'_>,
    name: &str,
    words: &str,
) -> Result<String, NoMemory>
    ensures { IfOk result (λ text. string_bytes text
        ≡ element_by is_failed reason.now (texts_of told.entry) name.now words.now) }
{
    if is_failed {
        failed_element(alloc, reason, told, name, words)
    } else if told.verdict == "PASS" {
        passed_case(alloc, name)
    } else if tells_fail(told.verdict.as_bytes()) {
        skipped_case(alloc, name, words)
    } else {
        noted_element(alloc, name, words, told.below)
    }
}

/// The element of a case that failed, with these words, this reason and the lines below its line.
fn failed_element(
    alloc: Global,
    reason: &str,
    told: Told<'_>,
    name: &str,
    words: &str,
) -> Result<String, NoMemory>
    ensures { IfOk result (λ element. string_bytes element
        ≡ failed_case name.now told.entry.verdict.now words.now (reason.now ++ told.entry.below.now)) }
{
    let below = told.below;
    let text = format!(in alloc; "{reason}{below}")?;
    failed_case(alloc, name, told.verdict, words, text.as_str())
}

/// The element of a case that did not fail, with these words and the lines below them.
fn noted_element(alloc: Global, name: &str, words: &str, below: &str) -> Result<String, NoMemory>
    ensures { IfOk result (λ text. string_bytes text ≡ noted_case name.now (noted_text words.now below.now)) }
{
    let text = format!(in alloc; "{words}\n{below}")?;
    noted_case(alloc, name, text.as_str())
}
