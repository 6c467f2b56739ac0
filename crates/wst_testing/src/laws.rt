//! Laws over the definitions, each the contract of a function that does nothing.

ghost use Rattle.std.specs.Prelude.{◌≡◌, ℕ, Bool, List, None, Option, true};
ghost use Rattle.ws_reports.specs.Reports.{ReportValue};
ghost use Rattle.ws_scripts.specs.declared.expectation.Expectation.TheVariants.{Echo};
ghost use Rattle.ws_scripts.specs.declared.script.Case.{Case};
ghost use Rattle.wst_testing.specs.Outcomes.{is_fail, is_pass};
ghost use Rattle.wst_testing.specs.Failures.{IsEnoughBehind};
ghost use Rattle.wst_testing.specs.Reporting.{fails_in, score_of};
ghost use Rattle.wst_testing.specs.Servers.{MeetsInMemory};
ghost use Rattle.wst_testing.specs.Sweeps.{IsSwept, SweptScript};
ghost use Rattle.wst_testing.specs.declared.case_server.MemoryPeer.TheVariants.{Own};
ghost use Rattle.wst_testing.specs.declared.outcome.Outcome.{Outcome};
ghost use Rattle.wst_testing.specs.declared.sweeping.SweepRules.{SweepRules};

use ws_suite::laws::one_verdict;

/// Whatever a short script sends, what is told of our echo in it, be it a server or a client, is Pass where an echo is
/// expected: the judge is fair, and gives one verdict.
pub fn our_echo_passes_every_script()
    ensures { (rules : SweepRules) (script : SweptScript) →
        rules.run.expected ≡ Echo →
        IsSwept (MeetsInMemory (record { peer = Own; role = rules.run.tested }) rules.run.key) rules script →
        is_pass script.outcome ≡ true }
{
    one_verdict();
}

/// Where no earlier run is known, a run is said to have failed by the cases that are a Fail, of which no connection is
/// one.
pub fn a_run_fails_by_its_fails()
    ensures { (is_junit has_summary : Bool) (test : Case × Outcome) →
        fails_in (record { is_junit = is_junit; has_summary = has_summary; known = None }) test ≡ is_fail test.1 }
{}

/// Where there are enough failures to end a run, it is said to have failed.
pub fn enough_failures_make_a_run_fail()
    ensures { (most : Option ℕ) (report : ReportValue) (tests : List (Case × Outcome)) →
        IsEnoughBehind most report tests → (score_of report tests).is_failed ≡ true }
{}
