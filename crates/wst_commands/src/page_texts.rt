//! The page of `report`: beside the runs it has the titles and scripts of the cases, the names of their groups, and the
//! rules of verdicts.

ghost use Rattle.std.specs.Prelude.{◌≡◌, IfOk, map, string_bytes};
ghost use Rattle.std.specs.List.{Contains};
ghost use Rattle.ws_scripts.specs.CaseNames.{case_names, listed_names};
ghost use Rattle.wst_commands.specs.PageTexts.{AreScripts, IsPageWithTexts, IsScriptOf, both_rules, group_texts};
ghost use Rattle.wst_commands.specs.PageTexts.{named_text, rule_of, rule_text, rule_texts, ruled_verdicts, rules_by};
ghost use Rattle.wst_commands.specs.PageTexts.{title_texts, why_name, with_protocol};

use std::alloc::Global;
use ws_base::{NoMemory, Payload};
use ws_pages::{NamedText, PageTexts, page_text};
use ws_runs::Runs;
use ws_scripts::all_ids;
use ws_suite::{Expectation, FailWhy, LooseWhy, Verdict, case, rule_with, write_script};
use ws_titles::{group_titles, title_of};
use ws_wire::Role;

/// The page of these runs, with a date or another text for its head, which may be empty.
pub(crate) fn page_of<'a>(
    alloc: Global,
    runs: &Runs<'a>,
    listed: &'a [String],
    date: &str,
) -> Result<String, NoMemory>
    requires { map string_bytes listed.now ≡ listed_names }
    ensures { IfOk result (λ page. IsPageWithTexts date.now runs.now (string_bytes page)) }
{
    let titles = titles_of(alloc)?;
    let scripts = scripts_of(alloc)?;
    let groups = groups_of(alloc)?;
    let rules = rule_texts(alloc)?;
    let texts = PageTexts {
        titles: titles.as_slice(),
        scripts: scripts.as_slice(),
        groups: groups.as_slice(),
        rules: rules.as_slice(),
    };
    let page = page_text(alloc, runs, listed, date, texts)?;
    Ok(page)
}

/// The titles of all cases.
pub(crate) fn titles_of(alloc: Global) -> Result<Vec<NamedText>, NoMemory>
    ensures { IfOk result (λ titles. titles.items ≡ title_texts) }
{
    let names = all_ids(alloc)?;
    let mut titles = Vec::new(alloc);
    for name in names.as_slice() {
        titles.push(named_text(alloc, name.as_str(), title_of(name.as_str()))?)?;
    }
    Ok(titles)
}

/// The names of the groups.
fn groups_of(alloc: Global) -> Result<Vec<NamedText>, NoMemory>
    ensures { IfOk result (λ groups. groups.items ≡ group_texts) }
{
    let mut groups = Vec::new(alloc);
    for group in group_titles() {
        groups.push(named_text(alloc, group.0, group.1)?)?;
    }
    Ok(groups)
}

/// A text with its name.
fn named_text(alloc: Global, name: &str, text: &str) -> Result<NamedText, NoMemory>
    ensures { IfOk result (λ named. named ≡ named_text name.now text.now) }
{
    Ok(NamedText {
        name: Payload::from_vec(name.as_bytes().to_vec(alloc)?),
        text: Payload::from_vec(text.as_bytes().to_vec(alloc)?),
    })
}

/// The scripts of all cases, as text.
fn scripts_of(alloc: Global) -> Result<Vec<NamedText>, NoMemory>
    ensures { IfOk result (λ scripts. AreScripts case_names scripts.items) }
{
    let names = all_ids(alloc)?;
    let mut scripts = Vec::new(alloc);
    for name in names.as_slice() {
        scripts.push(script_of(alloc, name.as_str())?)?;
    }
    Ok(scripts)
}

/// The script of the case of this name.
fn script_of(alloc: Global, name: &str) -> Result<NamedText, NoMemory>
    requires { Contains case_names name.now }
    ensures { IfOk result (IsScriptOf name.now) }
{
    let Some(case) = case(alloc, name)? else {
        unreachable!();
    };
    let text = write_script(alloc, &case)?;
    Ok(NamedText {
        name: Payload::from_vec(name.as_bytes().to_vec(alloc)?),
        text: Payload::from_vec(text),
    })
}

/// The rules of verdicts, each with its name.
fn rule_texts(alloc: Global) -> Result<Vec<NamedText>, NoMemory>
    ensures { IfOk result (λ rules. rules.items ≡ rule_texts) }
{
    let mut rules = Vec::new(alloc);
    for verdict in ruled_verdicts() {
        rules.push(rule_text(alloc, *verdict)?)?;
    }
    Ok(rules)
}

/// The verdicts that have a rule.
static VERDICTS: [Verdict; 20] = [
    Verdict::Fail(FailWhy::NotFrames),
    Verdict::Fail(FailWhy::Early),
    Verdict::Fail(FailWhy::Messages),
    Verdict::Fail(FailWhy::Pongs),
    Verdict::Fail(FailWhy::Close),
    Verdict::Fail(FailWhy::End),
    Verdict::Loose(LooseWhy::PongsSkipped),
    Verdict::Loose(LooseWhy::PongElsewhere),
    Verdict::Loose(LooseWhy::OtherCode),
    Verdict::Loose(LooseWhy::LateEnd),
    Verdict::Loose(LooseWhy::EchoShort),
    Verdict::Loose(LooseWhy::BrokenEnd),
    Verdict::Loose(LooseWhy::OwnFault),
    Verdict::Loose(LooseWhy::OwnClose),
    Verdict::Loose(LooseWhy::OwnEnd),
    Verdict::Loose(LooseWhy::LateFault),
    Verdict::Loose(LooseWhy::Tolerated),
    Verdict::Loose(LooseWhy::NoClose),
    Verdict::Loose(LooseWhy::BehindClose),
    Verdict::Loose(LooseWhy::TooBig),
];

/// The same.
fn ruled_verdicts() -> &'static [Verdict]
    ensures { result.now ≡ ruled_verdicts }
{
    &VERDICTS
}

/// The rule of a verdict, with its name.
fn rule_text(alloc: Global, verdict: Verdict) -> Result<NamedText, NoMemory>
    ensures { IfOk result (λ text. text ≡ rule_text verdict) }
{
    let name = why_name(alloc, verdict)?;
    let echo = rules_by(alloc, Expectation::Echo, verdict)?;
    let protocol = rules_by(alloc, Expectation::Protocol, verdict)?;
    let text = with_protocol(alloc, echo.as_str(), protocol.as_str())?;
    Ok(NamedText {
        name: Payload::from_vec(name.into_bytes()),
        text: Payload::from_vec(text.into_bytes()),
    })
}

/// The rule of a verdict on an end of which this is expected, be it a server or a client.
fn rules_by(alloc: Global, expected: Expectation, verdict: Verdict) -> Result<String, NoMemory>
    ensures { IfOk result (λ text. string_bytes text ≡ rules_by expected verdict) }
{
    let text = both_rules(
        alloc,
        rule_of(Role::Server, expected, verdict),
        rule_of(Role::Client, expected, verdict),
    )?;
    Ok(text)
}

/// The rule of an end that is to echo, and in a further line that by the protocol alone, if it is different.
fn with_protocol(alloc: Global, echo: &str, protocol: &str) -> Result<String, NoMemory>
    ensures { IfOk result (λ text. string_bytes text ≡ with_protocol echo.now protocol.now) }
{
    if echo == protocol {
        let text = format!(in alloc; "{echo}")?;
        return Ok(text);
    }
    let text = format!(in alloc; "{echo}\nWith --expect protocol: {protocol}")?;
    Ok(text)
}

/// The rule of a verdict on an end of this role, of which this is expected. Empty if it has none.
fn rule_of(tested: Role, expected: Expectation, verdict: Verdict) -> &'static str
    ensures { result.now ≡ rule_of tested expected verdict }
{
    match rule_with(tested, expected, verdict) {
        Some(rule) => rule,
        None => "",
    }
}

/// The rule of a server, and in a second line that of a client, if it is different.
fn both_rules(alloc: Global, server: &str, client: &str) -> Result<String, NoMemory>
    ensures { IfOk result (λ text. string_bytes text ≡ both_rules server.now client.now) }
{
    let text = if server == client {
        format!(in alloc; "{server}")?
    } else {
        format!(in alloc; "{server}\n{client}")?
    };
    Ok(text)
}

/// The name of the rule of a verdict.
fn why_name(alloc: Global, verdict: Verdict) -> Result<String, NoMemory>
    ensures { IfOk result (λ name. string_bytes name ≡ why_name verdict) }
{
    let name = match verdict {
        Verdict::Pass => String::new(alloc),
        Verdict::Loose(why) => format!(in alloc; "{why}")?,
        Verdict::Fail(why) => format!(in alloc; "{why}")?,
    };
    Ok(name)
}
