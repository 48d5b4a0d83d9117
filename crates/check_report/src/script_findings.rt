//! The lines of a script, or of a plan, that are bad.

ghost use Rattle.std.specs.Prelude.{◌≡◌, ◌≤◌, ◌++◌, ◌||◌, [], None, Some, false, IfOk, OnOk, codes, decimal, take};
ghost use Rattle.std.specs.List.{filter_map};
ghost use Rattle.std.specs.Option.{is_some, option_to_list};
ghost use Rattle.partitioner.specs.Topic.{MayBeTopics};
ghost use Rattle.lane_words.specs.declared.limits.TheConstants.{MOST_MEMBERS};
ghost use Rattle.script.specs.Plan.{behind, is_no_plan_line, nobody_yet, parse_change};
ghost use Rattle.script.specs.Replay.{is_bad};
ghost use Rattle.script.specs.declared.limits.TheConstants.{LONGEST_LINE};
ghost use Rattle.check_report.specs.Findings.{shown};
ghost use Rattle.check_report.specs.ScriptFindings.{behind_line, change_words, findings_of_plan, findings_of_script, found_in, has_change, line_finding, no_change, plan_finding, plan_findings_from, plan_words, script_lines, unread_in_plan, unread_in_script, unread_words};

use crate::findings::{Finding, with_shown};
use crate::suggestions::add_suggestion;
use lane_words::{MOST_MEMBERS, Memory, Refusal};
use partitioner::{Name, Topic};
use script::{
    Change, FORMS, Form, LONGEST_LINE, PLAN_FORMS, Roster, first_line, parse_action, parse_change,
};
use std::alloc::Global;
use std::marker::Model;

/// A line of a script.
#[derive(Drop)]
struct ScriptLine<'a> {
    /// Its first byte, from 0.
    byte: u64,
    /// Its number, from 1.
    number: u64,
    /// Its bytes, without the line's end.
    bytes: &'a [u8],
}

impl<'a> Model for ScriptLine<'a> {
    ghost use Rattle.check_report.specs.ScriptFindings.{ScriptLine};

    ghost Value = { ScriptLine };

    ghost view = { λ s. (s.byte, (s.number, s.bytes.now)) };
}

impl<'a> ScriptLine<'a> {
    /// The finding of a fault in the line.
    fn finding(&self, fault: &Refusal, words: Vec<u8>) -> Finding
        ensures { result ≡ found_in self.now fault.now words.items }
    {
        Finding {
            in_script: true,
            code: Some(u64::from(fault.code())),
            nth: None,
            line: Some(self.number),
            byte: Some(self.byte),
            words,
        }
    }
}

/// A line of so many bytes, which are too many, in words.
fn long_words(alloc: Global, bytes: usize) -> Result<Vec<u8>, Memory>
    ensures { IfOk result (λ words. words.items ≡ codes "the line has " ++ decimal bytes
        ++ codes " bytes, " ++ decimal LONGEST_LINE ++ codes " are the most") }
{
    let text = format!(in alloc; "the line has {bytes} bytes, {LONGEST_LINE} are the most")?;
    Ok(text.into_bytes())
}

/// A line that can't be read, in words, where lines have these forms.
fn unread_words(alloc: Global, forms: &[Form], topics: bool, line: &[u8]) -> Result<Vec<u8>, Memory>
    ensures { IfOk result (λ words. words.items ≡ unread_words forms.now topics line.now) }
{
    if line.len() > LONGEST_LINE {
        return long_words(alloc, line.len());
    }
    let mut words = with_shown(alloc, b"no such line: ", line)?;
    add_suggestion(alloc, &mut words, forms, topics, line)?;
    Ok(words)
}

/// A line of a script that can't be read, in words.
fn unread_in_script(alloc: Global, topics: &[Topic], line: &[u8]) -> Result<Vec<u8>, Memory>
    ensures { IfOk result (λ words. words.items ≡ unread_in_script topics.now line.now) }
{
    unread_words(alloc, &FORMS, !topics.is_empty(), line)
}

/// A line of a plan that can't be read, in words.
fn unread_in_plan(alloc: Global, line: &[u8]) -> Result<Vec<u8>, Memory>
    ensures { IfOk result (λ words. words.items ≡ unread_in_plan line.now) }
{
    unread_words(alloc, &FORMS[..PLAN_FORMS], false, line)
}

/// Whether a line of a script is bad.
fn is_bad(alloc: Global, topics: &[Topic], line: &ScriptLine<'_>) -> Result<bool, Memory>
    requires { MayBeTopics topics.now }
    ensures { IfOk result (λ bad. bad ≡ is_bad topics.now line.now.1.1) }
{
    match parse_action(alloc, topics, line.number, line.bytes) {
        Ok(_) => Ok(false),
        Err(Refusal::BadLine { .. }) => Ok(true),
        Err(_) => Err(Memory),
    }
}

/// Adds the finding of a line of a script, if it is bad.
fn check_line(
    alloc: Global,
    found: &mut Vec<Finding>,
    topics: &[Topic],
    line: &ScriptLine<'_>,
) -> Result<(), Memory>
    requires { MayBeTopics topics.now }
    ensures { OnOk result (found.new.items ≡ found.old.items
        ++ option_to_list (line_finding topics.now line.now)) }
{
    if !is_bad(alloc, topics, line)? {
        return Ok(());
    }
    let words = unread_in_script(alloc, topics, line.bytes)?;
    found.push(line.finding(&Refusal::BadLine { line: line.number }, words))?;
    Ok(())
}

/// The first findings of a script, at most `most`.
fn findings_of_lines(
    alloc: Global,
    topics: &[Topic],
    script: &[u8],
    most: usize,
) -> Result<Vec<Finding>, Memory>
    requires { MayBeTopics topics.now }
    ensures { IfOk result (λ found. found.items
        ≡ take most (filter_map (line_finding topics.now) (script_lines script.now))) }
{
    let mut found = Vec::new(alloc);
    let mut rest = script;
    let mut number = 0;
    let mut byte = 0;
    'lines: while found.len() < most {
        if rest.is_empty() {
            return Ok(found);
        }
        let (bytes, after) = first_line(rest);
        number += 1;
        let line = ScriptLine {
            byte,
            number,
            bytes,
        };
        check_line(alloc, &mut found, topics, &line)?;
        byte += (rest.len() - after.len()) as u64;
        rest = after;
    }
    Ok(found)
}

/// A name, and then these words.
fn name_words(alloc: Global, name: &Name, words: &[u8]) -> Result<Vec<u8>, Memory>
    ensures { IfOk result (λ all. all.items ≡ name.now ++ words.now) }
{
    let mut all = name.text().to_vec(alloc)?;
    all.extend_from_slice(words)?;
    Ok(all)
}

/// That as many members have joined as can, in words.
fn full_words(alloc: Global) -> Result<Vec<u8>, Memory>
    ensures { IfOk result (λ words. words.items
        ≡ decimal MOST_MEMBERS ++ codes " members have joined, which are the most") }
{
    let text = format!(in alloc; "{MOST_MEMBERS} members have joined, which are the most")?;
    Ok(text.into_bytes())
}

/// A change that may not follow those before it, in words.
fn change_words(alloc: Global, before: &Roster, change: &Change) -> Result<Vec<u8>, Memory>
    ensures { IfOk result (λ words. words.items ≡ change_words before.now change.now) }
{
    match change {
        Change::Join(name) if before.has_joined(name) => {
            name_words(alloc, name, b" has joined before")
        }
        Change::Join(_) => full_words(alloc),
        Change::Leave(name) | Change::Lose(name) => {
            name_words(alloc, name, b" is not a name that is present")
        }
    }
}

/// Adds the finding of a change, if it may not follow those before it or leaves nobody present, and
/// enters it if it may follow.
fn check_change(
    alloc: Global,
    found: &mut Vec<Finding>,
    roster: &mut Roster,
    line: &ScriptLine<'_>,
    change: &Change,
) -> Result<(), Memory>
    requires line { is_no_plan_line line.now.1.1 ≡ false }
    requires change { parse_change line.now.1.1 ≡ Some change.now }
    ensures found { OnOk result (found.new.items ≡ found.old.items
        ++ option_to_list (plan_finding roster.old line.now)) }
    ensures roster { OnOk result (roster.new ≡ behind roster.old change.now) }
{
    match roster.take(line.number, change) {
        Ok(()) => Ok(()),
        Err(Refusal::BadLine { line: number }) => {
            let words = change_words(alloc, roster, change)?;
            found.push(line.finding(&Refusal::BadLine { line: number }, words))?;
            Ok(())
        }
        Err(Refusal::NobodyLeft { line: number }) => {
            let words = b"nobody is present after this line".to_vec(alloc)?;
            found.push(line.finding(&Refusal::NobodyLeft { line: number }, words))?;
            Ok(())
        }
        Err(_) => Err(Memory),
    }
}

/// Adds the finding of a line of a plan, if it has a fault behind those before it. Returns whether
/// it is a change; of a line that can't be read that is of no account.
fn check_plan_line(
    alloc: Global,
    found: &mut Vec<Finding>,
    roster: &mut Roster,
    line: &ScriptLine<'_>,
) -> Result<bool, Memory>
    ensures found { OnOk result (found.new.items ≡ found.old.items
        ++ option_to_list (plan_finding roster.old line.now)) }
    ensures roster { OnOk result (roster.new ≡ behind_line roster.old line.now.1.1) }
    ensures change { IfOk result (λ change. plan_finding roster.old line.now ≡ None
        → change ≡ is_some (parse_change line.now.1.1)) }
{
    match parse_change(alloc, line.number, line.bytes) {
        Ok(None) => Ok(false),
        Ok(Some(change)) => {
            check_change(alloc, found, roster, line, &change)?;
            Ok(true)
        }
        Err(Refusal::BadLine { line: number }) => {
            let words = unread_in_plan(alloc, line.bytes)?;
            found.push(line.finding(&Refusal::BadLine { line: number }, words))?;
            Ok(false)
        }
        Err(_) => Err(Memory),
    }
}

/// Whether one of the two is true.
fn either(first: bool, second: bool) -> bool
    ensures { result ≡ (first || second) }
{
    first || second
}

/// Adds the findings of the lines of a plan, as long as there are fewer than `most`, and returns
/// whether one is a change; if there is a finding, that is of no account.
fn check_plan(
    alloc: Global,
    found: &mut Vec<Finding>,
    script: &[u8],
    most: usize,
) -> Result<bool, Memory>
    requires none { found.old.items ≡ [] }
    requires most { 1 ≤ most }
    ensures found { OnOk result (found.new.items
        ≡ take most (plan_findings_from nobody_yet (script_lines script.now))) }
    ensures change { IfOk result (λ change. found.new.items ≡ []
        → change ≡ has_change (script_lines script.now)) }
{
    let mut roster = Roster::new(alloc);
    let mut rest = script;
    let mut number = 0;
    let mut byte = 0;
    let mut changes = false;
    'lines: while found.len() < most {
        if rest.is_empty() {
            return Ok(changes);
        }
        let (bytes, after) = first_line(rest);
        number += 1;
        let line = ScriptLine {
            byte,
            number,
            bytes,
        };
        let change = check_plan_line(alloc, found, &mut roster, &line)?;
        changes = either(changes, change);
        byte += (rest.len() - after.len()) as u64;
        rest = after;
    }
    Ok(changes)
}

/// The finding of a plan without a change.
fn no_change(alloc: Global) -> Result<Finding, Memory>
    ensures { IfOk result (λ found. found ≡ no_change) }
{
    Ok(Finding {
        in_script: true,
        code: Some(u64::from(Refusal::NobodyLeft { line: 0 }.code())),
        nth: None,
        line: None,
        byte: None,
        words: b"the plan has no join".to_vec(alloc)?,
    })
}

/// The first findings of a plan, at most `most`.
fn findings_of_plan(alloc: Global, script: &[u8], most: usize) -> Result<Vec<Finding>, Memory>
    requires { 1 ≤ most }
    ensures { IfOk result (λ found. found.items ≡ take most (findings_of_plan script.now)) }
{
    let mut found = Vec::new(alloc);
    let changes = check_plan(alloc, &mut found, script, most)?;
    if found.is_empty() && !changes {
        found.push(no_change(alloc)?)?;
    }
    Ok(found)
}

/// The first findings of a script, or of a plan, at most `most`.
pub fn findings_of_script(
    alloc: Global,
    topics: &[Topic],
    plan: bool,
    script: &[u8],
    most: usize,
) -> Result<Vec<Finding>, Memory>
    requires topics { MayBeTopics topics.now }
    requires most { 1 ≤ most }
    ensures { IfOk result
        (λ found. found.items ≡ take most (findings_of_script topics.now plan script.now)) }
{
    if plan {
        findings_of_plan(alloc, script, most)
    } else {
        findings_of_lines(alloc, topics, script, most)
    }
}
