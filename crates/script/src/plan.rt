//! Plans of a run: which members join, leave and are lost, in order.

ghost use Rattle.std.specs.Prelude.{◌≡◌, ◌≤◌, ◌⊎◌, ◌↔◌, ◌<◌, length, Err, IfOk, IsTrue, OnOk};
ghost use Rattle.lane_words.specs.Answers.{Answers};
ghost use Rattle.lane_words.specs.declared.Refusal.TheVariants as refusal;
ghost use Rattle.lane_words.specs.declared.limits.TheConstants.{MOST_MEMBERS};
ghost use Rattle.script.specs.Plan.{IsPlan, behind, change_fault, change_of, entered, is_allowed, is_among, is_anybody_left, is_there, nobody_yet, parse_change_answer, plan_answer, roster_of, taken};
ghost use Rattle.script.specs.Private.Plans.{is_join};

use crate::action::Action;
use crate::lines;
use group_machine::Name;
use lane_words::{MOST_MEMBERS, Memory, Refusal};
use std::alloc::Global;
use std::marker::Model;

/// A change of the members that are present.
#[derive(Debug, Drop)]
pub enum Change {
    /// A member of this name joins.
    Join(Name),
    /// The member leaves.
    Leave(Name),
    /// The member is lost.
    Lose(Name),
}

impl Change {
    /// A copy of the change.
    fn copy(&self) -> Change
        ensures { result ≡ self.now }
    {
        match self {
            Change::Join(name) => Change::Join(name.copy()),
            Change::Leave(name) => Change::Leave(name.copy()),
            Change::Lose(name) => Change::Lose(name.copy()),
        }
    }

    /// Whether the other change is equal.
    fn same(&self, other: &Change) -> bool
        ensures { IsTrue result ↔ (self.now ≡ other.now) }
    {
        match (self, other) {
            (Change::Join(name), Change::Join(theirs)) => name.text() == theirs.text(),
            (Change::Leave(name), Change::Leave(theirs)) => name.text() == theirs.text(),
            (Change::Lose(name), Change::Lose(theirs)) => name.text() == theirs.text(),
            _ => false,
        }
    }

    /// Whether a member joins.
    fn is_join(&self) -> bool
        ensures { result ≡ is_join self.now }
    {
        matches!(self, Change::Join(_))
    }
}

/// A plan of a run: at least one change. A name joins at most once, only a present member leaves or
/// is lost, at most 512 members join, and after each change somebody is present.
#[derive(Debug, Drop)]
pub struct Plan {
    /// The changes, in order.
    lines: Vec<Change>,
}

impl Model for Plan {
    ghost use Rattle.std.specs.Prelude.{List};
    ghost use Rattle.script.specs.Plan.{IsPlan};
    ghost use Rattle.script.specs.declared.plan.Change.{Change};

    ghost Value = { List Change };

    ghost view = { λ plan. plan.lines.items };

    ghost invariant = { λ plan. IsPlan plan.lines.items };
}

impl Plan {
    /// The changes, in order.
    pub fn lines(&self) -> &[Change]
        ensures lines { result.now ≡ self.now }
        ensures valid { IsPlan self.now }
    {
        &self.lines
    }

    /// A copy of the plan. Fails only if memory runs out.
    pub fn copy(&self, alloc: Global) -> Result<Plan, Memory>
        ensures value { IfOk result (λ copy. copy ≡ self.now) }
    {
        let mut lines = Vec::with_capacity(alloc, self.lines.len())?;
        for change in &self.lines {
            lines.push(change.copy())?;
        }
        Ok(Plan { lines })
    }

    /// Whether the other plan has the same changes in the same order.
    pub fn same(&self, other: &Plan) -> bool
        ensures iff { IsTrue result ↔ (self.now ≡ other.now) }
    {
        if self.lines.len() != other.lines.len() {
            return false;
        }
        for i in 0..self.lines.len() {
            if !self.lines[i].same(&other.lines[i]) {
                return false;
            }
        }
        true
    }

    /// The number of members that join: 1 to 512.
    pub fn members(&self) -> u32
        ensures count { result ≡ length (roster_of self.now).joined }
        ensures nonempty { 1 ≤ result }
        ensures bound { result ≤ MOST_MEMBERS }
    {
        self.lines.iter().filter(|change| change.is_join()).count() as u32
    }
}

/// Parses a plan. Its lines are `join NAME`, `leave NAME` and `lose NAME`; empty lines and comments
/// are skipped.
///
/// The first line with a fault is refused. `BadLine`: the line is too long or of another form, its
/// join uses a name again or is the 513th, or the member that it takes out is not present.
/// `NobodyLeft`: nobody is present after the line; with line 0, no line is a change. `Memory`:
/// out of memory.
pub fn read_plan(alloc: Global, bytes: &[u8]) -> Result<Plan, Refusal>
    ensures { Answers (plan_answer bytes.now) result }
{
    let mut lines = Vec::new(alloc);
    let mut roster = Roster::new(alloc);
    let mut rest = bytes;
    let mut number = 0;
    while !rest.is_empty() {
        let (line, after) = lines::first_line(rest);
        number += 1;
        if let Some(change) = parse_change(alloc, number, line)? {
            roster.take(number, &change)?;
            lines.push(change)?;
        }
        rest = after;
    }
    if lines.is_empty() {
        return Err(Refusal::NobodyLeft { line: 0 });
    }
    Ok(Plan { lines })
}

/// Parses the line of this number. A comment or an empty line has no change; any other line that is
/// not a change is refused with `BadLine`.
pub fn parse_change(alloc: Global, number: u64, line: &[u8]) -> Result<Option<Change>, Refusal>
    ensures { Answers (parse_change_answer (number, line.now)) result }
{
    let Some(action) = lines::parse_action(alloc, &[], number, line)? else {
        return Ok(None);
    };
    let Some(change) = change_of(&action) else {
        return Err(Refusal::BadLine { line: number });
    };
    Ok(Some(change))
}

/// The change of an action, if the action is one.
#[tactic(auto, unfolding(crate::specs::Plan::change_of))]
fn change_of(action: &Action) -> Option<Change>
    ensures { result ≡ change_of action.now }
{
    match action {
        Action::Join(name) => Some(Change::Join(name.copy())),
        Action::Leave(name) => Some(Change::Leave(name.copy())),
        Action::Lose(name) => Some(Change::Lose(name.copy())),
        _ => None,
    }
}

/// The members that have joined so far, and those of them that are gone.
#[derive(Debug, Drop)]
pub struct Roster {
    /// The names of all that joined, in order.
    joined: Vec<Name>,
    /// The names of those that left or were lost, in order.
    gone: Vec<Name>,
}

impl Model for Roster {
    ghost use Rattle.script.specs.Plan.{Roster};

    ghost Value = { Roster };

    ghost view = { λ roster. record { joined = roster.joined.items; gone = roster.gone.items } };
}

impl Roster {
    /// An empty roster.
    pub fn new(alloc: Global) -> Roster
        ensures { result ≡ nobody_yet }
    {
        Roster {
            joined: Vec::new(alloc),
            gone: Vec::new(alloc),
        }
    }

    /// Enters the change of the line of this number, or reports why the line is refused: `BadLine`
    /// if it may not follow those before it, which enters nothing, and `NobodyLeft` if nobody is
    /// present after it. After `Memory` nothing is said of the roster.
    #[tactic(auto, unfolding(crate::specs::Plan::change_fault))]
    pub fn take(&mut self, number: u64, change: &Change) -> Result<(), Refusal>
        ensures answer { Answers (taken (change_fault number self.old change.now)) result }
        ensures ok { OnOk result (self.new ≡ entered self.old change.now) }
        ensures state { (result ≡ Err refusal.Memory) ⊎ (self.new ≡ behind self.old change.now) }
    {
        if !self.is_allowed(change) {
            return Err(Refusal::BadLine { line: number });
        }
        self.enter(change)?;
        if !self.is_anybody_left() {
            return Err(Refusal::NobodyLeft { line: number });
        }
        Ok(())
    }

    /// Whether a member of this name has joined, present or not.
    pub fn has_joined(&self, name: &Name) -> bool
        ensures { result ≡ is_among self.now.joined name.now }
    {
        is_among(&self.joined, name)
    }

    /// Whether a change may come next.
    #[tactic(auto, unfolding(crate::specs::Plan::is_allowed))]
    fn is_allowed(&self, change: &Change) -> bool
        ensures { result ≡ is_allowed self.now change.now }
    {
        match change {
            Change::Join(name) => !self.has_joined(name) && self.joined.len() < MOST_MEMBERS,
            Change::Leave(name) => self.is_there(name),
            Change::Lose(name) => self.is_there(name),
        }
    }

    /// Whether a member of this name has joined and is not gone.
    fn is_there(&self, name: &Name) -> bool
        ensures { result ≡ is_there self.now name.now }
    {
        self.has_joined(name) && !is_among(&self.gone, name)
    }

    /// Enters the name that joined or is gone.
    fn enter(&mut self, change: &Change) -> Result<(), Memory>
        ensures { OnOk result (self.new ≡ entered self.old change.now) }
    {
        match change {
            Change::Join(name) => self.joined.push(name.copy())?,
            Change::Leave(name) => self.gone.push(name.copy())?,
            Change::Lose(name) => self.gone.push(name.copy())?,
        }
        Ok(())
    }

    /// Whether somebody is present.
    fn is_anybody_left(&self) -> bool
        ensures { result ≡ is_anybody_left self.now }
    {
        self.gone.len() < self.joined.len()
    }
}

/// Whether a name is among these.
fn is_among(names: &[Name], name: &Name) -> bool
    ensures { result ≡ is_among names.now name.now }
{
    names.iter().any(|other| other.text() == name.text())
}
