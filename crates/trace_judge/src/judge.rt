//! Judges the lines of a recorded run.
ghost use Rattle.std.specs.Prelude.{ℕ, List, IfErr, IfOk, IfSome, None, OnOk};
ghost use Rattle.trace_checker.specs.Checker.{configs_of, event_of as trace_event};
ghost use Rattle.safety_laws.specs.Ranks.{IsAmong};
ghost use Rattle.safety_laws.specs.Trace.{TraceEvent};
ghost use Rattle.serde_json.specs.View.{view};
ghost use Rattle.trace_judge.specs.Inner.Table.{numbering};
ghost use Rattle.trace_judge.specs.Inner.Taken.{Fits, IsBroken, IsStarted, KeepsTrace, Refuses, Stays, Takes, TakesEvent, TakesHolding, TakesSaid};
ghost use Rattle.trace_judge.specs.Line.{Says};
ghost use Rattle.trace_judge.specs.Logs.{HasLastTerm, HasLeaderEntries, HasNextIndex};
ghost use Rattle.trace_judge.specs.Numbers.{number_tests};
ghost use Rattle.trace_judge.specs.Run.{SaysMembership};

use crate::chart::Chart;
use crate::counted::counted_otherwise;
use crate::counts::Counts;
use crate::event::{Act, Checking, event_of, installed, taken_from};
use crate::facts::{Facts, Place};
use crate::fault::Fault;
use crate::field::{configs, is_named, number, value_of};
use crate::followed::Followers;
use crate::names::Names;
use crate::start::start_of;
use safety_laws::rule::Rule;
use serde_json::Value;
use std::alloc::Global;
use trace_checker::checker::{Checker, LearnError, Violation};
use trace_checker::event::Event;
use trace_checker::held::Held;
use trace_checker::memberships::{Memberships, memberships_are_exact};

/// Judges one line after the other.
#[derive(Drop)]
pub struct Judge {
    /// The checker of the events so far.
    pub checker: Checking,
    /// The index of the first entry.
    pub first: u64,
    /// The names of servers and of contents.
    pub names: Names,
    /// What is counted of the events so far.
    pub counts: Counts,
    /// The leaders that servers have followed.
    pub followers: Followers,
    /// The lines that later lines may contradict.
    pub facts: Facts,
    /// The chart of the events so far.
    pub chart: Chart,
}

/// Returns the judge of a cluster that starts as the line says. It draws a chart if that is wanted,
/// by the numbers of lines if there is one list alone.
pub fn start(alloc: Global, line: &[u8], is_drawn: bool, is_alone: bool) -> Result<Judge, Fault>
    ensures { IfOk result (λ j. IsStarted number_tests line.now j) }
{
    let mut names = Names::new(alloc);
    let Some((initial, first, counting)) = start_of(alloc, &mut names, line)? else {
        return Err(Fault::Malformed);
    };
    let counts = Counts::new(alloc, &initial)?;
    let chart = Chart::start(alloc, line, first, &initial, is_drawn, is_alone)?;
    let held = Held::new(alloc);
    let memberships = Memberships { initial, held };
    memberships_are_exact::<u64, u64, u64>(&memberships);
    let checker = Checker::counting(alloc, counting, memberships)?;
    Ok(Judge {
        checker,
        first,
        names,
        counts,
        followers: Followers::new(alloc),
        facts: Facts::new(alloc),
        chart,
    })
}

impl Judge {
    /// Takes the next line, which is at this place. An empty line says nothing, and a vote that a
    /// server sends again is left out. `fills` says whether events may be filled in.
    ///
    /// # Errors
    ///
    /// Why the line is not taken. If it breaks a rule, the judge still has taken the lines before,
    /// so it may take another one.
    pub fn take(
        &mut self,
        alloc: Global,
        place: Place,
        fills: bool,
        line: &[u8],
    ) -> Result<(), Fault>
        ensures taken { OnOk result (Takes number_tests line.now self.old self.new) }
        ensures broken { IfErr result (λ fault. IsBroken fault →
            Refuses number_tests line.now self.old self.new) }
    {
        if line.is_empty() {
            return Ok(());
        }
        let Some(value) = value_of(alloc, line)? else {
            return Err(Fault::Malformed);
        };
        self.names.learn(&value)?;
        self.chart.begin(place.line, self.counts.events, &value)?;
        if self.fill_in_append(alloc, fills, &value)? {
            return self.take_restored(alloc, place, &value);
        }
        self.fill_in_commit(fills, &value)?;
        self.take_value(alloc, place, &value)
    }

    /// Takes the event that a server restarts, which the value of a line says, after the server has
    /// taken the entries that it has read from its disk. Its log ends as the line says, so the line
    /// breaks no rule: it is not taken only if there is no memory.
    fn take_restored(&mut self, alloc: Global, place: Place, value: &Value) -> Result<(), Fault>
        ensures taken { OnOk result (TakesSaid number_tests (view value.now) self.old self.new) }
        ensures broken { IfErr result (λ fault. IsBroken fault → ⊥) }
    {
        match self.take_value(alloc, place, value) {
            Ok(()) => Ok(()),
            Err(_) => Err(Fault::from(Violation::OutOfMemory)),
        }
    }

    /// Takes the event that the value of a line says.
    fn take_value(&mut self, alloc: Global, place: Place, value: &Value) -> Result<(), Fault>
        ensures taken { OnOk result (TakesSaid number_tests (view value.now) self.old self.new) }
        ensures broken { IfErr result (λ fault. IsBroken fault →
            Stays number_tests self.old self.new) }
    {
        let event = self.event(alloc, value)?;
        self.test_index(value, &event)?;
        self.test_last_term(value, &event)?;
        match membership(alloc, &self.names, value, &event)? {
            Some((content, configs)) => self.take_membership(place, &event, content, configs),
            None => self.take_counted(place, value, &event),
        }
    }

    /// Takes the event that the value of a line says, whose entry holds no membership. If the line
    /// does not say by which config a leader counts, another one is tried once the first one is
    /// refused.
    fn take_counted(&mut self, place: Place, value: &Value, event: &Act) -> Result<(), Fault>
        ensures taken { let number_of = numbering self.old.names in OnOk result
            (Says number_of self.old.first (view value.now) (trace_event event.now) →
            Fits number_tests (view value.now) (trace_event event.now) self.old →
            SaysMembership number_of (view value.now) (trace_event event.now) None →
            TakesSaid number_tests (view value.now) self.old self.new) }
        ensures broken { IfErr result (λ fault. IsBroken fault →
            Stays number_tests self.old self.new) }
    {
        let fault = match self.take_event(place, event) {
            Ok(()) => return Ok(()),
            Err(fault) => fault,
        };
        if !fault.is_of_config() {
            return Err(fault);
        }
        let Some(other) = counted_otherwise(&self.checker, value, event) else {
            return Err(fault);
        };
        match self.take_event(place, &other) {
            Ok(()) => Ok(()),
            Err(second) if second.is_broken() => Err(fault),
            Err(second) => Err(second),
        }
    }

    /// Returns the event that a line says. The entries of a snapshot are those of the leader.
    fn event(&self, alloc: Global, value: &Value) -> Result<Act, Fault>
        ensures says { IfOk result (λ e.
            Says (numbering self.now.names) self.now.first (view value.now) (trace_event e)) }
        ensures entries { IfOk result (λ e. (es : List (TraceEvent ℕ ℕ ℕ)) →
            KeepsTrace number_tests self.now es →
            HasLeaderEntries es (view value.now) (trace_event e)) }
    {
        if is_named(value, "appended") && value.get("entries").is_none() {
            return self.snapshot(alloc, value);
        }
        let event = event_of(
            alloc,
            &self.names,
            value,
            self.first,
            self.counts.committed_by,
            &self.checker,
        )?;
        event.ok_or(Fault::Malformed)
    }

    /// Returns the event that a server installs the snapshot which a line says. The entries are
    /// those of the leader.
    fn snapshot(&self, alloc: Global, value: &Value) -> Result<Act, Fault>
        ensures says { IfOk result (λ e.
            Says (numbering self.now.names) self.now.first (view value.now) (trace_event e)) }
        ensures entries { IfOk result (λ e. (es : List (TraceEvent ℕ ℕ ℕ)) →
            KeepsTrace number_tests self.now es →
            HasLeaderEntries es (view value.now) (trace_event e)) }
    {
        let Some((server, term, leader, len)) = installed(&self.names, value, self.first) else {
            return Err(Fault::Malformed);
        };
        match taken_from(alloc, &self.checker, server, term, leader, len)? {
            Some(event) => Ok(event),
            None => Err(Fault::from(Violation::Rule(Rule::NotWritten))),
        }
    }

    /// Tests that an entry has the next index of its leader, if the line says one.
    fn test_index(&self, value: &Value, event: &Act) -> Result<(), Fault>
        ensures { OnOk result ((es : List (TraceEvent ℕ ℕ ℕ)) →
            KeepsTrace number_tests self.now es →
            HasNextIndex self.now.first es (view value.now) (trace_event event.now)) }
    {
        let Event::Wrote { leader, term, .. } = event else {
            return Ok(());
        };
        if value.get("index").is_none() {
            return Ok(());
        }
        let Some(index) = number(value, "index") else {
            return Err(Fault::Malformed);
        };
        let Some(len) = self.checker.leader_len(*term, *leader) else {
            return Err(Fault::from(Violation::Rule(Rule::NotElected)));
        };
        match self.first.checked_add(len as u64) {
            Some(next) if next == index => Ok(()),
            _ => Err(Fault::Skips(self.index(len))),
        }
    }

    /// Tests that a server has read an entry from its disk that is in its log, if the line says the
    /// term of the last one.
    fn test_last_term(&self, value: &Value, event: &Act) -> Result<(), Fault>
        ensures { OnOk result ((es : List (TraceEvent ℕ ℕ ℕ)) →
            KeepsTrace number_tests self.now es →
            HasLastTerm es (view value.now) (trace_event event.now)) }
    {
        let Event::Restarted { server, len } = event else {
            return Ok(());
        };
        if value.get("last_term").is_none() {
            return Ok(());
        }
        let Some(last_term) = number(value, "last_term") else {
            return Err(Fault::Malformed);
        };
        let Some(entry) = self.checker.server_entry(*server, *len) else {
            return Ok(());
        };
        if entry.term == last_term {
            Ok(())
        } else {
            Err(Fault::from(Violation::Rule(Rule::ForeignEntries)))
        }
    }

    /// Takes the next event, that a leader writes an entry of a content which holds a membership.
    fn take_membership(
        &mut self,
        place: Place,
        event: &Act,
        content: u64,
        configs: Vec<Vec<u64>>,
    ) -> Result<(), Fault>
        ensures taken { OnOk result (TakesHolding number_tests (trace_event event.now)
            (content, configs) self.old self.new) }
        ensures broken { IfErr result (λ fault. IsBroken fault →
            Stays number_tests self.old self.new) }
    {
        match held_by(&self.checker, content) {
            Some(held) => {
                if *held != configs {
                    return Err(Fault::Malformed);
                }
                self.take_event(place, event)
            }
            None => self.take_new_membership(place, event, content, configs),
        }
    }

    /// Takes the next event, that a leader writes an entry of a content which holds a membership.
    /// None is known of this content.
    fn take_new_membership(
        &mut self,
        place: Place,
        event: &Act,
        content: u64,
        configs: Vec<Vec<u64>>,
    ) -> Result<(), Fault>
        ensures taken { OnOk result (TakesHolding number_tests (trace_event event.now)
            (content, configs) self.old self.new) }
        ensures broken { IfErr result (λ fault. IsBroken fault →
            Stays number_tests self.old self.new) }
    {
        let learned = self.checker.learn(content, configs);
        memberships_are_exact::<u64, u64, u64>(self.checker.configs());
        match learned {
            Ok(()) => {}
            Err(LearnError::OutOfMemory) => return Err(Fault::from(Violation::OutOfMemory)),
            Err(_) => return Err(Fault::Malformed),
        }
        match self.take_event(place, event) {
            Ok(()) => Ok(()),
            Err(fault) => {
                self.checker.forget();
                memberships_are_exact::<u64, u64, u64>(self.checker.configs());
                Err(fault)
            }
        }
    }

    /// Takes the next event.
    fn take_event(&mut self, place: Place, event: &Act) -> Result<(), Fault>
        ensures taken { OnOk result
            (TakesEvent number_tests (trace_event event.now) None self.old self.new) }
        ensures broken { IfErr result (λ fault. IsBroken fault →
            Stays number_tests self.old self.new) }
    {
        if self.counts.has_vote(event) {
            self.counts.left_out = self.counts.left_out.saturating_add(1);
            return Ok(());
        }
        if self.counts.lacks_commit(event) {
            return Err(Fault::from(Violation::Rule(Rule::NotCommitted)));
        }
        self.checker.record(event)?;
        self.counts.note(event)?;
        self.followers.note_event(event)?;
        self.followers.note_line(event)?;
        let len = self.written_by(event);
        self.facts.note(place, event, len)?;
        self.chart.note(event)?;
        Ok(())
    }

    /// Returns how many entries the leader has that writes one by an event.
    fn written_by(&self, event: &Act) -> usize {
        match event {
            Event::Wrote { leader, term, .. } => {
                self.checker.leader_len(*term, *leader).unwrap_or(0)
            }
            _ => 0,
        }
    }

    /// Returns the index of the last of so many first entries, the one before the first index if
    /// there are none.
    pub fn index(&self, len: usize) -> u64 {
        match len.checked_sub(1) {
            Some(before) => self.first.saturating_add(before as u64),
            None => self.first.saturating_sub(1),
        }
    }
}

/// Returns the membership that the entry of an event holds, and the content of the entry, if the
/// line says one.
fn membership(
    alloc: Global,
    names: &Names,
    value: &Value,
    event: &Act,
) -> Result<Option<(u64, Vec<Vec<u64>>)>, Fault>
    ensures { IfOk result (λ m.
        SaysMembership (numbering names.now) (view value.now) (trace_event event.now) m) }
{
    let Event::Wrote { entry, .. } = event else {
        return Ok(None);
    };
    if value.get("voters").is_none() {
        return Ok(None);
    }
    match configs(alloc, names, value)? {
        Some(configs) => Ok(Some((entry.content, configs))),
        None => Err(Fault::Malformed),
    }
}

/// Returns the membership that entries of a content hold, if it is known.
fn held_by(checker: &Checking, content: u64) -> Option<&Vec<Vec<u64>>>
    ensures { IfSome result (λ v. IsAmong (content, v.now) (configs_of checker.now).held.items) }
{
    checker.configs().held.get(content)
}
