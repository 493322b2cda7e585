//! Events that no line says, but that the checker needs.
ghost use Rattle.std.specs.Prelude.{IfOk, IsFalse, IsTrue, OnOk};
ghost use Rattle.serde_json.specs.View.{view};
ghost use Rattle.safety_laws.specs.Trace.{Committed};
ghost use Rattle.trace_checker.specs.Checker.{event_of as trace_event};
ghost use Rattle.trace_judge.specs.Inner.Table.{numbering};
ghost use Rattle.trace_judge.specs.Inner.Taken.{FillsApplied, FillsFor, FillsInto, FillsRestarted, RestoresFor, RestoresInto, Stays};
ghost use Rattle.trace_judge.specs.Numbers.{number_tests};

use crate::counted::counted_before;
use crate::event::{Act, counted_at, taken_from};
use crate::field::{id, is_named, len, number};
use crate::followed::{Followed, KEPT};
use crate::judge::Judge;
use serde_json::Value;
use std::alloc::{AllocError, Global};
use trace_checker::checker::Violation;
use trace_checker::event::Event;

/// How many leaders are tried as the one whose entries a server has read from its disk, and how
/// many of the newest candidates are among those that come into question.
const TRIED: usize = 64;

impl Judge {
    /// Fills in that a leader commits what a server has applied, if a line says so and events may
    /// be filled in. It is one of the last leaders that the server has followed.
    ///
    /// # Errors
    ///
    /// Out of memory.
    pub fn fill_in_commit(&mut self, fills: bool, value: &Value) -> Result<(), AllocError>
        ensures { OnOk result (FillsFor number_tests (numbering self.old.names) self.old.first
            (view value.now) self.old self.new) }
    {
        if !fills {
            return Ok(());
        }
        if !is_named(value, "applied") {
            return Ok(());
        }
        let Some(server) = id(&self.names, value, "server") else {
            return Ok(());
        };
        let Some(len) = len(value, "index", self.first) else {
            return Ok(());
        };
        self.commit_applied(server, len)
    }

    /// Fills in that a leader commits so many first entries, which a server has applied, unless
    /// they are committed.
    fn commit_applied(&mut self, server: u64, len: usize) -> Result<(), AllocError>
        ensures { OnOk result (FillsApplied number_tests server len self.old self.new) }
    {
        if len <= self.counts.committed {
            return Ok(());
        }
        if self.commit(server, len)? {
            return Ok(());
        }
        // If the server has not crashed, its own lines say what it has acknowledged.
        if !self.followers.is_silent(server) {
            return Ok(());
        }
        if self.acknowledge(server, len)? {
            self.commit(server, len)?;
        }
        Ok(())
    }

    /// Commits so many first entries by the last leader which a server has followed that may commit
    /// them. Returns whether there is one.
    fn commit(&mut self, server: u64, len: usize) -> Result<bool, AllocError>
        ensures { OnOk result (FillsApplied number_tests server len self.old self.new) }
    {
        for number in 0..KEPT {
            let Some(followed) = self.followers.last(server, number) else {
                return Ok(false);
            };
            if self.commit_by(server, followed, len)? {
                return Ok(true);
            }
        }
        Ok(false)
    }

    /// Commits so many first entries of a leader, which a server has applied, if that is allowed.
    /// The leader may count by the config before the last one. Returns whether it commits them.
    fn commit_by(&mut self, server: u64, followed: Followed, len: usize) -> Result<bool, AllocError>
        ensures { OnOk result (FillsApplied number_tests server len self.old self.new) }
    {
        if self.commit_counted(server, followed, len, false)? {
            return Ok(true);
        }
        self.commit_counted(server, followed, len, true)
    }

    /// Commits so many first entries of a leader, which a server has applied, and more until an
    /// entry of its term is the last one, if that is allowed. `is_before` says whether the leader
    /// counts by the config before the last one. Returns whether it commits them.
    fn commit_counted(
        &mut self,
        server: u64,
        followed: Followed,
        len: usize,
        is_before: bool,
    ) -> Result<bool, AllocError>
        ensures { OnOk result (FillsApplied number_tests server len self.old self.new) }
    {
        let (term, leader) = (followed.term, followed.leader);
        let Some(start) = self.checker.leader_start(term, leader) else {
            return Ok(false);
        };
        let Some(own) = start.checked_add(1) else {
            return Ok(false);
        };
        let own_len = len.max(own);
        let counted = if is_before {
            counted_before(&self.checker, term, leader, own_len)
        } else {
            counted_at(&self.checker, term, leader, own_len)
        };
        match counted {
            Some(counted_at) => self.commit_at(term, leader, own_len, counted_at),
            None => Ok(false),
        }
    }

    /// Commits so many first entries of a leader, which counts by so many of them, if that is
    /// allowed. Returns whether it is.
    fn commit_at(
        &mut self,
        term: u64,
        leader: u64,
        len: usize,
        counted_at: usize,
    ) -> Result<bool, AllocError>
        ensures { OnOk result
            (FillsInto number_tests (Committed leader term len counted_at) self.old self.new) }
    {
        let event = Event::Committed {
            leader,
            term,
            len,
            counted_at,
        };
        self.add(&event)
    }

    /// Acknowledges so many first entries to the last leader which a server has followed that they
    /// may be acknowledged to. Returns whether there is one.
    fn acknowledge(&mut self, server: u64, len: usize) -> Result<bool, AllocError>
        ensures { OnOk result (FillsApplied number_tests server len self.old self.new) }
    {
        for number in 0..KEPT {
            let Some(followed) = self.followers.last(server, number) else {
                return Ok(false);
            };
            if self.acknowledge_to(server, followed, len)? {
                return Ok(true);
            }
        }
        Ok(false)
    }

    /// Acknowledges so many first entries to a leader, if they are not acknowledged yet, and if
    /// that is allowed. Returns whether it is.
    fn acknowledge_to(
        &mut self,
        server: u64,
        followed: Followed,
        len: usize,
    ) -> Result<bool, AllocError>
        ensures { OnOk result (FillsApplied number_tests server len self.old self.new) }
    {
        if len <= followed.acked {
            return Ok(false);
        }
        let event = Event::Acked {
            server,
            term: followed.term,
            leader: followed.leader,
            len,
        };
        self.add(&event)
    }

    /// Fills in that a server has taken the entries that it has read from its disk, if a line says
    /// that it restarts, its log does not end so, and events may be filled in. The entries are of
    /// the leader of `last_term`, or of the first later one that allows it. So the server is in no
    /// later term than it has to be. Returns whether the server has taken entries.
    ///
    /// # Errors
    ///
    /// Out of memory.
    pub fn fill_in_append(
        &mut self,
        alloc: Global,
        fills: bool,
        value: &Value,
    ) -> Result<bool, AllocError>
        ensures restored { IfOk result (λ restored. IsTrue restored →
            RestoresFor number_tests (numbering self.old.names) self.old.first (view value.now)
            self.old self.new) }
        ensures stays { IfOk result (λ restored. IsFalse restored →
            Stays number_tests self.old self.new) }
    {
        if !fills {
            return Ok(false);
        }
        if !is_named(value, "restarted") {
            return Ok(false);
        }
        let Some(server) = id(&self.names, value, "server") else {
            return Ok(false);
        };
        let Some(len) = len(value, "index", self.first) else {
            return Ok(false);
        };
        let Some(last_term) = number(value, "last_term") else {
            return Ok(false);
        };
        self.restore(alloc, server, len, last_term)
    }

    /// Fills in that a server has taken so many first entries, of which the last one is of a term,
    /// from the first leader of which that is allowed, if its log does not end so. Returns whether
    /// there is one.
    fn restore(
        &mut self,
        alloc: Global,
        server: u64,
        len: usize,
        last_term: u64,
    ) -> Result<bool, AllocError>
        ensures restored { IfOk result (λ restored. IsTrue restored →
            FillsRestarted number_tests server len last_term self.old self.new) }
        ensures stays { IfOk result (λ restored. IsFalse restored →
            Stays number_tests self.old self.new) }
    {
        if len == 0 || self.has_entry(server, len, last_term) {
            return Ok(false);
        }
        let mut last = None;
        for _ in 0..TRIED {
            let Some((term, leader)) = self.next_leader(last_term, last) else {
                return Ok(false);
            };
            if self.append_from(alloc, server, term, leader, len, last_term)? {
                return Ok(true);
            }
            last = Some((term, leader));
        }
        Ok(false)
    }

    /// Returns the first leader or candidate from a term on, and its term. It comes after another
    /// one, if that is given.
    fn next_leader(&self, from: u64, last: Option<(u64, u64)>) -> Option<(u64, u64)> {
        let mut next = self.counts.next_leader(from, last);
        for number in 0..TRIED {
            let Some(leader) = self.checker.newest_leader(number) else {
                return next;
            };
            if leader.0 >= from && Some(leader) > last && (next.is_none() || Some(leader) < next) {
                next = Some(leader);
            }
        }
        next
    }

    /// Whether so many first entries of a server end with an entry of a term.
    pub fn has_entry(&self, server: u64, len: usize, last_term: u64) -> bool {
        match self.checker.server_entry(server, len) {
            Some(entry) => entry.term == last_term,
            None => false,
        }
    }

    /// Appends so many first entries of a leader, if they end with an entry of a term, and if that
    /// is allowed. Returns whether it is.
    fn append_from(
        &mut self,
        alloc: Global,
        server: u64,
        term: u64,
        leader: u64,
        len: usize,
        last_term: u64,
    ) -> Result<bool, AllocError>
        ensures restored { IfOk result (λ restored. IsTrue restored →
            FillsRestarted number_tests server len last_term self.old self.new) }
        ensures stays { IfOk result (λ restored. IsFalse restored →
            Stays number_tests self.old self.new) }
    {
        match self.checker.leader_entry(term, leader, len) {
            Some(entry) if entry.term == last_term => {}
            _ => return Ok(false),
        }
        match taken_from(alloc, &self.checker, server, term, leader, len)? {
            Some(event) => self.add(&event),
            None => Ok(false),
        }
    }

    /// Records an event that no line says, if it is allowed. Returns whether it is.
    fn add(&mut self, event: &Act) -> Result<bool, AllocError>
        ensures fills { OnOk result
            (FillsInto number_tests (trace_event event.now) self.old self.new) }
        ensures restores { OnOk result
            (RestoresInto number_tests (trace_event event.now) self.old self.new) }
        ensures stays { IfOk result (λ added. IsFalse added →
            Stays number_tests self.old self.new) }
    {
        match self.checker.record(event) {
            Ok(()) => {
                self.counts.note_filled_in(event);
                self.followers.note_event(event)?;
                self.chart.note(event)?;
                Ok(true)
            }
            Err(Violation::Rule(_)) => Ok(false),
            Err(Violation::OutOfMemory) => Err(AllocError),
        }
    }
}
