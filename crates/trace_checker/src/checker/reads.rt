//! What a checker has recorded of leaders.
ghost use Rattle.std.specs.Prelude.{◌≡◌, ◌-◌, IfOk, IfSome, length, option_map, take, true};
ghost use Rattle.std.specs.List.{position};
ghost use Rattle.trace_checker.specs.Checker.{AreConfigLens, OfAll, configs_of, entry_at, if_campaigned, counting_of, kept_by, leader_entries_in, tests_when};
ghost use Rattle.trace_checker.specs.Inner.Logs.{log_at};
ghost use Rattle.safety_laws.specs.Trace.{candidate_log_in, has_campaigned, common_prefix, leader_log_in, log_in};

use super::Checker;
use super::configs::Configs;
use super::known::config_before;
use super::logs::Logs;
use super::places::leader_at;
use super::server::Server;
use crate::entry::Entry;
use crate::term::Term;
use safety_laws::counting::ConfigsCount;
use std::alloc::{AllocError, Global};

impl<T: Term, N: Copy + Eq, D: Copy + Ord, C: Configs<N, D> + Drop> Checker<T, N, D, C> {
    /// Returns the entries after the first `from` of the log of a candidate or leader of a term, up
    /// to the first `len`, if it has campaigned and has so many. A server that installs a snapshot
    /// takes these entries, if it has the first `from` already.
    pub fn leader_entries(
        &self,
        alloc: Global,
        term: T,
        id: N,
        from: usize,
        len: usize,
    ) -> Result<Option<Vec<Entry<T, D>>>, AllocError>
        ensures len { IfOk result (λ o. IfSome o (λ v. length v.items ≡ len - from)) }
        ensures entries { let k = tests_when (counting_of self.now) T.Term N.PartialEq D.PartialEq
            C.Configs (configs_of self.now) in OfAll k (kept_by self.now) (λ es. IfOk result
            (λ o. option_map (λ v. v.items) o ≡ leader_entries_in k es term id from len)) }
    {
        let log = match leader_at(&self.leaders, &self.places, term, id) {
            Some(j) => self.leaders[j].log,
            None => return Ok(None),
        };
        if self.logs.len(log) < len {
            return Ok(None);
        }
        let mut entries = Vec::new(alloc);
        for i in from..len {
            match self.logs.last(self.logs.first(log, i + 1)) {
                Some(entry) => entries.push(entry)?,
                None => return Ok(None),
            }
        }
        Ok(Some(entries))
    }

    /// Returns how many first entries the log of a server has in common with the log of a candidate
    /// or leader of a term.
    pub fn common_len(&self, server: N, term: T, leader: N) -> usize
        ensures { let k = tests_when (counting_of self.now) T.Term N.PartialEq D.PartialEq C.Configs
            (configs_of self.now) in OfAll k (kept_by self.now) (λ es. result
            ≡ length (common_prefix k (log_in k es server) (leader_log_in k es term leader))) }
    {
        let i = match place_of(&self.servers, server) {
            Some(i) => i,
            None => return 0,
        };
        let j = match leader_at(&self.leaders, &self.places, term, leader) {
            Some(j) => j,
            None => return 0,
        };
        self.logs
            .common_len(self.servers[i].log, self.leaders[j].log)
    }

    /// Returns the configs.
    pub fn configs(&self) -> &C
        ensures { result.now ≡ configs_of self.now }
    {
        &self.configs
    }

    /// Returns when configs count.
    pub fn configs_count(&self) -> ConfigsCount
        ensures { result ≡ counting_of self.now }
    {
        self.counting
    }

    /// Returns up to how many entries the last config is among so many first entries of a candidate
    /// or leader of a term, and up to how many the config before that one is, if the candidate has
    /// campaigned. The initial config is before all entries.
    pub fn config_lens(&self, term: T, id: N, len: usize) -> Option<(usize, usize)>
        ensures { let k = tests_when (counting_of self.now) T.Term N.PartialEq D.PartialEq C.Configs
            (configs_of self.now) in OfAll k (kept_by self.now) (λ es. IfSome result
            (λ lens. AreConfigLens k (take len (leader_log_in k es term id)) lens)) }
    {
        let j = match leader_at(&self.leaders, &self.places, term, id) {
            Some(j) => j,
            None => return None,
        };
        let log = self.logs.first(self.leaders[j].log, len);
        let last = self.logs.config(log);
        let before = config_before(&self.logs, log);
        Some((self.logs.len(last), self.logs.len(before)))
    }

    /// Returns how many entries the log of a candidate or leader of a term has, if it has
    /// campaigned.
    pub fn leader_len(&self, term: T, id: N) -> Option<usize>
        ensures { let k = tests_when (counting_of self.now) T.Term N.PartialEq D.PartialEq C.Configs (configs_of self.now) in
            OfAll k (kept_by self.now) (λ es. result
            ≡ if_campaigned k es term id (length (leader_log_in k es term id))) }
    {
        match leader_at(&self.leaders, &self.places, term, id) {
            Some(j) => Some(self.logs.len(self.leaders[j].log)),
            None => None,
        }
    }

    /// Returns how many entries the log had with which a candidate of a term asked for votes, if it
    /// has campaigned. A leader has written the later ones in the term.
    pub fn leader_start(&self, term: T, id: N) -> Option<usize>
        ensures { let k = tests_when (counting_of self.now) T.Term N.PartialEq D.PartialEq C.Configs (configs_of self.now) in
            OfAll k (kept_by self.now) (λ es. result
            ≡ if_campaigned k es term id (length (candidate_log_in k es term id))) }
    {
        match leader_at(&self.leaders, &self.places, term, id) {
            Some(j) => Some(self.leaders[j].start),
            None => None,
        }
    }

    /// Returns the last of so many first entries of the log of a candidate or leader of a term, if
    /// it has so many.
    pub fn leader_entry(&self, term: T, id: N, len: usize) -> Option<Entry<T, D>>
        ensures { let k = tests_when (counting_of self.now) T.Term N.PartialEq D.PartialEq C.Configs (configs_of self.now) in
            OfAll k (kept_by self.now) (λ es. result ≡ entry_at len (leader_log_in k es term id)) }
    {
        match leader_at(&self.leaders, &self.places, term, id) {
            Some(j) => entry_at(&self.logs, self.leaders[j].log, len),
            None => None,
        }
    }

    /// Returns how many entries the log of a server has.
    pub fn server_len(&self, id: N) -> usize
        ensures { let k = tests_when (counting_of self.now) T.Term N.PartialEq D.PartialEq C.Configs (configs_of self.now) in
            OfAll k (kept_by self.now) (λ es. result ≡ length (log_in k es id)) }
    {
        match place_of(&self.servers, id) {
            Some(i) => self.logs.len(self.servers[i].log),
            None => 0,
        }
    }

    /// Returns the last of so many first entries of the log of a server, if it has so many.
    pub fn server_entry(&self, id: N, len: usize) -> Option<Entry<T, D>>
        ensures { let k = tests_when (counting_of self.now) T.Term N.PartialEq D.PartialEq C.Configs (configs_of self.now) in
            OfAll k (kept_by self.now) (λ es. result ≡ entry_at len (log_in k es id)) }
    {
        match place_of(&self.servers, id) {
            Some(i) => entry_at(&self.logs, self.servers[i].log, len),
            None => None,
        }
    }

    /// Returns the term and the id of a candidate or leader. The newest one is number 0.
    pub fn newest_leader(&self, number: usize) -> Option<(T, N)>
        ensures { let k = tests_when (counting_of self.now) T.Term N.PartialEq D.PartialEq C.Configs (configs_of self.now) in
            IfSome result (λ l. OfAll k (kept_by self.now) (λ es.
            has_campaigned k l.0 l.1 es ≡ true)) }
    {
        if number < self.leaders.len() {
            let leader = &self.leaders[number];
            return Some((leader.term, leader.id));
        }
        None
    }
}

/// Returns the last of so many first entries of a log, if it has so many.
fn entry_at<T: Copy + Eq, D: Copy + Ord>(
    logs: &Logs<T, D>,
    log: usize,
    len: usize,
) -> Option<Entry<T, D>>
    ensures { result ≡ entry_at len (log_at logs.now log) }
{
    if logs.len(log) < len {
        return None;
    }
    logs.last(logs.first(log, len))
}

/// Returns the position of a server, if anything is kept of it.
fn place_of<N: Copy + Eq>(servers: &[Server<N>], id: N) -> Option<usize>
    ensures { result ≡ position (λ s. N.eq s.id id) servers.now }
{
    for (i, server) in servers.iter().enumerate() {
        if server.id == id {
            return Some(i);
        }
    }
    None
}
