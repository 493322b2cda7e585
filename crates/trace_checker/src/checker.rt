//! The checker of recorded events: whether each event was allowed by what came before.
ghost use Rattle.std.specs.Prelude.{◌≡◌, ◌<◌, IfOk, IfSome, OnErr, OnOk, drop, length, map};
ghost use Rattle.std.specs.List.{list_any};
ghost use Rattle.trace_checker.specs.Inner.CheckerState.{knows, same_entry_by};
ghost use Rattle.trace_checker.specs.Inner.Kept.{AreBounded, IsAt, leader_in};
ghost use Rattle.trace_checker.specs.Inner.Noted.{IsNotedBy};
ghost use Rattle.std.specs.VecDeque.{deque_len};
ghost use Rattle.trace_checker.specs.Inner.Logs.{AreDistinct, IsExact, log_at};
ghost use Rattle.trace_checker.specs.Checker.{Answers, Begins, FindsLeader, Records, configs_of, counting_of, event_of, kept_by, tests_of, tests_when};
ghost use Rattle.safety_laws.specs.declared.counting.ConfigsCount.TheVariants.{WhenAppended};
ghost use Rattle.safety_laws.specs.Trace.{Campaigned, Granted, Appended, Acked, Restarted, Wrote, Committed, Applied};

mod broken;
mod configs;
mod counting;
mod known;
mod leader;
mod learn;
mod logs;
mod node;
mod places;
mod reads;
mod server;
mod terms;
mod violation;

use crate::entry::Entry;
use crate::event::Event;
use crate::term::Term;
use broken::{
    ack_rule, append_rule, apply_rule, commit_rule, grant_rule, knows, next_log, restart_rule,
    write_rule,
};
pub use configs::Configs;
use counting::is_applied;
use known::{Commit, Commits, is_elected, note_commit};
use leader::Leader;
pub use learn::LearnError;
use logs::Logs;
use places::{Places, leader_at, note_place};
use safety_laws::counting::ConfigsCount;
use safety_laws::rule::Rule;
use server::Server;
use std::alloc::{AllocError, Global};
use std::collections::VecDeque;
pub use violation::Violation;

/// Checks recorded events one by one.
///
/// `T` are terms or leader ids, `N` node ids, `D` the contents of entries, and `C` tells which
/// contents hold a config and what its quorums are. The checker keeps the log and the term of each
/// server, and the log, the votes and the acknowledgements of each leader, but no list of events.
#[derive(Drop)]
pub struct Checker<T, N, D: Ord, C> {
    /// When configs count. A cluster keeps to one way, because no rule allows both.
    counting: ConfigsCount,
    configs: C,
    /// The logs of servers and leaders. Each entry is kept once.
    logs: Logs<T, D>,
    servers: Vec<Server<N>>,
    /// The newest leader is first, because most events are about it.
    leaders: VecDeque<Leader<T, N>>,
    /// By it the leaders of a rank are found.
    places: Places,
    /// No leader has committed more entries.
    committed: usize,
    /// What leaders have committed, the newest last. It is empty if configs count from their append
    /// on.
    commits: Commits,
    alloc: Global,
}

impl<T: Term, N: Copy + Eq, D: Copy + Ord, C: Configs<N, D> + Drop> Checker<T, N, D, C> {
    /// Returns a checker of a cluster in which nothing has happened.
    ///
    /// # Errors
    ///
    /// The rule `InitialConfig`, if quorums of the initial config are not known to intersect.
    pub fn new(alloc: Global, configs: C) -> Result<Self, Violation>
        ensures ok { IfOk result (λ c. configs_of c ≡ configs) }
        ensures counting { IfOk result (λ c. counting_of c ≡ WhenAppended) }
        ensures begins { Begins (tests_of T.Term N.PartialEq D.PartialEq C.Configs configs) result }
    {
        Self::counting(alloc, ConfigsCount::WhenAppended, configs)
    }

    /// Returns a checker of a cluster in which nothing has happened, and whose configs count in
    /// this way.
    ///
    /// # Errors
    ///
    /// The rule `InitialConfig`, if quorums of the initial config are not known to intersect.
    pub fn counting(alloc: Global, counting: ConfigsCount, configs: C) -> Result<Self, Violation>
        ensures ok { IfOk result (λ c. configs_of c ≡ configs) }
        ensures counting { IfOk result (λ c. counting_of c ≡ counting) }
        ensures begins { Begins (tests_when counting T.Term N.PartialEq D.PartialEq C.Configs
            configs) result }
    {
        if !configs.do_intersect(None, None) {
            return Err(Violation::Rule(Rule::InitialConfig));
        }
        Ok(Checker {
            counting,
            configs,
            logs: Logs::new(alloc),
            servers: Vec::new(alloc),
            leaders: VecDeque::new(alloc),
            places: Places::new(alloc),
            committed: 0,
            commits: Commits::new(alloc),
            alloc,
        })
    }

    /// Records an event.
    ///
    /// # Errors
    ///
    /// The rule that the event breaks, or out of memory. The checker is then as if the event had
    /// not been recorded.
    pub fn record(&mut self, event: &Event<T, N, D>) -> Result<(), Violation>
        ensures configs { configs_of self.new ≡ configs_of self.old }
        ensures counting { counting_of self.new ≡ counting_of self.old }
        ensures answer { Records
            (tests_when (counting_of self.old) T.Term N.PartialEq D.PartialEq C.Configs (configs_of self.old))
            (event_of event.now) self.old self.new result }
    {
        match event {
            Event::Campaigned { server, term } => self.campaigned(*server, *term),
            Event::Granted {
                server,
                term,
                candidate,
            } => self.granted(*server, *term, *candidate),
            Event::Appended {
                server,
                term,
                leader,
                keep,
                entries,
            } => self.appended(*server, *term, *leader, *keep, entries),
            Event::Acked {
                server,
                term,
                leader,
                len,
            } => self.acked(*server, *term, *leader, *len),
            Event::Restarted { server, len } => self.restarted(*server, *len),
            Event::Wrote {
                leader,
                term,
                entry,
            } => self.wrote(*leader, *term, *entry),
            Event::Committed {
                leader,
                term,
                len,
                counted_at,
            } => self.committed(*leader, *term, *len, *counted_at),
            Event::Applied {
                server,
                term,
                leader,
                len,
            } => self.applied(*server, *term, *leader, *len),
        }
    }

    /// Returns the position of the leader of a term, if this server is elected in the term.
    fn elected_leader(&self, term: T, id: N) -> Option<usize>
        ensures place { FindsLeader (tests_when self.now.counting T.Term N.PartialEq D.PartialEq C.Configs
            self.now.configs) term id (kept_by self.now) result }
        ensures within { IfSome result (λ j. j < deque_len self.now.leaders) }
    {
        let j = match leader_at(&self.leaders, &self.places, term, id) {
            Some(j) => j,
            None => return None,
        };
        if self.leaders[j].elected {
            return Some(j);
        }
        // If configs count once they are applied, a candidate may become elected by a commit,
        // because its config is known then.
        if !is_applied(self.counting) {
            return None;
        }
        if !is_elected(
            self.counting,
            &self.configs,
            &self.logs,
            &self.commits,
            &self.leaders[j],
        ) {
            return None;
        }
        Some(j)
    }

    /// A server starts a campaign.
    fn campaigned(&mut self, server: N, term: T) -> Result<(), Violation>
        ensures configs { self.new.configs ≡ self.old.configs }
        ensures counting { self.new.counting ≡ self.old.counting }
        ensures answer { Answers
            (tests_when self.old.counting T.Term N.PartialEq D.PartialEq C.Configs self.old.configs)
            (Campaigned server term) (kept_by self.old) (kept_by self.new) result }
    {
        let i = server_at(self.alloc, &mut self.servers, server)?;
        let rank = term.rank();
        // A server has reached each term in which it has campaigned. So a campaign in a later term
        // is no second one, and no leader has to be searched for.
        if rank <= self.servers[i].term() {
            match leader_at(&self.leaders, &self.places, term, server) {
                Some(_) => return Err(Violation::Rule(Rule::CampaignedTwice)),
                None => return Err(Violation::Rule(Rule::PassedTerm)),
            }
        }
        let voter = &mut self.servers[i];
        let len = self.logs.len(voter.log);
        self.leaders.reserve(1)?;
        voter.make_room()?;
        let mut leader = Leader::new(self.alloc, term, server, voter.log, len)?;
        let elected = is_elected(
            self.counting,
            &self.configs,
            &self.logs,
            &self.commits,
            &leader,
        );
        leader.elect(elected);
        note_place(&mut self.places, rank, self.leaders.len())?;
        voter.reach(rank, len);
        self.leaders.push_front_reserved(leader);
        Ok(())
    }

    /// A server grants its vote.
    fn granted(&mut self, server: N, term: T, candidate: N) -> Result<(), Violation>
        ensures configs { self.new.configs ≡ self.old.configs }
        ensures counting { self.new.counting ≡ self.old.counting }
        ensures answer { Answers
            (tests_when self.old.counting T.Term N.PartialEq D.PartialEq C.Configs self.old.configs)
            (Granted server term candidate) (kept_by self.old) (kept_by self.new) result }
    {
        let j = match leader_at(&self.leaders, &self.places, term, candidate) {
            Some(j) => j,
            None => return Err(Violation::Rule(Rule::NoCampaign)),
        };
        let i = server_at(self.alloc, &mut self.servers, server)?;
        let rank = term.rank();
        match grant_rule(
            &self.logs,
            &self.servers[i],
            &self.leaders[j],
            server,
            rank,
            candidate,
        ) {
            Some(rule) => return Err(Violation::Rule(rule)),
            None => {}
        }
        let voter = &mut self.servers[i];
        // The server has taken entries in the term, so its vote is late. No election counts it: the
        // rules are about whole histories, in which a late vote could otherwise elect the leader
        // from which the server took these entries.
        if rank <= voter.term() {
            voter.vote_late(rank);
            return Ok(());
        }
        voter.make_room()?;
        let leader = &mut self.leaders[j];
        leader.vote(server)?;
        let elected = is_elected(
            self.counting,
            &self.configs,
            &self.logs,
            &self.commits,
            leader,
        );
        leader.elect(elected);
        voter.reach(rank, self.logs.len(voter.log));
        Ok(())
    }

    /// A server takes entries.
    fn appended(
        &mut self,
        server: N,
        term: T,
        leader: N,
        keep: usize,
        entries: &[Entry<T, D>],
    ) -> Result<(), Violation>
        ensures configs { self.new.configs ≡ self.old.configs }
        ensures counting { self.new.counting ≡ self.old.counting }
        ensures answer { Answers
            (tests_when self.old.counting T.Term N.PartialEq D.PartialEq C.Configs self.old.configs)
            (Appended server term leader keep entries.now) (kept_by self.old)
            (kept_by self.new) result }
    {
        let j = match self.elected_leader(term, leader) {
            Some(j) => j,
            None => return Err(Violation::Rule(Rule::NotElected)),
        };
        let i = server_at(self.alloc, &mut self.servers, server)?;
        let rank = term.rank();
        match append_rule(
            &self.logs,
            &self.servers[i],
            &self.leaders[j],
            rank,
            keep,
            entries,
        ) {
            Some(rule) => return Err(Violation::Rule(rule)),
            None => {}
        }
        let follower = &mut self.servers[i];
        let len = self.logs.len(follower.log);
        let log = next_log(&self.logs, follower, &self.leaders[j], keep, entries);
        let same = keep + self.logs.common_with(follower.log, keep, entries);
        follower.append(rank, len, log, same)?;
        Ok(())
    }

    /// A server acknowledges entries.
    fn acked(&mut self, server: N, term: T, leader: N, len: usize) -> Result<(), Violation>
        ensures configs { self.new.configs ≡ self.old.configs }
        ensures counting { self.new.counting ≡ self.old.counting }
        ensures answer { Answers
            (tests_when self.old.counting T.Term N.PartialEq D.PartialEq C.Configs self.old.configs)
            (Acked server term leader len) (kept_by self.old) (kept_by self.new) result }
    {
        let j = match self.elected_leader(term, leader) {
            Some(j) => j,
            None => return Err(Violation::Rule(Rule::NotElected)),
        };
        let i = server_at(self.alloc, &mut self.servers, server)?;
        let rank = term.rank();
        match ack_rule(&self.logs, &self.servers[i], &self.leaders[j], rank, len) {
            Some(rule) => return Err(Violation::Rule(rule)),
            None => {}
        }
        self.leaders[j].ack(server, len)?;
        self.servers[i].ack(len);
        Ok(())
    }

    /// A server restarts.
    fn restarted(&mut self, server: N, len: usize) -> Result<(), Violation>
        ensures configs { self.new.configs ≡ self.old.configs }
        ensures counting { self.new.counting ≡ self.old.counting }
        ensures answer { Answers
            (tests_when self.old.counting T.Term N.PartialEq D.PartialEq C.Configs self.old.configs)
            (Restarted server len) (kept_by self.old) (kept_by self.new) result }
    {
        let i = server_at(self.alloc, &mut self.servers, server)?;
        match restart_rule(&self.logs, &self.servers[i], len) {
            Some(rule) => return Err(Violation::Rule(rule)),
            None => {}
        }
        let restarted = &mut self.servers[i];
        restarted.restart(self.logs.first(restarted.log, len), len);
        Ok(())
    }

    /// A leader writes an entry.
    fn wrote(&mut self, leader: N, term: T, entry: Entry<T, D>) -> Result<(), Violation>
        ensures configs { self.new.configs ≡ self.old.configs }
        ensures counting { self.new.counting ≡ self.old.counting }
        ensures answer { Answers
            (tests_when self.old.counting T.Term N.PartialEq D.PartialEq C.Configs self.old.configs)
            (Wrote leader term entry) (kept_by self.old) (kept_by self.new) result }
    {
        let j = match self.elected_leader(term, leader) {
            Some(j) => j,
            None => return Err(Violation::Rule(Rule::NotElected)),
        };
        match write_rule(
            self.counting,
            &self.configs,
            &self.logs,
            &self.leaders[j],
            term,
            entry,
        ) {
            Some(rule) => return Err(Violation::Rule(rule)),
            None => {}
        }
        let is_config = self.configs.holds_config(entry.content);
        let log = self.logs.child(self.leaders[j].log, entry, is_config)?;
        self.leaders[j].write(log);
        Ok(())
    }

    /// A leader commits entries.
    fn committed(
        &mut self,
        leader: N,
        term: T,
        len: usize,
        counted_at: usize,
    ) -> Result<(), Violation>
        ensures configs { self.new.configs ≡ self.old.configs }
        ensures counting { self.new.counting ≡ self.old.counting }
        ensures answer { Answers
            (tests_when self.old.counting T.Term N.PartialEq D.PartialEq C.Configs self.old.configs)
            (Committed leader term len counted_at) (kept_by self.old) (kept_by self.new) result }
    {
        let j = match self.elected_leader(term, leader) {
            Some(j) => j,
            None => return Err(Violation::Rule(Rule::NotElected)),
        };
        match commit_rule(
            self.counting,
            &self.logs,
            &self.commits,
            &self.leaders[j],
            len,
            counted_at,
        ) {
            Some(rule) => return Err(Violation::Rule(rule)),
            None => {}
        }
        let servers = self.leaders[j].acked_to(self.alloc, len)?;
        let config = self
            .logs
            .config_content(self.logs.first(self.leaders[j].log, counted_at));
        if !self.configs.is_quorum(config, &servers) {
            return Err(Violation::Rule(Rule::NoQuorum));
        }
        self.note(j, len, counted_at)?;
        self.leaders[j].commit(len);
        self.committed = self.committed.max(len);
        Ok(())
    }

    /// Notes that a leader commits so many first entries, if configs count once they are applied.
    ///
    /// # Errors
    ///
    /// Out of memory. Nothing is noted then.
    fn note(&mut self, leader: usize, len: usize, counted_at: usize) -> Result<(), AllocError>
        requires { leader < deque_len self.old.leaders }
        ensures noted { OnOk result (IsNotedBy (tests_when self.old.counting T.Term N.PartialEq
            D.PartialEq C.Configs self.old.configs) (kept_by self.old) leader len counted_at
            self.new.commits) }
        ensures err { OnErr result (self.new.commits ≡ self.old.commits) }
        ensures rest { self.new ≡ record self.old { commits = self.new.commits } }
    {
        if !is_applied(self.counting) {
            return Ok(());
        }
        let leader = &self.leaders[leader];
        let commit = Commit {
            rank: leader.term.rank(),
            counted_at,
            log: self.logs.first(leader.log, len),
        };
        note_commit(&self.logs, &mut self.commits, commit)
    }

    /// A server applies entries.
    fn applied(&mut self, server: N, term: T, leader: N, len: usize) -> Result<(), Violation>
        ensures configs { self.new.configs ≡ self.old.configs }
        ensures counting { self.new.counting ≡ self.old.counting }
        ensures answer { Answers
            (tests_when self.old.counting T.Term N.PartialEq D.PartialEq C.Configs self.old.configs)
            (Applied server term leader len) (kept_by self.old) (kept_by self.new) result }
    {
        let j = match self.elected_leader(term, leader) {
            Some(j) => j,
            None => return Err(Violation::Rule(Rule::NotElected)),
        };
        let i = server_at(self.alloc, &mut self.servers, server)?;
        match apply_rule(&self.logs, &self.servers[i], &self.leaders[j], len) {
            Some(rule) => return Err(Violation::Rule(rule)),
            None => {}
        }
        let prefix = self.logs.first(self.leaders[j].log, len);
        if !any_knows(
            &self.logs,
            &self.leaders,
            self.committed,
            j,
            term.rank(),
            prefix,
        ) {
            return Err(Violation::Rule(Rule::NotCommitted));
        }
        Ok(())
    }
}

/// Whether a leader of a term of at most this rank has committed these entries. No leader has
/// committed more entries than `most`. The search begins with the leader at position `near`.
fn any_knows<T: Term, N: Copy + Eq, D: Copy + Ord>(
    logs: &Logs<T, D>,
    leaders: &VecDeque<Leader<T, N>>,
    most: usize,
    near: usize,
    rank: u128,
    prefix: usize,
) -> bool
    ensures { AreBounded most leaders.now.items → IsExact (same_entry_by T.eq D.eq) →
        AreDistinct logs.now → result
        ≡ list_any (knows T.rank (same_entry_by T.eq D.eq) rank (log_at logs.now prefix))
        (map (leader_in logs.now) leaders.now.items) }
{
    // If a server waits for a commit, the entries that it applies are past all commits.
    if most < logs.len(prefix) {
        return false;
    }
    // The leader of the term, or one shortly before it, has committed most entries.
    if knows_from(logs, leaders, near, rank, prefix) {
        return true;
    }
    knows_from(logs, leaders, 0, rank, prefix)
}

/// Whether a leader of a term of at most this rank, at this position or a later one, has committed
/// these entries.
fn knows_from<T: Term, N: Copy + Eq, D: Copy + Ord>(
    logs: &Logs<T, D>,
    leaders: &VecDeque<Leader<T, N>>,
    from: usize,
    rank: u128,
    prefix: usize,
) -> bool
    ensures { IsExact (same_entry_by T.eq D.eq) → AreDistinct logs.now → result
        ≡ list_any (knows T.rank (same_entry_by T.eq D.eq) rank (log_at logs.now prefix))
        (drop from (map (leader_in logs.now) leaders.now.items)) }
{
    for j in from..leaders.len() {
        if knows(logs, &leaders[j], rank, prefix) {
            return true;
        }
    }
    false
}

/// Returns the position of a server. If nothing is kept of the server, it is added.
///
/// # Errors
///
/// Out of memory. The servers are then as they were.
fn server_at<N: Copy + Eq>(
    alloc: Global,
    servers: &mut Vec<Server<N>>,
    id: N,
) -> Result<usize, AllocError>
    ensures at { IfOk result (λ i. IsAt (λ s. N.eq s.id id) id servers.old.items
        servers.new.items i) }
    ensures within { IfOk result (λ i. i < length servers.new.items) }
    ensures err { OnErr result (servers.new.items ≡ servers.old.items) }
{
    for (i, server) in servers.iter().enumerate() {
        if server.id == id {
            return Ok(i);
        }
    }
    let i = servers.len();
    servers.push(Server::new(alloc, id))?;
    Ok(i)
}
