//! A cluster: its servers, its network, and what happens to them.

use crate::deed::News;
use crate::event::{CALM, Event, TROUBLE, draw};
use crate::message::Message;
use crate::network::Network;
use crate::options::Options;
use crate::record::Record;
use crate::safety::{History, Violation};
use crate::server::{SERVERS, Server};
use crate::tally::Tally;
use crate::trace::{Said, Trace};
use crate::types::{ChangeMembers, Members};
use crate::view::said_by;
use raft_base::EmptyNode;
use rand::RngExt;
use rand_pcg::Pcg32;
use std::alloc::{AllocError, Global};
use std::collections::{BTreeMap, BTreeSet};
use trace_checker::check::Refused;

/// How many events a cluster has to converge once its network is mended.
const TIME_TO_CONVERGE: u64 = 10_000;

/// How many events of a cluster are recorded for the laws of safety.
const RECORDED: u64 = 10_000;

/// Servers and the network between them.
#[derive(Drop)]
pub struct Cluster {
    pub servers: Vec<Server>,
    pub network: Network,
    pub history: History,
    pub tally: Tally,
    pub trace: Trace,
    /// What has happened in this event that is of note.
    pub news: Option<News>,
    /// How many ticks there were. The clocks of all servers are equally fast.
    ticks: u64,
    random: Pcg32,
}

/// What was found of a cluster.
#[derive(Drop)]
pub struct Verdict {
    /// How many events have happened.
    pub events: u64,
    /// Whether it was safe and has converged.
    pub found: Result<(), Violation>,
    /// Whether the rules of the laws of safety allow what was recorded.
    pub rules: Result<(), Refused>,
    /// What the servers have done, if it is to be recorded.
    pub record: Record,
}

impl Cluster {
    /// Runs the cluster of a seed, draws its chart, and counts what has happened.
    pub fn simulate(
        alloc: Global,
        seed: u64,
        options: &Options<'_>,
        tally: &mut Tally,
        chart: &mut String,
    ) -> Result<Verdict, Violation> {
        let mut cluster = Cluster::new(alloc, seed, options)?;
        let found = cluster.run(options, chart);
        tally.add(&cluster.tally);
        let events = cluster.tally.events;
        let trace = cluster.trace;
        Ok(Verdict {
            events,
            found,
            rules: trace.verdict(),
            record: trace.record,
        })
    }

    /// Returns a cluster that its first server starts with the first three servers as its members.
    fn new(alloc: Global, seed: u64, options: &Options<'_>) -> Result<Self, Violation> {
        let record = Record::new(alloc, options.lists(seed))?;
        let trace = Trace::new(alloc, SERVERS, record)?;
        let members = first_members(alloc)?;
        let mut servers = Server::all(alloc, seed, options.fault)?;
        if let Some(first) = servers.first_mut() {
            first
                .start(members)
                .map_err(|error| Violation::Failure(1, error))?;
        }
        Ok(Cluster {
            servers,
            network: Network::new(alloc),
            history: History::new(alloc),
            tally: Tally::default(),
            trace,
            news: None,
            ticks: 0,
            random: Pcg32::new(seed, 0),
        })
    }

    /// Lets events happen and draws them. Then the network is mended, and the cluster has to
    /// converge.
    fn run(&mut self, options: &Options<'_>, chart: &mut String) -> Result<(), Violation> {
        if options.chart > 0 {
            self.draw(chart)?;
        }
        for _ in 0..options.events {
            self.step(&TROUBLE)?;
            self.draw_if_due(options.chart, chart)?;
        }
        self.network.mend();
        for _ in 0..TIME_TO_CONVERGE {
            if self.has_converged() {
                return Ok(());
            }
            self.step(&CALM)?;
            self.draw_if_due(options.chart, chart)?;
        }
        Err(Violation::Convergence)
    }

    /// Lets a random event of a table happen.
    fn step(&mut self, table: &[(Event, u64)]) -> Result<(), Violation> {
        self.tally.count_event();
        self.network.lose_old(self.tally.events);
        self.news = None;
        let place = self.random.random_range(0..SERVERS) as usize;
        match draw(table, &mut self.random) {
            Event::Deliver => self.deliver(false),
            Event::Duplicate => self.deliver(true),
            Event::Lose => {
                let _ = self.network.take(&mut self.random);
                Ok(())
            }
            Event::Partition => {
                self.news = Some(self.network.toggle_partition(&mut self.random));
                Ok(())
            }
            Event::Tick => self.tick(),
            event => self.ask(event, place),
        }
    }

    /// A message arrives at a server, whose answer is sent back. The message may arrive again.
    fn deliver(&mut self, comes_again: bool) -> Result<(), Violation> {
        let Some(message) = self.network.take(&mut self.random) else {
            return Ok(());
        };
        let (from, to) = (message.from, message.to);
        let place = to.saturating_sub(1) as usize;
        let mut said = Said::Nothing;
        if self.network.reaches(from, to)
            && let Some(server) = self.servers.get_mut(place)
        {
            let answer = server.receive(from, &message.content);
            let answer = answer.map_err(|error| Violation::Failure(to, error))?;
            said = said_by(&answer);
            if let Some(content) = answer {
                self.network.send(to, from, self.tally.events, content);
            }
        }
        if comes_again {
            self.network.send(from, to, message.sent, message.content);
        }
        self.check(place, said)
    }

    /// Lets time pass at the server whose turn it is, and sends what it has to say to the others.
    fn tick(&mut self) -> Result<(), Violation> {
        self.ticks = self.ticks.saturating_add(1);
        let place = (self.ticks % SERVERS) as usize;
        if let Some(server) = self.servers.get_mut(place) {
            let speaks = server.tick();
            if speaks.map_err(|error| Violation::Failure(server.id, error))? {
                for to in 1..=SERVERS {
                    if to != server.id
                        && let Some(content) = server.next(to)
                    {
                        self.network.send(server.id, to, self.tally.events, content);
                    }
                }
            }
        }
        self.check(place, Said::Nothing)
    }

    /// A client or an operator asks something of a server. Some things only a leader does.
    fn ask(&mut self, event: Event, place: usize) -> Result<(), Violation> {
        let alloc = *self.servers.allocator();
        if let Some(server) = self.servers.get_mut(place) {
            let done = match event {
                Event::Propose => server.propose(self.tally.events),
                Event::Change => {
                    let change = some_change(alloc, &mut self.random)?;
                    server.change(change, self.random.random())
                }
                Event::Compact => server.compact(self.random.random_range(1..5)),
                _ => server.restart(),
            };
            done.map_err(|error| Violation::Failure(server.id, error))?;
        }
        let said = match event {
            Event::Restart => Said::Restarted,
            _ => Said::Nothing,
        };
        self.check(place, said)
    }

    /// Takes note of what has happened at a server, and checks the cluster.
    fn check(&mut self, place: usize, said: Said) -> Result<(), Violation> {
        if let Some(server) = self.servers.get_mut(place)
            && let Some(deed) = server.deed.take()
        {
            self.tally.count(deed);
            self.news = Some(News::Deed(server.id, deed));
        }
        if self.tally.events <= RECORDED {
            self.record(place, said)?;
        }
        if let Some(server) = self.servers.get(place) {
            let known = self.history.committed.len();
            self.history.check(server, &self.servers)?;
            if self.history.committed.len() > known {
                self.tally.note_commit();
            }
        }
        Ok(())
    }

    /// Records what a server has done, and checks that the rules of the laws of safety allow it.
    fn record(&mut self, place: usize, said: Said) -> Result<(), Violation> {
        if let Some(server) = self.servers.get(place) {
            server.record(said, &mut self.trace)?;
        }
        Ok(())
    }

    /// Whether a leader and all its members have committed its whole log, and no change is half
    /// done.
    fn has_converged(&self) -> bool {
        let Some(leader) = self.last_leader() else {
            return false;
        };
        let (members, last) = (leader.members(), leader.last());
        for server in &self.servers {
            let has_all = server.last() == last && server.state.committed == last;
            if members.contains(&server.id) && !has_all {
                return false;
            }
        }
        !members.is_in_joint_consensus()
    }

    /// Returns the leader that was elected last, if one leads.
    pub fn last_leader(&self) -> Option<&Server> {
        let mut last = self.servers.first()?;
        for server in &self.servers {
            if server.leader_id() > last.leader_id() {
                last = server;
            }
        }
        last.leader_id().is_some().then_some(last)
    }
}

/// Returns the members with which a cluster starts: the first three servers.
fn first_members(alloc: Global) -> Result<Members, AllocError> {
    let nodes = (1..=3).map(|id| (id, EmptyNode::new())).collect(alloc)?;
    Members::from_nodes(alloc, nodes)
}

/// Returns a random change of members, which the leader may refuse.
fn some_change(alloc: Global, random: &mut Pcg32) -> Result<ChangeMembers, AllocError> {
    let mut ids = BTreeSet::new(alloc);
    let mut nodes = BTreeMap::new(alloc);
    for id in 1..=SERVERS {
        if random.random() {
            ids.insert(id)?;
        }
        if random.random() {
            nodes.insert(id, EmptyNode::new())?;
        }
    }
    Ok(match random.random_range(0..5u64) {
        0 | 1 => ChangeMembers::AddNodes(nodes),
        2 => ChangeMembers::RemoveNodes(ids),
        _ => ChangeMembers::ReplaceAllVoters(ids),
    })
}
