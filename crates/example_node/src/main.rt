#![tactic(auto)]
//! Three Raft servers in one process, over the steps of `steps_handlers`: they elect a leader, lose
//! it, restart it from its disk, and change the members. `Server` is an engine to start yours from;
//! in the network below it a message is a call. Left out are timers, snapshots, clients, lost
//! messages, and the greatest term that a server has heard of.

use anyhow::{Context, Result, bail, ensure};
use raft_base::leader_id_std::{CommittedLeaderId, LeaderId};
use raft_base::{EmptyNode, LogIdOf, LogIdRangeOf, LogStateReader};
use raft_members::{ChangeMembers, Membership};
use raft_progress::InflightOf;
use raft_state::{EntryOf, EntryPayload};
use std::alloc::Global;
use std::collections::BTreeMap;
use steps_handlers::{
    AppendEntries, Candidate, Heartbeat, Leader, Outcome, RequestNumber, Response, State, Stored,
    handle_append_entries, handle_vote_request, restart_server, start_cluster,
};

type LogEntry = EntryOf<CommittedLeaderId, u64, EmptyNode, u64>;

type Request = AppendEntries<LeaderId<u64>, CommittedLeaderId, u64, EmptyNode, u64>;

/// A server, whose state machine adds numbers. A crash leaves the disk and the sum.
#[derive(Drop)]
struct Server {
    state: State<u64, EmptyNode, u64, LeaderId<u64>>,
    leader: Option<Leader<u64, EmptyNode, CommittedLeaderId>>,
    disk: Stored<LeaderId<u64>, CommittedLeaderId, u64, EmptyNode, u64>,
    sum: u64,
}

impl Server {
    /// Ends a step, before any message leaves: writes to disk the vote, and from the index on from
    /// which the log has changed these entries, and flushes them. A leader then counts what its disk
    /// has, and commits what a quorum has; it stops if it has promised a higher vote or is removed.
    /// What is committed is applied, in one write with `committed`, because a crash in between would
    /// apply it twice.
    fn finish(&mut self, log_from: Option<u64>, entries: &[LogEntry]) -> Result<()> {
        let (state, disk) = (&mut self.state, &mut self.disk);
        disk.vote = *state.vote_ref();
        if let Some(from) = log_from {
            disk.entries.truncate(from as usize);
            let known = entries.partition_point(|entry| entry.log_id.index < from);
            disk.entries.extend_with_clones(entries.split_at(known).1)?;
        }
        let last = disk.entries.last().map(|entry| entry.log_id);
        ensure!(
            last == state.last_log_id().copied(),
            "the disk lacks entries"
        );
        self.leader.take_if(|leader| !leader.leads(state));
        if let Some(leader) = &mut self.leader {
            leader.handle_flushed(state, last)?;
            leader.commit(state)?;
        }
        self.leader.take_if(|leader| leader.is_removed(state));
        let due = end(disk.committed)..end(state.committed);
        for entry in disk.entries.get(due).context("not on disk")? {
            if let EntryPayload::Normal(number) = &entry.payload {
                self.sum = self.sum.saturating_add(*number);
            }
        }
        disk.committed = state.committed;
        Ok(())
    }

    /// Starts again from the disk as a follower, after a crash or after a step that has failed.
    fn restart(&mut self) -> Result<()> {
        self.state = restart_server(*self.disk.entries.allocator(), &self.disk)?;
        self.leader = None;
        self.finish(None, &[])
    }

    /// Handles a leader's request, and writes to disk what it has changed.
    fn follow(&mut self, request: &Request) -> Result<Response<LeaderId<u64>, CommittedLeaderId>> {
        let (response, changes) = handle_append_entries(&mut self.state, request)?;
        // The log has the entries of a request only if it matches.
        let entries = match response.outcome {
            Outcome::Matches(_) => request.entries.as_slice(),
            _ => &[],
        };
        self.finish(changes.log_from, entries)?;
        Ok(response)
    }

    /// Appends an entry that adds a number.
    fn add(&mut self, number: u64) -> Result<()> {
        let leader = self.leader.as_ref().context("the server does not lead")?;
        let entry = leader.propose(&mut self.state, number)?;
        self.finish(Some(entry.log_id.index), &[entry])
    }

    /// Appends a membership that leads to these voters: first a joint one, and then the last.
    fn change(&mut self, voters: &[u64]) -> Result<()> {
        let change = ChangeMembers::replace_all(*self.disk.entries.allocator(), voters)?;
        let leader = self.leader.as_mut().context("the server does not lead")?;
        let entry = leader.propose_change(&mut self.state, change, false)?;
        self.finish(Some(entry.log_id.index), &[entry])
    }
}

/// Returns the index after a log id, or 0.
fn end(last: Option<LogIdOf<CommittedLeaderId>>) -> usize {
    last.map_or(0, |log_id| log_id.index.saturating_add(1) as usize)
}

/// Returns three servers, the first of which starts a cluster.
fn start(alloc: Global) -> Result<BTreeMap<u64, Server>> {
    let mut servers = BTreeMap::new(alloc);
    for id in 1..=3 {
        let disk = Stored::try_default(alloc)?;
        let server = Server {
            state: restart_server(alloc, &disk)?,
            leader: None,
            disk,
            sum: 0,
        };
        servers.insert(id, server)?;
    }
    let nodes = (1..=3).map(|id| (id, EmptyNode::new())).collect(alloc)?;
    let server = at(&mut servers, 1)?;
    let entries = start_cluster(&mut server.state, &1, Membership::from_nodes(alloc, nodes)?)?;
    server.finish(Some(0), &entries)?;
    Ok(servers)
}

fn at(servers: &mut BTreeMap<u64, Server>, id: u64) -> Result<&mut Server> {
    servers.get_mut(&id).context("no such server")
}

/// Elects a server by its own vote and that of another voter. It then leads, with a blank entry.
fn elect(servers: &mut BTreeMap<u64, Server>, id: u64, voter: u64) -> Result<()> {
    let server = at(servers, id)?;
    let mut candidate = Candidate::campaign(id, 0, &mut server.state)?;
    server.finish(None, &[])?;
    let server = at(servers, voter)?;
    let response = handle_vote_request(&mut server.state, &candidate.request());
    server.finish(None, &[])?;
    candidate.handle_vote_response(&voter, &response);
    let server = at(servers, id)?;
    let leader = Leader::new(&mut server.state, &candidate)?;
    let entry = leader.propose_blank(&mut server.state)?;
    server.leader = Some(leader);
    server.finish(Some(entry.log_id.index), &[entry])
}

/// Returns what the leader sends to a follower: entries that it lacks, or a heartbeat.
fn next_request(server: &mut Server, to: u64) -> Result<Request> {
    let leader = server.leader.as_mut().context("the server does not lead")?;
    let (request, range) = match leader.next_request(&server.state, &to, 64) {
        Some(InflightOf::Logs { id, log_id_range }) => {
            (RequestNumber::InFlight(id), log_id_range)
        }
        Some(InflightOf::None) => {
            let heartbeat = leader.heartbeat(&server.state, &to);
            let Heartbeat { request, prev } = heartbeat.context("the follower is no member")?;
            (request, LogIdRangeOf::new(prev, prev))
        }
        _ => bail!("the follower is no member, or is to be sent a snapshot"),
    };
    let places = end(range.prev)..end(range.last);
    let entries = server.disk.entries.get(places).context("not on disk")?;
    Ok(AppendEntries {
        leader_id: server.state.vote_ref().leader_id,
        request,
        prev: range.prev,
        entries: entries.to_vec(*server.disk.entries.allocator())?,
        committed: server.state.committed,
    })
}

/// The leader's loop: it sends to each of these followers in turn, takes the response, and commits.
fn replicate(servers: &mut BTreeMap<u64, Server>, id: u64, followers: &[u64]) -> Result<()> {
    for &follower in followers {
        let request = next_request(at(servers, id)?, follower)?;
        let response = at(servers, follower)?.follow(&request)?;
        let server = at(servers, id)?;
        if let Outcome::HigherVote(vote) = response.outcome {
            // `finish` writes it to disk.
            let _is_promised = server.state.promise(vote);
        }
        if let Some(leader) = &mut server.leader {
            // A response that is late or comes twice is refused, and changes nothing.
            let _refused = leader.handle_response(&follower, &response);
        }
        server.finish(None, &[])?;
    }
    Ok(())
}

/// Prints an event, and of each server the vote, the terms of its log, how many entries it has
/// applied, their sum, and its voters: one set, or two if the membership is joint.
fn show(servers: &BTreeMap<u64, Server>, rt: &HostRuntime, event: &str) -> Result<()> {
    println!(rt; "{event}")?;
    for (id, server) in servers {
        let (vote, applied, sum) = (server.disk.vote, end(server.disk.committed), server.sum);
        let terms = server.disk.entries.iter().map(|e| e.log_id.leader_id.term);
        let log: Vec<u64> = terms.collect(rt.alloc())?;
        print!(rt; "  server {id}: {vote}, log {log:?}, {applied} applied, sum {sum}")?;
        let members = server.state.membership_state.effective().membership();
        println!(rt; ", voters {:?}", members.get_joint_config())?;
    }
    Ok(())
}

fn main(rt: HostRuntime) -> Result<()> {
    run(&mut start(rt.alloc())?, &rt)
}

/// Lets the events happen, and shows the servers after each.
fn run(servers: &mut BTreeMap<u64, Server>, rt: &HostRuntime) -> Result<()> {
    elect(servers, 1, 2)?;
    at(servers, 1)?.add(5)?;
    replicate(servers, 1, &[2, 3, 2, 3])?;
    show(servers, rt, "1 is elected, and commits 5")?;
    at(servers, 1)?.add(7)?;
    elect(servers, 2, 3)?;
    at(servers, 2)?.add(20)?;
    replicate(servers, 2, &[3, 3])?;
    show(servers, rt, "1 appends 7 and crashes; 2 commits 20")?;
    at(servers, 1)?.restart()?;
    replicate(servers, 2, &[1])?;
    show(servers, rt, "1 restarts, follows 2, and truncates 7")?;
    at(servers, 2)?.change(&[1, 3])?;
    replicate(servers, 2, &[1, 3])?;
    show(servers, rt, "2 commits a joint membership")?;
    at(servers, 2)?.change(&[1, 3])?;
    replicate(servers, 2, &[1, 3])?;
    show(servers, rt, "2 commits that of 1 and 3, and stops")?;
    elect(servers, 3, 1)?;
    replicate(servers, 3, &[1, 1])?;
    show(servers, rt, "3 is elected by 1, and commits")
}
