//! A vote that a server hears in a response, and whether it is on disk before the server's next
//! message leaves: five servers over standard Raft's leader ids.

use crate::candidate::Asking;
use crate::states::{self, Append, Disk, Entry, Id};
use raft_base::EmptyNode;
use raft_base::leader_id_std::CommittedLeaderId;
use raft_members::Membership;
use raft_progress::InflightOf;
use raft_state::VoteStateReader;
use std::alloc::{AllocError, Global};
use std::mem;
use std::test::Fail;
use steps_handlers::{
    Candidate, Changes, HandlerError, Leader, Outcome, RequestNumber, handle_append_entries,
    handle_vote_request, restart_server, start_cluster,
};

/// A server, whose steps collect in `unwritten` what its disk lacks.
#[derive(Drop)]
struct Server {
    state: states::Server,
    leader: Option<Leader<u64, EmptyNode, CommittedLeaderId>>,
    disk: Disk,
    unwritten: Changes<CommittedLeaderId>,
}

impl Server {
    /// Takes note of what a step has changed.
    fn note(&mut self, changes: Changes<CommittedLeaderId>) {
        self.unwritten = self.unwritten.and_then(changes);
    }

    /// Writes all that is unwritten to disk, before a message leaves. These are the entries of the
    /// log from the index on from which it has changed, or more.
    fn write(&mut self, entries: &[Entry]) -> Result<(), AllocError> {
        let changes = mem::replace(&mut self.unwritten, Changes::none());
        if changes.vote {
            self.disk.vote = *self.state.vote_ref();
        }
        if let Some(from) = changes.log_from {
            self.disk.entries.truncate(from as usize);
            let known = entries.partition_point(|entry| entry.log_id.index < from);
            self.disk
                .entries
                .extend_with_clones(entries.split_at(known).1)?;
        }
        Ok(())
    }
}

/// Five servers.
#[derive(Drop)]
struct Cluster {
    servers: Vec<Server>,
    /// Whether a vote that a candidate hears in a response is written.
    writes_heard: bool,
}

/// Returns the index after a log id, or 0.
fn end(last: Id) -> usize {
    last.map_or(0, |log_id| log_id.index.saturating_add(1) as usize)
}

impl Cluster {
    /// Returns servers each of which has started the cluster with the same membership.
    fn new(alloc: Global, writes_heard: bool) -> Result<Self, HandlerError> {
        let mut servers = Vec::new(alloc);
        for id in 1..=5 {
            let mut disk = Disk::try_default(alloc)?;
            let mut state = restart_server(alloc, &disk)?;
            let nodes = (1..=5).map(|id| (id, EmptyNode::new())).collect(alloc)?;
            let members = Membership::from_nodes(alloc, nodes)?;
            disk.entries = start_cluster(&mut state, &id, members)?;
            let server = Server {
                state,
                leader: None,
                disk,
                unwritten: Changes::none(),
            };
            servers.push(server).map_err(AllocError::from)?;
        }
        Ok(Cluster {
            servers,
            writes_heard,
        })
    }

    fn at(&mut self, id: u64) -> Result<&mut Server, HandlerError> {
        let place = (id as usize).saturating_sub(1);
        self.servers.get_mut(place).ok_or(HandlerError::OutOfMemory)
    }

    /// A server campaigns past a term.
    fn campaign(&mut self, id: u64, term: u64) -> Result<Asking, HandlerError> {
        let server = self.at(id)?;
        let candidate = Candidate::campaign(id, term, &mut server.state)?;
        server.note(Changes::of_vote(true));
        server.write(&[])?;
        Ok(candidate)
    }

    /// A candidate asks a voter. If the voter refuses, the candidate takes the vote of the response.
    fn ask(&mut self, candidate: &mut Asking, voter: u64) -> Result<(), HandlerError> {
        let server = self.at(voter)?;
        let response = handle_vote_request(&mut server.state, &candidate.request());
        server.note(Changes::of_vote(response.granted));
        server.write(&[])?;
        candidate.handle_vote_response(&voter, &response);
        if !response.granted {
            let writes_heard = self.writes_heard;
            let server = self.at(candidate.id())?;
            let is_heard = server.state.promise(response.vote);
            server.note(Changes::of_vote(is_heard && writes_heard));
        }
        Ok(())
    }

    /// A server campaigns past a term, asks these voters, and leads with a blank entry if they have
    /// elected it.
    fn elect(&mut self, id: u64, term: u64, voters: [u64; 2]) -> Result<(), HandlerError> {
        let mut candidate = self.campaign(id, term)?;
        for voter in voters {
            self.ask(&mut candidate, voter)?;
        }
        let server = self.at(id)?;
        if candidate.is_elected() {
            let leader = Leader::new(&mut server.state, &candidate)?;
            let entry: Entry = leader.propose_blank(&mut server.state)?;
            server.leader = Some(leader);
            server.note(Changes::of_vote(true));
            server.note(Changes::of_entries(&entry.log_id));
            server.write(&[entry])?;
        }
        Ok(())
    }

    /// A server, if it leads, sends its next request to another one, takes the response, and commits.
    fn send(&mut self, id: u64, to: u64) -> Result<(), HandlerError> {
        let server = self.at(id)?;
        let Some(leader) = &mut server.leader else {
            return Ok(());
        };
        let next = leader.next_request(&server.state, &to, 64);
        let Some(
            InflightOf::Logs {
                id: number,
                log_id_range,
            },
        ) = next
        else {
            return Ok(());
        };
        let before = end(log_id_range.prev).min(server.disk.entries.len());
        let (_, entries) = server.disk.entries.split_at(before);
        let request = Append {
            leader_id: server.state.vote_ref().leader_id,
            request: RequestNumber::InFlight(number),
            prev: log_id_range.prev,
            entries: entries.to_vec(*server.disk.entries.allocator())?,
            committed: server.state.committed,
        };
        let follower = self.at(to)?;
        let (response, changes) = handle_append_entries(&mut follower.state, &request)?;
        follower.note(changes);
        follower.write(&request.entries)?;
        let server = self.at(id)?;
        if let Outcome::HigherVote(vote) = response.outcome {
            let is_heard = server.state.promise(vote);
            server.note(Changes::of_vote(is_heard));
            server.leader = None;
        }
        if let Some(leader) = &mut server.leader {
            leader.handle_response(&to, &response)?;
            let last = server.disk.entries.last().map(|entry| entry.log_id);
            leader.handle_flushed(&server.state, last)?;
            leader.commit(&mut server.state)?;
        }
        Ok(())
    }

    /// Server 2 hears of the leader 3 of term 3 in a refusal, and takes the leader's entry, which is
    /// committed. Then it restarts, and the leader 1 of term 2 sends it an entry and campaigns.
    fn run(&mut self, alloc: Global) -> Result<(), HandlerError> {
        let mut early = self.campaign(2, 0)?;
        self.elect(1, 1, [2, 5])?;
        self.elect(3, 2, [4, 5])?;
        self.send(3, 4)?;
        self.ask(&mut early, 4)?;
        self.send(3, 2)?;
        let server = self.at(2)?;
        server.state = restart_server(alloc, &server.disk)?;
        self.send(1, 2)?;
        self.elect(1, 3, [2, 5])?;
        self.send(1, 2)?;
        self.send(1, 5)
    }
}

/// Runs the cluster. Returns what the servers 1 and 3 have at index 1, if they know that it is
/// committed, by the term of its leader.
fn committed(
    alloc: Global,
    writes_heard: bool,
) -> Result<(Option<u64>, Option<u64>), HandlerError> {
    let mut cluster = Cluster::new(alloc, writes_heard)?;
    cluster.run(alloc)?;
    let first = term_of_first(cluster.at(1)?);
    Ok((first, term_of_first(cluster.at(3)?)))
}

/// The term of the entry at index 1, if the server knows that it is committed.
fn term_of_first(server: &Server) -> Option<u64> {
    let entry = server.disk.entries.get(1)?;
    (end(server.state.committed) > 1).then_some(entry.log_id.leader_id.term)
}

/// If a vote that is heard is written before the next message, server 1 is not elected again.
/// Otherwise two servers commit different entries at one index.
#[test]
fn a_heard_vote_is_written(rt: HostRuntime) -> Result<(), Fail> {
    assert!(rt; committed(rt.alloc(), true)? == (None, Some(3)));
    assert!(rt; committed(rt.alloc(), false)? == (Some(2), Some(3)));
    Ok(())
}
