//! What the checker keeps of a candidate or leader.
ghost use Rattle.std.specs.Prelude.{◌≡◌, ◌∷◌, ◌&&◌, ◌||◌, ℕ, [], IfOk, OnOk, OnErr, Some, None, length, max, nat_le};
ghost use Rattle.std.specs.List.{IsDistinct, position};
ghost use Rattle.std.specs.Option.{unwrap_or};
ghost use Rattle.std.specs.Set.{is_member};
ghost use Rattle.trace_checker.specs.Inner.CheckerState.{has_acked_to};

use std::alloc::{AllocError, Global};

/// How many first entries a server has acknowledged to a leader.
pub struct Acked<N> {
    /// The server.
    pub server: N,
    /// How many first entries.
    pub len: usize,
}

// By hand, because the proof of a derived `clone` is several times as long.
impl<N: Copy> Clone for Acked<N> {
    fn clone(&self) -> Result<Self, AllocError> {
        Ok(*self)
    }
}

impl<N: Copy> Copy for Acked<N> {}

/// What the checker keeps of a candidate or leader of a term.
#[derive(Drop)]
pub struct Leader<T, N> {
    /// The term.
    pub term: T,
    /// The candidate or leader.
    pub id: N,
    /// The length of the log with which the candidate asked for votes.
    pub start: usize,
    /// The log of the leader, as `Logs` counts logs.
    pub log: usize,
    /// The servers that have voted for the candidate in time, each once.
    pub voters: Vec<N>,
    /// Whether the candidate was elected when its last vote was counted. If configs count once they
    /// are applied, a commit may elect it later.
    pub elected: bool,
    /// What servers have acknowledged to the leader.
    pub acked: Vec<Acked<N>>,
    /// How many first entries the leader has committed.
    pub committed: Option<usize>,
}

impl<T: Copy, N: Copy + Eq> Leader<T, N> {
    /// Returns what is kept of a candidate that has voted for itself, and asks for votes with this
    /// log. Whether it is elected is not known yet.
    ///
    /// # Errors
    ///
    /// Out of memory.
    pub fn new(alloc: Global, term: T, id: N, log: usize, start: usize) -> Result<Self, AllocError>
        ensures term { IfOk result (λ l. l.term ≡ term) }
        ensures id { IfOk result (λ l. l.id ≡ id) }
        ensures start { IfOk result (λ l. l.start ≡ start) }
        ensures log { IfOk result (λ l. l.log ≡ log) }
        ensures voters { IfOk result (λ l. l.voters.items ≡ id ∷ []) }
        ensures acked { IfOk result (λ l. l.acked.items ≡ []) }
        ensures committed { IfOk result (λ l. l.committed ≡ None) }
    {
        let mut voters = Vec::new(alloc);
        voters.push(id)?;
        Ok(Leader {
            term,
            id,
            start,
            log,
            voters,
            elected: false,
            acked: Vec::new(alloc),
            committed: None,
        })
    }

    /// Counts the vote of a server. Whether the candidate is elected by it is not known yet.
    ///
    /// # Errors
    ///
    /// Out of memory. The leader is then as it was.
    pub fn vote(&mut self, server: N) -> Result<(), AllocError>
        ensures voters { OnOk result ((v : N) → is_member N.eq self.new.voters.items v
            ≡ (is_member N.eq self.old.voters.items v || N.eq v server)) }
        ensures distinct { IsDistinct N.eq self.old.voters.items →
            IsDistinct N.eq self.new.voters.items }
        ensures err_voters { OnErr result (self.new.voters.items ≡ self.old.voters.items) }
        ensures rest { self.new ≡ record self.old { voters = self.new.voters } }
    {
        add_once(&mut self.voters, server)?;
        Ok(())
    }

    /// Notes whether the candidate is elected.
    pub fn elect(&mut self, elected: bool)
        ensures { self.new ≡ record self.old { elected = elected } }
    {
        self.elected = elected;
    }

    /// Writes an entry. This is the log of the leader then.
    pub fn write(&mut self, log: usize)
        ensures { self.new ≡ record self.old { log = log } }
    {
        self.log = log;
    }

    /// Counts what a server acknowledges.
    ///
    /// # Errors
    ///
    /// Out of memory. The leader is then as it was.
    pub fn ack(&mut self, server: N, len: usize) -> Result<(), AllocError>
        ensures acked { OnOk result ((v : N) (n : ℕ) → has_acked_to N.eq self.new.acked.items v n
            ≡ (has_acked_to N.eq self.old.acked.items v n || (N.eq server v && nat_le n len))) }
        ensures err_acked { OnErr result (self.new.acked.items ≡ self.old.acked.items) }
        ensures rest { self.new ≡ record self.old { acked = self.new.acked } }
    {
        match acked_at(&self.acked, server) {
            Some(i) => self.acked[i].len = self.acked[i].len.max(len),
            None => self.acked.push(Acked { server, len })?,
        }
        Ok(())
    }

    /// Returns the servers that have acknowledged so many first entries, each once.
    ///
    /// # Errors
    ///
    /// Out of memory.
    pub fn acked_to(&self, alloc: Global, len: usize) -> Result<Vec<N>, AllocError>
        ensures distinct { IfOk result (λ ids. IsDistinct N.eq ids.items) }
        ensures servers { IfOk result (λ ids. (v : N) →
            is_member N.eq ids.items v ≡ has_acked_to N.eq self.now.acked.items v len) }
    {
        let mut ids = Vec::new(alloc);
        for acked in &self.acked {
            if len <= acked.len {
                add_once(&mut ids, acked.server)?;
            }
        }
        Ok(ids)
    }

    /// Commits first entries.
    pub fn commit(&mut self, len: usize)
        ensures { self.new ≡ record self.old {
          committed = Some (max (unwrap_or self.old.committed 0) len);
        } }
    {
        let committed = self.committed.unwrap_or(0);
        self.committed = Some(committed.max(len));
    }
}

/// Returns the position of what a server has acknowledged.
fn acked_at<N: Copy + Eq>(acked: &[Acked<N>], server: N) -> Option<usize>
    ensures { result ≡ position (λ a. N.eq a.server server) acked.now }
{
    for (i, a) in acked.iter().enumerate() {
        if a.server == server {
            return Some(i);
        }
    }
    None
}

/// Adds an id to a list of distinct ids, if it is not one of them.
///
/// # Errors
///
/// Out of memory. The list is then as it was.
fn add_once<N: Copy + Eq>(ids: &mut Vec<N>, id: N) -> Result<(), AllocError>
    ensures members { OnOk result ((v : N) → is_member N.eq ids.new.items v
        ≡ (is_member N.eq ids.old.items v || N.eq v id)) }
    ensures distinct { IsDistinct N.eq ids.old.items → IsDistinct N.eq ids.new.items }
    ensures err { OnErr result (ids.new.items ≡ ids.old.items) }
{
    if !ids.contains(&id) {
        ids.push(id)?;
    }
    Ok(())
}
