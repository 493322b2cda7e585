//! What the checker keeps of a server.
ghost use Rattle.std.specs.Prelude.{◌≡◌, ◌<◌, ℕ, [], OnOk, OnErr, if◌then◌else◌, max, min, nat_le};
ghost use Rattle.trace_checker.specs.Inner.CheckerState.{kept_after, kept_from};

use super::terms::Terms;
use std::alloc::{AllocError, Global};

/// What the checker keeps of a server.
#[derive(Drop)]
pub struct Server<N> {
    /// The server.
    pub id: N,
    /// The term that the server has reached, and what it has kept since its earlier terms.
    pub terms: Terms,
    /// The rank of the term in which the server has voted last, in time or late, 0 if it has not
    /// voted.
    pub voted: u128,
    /// The log of the server, as `Logs` counts logs.
    pub log: usize,
    /// How many first entries are durable.
    pub durable: usize,
}

impl<N: Copy + Eq> Server<N> {
    /// Returns what is kept of a server that has done nothing.
    pub fn new(alloc: Global, id: N) -> Self
        ensures id { result.id ≡ id }
        ensures term { result.terms.term ≡ 0 }
        ensures voted { result.voted ≡ 0 }
        ensures log { result.log ≡ 0 }
        ensures durable { result.durable ≡ 0 }
        ensures kept { result.terms.kept ≡ [] }
    {
        Server {
            id,
            terms: Terms::new(alloc),
            voted: 0,
            log: 0,
            durable: 0,
        }
    }

    /// Returns the rank of the term that the server has reached.
    pub fn term(&self) -> u128
        ensures { result ≡ self.now.terms.term }
    {
        self.terms.term()
    }

    /// How many first entries the server has kept since its term was at most this rank, if it has
    /// a log of this length now.
    pub fn kept_since(&self, rank: u128, len: usize) -> usize
        ensures { result ≡ (if nat_le self.now.terms.term rank then len
            else kept_from 0 self.now.terms.kept rank) }
    {
        self.terms.kept_since(rank, len)
    }

    /// Reserves capacity for one term more.
    ///
    /// # Errors
    ///
    /// Out of memory.
    pub fn make_room(&mut self) -> Result<(), AllocError>
        ensures room { OnOk result (0 < self.new.terms.room) }
        ensures rest { self.new ≡ record self.old {
          terms = record self.old.terms { room = self.new.terms.room };
        } }
    {
        self.terms.make_room()
    }

    /// Votes in a term, and reaches it with a log of this length.
    pub fn reach(&mut self, term: u128, len: usize)
        requires { 0 < self.old.terms.room }
        ensures term { self.new.terms.term ≡ max self.old.terms.term term }
        ensures kept { (r : ℕ) → kept_from 0 self.new.terms.kept r
            ≡ kept_after self.old.terms.kept self.old.terms.term len term r }
        ensures rest { self.new ≡ record self.old { terms = self.new.terms; voted = term } }
    {
        self.terms.reach(term, len);
        self.voted = term;
    }

    /// Votes late, in a term that the server has reached.
    pub fn vote_late(&mut self, term: u128)
        ensures { self.new ≡ record self.old { voted = term } }
    {
        self.voted = term;
    }

    /// Takes another log in place of one of this length, in a term. The logs have so many first
    /// entries in common.
    ///
    /// # Errors
    ///
    /// Out of memory. The server is then as it was.
    pub fn append(
        &mut self,
        term: u128,
        len: usize,
        log: usize,
        same: usize,
    ) -> Result<(), AllocError>
        ensures term { OnOk result (self.new.terms.term ≡ max self.old.terms.term term) }
        ensures kept { OnOk result ((r : ℕ) → kept_from 0 self.new.terms.kept r
            ≡ min (kept_after self.old.terms.kept self.old.terms.term len term r) same) }
        ensures rest { OnOk result (self.new ≡ record self.old {
          terms = self.new.terms;
          log = log;
          durable = min self.old.durable same;
        }) }
        ensures err { OnErr result (self.new ≡ record self.old {
          terms = record self.old.terms { room = self.new.terms.room };
        }) }
    {
        self.make_room()?;
        self.terms.reach(term, len);
        self.terms.keep_at_most(same);
        self.log = log;
        self.durable = self.durable.min(same);
        Ok(())
    }

    /// Acknowledges first entries.
    pub fn ack(&mut self, len: usize)
        ensures { self.new ≡ record self.old { durable = max len self.old.durable } }
    {
        self.durable = len.max(self.durable);
    }

    /// Restarts with the first entries of its log, which are this log.
    pub fn restart(&mut self, log: usize, len: usize)
        ensures term { self.new.terms.term ≡ self.old.terms.term }
        ensures kept { (r : ℕ) → kept_from 0 self.new.terms.kept r
            ≡ min (kept_from 0 self.old.terms.kept r) len }
        ensures rest { self.new ≡ record self.old {
          terms = self.new.terms;
          log = log;
          durable = min self.old.durable len;
        } }
    {
        self.terms.keep_at_most(len);
        self.log = log;
        self.durable = self.durable.min(len);
    }
}
