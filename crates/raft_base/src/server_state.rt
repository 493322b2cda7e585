//! The role of a node in its cluster.
ghost use Rattle.std.specs.Prelude.{◌≡◌, ◌↔◌, IsTrue};
ghost use Rattle.raft_base.specs.declared.server_state.ServerState.TheVariants.{Candidate, Follower, Leader, Learner};

/// The role of a node in its cluster.
#[derive(Debug, Clone, Copy, PartialEq, Eq)]
pub enum ServerState {
    /// The node receives logs and does not vote. This is the default.
    Learner,
    /// The node receives logs and votes.
    Follower,
    /// The node asks for votes.
    Candidate,
    /// The node leads.
    Leader,
    /// The node has stopped.
    Shutdown,
}

// Handwritten, because its contract names the default.
impl Default for ServerState {
    ghost is_default = { λ state. state ≡ Learner };

    fn default() -> Self {
        ServerState::Learner
    }
}

impl ServerState {
    /// Whether the node is a learner.
    pub fn is_learner(&self) -> bool
        ensures { IsTrue result ↔ (self.now ≡ Learner) }
    {
        matches!(self, ServerState::Learner)
    }

    /// Whether the node is a follower.
    pub fn is_follower(&self) -> bool
        ensures { IsTrue result ↔ (self.now ≡ Follower) }
    {
        matches!(self, ServerState::Follower)
    }

    /// Whether the node is a candidate.
    pub fn is_candidate(&self) -> bool
        ensures { IsTrue result ↔ (self.now ≡ Candidate) }
    {
        matches!(self, ServerState::Candidate)
    }

    /// Whether the node is the leader.
    pub fn is_leader(&self) -> bool
        ensures { IsTrue result ↔ (self.now ≡ Leader) }
    {
        matches!(self, ServerState::Leader)
    }
}
