//! The state of a server over any leader ids.

use raft_base::LeaderIdentity;
use raft_state::RaftStateIn;

/// The whole state of a server, whose votes are for leaders of a type `L`.
pub type State<NID, N, I, L> = RaftStateIn<NID, N, I, L, <L as LeaderIdentity>::Committed>;
