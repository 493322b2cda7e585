//! The vote of a node, as others read it.
ghost use Rattle.std.specs.Prelude.{◌≡◌};

use raft_base::VoteIn;

/// A value that has a node's vote. The parameter is the type of the leader ids in it.
pub trait VoteStateReader<L> {
    ghost use Rattle.raft_base.specs.declared.vote.VoteIn.{VoteIn};

    /// The vote.
    ghost vote_of: { Self → VoteIn L };

    /// Returns the vote.
    fn vote_ref(&self) -> &VoteIn<L>
        ensures { result.now ≡ vote_of self.now };
}
