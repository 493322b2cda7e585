//! Terms of recorded events.
ghost use Rattle.std.specs.Prelude.{◌≡◌, ◌+◌, ◌*◌, ℕ};

use raft_base::LeaderId;
use raft_base::leader_id_std::CommittedLeaderId;

/// A term, or a leader id, with its rank.
///
/// Terms are compared by their ranks. The rank of a term number is the number.
pub trait Term: Copy + Eq {
    /// The rank of a term.
    ghost rank: { Self → ℕ };

    /// Returns the rank of the term.
    fn rank(&self) -> u128
        ensures { result ≡ rank self.now };
}

impl Term for u64 {
    ghost rank = { λ t. t };

    fn rank(&self) -> u128 {
        u128::from(*self)
    }
}

/// Leader ids of a term and a node: they are compared by term, then by node.
impl Term for (u64, u64) {
    ghost rank = { λ id. id.0 * 18_446_744_073_709_551_616 + id.1 };

    fn rank(&self) -> u128 {
        let (term, node) = *self;
        u128::from(term) * 18_446_744_073_709_551_616 + u128::from(node)
    }
}

/// Leader ids of a term and a node: they are compared by term, then by node.
impl Term for LeaderId<u64> {
    ghost rank = { λ id. id.term * 18_446_744_073_709_551_616 + id.node_id };

    fn rank(&self) -> u128 {
        u128::from(self.term) * 18_446_744_073_709_551_616 + u128::from(self.node_id)
    }
}

/// Leader ids of standard Raft in log ids: they are compared by term.
impl Term for CommittedLeaderId {
    ghost rank = { λ id. id.term };

    fn rank(&self) -> u128 {
        u128::from(self.term)
    }
}
