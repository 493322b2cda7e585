//! The orders of ids, each as a function whose contract states the order.
//!
//! `<`, `max`, sorting and maps use these orders. A caller's proof can use these functions.
ghost use Rattle.std.specs.Prelude.{◌≡◌, ◌≢◌, ◌↔◌, Some, None, true, false, IsTrue};
ghost use Rattle.std.specs.declared.cmp.Ordering.TheVariants.{Less, Equal, Greater};
ghost use Rattle.std.specs.Cmp.{IsTotalOrder};
ghost use Rattle.std.specs.Ordering.{bool_cmp, is_eq};
ghost use Rattle.std.specs.Option.{option_cmp};
ghost use Rattle.raft_base.specs.LeaderId.{leader_id_cmp};
ghost use Rattle.raft_base.specs.LeaderIdStd.{std_leader_cmp, std_log_id_cmp};
ghost use Rattle.raft_base.specs.LogId.{id_le, id_lt, log_id_cmp, same_ids};
ghost use Rattle.raft_base.specs.LogIndex.{index_le, index_lt};
ghost use Rattle.raft_base.specs.Vote.{vote_cmp, default_vote_cmp};

use crate::kind::LeaderIdentity;
use crate::leader_id::LeaderId;
use crate::leader_id_std;
use crate::log_id::LogIdOf;
use crate::node::NodeId;
use crate::vote::{Vote, VoteIn};
use std::cmp::Ordering;

/// Returns how two leader ids compare: by term, then by node id.
pub fn compare_leader_ids<NID: NodeId>(a: &LeaderId<NID>, b: &LeaderId<NID>) -> Ordering
    ensures { result ≡ leader_id_cmp NID.cmp a.now b.now }
{
    a.cmp(b)
}

/// Returns how two log ids compare: by leader, then by index.
pub fn compare_log_ids<C: Ord>(a: &LogIdOf<C>, b: &LogIdOf<C>) -> Ordering
    ensures { result ≡ log_id_cmp C.cmp a.now b.now }
{
    a.cmp(b)
}

/// Whether two log ids are equal, which is exactly if neither is below the other.
pub fn same_log_ids<C: Ord>(a: &LogIdOf<C>, b: &LogIdOf<C>) -> bool
    ensures { result ≡ is_eq (log_id_cmp C.cmp a.now b.now) }
{
    a == b
}

/// Returns how two optional log ids compare. An absent one is below each present one.
pub fn compare_optional_log_ids<C: Ord>(a: &Option<LogIdOf<C>>, b: &Option<LogIdOf<C>>) -> Ordering
    ensures { result ≡ option_cmp (log_id_cmp C.cmp) a.now b.now }
{
    a.cmp(b)
}

/// Whether an optional log id is at most another one. An absent one is below each present one.
pub fn log_id_at_most<C: Ord + Copy>(a: Option<LogIdOf<C>>, b: Option<LogIdOf<C>>) -> bool
    ensures { result ≡ id_le C.cmp a b }
{
    a <= b
}

/// Whether an optional log id is below another one. An absent one is below each present one.
pub fn log_id_below<C: Ord + Copy>(a: Option<LogIdOf<C>>, b: Option<LogIdOf<C>>) -> bool
    ensures { result ≡ id_lt C.cmp a b }
{
    a < b
}

/// Whether two optional log ids are equal, or both absent.
pub fn same_optional_log_ids<C: Eq + Copy>(a: Option<LogIdOf<C>>, b: Option<LogIdOf<C>>) -> bool
    ensures { result ≡ same_ids C.eq a b }
{
    a == b
}

/// Whether an optional index is at most another one. An absent one is below each present one.
pub fn index_at_most(a: Option<u64>, b: Option<u64>) -> bool
    ensures { result ≡ index_le a b }
{
    a <= b
}

/// Whether an optional index is below another one. An absent one is below each present one.
pub fn index_below(a: Option<u64>, b: Option<u64>) -> bool
    ensures { result ≡ index_lt a b }
{
    a < b
}

/// Returns how two votes compare, for each kind of leader ids: by leader, then by whether they are
/// committed. If the leaders do not compare, a committed vote is above an uncommitted one, and the
/// result is `None` for two votes that are alike in this.
pub fn compare_votes<L: LeaderIdentity>(a: &VoteIn<L>, b: &VoteIn<L>) -> Option<Ordering>
    ensures { result ≡ vote_cmp L.order a.now b.now }
{
    a.partial_cmp(b)
}

/// Returns how two votes with the default leader ids compare. Any two do.
pub fn compare_default_votes<NID: NodeId>(a: &Vote<NID>, b: &Vote<NID>) -> Option<Ordering>
    ensures { result ≡ Some (default_vote_cmp NID.cmp a.now b.now) }
{
    a.partial_cmp(b)
}

/// Returns how two leader ids of standard Raft compare: by term, then a vote for nobody is below
/// each vote for a node. It is `None` if they do not compare.
pub fn compare_standard_leader_ids<NID: NodeId>(
    a: &leader_id_std::LeaderId<NID>,
    b: &leader_id_std::LeaderId<NID>,
) -> Option<Ordering>
    ensures { result ≡ std_leader_cmp NID.eq a.now b.now }
{
    a.partial_cmp(b)
}

/// Returns how two votes with the leader ids of standard Raft compare: by leader, then by whether
/// they are committed. If the leaders do not compare, a committed vote is above an uncommitted one,
/// and otherwise the result is `None`.
pub fn compare_standard_votes<NID: NodeId>(
    a: &leader_id_std::Vote<NID>,
    b: &leader_id_std::Vote<NID>,
) -> Option<Ordering>
    ensures leaders_decide { let leaders = std_leader_cmp NID.eq a.now.leader_id b.now.leader_id in
        leaders ≢ Some Equal → leaders ≢ None → result ≡ leaders }
    ensures equal_leaders { let leaders = std_leader_cmp NID.eq a.now.leader_id b.now.leader_id in
        leaders ≡ Some Equal → result ≡ Some (bool_cmp a.now.committed b.now.committed) }
    ensures first_alone { let leaders = std_leader_cmp NID.eq a.now.leader_id b.now.leader_id in
        leaders ≡ None → a.now.committed ≡ true → b.now.committed ≡ false → result ≡ Some Greater }
    ensures second_alone { let leaders = std_leader_cmp NID.eq a.now.leader_id b.now.leader_id in
        leaders ≡ None → a.now.committed ≡ false → b.now.committed ≡ true → result ≡ Some Less }
    ensures both_or_neither { let leaders = std_leader_cmp NID.eq a.now.leader_id b.now.leader_id in
        leaders ≡ None → a.now.committed ≡ b.now.committed → result ≡ None }
{
    a.partial_cmp(b)
}

/// Returns how two log ids of standard Raft compare: by term, then by index. Any two do.
pub fn compare_standard_log_ids(
    a: &LogIdOf<leader_id_std::CommittedLeaderId>,
    b: &LogIdOf<leader_id_std::CommittedLeaderId>,
) -> Ordering
    ensures by_term_then_index { result ≡ std_log_id_cmp a.now b.now }
    ensures total { IsTotalOrder std_log_id_cmp }
{
    a.cmp(b)
}

/// Whether two votes are equal, which is exactly if they compare as equal.
pub fn same_votes<L: LeaderIdentity>(a: &VoteIn<L>, b: &VoteIn<L>) -> bool
    ensures { IsTrue result ↔ (vote_cmp L.order a.now b.now ≡ Some Equal) }
{
    a == b
}
