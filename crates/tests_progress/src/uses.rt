//! One theorem, three uses: what is granted where a value is a match, a vote, or a moment.
ghost use Rattle.raft_progress.specs.tracked.EachConfig.{MajorityOfEach};
ghost use Rattle.raft_progress.specs.tracked.Tracked.{tracked_view};
ghost use Rattle.std.specs.Prelude.{◌<◌, ◌↔◌, ◌≡◌, ◌≤◌, IsTrue, false, nat_le, ℕ};

use raft_base::{Node, NodeId};
use raft_members::quorum::Joint;
use raft_progress::laws::{granted_is_threshold, quorums_know_granted};
use raft_progress::{Progress, ProgressPart, Tracked};

/// The configs of a membership, as a quorum set.
type Configs<NID> = Joint<NID, Vec<NID>, Vec<Vec<NID>>>;

/// The commit index: an index is committed exactly where a majority of each config matches it.
fn commit_index<NID: NodeId, N: Node>(matches: &Tracked<NID, N, u64, u64>) -> u64
    ensures { (index : ℕ) → (tracked_view matches.now).progress.default_part < index →
        index ≤ result
        ↔ MajorityOfEach NID.eq (tracked_view matches.now) (λ matched. nat_le index matched) }
{
    quorums_know_granted(matches);
    granted_is_threshold::<NID, u64, u64, Configs<NID>>();
    *matches.progress().granted()
}

/// Whether a candidate is elected: exactly where a majority of each config has voted `true`.
fn is_elected<NID: NodeId, N: Node>(votes: &Tracked<NID, N, bool, bool>) -> bool
    ensures { (tracked_view votes.now).progress.default_part ≡ false → IsTrue result
        ↔ MajorityOfEach NID.eq (tracked_view votes.now) (λ voted. voted) }
{
    quorums_know_granted(votes);
    granted_is_threshold::<NID, bool, bool, Configs<NID>>();
    *votes.progress().granted()
}

/// Whether a lease from a moment on is held: exactly if a majority of each config has answered a
/// request that was sent then or later.
fn holds_lease<NID: NodeId, N: Node>(replies: &Tracked<NID, N, u64, u64>, since: u64) -> bool
    ensures { (tracked_view replies.now).progress.default_part < since → IsTrue result
        ↔ MajorityOfEach NID.eq (tracked_view replies.now) (λ last. nat_le since last) }
{
    quorums_know_granted(replies);
    granted_is_threshold::<NID, u64, u64, Configs<NID>>();
    since <= *replies.progress().granted()
}
