//! Leader ids of standard Raft. Their order is in `order.rt`, with that of votes.

use crate::asserts::assert_row;
use raft_base::leader_id::LeaderId;
use raft_base::leader_id_std::CommittedLeaderId;

/// Two leaders of one term. Compared by term and node, as the default ids are, one is less than the
/// other; known by their term alone, they are the same. So no kind may have these leader ids with
/// these committed leader ids: the law `lesser` refuses it.
#[test]
fn a_term_does_not_tell_compared_leaders_apart(rt: HostRuntime) {
    let (one, other) = (LeaderId::new(2, 1u64), LeaderId::new(2, 2u64));
    let [term, other_term] = [one, other].map(|leader| CommittedLeaderId::new(
        leader.term,
        leader.node_id,
    ));
    assert_row(&rt, "one term", one < other && term == other_term);
}
