//! Laws of quorums. A caller that needs one in a proof calls its function, which does nothing.
ghost use Rattle.raft_members.specs.quorum.Meeting.{MajorityHasVoter, QuorumsMeet, CoherentQuorumsMeet, EmptyConfigHasNoQuorum, NoConfigsTakeEverySet, AtLeastQuorumsMeet, NeedPastIdsHasNoQuorum, EqualConfigsHaveSameQuorums};

/// A majority of a config has one of its voters.
pub fn majority_has_voter<ID: Copy + Ord>()
    ensures { MajorityHasVoter ID.eq }
{}

/// Two quorums of the same configs share a voter, if there is a config.
///
/// So some voter of every other quorum knows what one quorum has decided.
pub fn quorums_meet<ID: Copy + Ord>()
    ensures { QuorumsMeet ID.eq }
{}

/// If two lists of configs are coherent, a quorum of one and a quorum of the other share a voter
/// that is in both lists.
///
/// So a cluster may switch from one list to the other. Every quorum of the new configs contains a
/// voter that knows what the old ones decided.
pub fn coherent_quorums_meet<ID: Copy + Ord>()
    ensures { CoherentQuorumsMeet ID.eq }
{}

/// An empty config has no quorum.
pub fn empty_config_has_no_quorum<ID: Copy + Ord>()
    ensures { EmptyConfigHasNoQuorum ID.eq }
{}

/// If there are no configs, every set is a quorum.
pub fn no_configs_take_every_set<ID: Copy + Ord>()
    ensures { NoConfigsTakeEverySet ID.eq }
{}

/// A quorum of one stated size and a quorum of another share an id if the sum of the sizes is more
/// than the number of ids: for example if 2 of 5 commit and 4 of 5 elect.
///
/// So two quorums of the same size share an id if twice the size is more than the number of ids.
/// Otherwise they need not: {0, 1} and {2, 3} are both quorums of 2 of 0 to 4.
pub fn at_least_quorums_meet<ID: Copy + Ord>()
    ensures { AtLeastQuorumsMeet ID.eq }
{}

/// If the stated size is more than the number of ids, there is no quorum.
pub fn need_past_ids_has_no_quorum<ID: Copy + Ord>()
    ensures { NeedPastIdsHasNoQuorum ID.eq }
{}

/// Equal lists of configs, such as the configs of a membership and of its clone, have the same
/// voters and quorums.
pub fn equal_configs_have_same_quorums<ID: Copy + Ord>()
    ensures { EqualConfigsHaveSameQuorums ID.eq }
{}
