//! The checker accepts what servers do, and refuses each of these events for its rule.

use crate::recorded::wrong_row;
use safety_laws::counting::ConfigsCount::WhenAppended;
use std::test::Fail;

/// Server 0 leads in term 1 with a vote of server 1, and has an entry. Server 4, which has not
/// voted, takes the entry. Server 2, which has no entry, campaigns in term 2.
const LED: &str = "campaigned 0 1; granted 1 1 0; wrote 0 1 1.10; appended 0 1 0 0 1.10; \
    acked 0 1 0 1; appended 4 1 0 0 1.10; campaigned 2 2;";

/// Rows of events that follow `LED`, and the rule that the last one breaks, or `ok`. The vote of
/// server 4 is late, and the candidate had no entry when it campaigned. Server 4 is no voter. At
/// last a leader commits and proposes a membership, and a late vote is taken once, and a config
/// with one server more.
const AFTER_LED: &str = "\
appended 1 1 0 0 1.11 = ForeignEntries
campaigned 0 1 = CampaignedTwice
campaigned 1 1 = PassedTerm
granted 1 1 0 = PassedTerm
granted 0 2 2 = CandidateBehind
granted 4 1 0 = CandidateBehind
granted 0 2 1 = NoCampaign
appended 2 1 0 0 = PassedTerm
appended 1 1 2 0 = NotElected
appended 1 1 0 1 = MissingEntries
appended 0 1 0 0 = DropsMatching
acked 3 1 0 0 = TermNotReached
acked 1 1 0 2 = NotWritten
acked 1 1 0 1 = NotKept
restarted 0 0 = LostAcked
restarted 0 2 = MissingEntries
wrote 2 1 1.12 = NotElected
wrote 0 1 2.12 = OtherTerm
wrote 0 1 1.100 = EarlyConfig
wrote 0 1 1.101 = ApartConfigs
wrote 0 1 1.102 = EarlyConfig
wrote 0 1 1.103 = ApartConfigs
committed 0 1 0 1 = EarlierTerm
committed 0 1 1 0 = CountedEarly
committed 0 1 1 2 = NotWritten
committed 0 1 1 1 = NoQuorum
acked 4 1 0 1; committed 0 1 1 1 = NoQuorum
applied 0 2 2 0 = NotElected
applied 0 1 0 2 = NotWritten
applied 1 1 0 1 = NotInLog
applied 0 1 0 1 = NotCommitted
appended 1 1 0 0 1.10; acked 1 1 0 1; committed 0 1 1 1; applied 0 1 0 1; wrote 0 1 1.100; \
    restarted 0 1; campaigned 2 3 = ok
appended 3 1 0 0; granted 3 1 0; granted 3 1 0 = PassedTerm
appended 3 1 0 0; granted 3 1 0; appended 3 1 0 0 1.10; appended 1 1 0 0 1.10; acked 1 1 0 1; \
    committed 0 1 1 1; applied 3 1 0 1; wrote 0 1 1.102 = ok";

/// Server 2 takes two entries of server 0, the leader of term 1. It leaves terms 1 and 2, writes an
/// entry as the leader of term 3, and leaves this term too.
const LEFT: &str = "campaigned 0 1; granted 1 1 0; wrote 0 1 1.10; wrote 0 1 1.11; \
    wrote 0 1 1.12; appended 2 1 0 0 1.10; appended 2 1 0 1 1.11; campaigned 2 2; \
    campaigned 2 3; granted 1 3 2; wrote 2 3 3.13; appended 2 3 2 2 3.13; campaigned 2 4; \
    granted 1 4 2;";

/// Rows of late acknowledgements of what was kept. In some the server has lost all entries but the
/// first before, and in the last ones it has then taken the second again, in term 4.
const AFTER_LEFT: &str = "\
acked 2 1 0 2 = ok
acked 2 1 0 3 = NotKept
acked 2 3 2 3 = ok
restarted 2 1; acked 2 1 0 1 = ok
restarted 2 1; acked 2 1 0 2 = NotKept
restarted 2 1; acked 2 3 2 1 = ok
restarted 2 1; acked 2 3 2 2 = NotKept
restarted 2 1; appended 2 4 2 1 1.11; acked 2 1 0 1 = ok
restarted 2 1; appended 2 4 2 1 1.11; acked 2 1 0 2 = NotKept
restarted 2 1; appended 2 4 2 1 1.11; acked 2 3 2 2 = NotKept
restarted 2 1; appended 2 4 2 1 1.11; acked 2 4 2 2 = ok
appended 0 1 0 0 1.10,1.11; acked 0 1 0 2; acked 2 1 0 2; committed 0 1 2 3 = ok";

/// Servers 0 and 1 have committed the entry.
const COMMITTED: &str = "appended 1 1 0 0 1.10; acked 1 1 0 1; committed 0 1 1 1;";

/// Rows of a change of members after `LED` and `COMMITTED`: a leader may not go to the new config
/// without the joint one, content 100, nor before the joint one is committed, by a majority of each
/// of its configs.
const AFTER_COMMITTED: &str = "\
wrote 0 1 1.101 = ApartConfigs
wrote 0 1 1.100; wrote 0 1 1.101 = EarlyConfig
wrote 0 1 1.100; appended 0 1 0 1 1.100; acked 0 1 0 2; appended 1 1 0 1 1.100; acked 1 1 0 2; \
    committed 0 1 2 2 = NoQuorum
wrote 0 1 1.100; appended 0 1 0 1 1.100; acked 0 1 0 2; appended 1 1 0 1 1.100; acked 1 1 0 2; \
    committed 0 1 2 1 = CountedEarly";

/// Server 0 leads in term 1. Server 1 takes its two entries, acknowledges them, and then one of
/// them and a heartbeat. Server 9, which is no member, acknowledges both. Server 1 is elected in
/// term 2 by server 2. Server 0 does not know of it, and writes a third entry.
const DEPOSED: &str = "campaigned 0 1; granted 1 1 0; wrote 0 1 1.10; wrote 0 1 1.11; \
    appended 0 1 0 0 1.10,1.11; acked 0 1 0 1; appended 1 1 0 0 1.10,1.11; acked 1 1 0 2; \
    acked 1 1 0 1; acked 1 1 0 0; appended 9 1 0 0 1.10,1.11; acked 9 1 0 2; campaigned 1 2; \
    granted 9 2 1; granted 2 2 1; wrote 0 1 1.12; appended 0 1 0 2 1.12; acked 0 1 0 3;";

/// Rows after `DEPOSED`: the entry of server 0 is overwritten, and no message of term 1 is taken
/// afterwards.
const AFTER_DEPOSED: &str = "\
committed 0 1 3 3 = NoQuorum
wrote 1 2 2.20; appended 1 2 1 2 2.20; acked 1 2 1 3; appended 0 2 1 2 2.20; acked 0 2 1 3; \
    committed 1 2 3 3; applied 0 2 1 3 = ok
wrote 1 2 2.20; appended 0 2 1 2 2.20; appended 0 1 0 3 1.12 = PassedTerm";

/// Histories, and the rows after each.
const ROWS: [(&[&str], &str); 4] = [
    (&[LED], AFTER_LED),
    (&[LEFT], AFTER_LEFT),
    (&[LED, COMMITTED], AFTER_COMMITTED),
    (&[DEPOSED], AFTER_DEPOSED),
];

#[test]
fn takes_events_or_refuses_them_for_their_rules(rt: HostRuntime) -> Result<(), Fail> {
    for (history, rows) in ROWS {
        let wrong = wrong_row(rt.alloc(), WhenAppended, history, rows)?;
        assert!(rt; wrong.is_none(), "{}", wrong.unwrap_or(""));
    }
    Ok(())
}
