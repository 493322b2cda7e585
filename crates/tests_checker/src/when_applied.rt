//! The checker of a cluster whose configs count once they are applied.

use crate::recorded::wrong_row;
use safety_laws::counting::ConfigsCount::WhenApplied;
use std::test::Fail;

/// Server 0 leads in term 1. It commits the config of servers 0 to 3, content 102, by a majority of
/// the initial one, servers 0 to 2. Then it writes the config of servers 0 to 4, content 103.
const WRITTEN: &str = "campaigned 0 1; granted 1 1 0; wrote 0 1 1.102; appended 0 1 0 0 1.102; \
    acked 0 1 0 1; appended 1 1 0 0 1.102; acked 1 1 0 1; committed 0 1 1 0; wrote 0 1 1.103; \
    appended 0 1 0 1 1.103; acked 0 1 0 2;";

/// Server 0 commits the config of servers 0 to 4 by a majority of servers 0 to 3, and writes a
/// command.
const COMMITTED: &str = "appended 1 1 0 1 1.103; acked 1 1 0 2; appended 3 1 0 0 1.102,1.103; \
    acked 3 1 0 2; committed 0 1 2 1; wrote 0 1 1.7; appended 0 1 0 2 1.7; acked 0 1 0 3;";

/// Servers 0, 3 and 4, a majority of servers 0 to 4, have the command, and it is committed.
const COMMAND: &str = "appended 3 1 0 2 1.7; acked 3 1 0 3; \
    appended 4 1 0 0 1.102,1.103,1.7; acked 4 1 0 3; committed 0 1 3 2;";

/// Servers 0, 3 and 4 have both configs, and the second one is not committed.
const TAKEN: &str = "appended 3 1 0 0 1.102,1.103; acked 3 1 0 2; appended 4 1 0 0 1.102,1.103; \
    acked 4 1 0 2;";

/// In term 2 server 0 has a vote of server 3, and server 1 is elected by the initial config. In
/// term 3 server 3 is elected by the config of servers 0 to 3, and commits that of servers 0 to 4.
const TERM_3: &str = "campaigned 0 2; granted 3 2 0; campaigned 1 2; granted 2 2 1; \
    wrote 1 2 2.8; campaigned 3 3; granted 0 3 3; granted 2 3 3; wrote 3 3 3.9; \
    appended 3 3 3 2 3.9; acked 3 3 3 3; appended 0 3 3 2 3.9; acked 0 3 3 3; \
    appended 2 3 3 0 1.102,1.103,3.9; acked 2 3 3 3; committed 3 3 3 1;";

/// Server 3 has votes of servers 2, 3 and 4 in term 2, which are a majority of servers 0 to 4 and
/// none of servers 0 to 3. A majority of the latter has the config of the former.
const VOTED: &str = "appended 1 1 0 1 1.103; acked 1 1 0 2; appended 3 1 0 0 1.102,1.103; \
    acked 3 1 0 2; campaigned 3 2; granted 2 2 3; granted 4 2 3;";

/// Events of the first history, events after them, and the rule that the last one breaks, or `ok`.
///
/// Server 3 is elected by the config of servers 0 to 4. Server 1 counts votes by the initial
/// config, which two configs follow in its log, and so does server 0 with acknowledgements. Server
/// 0 counts by a config that only its own commit or a later term makes known. Server 3 is elected
/// once a commit makes the config of servers 0 to 4 known.
const ROWS: [(&[&str], &str); 6] = [
    (
        &[],
        "\
campaigned 0 1; granted 1 1 0; wrote 0 1 1.102 = ok
campaigned 0 1; granted 1 1 0; wrote 0 1 1.103 = ApartConfigs
campaigned 0 1; wrote 0 1 1.102 = NotElected",
    ),
    (
        &[WRITTEN],
        "\
applied 1 1 0 1 = ok
committed 0 1 0 0 = EarlierTerm
committed 0 1 1 2 = CountedLate
committed 0 1 3 0 = NotWritten
committed 0 1 2 2 = UnknownConfig
committed 0 1 2 1 = NoQuorum
applied 1 1 0 2 = NotInLog",
    ),
    (
        &[WRITTEN, COMMITTED],
        "\
appended 1 1 0 2 1.7; acked 1 1 0 3; committed 0 1 3 0 = ConfigsFollow
appended 1 1 0 2 1.7; acked 1 1 0 3; committed 0 1 3 1 = NoQuorum
appended 1 1 0 2 1.7; acked 1 1 0 3; appended 3 1 0 2 1.7; acked 3 1 0 3; committed 0 1 3 1 = ok",
    ),
    (
        &[WRITTEN, COMMITTED, COMMAND],
        "\
campaigned 3 2; granted 4 2 3; granted 0 2 3; wrote 3 2 2.8; appended 3 2 3 3 2.8; \
    acked 3 2 3 4; appended 4 2 3 3 2.8; acked 4 2 3 4; appended 0 2 3 3 2.8; acked 0 2 3 4; \
    committed 3 2 4 2; applied 4 2 3 4 = ok
campaigned 1 2; granted 2 2 1; wrote 1 2 2.8 = NotElected",
    ),
    (
        &[WRITTEN, TAKEN],
        "\
committed 0 1 2 2 = UnknownConfig",
    ),
    (
        &[WRITTEN, TAKEN, TERM_3],
        "\
granted 4 2 0; wrote 0 2 2.10 = NotElected
committed 0 1 2 2 = UnknownConfig",
    ),
];

/// A candidate that a commit elects, and a change of all voters but one through a joint config,
/// content 100, which a leader leaves by a config of its new voters, content 101.
const ELECTED: [(&[&str], &str); 2] = [
    (
        &[WRITTEN, VOTED],
        "\
committed 0 1 2 1; wrote 3 2 2.8 = ok
committed 0 1 2 1; appended 4 2 3 0 1.102,1.103; acked 4 2 3 2 = ok
wrote 3 2 2.8 = NotElected",
    ),
    (
        &[],
        "\
campaigned 2 1; granted 1 1 2; wrote 2 1 1.100; appended 1 1 2 0 1.100; acked 1 1 2 1; \
    appended 2 1 2 0 1.100; acked 2 1 2 1; appended 3 1 2 0 1.100; acked 3 1 2 1; \
    committed 2 1 1 0; wrote 2 1 1.101; appended 1 1 2 1 1.101; acked 1 1 2 2; \
    appended 2 1 2 1 1.101; acked 2 1 2 2; appended 3 1 2 1 1.101; acked 3 1 2 2; \
    committed 2 1 2 1; wrote 2 1 1.7; appended 2 1 2 2 1.7; acked 2 1 2 3; \
    appended 3 1 2 2 1.7; acked 3 1 2 3; committed 2 1 3 2 = ok",
    ),
];

#[test]
fn takes_events_or_refuses_them_for_their_rules(rt: HostRuntime) -> Result<(), Fail> {
    for (history, rows) in ROWS {
        let wrong = wrong_row(rt.alloc(), WhenApplied, history, rows)?;
        assert!(rt; wrong.is_none(), "{}", wrong.unwrap_or(""));
    }
    Ok(())
}

#[test]
fn takes_an_election_that_a_commit_completes(rt: HostRuntime) -> Result<(), Fail> {
    for (history, rows) in ELECTED {
        let wrong = wrong_row(rt.alloc(), WhenApplied, history, rows)?;
        assert!(rt; wrong.is_none(), "{}", wrong.unwrap_or(""));
    }
    Ok(())
}
