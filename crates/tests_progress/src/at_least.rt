//! A progress by quorums of a stated size.

use crate::support::progress_rows::play_all;
use raft_members::quorum::AtLeast;
use std::test::Fail;

/// Two, five and six of 0 to 4. The first upgrades from two to three.
const LIVES: &str = "
2:0,1,2,3,4 - 0; update 0 5 0; update 1 3 3; update 2 4 4; update 2 10 5; update 3 6 6; \
    upgrade 3:0,1,2,3,4 - 0 5; value 0 5; value 1 3; value 2 10; value 3 6; value 4 0
5:0,1,2,3,4 - 0; update 0 5 0; update 1 3 0; update 2 4 0; update 3 6 0; update 4 2 2
6:0,1,2,3,4 - 0; update 0 5 0; update 1 3 0; update 2 4 0; update 3 6 0; update 4 2 0
";

/// Example progress 16. Quorums of two, five and six of 0 to 4. An upgrade from two to three of 0
/// to 4: granted is 5.
#[test]
fn as_many_as_needed_grant(rt: HostRuntime) -> Result<(), Fail> {
    play_all::<AtLeast<u64>>(&rt, rt.alloc(), LIVES);
    Ok(())
}
