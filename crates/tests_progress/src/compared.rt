//! Calls of a progress, with the results that the original, openraft 0.9.25, returned.
//!
//! A program that contains the original's own code made each progress and its calls, which were
//! drawn at random, from a fixed seed. The results are what is granted after each call, and at the
//! end the order of the entries and the numbers of updates and moves. Updates that lower a value,
//! and upgrades to a default above a value, are left out, because the original stops at them.

use crate::support::progress_rows::{Configs, play_all};
use std::test::Fail;

/// Lives over lists of voters.
const LISTS: &str = "
2,3,4,8 - 0; update 4 1 0; update 8 5 0; update 2 5 1; update 4 2 2; increase 3 0 2; \
    entries 8=5,2=5,4=2,3=0; counts 5 4
0,1,2,4,5 - 1; increase 1 6 1; update 5 2 1; update 4 2 2; update 0 6 2; update 5 5 5; \
    upgrade 0,2,3,5,6 8,7 0 1; update 6 1 1; update 6 6 5; entries 0=6,6=6,5=5,2=1,3=0,8=0,7=0; \
    counts 12 9
2,7,8 3 0; upgrade 1,0,8 2,5 0 0; update 1 1 0; update 0 2 1; update 0 5 1; update 1 4 4; \
    update 1 9 5; increase 0 6 6; update 2 8 6; entries 1=9,0=6,8=0,2=8,5=0; counts 11 6
0,2,3,4,7 - 0; update 4 2 0; update 0 5 0; update 2 3 2; increase 2 5 2; \
    entries 0=5,2=5,4=2,3=0,7=0; counts 4 4
2,4,7,8 6,0 0; increase 2 0 0; upgrade 5 7,0 0 0; update 5 5 5; update 5 5 5; increase 5 6 6; \
    update 0 2 6; increase 0 0 6; entries 5=6,7=0,0=2; counts 12 2
0,5,7 - 7; upgrade 8,2,3,0,5 4,1 0 0; upgrade 0,2,3,7,8 5,4 0 0; update 3 1 0; update 7 3 1; \
    increase 8 2 2; increase 4 0 2; update 20 1 unknown:2; entries 0=7,7=3,8=2,3=1,2=0,5=7,4=0; \
    counts 15 6
3,0,1 - 7; increase 3 9 7; update 0 10 9; update 1 12 10; increase 0 12 12; \
    update 0 18446744073709551615 12; update 1 18446744073709551615 18446744073709551615; \
    increase 3 7 18446744073709551615; upgrade 0,2,6 - 0 0; \
    entries 0=18446744073709551615,2=0,6=0; counts 10 7
4,7,8 - 7; update 7 8 7; update 8 15 8; update 4 8 8; upgrade 1,4,7 3 0 8; \
    entries 7=8,4=8,1=0,3=0; counts 6 4
2,3,4,5,7 0,1 3; update 0 11 3; increase 2 1 3; increase 20 1 unknown:3; update 2 4 3; \
    update 7 5 3; upgrade 0,2,4,8 7,6 3 3; entries 0=11,2=4,4=3,8=3,7=5,6=3; counts 12 4
2,4 - 0; increase 4 0 0; upgrade 0,5,8 3 0 0; update 3 3 0; update 8 2 0; update 8 4 0; \
    update 8 4 0; entries 8=4,0=0,5=0,3=3; counts 7 2
5,7,4 - 0; update 5 8 0; update 5 8 0; increase 4 2 2; increase 4 7 7; update 4 8 8; \
    increase 7 2 8; update 7 3 8; increase 4 8 8; entries 5=8,4=8,7=3; counts 8 4
";

/// Lives over joints of such lists.
const JOINTS: &str = "
1,4,8/0,4,8 - 1; update 4 4 1; update 0 6 1; update 0 9 1; increase 1 0 1; update 4 7 1; \
    update 1 9 7; increase 4 5 7; update 20 0 unknown:7; entries 0=9,1=9,4=7,8=1; counts 8 5
1,2,4,6 5,8 0; update 6 5 0; update 6 6 0; update 2 2 0; update 1 8 2; increase 2 7 6; \
    increase 8 0 6; update 2 8 6; increase 20 2 unknown:6; update 2 13 6; \
    entries 2=13,1=8,6=6,4=0,5=0,8=0; counts 9 7
0,4,6/5 - 3; update 0 5 3; update 0 10 3; update 4 5 3; update 5 4 4; increase 0 8 4; \
    update 4 6 4; update 0 15 4; entries 0=15,4=6,5=4,6=3; counts 7 6
0,1,3,4,7/1,4,6,7,8 2 0; update 0 1 0; increase 0 1 0; update 20 8 unknown:0; increase 8 0 0; \
    update 7 5 0; entries 7=5,0=1,1=0,3=0,4=0,6=0,8=0,2=0; counts 5 2
0,5,8/0,1,7 - 3; update 8 8 3; update 20 3 unknown:3; update 0 4 3; increase 0 2 3; update 0 6 3; \
    upgrade 0,5,8/5 4,6 3 3; update 4 11 3; update 6 11 3; entries 8=8,0=6,5=3,4=11,6=11; \
    counts 12 5
1,2/5,6,7 - 0; increase 2 0 0; update 5 0 0; increase 1 0 0; update 2 5 0; \
    entries 2=5,1=0,5=0,6=0,7=0; counts 4 1
0 - 0; update 0 3 3; increase 0 5 5; increase 0 7 7; update 0 7 7; entries 0=7; counts 4 3
0,2,6/1,6,8 - 0; update 20 2 unknown:0; upgrade 1/5 7,8 0 0; increase 1 2 0; update 5 2 2; \
    upgrade 1/1 - 1 2; update 1 2 2; update 1 3 3; update 1 5 5; update 20 2 unknown:5; \
    entries 1=5; counts 16 5
0,1,7,8/0,3 6,2 0; update 3 1 0; increase 1 0 0; increase 6 0 0; update 3 4 0; \
    upgrade 0,3/2,6,5 7 0 0; entries 3=4,0=0,2=0,5=0,6=0,7=0; counts 11 3
1,3,4,6,7/2,3,4,5,6,7,8 - 7; increase 2 12 7; upgrade 1,3,4,6,7 5 0 7; increase 7 7 7; \
    update 3 10 7; update 7 12 7; update 5 8 7; update 3 11 7; update 5 11 7; \
    entries 7=12,3=11,1=7,4=7,6=7,5=11; counts 15 7
0,2,3,4,5,6,7/1,8,4,7 - 3; update 7 4 3; update 5 5 3; increase 5 4 3; update 7 12 3; \
    update 20 5 unknown:3; upgrade 1,8,4,7/0,4,7 2 0 3; update 4 4 3; increase 1 4 4; \
    entries 7=12,4=4,1=4,0=3,8=3,2=3; counts 16 9
1,2,4,7,8/0,8 6 1; increase 6 2 1; update 2 2 1; update 4 2 1; update 8 9 1; \
    upgrade 1,2,4,7,8 - 0 2; update 1 4 2; update 7 1 2; entries 8=9,1=4,2=2,4=2,7=1; counts 13 7
1,4/1,2,4,6,7,8,18446744073709551615 0 0; increase 1 1 0; update 1 3 0; increase 1 5 0; \
    update 18446744073709551615 1 0; update 0 3 0; \
    entries 1=5,18446744073709551615=1,2=0,4=0,6=0,7=0,8=0,0=3; counts 5 4
1,2,3,4,5,6,7 8 0; update 3 2 0; upgrade 0,1/1,4 - 0 0; increase 1 0 0; increase 0 1 0; \
    upgrade 1,4/1,2,5 - 0 0; upgrade 2,4,5,6,7/0,1,4,7,8 - 0 0; update 7 2 0; \
    entries 7=2,0=0,1=0,2=0,4=0,5=0,6=0,8=0; counts 19 3
0,2,5,6,8/1,7 - 7; upgrade 1,7/0,4,7,8/0,4,7 - 0 7; upgrade 0,4,7,8/0,2,3,7,8/1,2,3,5,6 - 0 0; \
    update 5 2 0; update 20 8 unknown:0; upgrade 0,1,2,3,4,6,8/1,4,6 - 0 0; \
    entries 0=7,1=7,8=7,2=0,3=0,4=0,6=0; counts 23 12
";

#[test]
fn lives_are_those_of_the_original(rt: HostRuntime) -> Result<(), Fail> {
    play_all::<Vec<u64>>(&rt, rt.alloc(), LISTS);
    play_all::<Configs>(&rt, rt.alloc(), JOINTS);
    Ok(())
}
