//! Comparisons of votes that the original, openraft 0.9.25, returned.
//!
//! The votes were drawn at random, from a fixed seed, often with the same term or the same leader,
//! and a program that contains the original's own code compared them. Two committed votes of
//! standard Raft for different nodes are left out, because the original stops at them.

use crate::asserts::assert_right;
use crate::order::wrong_of;

/// Two votes, and how the first one compares with the second one.
const VOTES: &str = "
18446744073709551614 3 yes 18446744073709551614 2 no greater
2 1 no 2 3 no less
2 0 yes 2 3 no less
18446744073709551615 1 yes 18446744073709551614 0 no greater
18446744073709551615 18446744073709551615 yes 18446744073709551615 2 yes greater
2 2 no 0 0 yes greater
0 18446744073709551615 yes 0 2 yes greater
17918438600085184951 3 no 17918438600085184951 3 no equal
2 3 yes 18446744073709551615 18446744073709551615 no less
18446744073709551614 3 no 18446744073709551614 3 no equal
18446744073709551615 1 no 18446744073709551615 1 no equal
18446744073709551614 2 yes 18446744073709551614 2 yes equal
1 2 yes 1 18446744073709551615 no less
18446744073709551615 2 yes 18446744073709551615 2 no greater
1 1 yes 2 3 yes less
0 3 no 0 2 yes greater
2 0 no 2 3 no less
1 3 yes 1 3 no greater
2 2 no 2 18446744073709551615 no less
1646794147799250336 2 no 1646794147799250336 2 no equal
18446744073709551614 0 no 18446744073709551614 0 yes less
2 0 no 18446744073709551615 0 yes less
8364786499647778723 18446744073709551615 yes 18446744073709551615 0 yes less
2 2 no 2 3 yes less
2 2 yes 18446744073709551615 3 no less
3 2 no 18446744073709551615 1 no less
1 18446744073709551615 no 1 18446744073709551615 yes less
2 3 yes 2 0 yes greater
0 2 yes 0 2 no greater
18446744073709551615 2 no 18446744073709551615 2 no equal
1 0 yes 1 2 no less
2 0 no 2 2 yes less
18446744073709551615 2 no 18446744073709551615 3 no less
3 3 no 3 3 no equal
3 18446744073709551615 yes 0 0 no greater
18446744073709551615 2 no 18446744073709551615 3 yes less
15892058348120283117 18446744073709551615 yes 15892058348120283117 1 no greater
2 2 no 2 2 no equal
1 1 yes 1 3 yes less
18446744073709551614 0 yes 18446744073709551614 3 no less
18446744073709551615 3 yes 18446744073709551615 3 no greater
1 2 no 1 0 no greater
15989784927664753299 2 no 15989784927664753299 2 yes less
9061269440386492931 2 yes 9061269440386492931 2 no greater
0 2 no 1 1 no less
1654315480989057048 1 no 1654315480989057048 3 yes less
3 2 yes 3 18446744073709551615 no less
2 3 yes 2 2 no greater
2 18446744073709551615 no 2 2 no greater
0 18446744073709551615 no 18446744073709551614 3 yes less
0 18446744073709551615 yes 3 0 no less
2 18446744073709551615 no 2 18446744073709551615 no equal
18446744073709551615 2 no 2 2 no greater
18446744073709551615 3 yes 2 3 no greater
3 3 yes 18446744073709551615 18446744073709551615 no less
2 3 no 2 0 no greater
2 0 no 1 2 no greater
3 0 no 3 3 no less
18446744073709551615 3 yes 18446744073709551615 0 yes greater
2 3 no 2 2 no greater
18446744073709551615 3 no 18446744073709551615 0 yes greater
3 3 no 3 3 yes less
7335611409863899001 3 no 7335611409863899001 18446744073709551615 no less
0 1 yes 1 1 no less
18446744073709551614 2 no 18446744073709551614 2 no equal
1 2 yes 2 0 yes less
1 2 no 1 18446744073709551615 no less
2 3 no 18446744073709551614 0 no less
2 3 yes 2 18446744073709551615 yes less
7034650604899811157 2 yes 1 0 no greater
0 3 no 0 1 yes greater
1 3 no 18446744073709551615 2 no less
1 3 no 0 0 no greater
18446744073709551615 18446744073709551615 no 2 2 yes greater
18446744073709551614 3 no 1 3 no greater
1 2 no 1 2 no equal
1 3 no 2 1 yes less
2 0 no 2 0 yes less
1 18446744073709551615 yes 1 18446744073709551615 yes equal
1 3 yes 1 3 yes equal
2 18446744073709551615 no 3 3 yes less
0 0 no 0 2 no less
0 3 no 0 3 no equal
1 3 yes 1 0 yes greater
18446744073709551615 2 yes 18446744073709551615 2 yes equal
18446744073709551614 3 yes 1 2 yes greater
2 1 no 2 18446744073709551615 yes less
2 2 yes 3 18446744073709551615 no less
2 2 yes 2 1 no greater
18446744073709551614 18446744073709551615 yes 18446744073709551614 1 no greater
";

/// Two votes of standard Raft, how the first one compares with the second one, and how the second
/// one compares with the first one.
const STANDARD_VOTES: &str = "
2 2 no 2 - yes greater less
1 - yes 1 3 no less greater
1 - yes 1 - yes equal equal
3271754303860312587 1 yes 1 1 yes greater less
1 - no 1 - no equal equal
1 - no 0 - no greater less
18446744073709551614 1 no 18446744073709551614 - no greater less
2 - no 2 - no equal equal
7491748430754449878 2 no 7491748430754449878 2 yes less greater
2 2 yes 2 18446744073709551615 no greater less
2 18446744073709551615 yes 2 3 no greater less
2 18446744073709551615 no 2 2 no none none
10568101701630440064 3 no 10568101701630440064 3 no equal equal
1 1 no 1 0 no none none
3 - no 3 18446744073709551615 yes less greater
2 2 no 18446744073709551615 2 no less greater
1 18446744073709551615 no 1 18446744073709551615 no equal equal
3 2 no 3 2 yes less greater
0 0 no 0 18446744073709551615 no none none
0 18446744073709551615 yes 0 2 no greater less
0 - yes 3 3 no less greater
2 - no 2 - yes less greater
2 - yes 2 - yes equal equal
18446744073709551614 - yes 18446744073709551614 - no greater less
18446744073709551615 3 yes 18446744073709551615 3 yes equal equal
0 - yes 0 - yes equal equal
0 - no 1 18446744073709551615 no less greater
2 3 no 2 3 yes less greater
18446744073709551614 - no 18446744073709551614 3 yes less greater
0 - no 18446744073709551614 2 no less greater
1 3 no 0 - yes greater less
1 3 no 3 - no less greater
1 - yes 1 1 yes less greater
18446744073709551615 2 yes 2 18446744073709551615 no greater less
3 3 yes 2 1 no greater less
1 18446744073709551615 no 1 0 no none none
18446744073709551614 - yes 18446744073709551614 1 yes less greater
2 0 no 2 1 yes less greater
18446744073709551615 3 no 18446744073709551615 0 no none none
1 - no 1 0 no less greater
17239106325626504096 3 no 2 18446744073709551615 yes greater less
18446744073709551614 2 no 18446744073709551615 18446744073709551615 yes less greater
2 3 yes 18446744073709551614 3 yes less greater
1 0 yes 1 0 no greater less
1 3 no 1 18446744073709551615 no none none
1 - yes 1 18446744073709551615 no less greater
0 2 yes 0 - no greater less
1 3 no 1 3 no equal equal
1 2 yes 1 - yes greater less
18446744073709551614 - yes 18446744073709551614 0 yes less greater
18446744073709551614 3 yes 18446744073709551614 3 no greater less
18446744073709551614 2 no 18446744073709551614 - no greater less
17118429825924679714 - yes 12330973704798099295 - no greater less
0 18446744073709551615 yes 0 1 no greater less
0 - no 0 3 no less greater
2 0 no 2 1 no none none
0 - yes 0 1 yes less greater
2 3 no 3 - no less greater
1 2 no 1 2 yes less greater
1 - yes 1 - no greater less
18446744073709551615 2 no 18446744073709551615 2 yes less greater
1 2 no 2 0 no less greater
1 - no 1 1 no less greater
0 - no 0 18446744073709551615 yes less greater
18446744073709551614 0 yes 18446744073709551614 - yes greater less
2476419104801423633 - no 2476419104801423633 18446744073709551615 no less greater
1 - no 1 18446744073709551615 no less greater
1 2 yes 1 2 no greater less
2 2 yes 2 2 yes equal equal
2 2 no 2 0 yes less greater
2 1 yes 2 1 no greater less
0 2 no 0 3 no none none
18446744073709551615 3 no 18446744073709551615 3 no equal equal
0 18446744073709551615 no 1 3 no less greater
3 2 yes 3 2 yes equal equal
0 3 no 0 3 no equal equal
2 1 no 2 - yes greater less
1 2 yes 1 2 yes equal equal
18446744073709551614 2 no 18446744073709551614 3 yes less greater
2 18446744073709551615 yes 2 18446744073709551615 no greater less
2 3 yes 2 3 no greater less
3 3 yes 3 - no greater less
1 18446744073709551615 no 1 - yes greater less
11823329518585920106 3 no 11823329518585920106 18446744073709551615 no none none
1 3 no 2 3 no less greater
2 0 yes 2 3 no greater less
0 2 no 0 2 yes less greater
2 1 no 2 1 no equal equal
831618627285874094 2 yes 1 3 no greater less
18446744073709551614 3 no 18446744073709551614 18446744073709551615 no none none
1 18446744073709551615 no 3 3 yes less greater
1 2 no 1 3 no none none
0 3 yes 0 3 no greater less
18446744073709551615 2 no 1 - no greater less
2 - no 2 3 no less greater
1 - no 1 3 yes less greater
0 - no 0 - no equal equal
1 3 yes 1 - no greater less
18446744073709551614 2 no 8499709248002931398 0 yes greater less
3 1 no 3 1 no equal equal
8338711753623964726 2 no 8338711753623964726 - yes greater less
1 0 no 1 - no greater less
15831212527361360804 3 yes 15831212527361360804 - no greater less
2 3 no 18446744073709551615 - no less greater
18446744073709551615 2 yes 18446744073709551615 18446744073709551615 no greater less
11369030038975804724 3 yes 11369030038975804724 3 yes equal equal
7385848721677047705 1 no 7385848721677047705 1 yes less greater
18446744073709551614 - no 18446744073709551614 - yes less greater
1 1 no 1 1 no equal equal
3 1 yes 3 2 no greater less
";

#[test]
fn votes_compare_as_those_of_the_original(rt: HostRuntime) {
    for (name, rows) in [
        ("comparison of votes", VOTES),
        ("comparison of standard votes", STANDARD_VOTES),
    ] {
        for row in rows.trim().lines() {
            assert_right(&rt, row, wrong_of(name, row));
        }
    }
}
