//! Calls of a whole state and of its memberships, with the results that the original, openraft
//! 0.9.25, returned.
//!
//! The calls and the states were drawn at random, from a fixed seed, and a program that contains
//! the original's own code made each call over both kinds of leader ids, with the same results. Here
//! they are compared over the default leader ids. Calls outside of their preconditions are left out.
//! In the original a state has no call that appends entries, truncates the log or installs a
//! snapshot, so there are none of these here.

use crate::lives::make;
use crate::membership_state::all_right;
use crate::support::asserts::assert_row;
use crate::support::memory::put;
use crate::support::states::{DefaultState, log_of, state};
use crate::whole_state::{has_before, validates};
use raft_base::LogStateReader;
use std::alloc::{AllocError, Global};
use std::test::Fail;
use tests_support::memory::{is_yes, with_made};
use tests_support::words::{log_id, log_ids, number, words};

/// A call with its argument, `ok` unless it is a commit of nothing new, the keys of the log before
/// and after the call, and the rows of the state before and after the call. What stands once is the
/// same after the call.
const CHANGES: &str = "\
    extend 4.0,4.1,4.2,4.3 ok - 4.0,4.3 | 0 - - - - -; extend - ok 2.0,2.1 | 1 2.0 2.1 2.0 2.0 \
    2.0; extend - ok 0.0,2.3,3.5 | 0 2.3 3.5 2.4 2.4 2.4; extend 6.14,6.15,6.16,6.17,6.18 ok \
    1.5,3.8,5.11,6.13 1.5,3.8,5.11,6.13,6.18 | 6 5.11 6.13 5.11 3.9 3.9; extend 0.3,0.4 ok 0.2 \
    0.2,0.4 | 3 0.2 0.2 0.2 0.2 0.2; extend 4.8 ok 2.0,3.2,4.4,4.7 2.0,3.2,4.4,4.8 | 1 3.2 4.7 \
    3.3 3.3 3.3; extend 8.9,8.10,8.11,9.12,9.13 ok 2.2,3.5,4.6,6.8 2.2,3.5,4.6,6.8,8.9,9.12,9.13 \
    | 3 2.3 4.6 2.3 3.5 6.8; extend 1.4,2.5,2.6,2.7,2.8 ok 0.3 0.3,1.4,2.5,2.8 | 4 0.3 0.3 0.3 \
    0.3 0.3; extend 2.3,2.4,2.5,2.6 ok 1.0,2.2 1.0,2.2,2.6 | 1 1.1 2.2 1.1 1.1 1.1; extend \
    2.4,3.5,4.6,5.7 ok 0.0,0.3 0.0,2.4,3.5,4.6,5.7 | 0 0.0 0.1 0.0 0.0 0.0; extend 7.9,7.10 ok \
    1.3,3.4,5.7,5.8 1.3,3.4,5.7,7.9,7.10 | 4 3.6 5.8 5.7 5.7 5.7; extend 1.3,1.4,1.5,1.6,1.7 ok \
    1.0,1.2 1.0,1.7 | 0 1.0 1.2 1.0 1.1 1.1; extend 6.9,6.10,6.11,6.12 ok 2.4,4.5,4.8 \
    2.4,4.5,6.9,6.12 | 5 2.4 4.7 4.5 2.4 4.8; extend 6.9 ok 1.0,2.1,4.4,6.7,6.8 \
    1.0,2.1,4.4,6.7,6.9 | 0 2.2 4.4 2.3 4.4 4.6; extend 2.6,2.7,2.8 ok 0.0,1.3,2.5 \
    0.0,1.3,2.5,2.8 | 1 0.0 0.2 0.2 0.2 0.2; extend 1.3,1.4,1.5,1.6,1.7 ok - 1.3,1.7 | 0 - - - - \
    -; extend 2.3,2.4,3.5,3.6,4.7 ok 0.0,2.2 0.0,2.2,3.5,4.7 | 0 0.0 0.1 0.0 0.1 2.2; extend \
    6.9,6.10,6.11,7.12 ok 1.0,3.2,5.5,6.8 1.0,3.2,5.5,6.8,7.12 | 0 3.2 5.5 3.4 3.3 3.3; extend \
    6.10,7.11 ok 1.0,2.2,3.4,4.6,4.9 1.0,2.2,3.4,4.6,6.10,7.11 | 0 2.2 3.5 3.4 3.4 3.4; extend \
    4.6,4.7,4.8,4.9 ok 1.0,3.1,4.3,4.5 1.0,3.1,4.3,4.9 | 1 3.1 4.3 3.2 3.1 3.1; extend 6.4,7.5 ok \
    2.2,4.3 2.2,4.3,6.4,7.5 | 3 2.2 4.3 2.2 2.2 2.2; extend 0.0,0.1,0.2,0.3,0.4 ok - 0.0,0.4 | 0 \
    - - - - -; extend 7.15,7.16,7.17 ok 2.5,3.7,5.10,6.12,6.14 2.5,3.7,5.10,6.12,7.15,7.17 | 6 \
    2.5 6.14 5.10 2.5 2.5; extend 3.3 ok 2.0,3.2 2.0,3.2,3.3 | 0 - 2.0 2.0 - -; extend - ok \
    0.5,0.8 | 6 0.5 0.7 0.6 0.6 0.6; extend 3.4,3.5,3.6,3.7 ok 0.0,2.2,2.3 0.0,2.2,3.4,3.7 | 0 \
    0.0 2.3 2.2 - -; extend 7.9 ok 0.0,2.1,4.4,5.7,5.8 0.0,2.1,4.4,5.7,7.9 | 0 2.2 5.8 5.8 4.6 \
    4.6; extend 4.3 ok 1.0,3.1,4.2 1.0,3.1,4.2,4.3 | 1 1.0 4.2 4.2 3.1 3.1; extend 6.8,6.9,6.10 \
    ok 1.2,2.4,3.6,5.7 1.2,2.4,3.6,5.7,6.8,6.10 | 3 1.2 2.5 2.4 2.5 3.6; extend 0.0 ok - 0.0 | 0 \
    - - - - -; extend 2.7 ok 2.3,2.6 2.3,2.7 | 4 2.6 2.6 2.6 2.5 2.5; extend 2.0 ok - 2.0 | 0 - - \
    - - -; extend 5.11,5.12,5.13,5.14 ok 2.5,3.8,5.10 2.5,3.8,5.10,5.14 | 6 3.8 3.9 3.9 3.8 5.10; \
    extend - ok 2.3,4.4,5.5,7.7,7.10 | 4 2.3 7.9 4.4 2.3 2.3; commit 1.0 no 1.0,3.2,5.4,5.5 | 0 \
    3.3 5.4 3.3 1.0 1.0; commit 1.2 ok 1.0,1.3 | 0 - 1.1 1.0 1.1 1.1 | 0 - 1.2 1.0 1.1 1.1; \
    commit 7.4 no 2.0,4.2,5.3,7.4,7.6 | 0 2.0 7.5 4.2 7.5 7.5; commit 2.5 no 1.2,2.3,2.5 | 3 2.4 \
    2.5 2.5 2.4 2.4; commit 5.10 no 2.3,3.4,4.7,5.8,5.10 | 4 3.6 5.10 5.8 3.5 3.5; commit 0.0 no \
    0.0,2.1,4.4,5.5,5.6 | 1 2.1 5.5 2.3 5.5 5.5; commit 3.2 no 2.0,3.2,4.4 | 0 2.0 3.3 2.1 3.2 \
    3.2; commit 1.4 no 1.4 | 5 1.4 1.4 1.4 1.4 1.4; commit 4.7 ok 0.0,1.2,3.3,4.5,4.7 | 0 - 3.3 \
    0.0 0.1 0.1 | 0 - 4.7 0.0 0.1 0.1; commit 2.7 no 0.0,1.3,2.5,2.7 | 1 0.0 2.7 0.2 0.0 0.0; \
    commit 4.4 no 1.0,2.1,4.3,6.6 | 1 2.1 4.4 4.4 2.2 2.2; commit - no 2.3,4.6,6.7,8.9,8.11 | 4 \
    2.3 6.8 6.7 2.4 2.4; commit 0.4 no 0.1,0.4 | 2 0.2 0.4 0.4 0.4 0.4; commit 3.9 no 1.4,2.6,3.9 \
    | 5 1.4 3.9 2.6 2.6 2.6; commit - no 2.4,3.5,3.7 | 5 3.6 3.7 3.6 3.5 3.5; commit 6.11 ok \
    1.3,3.4,5.7,6.10,6.13 | 4 3.4 3.4 3.4 3.4 5.7 | 4 3.4 6.11 3.4 5.7 5.7; commit 3.3 no 1.1,3.3 \
    | 2 1.2 3.3 1.2 3.3 3.3; commit 6.5 no 2.0,4.2,6.5,6.7 | 0 2.0 6.7 2.1 - -; commit 4.4 ok \
    0.0,2.1,3.2,4.4 | 0 - 2.1 2.1 2.1 2.1 | 0 - 4.4 2.1 2.1 2.1; commit 5.9 ok \
    2.1,3.4,4.6,5.7,5.9 | 2 2.2 5.7 5.7 3.4 3.4 | 2 2.2 5.9 5.7 3.4 3.4; commit 1.1 no 0.0,1.1 | \
    0 - 1.1 - 1.1 1.1; commit 1.5 no 1.5,3.6,3.9 | 6 3.6 3.8 3.7 1.5 1.5; commit 0.1 no 0.0,0.2 | \
    0 0.1 0.2 0.2 0.2 0.2; commit 1.6 no 0.4,1.6,3.9,4.12,4.15 | 5 1.7 3.9 1.7 1.8 4.13; commit \
    3.5 ok 1.1,3.3,5.6 | 2 1.1 3.3 1.1 1.2 1.2 | 2 1.1 3.5 1.1 1.2 1.2; commit 0.6 no 0.5,2.7 | 6 \
    0.5 2.7 0.6 0.6 0.6; commit 2.0 no 2.0,2.1 | 0 - 2.1 2.0 2.0 2.0; commit 2.0 no \
    2.0,3.2,5.4,5.6 | 0 5.4 5.6 5.6 5.4 5.4; commit 1.8 no 0.5,1.8,2.9 | 6 1.8 2.9 2.9 0.7 0.7; \
    commit 4.3 no 2.0,4.3,4.4 | 1 2.0 4.3 2.1 2.2 4.4; commit 0.1 no 0.0,0.1 | 0 0.0 0.1 0.1 - -; \
    commit 1.1 no 1.1,2.4,4.5,6.6 | 2 1.1 6.6 2.4 2.4 2.4; commit 1.1 no 1.0,2.2,4.4,6.5 | 1 1.0 \
    2.2 1.0 1.1 1.1; commit 3.4 no 1.3,3.4,3.7 | 4 1.3 3.6 3.4 3.4 3.4; purge 3.8 ok \
    1.4,2.6,3.8,4.10,4.13 3.8,4.10,4.13 | 5 2.6 4.12 2.7 1.4 4.13 | 9 2.6 4.12 2.7 1.4 4.13; \
    purge 3.5 ok 1.0,2.2,3.5,3.7 3.5,3.7 | 0 1.1 3.6 3.5 1.0 3.7 | 6 1.1 3.6 3.5 1.0 3.7; purge \
    1.4 ok 1.4,2.5,2.6 | 5 1.4 2.5 1.4 1.4 1.4; purge 4.11 ok 2.5,3.8,4.9,4.11 4.11 | 6 2.7 4.11 \
    3.8 4.11 4.11 | 12 2.7 4.11 3.8 4.11 4.11; purge 1.5 ok 0.2,1.4,2.7,4.8,4.11 1.5,2.7,4.8,4.11 \
    | 3 0.2 4.11 4.11 2.7 2.7 | 6 0.2 4.11 4.11 2.7 2.7; purge 3.2 ok - 3.2 | 0 - - - - - | 3 - - \
    - - -; purge 3.0 ok - 3.0 | 0 - - - - - | 1 - - - - -; purge 2.2 ok 2.2,2.5 | 3 2.3 2.5 2.4 \
    2.5 2.5; purge 3.3 ok - 3.3 | 0 - - - - - | 4 - - - - -; purge 0.1 ok - 0.1 | 0 - - - - - | 2 \
    - - - - -; purge 4.4 ok 1.0,3.1,4.2,4.5 4.4,4.5 | 0 4.2 4.5 4.4 4.3 4.3 | 5 4.2 4.5 4.4 4.3 \
    4.3; purge 2.1 ok 2.1,3.2,4.3,6.4,6.6 | 2 6.4 6.5 6.5 6.5 6.5; purge 5.9 ok 2.4,3.5,5.6,5.9 \
    5.9 | 5 5.7 5.9 5.9 5.6 5.6 | 10 5.7 5.9 5.9 5.6 5.6; purge 2.0 ok 2.0,2.1 | 0 - - - - 2.1 | \
    1 - - - - 2.1; purge 0.0 ok 0.0,1.1 | 0 0.0 1.1 0.0 0.0 0.0 | 1 0.0 1.1 0.0 0.0 0.0; purge \
    3.12 ok 1.4,2.7,2.9 3.12 | 5 2.8 2.9 2.8 1.4 1.4 | 13 2.8 2.9 2.8 1.4 1.4; purge 3.7 ok \
    0.0,2.3,2.5 3.7 | 0 0.1 2.4 2.3 2.3 2.3 | 8 0.1 2.4 2.3 2.3 2.3; purge 2.4 ok 2.4,4.6 | 5 2.4 \
    2.5 2.5 2.4 2.4; purge 4.2 ok 2.0,4.1,4.2 4.2 | 0 - 4.2 2.0 - - | 3 - 4.2 2.0 - -; purge 2.8 \
    ok 0.3,2.6,2.9 2.8,2.9 | 4 0.4 2.9 2.6 2.8 2.8 | 9 0.4 2.9 2.6 2.8 2.8; purge 0.1 ok 0.0,0.1 \
    0.1 | 0 - 0.1 0.1 0.1 0.1 | 2 - 0.1 0.1 0.1 0.1; purge 3.4 ok 1.1,3.2,3.4 3.4 | 2 3.2 3.3 3.3 \
    1.1 3.4 | 5 3.2 3.3 3.3 1.1 3.4; purge 1.6 ok 1.5,3.7 1.6,3.7 | 6 1.5 3.7 1.5 1.6 1.6 | 7 1.5 \
    3.7 1.5 1.6 1.6; purge 1.1 ok 0.0,1.1,1.4 1.1,1.4 | 0 0.0 1.4 1.2 1.3 1.3 | 2 0.0 1.4 1.2 1.3 \
    1.3; purge 2.5 ok 2.5 | 6 2.5 2.5 2.5 2.5 2.5; purge 1.3 ok 0.0,1.1,3.4 1.3,3.4 | 1 1.3 3.4 \
    3.4 1.3 1.3 | 4 1.3 3.4 3.4 1.3 1.3; purge 1.5 ok 1.5,1.7 | 6 1.5 1.7 1.6 1.5 1.5; purge 1.9 \
    ok 0.5,1.7,1.10 1.9,1.10 | 6 1.7 1.10 1.10 1.8 1.8 | 10 1.7 1.10 1.10 1.8 1.8; purge 0.3 ok - \
    0.3 | 0 - - - - - | 4 - - - - -; purge 4.9 ok 2.5,4.8,6.10,6.11 4.9,6.10,6.11 | 6 4.8 6.10 \
    4.9 4.9 4.9 | 10 4.8 6.10 4.9 4.9 4.9; purge 5.11 ok 1.5,3.6,5.7 5.11 | 6 1.5 3.6 3.6 3.6 5.7 \
    | 12 1.5 3.6 3.6 3.6 5.7; purge 1.4 ok 0.2,1.3,1.5 1.4,1.5 | 3 1.3 1.5 1.5 0.2 0.2 | 5 1.3 \
    1.5 1.5 0.2 0.2; purge 2.12 ok 0.5,0.8 2.12 | 6 0.5 0.8 0.7 0.6 0.6 | 13 0.5 0.8 0.7 0.6 0.6; \
    purge 0.3 ok 0.3,2.4,4.6,5.7,5.10 | 4 0.3 5.9 5.9 2.4 5.10";

/// A read with its argument, the result, the keys of the log, and the row of the state.
const READS: &str = "\
    get 1 - 0.3,0.5 | 4 0.3 0.5 0.4 0.5 0.5; get 0 0.0 0.0,1.2 | 0 - 0.1 0.1 0.0 0.0; get 8 - \
    2.0,4.3,6.4,6.7 | 0 - 2.1 - 2.0 2.0; get 1 0.1 0.1 | 2 0.1 0.1 0.1 0.1 0.1; get 0 - - | 0 - - \
    - - -; get 3 - 2.0,2.2 | 0 - - - - -; get 5 3.5 0.0,2.2,3.5,4.6 | 0 0.0 4.6 2.4 0.0 0.0; get \
    7 - 0.1,1.2,2.5,2.6 | 2 1.3 2.5 2.5 1.3 1.3; get 3 - 2.0,3.2 | 0 - 2.0 - 2.0 2.1; get 3 1.3 \
    0.0,1.3,3.6,4.7 | 0 0.0 1.5 1.3 - -; get 0 2.0 2.0,4.2,6.3,7.6 | 0 6.4 7.6 7.6 4.2 4.2; get 7 \
    2.7 1.4,2.7,4.8,5.10 | 5 1.4 4.9 1.4 1.4 1.4; get 0 2.0 2.0,4.2,5.5,7.6 | 0 - 4.4 4.2 2.1 \
    7.6; get 1 2.1 2.0,2.1 | 1 2.0 2.1 2.0 2.1 2.1; get 4 - 1.0,2.1,3.2 | 0 - 3.2 1.0 2.1 2.1; \
    get 2 2.2 0.0,2.1,4.3 | 1 2.1 4.3 4.3 4.3 4.3; get 10 5.10 2.3,4.4,5.7,5.10 | 4 4.5 5.10 5.9 \
    4.5 4.5; get 1 - 1.0 | 0 - 1.0 1.0 1.0 1.0; get 2 1.2 1.2,2.3,2.4 | 3 2.3 2.4 2.4 1.2 1.2; \
    get 6 3.6 2.4,3.6 | 5 2.4 2.4 2.4 2.4 2.4; prev 3 - 1.3,1.6 | 4 1.3 1.6 1.5 1.4 1.4; prev 2 \
    1.1 1.0,3.2,5.5 | 0 - 5.5 3.4 1.0 1.0; prev 1 - - | 0 - - - - -; prev 6 2.5 2.5,4.8,6.9 | 6 \
    2.5 2.6 2.6 2.6 4.8; prev 7 - 0.2,0.5 | 3 0.3 0.5 0.4 0.4 0.4; prev 0 - 0.0,2.3,3.6,5.8,5.10 \
    | 1 2.3 5.9 2.4 0.0 5.10; prev 5 2.4 2.3,3.5,4.7 | 4 3.5 3.6 3.5 2.4 2.4; prev 9 5.8 \
    0.3,1.4,3.5,5.8 | 4 0.3 5.8 0.3 0.3 0.3; prev 5 3.4 2.1,3.3,3.6 | 2 2.1 3.6 3.3 2.1 2.1; prev \
    0 - - | 0 - - - - -; prev 10 7.9 2.0,3.3,5.5,7.6,7.9 | 0 3.3 7.7 5.5 7.7 7.7; prev 0 - \
    0.0,0.1 | 0 - 0.1 0.0 0.0 0.0; prev 2 1.1 1.0,1.1 | 0 1.0 1.1 1.0 1.0 1.0; prev 2 - \
    0.3,2.4,3.5 | 4 0.3 3.5 2.4 3.5 3.5; has 2.5 true 2.5,4.6,5.7 | 6 2.5 5.7 2.5 4.6 4.6; has \
    4.2 true 1.0,2.2,3.5,4.7,4.9 | 0 2.2 4.7 2.2 2.4 4.9; has 3.5 true 2.5,3.7,5.8 | 6 2.6 3.7 \
    2.6 3.7 3.7; has 1.5 true 1.5,3.8,4.10,4.13 | 6 3.8 4.11 3.8 1.6 4.13; has 2.2 true \
    2.2,3.3,4.6,4.9 | 3 2.2 3.4 3.3 2.2 4.8; has 1.5 true 1.5,1.7 | 6 1.6 1.6 1.6 1.6 1.7; has \
    0.1 true 0.0,0.3 | 0 0.0 0.3 0.1 - -; has 2.8 true 0.5,2.8,4.10,6.11 | 6 0.6 4.10 4.10 0.7 \
    6.11; has 3.0 true 1.2,3.4,4.7,4.9 | 3 1.2 4.9 1.3 4.7 4.7; has 1.1 true 1.1,1.4 | 2 1.3 1.4 \
    1.3 1.1 1.1; has 0.1 true 0.1,1.2 | 2 0.1 1.2 0.1 0.1 0.1; has 2.4 true 2.0,4.3,5.6,5.9 | 0 \
    2.2 4.4 2.2 2.0 2.0; has 1.0 true 1.0 | 0 - 1.0 - - -; has 2.4 true 2.2,4.5 | 3 4.5 4.5 4.5 \
    2.2 2.2; has 6.0 false - | 0 - - - - -; has 2.1 true 2.1,3.4,5.5,5.7 | 2 2.3 5.7 2.3 5.7 5.7; \
    has 3.2 true 0.5,2.7,3.9,3.11 | 6 3.9 3.10 3.9 0.5 3.11; has 2.7 true 1.5,2.7,4.10,6.13 | 6 \
    1.5 6.13 6.13 2.8 2.8; has 4.3 true 0.0,2.1,4.2,4.3 | 0 - 4.3 4.2 2.1 2.1; has 1.5 true \
    1.3,3.6,4.9,4.10 | 4 3.6 4.10 3.8 4.10 4.10; lacks 3.9,4.10 2 0.3,2.6,3.8,4.10 | 4 3.8 4.10 \
    4.10 0.4 0.4; lacks 0.4 1 1.5,3.8,4.10 | 6 1.5 3.8 1.6 1.6 1.6; lacks 4.1 0 1.0 | 0 - 1.0 1.0 \
    1.0 1.0; lacks 2.0 1 2.0,4.1,5.3,7.4 | 1 4.1 7.4 4.2 4.2 4.2; lacks 5.10,6.11 2 \
    1.2,3.5,5.8,6.11 | 3 1.3 6.11 5.10 5.9 5.9; lacks 3.5,3.6,3.7 2 0.0,1.2,3.4,3.6 | 0 - 3.5 - \
    3.4 3.6; lacks 1.1 1 1.0,3.2 | 0 - 3.2 1.1 - -; lacks 0.2,0.3 2 0.3,0.6 | 4 0.3 0.6 0.4 0.5 \
    0.5; lacks 6.7,6.8 1 1.0,3.1,5.3,6.5,6.7 | 0 1.0 5.4 5.3 - -; lacks 1.3 0 2.0,2.2 | 1 2.1 2.1 \
    2.1 2.0 2.0; lacks 1.1,2.2,2.3,2.4 4 1.0,2.3,4.5,6.8,6.9 | 0 2.4 4.6 2.4 4.6 4.6; lacks \
    3.2,4.3 1 2.0,3.1,3.2 | 0 - 2.0 2.0 - -; lacks 0.0,1.1 2 0.0,2.1,3.4,4.5 | 0 2.2 3.4 3.4 2.3 \
    2.3; lacks 3.7 0 0.4,0.6 | 5 0.5 0.6 0.5 0.5 0.5; lacks 1.1 1 1.2 | 3 1.2 1.2 1.2 1.2 1.2; \
    lacks 1.2 1 0.3,1.6,2.8 | 4 0.4 1.7 1.7 0.3 0.3; lacks 2.0 1 1.0,3.1,3.3 | 0 - 3.1 1.0 3.1 \
    3.1; lacks 1.1,2.2,2.3,2.4 2 1.0,2.2 | 1 1.1 2.2 1.1 1.1 1.1; lacks 4.8,5.9,5.10 0 \
    0.0,1.3,3.6,3.7 | 0 - 3.6 1.3 0.1 3.7; lacks 3.1,3.2,3.3 0 0.0 | 0 - 0.0 - 0.0 0.0; lacks \
    1.9,1.10,1.11,2.12 0 2.3,4.6,4.8 | 4 4.6 4.7 4.7 2.4 4.8; lacks 0.4,1.5 0 1.3 | 4 1.3 1.3 1.3 \
    1.3 1.3; purged - 1.3 1.3,2.4,4.5,4.7 | 4 4.5 4.7 4.5 4.5 4.5; purged - - - | 0 - - - - -; \
    purged - 0.5 0.5 | 6 0.5 0.5 0.5 0.5 0.5; purged - 1.3 1.3,3.4,3.7 | 4 3.5 3.6 3.5 3.5 3.5; \
    purged - - 2.0,2.2 | 0 - 2.2 2.1 - -; purged - 2.4 2.4,4.5,5.8 | 5 2.4 4.6 2.4 4.6 4.6; \
    purged - - 0.0 | 0 - 0.0 - - -; purged - 2.2 2.2,3.3,5.5 | 3 2.2 5.5 3.4 3.3 3.3";

/// Rows of states, whose log has the keys (1,1) and (3,4), and the first relation that each breaks.
const RELATIONS: &str = "\
    3 1.1 1.2 - 3.0 3.5 PurgedNext; 2 1.1 3.4 1.1 - 2.2 ok; 0 - 1.3 1.3 1.1 2.3 PurgedNext; 2 1.1 \
    1.3 - 1.3 3.5 ok; 0 1.1 1.3 - 1.1 1.2 PurgedNext; 2 1.1 1.3 1.1 3.0 2.2 MembershipLogId; 1 \
    1.5 3.4 2.3 1.1 - PurgedNext; 2 1.1 3.4 1.1 1.1 3.4 ok; 2 - 1.1 1.2 3.4 - LastPurgedPastUpto; \
    2 1.1 1.3 1.3 3.4 3.4 ok; 3 1.1 1.1 - 3.4 1.2 PurgedNext; 1 1.2 3.4 3.4 1.2 1.1 PurgedNext; 2 \
    1.2 1.3 1.2 3.4 3.5 ok; 2 3.4 1.2 - 3.0 1.2 UptoPastCommitted; 2 - - 3.4 2.2 1.1 \
    LastPurgedPastUpto; 2 1.1 3.4 3.4 1.2 2.3 ok; 2 1.1 1.1 - 2.2 1.3 MembershipLogId; 2 3.5 3.0 \
    3.5 3.5 1.1 SnapshotPastCommitted; 2 1.1 1.1 3.4 3.4 3.4 SnapshotPastCommitted; 2 1.1 3.4 - \
    1.1 1.3 ok; 2 1.1 1.2 1.1 3.0 2.3 MembershipLogId; 2 1.1 3.4 - - 3.4 ok; 2 3.0 2.2 1.3 1.5 \
    3.4 UptoPastSnapshot; 2 3.4 3.4 1.1 1.2 1.2 UptoPastSnapshot; 2 1.1 1.3 - 1.5 1.1 \
    MembershipLogId; 2 1.3 3.4 3.4 3.0 1.2 MembershipLogId; 2 3.4 3.5 2.3 2.2 1.2 \
    UptoPastSnapshot; 2 1.1 1.1 1.1 3.0 3.4 ok; 2 3.4 1.1 3.5 1.1 - SnapshotPastCommitted; 2 1.1 \
    1.2 - 3.5 2.2 MembershipLogId; 2 3.4 2.2 1.3 1.3 3.5 UptoPastSnapshot; 2 1.1 1.3 1.2 1.1 1.2 \
    ok; 2 1.2 1.3 1.3 3.4 3.4 ok; 2 1.2 3.4 1.3 1.1 3.4 ok; 2 1.1 1.3 1.1 2.2 3.5 ok; 2 1.5 - - \
    2.3 2.3 UptoPastCommitted; 2 1.1 2.3 3.4 3.0 3.4 SnapshotPastCommitted; 2 1.1 3.4 - 1.2 3.4 \
    ok; 2 3.4 1.3 2.2 1.1 3.4 UptoPastSnapshot; 2 1.3 3.4 3.4 1.1 3.0 MembershipIndex; 2 1.2 1.1 \
    2.2 1.3 3.5 SnapshotPastCommitted; 2 1.3 2.2 1.1 2.3 1.1 UptoPastSnapshot; 2 1.3 1.3 3.5 3.4 \
    2.2 SnapshotPastCommitted; 2 1.1 1.3 1.1 1.2 3.0 MembershipIndex; 2 1.1 3.4 - 1.5 2.3 \
    MembershipIndex; 2 1.5 3.5 3.4 3.4 3.4 CommittedPastLast; 2 3.5 1.1 - 3.4 1.5 \
    UptoPastCommitted; 2 1.2 1.2 1.2 2.2 3.0 MembershipIndex";

/// Calls of the memberships that `membership_state` begins with, in the words of its rows.
const MOVES: &str = "\
    commit 0.12 - none - 1.1 2.10 ok; commit 0.7 - none - 1.1 2.10 ok; commit 3.11 - none - 2.10 \
    2.10 ok; commit 2.2 - none - 1.1 2.10 ok; commit 0.3 - none - 1.1 2.10 ok; commit 2.5 - none \
    - 1.1 2.10 ok; commit 1.3 - none - 1.1 2.10 ok; commit 1.8 - none - 1.1 2.10 ok; commit 2.10 \
    - none - 2.10 2.10 ok; commit 0.10 - none - 1.1 2.10 ok; commit 2.12 - none - 2.10 2.10 ok; \
    commit 4.11 - none - 2.10 2.10 ok; commit 1.9 - none - 1.1 2.10 ok; commit 0.8 - none - 1.1 \
    2.10 ok; append - 2.13 1,2/2,3 - 2.10 2.13 ok; append - 4.13 2,3 - 2.10 4.13 ok; append - \
    4.12 1,2/2,3 - 2.10 4.12 ok; append - 5.12 1,2/2,3 - 2.10 5.12 ok; append - 2.12 3 - 2.10 \
    2.12 ok; append - 3.14 1 - 2.10 3.14 ok; append - 2.13 1 - 2.10 2.13 ok; append - 3.11 3 - \
    2.10 3.11 ok; append - 5.11 1 - 2.10 5.11 ok; append - 3.13 1 - 2.10 3.13 ok; append - 3.12 1 \
    - 2.10 3.12 ok; append - 5.14 2,3 - 2.10 5.14 ok; append - 4.14 1 - 2.10 4.14 ok; append - \
    4.13 1 - 2.10 4.13 ok; truncate 10 - none 1.1 1.1 1.1 ok; truncate 4 - none 1.1 1.1 1.1 ok; \
    truncate 2 - none 1.1 1.1 1.1 ok; truncate 5 - none 1.1 1.1 1.1 ok; truncate 12 - none - 1.1 \
    2.10 ok; truncate 3 - none 1.1 1.1 1.1 ok; truncate 13 - none - 1.1 2.10 ok; truncate 8 - \
    none 1.1 1.1 1.1 ok; truncate 7 - none 1.1 1.1 1.1 ok; truncate 9 - none 1.1 1.1 1.1 ok; \
    truncate 18446744073709551615 - none - 1.1 2.10 ok; truncate 6 - none 1.1 1.1 1.1 ok; update \
    11 3.6 1 3.6 3.6 3.6 ok; update 0 3.6 3 - 3.6 2.10 no; update 11 1.5 2,3 - 1.5 1.5 ok; update \
    12 3.12 1 3.12 3.12 3.12 ok; update 5 1.5 1,2/2,3 - 1.5 2.10 ok; update 1 4.1 2,3 - 4.1 2.10 \
    no; update 0 2.9 1,2/2,3 - 2.9 2.10 ok; update 9 - 2,3 - 1.1 2.10 ok; update 5 2.9 1,2/2,3 - \
    2.9 2.10 ok; update 9 0.8 3 - 1.1 2.10 ok; update 11 1.10 2,3 - 1.10 1.10 ok; update 0 1.10 \
    2,3 - 1.10 1.10 ok; update 18446744073709551615 0.3 2,3 - 0.3 0.3 ok; update 12 2.7 2,3 - 2.7 \
    2.7 ok; update 10 - 1 - - - ok; update 9 4.11 2,3 - 4.11 4.11 ok; update 0 2.0 1 - 2.0 2.10 \
    ok; update 1 1.2 2,3 - 1.2 2.10 ok; update 11 1.10 3 1.10 1.10 1.10 ok; update 4 0.5 1 - 1.1 \
    2.10 ok; update 1 4.12 1,2/2,3 4.12 4.12 4.12 ok; update 12 4.12 3 4.12 4.12 4.12 ok; update \
    10 3.10 2,3 - 3.10 3.10 ok; update 5 - 1 - 1.1 2.10 ok; update 9 3.4 3 - 3.4 2.10 no; update \
    11 3.9 3 3.9 3.9 3.9 ok; update 12 3.0 1 3.0 3.0 3.0 ok; update 11 - 1,2 - - - ok; update 11 \
    4.2 1,2/2,3 4.2 4.2 4.2 ok; update 4 0.5 1,2 - 1.1 2.10 ok";

/// Whether a call leads from a state to another one, with the keys of its row.
fn changes_as(
    alloc: Global,
    state: &mut DefaultState,
    other: &mut DefaultState,
    call: &str,
) -> Result<bool, AllocError> {
    let [name, argument, more, keys, after, ..] = words(call);
    let keys_after = if after.is_empty() { keys } else { after };
    put(&mut state.log_ids, log_of(alloc, keys))?;
    put(&mut other.log_ids, log_of(alloc, keys_after))?;
    let made = make(alloc, state, [name, argument, ""])?;
    Ok(made == (more == "ok") && *state == *other)
}

/// Whether the call of a row leads from its state to its other one.
fn change_is_right(alloc: Global, row: &str) -> Result<bool, AllocError> {
    let (call, states) = row.split_once(" | ").unwrap_or((row, ""));
    let (from, to) = states.split_once(" | ").unwrap_or((states, states));
    let mut from = state(alloc, from)?;
    let mut to = state(alloc, to)?;
    changes_as(alloc, &mut from, &mut to, call)
}

/// Whether a state with the keys of a row is read as the row says.
fn reads_as(alloc: Global, state: &mut DefaultState, read: &str) -> Result<bool, AllocError> {
    let [name, argument, answer, keys, ..] = words(read);
    put(&mut state.log_ids, log_of(alloc, keys))?;
    match (name, log_id(argument)) {
        ("get", _) => Ok(state.get_log_id(number(argument)) == log_id(answer)),
        ("prev", _) => Ok(state.prev_log_id(number(argument)) == log_id(answer)),
        ("purged", _) => Ok(state.last_purged_log_id().copied() == log_id(answer)),
        ("has", Some(id)) => Ok(state.can_ask(&id) && state.has_log_id(&id) == (answer == "true")),
        ("lacks", _) => has_before(state, log_ids(alloc, argument), answer),
        _ => Ok(false),
    }
}

#[test]
fn states_are_those_of_the_original(rt: HostRuntime) -> Result<(), Fail> {
    let alloc = rt.alloc();
    for row in CHANGES.split(';') {
        assert_row(&rt, row, is_yes(change_is_right(alloc, row)));
    }
    for row in READS.split(';') {
        let (read, of) = row.split_once(" | ").unwrap_or((row, ""));
        let is_right = with_made(state(alloc, of), |state| reads_as(alloc, state, read));
        assert_row(&rt, row, is_yes(is_right));
    }
    for row in RELATIONS.split(';') {
        let is_right = with_made(state(alloc, row), |state| Ok(validates(alloc, state, row)));
        assert_row(&rt, row, is_yes(is_right));
    }
    Ok(())
}

#[test]
fn memberships_are_those_of_the_original(rt: HostRuntime) {
    assert_row(&rt, "moves", all_right(&rt, rt.alloc(), MOVES));
}
