//! The first caller, as it is printed on the page for callers.

use raft_progress::AnyStep::Update;
use raft_progress::{Progress, Reply, VecProgress, replay_any};
use std::alloc::{AllocError, Global};

/// Voters 1, 2 and 3 at 0 and these learners: what each acknowledgement grants, and nothing where a
/// learner is a voter, or stands twice.
fn acknowledge(alloc: Global, learners: &[u64]) -> Result<Vec<Reply<u64, u64>>, AllocError> {
    let voters = [1, 2, 3].to_vec(alloc)?;
    if !VecProgress::<u64, u64, u64, _>::learners_fit(alloc, &voters, learners)? {
        return Ok(Vec::new(alloc));
    }
    let mut progress = VecProgress::new(alloc, voters, learners, 0)?;
    let steps = vec![in alloc; Update(4, 9), Update(1, 4), Update(2, 6)]?;
    replay_any(alloc, &mut progress, steps) // with learner 4: Granted(0), Granted(0), Granted(4)
}

#[test]
fn a_learner_grants_nothing(rt: HostRuntime) -> Result<(), std::test::Fail> {
    let replies = acknowledge(rt.alloc(), &[4])?;
    let want = [Reply::Granted(0), Reply::Granted(0), Reply::Granted(4)];
    assert!(rt; replies.as_slice() == want.as_slice());
    assert!(rt; acknowledge(rt.alloc(), &[3])?.is_empty());
    Ok(())
}
