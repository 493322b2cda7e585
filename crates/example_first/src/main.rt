#![tactic(auto)]

use raft_base::EmptyNode;
use raft_members::Membership;
use raft_progress::{Progress, Tracked};

fn main(rt: HostRuntime) -> Result<(), anyhow::Error> {
    let voters = [1, 2, 3].iter().copied().collect(rt.alloc())?;
    let members = Membership::<u64, EmptyNode>::new(vec![in rt.alloc(); voters]?, ())?;
    let mut cluster = Tracked::new(members, 0u64)?;
    for (id, matching) in [(1, 4), (2, 6)] {
        let _reply = cluster.update(&id, matching);
    }
    println!(rt; "granted {}", cluster.progress().granted())?;
    Ok(())
}
