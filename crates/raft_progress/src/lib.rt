//! What each follower of a Raft leader has, what is sent to it next, what a quorum has reached, and
//! how this continues if the membership changes.
#![tactic(auto)]

pub mod catch_up;
pub mod entry;
pub mod inflight;
pub mod laws;
pub mod progress;
pub mod search;
pub mod tracked;

pub use catch_up::{can_catch_up_entry, catch_up_entry};
pub use entry::{ProgressEntry, ProgressEntryOf};
pub use inflight::{Inflight, InflightError, InflightOf, RequestId};
pub use progress::{AnyStep, Progress, ProgressPart, Reply, Stat, VecProgress, replay_any};
pub use search::{SearchEvent, search_run};
pub use tracked::{MembershipProgress, Step, Tracked, replay};
