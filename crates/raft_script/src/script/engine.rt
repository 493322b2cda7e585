//! The membership and its progress that a script changes.
ghost use Rattle.std.specs.Prelude.{◌≡◌};

use raft_base::EmptyNode;
use raft_members::membership::Membership;
use raft_progress::progress::Reply;
use raft_progress::tracked::{Step, Tracked, replay};
use std::alloc::{AllocError, Global};
use std::collections::BTreeSet;

/// A step of the engine.
pub type ScriptStep = Step<u64, EmptyNode, u64>;

/// The membership of the last `init` that succeeded, as it is now, and its progress.
#[derive(Drop)]
pub struct Engine {
    tracked: Option<Tracked<u64, EmptyNode, u64, u64>>,
}

impl Engine {
    ghost use Rattle.std.specs.Prelude.{IfOk, OnErr, OnOk, IfSome, IsNone, IsSomeAnd, map};
    ghost use Rattle.raft_script.specs.Engine.{AnswersStep, GrantedIsKnown, IsStart, engine_state, engine_view};

    /// Returns an engine before any `init`.
    pub fn new() -> Engine
        ensures { IsNone (engine_state result) }
    {
        Engine { tracked: None }
    }

    /// Switches to a new membership, in which voters and learners have the default. An id that is
    /// both is a voter.
    pub fn init(
        &mut self,
        default: u64,
        configs: Vec<BTreeSet<u64>>,
        learners: BTreeSet<u64>,
    ) -> Result<(), AllocError>
        ensures ok { OnOk result (IsSomeAnd (engine_state self.new)
            (IsStart (map (λ c. c.keys) configs.items) learners.keys default)) }
        ensures err { OnErr result (self.new ≡ self.old) }
    {
        let membership = Membership::new(configs, learners)?;
        let tracked = Tracked::new(membership, default)?;
        self.tracked = Some(tracked);
        Ok(())
    }

    /// Makes a step, and returns its reply, or `None` before any `init`.
    pub fn answer(
        &mut self,
        alloc: Global,
        step: ScriptStep,
    ) -> Result<Option<Reply<u64, u64>>, AllocError>
        ensures ok { IfOk result (λ reply.
            AnswersStep (engine_state self.old) step reply (engine_state self.new)) }
        ensures err { OnErr result (engine_view self.new ≡ engine_view self.old) }
        ensures known { OnOk result (IfSome (engine_view self.new) GrantedIsKnown) }
    {
        let Some(tracked) = &mut self.tracked else {
            return Ok(None);
        };
        let steps = vec![in alloc; step]?;
        let mut replies = replay(alloc, tracked, steps)?;
        Ok(replies.pop())
    }
}
