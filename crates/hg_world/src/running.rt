ghost use Rattle.std.specs.Prelude.{◌≡◌, All, IfOk, OnErr};
ghost use Rattle.hg_runs.specs.Safety.{IsSafe};
ghost use Rattle.hg_world.specs.World.{run_of};
ghost use Rattle.hg_world.specs.Steps.{HasRun, HasStepped, IsStepOf, NeedsMemory, RanSome};

use crate::step::{Reply, Step};
use crate::world::World;
use hg_model::Memory;
use std::alloc::Global;

impl World {
    fn apply(&mut self, step: &Step) -> Result<Reply, Memory>
        requires { IsStepOf self.old step.now }
        ensures ok { IfOk result (λ reply. HasStepped self.old step.now reply self.new) }
        ensures err { OnErr result (self.new ≡ self.old) }
        ensures free { OnErr result (NeedsMemory self.old step.now) }
    {
        match step {
            Step::Make {
                node,
                others,
                time,
                payload,
            } => {
                let answer = self.make(*node, others.as_slice(), *time, payload.as_slice())?;
                Ok(Reply::Make(answer))
            }
            Step::Deliver { node, bytes } => {
                let answer = self.put(*node, bytes.as_slice())?;
                Ok(Reply::Put(answer))
            }
            Step::Freeze { node, worker } => Ok(Reply::Frozen(self.freeze(*node, *worker))),
            Step::Publish {
                node,
                worker,
                share,
            } => {
                let count = self.publish(*node, *worker, *share)?;
                Ok(Reply::Published(count))
            }
        }
    }

    /// One step of a run.
    pub fn step(&mut self, step: &Step) -> Result<Reply, Memory>
        requires { IsStepOf self.old step.now }
        ensures ok { IfOk result (λ reply. HasStepped self.old step.now reply self.new) }
        ensures err { OnErr result (self.new ≡ self.old) }
        ensures free { OnErr result (NeedsMemory self.old step.now) }
        ensures safe { IsSafe self.new.members self.new.coin (run_of self.new) }
    {
        let reply = self.apply(step);
        self.is_world();
        reply
    }

    fn apply_all(&mut self, alloc: Global, steps: &[Step]) -> Result<Vec<Reply>, Memory>
        requires { All (IsStepOf self.old) steps.now }
        ensures ok { IfOk result (λ replies. HasRun self.old steps.now replies.items self.new) }
        ensures err { OnErr result (RanSome self.old steps.now self.new) }
    {
        let mut replies = Vec::with_capacity(alloc, steps.len())?;
        for step in steps {
            let reply = self.apply(step)?;
            replies.push_reserved(reply);
        }
        Ok(replies)
    }

    /// The steps, one after the other, and what they answer. After `Memory` the first of them are done, or none.
    pub fn run(&mut self, alloc: Global, steps: &[Step]) -> Result<Vec<Reply>, Memory>
        requires { All (IsStepOf self.old) steps.now }
        ensures ok { IfOk result (λ replies. HasRun self.old steps.now replies.items self.new) }
        ensures err { OnErr result (RanSome self.old steps.now self.new) }
        ensures safe { IsSafe self.new.members self.new.coin (run_of self.new) }
    {
        let replies = self.apply_all(alloc, steps);
        self.is_world();
        replies
    }
}
