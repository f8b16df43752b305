ghost use Rattle.std.specs.Prelude.{◌≡◌, IfOk};

use crate::{Answer, Call, ChangeReply};
use std::alloc::{AllocError, Global};

/// One call of a session at a moment.
#[derive(Debug, Drop)]
pub struct Step {
    /// Below 64.
    pub session: u8,
    /// In units of 100 ns since 1601.
    pub moment: u64,
    pub call: Call,
}

impl Step {
    /// A copy, which equals its source. Its one fault is that memory was refused.
    pub fn try_clone(&self, alloc: Global) -> Result<Step, AllocError>
        ensures { IfOk result (λ copy. copy ≡ self.now) }
    {
        Ok(Step {
            session: self.session,
            moment: self.moment,
            call: self.call.try_clone(alloc)?,
        })
    }
}

/// What a step is answered.
#[derive(Debug, Drop)]
pub enum Outcome {
    Changed(ChangeReply),
    Answered(Answer),
}

impl Outcome {
    /// A copy, which equals its source. Its one fault is that memory was refused.
    pub fn try_clone(&self, alloc: Global) -> Result<Outcome, AllocError>
        ensures { IfOk result (λ copy. copy ≡ self.now) }
    {
        match self {
            Outcome::Changed(reply) => Ok(Outcome::Changed(*reply)),
            Outcome::Answered(answer) => Ok(Outcome::Answered(answer.try_clone(alloc)?)),
        }
    }
}
