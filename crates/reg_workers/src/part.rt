//! What one session is to do.
ghost use Rattle.std.specs.Prelude.{◌≡◌, ◌≤◌, ℕ, [], ◌∷◌, length, max, OnOk};
ghost use Rattle.reg_workers.specs.Tasks.{bad_line, works};
ghost use Rattle.reg_workers.specs.Internal.Parts.{no_part, part_with, part_at};

use reg_sessions::Work;
use std::alloc::{AllocError, Global};
use std::marker::Model;
use std::mem;

/// What a line is told.
#[derive(Clone, Copy)]
pub enum Reply {
    /// That it is bad.
    Bad,
    /// What came of its work.
    Worked,
}

/// What one session is to do: its lines that have a reply, in order, and the works among them.
#[derive(Drop)]
pub struct Part {
    replies: Vec<Reply>,
    work: Vec<Work>,
}

impl Model for Part {
    ghost use Rattle.reg_workers.specs.Internal.Parts.{PartState};

    ghost Value = { PartState };

    ghost view = { λ p. record { replies = p.replies.items; work = p.work.items } };
}

impl Part {
    /// Nothing to do.
    pub fn new(alloc: Global) -> Part
        ensures { result ≡ no_part }
    {
        Part {
            replies: Vec::new(alloc),
            work: Vec::new(alloc),
        }
    }

    /// Adds a line that is bad.
    #[tactic(auto, using(crate::proofs::PlanLines::bad_more))]
    pub fn add_bad(&mut self) -> Result<(), AllocError>
        ensures { OnOk result (self.new ≡ part_with self.old (bad_line ∷ [])) }
    {
        self.replies.push(Reply::Bad)?;
        Ok(())
    }

    /// Adds a line that asks for a work.
    #[tactic(auto, using(crate::proofs::PlanLines::work_more))]
    pub fn add_work(&mut self, work: Work) -> Result<(), AllocError>
        ensures { OnOk result (self.new ≡ part_with self.old (works work ∷ [])) }
    {
        self.work.push(work)?;
        self.replies.push(Reply::Worked)?;
        Ok(())
    }

    /// What the lines are told.
    pub fn replies(&self) -> &[Reply]
        ensures { result.now ≡ self.now.replies }
    {
        self.replies.as_slice()
    }

    /// Takes the works out.
    pub fn take_work(&mut self, alloc: Global) -> Vec<Work>
        ensures work { result.items ≡ self.old.work }
        ensures replies { self.new.replies ≡ self.old.replies }
    {
        mem::replace(&mut self.work, Vec::new(alloc))
    }
}

/// Has so many parts at least.
pub fn make_parts(alloc: Global, parts: &mut Vec<Part>, count: usize) -> Result<(), AllocError>
    ensures longer { length parts.old.items ≤ length parts.new.items }
    ensures few { length parts.new.items ≤ max (length parts.old.items) count }
    ensures count { OnOk result (length parts.new.items ≡ max (length parts.old.items) count) }
    ensures same { (s : ℕ) → part_at s parts.new.items ≡ part_at s parts.old.items }
{
    for _more in parts.len()..count {
        parts.push(Part::new(alloc))?;
    }
    Ok(())
}
