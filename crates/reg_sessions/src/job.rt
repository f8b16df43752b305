ghost use Rattle.std.specs.Prelude.{◌↔◌, ◌<◌, IsTrue};
ghost use Rattle.reg_sessions.specs.Jobs.{IsReady, AreReady, AreWithin};

use crate::session::Session;
use reg_model::{Call, Notice, Outcome};

/// What a session is to do at a hive.
#[derive(Debug, Drop)]
pub enum Ask {
    /// A change or a question.
    Call(Call),
    /// To take its next notice.
    TakeNotice,
}

/// What a session is to do, where and when.
#[derive(Debug, Drop)]
pub struct Work {
    /// The hive's number.
    pub hive: u8,
    /// The moment of a change, in units of 100 ns since 1601.
    pub moment: u64,
    pub ask: Ask,
}

/// What came of a work.
#[derive(Debug, Drop)]
pub enum Done {
    /// What a call was answered.
    Outcome(Outcome),
    /// The notice that was taken, if there was one.
    Notice(Option<Notice>),
}

/// A session with its work, which is done in order, and what came of each.
#[derive(Drop)]
pub struct Job {
    pub session: Session,
    pub work: Vec<Work>,
    pub outcomes: Vec<Done>,
}

/// Whether all work is at hives below a number.
fn are_within(work: &[Work], hives: usize) -> bool
    ensures { IsTrue result ↔ AreWithin hives work.now }
{
    for i in 0..work.len() {
        if work[i].hive as usize >= hives {
            return false;
        }
    }
    true
}

impl Job {
    /// Whether the job can be run at so many hives: each work names one, at which the session has a seat.
    pub fn is_ready(&self, hives: usize) -> bool
        ensures { IsTrue result ↔ IsReady hives self.now }
    {
        are_within(self.work.as_slice(), hives)
            && are_within(self.work.as_slice(), self.session.hives())
    }
}

/// Whether all jobs can be run at so many hives, as [`drive`](crate::drive) asks of them.
pub fn are_ready(jobs: &[Job], hives: usize) -> bool
    ensures { IsTrue result ↔ AreReady hives jobs.now }
{
    for i in 0..jobs.len() {
        if !jobs[i].is_ready(hives) {
            return false;
        }
    }
    true
}
