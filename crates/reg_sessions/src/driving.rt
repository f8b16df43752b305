ghost use Rattle.std.specs.Prelude.{◌≡◌, ◌+◌, ◌<◌, ◌≤◌, ◌==◌, ℕ, [], ◌++◌, length, slice_index_or, vec_len, vec_capacity, OnErr, OnOk, true, if◌then◌else◌};
ghost use Rattle.reg_sessions.specs.Jobs.{AreDone, MayMiss, AreReady, AreWithin, IsDone, IsReady, HasRoom, IsSameJob, IsLawfulDone, receipts_of_one, notices_of_one, mark_by_one, notifies_by_one, handles_by_one, is_of_kind};
ghost use Rattle.reg_sessions.specs.Sessions.{receipts_at, dropped_at, mark_at, seat_at, taken_at, popped_at, waiting_at, notifies_at, handles_at};

use crate::gate::HiveGate;
use crate::job::{Ask, Done, Job, Work};
use crate::registry::Registry;
use crate::session::Session;
use reg_callbacks::Callback;
use reg_model::{Call, Outcome};
use std::alloc::AllocError;
use std::sync::Wait;
use std::thread;
use std::thread::Threads;
use thiserror::Error;

/// Why no job was run.
#[derive(Clone, Copy, Debug, PartialEq, Eq, Error)]
pub enum DriveFault {
    /// There is no memory for the outcomes.
    #[error("no memory for the outcomes")]
    Memory,
}

impl From<AllocError> for DriveFault {
    fn from(_fault: AllocError) -> DriveFault {
        DriveFault::Memory
    }
}

/// Does one work of a session.
fn do_one<Rt: Wait, G: HiveGate, C: Callback>(
    rt: &Rt,
    registry: &Registry<C>,
    gate: &G,
    session: &mut Session,
    work: &Work,
) -> Done
    requires hive { work.now.hive < registry.now.hives }
    requires seat { work.now.hive < length session.old.places }
    ensures kind { is_of_kind work.now.ask result ≡ true }
    ensures lawful { IsLawfulDone C.answers (seat_at work.now.hive session.old) (mark_at work.now.hive session.old) (handles_at work.now.hive session.old) work.now.moment work.now.ask result }
    ensures receipts { (h : ℕ) → receipts_at h session.new ≡ receipts_at h session.old ++ (if h == work.now.hive then receipts_of_one work.now.moment work.now.ask result else []) }
    ensures dropped { (h : ℕ) → dropped_at h session.new ≡ dropped_at h session.old }
    ensures marks { (h : ℕ) → mark_at h session.new ≡ (if h == work.now.hive then mark_by_one (mark_at h session.old) work.now.ask result else mark_at h session.old) }
    ensures taken { (h : ℕ) → taken_at h session.new ≡ taken_at h session.old ++ (if h == work.now.hive then notices_of_one work.now.ask result else []) }
    ensures popped { (h : ℕ) → popped_at h session.new ≡ popped_at h session.old ++ (if h == work.now.hive then notices_of_one work.now.ask result else []) }
    ensures notifies { (h : ℕ) → notifies_at h session.new ≡ (if h == work.now.hive then notifies_by_one (notifies_at h session.old) work.now.ask result else notifies_at h session.old) }
    ensures handles { (h : ℕ) → handles_at h session.new ≡ (if h == work.now.hive then handles_by_one (handles_at h session.old) work.now.ask result else handles_at h session.old) }
    ensures missed { MayMiss (length (waiting_at work.now.hive session.old)) (notifies_at work.now.hive session.old) (length (taken_at work.now.hive session.old)) result }
    ensures waiting { (h : ℕ) → length (waiting_at h session.old) ≤ length (waiting_at h session.new) + length (if h == work.now.hive then notices_of_one work.now.ask result else []) }
    ensures kept { (session.new.number ≡ session.old.number) × (length session.new.places ≡ length session.old.places) }
{
    match &work.ask {
        Ask::Call(Call::Change(change)) => {
            let reply = session.change(rt, registry, gate, work.hive, work.moment, change);
            Done::Outcome(Outcome::Changed(reply))
        }
        Ask::Call(Call::Query(query)) => {
            let answer = session.ask(rt, registry, gate, work.hive, query);
            Done::Outcome(Outcome::Answered(answer))
        }
        Ask::TakeNotice => Done::Notice(session.take_notice(registry, work.hive)),
    }
}

/// Does all work of a session, in order.
#[tactic(auto, using(crate::proofs::JobsDone::done_none, crate::proofs::JobsDone::done_next))]
fn do_all<Rt: Wait, G: HiveGate, C: Callback>(
    rt: &Rt,
    registry: &Registry<C>,
    gate: &G,
    session: &mut Session,
    work: &[Work],
    outcomes: &mut Vec<Done>,
)
    requires room { vec_len outcomes.old + length work.now ≤ vec_capacity outcomes.old }
    requires hives { AreWithin registry.now.hives work.now }
    requires seats { AreWithin (length session.old.places) work.now }
    ensures { AreDone C.answers session.old work.now outcomes.old.items session.new outcomes.new.items }
{
    for one in work {
        let done = do_one(rt, registry, gate, session, one);
        outcomes.push_reserved(done);
    }
}

impl Job {
    /// Makes room for an outcome of each work.
    fn make_room(&mut self) -> Result<(), AllocError>
        ensures same { IsSameJob self.old self.new }
        ensures room { OnOk result (HasRoom self.new) }
    {
        self.outcomes.reserve(self.work.len())
    }

    /// Does the work.
    fn run<Rt: Wait, G: HiveGate, C: Callback>(&mut self, rt: &Rt, registry: &Registry<C>, gate: &G)
        requires ready { IsReady registry.now.hives self.old }
        requires room { HasRoom self.old }
        ensures { IsDone C.answers self.old self.new }
    {
        let Job {
            session,
            work,
            outcomes,
        } = self;
        do_all(rt, registry, gate, session, work.as_slice(), outcomes);
    }
}

/// Makes room in each job.
#[tactic(auto, using(crate::proofs::JobsDone::same_more, crate::proofs::JobsDone::room_more))]
fn make_rooms(jobs: &mut [Job]) -> Result<(), AllocError>
    ensures same { (i : ℕ) (d : Job) → i < length jobs.old → IsSameJob (slice_index_or jobs.old i d) (slice_index_or jobs.new i d) }
    ensures room { OnOk result ((i : ℕ) (d : Job) → i < length jobs.old → HasRoom (slice_index_or jobs.new i d)) }
{
    for i in 0..jobs.len() {
        jobs[i].make_room()?;
    }
    Ok(())
}

/// Runs the jobs, which have room.
fn run_jobs<Rt: Threads + Wait + Sync, G: HiveGate, C: Callback + Send>(
    rt: &Rt,
    registry: &Registry<C>,
    jobs: &mut [Job],
    gate: &G,
)
    requires ready { (i : ℕ) (d : Job) → i < length jobs.old → IsReady registry.now.hives (slice_index_or jobs.old i d) × HasRoom (slice_index_or jobs.old i d) }
    ensures { (i : ℕ) (d : Job) → i < length jobs.old → IsDone C.answers (slice_index_or jobs.old i d) (slice_index_or jobs.new i d) }
{
    if jobs.is_empty() {
        return;
    }
    let threads = jobs.len();
    let run = |_at: usize, job: &mut Job|
        requires { IsReady registry.now.hives job.old × HasRoom job.old }
        ensures { IsDone C.answers job.old job.new }
    { job.run(rt, registry, gate) };
    thread::for_each_mut(rt, jobs, threads, &run);
}

/// Runs each job on a thread of its own, and waits for all. Where the system gives no thread, jobs run one after another. Each job keeps
/// its session and its work, and has one outcome more for each work, in order. `Memory` where there is none for the outcomes; then no job
/// was begun. Each work names a hive that is there, at which its session has a seat.
#[tactic(auto, using(crate::proofs::JobsDone::is_done))]
pub fn drive<Rt: Threads + Wait + Sync, G: HiveGate, C: Callback + Send>(
    rt: &Rt,
    registry: &Registry<C>,
    jobs: &mut [Job],
    gate: &G,
) -> Result<(), DriveFault>
    requires ready { AreReady registry.now.hives jobs.old }
    ensures done { OnOk result ((i : ℕ) (d : Job) → i < length jobs.old → IsDone C.answers (slice_index_or jobs.old i d) (slice_index_or jobs.new i d)) }
    ensures err { OnErr result ((i : ℕ) (d : Job) → i < length jobs.old → IsSameJob (slice_index_or jobs.old i d) (slice_index_or jobs.new i d)) }
{
    make_rooms(jobs)?;
    run_jobs(rt, registry, jobs, gate);
    Ok(())
}
