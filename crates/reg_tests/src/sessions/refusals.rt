//! Steps of sessions where memory is refused: a step that is refused it is answered 8, or that there is none, and changes nothing. It is
//! answered when it is taken again, and all others are answered as they are else; what notices were kept back for its session it moves on
//! all the same. In the gate nothing is refused: `tools/refuse-memory` runs these tests once for each request for memory, and reads in what
//! they print at which step it was refused, and what came of that step.
use crate::sessions::stage::{Cast, Stage, started};
use std::alloc::Global;
use std::sync::Wait;
use std::test::Fail;
use std::thread::Threads;

/// Two sessions at two fresh hives.
const CAST: Cast = Cast("", 2, 2, &[]);

/// Two sessions at hive 0, of which one is told of what the other one does, and changes of other kinds; threads at hive 1, and its
/// checkpoint; what ends at hive 0, its checkpoint, and behind that its callback and a call. The value of 17,000 bytes takes a bin of
/// 16,384.
const STEPS: &str = "\
root 983103 -> #0 0 handle 0
register 7 0 0 -> cookie 0
set 0 =v 3 x2a2a2a2a -> #1 0
as 1
root 983103 -> #2 0 handle 2
notify 2 4 0 -> #3 0 watch 3
as 0
create 0 =K 983103 -> #4 0 handle 4 disposition 1
set 0 =large 3 x{17000 2a} -> #5 0
as 1
notice -> notice 3 5 matched
query 2 =LARGE 17000 -> @6 0 type 3 size 17000 x{17000 2a}
as 0
open 0 =K 983103 -> #6 0 handle 6
setsec 0 x0102 -> #7 0
delvalue 0 =V -> #8 0
delkey 0 =k -> #9 0
hive 1
drive hive 1, root 983103 -> 0: 0 / 1:
drive hive 1, create 0 =K 983103 -> 0: 0 / 1:
drive hive 1, notify 0 1 0 -> 0: 0 / 1:
close 1 -> #3 0
close 0 -> #4 0
notice -> notice 2 4 closed
checkpoint -> 8192 bytes
as 1
root 983103 -> #5 0 handle 5
as 0
hive 0
deltree 0 = -> #10 0
close 4 -> #11 0
close 6 -> #12 0
close 0 -> #13 0
as 1
close 2 -> #14 0
checkpoint -> 24576 bytes
unregister 0 -> the box answers 0
root 983103 -> #15 0 handle 15";

/// How many steps are answered, of so many at most, and what they leave. One that is refused its memory is taken so many times.
fn left_after<Rt: Print + Threads + Wait + Sync>(
    rt: &Rt,
    alloc: Global,
    most: usize,
    times: u32,
) -> Result<(usize, String), Fail> {
    let mut stage = started(rt, alloc, &CAST)?;
    let count = stage.play(rt, STEPS, most, times)?;
    Ok((count, stage.left()?))
}

/// What steps leave of which one that is refused its memory is taken so many times is what they leave where it is taken again, or where it
/// isn't taken.
fn check<Rt: Print + Threads + Wait + Sync>(
    rt: &Rt,
    alloc: Global,
    times: u32,
) -> Result<(), Fail> {
    let (count, left) = left_after(rt, alloc, usize::MAX, times)?;
    let (again, other) = left_after(rt, alloc, count, 2)?;
    if again == count && left.as_str() == other.as_str() {
        return Ok(());
    }
    Err("what the steps left differs".into())
}

#[test]
fn a_step_refused_its_memory_changes_nothing(rt: HostRuntime) -> Result<(), Fail> {
    check(&rt, rt.alloc(), 1)
}

#[test]
fn a_step_refused_its_memory_is_answered_when_made_again(rt: HostRuntime) -> Result<(), Fail> {
    check(&rt, rt.alloc(), 2)
}

/// Session 1 watches the root's values 70 times. A change of session 0 ends all these, and session 1 takes the 64 notices that its ring has
/// room for. The others are kept back.
const KEPT_BACK: &str = "\
root 983103 -> #0 0 handle 0
as 1
root 983103 -> #1 0 handle 1
{70 notify 1 4 0 -> ..;}as 0
set 0 =v 3 x2a2a2a2a -> #72 0
as 1
{64 notice -> ..;}notice -> notice none";

/// A change of session 1, which moves the others into the ring.
const MOVED: &str = "set 1 =v 3 x2a2a2a2a -> #73 0";

/// Session 1 takes these.
const TAKEN: &str = "\
{6 notice -> ..;}notice -> notice none
taken -> 2 3 4 5 6 7 8 9 10 11 12 13 14 15 16 17 18 19 20 21 22 23 24 25 26 27 28 29 30 31 32 33 34 35 36 37 38 39 40 41 42 43 44 45 46 47 \
48 49 50 51 52 53 54 55 56 57 58 59 60 61 62 63 64 65 66 67 68 69 70 71";

/// Takes these steps. The change may be refused its memory, and isn't made again: a refused call moves what was kept back, too.
fn move_notices<Rt: Print + Threads + Wait + Sync>(rt: &Rt, stage: &mut Stage) -> Result<(), Fail> {
    stage.play(rt, KEPT_BACK, usize::MAX, 2)?;
    stage.play(rt, MOVED, 1, 1)?;
    stage.play(rt, TAKEN, usize::MAX, 2)?;
    Ok(())
}

#[test]
fn a_change_refused_its_memory_moves_what_was_kept_back(rt: HostRuntime) -> Result<(), Fail> {
    let mut stage = started(&rt, rt.alloc(), &CAST)?;
    move_notices(&rt, &mut stage)
}
