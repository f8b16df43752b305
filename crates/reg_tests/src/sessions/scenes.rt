//! Scenes: steps that sessions take, each with what is replied to it. In those on threads sessions wait for one another at a gate.
use crate::sessions::gate::{ANSWERED, AWAITS, INSIDE, RAISES, Rule};
use crate::sessions::stage::{Cast, started};
use crate::support::assert_report;
use reg_sessions::Audit;
use std::alloc::Global;
use std::sync::Wait;
use std::test::Fail;
use std::thread::Threads;

/// A hive of two keys, made at moment 7.
const KEYED: &str = "\
sk 0 0 0 20 x0100048000000000000000000000000000000000
nk 32 7 0 - 0 - @1 - 0 =A
nk 32 7 0 - 0 - @1 - 0 =b
lh @2 @3
nk 44 7 2 @4 0 - @1 - 0 =ROOT";

/// A loaded hive answers behind its lock, and callbacks come and go there.
const GUARDED: &str = "\
root 983103 -> #0 0 handle 0
enumkey 0 0 255 -> @1 0 =A time 7
register 7 5 0 -> cookie 0
register 8 5 11 -> cookie 1
root 983103 -> 5
enumkey 0 0 255 -> @1 5
unregister 1 -> the box answers 0
enumkey 0 0 255 -> @1 0 =A time 7
unregister 0 -> the box answers 5
root 983103 -> #1 0 handle 1";

/// Two hives are two, of which the first is loaded; and sessions see one another's changes.
const IN_TURN: &str = "\
root 983103 -> #0 0 handle 0
as 1
root 983103 -> #1 0 handle 1
set 1 = 4 x01020304 -> #2 0
as 0
query 0 = 4 -> @3 0 type 4 size 4 x01020304
hive 1
root 983103 -> #0 0 handle 0
query 0 = 4 -> @1 2
enumkey 0 0 255 -> @1 259
hive 0
enumkey 0 0 255 -> @3 0 =A time 7
as 1
hive 1
root 983103 -> #1 0 handle 1";

/// Callbacks come to two hives and go, the second first. Both have the first cookie of their hive. One that comes to an altitude that is
/// taken comes back. One at a higher altitude is asked first; and one is shown the handle's key, and so refuses calls by `A`'s handle
/// alone.
const TWO_GUARDS: &str = "\
register 7 5 0 -> cookie 0
root 983103 -> 5
hive 1
root 983103 -> #0 0 handle 0
register 7 87 0 -> cookie 0
hive 0
root 983103 -> 5
hive 1
root 983103 -> 87
unregister 0 -> the box answers 87
hive 0
root 983103 -> 5
register 7 9 0 -> taken, the box answers 9
register 8 87 0 -> cookie 1
root 983103 -> 87
unregister 1 -> the box answers 87
unregister 0 -> the box answers 5
root 983103 -> #0 0 handle 0
create 0 =A 983103 -> #1 0 handle 1 disposition 1
register 9 77 15 -> cookie 2
set 0 =v 4 x01 -> #2 0
set 1 =v 4 x01 -> 77
create 0 =B 983103 -> #3 0 handle 3 disposition 1
create 1 =B 983103 -> 77
query 0 =v 1 -> @4 0 type 4 size 1 x01
query 1 =v 1 -> @4 77
close 1 -> #4 0
hive 1
root 983103 -> #1 0 handle 1";

/// Row 16: the callback at the higher altitude is asked first, an altitude is taken once, and a Close is never refused. The first two answer
/// all calls by `A`'s handles.
const BY_ALTITUDE: &str = "\
root 983103 -> #0 0 handle 0
create 0 =A 983103 -> #1 0 handle 1 disposition 1
open 0 =A 983103 -> #2 0 handle 2
open 0 =A 983103 -> #3 0 handle 3
register 100 87 15 -> cookie 0
register 200 5 15 -> cookie 1
set 1 =v 4 x01 -> 5
close 1 -> #4 0
unregister 1 -> the box answers 0
set 2 =v 4 x01 -> 87
close 2 -> #5 0
register 100 9 0 -> taken, the box answers 9
close 3 -> #6 0";

/// A notice is taken of its hive, by its session.
const TOLD: &str = "\
hive 1
root 983103 -> #0 0 handle 0
notify 0 4 0 -> #1 0 watch 1
notice -> notice none
set 0 =v 4 x01 -> #2 0
hive 0
notice -> notice none
as 1
hive 1
notice -> notice none
as 0
notice -> notice 1 2 matched
notice -> notice none";

/// What becomes of a ring. At each of four hives a session watches the root's values 70 times; a change of session 0 tells it all, of which
/// the ring has room for 64. At the first hive the session makes the changes itself, and its next one moves what was kept back. At the
/// second another session's change moves nothing, and a question does. At the third the session also watches keys, so that the next change
/// tells it something while something is kept back: that stays behind it. At the fourth a change of the session's moves it, though it is
/// refused.
const RINGS: &str = "\
hive 0
as 0
root 983103 -> #0 0 handle 0
as 1
root 983103 -> #1 0 handle 1
as 0
{70 notify 0 4 0 -> ..;}set 0 =v 4 x01 -> #72 0
{64 notice -> ..;}notice -> notice none
create 0 =K 983103 -> #73 0 handle 73 disposition 1
{6 notice -> ..;}notice -> notice none
info 0 -> ..
notice -> notice none
taken -> 2 3 4 5 6 7 8 9 10 11 12 13 14 15 16 17 18 19 20 21 22 23 24 25 26 27 28 29 30 31 32 33 34 35 36 37 38 39 40 41 42 43 44 45 46 47 \
48 49 50 51 52 53 54 55 56 57 58 59 60 61 62 63 64 65 66 67 68 69 70 71
hive 1
as 0
root 983103 -> #0 0 handle 0
as 1
root 983103 -> #1 0 handle 1
{70 notify 1 4 0 -> ..;}as 0
set 0 =v 4 x01 -> #72 0
as 1
{64 notice -> ..;}notice -> notice none
as 0
create 0 =K 983103 -> #73 0 handle 73 disposition 1
as 1
notice -> notice none
info 1 -> ..
{6 notice -> ..;}notice -> notice none
taken -> 2 3 4 5 6 7 8 9 10 11 12 13 14 15 16 17 18 19 20 21 22 23 24 25 26 27 28 29 30 31 32 33 34 35 36 37 38 39 40 41 42 43 44 45 46 47 \
48 49 50 51 52 53 54 55 56 57 58 59 60 61 62 63 64 65 66 67 68 69 70 71
hive 2
as 0
root 983103 -> #0 0 handle 0
as 1
root 983103 -> #1 0 handle 1
{70 notify 1 4 0 -> ..;}notify 1 1 0 -> #72 0 watch 72
as 0
set 0 =v 4 x01 -> #73 0
as 1
{10 notice -> ..;}as 0
create 0 =K 983103 -> #74 0 handle 74 disposition 1
as 1
{54 notice -> ..;}notice -> notice none
info 1 -> ..
{7 notice -> ..;}notice -> notice none
taken -> 2 3 4 5 6 7 8 9 10 11 12 13 14 15 16 17 18 19 20 21 22 23 24 25 26 27 28 29 30 31 32 33 34 35 36 37 38 39 40 41 42 43 44 45 46 47 \
48 49 50 51 52 53 54 55 56 57 58 59 60 61 62 63 64 65 66 67 68 69 70 71 72
hive 3
as 0
root 983103 -> #0 0 handle 0
as 1
root 983103 -> #1 0 handle 1
{70 notify 1 4 0 -> ..;}as 0
set 0 =v 4 x01 -> #72 0
as 1
{64 notice -> ..;}notice -> notice none
create 0 =K 983103 -> 6
{6 notice -> ..;}notice -> notice none
info 1 -> ..
notice -> notice none
taken -> 2 3 4 5 6 7 8 9 10 11 12 13 14 15 16 17 18 19 20 21 22 23 24 25 26 27 28 29 30 31 32 33 34 35 36 37 38 39 40 41 42 43 44 45 46 47 \
48 49 50 51 52 53 54 55 56 57 58 59 60 61 62 63 64 65 66 67 68 69 70 71";

/// A journal begins anew: numbers go on, keys stay, no receipt is left, and a notice that wasn't taken still comes.
const ANEW: &str = "\
root 983103 -> #0 0 handle 0
create 0 =K 983103 -> #1 0 handle 1 disposition 1
close 1 -> #2 0
receipts -> 3
checkpoint -> 1 handles are open
receipts -> 3
close 0 -> #3 0
checkpoint -> 8192 bytes
receipts -> 0
root 983103 -> #4 0 handle 4
enumkey 4 0 1 -> @5 0 =K time 0
notify 4 4 0 -> #5 0 watch 5
close 4 -> #6 0
checkpoint -> 8192 bytes
checkpoint -> 8192 bytes
notice -> notice 5 6 closed
notice -> notice none";

/// Checkpoints between drives: each drops the receipts that it compared, of both sessions, and a notice that wasn't taken still comes.
const CHECKPOINTS: &str = "\
hive 1
root 983103 -> #0 0 handle 0
as 1
root 983103 -> #1 0 handle 1
close 1 -> #2 0
drive hive 1, notify 0 4 0, close 0, as 1, hive 0, root 983103, close 0 -> 0: 0 0 / 1: 0 0
receipts -> 2
checkpoint -> 8192 bytes
receipts -> 0
as 0
receipts -> 0
notice -> notice 3 4 closed
root 983103 -> #5 0 handle 5
as 1
root 983103 -> #6 0 handle 6
close 6 -> #7 0
drive hive 1, notify 5 4 0, close 5, as 1, hive 0, root 983103, close 2 -> 0: 0 0 / 1: 0 0
checkpoint -> 8192 bytes
receipts -> 0
as 0
receipts -> 0
root 983103 -> #10 0 handle 10
as 1
root 983103 -> #11 0 handle 11
drive hive 1, notify 10 4 0, close 10, as 1, hive 1, notify 11 4 0, close 11 -> 0: 0 0 / 1: 0 0
receipts -> 3
checkpoint -> 8192 bytes
receipts -> 0
as 0
receipts -> 0
root 983103 -> #16 0 handle 16
notice -> notice 8 9 closed
notify 16 4 0 -> #17 0 watch 17
receipts -> 2
checkpoint -> 1 handles are open
receipts -> 2";

/// Four sessions, each on a thread, make 200 calls each at a hive: one call is inside it at a time, and the gate is told of each twice.
const CROWD: &str = "\
drive {200 root 983103, }as 1, {200 root 983103, }as 2, {200 root 983103, }as 3, {200 root 983103, } -> ..
gate -> crowded false, 800 inside, 800 answered, flags false false, failed false";

/// Session 1 goes to hive 0 once session 0 is inside it, and comes inside before session 0 goes on from there: that ends well only where
/// session 0 gave the lock back before the gate was told that it is answered.
const HANDOVER: [Rule; 4] = [
    (INSIDE, 0, 0, RAISES, 0),
    (INSIDE, 1, 1, AWAITS, 0),
    (INSIDE, 1, 0, RAISES, 1),
    (ANSWERED, 0, 0, AWAITS, 1),
];

const HANDED_OVER: &str = "\
drive root 983103, as 1, hive 1, root 983103, hive 0, root 983103 -> 0: 0 / 1: 0 0
gate -> crowded false, 2 inside, 2 answered, flags true true, failed false";

/// Two sessions change two hives, and each waits inside its hive's lock until the other is inside its own. That ends well only where the
/// jobs run side by side, and each hive has a lock of its own.
const MEETING: [Rule; 4] = [
    (INSIDE, 0, 0, RAISES, 0),
    (INSIDE, 0, 0, AWAITS, 1),
    (INSIDE, 1, 1, RAISES, 1),
    (INSIDE, 1, 1, AWAITS, 0),
];

const MET: &str = "\
root 983103 -> #0 0 handle 0
as 1
hive 1
root 983103 -> #0 0 handle 0
drive create 0 =K 983103, as 1, hive 1, create 0 =K 983103 -> 0: 0 / 1: 0
gate -> crowded false, 1 inside, 1 answered, flags true true, failed false";

/// Session 1 is inside hive 0 from before session 0's first question, at hive 1, until its second one, at hive 2, was answered. Between
/// these session 0 takes a notice of hive 0.
const STAY: [Rule; 4] = [
    (INSIDE, 0, 1, AWAITS, 0),
    (INSIDE, 1, 0, RAISES, 0),
    (INSIDE, 1, 0, AWAITS, 1),
    (ANSWERED, 0, 2, RAISES, 1),
];

const STAYED: &str = "\
root 983103 -> #0 0 handle 0
notify 0 4 0 -> #1 0 watch 1
hive 1
root 983103 -> #0 0 handle 0
hive 2
root 983103 -> #0 0 handle 0
as 1
hive 0
root 983103 -> #2 0 handle 2
set 2 =v 4 x01 -> #3 0
drive hive 1, info 0, hive 0, notice, hive 2, info 0, as 1, hive 0, set 2 =v 4 x01 -> 0: answered notice 1 3 answered / 1: 0
gate -> crowded false, 1 inside, 1 answered, flags true true, failed false";

/// How many entries each hive has.
pub fn entries_of(alloc: Global, audit: &Audit) -> Result<String, Fail> {
    let mut text = String::new(alloc);
    for hive in 0..audit.hives() {
        write!(text, "{} ", audit.entries(hive as u8))?;
    }
    Ok(text)
}

/// Plays a scene. At its end the hives have so many entries.
fn play<Rt: Print + Threads + Wait + Sync>(
    rt: &Rt,
    alloc: Global,
    cast: &Cast,
    steps: &str,
    entries: &str,
) -> Result<(), Fail> {
    let mut stage = started(rt, alloc, cast)?;
    stage.play(rt, steps, usize::MAX, 2)?;
    let audit = stage.gathered()?;
    assert_report(entries_of(alloc, &audit), entries)
}

#[test]
fn sessions_in_turn_are_told_what_is_so(rt: HostRuntime) -> Result<(), Fail> {
    let alloc = rt.alloc();
    play(&rt, alloc, &Cast(KEYED, 1, 1, &[]), GUARDED, "2 ")?;
    play(&rt, alloc, &Cast(KEYED, 2, 2, &[]), IN_TURN, "3 2 ")?;
    play(&rt, alloc, &Cast("", 2, 1, &[]), TWO_GUARDS, "5 2 ")?;
    play(&rt, alloc, &Cast("", 1, 1, &[]), BY_ALTITUDE, "7 ")?;
    play(&rt, alloc, &Cast("", 2, 2, &[]), TOLD, "0 3 ")?;
    play(&rt, alloc, &Cast("", 1, 1, &[]), ANEW, "7 ")?;
    play(&rt, alloc, &Cast("", 4, 2, &[]), RINGS, "74 74 75 73 ")
}

#[test]
fn sessions_on_threads_are_told_what_is_so(rt: HostRuntime) -> Result<(), Fail> {
    let alloc = rt.alloc();
    play(&rt, alloc, &Cast("", 2, 2, &[]), CHECKPOINTS, "4 18 ")?;
    play(&rt, alloc, &Cast("", 1, 4, &[]), CROWD, "800 ")?;
    play(&rt, alloc, &Cast("", 2, 2, &HANDOVER), HANDED_OVER, "2 1 ")?;
    play(&rt, alloc, &Cast("", 2, 2, &MEETING), MET, "2 2 ")?;
    play(&rt, alloc, &Cast("", 3, 2, &STAY), STAYED, "5 1 1 ")
}
