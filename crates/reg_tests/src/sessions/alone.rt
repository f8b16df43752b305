//! A callback that refuses one kind of call alone: just that call is answered so, without an entry, by a session and on a hive of one
//! thread. A Close isn't asked.
use crate::sessions::guard::boxed;
use crate::sessions::scenes::entries_of;
use crate::sessions::stage::{Cast, Stage, started};
use crate::support::{assert_report, replies, seated};
use reg_calls::SeatedHive;
use std::alloc::{AllocError, Global};
use std::sync::Wait;
use std::test::Fail;
use std::thread::Threads;

/// How many kinds of calls there are.
const KINDS: u32 = 15;

/// What is made before the callback comes: the handle 0 of the root, the keys `K`, with the handle 1, and `T`, and two values.
const BEFORE: &str = "\
root 983103
create 0 =K 983103
create 0 =T 983103
set 0 =v 4 x01
set 0 =w 4 x01
";

/// A question of each kind and a change of each, which are accepted where no callback refuses them.
const CALLS: &str = "\
query 0 =v 1
enumkey 0 0 255
enumvalue 0 0 255 1
info 0
getsec 0 20
root 983103
open 0 =K 983103
create 0 =N 983103
set 0 =v 4 x01
delvalue 0 =w
delkey 0 =K
deltree 0 =T
setsec 0 x01
notify 0 4 0
close 1
";

/// The statuses of a session's calls where one kind is refused, and how many entries there are then.
fn told_by_session<Rt: Print + Threads + Wait + Sync>(
    rt: &Rt,
    alloc: Global,
    kind: u32,
) -> Result<String, Fail> {
    let lines = format!(in alloc; "{BEFORE}register 7 5 {kind}\n{CALLS}")?;
    let mut stage = started(rt, alloc, &Cast("", 1, 1, &[]))?;
    let statuses = stage.take_all(rt, lines.as_str())?;
    let entries = entries_left(alloc, stage)?;
    Ok(format!(in alloc; "{}{}", statuses.as_str(), entries.as_str())?)
}

/// How many entries a stage's hives have once its sessions are gathered.
fn entries_left(alloc: Global, stage: Stage) -> Result<String, Fail> {
    entries_of(alloc, &stage.gathered()?)
}

/// Writes the statuses of a hive's replies.
fn tell_statuses(replies: &str, text: &mut String) -> Result<(), AllocError> {
    for reply in replies.lines() {
        let (status, _) = reply.split_once(' ').unwrap_or((reply, ""));
        write!(text, "{status} ")?;
    }
    Ok(())
}

/// Writes the statuses of calls on a hive where one kind is refused, and how many entries there are then.
fn tell_hive(
    alloc: Global,
    hive: &mut SeatedHive,
    kind: u32,
    text: &mut String,
) -> Result<(), Fail> {
    let before = replies(alloc, hive, BEFORE)?;
    if hive.hive.register(boxed(alloc, 5, kind)?, 7).is_err() {
        return Err("not registered".into());
    }
    let calls = replies(alloc, hive, CALLS)?;
    tell_statuses(before.as_str(), text)?;
    text.push_str("0 ")?;
    tell_statuses(calls.as_str(), text)?;
    write!(text, "{} ", hive.hive.len())?;
    Ok(())
}

fn told_by_hive(alloc: Global, kind: u32) -> Result<String, Fail> {
    let mut text = String::new(alloc);
    let mut hive = seated(alloc, "")?;
    tell_hive(alloc, &mut hive, kind, &mut text)?;
    Ok(text)
}

/// What is told where one kind is refused, behind the five calls before and the registration: questions come first, and a Close isn't
/// asked.
fn wanted(alloc: Global, kind: u32) -> Result<String, AllocError> {
    let mut text = "0 0 0 0 0 0 ".to_string(alloc)?;
    for place in (10..KINDS).chain(0..10) {
        let is_refused = place == kind && kind != 9;
        write!(text, "{} ", if is_refused { 5 } else { 0 })?;
    }
    let entries = if kind < 9 { 14 } else { 15 };
    write!(text, "{entries} ")?;
    Ok(text)
}

#[test]
fn just_the_calls_that_a_callback_refuses_are_answered_so(rt: HostRuntime) -> Result<(), Fail> {
    let alloc = rt.alloc();
    for kind in 0..KINDS {
        let wanted = wanted(alloc, kind)?;
        assert_report(told_by_session(&rt, alloc, kind), wanted.as_str())?;
        assert_report(told_by_hive(alloc, kind), wanted.as_str())?;
    }
    Ok(())
}
