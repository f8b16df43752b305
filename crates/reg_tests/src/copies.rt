//! Copies of steps, of what they are answered, and of a journal's entries, with ample memory: a call and an answer of each kind. What is
//! compared is the `Debug` text of a copy, which has every field.
use crate::support::{assert_report, hive};
use reg_callbacks::NoCallback;
use reg_calls::Hive;
use reg_journal::Share;
use reg_model::{Outcome, Step};
use reg_script::{Line, parse};
use std::alloc::{AllocError, Global};
use std::fmt::Debug;
use std::test::Fail;

/// A call of each kind; among them two questions more, of which one has too little room, and the other no handle.
const CALLS: &str = "\
root 983103
create 0 =A\\B 983103 x0102
open 0 =A 983103
set 0 =name 3 x0809
setsec 2 x0304
notify 2 268435460 1
query 0 =name 2
enumkey 0 0 1
enumvalue 0 0 5 -
info 2
getsec 2 2
query 0 =name 1
query 9 = -
delvalue 0 =name
delkey 0 =A\\B
deltree 0 =A
close 2";

/// Copies of the steps, of what they are answered, and of the entries.
const COPIES: &str = "\
Step { session: 3, moment: 9, call: Change(OpenRoot { mask: 983103 }) }
Step { session: 3, moment: 9, call: Change(CreateKey { handle: 0, path: Bytes { items: [65, 92, 66] }, mask: 983103, \
descriptor: Some(Bytes { items: [1, 2] }) }) }
Step { session: 3, moment: 9, call: Change(OpenKey { handle: 0, path: Bytes { items: [65] }, mask: 983103 }) }
Step { session: 3, moment: 9, call: Change(SetValue { handle: 0, name: Bytes { items: [110, 97, 109, 101] }, kind: 3, \
bytes: Bytes { items: [8, 9] } }) }
Step { session: 3, moment: 9, call: Change(SetSecurity { handle: 2, descriptor: Bytes { items: [3, 4] } }) }
Step { session: 3, moment: 9, call: Change(Notify { handle: 2, filter: 268435460, subtree: true }) }
Step { session: 3, moment: 9, call: Query(QueryValue { handle: 0, name: Bytes { items: [110, 97, 109, 101] }, room: Some(2) }) }
Step { session: 3, moment: 9, call: Query(EnumKey { handle: 0, index: 0, room: 1 }) }
Step { session: 3, moment: 9, call: Query(EnumValue { handle: 0, index: 0, name_room: 5, room: None }) }
Step { session: 3, moment: 9, call: Query(QueryInfo { handle: 2 }) }
Step { session: 3, moment: 9, call: Query(GetSecurity { handle: 2, room: 2 }) }
Step { session: 3, moment: 9, call: Query(QueryValue { handle: 0, name: Bytes { items: [110, 97, 109, 101] }, room: Some(1) }) }
Step { session: 3, moment: 9, call: Query(QueryValue { handle: 9, name: Bytes { items: [] }, room: None }) }
Step { session: 3, moment: 9, call: Change(DeleteValue { handle: 0, name: Bytes { items: [110, 97, 109, 101] } }) }
Step { session: 3, moment: 9, call: Change(DeleteKey { handle: 0, path: Bytes { items: [65, 92, 66] } }) }
Step { session: 3, moment: 9, call: Change(DeleteTree { handle: 0, path: Bytes { items: [65] } }) }
Step { session: 3, moment: 9, call: Change(Close { handle: 2 }) }
Changed(ChangeReply { status: 0, number: Some(0), handle: Some(0), disposition: None })
Changed(ChangeReply { status: 0, number: Some(1), handle: Some(1), disposition: Some(1) })
Changed(ChangeReply { status: 0, number: Some(2), handle: Some(2), disposition: None })
Changed(ChangeReply { status: 0, number: Some(3), handle: None, disposition: None })
Changed(ChangeReply { status: 0, number: Some(4), handle: None, disposition: None })
Changed(ChangeReply { status: 0, number: Some(5), handle: None, disposition: None })
Answered(Answer { at: 6, body: Value { kind: 3, size: 2, bytes: Some(Bytes { items: [8, 9] }) } })
Answered(Answer { at: 6, body: Key { name: Bytes { items: [65] }, time: 9 } })
Answered(Answer { at: 6, body: Member { name: Bytes { items: [110, 97, 109, 101] }, kind: 3, size: 2, bytes: None } })
Answered(Answer { at: 6, body: Info { subkeys: 1, longest_key: 1, values: 0, longest_value: 0, largest: 0, security: 2, time: 9 } })
Answered(Answer { at: 6, body: Security { bytes: Bytes { items: [3, 4] } } })
Answered(Answer { at: 6, body: Short { status: 234, kind: 3, size: 2 } })
Answered(Answer { at: 6, body: Refused { status: 6 } })
Changed(ChangeReply { status: 0, number: Some(6), handle: None, disposition: None })
Changed(ChangeReply { status: 0, number: Some(7), handle: None, disposition: None })
Changed(ChangeReply { status: 0, number: Some(8), handle: None, disposition: None })
Changed(ChangeReply { status: 0, number: Some(9), handle: None, disposition: None })
Entry { number: 0, session: 3, moment: 9, change: OpenRoot { mask: 983103 }, reply: ChangeReply { status: 0, number: Some(0), handle: \
Some(0), disposition: None } }
Entry { number: 1, session: 3, moment: 9, change: CreateKey { handle: 0, path: Bytes { items: [65, 92, 66] }, mask: 983103, descriptor: \
Some(Bytes { items: [1, 2] }) }, reply: ChangeReply { status: 0, number: Some(1), handle: Some(1), disposition: Some(1) } }
Entry { number: 2, session: 3, moment: 9, change: OpenKey { handle: 0, path: Bytes { items: [65] }, mask: 983103 }, \
reply: ChangeReply { status: 0, number: Some(2), handle: Some(2), disposition: None } }
Entry { number: 3, session: 3, moment: 9, change: SetValue { handle: 0, name: Bytes { items: [110, 97, 109, 101] }, kind: 3, bytes: \
Bytes { items: [8, 9] } }, reply: ChangeReply { status: 0, number: Some(3), handle: None, disposition: None } }
Entry { number: 4, session: 3, moment: 9, change: SetSecurity { handle: 2, descriptor: Bytes { items: [3, 4] } }, \
reply: ChangeReply { status: 0, number: Some(4), handle: None, disposition: None } }
Entry { number: 5, session: 3, moment: 9, change: Notify { handle: 2, filter: 268435460, subtree: true }, \
reply: ChangeReply { status: 0, number: Some(5), handle: None, disposition: None } }
Entry { number: 6, session: 3, moment: 9, change: DeleteValue { handle: 0, name: Bytes { items: [110, 97, 109, 101] } }, \
reply: ChangeReply { status: 0, number: Some(6), handle: None, disposition: None } }
Entry { number: 7, session: 3, moment: 9, change: DeleteKey { handle: 0, path: Bytes { items: [65, 92, 66] } }, \
reply: ChangeReply { status: 0, number: Some(7), handle: None, disposition: None } }
Entry { number: 8, session: 3, moment: 9, change: DeleteTree { handle: 0, path: Bytes { items: [65] } }, \
reply: ChangeReply { status: 0, number: Some(8), handle: None, disposition: None } }
Entry { number: 9, session: 3, moment: 9, change: Close { handle: 2 }, reply: ChangeReply { status: 0, number: Some(9), handle: None, \
disposition: None } }
";

/// A step with the call of a line, by session 3 at moment 9.
fn step(alloc: Global, line: &str) -> Result<Step, Fail> {
    match parse(alloc, 1, line.as_bytes())? {
        Line::Call(call) => Ok(Step {
            session: 3,
            moment: 9,
            call,
        }),
        _ => Err("no line of a call".into()),
    }
}

/// Tells a copy.
fn tell_copy<T: Debug + Drop>(copy: Result<T, AllocError>, text: &mut String) -> Result<(), Fail> {
    write!(text, "{:?}\n", copy?)?;
    Ok(())
}

/// The steps. It tells copies of them.
fn steps(alloc: Global, text: &mut String) -> Result<Vec<Step>, Fail> {
    let mut steps = Vec::new(alloc);
    for line in CALLS.lines() {
        let step = step(alloc, line)?;
        tell_copy(step.try_clone(alloc), text)?;
        steps.push(step)?;
    }
    Ok(steps)
}

/// Tells copies of what steps are answered.
fn tell_outcomes(alloc: Global, outcomes: &[Outcome], text: &mut String) -> Result<(), Fail> {
    for outcome in outcomes {
        tell_copy(outcome.try_clone(alloc), text)?;
    }
    Ok(())
}

/// Runs the steps on a hive, and tells copies of what they are answered and of the entries.
fn tell(
    alloc: Global,
    hive: &mut Hive<NoCallback>,
    shares: &mut Vec<Share>,
    text: &mut String,
) -> Result<(), Fail> {
    let steps = steps(alloc, text)?;
    tell_outcomes(alloc, &hive.run(shares, steps)?, text)?;
    for entry in hive.entries() {
        tell_copy(entry.try_clone(alloc), text)?;
    }
    Ok(())
}

fn told(alloc: Global) -> Result<String, Fail> {
    let mut text = String::new(alloc);
    let mut hive = hive(alloc, "")?;
    let mut shares = hive.seat(4)?;
    tell(alloc, &mut hive, &mut shares, &mut text)?;
    Ok(text)
}

#[test]
fn copies_have_every_field(rt: HostRuntime) -> Result<(), Fail> {
    assert_report(told(rt.alloc()), COPIES)
}
