//! Which callbacks calls and causes ask. Of a call that a cause before them refuses none is asked, of each other call but a Close each is,
//! once, from the highest altitude down to the first that refuses; and the cause of a change asks as the change does. A callback decides by
//! what it is shown alone, and so no clause sees a question too many.
//!
//! The rows are those of the rules' tables: each call, where it is accepted and by each of its refusals. Three causes are left out, which
//! take more than a test has: a full journal, bins without room and want of memory.
use crate::support::{assert_report, hive, lines_of, replies, seated};
use reg_callbacks::Callback;
use reg_calls::{Hive, SeatedHive};
use reg_journal::Share;
use reg_model::{Call, Change, Query};
use reg_script::{Line, parse};
use std::alloc::{AllocError, Global};
use std::cell::Cell;
use std::rc::Rc;
use std::test::Fail;

/// A row has what it is about, a script from the fresh hive on, a call, its reply, and the digits of the callbacks that are asked of it, in
/// their order, where all let it go on. In the script and the call `;` and `{N TEXT}` are as in [`lines_of`].
const ROWS: &str = "\
OpenRoot |  | root 983103 | 0 handle 0 | 321
OpenRoot, mask |  | root 1048576 | 87 | 0
OpenKey | root 983103;create 0 =A 983103; | open 0 =A 983103 | 0 handle 2 | 321
OpenKey, same key | root 983103; | open 0 = 983103 | 0 handle 1 | 321
OpenKey, no handle at all |  | open 0 = 983103 | 6 | 0
OpenKey, no handle | root 983103; | open 9 = 983103 | 6 | 0
OpenKey, deleted key | root 983103;create 0 =K 983103;delkey 0 =K; | open 1 = 983103 | 1018 | 0
OpenKey, path | root 983103; | open 0 =\\ 983103 | 87 | 0
OpenKey, mask | root 983103; | open 0 = 1048576 | 87 | 0
OpenKey, no key | root 983103; | open 0 =A 983103 | 2 | 321
CreateKey | root 983103; | create 0 =A\\B 983103 x01 | 0 handle 1 disposition 1 | 321
CreateKey, key there | root 983103;create 0 =A 983103; | create 0 =A 983103 | 0 handle 2 disposition 2 | 321
CreateKey, no handle at all |  | create 0 =A 983103 | 6 | 0
CreateKey, no handle | root 983103; | create 9 =A 983103 | 6 | 0
CreateKey, deleted key | root 983103;create 0 =K 983103;delkey 0 =K; | create 1 =A 983103 | 1018 | 0
CreateKey, path | root 983103; | create 0 =A\\\\B 983103 | 87 | 0
CreateKey, mask | root 983103; | create 0 =A 1048576 | 87 | 0
CreateKey, no byte of a descriptor | root 983103; | create 0 =A 983103 x | 87 | 0
CreateKey, 65,536 of them | root 983103; | create 0 =A 983103 x{65536 00} | 87 | 0
CreateKey, 33 keys missing | root 983103; | create 0 =a{32 \\a} 983103 | 1450 | 0
CreateKey, 513 names | root 983103;{512 create # =a 983103;} | create 512 =a 983103 | 1450 | 0
SetValue | root 983103; | set 0 =v 4 x01 | 0 | 321
SetValue, value there | root 983103;set 0 =v 4 x01; | set 0 =v 4 x02 | 0 | 321
SetValue, no handle at all |  | set 0 =v 4 x01 | 6 | 0
SetValue, no handle | root 983103; | set 9 =v 4 x01 | 6 | 0
SetValue, deleted key | root 983103;create 0 =K 983103;delkey 0 =K; | set 1 =v 4 x01 | 1018 | 0
SetValue, name | root 983103; | set 0 =%80 4 x01 | 87 | 0
SetValue, data | root 983103; | set 0 =v 4 x{1048577 00} | 87 | 0
SetValue, right | root 983101; | set 0 =v 4 x01 | 5 | 0
DeleteValue | root 983103;set 0 =v 4 x01; | delvalue 0 =v | 0 | 321
DeleteValue, no handle at all |  | delvalue 0 =v | 6 | 0
DeleteValue, no handle | root 983103; | delvalue 9 =v | 6 | 0
DeleteValue, deleted key | root 983103;create 0 =K 983103;delkey 0 =K; | delvalue 1 =v | 1018 | 0
DeleteValue, name | root 983103; | delvalue 0 =%80 | 87 | 0
DeleteValue, right | root 983101; | delvalue 0 =v | 5 | 0
DeleteValue, no value | root 983103; | delvalue 0 =v | 2 | 321
DeleteKey | root 983103;create 0 =A 983103; | delkey 0 =A | 0 | 321
DeleteKey, no handle at all |  | delkey 0 =A | 6 | 0
DeleteKey, no handle | root 983103; | delkey 9 =A | 6 | 0
DeleteKey, deleted key | root 983103;create 0 =K 983103;delkey 0 =K; | delkey 1 =A | 1018 | 0
DeleteKey, path | root 983103; | delkey 0 =\\ | 87 | 0
DeleteKey, empty path | root 983103; | delkey 0 = | 87 | 0
DeleteKey, no key | root 983103; | delkey 0 =A | 2 | 321
DeleteKey, subkeys | root 983103;create 0 =A\\B 983103; | delkey 0 =A | 5 | 321
DeleteTree | root 983103;create 0 =A\\B 983103; | deltree 0 =A | 0 | 321
DeleteTree, empty path | root 983103;create 0 =A\\B 983103;set 0 =v 4 x01; | deltree 0 = | 0 | 321
DeleteTree, no handle at all |  | deltree 0 = | 6 | 0
DeleteTree, no handle | root 983103; | deltree 9 =A | 6 | 0
DeleteTree, deleted key | root 983103;create 0 =K 983103;delkey 0 =K; | deltree 1 = | 1018 | 0
DeleteTree, path | root 983103; | deltree 0 =\\ | 87 | 0
DeleteTree, right | root 917567;create 0 =A 983103; | deltree 0 =A | 5 | 0
DeleteTree, right for the empty path | root 983101; | deltree 0 = | 5 | 0
DeleteTree, no key | root 983101; | deltree 0 =A | 2 | 321
SetSecurity | root 983103; | setsec 0 x01 | 0 | 321
SetSecurity, no handle at all |  | setsec 0 x01 | 6 | 0
SetSecurity, no handle | root 983103; | setsec 9 x01 | 6 | 0
SetSecurity, deleted key | root 983103;create 0 =K 983103;delkey 0 =K; | setsec 1 x01 | 1018 | 0
SetSecurity, no byte | root 983103; | setsec 0 x | 87 | 0
SetSecurity, 65,536 bytes | root 983103; | setsec 0 x{65536 00} | 87 | 0
SetSecurity, right | root 720959; | setsec 0 x01 | 5 | 0
Notify | root 983103; | notify 0 4 0 | 0 watch 1 | 321
Notify, no handle at all |  | notify 0 4 0 | 6 | 0
Notify, no handle | root 983103; | notify 9 4 0 | 6 | 0
Notify, deleted key | root 983103;create 0 =K 983103;delkey 0 =K; | notify 1 4 0 | 1018 | 0
Notify, filter of no kind | root 983103; | notify 0 0 0 | 87 | 0
Notify, filter of another bit | root 983103; | notify 0 20 0 | 87 | 0
Notify, right | root 983087; | notify 0 4 0 | 5 | 0
Close | root 983103; | close 0 | 0 | 0
Close, no handle at all |  | close 0 | 6 | 0
Close, no handle | root 983103; | close 9 | 6 | 0
Close, deleted key | root 983103;create 0 =K 983103;delkey 0 =K; | close 1 | 0 | 0
QueryValue | root 983103;set 0 =v 4 x01; | query 0 =v 1 | 0 type 4 size 1 x01 | 321
QueryValue, no room given | root 983103;set 0 =v 4 x01; | query 0 =v - | 0 type 4 size 1 | 321
QueryValue, no handle | root 983103; | query 9 =v 1 | 6 | 0
QueryValue, deleted key | root 983103;create 0 =K 983103;delkey 0 =K; | query 1 =v 1 | 1018 | 0
QueryValue, name | root 983103; | query 0 =%80 1 | 87 | 0
QueryValue, right | root 983102; | query 0 =v 1 | 5 | 0
QueryValue, no value | root 983103; | query 0 =v 1 | 2 | 321
QueryValue, room | root 983103;set 0 =v 4 x01; | query 0 =v 0 | 234 type 4 size 1 | 321
EnumKey | root 983103;create 0 =A 983103; | enumkey 0 0 1 | 0 =A time 0 | 321
EnumKey, no handle | root 983103; | enumkey 9 0 1 | 6 | 0
EnumKey, deleted key | root 983103;create 0 =K 983103;delkey 0 =K; | enumkey 1 0 1 | 1018 | 0
EnumKey, right | root 983095; | enumkey 0 0 1 | 5 | 0
EnumKey, index | root 983103; | enumkey 0 0 1 | 259 | 321
EnumKey, room | root 983103;create 0 =A 983103; | enumkey 0 0 0 | 234 size 1 | 321
EnumValue | root 983103;set 0 =v 4 x01; | enumvalue 0 0 1 1 | 0 =v type 4 size 1 x01 | 321
EnumValue, no handle | root 983103; | enumvalue 9 0 1 1 | 6 | 0
EnumValue, deleted key | root 983103;create 0 =K 983103;delkey 0 =K; | enumvalue 1 0 1 1 | 1018 | 0
EnumValue, right | root 983102; | enumvalue 0 0 1 1 | 5 | 0
EnumValue, index | root 983103; | enumvalue 0 0 1 1 | 259 | 321
EnumValue, room for the name | root 983103;set 0 =v 4 x01; | enumvalue 0 0 0 1 | 234 type 4 size 1 | 321
EnumValue, room for the data | root 983103;set 0 =v 4 x01; | enumvalue 0 0 1 0 | 234 type 4 size 1 | 321
QueryInfo | root 983103; | info 0 | 0 subkeys 0 longest 0 values 0 longest 0 largest 0 security 1 time 0 | 321
QueryInfo, no handle | root 983103; | info 9 | 6 | 0
QueryInfo, deleted key | root 983103;create 0 =K 983103;delkey 0 =K; | info 1 | 1018 | 0
QueryInfo, right | root 983102; | info 0 | 5 | 0
GetSecurity | root 983103; | getsec 0 1 | 0 x07 | 321
GetSecurity, no handle | root 983103; | getsec 9 1 | 6 | 0
GetSecurity, deleted key | root 983103;create 0 =K 983103;delkey 0 =K; | getsec 1 1 | 1018 | 0
GetSecurity, right | root 852031; | getsec 0 1 | 5 | 0
GetSecurity, room | root 983103; | getsec 0 0 | 122 size 1 | 321";

/// Those of calls that one count or another refuses, where there is as much as there may be.
const CROWDED: &str = "\
OpenRoot, handles | {16384 root 983103;} | root 983103 | 1450 | 0
OpenKey, handles | {16384 root 983103;} | open 0 = 983103 | 1450 | 0
CreateKey, handles | {16384 root 983103;} | create 0 =A 983103 | 1450 | 0
CreateKey, 60,000 subkeys | root 983103;{15000 create 0 =a# 983103;}as 1;root 983103;{15000 create 15001 =b# 983103;}\
as 2;root 983103;{15000 create 30002 =c# 983103;}as 3;root 983103;{15000 create 45003 =d# 983103;} | create 0 =e 983103 | 1450 | 0
SetValue, values | root 983103;{16384 set 0 =# 4 x;} | set 0 =v 4 x01 | 1450 | 0
Notify, notifications | root 983103;{4096 notify 0 4 0;} | notify 0 4 0 | 1450 | 0";

/// A hive of a root alone, whose descriptor has one byte.
const FRESH: &str = "\
sk 0 0 0 1 x07
nk 44 0 0 - 0 - @1 - 0 =ROOT";

/// A hive as another program may leave it: no call gives a key the mark 0x08, which `B` below `A` has.
const MARKED: &str = "\
sk 0 0 0 1 x07
nk 40 0 0 - 0 - @1 - 0 =B
lh @2
nk 32 0 1 @3 0 - @1 - 0 =A
lh @4
nk 44 0 1 @5 0 - @1 - 0 =ROOT";

/// Rows of that hive.
const KEPT: &str = "\
DeleteKey, mark 0x08 | root 983103; | delkey 0 =A\\B | 5 | 321
DeleteTree, mark 0x08 | root 983103; | deltree 0 =A\\B | 5 | 321
DeleteTree, mark 0x08 below | root 983103; | deltree 0 =A | 5 | 321
DeleteTree, empty path, mark 0x08 below | root 983103; | deltree 0 = | 5 | 321";

/// A row's parts.
#[derive(Drop)]
struct Row<'a> {
    name: &'a str,
    setup: &'a str,
    call: &'a str,
    /// The reply and the callbacks that are asked.
    wanted: &'a str,
}

/// The status that the callback in the middle refuses by, and what is wanted then: the lowest isn't asked.
const REFUSAL: u32 = 77;

const REFUSED: &str = "77 | 32";

/// Answers a status to each call, and notes that it was asked: its digit behind those of the callbacks that were asked before.
#[derive(Drop)]
struct Noting {
    digit: u32,
    status: u32,
    asked: Rc<Cell<u32>>,
}

impl Noting {
    fn note(&self) {
        let before = self.asked.get().wrapping_mul(10);
        self.asked.set(before.wrapping_add(self.digit));
    }
}

impl Callback for Noting {
    ghost answers = { λ callback session moment path seen. callback.status };

    fn pre_change(&self, _: u8, _: u64, _: &[u8], _: &Change) -> u32 {
        self.note();
        self.status
    }

    fn pre_query(&self, _: u8, _: &[u8], _: &Query) -> u32 {
        self.note();
        self.status
    }
}

fn parse_row(row: &str) -> Option<Row<'_>> {
    let (name, rest) = row.split_once(" | ")?;
    let (setup, rest) = rest.split_once(" | ")?;
    let (call, wanted) = rest.split_once(" | ")?;
    Some(Row {
        name,
        setup,
        call,
        wanted,
    })
}

/// Registers three callbacks, whose digits rise with their altitudes. The one in the middle answers this status, and the others 0.
fn register(hive: &mut SeatedHive<Noting>, status: u32, asked: &Rc<Cell<u32>>) -> Result<(), Fail> {
    for (altitude, digit, status) in [(100, 1, 0), (300, 3, 0), (200, 2, status)] {
        let callback = Noting {
            digit,
            status,
            asked: asked.clone()?,
        };
        if hive.hive.register(callback, altitude).is_err() {
            return Err("not registered".into());
        }
    }
    Ok(())
}

/// The status that a line's change would be refused by, 0 where nothing refuses it; `None` where the line is no change.
fn cause(alloc: Global, hive: &SeatedHive<Noting>, line: &str) -> Result<Option<u32>, Fail> {
    match parse(alloc, 1, line.as_bytes())? {
        Line::Call(Call::Change(change)) => {
            let cause = hive.hive.cause(&hive.shares[0], 0, &change);
            Ok(Some(cause.unwrap_or(0)))
        }
        _ => Ok(None),
    }
}

/// Fails where a cause isn't the status that a call was told, or asked other callbacks.
fn check_cause(alloc: Global, cause: Option<u32>, asked: u32, told: &str) -> Result<(), Fail> {
    let Some(status) = cause else {
        return Ok(());
    };
    let front = format!(in alloc; "{status} ")?;
    let end = format!(in alloc; "| {asked}")?;
    if told.starts_with(front.as_str()) && told.ends_with(end.as_str()) {
        return Ok(());
    }
    Err(Fail::new(format_args!("{told}, and the cause is {status} | {asked}")))
}

/// What a hive replies to a call after a setup, and which callbacks were asked of the call.
fn asked_in(
    alloc: Global,
    hive: &mut SeatedHive<Noting>,
    setup: &str,
    call: &str,
    status: u32,
) -> Result<String, Fail> {
    let asked = Rc::new(alloc, Cell::new(0))?;
    let _made = replies(alloc, hive, setup)?;
    register(hive, status, &asked)?;
    asked_of_call(alloc, hive, call, &asked)
}

/// The same of a call alone, with its cause before it.
fn asked_of_call(
    alloc: Global,
    hive: &mut SeatedHive<Noting>,
    call: &str,
    asked: &Cell<u32>,
) -> Result<String, Fail> {
    let cause = cause(alloc, hive, call)?;
    let asked_by_cause = asked.replace(0);
    let told = told_of(alloc, hive, call, asked)?;
    check_cause(alloc, cause, asked_by_cause, told.as_str())?;
    Ok(told)
}

/// What a hive replies to a call, and which callbacks it asks.
fn told_of(
    alloc: Global,
    hive: &mut SeatedHive<Noting>,
    call: &str,
    asked: &Cell<u32>,
) -> Result<String, Fail> {
    let reply = replies(alloc, hive, call)?;
    Ok(format!(in alloc; "{} | {}", reply.as_str().trim_end(), asked.get())?)
}

/// What `asked_in` tells of the hive of a draft.
fn asked_of(
    alloc: Global,
    table: &str,
    setup: &str,
    call: &str,
    status: u32,
) -> Result<String, Fail> {
    let mut hive = seated(alloc, table)?;
    asked_in(alloc, &mut hive, setup, call, status)
}

/// Tests a row where the callback in the middle answers this status.
fn check_status(
    alloc: Global,
    table: &str,
    row: &Row<'_>,
    status: u32,
    wanted: &str,
) -> Result<(), Fail> {
    let setup = lines_of(alloc, row.setup)?;
    let call = lines_of(alloc, row.call)?;
    let told = asked_of(alloc, table, setup.as_str(), call.as_str(), status)?;
    if told.as_str() == wanted {
        return Ok(());
    }
    Err(Fail::new(format_args!("{}: {}, and not {wanted}", row.name, told.as_str())))
}

/// Tests a row where the callback in the middle refuses its call; and, where callbacks are asked of it, where all let it go on.
fn check(alloc: Global, table: &str, row: &str) -> Result<(), Fail> {
    let Some(row) = parse_row(row) else {
        return Err("a part is missing".into());
    };
    if row.wanted.ends_with(" | 0") {
        return check_status(alloc, table, &row, REFUSAL, row.wanted);
    }
    check_status(alloc, table, &row, REFUSAL, REFUSED)?;
    check_status(alloc, table, &row, 0, row.wanted)
}

fn check_all(alloc: Global, table: &str, rows: &str) -> Result<(), Fail> {
    for row in rows.lines() {
        check(alloc, table, row)?;
    }
    Ok(())
}

#[test]
fn callbacks_are_asked_in_their_place(rt: HostRuntime) -> Result<(), Fail> {
    check_all(rt.alloc(), FRESH, ROWS)?;
    check_all(rt.alloc(), MARKED, KEPT)
}

#[test]
fn nobody_is_asked_where_a_count_refuses(rt: HostRuntime) -> Result<(), Fail> {
    check_all(rt.alloc(), FRESH, CROWDED)
}

/// The status of an OpenRoot by a share.
fn open(hive: &mut Hive<Noting>, share: &mut Share) -> u32 {
    hive.apply(share, 0, Change::OpenRoot { mask: 983_103 })
        .status
}

/// What a QueryInfo by a share is answered.
fn info(alloc: Global, hive: &Hive<Noting>, share: &Share) -> Result<String, AllocError> {
    let answer = hive.read(share, &Query::QueryInfo { handle: 0 });
    format!(in alloc; "{:?}", answer.body)
}

/// A call by the first share of a hive; then the cause of one by that share at another hive, such a call, and a question there; and one
/// more call at its own hive. Last stand the rows of both hives' books, and which callback of the other hive was asked.
fn strange(
    alloc: Global,
    own: &mut Hive<Noting>,
    other: &mut Hive<Noting>,
    asked: &Rc<Cell<u32>>,
) -> Result<String, Fail> {
    let mut shares = own.seat(1)?;
    let _seats = other.seat(1)?;
    match shares.get_mut(0) {
        Some(share) => told_by(alloc, own, other, share, asked),
        None => Err("there is no share".into()),
    }
}

/// The same by that share.
fn told_by(
    alloc: Global,
    own: &mut Hive<Noting>,
    other: &mut Hive<Noting>,
    share: &mut Share,
    asked: &Rc<Cell<u32>>,
) -> Result<String, Fail> {
    let first = open(own, share);
    let cause = other.cause(share, 0, &Change::OpenRoot { mask: 983_103 });
    let status = open(other, share);
    let info = info(alloc, other, share)?;
    let last = open(own, share);
    let rows = (own.row(0), other.row(0));
    Ok(format!(in alloc;
        "{first}, {cause:?} {status} {}, {last}, {rows:?}, {} asked",
        info.as_str(),
        asked.get()
    )?)
}

/// What `strange` tells of a hive, and of one with a callback.
fn strange_to_another(alloc: Global, own: &mut Hive<Noting>) -> Result<String, Fail> {
    let asked = Rc::new(alloc, Cell::new(0))?;
    let callback = Noting {
        digit: 1,
        status: 0,
        asked: asked.clone()?,
    };
    let mut other = hive(alloc, "")?;
    if other.register(callback, 100).is_err() {
        return Err("not registered".into());
    }
    strange(alloc, own, &mut other, &asked)
}

fn told_of_strangers(alloc: Global) -> Result<String, Fail> {
    let mut own = hive(alloc, "")?;
    strange_to_another(alloc, &mut own)
}

#[test]
fn a_share_that_is_not_current_asks_nobody(rt: HostRuntime) -> Result<(), Fail> {
    assert_report(
        told_of_strangers(rt.alloc()),
        "0, Some(1009) 1009 Refused { status: 1009 }, 0, (Some(2), Some(0)), 0 asked",
    )
}
