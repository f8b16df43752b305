//! Rows of scripts, each with the reply that the rules give, on a machine that may refuse an allocation.
//!
//! A row that wants memory is answered 8, or ends its script; then the hive is as it was, and the same row is answered as it should be
//! when it comes again, a `notice` by the same notice. A `close` and a `notice` are never answered 8. The same of a callback that is
//! registered before the rows of a script, and taken out after them, for which no memory is wanting.
use crate::hives::{Subject, fresh_hive, image_of};
use anyhow::{Result, bail};
use reg_callbacks::{CallbackFault, Cookie};
use reg_script::ScriptFault;
use std::alloc::Global;
use std::fmt;
use std::ops::Range;

/// Scripts on a fresh hive, a row for each line with its reply; `*` and a number stand for so many bytes 0x2a, and `;` ends a line that has
/// none. In the first each call is accepted, the next four have notifications, and the others are rows of the rules.
const ROWS: [&str; 14] = [
    "\
root 983103 -> 0 handle 0
create 0 =Software\\Zugmeled 983103 -> 0 handle 1 disposition 1
open 0 =software 983103 -> 0 handle 2
enumkey 2 0 255 -> 0 =Zugmeled time 0
create 2 =Other 983103 x010203 -> 0 handle 3 disposition 1
create 2 =other 983103 -> 0 handle 4 disposition 2
getsec 3 3 -> 0 x010203
setsec 1 x010203 -> 0
setsec 3 x0a0b -> 0
getsec 3 2 -> 0 x0a0b
set 1 =small 4 x01020304 -> 0
set 1 =cell 3 *100 -> 0
set 1 =large 3 *16345 -> 0
set 1 =LARGE 3 *32689 -> 0
set 1 =cell 3 *99 -> 0
set 1 =cell 3 *200 -> 0
query 1 =small 4 -> 0 type 4 size 4 x01020304
query 1 =large - -> 0 type 3 size 32689
enumvalue 1 0 255 4 -> 0 =small type 4 size 4 x01020304
delvalue 1 =large -> 0
set 1 = 1 x -> 0
info 1 -> 0 subkeys 0 longest 0 values 3 longest 5 largest 200 security 3 time 0
delkey 2 =other -> 0
query 3 = - -> 1018
close 3 -> 0
create 1 =a\\b\\c\\d 983103 x0d -> 0 handle 17 disposition 1
create 1 =a\\e 983103 -> 0 handle 18 disposition 1
deltree 1 =a -> 0
enumkey 1 0 255 -> 259
create 1 =f 983103 -> 0 handle 20 disposition 1
deltree 1 = -> 0
info 1 -> 0 subkeys 0 longest 0 values 0 longest 0 largest 0 security 3 time 0
close 0 -> 0
close 1 -> 0",
    "\
root 983103 -> 0 handle 0
create 0 =A\\B 983103 -> 0 handle 1 disposition 1
open 0 =A 983103 -> 0 handle 2
notify 2 4 0 -> 0 watch 3
set 1 =v 4 x01 -> 0
notice -> notice none
set 2 =v 4 x01 -> 0
notice -> notice 3 5 matched
set 2 =v 4 x02 -> 0
notice -> notice none",
    "\
root 983103 -> 0 handle 0
create 0 =A 983103 -> 0 handle 1 disposition 1
notify 1 1 1 -> 0 watch 2
create 0 =AB\\X 983103 -> 0 handle 3 disposition 1
notice -> notice none
create 0 =A\\X\\Y 983103 -> 0 handle 4 disposition 1
notice -> notice 2 4 matched
notice -> notice none",
    "\
root 983103 -> 0 handle 0
create 0 =K 983103 -> 0 handle 1 disposition 1
notify 1 4 0 -> 0 watch 2
delkey 0 =K -> 0
notice -> notice 2 3 gone
notify 1 4 0 -> 1018
notify 0 0 0 -> 87",
    "\
root 983103 -> 0 handle 0
create 0 =A 983103 -> 0 handle 1 disposition 1
open 0 =A 983103 -> 0 handle 2
notify 1 4 0 -> 0 watch 3
notify 2 268435460 0 -> 0 watch 4
notify 1 2 0 -> 0 watch 5
set 0 =v 4 x01 -> 0
set 2 =v 4 x01 -> 0
close 1 -> 0
setsec 2 x01 -> 0
notice -> notice 3 7 matched
notice -> notice 4 7 matched
notice -> notice 5 8 closed
notice -> notice none",
    "\
root 983103 -> 0 handle 0
set 0 = 4 x01000000 -> 0
query 0 = 4 -> 0 type 4 size 4 x01000000
set 0 = 3 x0102030405 -> 0
delvalue 0 = -> 0
delvalue 0 = -> 2
set 0 =v 3 x0102030405 -> 0
set 0 =w 3 *16344 -> 0
set 0 =w 3 *16345 -> 0
set 0 =e 3 x -> 0
query 0 =e 0 -> 0 type 3 size 0 x
query 0 =e - -> 0 type 3 size 0
query 0 =f - -> 2
set 0 =t 3 x00010203040506070809 -> 0
query 0 =T 9 -> 234 type 3 size 10
query 0 =t 10 -> 0 type 3 size 10 x00010203040506070809",
    "\
root 983103 -> 0 handle 0
set 0 =b 4 x01 -> 0
set 0 =a 1 x -> 0
set 0 =B 3 x0203 -> 0
enumvalue 0 0 1 - -> 0 =b type 3 size 2
enumvalue 0 0 0 9 -> 234 type 3 size 2
delvalue 0 =b -> 0
enumvalue 0 0 1 - -> 0 =a type 1 size 0
create 0 =a\\a\\a\\a\\a\\a\\a\\a\\a\\a\\a\\a\\a\\a\\a\\a\\a\\a\\a\\a\\a\\a\\a\\a\\a\\a\\a\\a\\a\\a\\a\\a 983103 -> 0 handle 5 disposition 1",
    "\
root 983103 -> 0 handle 0
create 0 =A\\b\\C 983103 -> 0 handle 1 disposition 1
create 0 =a\\B\\c 983103 -> 0 handle 2 disposition 2
enumkey 0 0 255 -> 0 =A time 0
enumkey 0 0 0 -> 234 size 1
enumkey 0 1 255 -> 259
info 0 -> 0 subkeys 1 longest 1 values 0 longest 0 largest 0 security 20 time 0",
    "\
root 983103 -> 0 handle 0
create 0 =K 983103 -> 0 handle 1 disposition 1
open 0 =K 983103 -> 0 handle 2
set 1 =v 4 x07 -> 0
delkey 0 =k -> 0
create 0 =K 983103 -> 0 handle 5 disposition 1
query 1 =v 4 -> 1018
query 5 =v 4 -> 2
close 1 -> 0
query 1 =v 4 -> 6",
    "\
root 983103 -> 0 handle 0
create 0 =P\\C 983103 -> 0 handle 1 disposition 1
delkey 0 =P -> 5
at 9;delkey 0 =P\\C -> 0
enumkey 0 0 1 -> 0 =P time 9
at 8;delkey 0 =P -> 0
delkey 0 =P -> 2
delkey 0 = -> 87
delkey 0 =P\\ -> 87",
    "\
root 1 -> 0 handle 0
set 0 =v 4 x01 -> 5
create 0 =K 1 -> 0 handle 1 disposition 1
root 1048576 -> 87
query 9 = - -> 6",
    "\
root 983103 -> 0 handle 0
setsec 0 x0102 -> 0
getsec 0 1 -> 122 size 2
create 0 =K 983103 -> 0 handle 2 disposition 1
getsec 2 2 -> 0 x0102
setsec 0 x -> 87
create 0 =L 983103 x03 -> 0 handle 3 disposition 1
setsec 3 x0102 -> 0",
    "\
root 983103 -> 0 handle 0
create 0 =K 983103 x0102 -> 0 handle 1 disposition 1
create 0 =L 983103 -> 0 handle 2 disposition 1
setsec 0 x0102 -> 0
setsec 2 x0102 -> 0
getsec 2 2 -> 0 x0102",
    "\
root 983103 -> 0 handle 0
create 0 =A\\B\\C 983103 -> 0 handle 1 disposition 1
open 0 =A 131097 -> 0 handle 2
deltree 2 =B -> 5
open 0 =A 65547 -> 0 handle 3
set 3 =v 4 x01 -> 0
deltree 3 = -> 0
enumvalue 3 0 9 - -> 259
query 1 = - -> 1018
deltree 0 =A -> 0
query 3 = - -> 1018
deltree 0 =A -> 2",
];

/// What a list of 500 subkeys is asked, which parts at one more.
const PARTING: &str = "\
create 0 =k500 983103 -> 0 handle 501 disposition 1
enumkey 0 500 255 -> 0 =k500 time 0
enumkey 0 501 255 -> 259";

/// What three lists of 250, 250 and 251 subkeys are asked, which the ones behind those are in.
const PARTED: &str = "\
enumkey 0 750 255 -> 0 =k750 time 0
enumkey 0 751 255 -> 259";

/// What the one list is asked that is left of them without the first 500.
const JOINED: &str = "\
enumkey 0 250 255 -> 0 =k750 time 0
enumkey 0 251 255 -> 259
deltree 0 = -> 0";

/// What a hive holds: its image, how many entries its journal has, how many handles are open, and how many watches are pending.
#[derive(Drop)]
struct Snapshot {
    image: Vec<u8>,
    entries: usize,
    handles: usize,
    pending: usize,
}

/// What came of a row.
#[derive(Clone, Copy, Debug, PartialEq, Eq)]
enum Outcome {
    /// The wanted reply.
    Told,
    /// The reply 8.
    NoMemory,
    /// The script ended for want of memory.
    Ended,
}

/// How many rows were answered, how many of them not at once, and how many images were made again for want of memory. One allocation that
/// is refused is told in one of these, or ends the run: else it was passed over.
#[derive(Clone, Copy)]
struct Counts {
    rows: u32,
    refused: u32,
    ended: u32,
    images: u32,
}

impl fmt::Display for Counts {
    fn fmt<W: fmt::Write>(&self, f: &mut fmt::Formatter<W>) -> fmt::Result {
        let rows = self.rows;
        let refused = self.refused;
        let ended = self.ended;
        let images = self.images;
        write!(
            f,
            "{rows} rows, 8 to {refused}, {ended} ended, {images} images again"
        )
    }
}

fn take_snapshot<H: Subject>(alloc: Global, hive: &H, counts: &mut Counts) -> Result<Snapshot> {
    let image = match image_of(alloc, hive) {
        Ok(image) => image,
        Err(_) => {
            counts.images = counts.images.saturating_add(1);
            image_of(alloc, hive)?
        }
    };
    Ok(Snapshot {
        image,
        entries: hive.len(),
        handles: hive.open_handles(),
        pending: hive.pending(),
    })
}

/// A row's line, with its bytes written out, and those before it.
fn line_of(alloc: Global, line: &str) -> Result<String> {
    let Some((head, count)) = line.split_once("*") else {
        return Ok(line.replace(alloc, ';', "\n")?);
    };
    let mut text = head.to_string(alloc)?;
    text.push_str("x")?;
    for _byte in 0..count.parse::<u32>()? {
        text.push_str("2a")?;
    }
    Ok(text)
}

/// Gives a line to a hive. Another reply than the wanted one is an error.
fn ask<H: Subject>(alloc: Global, hive: &mut H, line: &str, wanted: &str) -> Result<Outcome> {
    let mut output = Vec::with_capacity(alloc, 256)?;
    match hive.ran(alloc, line.as_bytes(), &mut output) {
        Ok(()) => {
            let text = String::from_utf8(output)?;
            match text.as_str().strip_suffix("\n") {
                Some("8") => Ok(Outcome::NoMemory),
                Some(reply) if reply == wanted => Ok(Outcome::Told),
                _ => bail!("{text} in place of {wanted}"),
            }
        }
        Err(ScriptFault::Memory) => Ok(Outcome::Ended),
        Err(fault) => bail!("{fault}"),
    }
}

/// Whether a hive is as it was.
fn is_same(before: &Snapshot, after: &Snapshot) -> bool {
    after.entries == before.entries
        && after.handles == before.handles
        && after.pending == before.pending
        && after.image.as_slice() == before.image.as_slice()
}

/// Gives a row's line to a hive, and again where memory was wanting.
fn check_row<H: Subject>(
    alloc: Global,
    hive: &mut H,
    line: &str,
    wanted: &str,
    counts: &mut Counts,
) -> Result<()> {
    let before = take_snapshot(alloc, hive, counts)?;
    let outcome = ask(alloc, hive, line, wanted)?;
    let after = take_snapshot(alloc, hive, counts)?;
    counts.rows = counts.rows.saturating_add(1);
    if outcome == Outcome::NoMemory && (line.starts_with("close") || line.starts_with("notice")) {
        bail!("a Close or a notice was answered 8");
    }
    match outcome {
        Outcome::Told => return Ok(()),
        Outcome::NoMemory => counts.refused = counts.refused.saturating_add(1),
        Outcome::Ended => counts.ended = counts.ended.saturating_add(1),
    }
    if !is_same(&before, &after) {
        bail!("a refusal changed the hive");
    }
    if ask(alloc, hive, line, wanted)? != Outcome::Told {
        bail!("a row was not answered again");
    }
    Ok(())
}

/// Registers a callback, and again where memory was wanting, which must have left the hive as it was.
fn register<H: Subject>(alloc: Global, hive: &mut H, counts: &mut Counts) -> Result<Cookie> {
    let before = take_snapshot(alloc, hive, counts)?;
    counts.rows = counts.rows.saturating_add(1);
    match hive.add_callback() {
        Ok(cookie) => return Ok(cookie),
        Err(CallbackFault::Memory(_)) => counts.refused = counts.refused.saturating_add(1),
        Err(_) => bail!("a callback was refused"),
    }
    let after = take_snapshot(alloc, hive, counts)?;
    if !is_same(&before, &after) {
        bail!("a registration that was refused changed the hive");
    }
    match hive.add_callback() {
        Ok(cookie) => Ok(cookie),
        Err(_) => bail!("a callback was not registered again"),
    }
}

/// Gives a script's rows to a hive.
fn check_rows<H: Subject>(
    alloc: Global,
    hive: &mut H,
    script: &str,
    counts: &mut Counts,
) -> Result<()> {
    for row in script.split('\n') {
        if let Some((line, wanted)) = row.split_once(" -> ") {
            let line = line_of(alloc, line)?;
            check_row(alloc, hive, line.as_str(), wanted, counts)?;
        }
    }
    Ok(())
}

/// Runs a script, and hands out its replies.
fn replies_to<H: Subject>(alloc: Global, hive: &mut H, script: &str) -> Result<String> {
    let mut replies = Vec::new(alloc);
    match hive.ran(alloc, script.as_bytes(), &mut replies) {
        Ok(()) => Ok(String::from_utf8(replies)?),
        Err(_) => bail!("no memory"),
    }
}

/// The line for a key of this number.
fn line_for(alloc: Global, verb: &str, number: u32, rest: &str) -> Result<String> {
    Ok(format!(in alloc; "{verb} 0 =k{number:03}{rest}\n")?)
}

/// Gives a hive a line. Tells whether it is accepted; where memory was wanting, that is counted.
fn is_accepted<H: Subject>(
    alloc: Global,
    hive: &mut H,
    line: &str,
    counts: &mut Counts,
) -> Result<bool> {
    let mut output = Vec::with_capacity(alloc, 256)?;
    match hive.ran(alloc, line.as_bytes(), &mut output) {
        Ok(()) => {
            let reply = String::from_utf8(output)?;
            if reply.as_str().starts_with("0") {
                return Ok(true);
            }
            if reply.as_str() != "8\n" {
                bail!("{reply} in place of 0");
            }
            counts.refused = counts.refused.saturating_add(1);
        }
        Err(ScriptFault::Memory) => counts.ended = counts.ended.saturating_add(1),
        Err(fault) => bail!("{fault}"),
    }
    Ok(false)
}

/// Fails where a hive isn't as these lines leave a fresh one.
fn check_like<H: Subject>(alloc: Global, hive: &H, lines: &str, counts: &mut Counts) -> Result<()> {
    let mut twin: H = fresh_hive(alloc)?;
    let _replies = replies_to(alloc, &mut twin, lines)?;
    let wanted = take_snapshot(alloc, &twin, counts)?;
    if !is_same(&wanted, &take_snapshot(alloc, hive, counts)?) {
        bail!("a refusal changed the hive");
    }
    Ok(())
}

/// Gives a hive a line for the key of each number, and the one again that is refused its memory. That must leave the hive as the lines
/// before it leave a fresh one. `lines` has these, and gets each that was accepted.
fn check_each<H: Subject>(
    alloc: Global,
    hive: &mut H,
    verb: &str,
    numbers: Range<u32>,
    rest: &str,
    lines: &mut String,
    counts: &mut Counts,
) -> Result<()> {
    for number in numbers {
        let line = line_for(alloc, verb, number, rest)?;
        if !is_accepted(alloc, hive, line.as_str(), counts)? {
            check_like(alloc, hive, lines.as_str(), counts)?;
            if !is_accepted(alloc, hive, line.as_str(), counts)? {
                bail!("a line was not answered again");
            }
        }
        lines.push_str(line.as_str())?;
    }
    Ok(())
}

/// Gives a hive a root with 500 subkeys, 501, 751, and then the last 251 of these, and rows to each.
fn check_lists<H: Subject>(alloc: Global, counts: &mut Counts) -> Result<()> {
    let mut hive: H = fresh_hive(alloc)?;
    let made = " 983103";
    let mut lines = String::from_str(alloc, "root 983103\n")?;
    check_rows(alloc, &mut hive, "root 983103 -> 0 handle 0", counts)?;
    check_each(alloc, &mut hive, "create", 0..500, made, &mut lines, counts)?;
    check_rows(alloc, &mut hive, PARTING, counts)?;
    lines.push_str("create 0 =k500 983103\n")?;
    check_each(
        alloc,
        &mut hive,
        "create",
        501..751,
        made,
        &mut lines,
        counts,
    )?;
    check_rows(alloc, &mut hive, PARTED, counts)?;
    check_each(alloc, &mut hive, "delkey", 0..500, "", &mut lines, counts)?;
    check_rows(alloc, &mut hive, JOINED, counts)
}

/// Sets so many values on a root, one after another, that the tree notes their names.
fn check_values<H: Subject>(alloc: Global, counts: &mut Counts) -> Result<()> {
    let mut hive: H = fresh_hive(alloc)?;
    let mut lines = String::from_str(alloc, "root 983103\n")?;
    check_rows(alloc, &mut hive, "root 983103 -> 0 handle 0", counts)?;
    check_each(alloc, &mut hive, "set", 0..200, " 4 x", &mut lines, counts)
}

/// Gives a script's rows to a fresh hive with a callback that lets every call go on. It is taken out at last: for that no memory is
/// wanting.
fn check_script<H: Subject>(alloc: Global, script: &str, counts: &mut Counts) -> Result<()> {
    let mut hive: H = fresh_hive(alloc)?;
    let cookie = register(alloc, &mut hive, counts)?;
    check_rows(alloc, &mut hive, script, counts)?;
    if !hive.take_callback(cookie) {
        bail!("a callback was not taken out");
    }
    Ok(())
}

/// Gives the rows of all scripts to fresh hives, and prints how they were answered. Where one was answered wrongly, that is the error.
pub fn run_rows<H: Subject>(rt: &impl Print, alloc: Global) -> Result<()> {
    let mut counts = Counts {
        rows: 0,
        refused: 0,
        ended: 0,
        images: 0,
    };
    for script in ROWS {
        check_script::<H>(alloc, script, &mut counts)?;
    }
    check_lists::<H>(alloc, &mut counts)?;
    check_values::<H>(alloc, &mut counts)?;
    println!(rt; "{counts}")?;
    Ok(())
}
