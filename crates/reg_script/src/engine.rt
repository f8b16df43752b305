//! The script: one call a line, one reply a line.

ghost use Rattle.std.specs.Prelude.{◌≡◌, ◌<◌, ℕ, List, ◌∷◌, ◌++◌, [], IfOk, OnOk, length, string_bytes, ◌+◌, OnErr, IfErr, Option, true};
ghost use Rattle.std.specs.List.{position_or_len};
ghost use Rattle.std.specs.Io.KnownBytes.{IsAtEnd, Appends, Consumes};
ghost use Rattle.reg_calls.specs.HiveView.{view_of, noted_of, callbacks_of, asks_of};
ghost use Rattle.reg_calls.specs.Seats.{AreSeated};
ghost use Rattle.reg_script.specs.LineWords.{lines_of};
ghost use Rattle.reg_script.specs.LineMeanings.{asks, takes_notice};
ghost use Rattle.reg_script.specs.ReadLines.{said};
ghost use Rattle.reg_script.specs.Lines.{IsSaid, Lines, LinesTo, LinesFrom};
ghost use Rattle.reg_script.specs.Stops.{fault_number, HasNoFeed, AreWithin, Stops, StopsFrom};
ghost use Rattle.reg_script.specs.FailedLines.{HaveFailed, StopsStrictly};
ghost use Rattle.reg_script.specs.Internal.Progress.{IsSteady, Adds, IsUnchanged, Takes, Halts, HaltsAtEnd, Ends, among, position_of, stand_of};
ghost use Rattle.reg_script.specs.Internal.Progress.{is_feed, JoinsWithin, IsPartFault, IsAnswered, KeepsLine, EndsLine, IsLineFault, EndsLast};
ghost use Rattle.reg_script.specs.Internal.StrictEnds.{StopsBy};

use crate::failed::{FailedLine, Ran, StrictFault, Went, went_with};
use crate::line::{Line, Session, Setting};
use crate::output::{close, pass_on, settle};
use crate::parsing::parse;
use crate::reply::{
    CHANGE_REPLY_LIMIT, NOTICE_REPLY_LIMIT, is_notify, write_answered, write_changed, write_notice,
};
use reg_callbacks::Callback;
use reg_calls::{Hive, apply_by, read_by};
use reg_journal::Share;
use reg_model::{Call, Change, Query};
use reg_text::{Output, OutputFault};
use std::alloc::{AllocError, Global};
use std::io::{Read, Write};
use std::mem;
use thiserror::Error;

/// The longest line of a script, in bytes without its LF. The limit is this project's own.
pub const LINE_LIMIT: usize = 2_200_000;

/// How many lines a script has at most. The limit is this project's own.
pub const LINES_LIMIT: u32 = 1_000_000;

/// More reads than these, of a byte or more each, pass the limits of lines: each line with its LF, and one byte more.
const READS_LIMIT: u64 = 2_200_001_000_001;

/// How many hives a script runs on here.
const HIVES: u8 = 1;

/// How many bytes are read at a time.
const CHUNK: usize = 65_536;

/// What ended a script early. Replies to all lines before stand, save after `Write`, which says how much of them was taken.
#[derive(Clone, Copy, Debug, PartialEq, Eq, Error)]
pub enum ScriptFault {
    /// A read failed.
    #[error("a read failed")]
    Read,
    /// A write failed, or took no byte, after so many bytes.
    #[error("a write failed after {written} bytes")]
    Write { written: u64 },
    /// A line above 2,200,000 bytes, or more than 1,000,000 lines.
    #[error("a line is too long, or there are too many")]
    TooLong,
    /// A growth was refused; the line that wanted it changed nothing, and took no notice.
    #[error("no memory")]
    Memory,
}

impl From<AllocError> for ScriptFault {
    ghost use Rattle.reg_script.specs.declared.engine.ScriptFault.{ScriptFault};

    ghost from_gives = { λ _ e. e ≡ ScriptFault.Memory };

    fn from(_fault: AllocError) -> ScriptFault {
        ScriptFault::Memory
    }
}

impl From<OutputFault> for ScriptFault {
    ghost use Rattle.reg_script.specs.declared.engine.ScriptFault.{ScriptFault};

    ghost from_gives = { λ fault e. e ≡ ScriptFault.Write fault.written };

    fn from(fault: OutputFault) -> ScriptFault {
        ScriptFault::Write {
            written: fault.written,
        }
    }
}

impl ScriptFault {
    /// The fault's number: 1 Read, 2 Write, 3 TooLong, 4 Memory.
    pub fn number(&self) -> u8
        ensures { result ≡ fault_number self.now }
    {
        match self {
            ScriptFault::Read => 1,
            ScriptFault::Write { .. } => 2,
            ScriptFault::TooLong => 3,
            ScriptFault::Memory => 4,
        }
    }
}

/// The place of the first LF, or behind the last byte where there is none.
pub fn first_feed(bytes: &[u8]) -> usize
    ensures { result ≡ position_or_len is_feed bytes.now }
{
    bytes
        .iter()
        .position(|byte| *byte == b'\n')
        .unwrap_or(bytes.len())
}

/// A script under way.
#[derive(Drop)]
struct Script {
    alloc: Global,
    output: Output<String>,
    /// The line that is being read, without its LF.
    line: Vec<u8>,
    /// How many lines have ended.
    lines: u32,
    /// How many of them failed.
    failed: u32,
    /// Whether the script stops at a line that failed.
    is_strict: bool,
    moment: u64,
    session: Session,
}

impl Script {
    /// Takes bytes of which none is an LF: they join the line that was begun. After a fault that is as before.
    #[tactic(auto, unfolding(crate::specs::Stops::longest_line, crate::specs::Stops::most_lines))]
    fn take_part(&mut self, part: &[u8]) -> Result<(), ScriptFault>
        ensures same { self.new ≡ record self.old { line = self.new.line } }
        ensures ok { OnOk result (self.new.line.items ≡ self.old.line.items ++ part.now) }
        ensures within { OnOk result (JoinsWithin self.old.lines self.old.line.items part.now) }
        ensures err { IfErr result (λ fault. IsPartFault self.old.lines self.old.line.items part.now fault) }
    {
        if part.is_empty() {
            return Ok(());
        }
        if LINES_LIMIT <= self.lines {
            return Err(ScriptFault::TooLong);
        }
        if part.len() > LINE_LIMIT.saturating_sub(self.line.len()) {
            return Err(ScriptFault::TooLong);
        }
        match self.line.extend_from_slice(part) {
            Ok(()) => Ok(()),
            Err(_) => Err(ScriptFault::Memory),
        }
    }

    /// Takes an LF: it ends the line that was begun, which is answered.
    fn take_feed<W: Write, C: Callback>(
        &mut self,
        hive: &mut Hive<C>,
        shares: &mut Vec<Share>,
        writer: &mut W,
    ) -> Result<(), StrictFault>
        requires seated { AreSeated (noted_of hive.old) (view_of hive.old).journal shares.old.items }
        ensures seated { AreSeated (noted_of hive.new) (view_of hive.new).journal shares.new.items }
        ensures noted { noted_of hive.new ≡ noted_of hive.old }
        ensures callbacks { callbacks_of hive.new ≡ callbacks_of hive.old }
        ensures ok { OnOk result (IsSteady (position_of C.answers self.old hive.old (W.contents writer.old)) →
            Takes (position_of C.answers self.old hive.old (W.contents writer.old)) (10 ∷ [])
            (position_of C.answers self.new hive.new (W.contents writer.new))) }
        ensures err { IfErr result (λ fault. IsSteady (position_of C.answers self.old hive.old (W.contents writer.old)) →
            Halts among (position_of C.answers self.old hive.old (W.contents writer.old)) (10 ∷ [])
            (position_of C.answers self.new hive.new (W.contents writer.new)) fault) }
    {
        if self.lines >= LINES_LIMIT {
            return Err(StrictFault::Script(ScriptFault::TooLong));
        }
        self.end_line(hive, shares)?;
        settle(&mut self.output, writer)?;
        Ok(())
    }

    /// Takes bytes of the script, line by line.
    fn take_bytes<W: Write, C: Callback>(
        &mut self,
        hive: &mut Hive<C>,
        shares: &mut Vec<Share>,
        writer: &mut W,
        bytes: &[u8],
    ) -> Result<(), StrictFault>
        requires seated { AreSeated (noted_of hive.old) (view_of hive.old).journal shares.old.items }
        ensures seated { AreSeated (noted_of hive.new) (view_of hive.new).journal shares.new.items }
        ensures noted { noted_of hive.new ≡ noted_of hive.old }
        ensures callbacks { callbacks_of hive.new ≡ callbacks_of hive.old }
        ensures ok { OnOk result (IsSteady (position_of C.answers self.old hive.old (W.contents writer.old)) →
            Takes (position_of C.answers self.old hive.old (W.contents writer.old)) bytes.now
            (position_of C.answers self.new hive.new (W.contents writer.new))) }
        ensures err { IfErr result (λ fault. IsSteady (position_of C.answers self.old hive.old (W.contents writer.old)) →
            Halts among (position_of C.answers self.old hive.old (W.contents writer.old)) bytes.now
            (position_of C.answers self.new hive.new (W.contents writer.new)) fault) }
    {
        let mut rest = bytes;
        let mut place = first_feed(rest);
        while place < rest.len() {
            self.take_part(&rest[..place])?;
            self.take_feed(hive, shares, writer)?;
            rest = &rest[place + 1..];
            place = first_feed(rest);
        }
        self.take_part(rest)?;
        Ok(())
    }

    /// Answers the line that has ended, and counts it. Where the script stops at a line that failed, such a one is the fault.
    fn end_line<C: Callback>(
        &mut self,
        hive: &mut Hive<C>,
        shares: &mut Vec<Share>,
    ) -> Result<(), StrictFault>
        requires seated { AreSeated (noted_of hive.old) (view_of hive.old).journal shares.old.items }
        ensures seated { AreSeated (noted_of hive.new) (view_of hive.new).journal shares.new.items }
        ensures noted { noted_of hive.new ≡ noted_of hive.old }
        ensures callbacks { callbacks_of hive.new ≡ callbacks_of hive.old }
        ensures ok { OnOk result ((sent : Option (List ℕ)) →
            EndsLine (position_of C.answers self.old hive.old sent) (position_of C.answers self.new hive.new sent)) }
        ensures err { IfErr result (λ fault. (sent : Option (List ℕ)) →
            IsLineFault (position_of C.answers self.old hive.old sent) fault (position_of C.answers self.new hive.new sent)) }
    {
        let line = parse(self.alloc, HIVES, self.line.as_slice())?;
        let went = self.answer(hive, shares, line)?;
        self.lines = self.lines.saturating_add(1);
        match went {
            Went::Well => {
                self.line.clear();
                Ok(())
            }
            Went::Wrong { status } => {
                if self.is_strict {
                    let text = mem::replace(&mut self.line, Vec::new(self.alloc));
                    return Err(StrictFault::Line(FailedLine {
                        number: self.lines,
                        text,
                        status,
                    }));
                }
                self.line.clear();
                self.failed = self.failed.saturating_add(1);
                Ok(())
            }
        }
    }

    /// Does what a line says, gathers its reply, and tells how it went. For want of memory nothing is done.
    fn answer<C: Callback>(
        &mut self,
        hive: &mut Hive<C>,
        shares: &mut Vec<Share>,
        line: Line,
    ) -> Result<Went, AllocError>
        requires seated { AreSeated (noted_of hive.old) (view_of hive.old).journal shares.old.items }
        ensures seated { AreSeated (noted_of hive.new) (view_of hive.new).journal shares.new.items }
        ensures noted { noted_of hive.new ≡ noted_of hive.old }
        ensures callbacks { callbacks_of hive.new ≡ callbacks_of hive.old }
        ensures said { IfOk result (λ went. Adds C.answers (IsAnswered (said line) went) self.old hive.old self.new hive.new) }
        ensures kept { KeepsLine self.old self.new }
        ensures err { OnErr result (IsUnchanged self.old (view_of hive.old) self.new (view_of hive.new)) }
    {
        match line {
            Line::Nothing | Line::Setting(Setting::Hive(_)) => Ok(Went::Well),
            Line::Setting(Setting::At(moment)) => {
                self.moment = moment;
                Ok(Went::Well)
            }
            Line::Setting(Setting::As(session)) => {
                self.session = session;
                Ok(Went::Well)
            }
            Line::Bad => {
                self.output.gathered.push_str("bad\n")?;
                Ok(Went::Wrong { status: None })
            }
            Line::Call(call) => self.call(hive, shares, call),
            Line::Notice => {
                self.notice(hive)?;
                Ok(Went::Well)
            }
        }
    }

    fn call<C: Callback>(
        &mut self,
        hive: &mut Hive<C>,
        shares: &mut Vec<Share>,
        call: Call,
    ) -> Result<Went, AllocError>
        requires seated { AreSeated (noted_of hive.old) (view_of hive.old).journal shares.old.items }
        ensures seated { AreSeated (noted_of hive.new) (view_of hive.new).journal shares.new.items }
        ensures noted { noted_of hive.new ≡ noted_of hive.old }
        ensures callbacks { callbacks_of hive.new ≡ callbacks_of hive.old }
        ensures said { IfOk result (λ went. Adds C.answers (IsAnswered (asks call) went) self.old hive.old self.new hive.new) }
        ensures kept { KeepsLine self.old self.new }
        ensures err { OnErr result (IsUnchanged self.old (view_of hive.old) self.new (view_of hive.new)) }
    {
        match call {
            Call::Change(change) => self.change(hive, shares, change),
            Call::Query(query) => {
                let reply = self.query(hive, shares, &query)?;
                self.output.gathered.push_str(reply.as_str())?;
                Ok(Went::Well)
            }
        }
    }

    /// Makes a change once there is room for its reply, so that none is made whose reply lacks memory.
    fn change<C: Callback>(
        &mut self,
        hive: &mut Hive<C>,
        shares: &mut Vec<Share>,
        change: Change,
    ) -> Result<Went, AllocError>
        requires seated { AreSeated (noted_of hive.old) (view_of hive.old).journal shares.old.items }
        ensures seated { AreSeated (noted_of hive.new) (view_of hive.new).journal shares.new.items }
        ensures noted { noted_of hive.new ≡ noted_of hive.old }
        ensures callbacks { callbacks_of hive.new ≡ callbacks_of hive.old }
        ensures said { IfOk result (λ went.
            Adds C.answers (IsAnswered (asks (Call.Change change)) went) self.old hive.old self.new hive.new) }
        ensures kept { KeepsLine self.old self.new }
        ensures err { OnErr result (IsUnchanged self.old (view_of hive.old) self.new (view_of hive.new)) }
    {
        self.output.gathered.reserve(CHANGE_REPLY_LIMIT)?;
        let watches = is_notify(&change);
        let changed = apply_by(hive, shares, self.session.number, self.moment, change);
        write_changed(&mut self.output.gathered, watches, &changed);
        Ok(went_with(changed.status))
    }

    /// Takes the next notice of the session that is set, once there is room for its reply, so that none is taken whose reply lacks
    /// memory.
    fn notice<C: Callback>(&mut self, hive: &mut Hive<C>) -> Result<(), AllocError>
        ensures callbacks { callbacks_of hive.new ≡ callbacks_of hive.old }
        ensures noted { noted_of hive.new ≡ noted_of hive.old }
        ensures journal { (view_of hive.new).journal ≡ (view_of hive.old).journal }
        ensures said { OnOk result (Adds C.answers (IsAnswered takes_notice Went.Well) self.old hive.old self.new hive.new) }
        ensures kept { KeepsLine self.old self.new }
        ensures err { OnErr result (IsUnchanged self.old (view_of hive.old) self.new (view_of hive.new)) }
    {
        self.output.gathered.reserve(NOTICE_REPLY_LIMIT)?;
        let notice = hive.take_notice(self.session.number);
        write_notice(&mut self.output.gathered, notice);
        Ok(())
    }

    /// The reply to a question. It is whole before it joins the output, so that want of memory leaves no part of it there.
    fn query<C: Callback>(
        &self,
        hive: &Hive<C>,
        shares: &Vec<Share>,
        query: &Query,
    ) -> Result<String, AllocError>
        requires seated { AreSeated (noted_of hive.now) (view_of hive.now).journal shares.now.items }
        ensures { IfOk result (λ reply. IsSaid (asks (Call.Query query.now)) (stand_of C.answers self.now hive.now)
            (string_bytes reply) (stand_of C.answers self.now hive.now)) }
    {
        let mut reply = String::new(self.alloc);
        let answer = read_by(hive, shares, self.session.number, query);
        write_answered(self.alloc, &mut reply, query, &answer)?;
        Ok(reply)
    }

    /// Answers a last line that lacks its LF.
    fn end<C: Callback>(
        &mut self,
        hive: &mut Hive<C>,
        shares: &mut Vec<Share>,
    ) -> Result<(), StrictFault>
        requires seated { AreSeated (noted_of hive.old) (view_of hive.old).journal shares.old.items }
        ensures seated { AreSeated (noted_of hive.new) (view_of hive.new).journal shares.new.items }
        ensures noted { noted_of hive.new ≡ noted_of hive.old }
        ensures callbacks { callbacks_of hive.new ≡ callbacks_of hive.old }
        ensures ok { OnOk result (HasNoFeed self.old.line.items → (sent : Option (List ℕ)) →
            EndsLast (position_of C.answers self.old hive.old sent) (position_of C.answers self.new hive.new sent)) }
        ensures begun { OnErr result (0 < length self.old.line.items) }
        ensures err { IfErr result (λ fault. (sent : Option (List ℕ)) →
            IsLineFault (position_of C.answers self.old hive.old sent) fault (position_of C.answers self.new hive.new sent)) }
    {
        if self.line.is_empty() {
            return Ok(());
        }
        self.end_line(hive, shares)?;
        Ok(())
    }

    /// Reads to the end, and passes on before each read what was gathered, since a read may wait for a line that is only written when
    /// the replies have come. Each read gives a byte at least, so more reads than the limits' bytes are too many.
    fn read_all<R: Read, W: Write, C: Callback>(
        &mut self,
        hive: &mut Hive<C>,
        shares: &mut Vec<Share>,
        reader: &mut R,
        writer: &mut W,
        chunk: &mut [u8],
    ) -> Result<(), StrictFault>
        requires chunk { 0 < length chunk.old }
        requires seated { AreSeated (noted_of hive.old) (view_of hive.old).journal shares.old.items }
        ensures seated { AreSeated (noted_of hive.new) (view_of hive.new).journal shares.new.items }
        ensures noted { noted_of hive.new ≡ noted_of hive.old }
        ensures callbacks { callbacks_of hive.new ≡ callbacks_of hive.old }
        ensures at_end { OnOk result (IsAtEnd (R.remaining reader.new)) }
        ensures lines { OnOk result (IsSteady (position_of C.answers self.old hive.old (W.contents writer.old)) →
            (script : List ℕ) × Consumes (R.remaining reader.old) (R.remaining reader.new) script
            × Ends (position_of C.answers self.old hive.old (W.contents writer.old)) script
            (position_of C.answers self.new hive.new (W.contents writer.new))) }
        ensures err { IfErr result (λ fault. IsSteady (position_of C.answers self.old hive.old (W.contents writer.old)) →
            self.old.lines ≡ 0 → self.old.line.items ≡ [] →
            (script : List ℕ) × Consumes (R.remaining reader.old) (R.remaining reader.new) script
            × HaltsAtEnd (R.remaining reader.new) (position_of C.answers self.old hive.old (W.contents writer.old)) script
            (position_of C.answers self.new hive.new (W.contents writer.new)) fault) }
    {
        for _read in 0..READS_LIMIT {
            pass_on(&mut self.output, writer)?;
            let Ok(count) = reader.read(chunk) else {
                return Err(StrictFault::Script(ScriptFault::Read));
            };
            if count == 0 {
                self.end(hive, shares)?;
                return Ok(());
            }
            self.take_bytes(hive, shares, writer, &chunk[..count])?;
        }
        Err(StrictFault::Script(ScriptFault::TooLong))
    }
}

/// Runs a script from a moment on, to its first line that failed if it is strict.
fn run_script<R: Read, W: Write, C: Callback>(
    alloc: Global,
    moment: u64,
    reader: &mut R,
    writer: &mut W,
    hive: &mut Hive<C>,
    shares: &mut Vec<Share>,
    is_strict: bool,
) -> Result<Ran, StrictFault>
    requires seated { AreSeated (noted_of hive.old) (view_of hive.old).journal shares.old.items }
    ensures seated { AreSeated (noted_of hive.new) (view_of hive.new).journal shares.new.items }
    ensures noted { noted_of hive.new ≡ noted_of hive.old }
    ensures callbacks { callbacks_of hive.new ≡ callbacks_of hive.old }
    ensures at_end { OnOk result (IsAtEnd (R.remaining reader.new)) }
    ensures lines { IfOk result
        (λ ran. (script : List ℕ) × (text : List ℕ) × Consumes (R.remaining reader.old) (R.remaining reader.new) script
        × LinesFrom moment (asks_of C.answers hive.old) (view_of hive.old) script text (view_of hive.new) ran.moment
        × Appends (W.contents writer.old) (W.contents writer.new) text × AreWithin (lines_of script)
        × HaveFailed ran.failed (lines_of script) (view_of hive.old) (view_of hive.new)) }
    ensures spared { IfOk result (λ ran. is_strict ≡ true → ran.failed ≡ 0) }
    ensures stops { IfErr result (λ fault. StopsBy moment is_strict fault (R.remaining reader.old) (R.remaining reader.new)
        (asks_of C.answers hive.old) (view_of hive.old) (view_of hive.new) (W.contents writer.old) (W.contents writer.new)) }
{
    let Ok(mut chunk) = vec![in alloc; 0; CHUNK] else {
        return Err(StrictFault::Script(ScriptFault::Memory));
    };
    let mut script = Script {
        alloc,
        output: Output::new(alloc),
        line: Vec::new(alloc),
        lines: 0,
        failed: 0,
        is_strict,
        moment,
        session: Session { number: 0 },
    };
    let ended = script.read_all(hive, shares, reader, writer, chunk.as_mut_slice());
    match close(&mut script.output, writer, ended) {
        Ok(()) => Ok(Ran {
            moment: script.moment,
            failed: script.failed,
        }),
        Err(fault) => Err(fault),
    }
}

/// Runs a script of registry calls on a hive and writes the replies, each on a line of its own; they are passed on before each read, so
/// that calls can be made one by one. Where it succeeds, what was written is what the rules give for all that was read. A fault says what
/// ended it early ([`ScriptFault`]); the replies to the lines before it stand, after `Write` just as many of their bytes as the writer
/// took. Only lines that ended were answered: by an LF, or by the reader's end; after `Read` all of these. The hive is as those lines left
/// it: no change is made and no notice taken whose reply lacks memory.
///
/// `shares` are the shares of the hive's 64 sessions in their order, each with its row's count, and still are when it returns (clause
/// `seated`). That they are so is for the caller to see to; a line's call is then answered 1009 only where a callback answers it.
pub fn run<R: Read, W: Write, C: Callback>(
    alloc: Global,
    reader: &mut R,
    writer: &mut W,
    hive: &mut Hive<C>,
    shares: &mut Vec<Share>,
) -> Result<(), ScriptFault>
    requires seated { AreSeated (noted_of hive.old) (view_of hive.old).journal shares.old.items }
    ensures seated { AreSeated (noted_of hive.new) (view_of hive.new).journal shares.new.items }
    ensures noted { noted_of hive.new ≡ noted_of hive.old }
    ensures callbacks { callbacks_of hive.new ≡ callbacks_of hive.old }
    ensures at_end { OnOk result (IsAtEnd (R.remaining reader.new)) }
    ensures lines { OnOk result ((script : List ℕ) × (text : List ℕ) × Consumes (R.remaining reader.old) (R.remaining reader.new) script
        × Lines (asks_of C.answers hive.old) (view_of hive.old) script text (view_of hive.new) × Appends (W.contents writer.old) (W.contents writer.new) text
        × AreWithin (lines_of script)) }
    ensures stops { IfErr result (λ fault. Stops fault (R.remaining reader.old) (R.remaining reader.new)
        (asks_of C.answers hive.old) (view_of hive.old) (view_of hive.new) (W.contents writer.old) (W.contents writer.new)) }
{
    match run_to(alloc, reader, writer, hive, shares) {
        Ok(_) => Ok(()),
        Err(fault) => Err(fault),
    }
}

/// Runs a script as [`run`] does, and tells the moment of its last `at` (100 ns units since 1601), 0 where it has none.
pub fn run_to<R: Read, W: Write, C: Callback>(
    alloc: Global,
    reader: &mut R,
    writer: &mut W,
    hive: &mut Hive<C>,
    shares: &mut Vec<Share>,
) -> Result<u64, ScriptFault>
    requires seated { AreSeated (noted_of hive.old) (view_of hive.old).journal shares.old.items }
    ensures seated { AreSeated (noted_of hive.new) (view_of hive.new).journal shares.new.items }
    ensures noted { noted_of hive.new ≡ noted_of hive.old }
    ensures callbacks { callbacks_of hive.new ≡ callbacks_of hive.old }
    ensures at_end { OnOk result (IsAtEnd (R.remaining reader.new)) }
    ensures lines { IfOk result
        (λ moment. (script : List ℕ) × (text : List ℕ) × Consumes (R.remaining reader.old) (R.remaining reader.new) script
        × LinesTo (asks_of C.answers hive.old) (view_of hive.old) script text (view_of hive.new) moment
        × Appends (W.contents writer.old) (W.contents writer.new) text × AreWithin (lines_of script)) }
    ensures stops { IfErr result (λ fault. Stops fault (R.remaining reader.old) (R.remaining reader.new)
        (asks_of C.answers hive.old) (view_of hive.old) (view_of hive.new) (W.contents writer.old) (W.contents writer.new)) }
{
    match run_counted(alloc, 0, reader, writer, hive, shares) {
        Ok(ran) => Ok(ran.moment),
        Err(fault) => Err(fault),
    }
}

/// Runs a script as [`run_to`] does, from `moment` on (100 ns units since 1601), and counts the lines that failed: those that have no
/// form of a line, and those whose change was told another status than 0. A question's status never counts.
pub fn run_counted<R: Read, W: Write, C: Callback>(
    alloc: Global,
    moment: u64,
    reader: &mut R,
    writer: &mut W,
    hive: &mut Hive<C>,
    shares: &mut Vec<Share>,
) -> Result<Ran, ScriptFault>
    requires seated { AreSeated (noted_of hive.old) (view_of hive.old).journal shares.old.items }
    ensures seated { AreSeated (noted_of hive.new) (view_of hive.new).journal shares.new.items }
    ensures noted { noted_of hive.new ≡ noted_of hive.old }
    ensures callbacks { callbacks_of hive.new ≡ callbacks_of hive.old }
    ensures at_end { OnOk result (IsAtEnd (R.remaining reader.new)) }
    ensures lines { IfOk result
        (λ ran. (script : List ℕ) × (text : List ℕ) × Consumes (R.remaining reader.old) (R.remaining reader.new) script
        × LinesFrom moment (asks_of C.answers hive.old) (view_of hive.old) script text (view_of hive.new) ran.moment
        × Appends (W.contents writer.old) (W.contents writer.new) text × AreWithin (lines_of script)
        × HaveFailed ran.failed (lines_of script) (view_of hive.old) (view_of hive.new)) }
    ensures stops { IfErr result (λ fault. StopsFrom moment fault (R.remaining reader.old) (R.remaining reader.new)
        (asks_of C.answers hive.old) (view_of hive.old) (view_of hive.new) (W.contents writer.old) (W.contents writer.new)) }
{
    match run_script(alloc, moment, reader, writer, hive, shares, false) {
        Ok(ran) => Ok(ran),
        Err(StrictFault::Script(fault)) => Err(fault),
        Err(StrictFault::Line(_)) => unreachable!(),
    }
}

/// Runs a script as [`run_to`] does, from `moment` on, to its first line that failed: that has no form of a line, or whose change was told
/// another status than 0. Such a line's reply is the last that is written, the hive is as the lines before it left it, and what was read
/// behind it does nothing. A question's status never ends it.
pub fn run_strictly<R: Read, W: Write, C: Callback>(
    alloc: Global,
    moment: u64,
    reader: &mut R,
    writer: &mut W,
    hive: &mut Hive<C>,
    shares: &mut Vec<Share>,
) -> Result<u64, StrictFault>
    requires seated { AreSeated (noted_of hive.old) (view_of hive.old).journal shares.old.items }
    ensures seated { AreSeated (noted_of hive.new) (view_of hive.new).journal shares.new.items }
    ensures noted { noted_of hive.new ≡ noted_of hive.old }
    ensures callbacks { callbacks_of hive.new ≡ callbacks_of hive.old }
    ensures at_end { OnOk result (IsAtEnd (R.remaining reader.new)) }
    ensures lines { IfOk result
        (λ last. (script : List ℕ) × (text : List ℕ) × Consumes (R.remaining reader.old) (R.remaining reader.new) script
        × LinesFrom moment (asks_of C.answers hive.old) (view_of hive.old) script text (view_of hive.new) last
        × Appends (W.contents writer.old) (W.contents writer.new) text × AreWithin (lines_of script)
        × HaveFailed 0 (lines_of script) (view_of hive.old) (view_of hive.new)) }
    ensures stops { IfErr result (λ fault. StopsStrictly moment fault (R.remaining reader.old) (R.remaining reader.new)
        (asks_of C.answers hive.old) (view_of hive.old) (view_of hive.new) (W.contents writer.old) (W.contents writer.new)) }
{
    match run_script(alloc, moment, reader, writer, hive, shares, true) {
        Ok(ran) => Ok(ran.moment),
        Err(fault) => Err(fault),
    }
}
