//! A script on its way from a reader, line by line.
ghost use Rattle.std.specs.Prelude.{◌≡◌, ◌<◌, ℕ, List, [], ◌∷◌, ◌++◌, length, IfErr, IfOk, OnOk};
ghost use Rattle.std.specs.Io.KnownBytes.{IsAtEnd, Consumes};
ghost use Rattle.reg_script.specs.Internal.Progress.{JoinsWithin, IsPartFault};
ghost use Rattle.reg_workers.specs.Internal.Readings.{IsRead, EndsLine, IsWhole, IsCutShort, StopsReading};

use crate::plan::Plan;
use reg_script::{LINE_LIMIT, LINES_LIMIT, ScriptFault, first_feed};
use std::alloc::{AllocError, Global};
use std::io::Read;

/// How many bytes are read at a time.
const CHUNK: usize = 65_536;

/// A script that is being read.
#[derive(Drop)]
struct Reading {
    alloc: Global,
    /// The line that was begun, without its LF.
    line: Vec<u8>,
    /// How many lines have ended.
    lines: u32,
    /// What they give the sessions to do.
    plan: Plan,
}

impl Reading {
    /// Takes bytes of which none is an LF: they join the line that was begun.
    #[tactic(auto, unfolding(reg_script::specs::Stops::longest_line, reg_script::specs::Stops::most_lines))]
    fn take_part(&mut self, part: &[u8]) -> Result<(), ScriptFault>
        ensures same { self.new ≡ record self.old { line = self.new.line } }
        ensures ok { OnOk result (self.new.line.items ≡ self.old.line.items ++ part.now) }
        ensures within { OnOk result (JoinsWithin self.old.lines self.old.line.items part.now) }
        ensures err { IfErr result (λ fault. IsPartFault self.old.lines self.old.line.items part.now fault) }
    {
        if part.is_empty() {
            return Ok(());
        }
        if LINES_LIMIT <= self.lines {
            return Err(ScriptFault::TooLong);
        }
        if part.len() > LINE_LIMIT.saturating_sub(self.line.len()) {
            return Err(ScriptFault::TooLong);
        }
        match self.line.extend_from_slice(part) {
            Ok(()) => Ok(()),
            Err(_) => Err(ScriptFault::Memory),
        }
    }

    /// Has the plan keep the line that has ended, and counts it.
    fn end_line(&mut self) -> Result<(), AllocError>
        ensures { OnOk result (EndsLine self.old self.new) }
    {
        self.plan.add_line(self.alloc, self.line.as_slice())?;
        self.lines = self.lines.saturating_add(1);
        self.line.clear();
        Ok(())
    }

    /// Takes an LF: it ends the line that was begun.
    fn take_feed(&mut self) -> Result<(), ScriptFault>
        ensures ok { OnOk result ((hives : ℕ) (taken : List ℕ) → IsRead hives taken self.old → IsRead hives (taken ++ 10 ∷ []) self.new) }
        ensures err { IfErr result (λ fault. (hives : ℕ) (taken : List ℕ) → IsRead hives taken self.old → IsCutShort fault (taken ++ 10 ∷ [])) }
    {
        if self.lines >= LINES_LIMIT {
            return Err(ScriptFault::TooLong);
        }
        self.end_line()?;
        Ok(())
    }

    /// Takes bytes of the script, line by line.
    fn take_bytes(&mut self, bytes: &[u8]) -> Result<(), ScriptFault>
        ensures ok { OnOk result ((hives : ℕ) (taken : List ℕ) → IsRead hives taken self.old → IsRead hives (taken ++ bytes.now) self.new) }
        ensures err { IfErr result (λ fault. (hives : ℕ) (taken : List ℕ) → IsRead hives taken self.old → IsCutShort fault (taken ++ bytes.now)) }
    {
        let mut rest = bytes;
        let mut place = first_feed(rest);
        while place < rest.len() {
            self.take_part(&rest[..place])?;
            self.take_feed()?;
            rest = &rest[place + 1..];
            place = first_feed(rest);
        }
        self.take_part(rest)?;
        Ok(())
    }

    /// Ends a last line that lacks its LF.
    fn end(&mut self) -> Result<(), ScriptFault>
        ensures ok { OnOk result ((hives : ℕ) (taken : List ℕ) → IsRead hives taken self.old → IsWhole hives taken self.new.plan) }
        ensures err { IfErr result (λ fault. fault ≡ ScriptFault.Memory) }
    {
        if self.line.is_empty() {
            return Ok(());
        }
        self.end_line()?;
        Ok(())
    }

    /// Reads to the end. Each read gives a byte at least, so there are fewer reads than 64 bits count.
    fn read_all<R: Read>(&mut self, reader: &mut R, chunk: &mut [u8]) -> Result<(), ScriptFault>
        requires chunk { 0 < length chunk.old }
        ensures at_end { OnOk result (IsAtEnd (R.remaining reader.new)) }
        ensures ok { OnOk result ((hives : ℕ) → IsRead hives [] self.old →
            (script : List ℕ) × Consumes (R.remaining reader.old) (R.remaining reader.new) script × IsWhole hives script self.new.plan) }
        ensures err { IfErr result (λ fault. (hives : ℕ) → IsRead hives [] self.old → StopsReading fault (R.remaining reader.old) (R.remaining reader.new)) }
    {
        for _read in 0..u64::MAX {
            let Ok(count) = reader.read(chunk) else {
                return Err(ScriptFault::Read);
            };
            if count == 0 {
                self.end()?;
                return Ok(());
            }
            self.take_bytes(&chunk[..count])?;
        }
        Err(ScriptFault::TooLong)
    }
}

/// Nothing read yet.
fn begin(alloc: Global, hives: u8) -> Result<Reading, AllocError>
    ensures { IfOk result (λ reading. IsRead hives [] reading) }
{
    Ok(Reading {
        alloc,
        line: Vec::new(alloc),
        lines: 0,
        plan: Plan::new(alloc, hives)?,
    })
}

/// Reads a whole script on so many hives. `TooLong` where a line is above 2,200,000 bytes, its LF not counted, or there are more than
/// 1,000,000 lines.
pub fn read_plan<R: Read>(alloc: Global, hives: u8, reader: &mut R) -> Result<Plan, ScriptFault>
    ensures at_end { OnOk result (IsAtEnd (R.remaining reader.new)) }
    ensures ok { IfOk result (λ plan. (script : List ℕ) × Consumes (R.remaining reader.old) (R.remaining reader.new) script × IsWhole hives script plan) }
    ensures err { IfErr result (λ fault. StopsReading fault (R.remaining reader.old) (R.remaining reader.new)) }
{
    let Ok(mut chunk) = vec![in alloc; 0; CHUNK] else {
        return Err(ScriptFault::Memory);
    };
    let mut reading = begin(alloc, hives)?;
    reading.read_all(reader, chunk.as_mut_slice())?;
    let Reading {
        alloc: _,
        line: _,
        lines: _,
        plan,
    } = reading;
    Ok(plan)
}
