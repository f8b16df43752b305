//! What is gathered on its way to a writer.

ghost use Rattle.std.specs.Prelude.{◌≡◌, ◌+◌, ◌<◌, ◌≤◌, nat_le, [], length, IsOk, OnOk, OnErr, IfErr};
ghost use Rattle.std.specs.Io.KnownBytes.{Appends};
ghost use Rattle.reg_text.specs.Failures.{Stays, Fails};
ghost use Rattle.reg_text.specs.Outputs.{IsSettled, IsCut, saturated};

use crate::gathered::Gathered;
use crate::sinks::Sink;
use crate::write_counted;
use std::alloc::Global;

/// How many bytes are gathered before they are written.
const ENOUGH: usize = 65_536;

/// A write or the writer's flush failed, or a write took no byte.
#[derive(Clone, Copy, Debug, PartialEq, Eq)]
pub struct OutputFault {
    /// How many bytes the writer took in all, where 64 bits can count them.
    pub written: u64,
}

/// What is gathered on its way to a writer, and a count of what the writer took, which stays at the end of its 64 bits.
#[derive(Drop)]
pub struct Output<T> {
    pub gathered: T,
    pub written: u64,
}

impl<T: Gathered> Output<T> {
    /// Nothing gathered, and nothing written.
    pub fn new(alloc: Global) -> Output<T>
        ensures gathered { T.bytes result.gathered ≡ [] }
        ensures written { result.written ≡ 0 }
    {
        Output {
            gathered: T::empty(alloc),
            written: 0,
        }
    }

    /// Whether enough was gathered to be written.
    pub fn is_enough(&self) -> bool
        ensures { result ≡ nat_le 65536 (length (T.bytes self.now.gathered)) }
    {
        self.gathered.as_bytes().len() >= ENOUGH
    }

    /// Whether 64 bits can count what was written once all that was gathered is written, too.
    pub fn can_count(&self) -> bool
        ensures { result ≡ nat_le (self.now.written + length (T.bytes self.now.gathered)) 18446744073709551615 }
    {
        self.gathered.as_bytes().len() as u64 <= u64::MAX - self.written
    }

    /// Writes all that was gathered. After a fault it is still there, also what the writer took of it.
    pub fn flush<W: Sink>(&mut self, writer: &mut W) -> Result<(), OutputFault>
        ensures sent { OnOk result (Appends (W.contents writer.old) (W.contents writer.new) (T.bytes self.old.gathered)) }
        ensures empty { OnOk result (T.bytes self.new.gathered ≡ []) }
        ensures written { OnOk result (self.new.written ≡ saturated (self.old.written + length (T.bytes self.old.gathered))) }
        ensures stays { OnOk result (Stays (W.failures writer.old) (W.failures writer.new)) }
        ensures err { IfErr result
            (λ e. IsCut (W.contents writer.old) (W.contents writer.new) (T.bytes self.old.gathered) self.old.written e.written) }
        ensures kept { OnErr result (T.bytes self.new.gathered ≡ T.bytes self.old.gathered) }
        ensures fails { IfErr result (λ _. Fails (W.failures writer.old) (W.failures writer.new)) }
    {
        let bytes = self.gathered.as_bytes();
        let length = bytes.len();
        let taken = write_counted(writer, bytes);
        self.written = self.written.saturating_add(taken as u64);
        if taken < length {
            return Err(OutputFault {
                written: self.written,
            });
        }
        self.gathered.clear();
        Ok(())
    }

    /// Writes what was gathered, once it is enough: 65,536 bytes. Before that nothing is done. After a fault it is still there.
    pub fn settle<W: Sink>(&mut self, writer: &mut W) -> Result<(), OutputFault>
        ensures waits { length (T.bytes self.old.gathered) < 65536 → IsOk result × (self.new ≡ self.old) × (writer.new ≡ writer.old) }
        ensures few { OnOk result (length (T.bytes self.new.gathered) < 65536) }
        ensures sent { OnOk result (IsSettled (W.contents writer.old) (W.contents writer.new) (T.bytes self.old.gathered)
            (T.bytes self.new.gathered) self.old.written self.new.written) }
        ensures stays { OnOk result (Stays (W.failures writer.old) (W.failures writer.new)) }
        ensures err { IfErr result
            (λ e. IsCut (W.contents writer.old) (W.contents writer.new) (T.bytes self.old.gathered) self.old.written e.written) }
        ensures kept { OnErr result (T.bytes self.new.gathered ≡ T.bytes self.old.gathered) }
        ensures fails { IfErr result (λ _. Fails (W.failures writer.old) (W.failures writer.new)) }
    {
        if !self.is_enough() {
            return Ok(());
        }
        self.flush(writer)
    }

    /// Writes all that was gathered, and has the writer pass it on.
    pub fn finish<W: Sink>(&mut self, writer: &mut W) -> Result<(), OutputFault>
        ensures sent { OnOk result (Appends (W.contents writer.old) (W.contents writer.new) (T.bytes self.old.gathered)) }
        ensures empty { OnOk result (T.bytes self.new.gathered ≡ []) }
        ensures written { OnOk result (self.new.written ≡ saturated (self.old.written + length (T.bytes self.old.gathered))) }
        ensures flushed { OnOk result (W.is_flushed writer.new) }
        ensures stays { OnOk result (Stays (W.failures writer.old) (W.failures writer.new)) }
        ensures err { IfErr result
            (λ e. IsCut (W.contents writer.old) (W.contents writer.new) (T.bytes self.old.gathered) self.old.written e.written) }
        ensures fails { IfErr result (λ _. Fails (W.failures writer.old) (W.failures writer.new)) }
    {
        self.flush(writer)?;
        match writer.pass_on() {
            Ok(()) => Ok(()),
            Err(_) => Err(OutputFault {
                written: self.written,
            }),
        }
    }
}
