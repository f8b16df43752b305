//! The bytes of an image, read from a device.

ghost use Rattle.std.specs.Prelude.{◌≡◌, ℕ, List, OnOk, IfOk, IfErr, MatchResult, length};
ghost use Rattle.std.specs.Io.KnownBytes.{Consumes};
ghost use Rattle.reg_text.specs.Failures.{Stays};
ghost use Rattle.reg_tree_image.specs.Loads.{IsBlamed};
ghost use Rattle.reg_tree_image.specs.Internal.InputParts.{told_by, IsCut, IsGivenUp};

use crate::LoadFault;
use reg_text::Source;
use std::alloc::Global;
use std::io;

/// How many bytes are asked for at once: few enough to be in the processor's cache still when they are read into.
const PART: usize = 131_072;

/// How many bytes a read gave. None are the reader's end; a read that failed, or was interrupted, isn't tried again.
fn count_read(read: io::Result<usize>) -> Result<usize, LoadFault>
    ensures { result ≡ told_by read }
{
    match read {
        Ok(0) => Err(LoadFault::Short),
        Ok(count) => Ok(count),
        Err(_) => Err(LoadFault::Read),
    }
}

/// Fills a buffer. `Short` where the reader comes to its end before, `Read` where a read fails.
pub fn fill<R: Source>(input: &mut R, buffer: &mut [u8]) -> Result<(), LoadFault>
    ensures ok { OnOk result (Consumes (R.remaining input.old) (R.remaining input.new) buffer.new) }
    ensures err { IfErr result (λ fault. (piece : List ℕ) × Consumes (R.remaining input.old) (R.remaining input.new) piece
        × IsCut fault (length buffer.old) piece (R.remaining input.new)) }
    ensures failures { MatchResult result (λ _. Stays (R.failures input.old) (R.failures input.new))
        (λ fault. IsBlamed fault (R.failures input.old) (R.failures input.new)) }
{
    let mut filled = 0;
    while filled < buffer.len() {
        let read = input.receive(&mut buffer[filled..]);
        filled += count_read(read)?;
    }
    Ok(())
}

/// Reads so many bytes, part by part. The room for them grows with what comes, so that an image that ends too early costs no more than
/// twice what it has and two parts, whatever size it tells.
pub fn read_bytes<R: Source>(
    alloc: Global,
    input: &mut R,
    size: usize,
) -> Result<Vec<u8>, LoadFault>
    ensures ok { IfOk result (λ bytes. Consumes (R.remaining input.old) (R.remaining input.new) bytes.items × (length bytes.items ≡ size)) }
    ensures err { IfErr result (λ fault. (piece : List ℕ) × Consumes (R.remaining input.old) (R.remaining input.new) piece
        × IsGivenUp fault size piece (R.remaining input.new)) }
    ensures failures { MatchResult result (λ _. Stays (R.failures input.old) (R.failures input.new))
        (λ fault. IsBlamed fault (R.failures input.old) (R.failures input.new)) }
{
    let mut bytes = Vec::new(alloc);
    while bytes.len() < size {
        let from = bytes.len();
        let more = PART.min(size - from);
        if bytes.resize(from + more, 0).is_err() {
            return Err(LoadFault::Memory);
        }
        fill(input, &mut bytes[from..])?;
    }
    Ok(bytes)
}
