//! Hive files that are looked into: opened, and read as they stand where that is asked for.

ghost use Rattle.std.specs.Prelude.{◌≡◌, ◌≤◌, ◌+◌, ℕ, true, false, length, List, Option, Some, string_bytes, IfOk, IfErr};
ghost use Rattle.std.specs.Fmt.{option_append};
ghost use Rattle.byteorder.specs.Endian.{little_bytes};
ghost use Rattle.reg_heap.specs.ByteWords.{word, splice};
ghost use Rattle.reg_files.specs.Mended.{summed, is_torn_block, mended_block};
ghost use Rattle.reg_files.specs.Looking.{as_read, warning_of, Warns, IsOpened};
ghost use Rattle.reg_files.specs.Internal.Cuts.{is_cut};
ghost use Rattle.reg_files.specs.Internal.Fronts.{AreBytesOf, IsFront, bytes_of, device_bytes};

use crate::device::Device;
use crate::fault::{Fault, Step, refused};
use crate::queries::open;
use byteorder::{ByteOrder, LittleEndian};
use reg_command::say;
use reg_text::Sink;
use reg_tree_image::checksum;
use std::alloc::{AllocError, Global};
use std::io::{self, Chain, Cursor, ErrorKind, Read};
use std::rt::Files;

/// How many bytes a base block has.
const BLOCK: usize = 4096;

/// What a base block begins with, `regf`, as a number.
const SIGNATURE: u32 = 0x6667_6572;

/// A hive file that is open to be looked into.
#[derive(Drop)]
pub struct Image<F> {
    /// What was read of it ahead, and what is left.
    bytes: Chain<Cursor<Vec<u8>>, Device<F>>,
}

impl<F: Read> Image<F> {
    /// A file of which a front was read, in whose place these bytes are read.
    fn new(front: Vec<u8>, device: Device<F>) -> Image<F>
        ensures { bytes_of F.remaining result ≡ option_append (Some front.items) (device_bytes F.remaining device) }
    {
        Image {
            bytes: Cursor::new(front).chain(device),
        }
    }
}

impl<F> Image<F> {
    /// The error of the last read that failed. It is taken out.
    pub fn take_error(&mut self) -> io::Error {
        let (_front, device) = self.bytes.get_mut();
        device.take_error()
    }
}

impl<F: Read> Read for Image<F> {
    ghost remaining = { bytes_of F.remaining };

    fn read(&mut self, buffer: &mut [u8]) -> io::Result<usize> {
        self.bytes.read(buffer)
    }
}

/// The number of 32 bits at a place.
#[tactic(auto, unfolding(reg_heap::specs::ByteWords::word))]
fn number_at(block: &[u8], at: usize) -> u32
    requires { at + 4 ≤ length block.now }
    ensures { result ≡ word block.now at }
{
    LittleEndian::read_u32(&block[at..])
}

/// Writes a number of 32 bits over the bytes at a place.
#[tactic(auto, unfolding(reg_heap::specs::ByteWords::splice))]
fn put_number(block: &mut [u8], at: usize, number: u32)
    requires { at + 4 ≤ length block.old }
    ensures { block.new ≡ splice at (little_bytes 4 number) block.old }
{
    block[at..at + 4].copy_from_slice(&number.to_le_bytes());
}

/// Makes a base block's checksum anew.
fn sum_up(block: &mut [u8])
    requires { length block.old ≡ 4096 }
    ensures { block.new ≡ summed block.old }
{
    let Some(whole) = block.first_chunk::<BLOCK>() else {
        unreachable!()
    };
    let sum = checksum(whole);
    put_number(block, 508, sum);
}

/// Whether a base block is one of an image that wasn't written to its end.
fn is_torn(block: &[u8]) -> bool
    ensures { result ≡ is_torn_block block.now }
{
    block.len() >= BLOCK
        && number_at(block, 0) == SIGNATURE
        && number_at(block, 4) != number_at(block, 8)
}

/// Makes a base block the one of an image that was written to its end, and answers whether it was another.
fn mend(block: &mut [u8]) -> bool
    requires { length block.old ≤ 4096 }
    ensures torn { result ≡ is_torn_block block.old }
    ensures mended { block.new ≡ mended_block block.old }
{
    if !is_torn(block) {
        return false;
    }
    let first = number_at(block, 4);
    put_number(block, 8, first);
    sum_up(block);
    true
}

/// Reads as many bytes as a base block has, or all where there are fewer.
fn read_front<R: Read>(alloc: Global, reader: &mut R) -> io::Result<Vec<u8>>
    ensures { IfOk result (λ front. IsFront (R.remaining reader.old) (R.remaining reader.new) front.items) }
{
    let mut part = [0; BLOCK];
    let mut front = Vec::new(alloc);
    while front.len() < BLOCK {
        let room = BLOCK - front.len();
        let count = reader.read(&mut part[..room])?;
        if count == 0 {
            return Ok(front);
        }
        front.extend_from_slice(&part[..count])?;
    }
    Ok(front)
}

/// What is told of a file that wasn't written to its end.
fn warning(alloc: Global, file: &str) -> Result<String, AllocError>
    ensures { IfOk result (λ text. string_bytes text ≡ warning_of file.now) }
{
    format!(in alloc; "warning {file}: it wasn't written to its end, and is read as it stands\n")
}

/// Tells that, if it is so.
fn warn<E: Sink>(is_torn: bool, told: &str, errors: &mut E)
    ensures { (file : List ℕ) → told.now ≡ warning_of file →
        Warns is_torn file (E.contents errors.old) (E.contents errors.new) (E.failures errors.old) (E.failures errors.new) }
{
    if is_torn {
        say(errors, told.as_bytes());
    }
}

/// Reads an open file's base block ahead, and makes it that of an image which was written to its end: of one that wasn't that is told.
fn mended<F: Read + Drop, E: Sink>(
    alloc: Global,
    file: &str,
    mut device: Device<F>,
    errors: &mut E,
) -> Result<Image<F>, Fault>
    ensures ok { IfOk result (λ image. (bytes : Option (List ℕ)) × (bytes_of F.remaining image ≡ as_read true bytes)
        × IsOpened true file.now bytes (E.contents errors.old) (E.contents errors.new) (E.failures errors.old) (E.failures errors.new)
        × AreBytesOf bytes (device_bytes F.remaining device)) }
    ensures err { IfErr result (λ fault. (is_cut fault ≡ false) × (E.contents errors.new ≡ E.contents errors.old)
        × (E.failures errors.new ≡ E.failures errors.old)) }
{
    let Ok(told) = warning(alloc, file) else {
        return Err(Fault::Memory);
    };
    let mut front = match read_front(alloc, &mut device) {
        Ok(front) => front,
        Err(error) if error.kind() == ErrorKind::OutOfMemory => return Err(Fault::Memory),
        Err(_) => return Err(refused(Step::Read, device.take_error())),
    };
    let is_torn = mend(front.as_mut_slice());
    warn(is_torn, told.as_str(), errors);
    Ok(Image::new(front, device))
}

/// Opens a file to be looked into; with `is_dirty` one that wasn't written to its end is read as it stands, and that is told.
pub fn open_image<H: Files, E: Sink>(
    alloc: Global,
    host: &H,
    file: &str,
    is_dirty: bool,
    errors: &mut E,
) -> Result<Image<H::File>, Fault>
    ensures ok { IfOk result (λ image. (bytes : Option (List ℕ)) × (bytes_of H.File.remaining image ≡ as_read is_dirty bytes)
        × IsOpened is_dirty file.now bytes (E.contents errors.old) (E.contents errors.new) (E.failures errors.old) (E.failures errors.new)) }
    ensures err { IfErr result (λ fault. (is_cut fault ≡ false) × (E.contents errors.new ≡ E.contents errors.old)
        × (E.failures errors.new ≡ E.failures errors.old)) }
{
    let device = open(host, file)?;
    if is_dirty {
        return mended(alloc, file, device, errors);
    }
    Ok(Image::new(Vec::new(alloc), device))
}
