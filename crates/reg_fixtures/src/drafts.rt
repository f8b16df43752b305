//! Images written out cell by cell, as other programs may write them. A draft is a table with a line for each cell: the kind of its
//! record, numbers, and bytes as `=` and text or as `x` and digits. For a number `@3` is the offset of the third line's cell, and `-`
//! is none. The last line's cell is the root's key node.
ghost use Rattle.std.specs.Prelude.{◌≡◌, IfOk};

use crate::FixtureFault;
use crate::bytes::{bytes_of, put, seal};
use std::alloc::Global;

/// No offset.
const NONE: u32 = 0xFFFF_FFFF;

/// A bin so far: the offset of each cell, and the bytes.
#[derive(Drop)]
struct Draft {
    offsets: Vec<u32>,
    bytes: Vec<u8>,
}

/// What stands on a line.
#[derive(Drop)]
struct Row {
    numbers: Vec<u32>,
    bytes: Vec<u8>,
}

/// A length in 32 bits.
fn small(len: usize) -> Result<u32, FixtureFault>
    ensures { IfOk result (λ number. number ≡ len) }
{
    match u32::try_from(len) {
        Ok(number) => Ok(number),
        Err(_) => Err(FixtureFault::Number),
    }
}

/// Appends the lower half of a number.
fn push_half(out: &mut Vec<u8>, number: u32) -> Result<(), FixtureFault> {
    let [first, second, _, _] = number.to_le_bytes();
    out.extend_from_slice(&[first, second])?;
    Ok(())
}

/// Appends numbers, each followed by so many bytes 255.
fn push_words(out: &mut Vec<u8>, numbers: &[u32], hint: usize) -> Result<(), FixtureFault> {
    for number in numbers {
        out.extend_from_slice(&number.to_le_bytes())?;
        for _byte in 0..hint {
            out.push(255)?;
        }
    }
    Ok(())
}

/// Appends the low half of a length.
fn push_len(out: &mut Vec<u8>, len: usize) -> Result<(), FixtureFault> {
    push_half(out, small(len)?)
}

/// The number that a text is.
fn parsed(text: &str) -> Result<u32, FixtureFault> {
    match text.parse::<u32>() {
        Ok(number) => Ok(number),
        Err(_) => Err(FixtureFault::Number),
    }
}

/// The number of a token.
fn number(draft: &Draft, token: &str) -> Result<u32, FixtureFault> {
    if token == "-" {
        return Ok(NONE);
    }
    let Some(line) = token.strip_prefix("@") else {
        return parsed(token);
    };
    let index = parsed(line)?.saturating_sub(1) as usize;
    match draft.offsets.get(index) {
        Some(offset) => Ok(*offset),
        None => Err(FixtureFault::Place),
    }
}

/// Reads a token.
fn read_token(
    alloc: Global,
    draft: &Draft,
    token: &str,
    row: &mut Row,
) -> Result<(), FixtureFault> {
    if let Some(text) = token.strip_prefix("=") {
        row.bytes.extend_from_slice(text.as_bytes())?;
    } else if let Some(digits) = token.strip_prefix("x") {
        let bytes = bytes_of(alloc, digits)?;
        row.bytes.extend_from_slice(&bytes)?;
    } else {
        row.numbers.push(number(draft, token)?)?;
    }
    Ok(())
}

/// A key node: flags, time, number and list of subkeys, number and list of values, security, class and its length; the name.
fn push_key(out: &mut Vec<u8>, row: &Row) -> Result<(), FixtureFault> {
    let [
        flags,
        time,
        subkeys,
        list,
        values,
        members,
        security,
        class,
        class_len,
    ] = row.numbers.as_slice()
    else {
        return Err(FixtureFault::Line);
    };
    push_half(out, *flags)?;
    push_words(out, &[*time, 0, 0, 0, *subkeys, 0, *list, NONE, *values], 0)?;
    push_words(out, &[*members, *security, *class, 0, 0, 0, 0, 0], 0)?;
    push_len(out, row.bytes.len())?;
    push_half(out, *class_len)?;
    out.extend_from_slice(&row.bytes)?;
    Ok(())
}

/// A value: the size of its data, the data's offset, type and flags; the name.
fn push_value(out: &mut Vec<u8>, row: &Row) -> Result<(), FixtureFault> {
    let [size, data, kind, flags] = row.numbers.as_slice() else {
        return Err(FixtureFault::Line);
    };
    push_len(out, row.bytes.len())?;
    push_words(out, &[*size, *data, *kind, *flags], 0)?;
    out.extend_from_slice(&row.bytes)?;
    Ok(())
}

/// A security: both links, count and size; the descriptor.
fn push_security(out: &mut Vec<u8>, row: &Row) -> Result<(), FixtureFault> {
    push_half(out, 0)?;
    push_words(out, &row.numbers, 0)?;
    out.extend_from_slice(&row.bytes)?;
    Ok(())
}

/// A list of subkeys: how many there are, and each with so many bytes more.
fn push_list(out: &mut Vec<u8>, row: &Row, hint: usize) -> Result<(), FixtureFault> {
    push_len(out, row.numbers.len())?;
    push_words(out, &row.numbers, hint)
}

/// A record of big data: the number of segments, and the offset of their list.
fn push_big_data(out: &mut Vec<u8>, row: &Row) -> Result<(), FixtureFault> {
    let [count, list] = row.numbers.as_slice() else {
        return Err(FixtureFault::Line);
    };
    push_half(out, *count)?;
    push_words(out, &[*list], 0)
}

/// So many times a byte.
fn push_filling(out: &mut Vec<u8>, row: &Row) -> Result<(), FixtureFault> {
    let [count] = row.numbers.as_slice() else {
        return Err(FixtureFault::Line);
    };
    for _turn in 0..*count {
        out.extend_from_slice(&row.bytes)?;
    }
    Ok(())
}

/// Appends the record of a kind behind its signature.
fn push_record(out: &mut Vec<u8>, kind: &str, row: &Row) -> Result<(), FixtureFault> {
    match kind {
        "nk" => push_key(out, row),
        "vk" => push_value(out, row),
        "sk" => push_security(out, row),
        "db" => push_big_data(out, row),
        "lf" => push_list(out, row, 4),
        "lh" => push_list(out, row, 4),
        "li" => push_list(out, row, 0),
        "ri" => push_list(out, row, 0),
        _ => Err(FixtureFault::Line),
    }
}

/// Appends what a cell holds: a record, or a `row` of numbers, or a `fill` of so many times the same bytes.
fn push_content(out: &mut Vec<u8>, kind: &str, row: &Row) -> Result<(), FixtureFault> {
    if kind == "row" {
        return push_words(out, &row.numbers, 0);
    }
    if kind == "fill" {
        return push_filling(out, row);
    }
    out.extend_from_slice(kind.as_bytes())?;
    push_record(out, kind, row)
}

/// Appends zeros up to a length.
fn pad(out: &mut Vec<u8>, len: usize) -> Result<(), FixtureFault> {
    if out.len() < len {
        out.resize(len, 0)?;
    }
    Ok(())
}

/// Appends an allocated cell.
fn push_cell(draft: &mut Draft, content: &[u8]) -> Result<(), FixtureFault> {
    let offset = small(draft.bytes.len())?;
    let size = small(content.len().saturating_add(11) / 8 * 8)?;
    draft.offsets.push(offset)?;
    draft
        .bytes
        .extend_from_slice(&0u32.wrapping_sub(size).to_le_bytes())?;
    draft.bytes.extend_from_slice(content)?;
    pad(&mut draft.bytes, offset.saturating_add(size) as usize)
}

/// Appends the cell of a line.
fn push_line(alloc: Global, draft: &mut Draft, line: &str) -> Result<(), FixtureFault> {
    let mut tokens = line.split(' ');
    let kind = tokens.next().unwrap_or("");
    let mut row = Row {
        numbers: Vec::new(alloc),
        bytes: Vec::new(alloc),
    };
    for token in tokens {
        read_token(alloc, draft, token, &mut row)?;
    }
    let mut content = Vec::new(alloc);
    push_content(&mut content, kind, &row)?;
    push_cell(draft, &content)
}

/// Ends the bin with a free cell, and writes its header.
fn finish(draft: &mut Draft) -> Result<(), FixtureFault> {
    let used = small(draft.bytes.len())?;
    let size = used.saturating_add(4095) / 4096 * 4096;
    if used < size {
        draft.bytes.extend_from_slice(&(size - used).to_le_bytes())?;
    }
    pad(&mut draft.bytes, size as usize)?;
    put(&mut draft.bytes, 0, b"hbin")?;
    put(&mut draft.bytes, 8, &size.to_le_bytes())
}

/// A base block for bins of a size, with a minor version and a root.
fn block(alloc: Global, minor: u32, root: u32, size: u32) -> Result<Vec<u8>, FixtureFault> {
    let mut out = Vec::new(alloc);
    out.extend_from_slice(b"regf")?;
    push_words(&mut out, &[1, 1, 0, 0, 1, minor, 0, 1, root, size, 1], 0)?;
    pad(&mut out, 4096)?;
    seal(&mut out)?;
    Ok(out)
}

/// The bin of a table.
fn make_draft(alloc: Global, table: &str) -> Result<Draft, FixtureFault> {
    let mut draft = Draft {
        offsets: Vec::new(alloc),
        bytes: vec![in alloc; 0; 32]?,
    };
    for line in table.split('\n') {
        push_line(alloc, &mut draft, line)?;
    }
    finish(&mut draft)?;
    Ok(draft)
}

/// The image of a table, with a minor version. The faults are `Line` and `Number`, where a line isn't one of its kind, `Place`, where it
/// names no line before it, and `Memory`.
pub fn drafted(alloc: Global, minor: u32, table: &str) -> Result<Vec<u8>, FixtureFault> {
    let draft = make_draft(alloc, table)?;
    let root = draft.offsets.last().copied().unwrap_or(NONE);
    let mut image = block(alloc, minor, root, small(draft.bytes.len())?)?;
    image.extend_from_slice(&draft.bytes)?;
    Ok(image)
}
