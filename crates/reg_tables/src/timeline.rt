//! The keys of several trees by the time of their last write.
ghost use Rattle.std.specs.Prelude.{◌≡◌, ◌+◌, ◌<◌, ◌≤◌, ◌∷◌, ◌++◌, ◌==◌, ◌||◌, nat_lt, true, [], List, ℕ, IfOk, IfErr, OnOk, MatchResult, Some, flat_map, map, string_bytes};
ghost use Rattle.std.specs.FinMap.{get};
ghost use Rattle.std.specs.Fmt.{digit_glyph};
ghost use Rattle.std.specs.Io.KnownBytes.{Appends};
ghost use Rattle.reg_names.specs.Names.{text_of};
ghost use Rattle.reg_heap.specs.Paths.{Path, Tree as KeyTree};
ghost use Rattle.reg_text.specs.Failures.{Stays};
ghost use Rattle.reg_tree.specs.TreeKeys.{IsAt, IsThere};
ghost use Rattle.reg_tree_text.specs.DumpTexts.{Told, keys_told};
ghost use Rattle.reg_tree_text.specs.DumpFronts.{IsStopped, IsBlamed};
ghost use Rattle.reg_tree_text.specs.Internal.Gathered.{Puts};
ghost use Rattle.reg_tree_text.specs.Internal.Walking.{Stands};
ghost use Rattle.reg_tables.specs.Timelines.{precise_instant, precise_time, unix_seconds, field_byte, field_text, text_line, csv_line, body_line};
ghost use Rattle.reg_tables.specs.Timelines.{form_line, form_lines, heading, ordered_text, timeline_text, hive_name, key_within, keys_within, by_time, timed, IsGathered};

use crate::parts::put_text;
use crate::row::put_row;
use crate::time::{LAST_INSTANT, number_text};
use jiff::Timestamp;
use jiff::fmt::temporal::DateTimePrinter;
use reg_text::{Output, Sink, write_escaped};
use reg_tree::{Node, Tree};
use reg_tree_text::{DumpFault, Walk, finish};
use std::alloc::{AllocError, Global};

/// How many 100 ns lie between the start of 1601, from where a FILETIME counts, and that of 1970.
const EPOCH: u64 = 116_444_736_000_000_000;

/// How many 100 ns a second has.
const SECOND: u64 = 10_000_000;

/// How a timeline is written: a line for each key, a table, or a body file of The Sleuth Kit.
#[derive(Clone, Copy, Debug, PartialEq, Eq)]
pub enum TimelineForm {
    Text,
    Csv,
    Bodyfile,
}

/// A key that was gathered: when it was last written, in which tree it is, counted from 0, and the names that lead to it.
#[derive(Drop)]
struct TimedKey {
    time: u64,
    hive: usize,
    path: Vec<u8>,
}

/// The keys of trees, gathered to be written by the time of their last write.
#[derive(Drop)]
pub struct Timeline {
    keys: Vec<TimedKey>,
    hives: usize,
}

/// The text of an instant that jiff says, with seven places behind the point.
fn precise_instant(alloc: Global, ticks: u64) -> Result<String, AllocError>
    requires { ticks ≤ LAST_INSTANT }
    ensures { IfOk result (λ text. string_bytes text ≡ precise_instant ticks) }
{
    let Ok(timestamp) = Timestamp::from_nanosecond((ticks as i128 - EPOCH as i128) * 100) else {
        unreachable!()
    };
    let printer = DateTimePrinter::new().precision(Some(7));
    let text = printer.timestamp_text(timestamp.to_plain());
    String::from_str(alloc, text.as_str())
}

/// A time as a text, with seven places behind the point.
fn precise_text(alloc: Global, ticks: u64) -> Result<String, AllocError>
    ensures { IfOk result (λ text. string_bytes text ≡ precise_time ticks) }
{
    if ticks > LAST_INSTANT {
        return number_text(alloc, ticks);
    }
    precise_instant(alloc, ticks)
}

/// Whole seconds since the start of 1970, or 0.
fn seconds_of(ticks: u64) -> u64
    ensures { result ≡ unix_seconds ticks }
{
    ticks.saturating_sub(EPOCH) / SECOND
}

/// The line of a key in a text.
fn line_of(alloc: Global, name: &str, key: &TimedKey) -> Result<String, AllocError>
    ensures { IfOk result (λ text. string_bytes text ≡ text_line name.now (timed key.now)) }
{
    let mut text = precise_text(alloc, key.time)?;
    text.push_str(" ")?;
    text.push_str(name)?;
    text.push_str(" =")?;
    write_escaped(&mut text, &key.path)?;
    text.push_str("\n")?;
    Ok(text)
}

/// A digit to the base of 16, in upper case.
fn digit(value: u8) -> u8
    requires { value < 16 }
    ensures { result ≡ digit_glyph true value }
{
    if value < 10 {
        b'0' + value
    } else {
        b'A' + (value - 10)
    }
}

/// Whether a byte of a name isn't told by itself in a body file.
fn is_parting(byte: u8) -> bool
    ensures { result ≡ (byte == 37 || byte == 124 || nat_lt byte 32 || byte == 127) }
{
    byte == b'%' || byte == b'|' || byte < 32 || byte == 127
}

/// Appends a byte of a name as a body file tells it.
fn push_byte(bytes: &mut Vec<u8>, byte: u8) -> Result<(), AllocError>
    ensures { OnOk result (bytes.new.items ≡ bytes.old.items ++ field_byte byte) }
{
    if !is_parting(byte) {
        bytes.push(byte)?;
        return Ok(());
    }
    bytes.extend_from_slice(&[b'%', digit(byte / 16), digit(byte % 16)])?;
    Ok(())
}

/// Appends a name as a body file tells it.
fn push_field(bytes: &mut Vec<u8>, text: &[u8]) -> Result<(), AllocError>
    ensures { OnOk result (bytes.new.items ≡ bytes.old.items ++ field_text text.now) }
{
    for byte in text {
        push_byte(bytes, *byte)?;
    }
    Ok(())
}

/// The bytes of a key's line in a body file.
fn body_bytes(alloc: Global, name: &[u8], key: &TimedKey) -> Result<Vec<u8>, AllocError>
    ensures { IfOk result (λ v. v.items ≡ body_line name.now (timed key.now)) }
{
    let seconds = number_text(alloc, seconds_of(key.time))?;
    let mut bytes = Vec::new(alloc);
    bytes.extend_from_slice(b"0|")?;
    push_field(&mut bytes, name)?;
    bytes.push(b' ')?;
    push_field(&mut bytes, &key.path)?;
    bytes.extend_from_slice(b"|0|0|0|0|0|0|")?;
    bytes.extend_from_slice(seconds.as_bytes())?;
    bytes.extend_from_slice(b"|0|0\n")?;
    Ok(bytes)
}

/// The line of a key in a body file. Names are texts, so the line is one; else memory would be said to be wanting.
fn body_text(alloc: Global, name: &str, key: &TimedKey) -> Result<String, AllocError>
    ensures { IfOk result (λ text. string_bytes text ≡ body_line name.now (timed key.now)) }
{
    let bytes = body_bytes(alloc, name.as_bytes(), key)?;
    match String::from_utf8(bytes) {
        Ok(text) => Ok(text),
        Err(_) => Err(AllocError),
    }
}

/// Tells a key in a text.
fn put_line<S: Sink>(
    output: &mut Output<String>,
    writer: &mut S,
    alloc: Global,
    name: &str,
    key: &TimedKey,
) -> Result<(), DumpFault>
    ensures { Puts output.old (S.contents writer.old, S.failures writer.old) output.new (S.contents writer.new, S.failures writer.new)
        (text_line name.now (timed key.now)) result }
{
    let text = line_of(alloc, name, key)?;
    put_text(output, writer, &text)
}

/// Tells a key in a table.
fn put_cells<S: Sink>(
    output: &mut Output<String>,
    writer: &mut S,
    alloc: Global,
    name: &str,
    key: &TimedKey,
) -> Result<(), DumpFault>
    ensures { Puts output.old (S.contents writer.old, S.failures writer.old) output.new (S.contents writer.new, S.failures writer.new)
        (csv_line name.now (timed key.now)) result }
{
    let time = precise_text(alloc, key.time)?;
    put_row(
        output,
        writer,
        alloc,
        &[time.as_bytes(), name.as_bytes(), &key.path],
    )
}

/// Tells a key in a body file.
fn put_body<S: Sink>(
    output: &mut Output<String>,
    writer: &mut S,
    alloc: Global,
    name: &str,
    key: &TimedKey,
) -> Result<(), DumpFault>
    ensures { Puts output.old (S.contents writer.old, S.failures writer.old) output.new (S.contents writer.new, S.failures writer.new)
        (body_line name.now (timed key.now)) result }
{
    let text = body_text(alloc, name, key)?;
    put_text(output, writer, &text)
}

/// Tells a key.
fn put_key<S: Sink>(
    output: &mut Output<String>,
    writer: &mut S,
    alloc: Global,
    form: TimelineForm,
    name: &str,
    key: &TimedKey,
) -> Result<(), DumpFault>
    ensures { Puts output.old (S.contents writer.old, S.failures writer.old) output.new (S.contents writer.new, S.failures writer.new)
        (form_line form name.now (timed key.now)) result }
{
    match form {
        TimelineForm::Text => put_line(output, writer, alloc, name, key),
        TimelineForm::Csv => put_cells(output, writer, alloc, name, key),
        TimelineForm::Bodyfile => put_body(output, writer, alloc, name, key),
    }
}

/// Tells what stands before the first key.
fn put_heading<S: Sink>(
    output: &mut Output<String>,
    writer: &mut S,
    alloc: Global,
    form: TimelineForm,
) -> Result<(), DumpFault>
    ensures { Puts output.old (S.contents writer.old, S.failures writer.old) output.new (S.contents writer.new, S.failures writer.new)
        (heading form) result }
{
    match form {
        TimelineForm::Csv => put_row(output, writer, alloc, &[b"time", b"hive", b"path"]),
        TimelineForm::Text | TimelineForm::Bodyfile => Ok(()),
    }
}

/// The name of a hive by its number; none where fewer are given.
fn name_at<'a>(names: &[&'a str], hive: usize) -> &'a str
    ensures { result.now ≡ hive_name (map (λ n. n.now) names.now) hive }
{
    if hive < names.len() { names[hive] } else { "" }
}

/// Tells keys, each in a line.
fn put_keys<S: Sink>(
    output: &mut Output<String>,
    writer: &mut S,
    alloc: Global,
    form: TimelineForm,
    names: &[&str],
    keys: &[TimedKey],
) -> Result<(), DumpFault>
    ensures { Puts output.old (S.contents writer.old, S.failures writer.old) output.new (S.contents writer.new, S.failures writer.new)
        (form_lines form (map (λ n. n.now) names.now) (map timed keys.now)) result }
{
    for key in keys {
        put_key(output, writer, alloc, form, name_at(names, key.hive), key)?;
    }
    Ok(())
}

/// Tells keys that are in their order.
fn put_timeline<S: Sink>(
    output: &mut Output<String>,
    writer: &mut S,
    alloc: Global,
    form: TimelineForm,
    names: &[&str],
    keys: &[TimedKey],
) -> Result<(), DumpFault>
    ensures { Puts output.old (S.contents writer.old, S.failures writer.old) output.new (S.contents writer.new, S.failures writer.new)
        (ordered_text form (map (λ n. n.now) names.now) (map timed keys.now)) result }
{
    put_heading(output, writer, alloc, form)?;
    put_keys(output, writer, alloc, form, names, keys)
}

/// Writes keys that are in their order.
fn write_keys<S: Sink>(
    alloc: Global,
    form: TimelineForm,
    names: &[&str],
    keys: &[TimedKey],
    writer: &mut S,
) -> Result<(), DumpFault>
    ensures ok { OnOk result (Appends (S.contents writer.old) (S.contents writer.new)
        (ordered_text form (map (λ n. n.now) names.now) (map timed keys.now))) }
    ensures err { IfErr result (λ fault. IsStopped (S.contents writer.old) (S.contents writer.new)
        (ordered_text form (map (λ n. n.now) names.now) (map timed keys.now)) fault) }
    ensures flushed { OnOk result (S.is_flushed writer.new) }
    ensures failures { MatchResult result (λ _. Stays (S.failures writer.old) (S.failures writer.new))
        (λ fault. IsBlamed fault (S.failures writer.old) (S.failures writer.new)) }
{
    let mut output = Output::new(alloc);
    put_timeline(&mut output, writer, alloc, form, names, keys)?;
    finish(&mut output, writer)
}

/// Keys by their time.
fn ordered(keys: Vec<TimedKey>) -> Result<Vec<TimedKey>, AllocError>
    ensures { IfOk result (λ v. map timed v.items ≡ by_time (map timed keys.items)) }
{
    let mut sorted = keys;
    sorted.sort_by_key(|key| key.time)?;
    Ok(sorted)
}

/// Gathers a key, where its time is within the bounds.
fn gather_key(
    keys: &mut Vec<TimedKey>,
    tree: &Tree,
    node: Node,
    path: &[u8],
    hive: usize,
    from: u64,
    to: u64,
) -> Result<(), AllocError>
    requires { IsThere tree.now node }
    ensures { (p : Path) → IsAt tree.now p node → (told : Told) → get tree.now.tree p ≡ Some told.key → path.now ≡ text_of told.names →
        OnOk result (map timed keys.new.items ≡ map timed keys.old.items ++ key_within hive from to told) }
{
    let time = tree.time(node);
    if time < from || to < time {
        return Ok(());
    }
    let mut names = Vec::with_capacity(*keys.allocator(), path.len())?;
    names.extend_from_slice(path)?;
    keys.push(TimedKey {
        time,
        hive,
        path: names,
    })?;
    Ok(())
}

/// Gathers the keys behind the one at which a walk stands.
fn gather_more(
    keys: &mut Vec<TimedKey>,
    tree: &Tree,
    start: Walk,
    hive: usize,
    from: u64,
    to: u64,
) -> Result<(), AllocError>
    requires { (here : Told) × (rest : List Told) × Stands tree.now start here rest }
    ensures { (here : Told) → (rest : List Told) → Stands tree.now start here rest →
        OnOk result (map timed keys.new.items ≡ map timed keys.old.items ++ keys_within hive from to rest) }
{
    let mut walk = start;
    // No tree has so many keys: the bound only shows that the walk ends.
    for _key in 0..u64::MAX {
        if !walk.advance(tree)? {
            return Ok(());
        }
        gather_key(keys, tree, walk.node, &walk.path, hive, from, to)?;
    }
    Err(AllocError)
}

/// Gathers the keys of a tree.
fn gather_keys(
    keys: &mut Vec<TimedKey>,
    tree: &Tree,
    hive: usize,
    from: u64,
    to: u64,
) -> Result<(), AllocError>
    ensures { OnOk result (map timed keys.new.items ≡ map timed keys.old.items ++ keys_within hive from to (keys_told tree.now.tree)) }
{
    let walk = Walk::new(*keys.allocator(), tree.root());
    gather_key(keys, tree, walk.node, &walk.path, hive, from, to)?;
    gather_more(keys, tree, walk, hive, from, to)
}

impl Timeline {
    /// Of no tree.
    pub fn new(alloc: Global) -> Timeline
        ensures { (from to : ℕ) → IsGathered result [] from to }
    {
        Timeline {
            keys: Vec::new(alloc),
            hives: 0,
        }
    }

    /// Gathers the keys of one tree more whose last write wasn't before a time or behind another one, in 100 ns since the start of 1601.
    /// After an error nothing is said of what was gathered.
    pub fn gather(&mut self, tree: &Tree, from: u64, to: u64) -> Result<(), AllocError>
        ensures { (trees : List KeyTree) → IsGathered self.old trees from to → OnOk result (IsGathered self.new (trees ++ tree.now.tree ∷ []) from to) }
    {
        let Some(next) = self.hives.checked_add(1) else {
            return Err(AllocError);
        };
        gather_keys(&mut self.keys, tree, self.hives, from, to)?;
        self.hives = next;
        Ok(())
    }

    /// Writes the keys that were gathered by the time of their last write, those of one time in the order of the trees and then of a
    /// dump. There is a name for each tree, in the order in which they were gathered. The text goes to the writer some 64 KB at a time,
    /// but that of a key in one piece, and at the end the writer is flushed.
    ///
    /// A front of the text was written where a write or memory failed. Of the writer's calls just one failed where a write is told, and
    /// else none.
    pub fn write<S: Sink>(
        self,
        form: TimelineForm,
        names: &[&str],
        writer: &mut S,
    ) -> Result<(), DumpFault>
        ensures ok { (trees : List KeyTree) → (from to : ℕ) → IsGathered self trees from to → OnOk result (Appends (S.contents writer.old)
            (S.contents writer.new) (timeline_text form (map (λ n. n.now) names.now) trees from to)) }
        ensures err { (trees : List KeyTree) → (from to : ℕ) → IsGathered self trees from to → IfErr result (λ fault. IsStopped
            (S.contents writer.old) (S.contents writer.new) (timeline_text form (map (λ n. n.now) names.now) trees from to) fault) }
        ensures flushed { OnOk result (S.is_flushed writer.new) }
        ensures failures { MatchResult result (λ _. Stays (S.failures writer.old) (S.failures writer.new))
            (λ fault. IsBlamed fault (S.failures writer.old) (S.failures writer.new)) }
    {
        let alloc = *self.keys.allocator();
        let keys = ordered(self.keys)?;
        write_keys(alloc, form, names, &keys, writer)
    }
}
