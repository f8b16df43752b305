ghost use Rattle.std.specs.Prelude.{◌≡◌, ◌+◌, ◌≤◌, ◌++◌, length, string_bytes, string_len, string_capacity, OnOk, codes};
ghost use Rattle.std.specs.Fmt.{decimal};
ghost use Rattle.reg_model.specs.declared.call.Call.TheVariants.{Change as Makes, Query as Asks};
ghost use Rattle.reg_script.specs.ReplyTexts.{changed_text, handle_text, disposition_text, watch_text, asks_watch, answer_text, short_text, name_text, value_text, asks_untyped};
ghost use Rattle.reg_script.specs.ReplyTexts.{data_text, bytes_text, reason_text, notice_text};
ghost use Rattle.reg_script.specs.declared.reply.TheConstants.{CHANGE_REPLY_LIMIT, NOTICE_REPLY_LIMIT};
ghost use Rattle.reg_text.specs.Texts.{line_feed};

use itoa::{Buffer, Integer};
use reg_model::{Answer, AnswerBody, Bytes, Change, ChangeReply, Notice, Query, Reason};
use reg_text::{write_digits, write_escaped};
use std::alloc::{AllocError, Global};

/// The longest reply to a change, in bytes with its LF: a status of 10 digits, ` handle ` and 20, ` disposition ` and 10, ` watch ` and
/// 20. Those that a hive gives have less, since none has a watch beside a handle.
pub const CHANGE_REPLY_LIMIT: usize = 89;

/// The longest reply to the taking of a notice, in bytes with its LF: `notice `, 20 digits, a space, 20 digits, a space and `matched`.
pub const NOTICE_REPLY_LIMIT: usize = 57;

/// Appends a piece of text for which there is room.
fn put(text: &mut String, piece: &str)
    requires { string_len text.old + length piece.now ≤ string_capacity text.old }
    ensures bytes { string_bytes text.new ≡ string_bytes text.old ++ piece.now }
    ensures len { string_len text.new ≡ string_len text.old + length piece.now }
    ensures capacity { string_capacity text.old ≤ string_capacity text.new }
{
    match text.push_str(piece) {
        Ok(()) => {}
        Err(_) => unreachable!(),
    }
}

/// Appends a number in decimal, for the most digits of which there is room.
fn put_number<I: Integer>(text: &mut String, number: I)
    requires { string_len text.old + I.MAX_STR_LEN ≤ string_capacity text.old }
    ensures bytes { string_bytes text.new ≡ string_bytes text.old ++ I.text number }
    ensures len { string_len text.new ≤ string_len text.old + I.MAX_STR_LEN }
    ensures capacity { string_capacity text.old ≤ string_capacity text.new }
{
    let mut digits = Buffer::new();
    put(text, digits.format(number));
}

/// The handle that a change opened, if it opened one.
fn put_handle(text: &mut String, handle: Option<u64>)
    requires { string_len text.old + 28 ≤ string_capacity text.old }
    ensures bytes { string_bytes text.new ≡ string_bytes text.old ++ handle_text handle }
    ensures len { string_len text.new ≤ string_len text.old + 28 }
    ensures capacity { string_capacity text.old ≤ string_capacity text.new }
{
    if let Some(handle) = handle {
        put(text, " handle ");
        put_number(text, handle);
    }
}

/// The disposition, where a change tells it.
fn put_disposition(text: &mut String, disposition: Option<u32>)
    requires { string_len text.old + 23 ≤ string_capacity text.old }
    ensures bytes { string_bytes text.new ≡ string_bytes text.old ++ disposition_text disposition }
    ensures len { string_len text.new ≤ string_len text.old + 23 }
    ensures capacity { string_capacity text.old ≤ string_capacity text.new }
{
    if let Some(disposition) = disposition {
        put(text, " disposition ");
        put_number(text, disposition);
    }
}

/// The number of a change's entry, where the change asked for a notification.
fn put_watch(text: &mut String, watches: bool, number: Option<u64>)
    requires { string_len text.old + 27 ≤ string_capacity text.old }
    ensures bytes { string_bytes text.new ≡ string_bytes text.old ++ watch_text watches number }
    ensures len { string_len text.new ≤ string_len text.old + 27 }
    ensures capacity { string_capacity text.old ≤ string_capacity text.new }
{
    if !watches {
        return;
    }
    if let Some(number) = number {
        put(text, " watch ");
        put_number(text, number);
    }
}

/// Whether a change asks for a notification.
pub fn is_notify(change: &Change) -> bool
    ensures { result ≡ asks_watch (Makes change.now) }
{
    match change {
        Change::Notify { .. } => true,
        Change::OpenRoot { .. }
        | Change::OpenKey { .. }
        | Change::CreateKey { .. }
        | Change::SetValue { .. }
        | Change::DeleteValue { .. }
        | Change::DeleteKey { .. }
        | Change::DeleteTree { .. }
        | Change::SetSecurity { .. }
        | Change::Close { .. } => false,
    }
}

/// The line of a reply to a change: the status, and the handle and the disposition where it tells them, or the number of its entry
/// where it asked for a notification (`watches`). It asks for no memory; there must be room for [`CHANGE_REPLY_LIMIT`] bytes.
pub fn write_changed(text: &mut String, watches: bool, reply: &ChangeReply)
    requires { string_len text.old + CHANGE_REPLY_LIMIT ≤ string_capacity text.old }
    ensures { string_bytes text.new ≡ string_bytes text.old ++ changed_text watches reply.now }
{
    put_number(text, reply.status);
    put_handle(text, reply.handle);
    put_disposition(text, reply.disposition);
    put_watch(text, watches, reply.number);
    put(text, "\n");
}

/// Why a watch ended.
fn put_reason(text: &mut String, reason: Reason)
    requires { string_len text.old + 7 ≤ string_capacity text.old }
    ensures bytes { string_bytes text.new ≡ string_bytes text.old ++ reason_text reason }
    ensures len { string_len text.new ≤ string_len text.old + 7 }
    ensures capacity { string_capacity text.old ≤ string_capacity text.new }
{
    match reason {
        Reason::Matched => put(text, "matched"),
        Reason::Gone => put(text, "gone"),
        Reason::Closed => put(text, "closed"),
    }
}

/// The line of a notice that was taken, or that none is left. It asks for no memory; there must be room for [`NOTICE_REPLY_LIMIT`]
/// bytes.
pub fn write_notice(text: &mut String, notice: Option<Notice>)
    requires { string_len text.old + NOTICE_REPLY_LIMIT ≤ string_capacity text.old }
    ensures { string_bytes text.new ≡ string_bytes text.old ++ notice_text notice }
{
    match notice {
        Some(notice) => {
            put(text, "notice ");
            put_number(text, notice.watch);
            put(text, " ");
            put_number(text, notice.by);
            put(text, " ");
            put_reason(text, notice.reason);
            put(text, "\n");
        }
        None => put(text, "notice none\n"),
    }
}

/// What a room is too short for: a subkey's name and a descriptor have a size alone, a value its type too.
fn write_short(text: &mut String, query: &Query, kind: u32, size: u32) -> Result<(), AllocError>
    ensures { OnOk result
        (string_bytes text.new ≡ string_bytes text.old ++ (short_text (asks_untyped (Asks query.now)) kind size ++ line_feed)) }
{
    match query {
        Query::EnumKey { .. } | Query::GetSecurity { .. } => writeln!(text, " size {size}"),
        Query::QueryValue { .. } | Query::EnumValue { .. } | Query::QueryInfo { .. } => {
            writeln!(text, " type {kind} size {size}")
        }
    }
}

/// The end of a line: bytes in lower case.
fn write_bytes(alloc: Global, text: &mut String, bytes: &[u8]) -> Result<(), AllocError>
    ensures { OnOk result (string_bytes text.new ≡ string_bytes text.old ++ (bytes_text bytes.now ++ line_feed)) }
{
    text.push_str(" x")?;
    write_digits(alloc, text, bytes)?;
    writeln!(text)
}

/// The end of a value's line: its bytes, if a room was given.
fn write_data(alloc: Global, text: &mut String, bytes: &Option<Bytes>) -> Result<(), AllocError>
    ensures { OnOk result (string_bytes text.new ≡ string_bytes text.old ++ (data_text bytes.now ++ line_feed)) }
{
    match bytes {
        Some(bytes) => write_bytes(alloc, text, bytes.as_slice()),
        None => writeln!(text),
    }
}

/// The status and a name: what the line of a subkey, or of a value at its index, begins with.
fn write_name(text: &mut String, name: &[u8]) -> Result<(), AllocError>
    ensures { OnOk result (string_bytes text.new ≡ string_bytes text.old ++ (codes "0" ++ name_text name.now)) }
{
    write!(text, "0 =")?;
    write_escaped(text, name)
}

/// What is told of a value before its bytes: its type and its size.
fn write_value(text: &mut String, kind: u32, size: u32) -> Result<(), AllocError>
    ensures { OnOk result (string_bytes text.new ≡ string_bytes text.old ++ value_text kind size) }
{
    write!(text, " type {kind} size {size}")
}

/// The line of a subkey: its name and its time.
fn write_key(text: &mut String, name: &[u8], time: u64) -> Result<(), AllocError>
    ensures { OnOk result (string_bytes text.new ≡ string_bytes text.old
        ++ (codes "0" ++ (name_text name.now ++ (codes " time " ++ (decimal time ++ line_feed))))) }
{
    write_name(text, name)?;
    writeln!(text, " time {time}")
}

/// The line of an answer: a refusal's status alone, else the status with what was asked for.
pub fn write_answered(
    alloc: Global,
    text: &mut String,
    query: &Query,
    answer: &Answer,
) -> Result<(), AllocError>
    ensures { OnOk result (string_bytes text.new ≡ string_bytes text.old ++ answer_text (Asks query.now) answer.now.body) }
{
    match &answer.body {
        AnswerBody::Refused { status } => writeln!(text, "{status}"),
        AnswerBody::Short { status, kind, size } => {
            write!(text, "{status}")?;
            write_short(text, query, *kind, *size)
        }
        AnswerBody::Value { kind, size, bytes } => {
            text.push_str("0")?;
            write_value(text, *kind, *size)?;
            write_data(alloc, text, bytes)
        }
        AnswerBody::Key { name, time } => write_key(text, name.as_slice(), *time),
        AnswerBody::Member {
            name,
            kind,
            size,
            bytes,
        } => {
            write_name(text, name.as_slice())?;
            write_value(text, *kind, *size)?;
            write_data(alloc, text, bytes)
        }
        AnswerBody::Info {
            subkeys,
            longest_key,
            values,
            longest_value,
            largest,
            security,
            time,
        } => writeln!(
            text,
            "0 subkeys {subkeys} longest {longest_key} values {values} longest {longest_value} largest {largest} security {security} time {time}"
        ),
        AnswerBody::Security { bytes } => {
            text.push_str("0")?;
            write_bytes(alloc, text, bytes.as_slice())
        }
    }
}
