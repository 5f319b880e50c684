//! Writes the answers to replies.
ghost use Rattle.std.specs.Prelude.{◌≡◌, ◌<◌, ◌≤◌, ◌↔◌, ◌++◌, ◌∷◌, [], All, codes, is_some, true, drop, IfOk, IfErr, OnOk, IsTrue};
ghost use Rattle.std.specs.Fmt.{decimal, sign_text, signed_decimal};
ghost use Rattle.std.specs.Io.KnownBytes.{Appends};
ghost use Rattle.dary_heap.specs.Reading as read;
ghost use Rattle.dheap.specs.Answers.{answer, answered, line, listing, text};
ghost use Rattle.dheap.specs.Faults.{status_of};

use super::fault::Fault;
use dary_heap::run::Reply;
use std::alloc::{AllocError, Global};
use std::io;
use std::io::Write;

/// Answers are written out once this many bytes are buffered.
const FLUSH_THRESHOLD: usize = 1 << 13;

/// The longest line of a number is a sign, 20 digits and a line feed.
const LONGEST: usize = 22;

/// Writes a line for each reply before the first that says that memory allocation failed. Returns whether
/// there is no such reply.
pub fn write_answers<W: Write, const D: usize>(
    alloc: Global,
    replies: &[Reply<i64, D>],
    output: &mut W,
) -> Result<bool, Fault>
    ensures fault { IfErr result (λ fault. 3 ≤ status_of fault) }
    ensures whole { IfOk result (λ whole. IsTrue whole
        ↔ All (λ reply. is_some (answer reply) ≡ true) (read.replies replies.now)) }
    ensures written { OnOk result (Appends (W.contents output.old) (W.contents output.new)
        (text (answered (read.replies replies.now)))) }
{
    // A lack of memory at the first reply is met before the output.
    if let [first, ..] = replies
        && !has_answer(first)
    {
        return Ok(false);
    }
    let mut buffer = Vec::new(alloc);
    for reply in replies {
        if !write_reply(reply, &mut buffer)? {
            flush_buffer(&mut buffer, output)?;
            output.flush()?;
            return Ok(false);
        }
        if buffer.len() >= FLUSH_THRESHOLD {
            flush_buffer(&mut buffer, output)?;
        }
    }
    flush_buffer(&mut buffer, output)?;
    output.flush()?;
    Ok(true)
}

/// Returns `false` if the reply says that memory allocation failed.
fn has_answer<const D: usize>(reply: &Reply<i64, D>) -> bool
    ensures { result ≡ is_some (answer (read.reply reply.now)) }
{
    !matches!(
        reply,
        Reply::PushRefused(_)
            | Reply::ExtendRefused
            | Reply::AppendRefused(_)
            | Reply::Refused
            | Reply::Loaned(_)
    )
}

/// Writes out what is buffered, and empties the buffer.
fn flush_buffer<W: Write>(buffer: &mut Vec<u8>, output: &mut W) -> io::Result<()>
    ensures passed { OnOk result
        (Appends (W.contents output.old) (W.contents output.new) buffer.old.items) }
    ensures none { OnOk result (buffer.new.items ≡ []) }
{
    output.write_all(buffer.as_slice())?;
    buffer.clear();
    Ok(())
}

/// Adds the line of a reply, or nothing if the reply says that memory allocation failed. Returns whether
/// it had one.
fn write_reply<const D: usize>(
    reply: &Reply<i64, D>,
    buffer: &mut Vec<u8>,
) -> Result<bool, AllocError>
    ensures told { IfOk result (λ told. told ≡ is_some (answer (read.reply reply.now))) }
    ensures written { OnOk result
        (buffer.new.items ≡ buffer.old.items ++ line (answer (read.reply reply.now))) }
{
    match reply {
        Reply::Pushed | Reply::Done => buffer.extend_from_slice(b"ok\n")?,
        Reply::Popped(Some(item)) => write_item(*item, b'\n', buffer)?,
        Reply::Popped(None) | Reply::Asked(None) => buffer.extend_from_slice(b"none\n")?,
        Reply::Asked(Some(true)) => buffer.extend_from_slice(b"yes\n")?,
        Reply::Asked(Some(false)) => buffer.extend_from_slice(b"no\n")?,
        Reply::Len(count) => write_number(false, *count as u64, b'\n', buffer)?,
        Reply::Taken(items) => write_items(items.as_slice(), buffer)?,
        _ => return Ok(false),
    }
    Ok(true)
}

/// Adds the line of a listing.
fn write_items(items: &[i64], buffer: &mut Vec<u8>) -> Result<(), AllocError>
    ensures { OnOk result (buffer.new.items ≡ buffer.old.items ++ (listing items.now ++ codes "\n")) }
{
    let Some((last, others)) = items.split_last() else {
        return buffer.extend_from_slice(b"none\n");
    };
    for item in others {
        write_item(*item, b' ', buffer)?;
    }
    write_item(*last, b'\n', buffer)
}

/// Adds a number and a byte after it.
fn write_item(item: i64, after: u8, buffer: &mut Vec<u8>) -> Result<(), AllocError>
    ensures { OnOk result (buffer.new.items ≡ buffer.old.items ++ (signed_decimal item ++ after ∷ [])) }
{
    write_number(item < 0, item.unsigned_abs(), after, buffer)
}

/// Adds a number, after a minus if it is negative, and a byte after it.
fn write_number(
    negative: bool,
    size: u64,
    after: u8,
    buffer: &mut Vec<u8>,
) -> Result<(), AllocError>
    ensures { OnOk result (buffer.new.items ≡ buffer.old.items
        ++ (sign_text negative ++ decimal size ++ after ∷ [])) }
{
    let mut line = [after; LONGEST];
    let digits = put_digits(size, &mut line);
    if !negative {
        return buffer.extend_from_slice(&line[digits..]);
    }
    line[digits - 1] = b'-';
    buffer.extend_from_slice(&line[digits - 1..])
}

/// Puts the digits of a number before the last byte of a line, and returns where they begin.
fn put_digits(size: u64, line: &mut [u8; LONGEST]) -> usize
    ensures low { 0 < result }
    ensures high { result < 22 }
    ensures put { drop result line.new ≡ decimal size ++ drop 21 line.old }
{
    let mut begin = LONGEST - 1;
    let mut rest = size;
    while rest >= 10 {
        begin -= 1;
        line[begin] = b'0' + (rest % 10) as u8;
        rest /= 10;
    }
    line[begin - 1] = b'0' + rest as u8;
    begin - 1
}
