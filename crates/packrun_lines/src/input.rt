//! The lines of an input.
ghost use Rattle.std.specs.Prelude.{◌≡◌, ◌≢◌, ◌<◌, ◌≤◌, ◌+◌, ◌-◌, ◌^◌, All, take, length, vec_len, nat_lt, IfOk, IfErr, OnOk};
ghost use Rattle.std.specs.IoError.{error_kind};
ghost use Rattle.std.specs.Io.{StartsWith};
ghost use Rattle.std.specs.Io.Buffered.{reader_remaining};
ghost use Rattle.std.specs.Io.KnownBytes.{Keeps};
ghost use Rattle.packrun_lines.specs.private.Reading.{IsLineRead, IsPartRead, IsCounted, has_ended};

use crate::command::LONGEST_LINE;
use crate::stop::Stop;
use std::alloc::Allocator;
use std::io;
use std::io::{BufRead, BufReader, ErrorKind, Read, Write};

/// Reads the next line into `line`, with its line feed, or the first 4097 bytes of one that is
/// longer. Nothing is in `line` at the end of the input.
///
/// A read that a signal interrupts is tried again. An error is the reader's, or `line` had less
/// room and memory was refused.
pub fn read_line<B: BufRead, A: Allocator>(input: &mut B, line: &mut Vec<u8, A>) -> io::Result<()>
    // What is read is all up to the first line feed, itself among it, and at most 4097 bytes; fewer
    //   without a line feed only at the end of the input.
    //   [read_part.line_feed_after_4096_bytes_is_left]
    ensures read { OnOk result
        (IsLineRead (B.remaining input.old) line.new.items (B.remaining input.new)) }
    // An error is never that a read was interrupted: it is tried again, also within a line.
    //   [read_part.interrupted_line_is_given_up]
    ensures retried { IfErr result (λ error. error_kind error ≢ ErrorKind.Interrupted) }
{
    line.clear();
    // Counted, since reads could be interrupted for ever, and each loop has to end.
    for _ in 0..u64::MAX {
        if read_part(input, line)? {
            return Ok(());
        }
    }
    Err(io::Error::from(ErrorKind::Other))
}

// Moves to the line what the reader has at hand of it. Whether the line has ended, or is too long.
fn read_part<B: BufRead, A: Allocator>(input: &mut B, line: &mut Vec<u8, A>) -> io::Result<bool>
    requires { vec_len line.old ≤ 4096 }
    ensures appends { StartsWith line.new.items line.old.items }
    ensures part { IfOk result (IsPartRead (B.remaining input.old) line.old.items line.new.items
        (B.remaining input.new)) }
    ensures retried { IfErr result (λ error. error_kind error ≢ ErrorKind.Interrupted) }
{
    let bytes = match input.fill_buf() {
        Ok(bytes) => bytes,
        Err(error) if error.kind() == ErrorKind::Interrupted => return Ok(false),
        Err(error) => return Err(error),
    };
    let count = length_of_part(bytes, LONGEST_LINE + 1 - line.len());
    let part = &bytes[..count];
    let ended = has_ended(part);
    line.extend_from_slice(part)?;
    input.consume(count);
    let too_long = line.len() > LONGEST_LINE;
    Ok(ended | too_long)
}

// Whether a line ends with this part of it: with a line feed, or where there is nothing more.
fn has_ended(part: &[u8]) -> bool
    ensures { result ≡ has_ended part.now }
{
    part.is_empty() || part[part.len() - 1] == b'\n'
}

// How many bytes there are up to the first line feed, itself counted, and at most so many.
fn length_of_part(bytes: &[u8], most: usize) -> usize
    ensures within { result ≤ length bytes.now }
    ensures limit { result ≤ most }
    ensures some { 0 < most → 0 < length bytes.now → 0 < result }
    ensures before { All (λ b. b ≢ 10) (take (result - 1) bytes.now) }
{
    let most = most.min(bytes.len());
    for index in 0..most {
        if bytes[index] == b'\n' {
            return index + 1;
        }
    }
    most
}

/// Reads the next line, and adds its bytes to `total`, those that were read before. Whether there
/// was one. What is printed is flushed first, where the line is not buffered to its end.
///
/// An error is `IoFailed`: the flush or the read failed, `line` had less room than the longest line
/// and memory was refused, or more than 2^64 - 1 bytes were read.
pub fn next_line<R: Read, W: Write, A: Allocator>(
    input: &mut BufReader<R, A>,
    line: &mut Vec<u8, A>,
    total: &mut u64,
    out: &mut W,
) -> Result<bool, Stop>
    ensures read { OnOk result (IsLineRead (reader_remaining R.remaining input.old) line.new.items
        (reader_remaining R.remaining input.new)) }
    ensures some { IfOk result (λ more. more ≡ nat_lt 0 (length line.new.items)) }
    ensures counted { OnOk result (IsCounted total.old (length line.new.items) total.new) }
    ensures kept { Keeps (W.contents out.old) (W.contents out.new) }
    ensures failed { IfErr result (λ stop. stop ≡ Stop.IoFailed) }
{
    flush_before_read(input, out)?;
    read_line(input, line)?;
    let count = line.len() as u64;
    count_bytes(total, count)?;
    Ok(count > 0)
}

// Adds to the bytes that were read.
fn count_bytes(total: &mut u64, more: u64) -> Result<(), Stop>
    // The bytes of a line are added to those that were read before it.
    ensures counted { OnOk result (IsCounted total.old more total.new) }
    // An input is too long only where more than 2^64 - 1 bytes were read.
    //   [count_bytes.million_is_too_many]
    ensures too_many { IfErr result
        (λ stop. (stop ≡ Stop.IoFailed) × (2 ^ 64 ≤ total.old + more)) }
{
    let Some(sum) = total.checked_add(more) else {
        return Err(Stop::IoFailed);
    };
    *total = sum;
    Ok(())
}

// Flushes what is printed, where the next line is not buffered to its end.
fn flush_before_read<R: Read, W: Write, A: Allocator>(
    input: &BufReader<R, A>,
    out: &mut W,
) -> io::Result<()>
    ensures { Keeps (W.contents out.old) (W.contents out.new) }
{
    if input.buffer().contains(&b'\n') {
        return Ok(());
    }
    out.flush()
}
