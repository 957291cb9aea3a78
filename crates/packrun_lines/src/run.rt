//! Commands, a line each, from a reader to a writer.
ghost use Rattle.std.specs.Prelude.{◌≡◌, ◌≢◌, [], IfSome};
ghost use Rattle.std.specs.Io.Buffered.{reader_remaining, writer_buffer, writer_contents};
ghost use Rattle.std.specs.Io.KnownBytes.{Appends};
ghost use Rattle.packrun_lines.specs.Store.{empty_store};
ghost use Rattle.packrun_lines.specs.private.Obeying.{StopsSo};
ghost use Rattle.packrun_lines.specs.Transcripts.{PrintsTranscript, last_line};
ghost use Rattle.packrun_lines.specs.Printing.{AppendsStart};
ghost use Rattle.packrun_lines.specs.private.Printing.{Prints};

use crate::bytes::{Digits, print_bytes, print_parts};
use crate::command::{LONGEST_LINE, parse};
use crate::input::next_line;
use crate::stop::Stop;
use crate::store::Store;
use std::alloc::Allocator;
use std::io::{BufReader, BufWriter, Read, Write};

/// Obeys the commands of `reader`, a line each, and prints to `writer`.
///
/// The writer is written to piece by piece, and flushed before each read that may have to wait, and
/// at the end: [`run_buffered`] takes a buffered one. Lines are numbered from 1, and placements
/// from 0. What lines before the end printed stands, also where a read or a write fails. Where the
/// last line of a run cannot be printed, it ends as `IoFailed`.
pub fn run_lines<R: Read, W: Write, A: Allocator + Copy>(
    alloc: A,
    reader: &mut R,
    writer: &mut W,
) -> Result<(), Stop>
    // For every reader whose bytes are known and every writer whose bytes are: what is printed is
    //   the transcript of the input, and nothing else. It ends at the end of the input, at the
    //   first bad line with its number, or for want of memory: then the lines up to some place are
    //   answered, those after it are not, and the last line says so. Where it ends as `IoFailed`, a
    //   beginning of a transcript of the input is printed, and nothing else.
    //   [obey_each.line_is_obeyed_twice, obey_each.empty_line_has_no_number,
    //   obey_each.unfinished_line_is_obeyed, obey_all.panics_without_memory]
    ensures transcript { IfSome (R.remaining reader.old)
        (PrintsTranscript (W.contents writer.old) (W.contents writer.new) result) }
{
    let ended = obey_all(alloc, reader, writer);
    end(ended, writer)
}

/// Obeys the commands of `reader`, as [`run_lines`] does, and prints to a buffered writer. Nothing
/// is left in its buffer, unless the run ends as `IoFailed`.
pub fn run_buffered<R: Read, W: Write + Drop, A: Allocator + Copy>(
    alloc: A,
    reader: &mut R,
    out: &mut BufWriter<W, A>,
) -> Result<(), Stop>
    // The same over a buffer, which `main` calls.
    ensures transcript { IfSome (R.remaining reader.old) (PrintsTranscript
        (writer_contents W.contents out.old) (writer_contents W.contents out.new) result) }
    // Nothing is left in the buffer, unless the run ends as `IoFailed`.
    //   [run_buffered.nothing_is_flushed]
    ensures flushed { result ≢ Err Stop.IoFailed → writer_buffer out.new ≡ [] }
{
    let ended = obey_all(alloc, reader, out);
    let ended = end(ended, out);
    if ended == Err(Stop::IoFailed) || out.flush().is_err() {
        return Err(Stop::IoFailed);
    }
    ended
}

// Makes what the lines work on, and obeys them.
fn obey_all<R: Read, W: Write, A: Allocator + Copy>(
    alloc: A,
    reader: &mut R,
    out: &mut W,
) -> Result<(), Stop>
    ensures { IfSome (R.remaining reader.old) (λ bytes. StopsSo result bytes (empty_store 0)
        (W.contents out.old) (W.contents out.new)) }
{
    let Ok(mut input) = BufReader::new(alloc, reader) else {
        return Err(Stop::NoMemory);
    };
    // With this room a line takes no memory, so an error of `read_line` is the reader's.
    let mut line = Vec::with_capacity(alloc, LONGEST_LINE + 1)?;
    let mut store = Store::new(alloc, 0);
    let ended = obey_each(&mut store, &mut input, &mut line, out);
    store.close();
    ended
}

// Obeys each line, until the input ends or something stops it.
fn obey_each<R: Read, W: Write, A: Allocator + Copy>(
    store: &mut Store<A>,
    input: &mut BufReader<R, A>,
    line: &mut Vec<u8, A>,
    out: &mut W,
) -> Result<(), Stop>
    ensures { IfSome (reader_remaining R.remaining input.old) (λ bytes. StopsSo result bytes
        store.old (W.contents out.old) (W.contents out.new)) }
{
    let (mut total, mut number) = (0u64, 0u64);
    while next_line(input, line, &mut total, out)? {
        // Each line has a byte, so there are no more lines than bytes.
        number += 1;
        let Some(command) = parse(line.as_slice()) else {
            return Err(Stop::BadLine(number));
        };
        store.obey(command, out)?;
    }
    Ok(())
}

// Prints the last line, where the end has one, and flushes. How the run ends.
fn end<W: Write>(ended: Result<(), Stop>, out: &mut W) -> Result<(), Stop>
    ensures ended { result ≢ Err Stop.IoFailed → result ≡ ended }
    ensures printed { result ≢ Err Stop.IoFailed →
        Appends (W.contents out.old) (W.contents out.new) (last_line result) }
    ensures begun { AppendsStart (W.contents out.old) (W.contents out.new) (last_line ended) }
{
    if ended == Err(Stop::IoFailed) || print_end(ended, out).is_err() || out.flush().is_err() {
        return Err(Stop::IoFailed);
    }
    ended
}

/// Ends a run for which there is no memory at all, not even for a buffer: prints the last line.
pub fn end_without_memory<W: Write>(writer: &mut W) -> Result<(), Stop>
    // The run ends as `NoMemory`, or as `IoFailed`.
    ensures ended { result ≢ Err Stop.IoFailed → result ≡ Err Stop.NoMemory }
    // `Out of memory.` is printed, unless the run ends as `IoFailed`.
    ensures printed { result ≢ Err Stop.IoFailed → Appends (W.contents writer.old)
        (W.contents writer.new) (last_line (Err Stop.NoMemory)) }
    // A beginning of it is printed, and nothing else, however the run ends.
    ensures begun { AppendsStart (W.contents writer.old) (W.contents writer.new)
        (last_line (Err Stop.NoMemory)) }
{
    end(Err(Stop::NoMemory), writer)
}

// Prints the last line of a run that ends so.
fn print_end<W: Write>(ended: Result<(), Stop>, out: &mut W) -> Result<(), Stop>
    ensures { Prints (W.contents out.old) (W.contents out.new) result (last_line ended) }
{
    match ended {
        Ok(()) | Err(Stop::IoFailed) => Ok(()),
        Err(Stop::BadLine(number)) => {
            let number = Digits::new(u128::from(number));
            print_parts(&[b"line ", number.as_bytes(), b" is bad\n"], out)
        }
        Err(Stop::NoMemory) => print_bytes(b"Out of memory.\n", out),
    }
}
