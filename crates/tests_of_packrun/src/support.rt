//! Readers and writers that fail, and runs over memory.

use packrun_lines::run::{end_without_memory, run_buffered, run_lines};
use packrun_lines::stop::Stop;
use std::alloc::{Allocator, Global};
use std::io;
use std::io::{BufWriter, Cursor, Read, Write};
use std::process::Abort;

// How a run ends.
pub(crate) type Ended = Result<(), Stop>;

// Gives its bytes in pieces, and fails once `good_reads` reads were good.
#[derive(Drop)]
pub(crate) struct Pieces<'a> {
    pub bytes: &'a [u8],
    pub piece: usize,
    pub good_reads: u64,
}

impl Read for Pieces<'_> {
    fn read(&mut self, buf: &mut [u8]) -> io::Result<usize> {
        if self.good_reads == 0 {
            return Err(io::Error::from(io::ErrorKind::Other));
        }
        self.good_reads -= 1;
        let most = self.piece.min(buf.len());
        self.bytes.read(&mut buf[..most])
    }
}

// Keeps what is written, in pieces, and fails once `good_writes` writes were good.
#[derive(Drop)]
pub(crate) struct Kept {
    bytes: Cursor<[u8; 512]>,
    piece: usize,
    good_writes: u64,
}

impl Kept {
    pub(crate) fn new(piece: usize, good_writes: u64) -> Kept {
        Kept {
            bytes: Cursor::new([0; 512]),
            piece,
            good_writes,
        }
    }

    pub(crate) fn written(&self) -> &[u8] {
        let all = self.bytes.get_ref();
        let count = (self.bytes.position() as usize).min(all.len());
        &all[..count]
    }
}

impl Write for Kept {
    fn write(&mut self, buf: &[u8]) -> io::Result<usize> {
        if self.good_writes == 0 {
            return Err(io::Error::from(io::ErrorKind::Other));
        }
        self.good_writes -= 1;
        let most = self.piece.min(buf.len());
        self.bytes.write(&buf[..most])
    }

    fn flush(&mut self) -> io::Result<()> {
        Ok(())
    }
}

// What a run prints to: a buffer over the writer, as the program has one, or the writer itself.
#[derive(Clone, Copy)]
pub(crate) enum Over {
    Buffer,
    Writer,
}

pub(crate) const BOTH: [Over; 2] = [Over::Buffer, Over::Writer];

pub(crate) fn run_over<R: Read, W: Write, A: Allocator + Copy>(
    over: Over,
    alloc: A,
    reader: &mut R,
    writer: &mut W,
) -> Ended {
    match over {
        Over::Buffer => run(alloc, reader, writer),
        Over::Writer => run_lines(alloc, reader, writer),
    }
}

// A run as the program makes it, over a buffer.
pub(crate) fn run<R: Read, W: Write, A: Allocator + Copy>(
    alloc: A,
    reader: &mut R,
    writer: &mut W,
) -> Ended {
    let Ok(mut out) = BufWriter::new(alloc, &mut *writer) else {
        return end_without_memory(writer);
    };
    let outcome = run_buffered(alloc, reader, &mut out);
    // Not dropped: a drop would write again what could not be written.
    let _ = out.into_parts();
    outcome
}

// What a run reads, what it prints, and how it ends.
pub(crate) type Text = (&'static str, &'static str, Ended);

// A run ended so, and this is what it wrote.
pub(crate) fn ended_so(
    rt: &impl Abort,
    ended: Ended,
    written: &[u8],
    (output, outcome): (&str, Ended),
) {
    assert_eq!(rt; ended, outcome, "{output}");
    assert_eq!(rt; written, output.as_bytes(), "{output}");
}

// What this reader gives prints this and ends so.
pub(crate) fn prints<R: Read>(
    rt: &impl Abort,
    alloc: Global,
    (over, reader): (Over, &mut R),
    output: &str,
    outcome: Ended,
) {
    let mut written = Vec::new(alloc);
    let ended = run_over(over, alloc, reader, &mut written);
    ended_so(rt, ended, written.as_slice(), (output, outcome));
}

fn in_pieces(bytes: &[u8], piece: usize) -> Pieces<'_> {
    Pieces {
        bytes,
        piece,
        good_reads: u64::MAX,
    }
}

// The input, whole and in pieces, prints this and ends so.
pub(crate) fn says(rt: &impl Abort, alloc: Global, input: &[u8], output: &str, outcome: Ended) {
    for piece in [usize::MAX, 1, 2, 3, 7] {
        for over in BOTH {
            let mut reader = in_pieces(input, piece);
            prints(rt, alloc, (over, &mut reader), output, outcome);
        }
    }
}

pub(crate) fn all_say(rt: &impl Abort, alloc: Global, texts: &[Text]) {
    for (input, output, outcome) in texts {
        says(rt, alloc, input.as_bytes(), output, *outcome);
    }
}
