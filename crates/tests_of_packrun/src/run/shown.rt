//! What is shown while the input comes: each answer before the read that waits for the next line,
//! and the last line when the run ends.

use crate::support::{BOTH, Ended, Over, run_over};
use packrun_lines::stop::Stop;
use std::alloc::{AllocError, Global};
use std::cell::Cell;
use std::io;
use std::io::{Read, Write};
use std::process::Abort;

// How many bytes were written to a screen, and how many of them it shows.
#[derive(Clone, Copy)]
struct Counts {
    written: usize,
    shown: usize,
}

// They stay on the heap to the end of the program.
fn no_counts(alloc: Global) -> Result<&'static Cell<Counts>, AllocError> {
    let counts = Counts {
        written: 0,
        shown: 0,
    };
    Ok(Box::leak(Box::new(alloc, Cell::new(counts))?))
}

// A screen that shows what was written once it is flushed.
#[derive(Drop)]
struct Screen {
    counts: &'static Cell<Counts>,
}

impl Write for Screen {
    fn write(&mut self, buf: &[u8]) -> io::Result<usize> {
        let counts = self.counts.get();
        self.counts.set(Counts {
            written: counts.written.saturating_add(buf.len()),
            ..counts
        });
        Ok(buf.len())
    }

    fn flush(&mut self) -> io::Result<()> {
        let Counts { written, .. } = self.counts.get();
        self.counts.set(Counts {
            written,
            shown: written,
        });
        Ok(())
    }
}

// What a user types at once, and how many bytes the screen shows by then.
type Typed = (&'static str, usize);

// Types one text after another, and ends the input behind the last. Where the screen does not show
// just what the user waits for, the read fails.
#[derive(Drop)]
struct User {
    typed: &'static [Typed],
    all: usize,
    counts: &'static Cell<Counts>,
}

impl Read for User {
    fn read(&mut self, buf: &mut [u8]) -> io::Result<usize> {
        let (text, awaited) = self.typed.first().copied().unwrap_or(("", self.all));
        if self.counts.get().shown != awaited || text.len() > buf.len() {
            return Err(io::Error::from(io::ErrorKind::Other));
        }
        self.typed = self.typed.get(1..).unwrap_or(&[]);
        text.as_bytes().read(buf)
    }
}

// Each answer is `ok` and a line feed, 3 bytes, but for that of `pack`, 9 bytes. A line that is
// typed in two parts is answered once it has ended; lines that are typed at once are answered
// together. The end of the input ends the last line, and is found again behind its answer.
const TYPED: [Typed; 7] = [
    ("bin a 4 4 1\n", 0),
    ("bin b 4 ", 3),
    ("4 1\n", 3),
    ("pack\nbin c 1 1 1\nbin", 6),
    (" d 1 1 1\n\n", 18),
    ("pack", 21),
    ("", 21),
];

// Behind a bad line nothing is read.
const BAD: [Typed; 3] = [("pack\n", 0), ("bin\n", 9), ("pack\n", 9)];

// The user sees each answer in time, and all that was written once the run has ended.
fn shows(
    rt: &impl Abort,
    alloc: Global,
    over: Over,
    (typed, all): (&'static [Typed], usize),
    outcome: Ended,
) {
    let counts = no_counts(alloc).expect(rt, "no memory for the counts");
    let mut user = User { typed, all, counts };
    let mut screen = Screen { counts };
    let ended = run_over(over, alloc, &mut user, &mut screen);
    assert_eq!(rt; ended, outcome);
    assert_eq!(rt; counts.get().written, all);
    assert_eq!(rt; counts.get().shown, all);
}

// `TYPED` is answered by four times `ok` and twice `packed 0`, 30 bytes; `BAD` by `packed 0` and
// `line 2 is bad`, 23 bytes.
#[test]
fn answers(rt: HostRuntime) {
    for over in BOTH {
        shows(&rt, rt.alloc(), over, (&TYPED, 30), Ok(()));
        shows(&rt, rt.alloc(), over, (&BAD, 23), Err(Stop::BadLine(2)));
    }
}
