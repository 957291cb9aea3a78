//! Reads, writes and requests for memory of which each fails in turn.

use crate::support::{BOTH, Ended, Kept, Over, Pieces, Text, ended_so, run_over};
use packrun_lines::stop::Stop;
use std::alloc::Global;
use std::process::Abort;
use tests_support::refusing::Refusing;

const LINES: &str =
    "bin a 100 100 1\nrect one 60 95 1\nrect two 40 10 1\nrect three 1 1 1\npack\nbin a 9 9 1\n\
     rect three 1 1";

const PRINTED: &str =
    "ok\nok\nok\nok\n0 one a 0 0 0 60 95 1\n1 two a 60 0 0 40 10 1\n2 three a 60 10 0 1 1 1\n\
     packed 3\nrefused: bin a exists\nline 7 is bad\n";

// Two boxes given back and joined.
const JOINED: &str =
    "bin a 10 10 1\nrect p 4 10 1\npack\nrect q 6 10 1\npack\nrelease 0\nrelease 1\n\
     sections a\ncoalesce a 1 0 2\nsections a\nrelease 0\n";

const JOINED_PRINTED: &str =
    "ok\nok\n0 p a 0 0 0 4 10 1\npacked 1\nok\n1 q a 4 0 0 6 10 1\npacked 1\nok\nok\n\
     0 0 0 4 10 1\n4 0 0 6 10 1\nsections 2\nok\n0 0 0 10 10 1\nsections 1\n\
     refused: placement 0 is unknown\n";

const GROUPED: &str =
    "bin A 2048 2048 255\nbin B 4096 4096 1020\nrect one 10 20 255 g\nrect two 5 50 255 g\n\
     rect three 30 30 255\npack\nrelease 1\nsections A\nrelease 1\nsections C\nstats A\nstats C\n";

const GROUPED_PRINTED: &str =
    "ok\nok\nok\nok\nok\n0 three A 0 0 0 30 30 255\n1 one A 30 0 0 10 20 255\n\
     2 two A 0 30 0 5 50 255\npacked 3\nok\n40 0 0 2008 30 255\n30 20 0 10 10 255\n\
     5 30 0 2043 2018 255\n0 80 0 5 1968 255\n30 0 0 10 20 255\nsections 5\n\
     refused: placement 1 is unknown\nrefused: bin C is unknown\n\
     free 1069254270 in 5, placed 293250 in 2, bin 1069547520\nrefused: bin C is unknown\n";

// Names that take memory.
const LONG: &str =
    "bin the-atlas-of-the-game 9 4 1\nrect a-tree-with-many-leaves 4 4 1 all-that-grows-there\n\
     exclude all-that-grows-there all-that-stands-there\npack\nsections the-atlas-of-the-game\n\
     sweep the-atlas-of-the-game\nstats the-atlas-of-the-game\nsections the-atlas-of-a-book\n";

const LONG_PRINTED: &str =
    "ok\nok\nok\n0 a-tree-with-many-leaves the-atlas-of-the-game 0 0 0 4 4 1\npacked 1\n\
     4 0 0 5 4 1\nsections 1\nok\nfree 20 in 1, placed 16 in 1, bin 36\n\
     refused: bin the-atlas-of-a-book is unknown\n";

// What a run over memory is given: what it prints to, how many requests for memory are granted, and
// the most bytes and the good ones of reads, and of writes.
#[derive(Clone, Copy)]
struct Given {
    over: Over,
    granted: u64,
    reads: (usize, u64),
    writes: (usize, u64),
}

// Nothing fails, and each read and each write takes all that there is.
const ALL: Given = Given {
    over: Over::Buffer,
    granted: u64::MAX,
    reads: (usize::MAX, u64::MAX),
    writes: (usize::MAX, u64::MAX),
};

// How these lines end, and what they print. All memory is given back, and a run that goes on to its
// end was refused none.
fn run_with(rt: &impl Abort, alloc: Global, lines: &str, given: Given) -> (Ended, Kept) {
    let refusing = Refusing::new(alloc, given.granted).expect(rt, "no memory for the counts");
    let (piece, good_reads) = given.reads;
    let mut reader = Pieces {
        bytes: lines.as_bytes(),
        piece,
        good_reads,
    };
    let (piece, good_writes) = given.writes;
    let mut writer = Kept::new(piece, good_writes);
    let outcome = run_over(given.over, refusing, &mut reader, &mut writer);
    gave_back(rt, refusing, outcome);
    (outcome, writer)
}

fn gave_back(rt: &impl Abort, refusing: Refusing, outcome: Ended) {
    assert_eq!(rt; refusing.taken(), 0);
    assert!(rt; is_said(outcome, refusing.refused()));
}

// Whether a run may end so where `refused` requests were refused.
fn is_said(outcome: Ended, refused: u64) -> bool {
    match outcome {
        Err(Stop::NoMemory) => refused > 0,
        // The last line was not printed, or nothing was refused.
        Err(Stop::IoFailed) => true,
        _ => refused == 0,
    }
}

// These lines fail so, once they have printed `count` bytes of the whole.
fn fails_after(rt: &impl Abort, alloc: Global, given: Given, count: usize) {
    let (outcome, kept) = run_with(rt, alloc, LINES, given);
    ended_so(
        rt,
        outcome,
        kept.written(),
        (start(PRINTED, count), Err(Stop::IoFailed)),
    );
}

fn start(text: &str, count: usize) -> &str {
    text.get(..count).unwrap_or("")
}

fn comes_out(rt: &impl Abort, alloc: Global, given: Given) {
    let (outcome, kept) = run_with(rt, alloc, LINES, given);
    ended_so(
        rt,
        outcome,
        kept.written(),
        (PRINTED, Err(Stop::BadLine(7))),
    );
}

// How many bytes are printed where each of the first lines is done: the first comes to its end at
// byte 16, and prints 3 bytes. The last line ends with the input.
const DONE: [(usize, usize); 6] = [(16, 3), (33, 6), (50, 9), (67, 12), (72, 90), (84, 112)];

// How many bytes are printed once `read` were read: all that the lines print that came to their
// end.
fn printed_after(read: usize) -> usize {
    let mut printed = 0usize;
    for (end, count) in &DONE {
        if *end <= read {
            printed = *count;
        }
    }
    printed
}

// Each of the `needed` reads fails in turn; the last of them finds the end.
fn fails_at_each_read(rt: &impl Abort, alloc: Global, over: Over, (piece, needed): (usize, u64)) {
    let given = Given { over, ..ALL };
    for good in 0..needed {
        let reads = (piece, good);
        let count = printed_after(piece.saturating_mul(good as usize));
        fails_after(rt, alloc, Given { reads, ..given }, count);
    }
    let reads = (piece, needed);
    comes_out(rt, alloc, Given { reads, ..given });
}

// The most bytes of a read, and how many reads the lines need, which have 98 bytes.
const READS: [(usize, u64); 4] = [(1, 99), (7, 15), (97, 3), (98, 2)];

#[test]
fn failing_reads(rt: HostRuntime) {
    for over in BOTH {
        for reads in &READS {
            fails_at_each_read(&rt, rt.alloc(), over, *reads);
        }
    }
}

// The most bytes of a read and of a write, how many writes are needed, and where each write would
// end if it took all that there is.
struct Writes {
    read: usize,
    write: usize,
    needed: u64,
    ends: &'static [usize],
}

// How many bytes are printed after `good` good writes.
fn written_by(writes: &Writes, good: u64) -> usize {
    let mut left = good as usize;
    let mut written = 0usize;
    for end in writes.ends {
        let needed = end.saturating_sub(written).div_ceil(writes.write.max(1));
        if left < needed {
            return written.saturating_add(left.saturating_mul(writes.write));
        }
        left = left.saturating_sub(needed);
        written = *end;
    }
    written
}

// Each of the writes that are needed fails in turn, that of the last line too.
fn fails_at_each_write(rt: &impl Abort, alloc: Global, row: &Writes) {
    let given = Given {
        reads: (row.read, u64::MAX),
        ..ALL
    };
    for good in 0..row.needed {
        let writes = (row.write, good);
        fails_after(rt, alloc, Given { writes, ..given }, written_by(row, good));
    }
    let writes = (row.write, row.needed);
    comes_out(rt, alloc, Given { writes, ..given });
}

// What is printed has 126 bytes, the last line 14 of them. A read of 7 bytes or of one ends at most
// one line, and what each line prints is written before the next read. Read at once, all but the
// last line is written first.
const AT_ONCE: &[usize] = &[112, 126];

const BY_LINES: &[usize] = &[3, 6, 9, 12, 90, 112, 126];

macro_rules! writes {
    (read $read:literal, write $write:literal => $needed:literal $ends:ident) => {
        Writes {
            read: $read,
            write: $write,
            needed: $needed,
            ends: $ends,
        }
    };
}

const WRITES: [Writes; 7] = [
    writes!(read 98, write 512 => 2 AT_ONCE),
    writes!(read 98, write 100 => 3 AT_ONCE),
    writes!(read 98, write 1 => 126 AT_ONCE),
    writes!(read 7, write 512 => 7 BY_LINES),
    writes!(read 7, write 1 => 126 BY_LINES),
    writes!(read 1, write 512 => 7 BY_LINES),
    writes!(read 1, write 1 => 126 BY_LINES),
];

#[test]
fn failing_writes(rt: HostRuntime) {
    for row in &WRITES {
        fails_at_each_write(&rt, rt.alloc(), row);
    }
}

// Without a buffer each byte that is printed is written in turn, whatever is read at once.
fn fails_at_each_byte(rt: &impl Abort, alloc: Global, read: usize) {
    let given = Given {
        over: Over::Writer,
        reads: (read, u64::MAX),
        ..ALL
    };
    for good in 0..PRINTED.len() as u64 {
        let writes = (1, good);
        fails_after(rt, alloc, Given { writes, ..given }, good as usize);
    }
    let writes = (1, PRINTED.len() as u64);
    comes_out(rt, alloc, Given { writes, ..given });
}

#[test]
fn failing_bytes(rt: HostRuntime) {
    for read in [98, 7, 1] {
        fails_at_each_byte(&rt, rt.alloc(), read);
    }
}

fn is_start(written: &[u8], whole: &[u8], length: u64) -> bool {
    written.len() as u64 == length && whole.starts_with(written)
}

// As many bytes as can be written are written.
fn is_cut_after(rt: &impl Abort, alloc: Global, lines: &str, given: Given, whole: &[u8]) {
    let (outcome, kept) = run_with(rt, alloc, lines, given);
    assert_eq!(rt; outcome, Err(Stop::IoFailed));
    assert!(rt; is_start(kept.written(), whole, given.writes.1));
}

// What is printed is cut off after each number of bytes that can be written.
fn is_cut_off(rt: &impl Abort, alloc: Global, lines: &str, given: Given, whole: &[u8]) {
    for good in 0..whole.len() as u64 {
        let writes = (1, good);
        is_cut_after(rt, alloc, lines, Given { writes, ..given }, whole);
    }
}

// What was printed before the line that says that memory was refused is a start of the whole.
fn ends_refused(written: &[u8], whole: &str) -> bool {
    match written.strip_suffix(b"Out of memory.\n") {
        Some(before) => whole.as_bytes().starts_with(before),
        None => false,
    }
}

// Whether these lines come to their end with what is given, and print all. Where a request is
// refused, what was printed before stands, and the last line says so; where that cannot be printed
// either, that is how the run ends.
fn has_memory(rt: &impl Abort, alloc: Global, (lines, whole, last): Text, given: Given) -> bool {
    let (outcome, kept) = run_with(rt, alloc, lines, given);
    if outcome != Err(Stop::NoMemory) {
        ended_so(rt, outcome, kept.written(), (whole, last));
        return true;
    }
    assert!(rt; ends_refused(kept.written(), whole));
    is_cut_off(rt, alloc, lines, given, kept.written());
    false
}

// Each request is refused in turn, more than ten of them, until all are granted.
fn refuses_each(rt: &impl Abort, alloc: Global, over: Over, text: Text) {
    for granted in 0..200u64 {
        let given = Given {
            over,
            granted,
            ..ALL
        };
        if has_memory(rt, alloc, text, given) {
            assert!(rt; granted > 10);
            return;
        }
    }
    assert!(rt; false);
}

const TEXTS: [Text; 4] = [
    (LINES, PRINTED, Err(Stop::BadLine(7))),
    (JOINED, JOINED_PRINTED, Ok(())),
    (GROUPED, GROUPED_PRINTED, Ok(())),
    (LONG, LONG_PRINTED, Ok(())),
];

#[test]
fn refused_memory(rt: HostRuntime) {
    for over in BOTH {
        for text in &TEXTS {
            refuses_each(&rt, rt.alloc(), over, *text);
        }
    }
}

// Where the last line of a bad one cannot be printed, that is how the run ends.
#[test]
fn failing_last_line(rt: HostRuntime) {
    for over in BOTH {
        let given = Given { over, ..ALL };
        let (outcome, kept) = run_with(&rt, rt.alloc(), "bin", given);
        ended_so(
            &rt,
            outcome,
            kept.written(),
            ("line 1 is bad\n", Err(Stop::BadLine(1))),
        );
        is_cut_off(&rt, rt.alloc(), "bin", given, kept.written());
    }
}
