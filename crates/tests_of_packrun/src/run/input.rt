//! How the input comes: lines of the greatest length, reads that are interrupted, and more than a
//! million bytes.

use crate::support::{BOTH, Ended, prints, says};
use packrun_lines::stop::Stop;
use std::alloc::{AllocError, Global};
use std::io;
use std::io::Read;
use std::process::Abort;

const PACKED: &str = "packed 0\npacked 0\n";

fn push_spaces(line: &mut Vec<u8>, count: usize) -> Result<(), AllocError> {
    for _ in 0..count {
        line.push(b' ')?;
    }
    Ok(())
}

// A `pack` among spaces, `before` before it and `behind` behind it, and then `last`.
fn padded(alloc: Global, before: usize, behind: usize, last: &[u8]) -> Result<Vec<u8>, AllocError> {
    let mut line = Vec::new(alloc);
    push_spaces(&mut line, before)?;
    line.extend_from_slice(b"pack")?;
    push_spaces(&mut line, behind)?;
    line.extend_from_slice(last)?;
    Ok(line)
}

// Such an input, whole and in pieces, prints this and ends so.
fn padded_says(
    rt: &impl Abort,
    alloc: Global,
    (before, behind, last): (usize, usize, &[u8]),
    output: &str,
    outcome: Ended,
) {
    let input = padded(alloc, before, behind, last).expect(rt, "no memory for the line");
    says(rt, alloc, input.as_slice(), output, outcome);
}

// A line of 4096 bytes: with its line feed and another line behind it, and at the end of the input.
#[test]
fn longest_lines(rt: HostRuntime) {
    for (before, behind) in [(0, 4092), (4092, 0), (2000, 2092)] {
        let lines = (before, behind, &b"\npack\n"[..]);
        padded_says(&rt, rt.alloc(), lines, PACKED, Ok(()));
        let last = (before, behind, &b""[..]);
        padded_says(&rt, rt.alloc(), last, "packed 0\n", Ok(()));
    }
}

// A line of 4097 bytes is bad.
#[test]
fn longer_lines(rt: HostRuntime) {
    for (before, behind) in [(0, 4093), (4093, 0), (2000, 2093)] {
        for last in [&b"\npack\n"[..], &b"\n"[..], &b""[..]] {
            let lines = (before, behind, last);
            padded_says(
                &rt,
                rt.alloc(),
                lines,
                "line 1 is bad\n",
                Err(Stop::BadLine(1)),
            );
        }
    }
}

// Gives its bytes one by one. Each read is interrupted once before it is good.
#[derive(Drop)]
struct Interrupted<'a> {
    bytes: &'a [u8],
    again: bool,
}

impl Read for Interrupted<'_> {
    fn read(&mut self, buf: &mut [u8]) -> io::Result<usize> {
        self.again = !self.again;
        if self.again {
            return Err(io::Error::from(io::ErrorKind::Interrupted));
        }
        let most = buf.len().min(1);
        self.bytes.read(&mut buf[..most])
    }
}

// An interrupted read is tried again, at the start of a line, within it, and at the end of the
// input.
#[test]
fn interrupted_reads(rt: HostRuntime) {
    for over in BOTH {
        let mut reader = Interrupted {
            bytes: b"bin a 4 4 1\nrect one 4 4 1\n\npack\npack",
            again: false,
        };
        let printed = "ok\nok\n0 one a 0 0 0 4 4 1\npacked 1\npacked 0\n";
        prints(&rt, rt.alloc(), (over, &mut reader), printed, Ok(()));
    }
}

// Gives a line `times` times, at each read once.
#[derive(Drop)]
struct Again<'a> {
    line: &'a [u8],
    times: u64,
}

impl Read for Again<'_> {
    fn read(&mut self, buf: &mut [u8]) -> io::Result<usize> {
        if self.times == 0 {
            return Ok(0);
        }
        self.times -= 1;
        let mut line = self.line;
        line.read(buf)
    }
}

// More than a million bytes: 245 lines of 4097, their line feeds counted, and then a bad line.
#[test]
fn million_bytes(rt: HostRuntime) {
    let mut line = Vec::new(rt.alloc());
    push_spaces(&mut line, 4096).expect(&rt, "no memory for the line");
    line.push(b'\n').expect(&rt, "no memory for the line");
    for over in BOTH {
        let blank = Again {
            line: line.as_slice(),
            times: 245,
        };
        let mut reader = blank.chain(&b"bin"[..]);
        let (printed, outcome) = ("line 246 is bad\n", Err(Stop::BadLine(246)));
        prints(&rt, rt.alloc(), (over, &mut reader), printed, outcome);
    }
}
