//! Bytes of the lines that a run prints, and numbers put together before they are written.
ghost use Rattle.std.specs.Prelude.{◌≡◌, ◌+◌, ◌<◌, ◌≤◌, ◌∷◌, ◌++◌, length, take, drop, IfOk, IfErr};
ghost use Rattle.std.specs.Fmt.{decimal};
ghost use Rattle.std.specs.Io.KnownBytes.{Appends, Keeps};
ghost use Rattle.packrun_lines.specs.Numbers.{three_text};
ghost use Rattle.packrun_lines.specs.private.Printing.{Prints, bytes_of_parts};

use crate::stop::Stop;
use std::io::{ErrorKind, Write};
use std::marker::Model;

// The most digits of a number of 128 bits.
const LONGEST_NUMBER: usize = 39;

// The most bytes of a number of 32 bits and what stands behind it.
const LONGEST_SIDE: usize = 11;

/// The most bytes of three numbers of 32 bits and what stands behind each.
pub const LONGEST_THREE: usize = 3 * LONGEST_SIDE;

/// The decimal digits of a number.
#[derive(Drop)]
pub struct Digits {
    bytes: [u8; LONGEST_NUMBER],
    start: usize,
}

impl Model for Digits {
    ghost use Rattle.std.specs.Prelude.{ℕ, List, ◌≤◌, drop, length};

    ghost Value = { List ℕ };

    ghost view = { λ d. drop d.start d.bytes };

    ghost invariant = { λ d. d.start ≤ length d.bytes };
}

impl Digits {
    /// The digits of this number.
    pub fn new(number: u128) -> Digits
        ensures { result ≡ decimal number }
    {
        let mut bytes = [0; LONGEST_NUMBER];
        let start = put_number(number, &mut bytes, LONGEST_NUMBER);
        Digits { bytes, start }
    }

    /// The digits as bytes.
    pub fn as_bytes(&self) -> &[u8]
        ensures { result.now ≡ self.now }
    {
        &self.bytes[self.start..]
    }
}

// Puts the number before `end`. Where it begins.
fn put_number(number: u128, line: &mut [u8], end: usize) -> usize
    requires room { LONGEST_NUMBER ≤ end }
    requires within { end ≤ length line.old }
    ensures start { result ≤ end }
    ensures written { drop result line.new ≡ decimal number ++ drop end line.old }
{
    let mut rest = number;
    let mut at = end;
    while rest > u64::MAX as u128 {
        at -= 1;
        line[at] = b'0' + (rest % 10) as u8;
        rest /= 10;
    }
    write_digits(rest as u64, line, at)
}

/// Puts three numbers before `end`, a space behind each but the last, and behind that this byte.
/// Where they begin.
pub fn put_three(x: u32, y: u32, z: u32, behind: u8, line: &mut [u8], end: usize) -> usize
    requires room { LONGEST_THREE ≤ end }
    requires within { end ≤ length line.old }
    ensures start { end ≤ result + LONGEST_THREE }
    ensures below { result < end }
    ensures written { drop result line.new ≡ three_text x y z behind ++ drop end line.old }
{
    let last = put_side(z, behind, line, end);
    let second = put_side(y, b' ', line, last);
    put_side(x, b' ', line, second)
}

fn put_side(side: u32, behind: u8, line: &mut [u8], end: usize) -> usize
    requires room { LONGEST_SIDE ≤ end }
    requires within { end ≤ length line.old }
    ensures start { end ≤ result + LONGEST_SIDE }
    ensures below { result < end }
    ensures written { drop result line.new ≡ decimal side ++ behind ∷ drop end line.old }
{
    line[end - 1] = behind;
    write_digits(side as u64, line, end - 1)
}

// Writes the digits of the number, the last one before `end`. Where they begin.
fn write_digits(number: u64, line: &mut [u8], end: usize) -> usize
    requires room { length (decimal number) ≤ end }
    requires within { end ≤ length line.old }
    ensures start { result + length (decimal number) ≡ end }
    ensures written { drop result line.new ≡ decimal number ++ drop end line.old }
{
    let mut rest = number;
    let mut at = end;
    while rest >= 10 {
        at -= 1;
        line[at] = b'0' + (rest % 10) as u8;
        rest /= 10;
    }
    line[at - 1] = b'0' + rest as u8;
    at - 1
}

/// Prints the parts, one behind the other. An error is `IoFailed`: a write failed, and a beginning
/// of this may be printed.
pub fn print_parts<W: Write>(parts: &[&[u8]], out: &mut W) -> Result<(), Stop>
    // The parts are printed, one behind the other; or, where a write failed, a beginning of them.
    //   [print_parts.long_part_is_cut]
    ensures { Prints (W.contents out.old) (W.contents out.new) result (bytes_of_parts parts.now) }
{
    for part in parts {
        print_bytes(part, out)?;
    }
    Ok(())
}

/// Prints the bytes. An error is `IoFailed`: a write failed, and a beginning of them may be
/// printed.
pub fn print_bytes<W: Write>(bytes: &[u8], out: &mut W) -> Result<(), Stop>
    // The bytes are printed, or, where a write failed, a beginning of them.
    //   [print_some.interrupted_write_counts]
    ensures { Prints (W.contents out.old) (W.contents out.new) result bytes.now }
{
    let mut rest = bytes;
    // Counted, since writes could be interrupted for ever, and each loop has to end.
    for _ in 0..u64::MAX {
        if rest.is_empty() {
            return Ok(());
        }
        let count = print_some(rest, out)?;
        rest = &rest[count..];
    }
    Err(Stop::IoFailed)
}

// Prints some of the bytes by one write. How many, none where a signal interrupts the write.
fn print_some<W: Write>(bytes: &[u8], out: &mut W) -> Result<usize, Stop>
    ensures within { IfOk result (λ count. count ≤ length bytes.now) }
    ensures printed { IfOk result
        (λ count. Appends (W.contents out.old) (W.contents out.new) (take count bytes.now)) }
    ensures failed { IfErr result
        (λ stop. (stop ≡ Stop.IoFailed) × Keeps (W.contents out.old) (W.contents out.new)) }
{
    match out.write(bytes) {
        Ok(0) => Err(Stop::IoFailed),
        Ok(count) => Ok(count),
        Err(error) if error.kind() == ErrorKind::Interrupted => Ok(0),
        Err(_) => Err(Stop::IoFailed),
    }
}
