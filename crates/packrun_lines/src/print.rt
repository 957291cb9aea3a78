//! What a run prints.
ghost use Rattle.std.specs.Prelude.{◌++◌, codes};
ghost use Rattle.std.specs.Fmt.{decimal};
ghost use Rattle.packrun_lines.specs.Lines.{cuboid_text, placement_text, packed_text, sections_text, sums_text, refusal_text, reply_text};
ghost use Rattle.packrun_lines.specs.private.Printing.{Prints, PrintsAnswer};

use crate::bytes::{Digits, LONGEST_THREE, print_bytes, print_parts, put_three};
use crate::stop::Stop;
use crate::word::Word;
use rectangle_pack::{BinSection, BinStats, Outstanding, SessionError};
use rectangle_pack_sections::packed_location::section_at;
use std::alloc::Allocator;
use std::io::Write;

// Prints the placements that a packing made, a line each, and how many they are.
pub fn print_packed<A: Allocator, W: Write>(
    placements: &[Outstanding<Word<A>, Word<A>>],
    out: &mut W,
) -> Result<(), Stop>
    // What a packing made is printed as a line for each placement, in their order, and how many
    //   they are. [print_packed.last_is_not_counted]
    ensures { Prints (W.contents out.old) (W.contents out.new) result
        (packed_text placements.now) }
{
    for placement in placements {
        print_placement(placement, out)?;
    }
    print_count(b"packed ", placements.len(), out)
}

// Prints the text and the count, to the end of the line.
fn print_count<W: Write>(text: &[u8], count: usize, out: &mut W) -> Result<(), Stop>
    ensures { Prints (W.contents out.old) (W.contents out.new) result
        (text.now ++ decimal count ++ codes "\n") }
{
    let digits = Digits::new(count as u128);
    print_parts(&[text, digits.as_bytes(), b"\n"], out)
}

// Prints number, names and box of the placement.
fn print_placement<A: Allocator, W: Write>(
    placement: &Outstanding<Word<A>, Word<A>>,
    out: &mut W,
) -> Result<(), Stop>
    // The line of a placement is its number, its id, its bin, and its corner and sides, in decimal,
    //   a space between two. [print_placement.bin_stands_for_the_box]
    ensures { Prints (W.contents out.old) (W.contents out.new) result
        (placement_text placement.now) }
{
    let Outstanding {
        number,
        id,
        bin,
        location,
    } = placement;
    let number = Digits::new(u128::from(*number));
    let (number, id, bin) = (number.as_bytes(), id.as_bytes(), bin.as_bytes());
    print_parts(&[number, b" ", id, b" ", bin, b" "], out)?;
    print_section(&section_at(location), out)
}

// Prints the free sections, a line each, and how many there are.
pub fn print_list<W: Write>(sections: &[BinSection], out: &mut W) -> Result<(), Stop>
    // Free sections are printed as a line for each, in the order of the bin's list, and how many
    //   there are.
    ensures { Prints (W.contents out.old) (W.contents out.new) result (sections_text sections.now) }
{
    for section in sections {
        print_section(section, out)?;
    }
    print_count(b"sections ", sections.len(), out)
}

fn print_section<W: Write>(section: &BinSection, out: &mut W) -> Result<(), Stop>
    // The line of a free section is its corner and its sides.
    ensures { Prints (W.contents out.old) (W.contents out.new) result (cuboid_text section.now) }
{
    let (x, y, z, whd) = (section.x(), section.y(), section.z(), section.whd());
    let (width, height, depth) = (whd.width(), whd.height(), whd.depth());
    let mut line = [0; 2 * LONGEST_THREE];
    let middle = put_three(width, height, depth, b'\n', &mut line, 2 * LONGEST_THREE);
    let start = put_three(x, y, z, b' ', &mut line, middle);
    print_bytes(&line[start..], out)
}

// Prints what is free and what is placed in a bin.
pub fn print_sums<W: Write>(stats: BinStats, out: &mut W) -> Result<(), Stop>
    // The sums of a bin are printed in one line: free volume and sections, placed volume and
    //   placements, volume of the bin. [print_sums.free_and_placed_are_swapped]
    ensures { Prints (W.contents out.old) (W.contents out.new) result (sums_text stats) }
{
    let bin = Digits::new(stats.bin_volume);
    let free = Digits::new(stats.free_volume);
    let placed = Digits::new(stats.placed_volume);
    let sections = Digits::new(stats.free_sections as u128);
    let placements = Digits::new(stats.placements as u128);
    let parts = [
        b"free ",
        free.as_bytes(),
        b" in ",
        sections.as_bytes(),
        b", placed ",
        placed.as_bytes(),
        b" in ",
        placements.as_bytes(),
        b", bin ",
        bin.as_bytes(),
        b"\n",
    ];
    print_parts(&parts, out)
}

// Prints `ok`, or why the session refused.
pub fn report<W: Write>(
    answer: Result<(), SessionError>,
    named: &[u8],
    out: &mut W,
) -> Result<(), Stop>
    // `ok` is printed where a line is done. [report.done_prints_nothing]
    // Where a line was refused, what is printed and answered is as `refuse` says.
    ensures { PrintsAnswer (W.contents out.old) (W.contents out.new) result
        (reply_text answer named.now) }
{
    match answer {
        Ok(()) => print_bytes(b"ok\n", out),
        Err(error) => refuse(error, named, out),
    }
}

// Prints why the session refused; `named` is the bin, or the digits of the number, of which the
// line speaks. Refused memory ends the run.
pub fn refuse<W: Write>(error: SessionError, named: &[u8], out: &mut W) -> Result<(), Stop>
    // Why a line was refused is printed. [refuse.unknown_bin_exists]
    // Where memory was refused nothing is printed, and the answer says so; each other error of a
    //   print is that a write failed. [refuse.no_memory_is_a_failed_write]
    ensures { PrintsAnswer (W.contents out.old) (W.contents out.new) result
        (refusal_text error named.now) }
{
    match error {
        SessionError::DuplicateBin => { print_parts(&[b"refused: bin ", named, b" exists\n"], out) }
        SessionError::UnknownBin => {
            print_parts(&[b"refused: bin ", named, b" is unknown\n"], out)
        }
        SessionError::UnknownPlacement => {
            print_parts(&[b"refused: placement ", named, b" is unknown\n"], out)
        }
        SessionError::NumbersUsedUp => print_bytes(b"refused: numbers are used up\n", out),
        SessionError::NotEnoughBinSpace => {
            let text = b"refused: Not enough space to place all of the rectangles.\n";
            print_bytes(text, out)
        }
        SessionError::BinInUse => print_bytes(b"refused: the bin is in use\n", out),
        SessionError::TooLarge => print_bytes(b"refused: the bin would be too large\n", out),
        SessionError::NotFree => print_bytes(
            b"refused: no free section holds the box there\n",
            out,
        ),
        SessionError::NotFromCuts => print_bytes(
            b"refused: no straight cuts part the boxes in the bin\n",
            out,
        ),
        SessionError::OutOfMemory => Err(Stop::NoMemory),
    }
}
