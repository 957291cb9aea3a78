//! How lines are read.

use crate::support::{Text, all_say, says};
use packrun_lines::stop::Stop;

const GOOD: [Text; 9] = [
    ("", "", Ok(())),
    ("\n \t\r\n", "", Ok(())),
    ("pack", "packed 0\n", Ok(())),
    (
        "\t bin\ra 007 2 1 \r\nrect\tb 7 02 1\r\n\rpack\t",
        "ok\nok\n0 b a 0 0 0 7 2 1\npacked 1\n",
        Ok(()),
    ),
    (
        "bin !\"~ 1 1 1\nbin !\"~ 2 2 2\nbin pack 1 1 1\nbin PACK 0 0 0\n",
        "ok\nrefused: bin !\"~ exists\nok\nok\n",
        Ok(()),
    ),
    (
        "bin a 4294967295 1 1\nrect bin 04294967295 1 1\npack\n",
        "ok\nok\n0 bin a 0 0 0 4294967295 1 1\npacked 1\n",
        Ok(()),
    ),
    (
        "bin z 0 5 1\nrect e 0 5 1\npack\nrelease 0\nsections z\nrect e 0 5 1\npack\n",
        "ok\nok\n0 e z 0 0 0 0 5 1\npacked 1\nok\nsections 0\nok\n\
         refused: Not enough space to place all of the rectangles.\n",
        Ok(()),
    ),
    (
        "release 18446744073709551615\nrelease 018446744073709551615\nrelease 000\n\
         sections a\ncoalesce a 18446744073709551615 00 018446744073709551615\n",
        "refused: placement 18446744073709551615 is unknown\n\
         refused: placement 18446744073709551615 is unknown\n\
         refused: placement 0 is unknown\nrefused: bin a is unknown\n\
         refused: bin a is unknown\n",
        Ok(()),
    ),
    // Lines without words are counted.
    (
        "bin a 007 2 1\n\nbin b 1 1\nbin c 1 1 1\n",
        "ok\nline 3 is bad\n",
        Err(Stop::BadLine(3)),
    ),
];

#[test]
fn good_lines(rt: HostRuntime) {
    all_say(&rt, rt.alloc(), &GOOD);
}

const BAD: [&str; 47] = [
    "bin",
    "bin a",
    "bin a 1 1",
    "bin a 1 1 1 1",
    "bin a 4294967296 1 1",
    "bin a 1 4294967296 1",
    "bin a 1 1 4294967296",
    "bin a 18446744073709551616 1 1",
    "bin a -1 1 1",
    "bin a +1 1 1",
    "bin a 1x 1 1",
    "bin a 1_0 1 1",
    "bin a 0x1 1 1",
    "rect",
    "rect a 1 1",
    "rect a 1 1 g",
    "rect a -1 1 1 g",
    "exclude",
    "exclude A",
    "exclude A A",
    "exclude A B C",
    "release",
    "release a",
    "release -0",
    "release +0",
    "release 18446744073709551616",
    "release 0 0",
    "sections",
    "sections a a",
    "coalesce",
    "coalesce a 0 0",
    "coalesce a 0 0 1 1",
    "coalesce a -1 0 1",
    "coalesce a 0 0 18446744073709551616",
    "sweep",
    "sweep a a",
    "stats",
    "stats a a",
    "Pack",
    "pack 1",
    "packs",
    "unpack a",
    "bin a\u{7f} 1 1 1",
    "bin \u{e9} 1 1 1",
    "bin\0 a 1 1 1",
    "\u{b}",
    "\u{c}",
];

#[test]
fn bad_lines(rt: HostRuntime) {
    let (alloc, printed, outcome) = (rt.alloc(), "line 1 is bad\n", Err(Stop::BadLine(1)));
    for line in &BAD {
        says(&rt, alloc, line.as_bytes(), printed, outcome);
    }
    says(&rt, alloc, b"bin \xff 1 1 1", printed, outcome);
}
