//! What packings print, and what is printed of what they leave.

mod exclusions;
mod stats;

use crate::support::{Text, all_say};
use packrun_lines::command::parse;
use packrun_lines::stop::Stop;
use packrun_lines::store::Store;
use std::alloc::Global;
use std::process::Abort;

const TEXTS: [Text; 9] = [
    // One box.
    (
        "bin a 100 100 1\nrect one 50 90 1\npack\n",
        "ok\nok\n0 one a 0 0 0 50 90 1\npacked 1\n",
        Ok(()),
    ),
    // The newest section is tried first.
    (
        "bin a 100 100 1\nrect one 60 95 1\nrect two 40 10 1\nrect three 1 1 1\npack\n",
        "ok\nok\nok\nok\n0 one a 0 0 0 60 95 1\n1 two a 60 0 0 40 10 1\n\
         2 three a 60 10 0 1 1 1\npacked 3\n",
        Ok(()),
    ),
    // A group, a box alone, and two bins.
    (
        "bin A 2048 2048 255\nbin B 4096 4096 1020\nrect one 10 20 255 g\nrect two 5 50 255 g\n\
         rect three 30 30 255\npack\n",
        "ok\nok\nok\nok\nok\n0 three A 0 0 0 30 30 255\n1 one A 30 0 0 10 20 255\n\
         2 two A 0 30 0 5 50 255\npacked 3\n",
        Ok(()),
    ),
    // Numbers go on from packing to packing, and each packing begins with an empty collection.
    (
        "pack\nbin a 10 10 1\nrect p 4 10 1\npack\nrect q 6 10 1\npack\npack\n",
        "packed 0\nok\nok\n0 p a 0 0 0 4 10 1\npacked 1\nok\n1 q a 4 0 0 6 10 1\npacked 1\n\
         packed 0\n",
        Ok(()),
    ),
    // The boxes of a refused packing are kept, and none stays in a bin: the bin that is added is
    // the smaller one, and is tried first.
    (
        "bin a 4 4 1\nbin a 9 9 1\nrect one 4 4 1\nrect two 2 2 1\npack\nbin b 3 3 1\n\
         pack\nrect three 1 1",
        "ok\nrefused: bin a exists\nok\nok\n\
         refused: Not enough space to place all of the rectangles.\nok\n0 one a 0 0 0 4 4 1\n\
         1 two b 0 0 0 2 2 1\npacked 2\nline 8 is bad\n",
        Err(Stop::BadLine(8)),
    ),
    // What is given back is free again, in the order in which it was given, until it is joined; its
    // number is unknown.
    (
        "bin a 10 10 1\nrect p 4 10 1\npack\nrect q 6 10 1\npack\nrelease 0\nrelease 1\n\
         sections a\ncoalesce a 1 0 2\nsections a\nrelease 0\n",
        "ok\nok\n0 p a 0 0 0 4 10 1\npacked 1\nok\n1 q a 4 0 0 6 10 1\npacked 1\nok\nok\n\
         0 0 0 4 10 1\n4 0 0 6 10 1\nsections 2\nok\n0 0 0 10 10 1\nsections 1\n\
         refused: placement 0 is unknown\n",
        Ok(()),
    ),
    // A sweep joins all that was given back; an index past the end and an empty range join nothing.
    (
        "bin a 10 10 1\nrect p 4 10 1\nrect q 6 10 1\npack\nrelease 0\nrelease 1\n\
         coalesce a 2 0 2\ncoalesce a 1 2 0\nsections a\nsweep a\nsections a\nsweep b\n\
         coalesce b 0 0 1\n",
        "ok\nok\nok\n0 q a 0 0 0 6 10 1\n1 p a 6 0 0 4 10 1\npacked 2\nok\nok\nok\nok\n\
         0 0 0 6 10 1\n6 0 0 4 10 1\nsections 2\nok\n0 0 0 10 10 1\nsections 1\n\
         refused: bin b is unknown\nrefused: bin b is unknown\n",
        Ok(()),
    ),
    // A box goes once into each group that its line names, as often as it is named.
    (
        "bin a 8 8 1\nrect one 4 4 1 0 1\npack\n",
        "ok\nok\n0 one a 0 0 0 4 4 1\n1 one a 4 0 0 4 4 1\npacked 2\n",
        Ok(()),
    ),
    // Boxes of one size come in the order of their names' bytes, short and long.
    (
        "bin c 6 1 1\nrect b 1 1 1\nrect aaaaaaaaaaaaaab 1 1 1\nrect aaaaaaaaaaaaaa 1 1 1\n\
         rect aaaaaaaaaaaaab 1 1 1\nrect aaaaaaaa 1 1 1\nrect aaaaaaaaaaaaaaa 1 1 1\npack\n",
        "ok\nok\nok\nok\nok\nok\nok\n0 aaaaaaaa c 0 0 0 1 1 1\n\
         1 aaaaaaaaaaaaaa c 1 0 0 1 1 1\n2 aaaaaaaaaaaaaaa c 2 0 0 1 1 1\n\
         3 aaaaaaaaaaaaaab c 3 0 0 1 1 1\n4 aaaaaaaaaaaaab c 4 0 0 1 1 1\n\
         5 b c 5 0 0 1 1 1\npacked 6\n",
        Ok(()),
    ),
];

#[test]
fn lines(rt: HostRuntime) {
    all_say(&rt, rt.alloc(), &TEXTS);
}

const LAST_LINES: [&str; 7] = [
    "bin a 8 8 1",
    "rect one 4 4 1",
    "pack",
    "pack",
    "rect two 4 4 1",
    "pack",
    "pack",
];

const LAST_PRINTED: &str =
    "ok\nok\n18446744073709551614 one a 0 0 0 4 4 1\npacked 1\npacked 0\nok\n\
     refused: numbers are used up\nrefused: numbers are used up\n";

fn is_obeyed(store: &mut Store<Global>, line: &str, written: &mut Vec<u8>) -> bool {
    match parse(line.as_bytes()) {
        Some(command) => store.obey(command, written).is_ok(),
        None => false,
    }
}

fn obey_last(rt: &impl Abort, store: &mut Store<Global>, written: &mut Vec<u8>) {
    for line in &LAST_LINES {
        assert!(rt; is_obeyed(store, line, written));
    }
    assert_eq!(rt; written.as_slice(), LAST_PRINTED.as_bytes());
}

// The greatest number is never given.
#[test]
fn last_numbers(rt: HostRuntime) {
    let mut store = Store::new(rt.alloc(), u64::MAX - 1);
    let mut written = Vec::new(rt.alloc());
    obey_last(&rt, &mut store, &mut written);
}
