//! Groups that exclude each other, as lines.

use crate::support::{Text, all_say};

const TEXTS: [Text; 4] = [
    (
        "bin P 10 10 1\nbin Q 10 10 1\nrect p 4 4 1 A\nrect q 4 4 1 B\nexclude A B\npack\n",
        "ok\nok\nok\nok\nok\n0 p P 0 0 0 4 4 1\n1 q Q 0 0 0 4 4 1\npacked 2\n",
        Ok(()),
    ),
    // The pairs stay with a collection that is kept.
    (
        "bin P 10 10 1\nexclude A B\nrect q 4 4 1 B\nrect p 4 4 1 A\npack\n\
         bin Q 10 10 1\npack\n",
        "ok\nok\nok\nok\nrefused: Not enough space to place all of the rectangles.\nok\n\
         0 p P 0 0 0 4 4 1\n1 q Q 0 0 0 4 4 1\npacked 2\n",
        Ok(()),
    ),
    // No bin stays excluded after its packing.
    (
        "bin P 10 10 1\nrect a 4 4 1 A\nexclude A B\npack\nrect b 4 4 1 B\n\
         exclude B A\npack\n",
        "ok\nok\nok\n0 a P 0 0 0 4 4 1\npacked 1\nok\nok\n1 b P 4 0 0 4 4 1\npacked 1\n",
        Ok(()),
    ),
    // The collection after a packing has no pairs.
    (
        "bin P 10 10 1\nexclude A B\npack\nrect p 4 4 1 A\nrect q 4 4 1 B\npack\n",
        "ok\nok\npacked 0\nok\nok\n0 p P 0 0 0 4 4 1\n1 q P 4 0 0 4 4 1\npacked 2\n",
        Ok(()),
    ),
];

#[test]
fn lines(rt: HostRuntime) {
    all_say(&rt, rt.alloc(), &TEXTS);
}
