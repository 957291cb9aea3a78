//! Statistics of bins, as lines.

use crate::support::{Text, all_say};

const TEXTS: [Text; 4] = [
    (
        "bin P 10 10 1\nbin Q 10 10 1\nrect p 4 4 1 A\nrect q 4 4 1 B\nexclude A B\npack\n\
         stats P\n",
        "ok\nok\nok\nok\nok\n0 p P 0 0 0 4 4 1\n1 q Q 0 0 0 4 4 1\npacked 2\n\
         free 84 in 2, placed 16 in 1, bin 100\n",
        Ok(()),
    ),
    (
        "stats P\nbin P 10 10 1\nstats\tP\nstats Q\n",
        "refused: bin P is unknown\nok\nfree 100 in 1, placed 0 in 0, bin 100\n\
         refused: bin Q is unknown\n",
        Ok(()),
    ),
    (
        "bin a 10 10 1\nrect e 0 5 1\npack\nstats a\nrelease 0\nstats a\n",
        "ok\nok\n0 e a 0 0 0 0 5 1\npacked 1\nfree 100 in 1, placed 0 in 1, bin 100\nok\n\
         free 100 in 1, placed 0 in 0, bin 100\n",
        Ok(()),
    ),
    (
        "bin a 4294967295 4294967295 4294967295\nbin b 0 5 1\nstats a\nstats b\n",
        "ok\nok\nfree 79228162458924105385300197375 in 1, placed 0 in 0, \
         bin 79228162458924105385300197375\nfree 0 in 1, placed 0 in 0, bin 0\n",
        Ok(()),
    ),
];

#[test]
fn lines(rt: HostRuntime) {
    all_say(&rt, rt.alloc(), &TEXTS);
}
