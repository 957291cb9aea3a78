//! Worked runs, of which each is a transcript as its definition says: a run prints one, which is
//! proved, and these bytes are what it prints.
ghost use Rattle.std.specs.Prelude.{[], Some, Ok, Err};
ghost use Rattle.packrun_lines.specs.Transcripts.{IsTranscript, PrintsTranscript};
ghost use Rattle.packrun_lines.specs.declared.stop.Stop.TheVariants.{BadLine};

use packrun_lines::run::run_lines;
use packrun_lines::stop::Stop;
use std::alloc::Global;
use std::process::Abort;

// This is the transcript of these lines, to the end of the input.
fn is_whole(_lines: &[u8], _printed: &[u8])
    requires { IsTranscript _lines.now _printed.now (Ok tt) }
{}

// This is the transcript of these lines, up to the bad one of this number.
fn ends_at_bad_line(_lines: &[u8], _printed: &[u8], _number: u64)
    requires { IsTranscript _lines.now _printed.now (Err (BadLine _number)) }
{}

// What a run of these lines printed, and how it ended.
fn run(alloc: Global, lines: &[u8]) -> (Vec<u8>, Result<(), Stop>)
    ensures { PrintsTranscript (Some []) (Some result.0.items) result.1 lines.now }
{
    let mut reader = lines;
    let mut written = Vec::new(alloc);
    let outcome = run_lines(alloc, &mut reader, &mut written);
    (written, outcome)
}

fn transcribes(rt: &impl Abort, alloc: Global, lines: &str, printed: &str) {
    let (written, outcome) = run(alloc, lines.as_bytes());
    assert_eq!(rt; outcome, Ok(()));
    assert_eq!(rt; written.as_slice(), printed.as_bytes());
    is_whole(lines.as_bytes(), printed.as_bytes());
}

fn transcribes_up_to(rt: &impl Abort, alloc: Global, number: u64, lines: &str, printed: &str) {
    let (written, outcome) = run(alloc, lines.as_bytes());
    assert_eq!(rt; outcome, Err(Stop::BadLine(number)));
    assert_eq!(rt; written.as_slice(), printed.as_bytes());
    ends_at_bad_line(lines.as_bytes(), printed.as_bytes(), number);
}

#[test]
fn one_box(rt: HostRuntime) {
    let lines = "bin a 100 100 1\nrect one 50 90 1\npack\n";
    let printed = "ok\nok\n0 one a 0 0 0 50 90 1\npacked 1\n";
    transcribes(&rt, rt.alloc(), lines, printed);
}

#[test]
fn two_boxes_given_back_and_joined(rt: HostRuntime) {
    let lines = "bin a 10 10 1\nrect p 4 10 1\npack\nrect q 6 10 1\npack\nrelease 0\nrelease 1\n\
                 sections a\ncoalesce a 1 0 2\nsections a\nrelease 0\n";
    let printed = "ok\nok\n0 p a 0 0 0 4 10 1\npacked 1\nok\n1 q a 4 0 0 6 10 1\npacked 1\nok\n\
                   ok\n0 0 0 4 10 1\n4 0 0 6 10 1\nsections 2\nok\n0 0 0 10 10 1\nsections 1\n\
                   refused: placement 0 is unknown\n";
    transcribes(&rt, rt.alloc(), lines, printed);
}

#[test]
fn a_refusal_a_kept_collection_and_a_bad_line(rt: HostRuntime) {
    let lines = "bin a 4 4 1\nbin a 9 9 1\nrect one 4 4 1\nrect two 2 2 1\npack\nbin b 3 3 1\n\
                 pack\nrect three 1 1\n";
    let printed = "ok\nrefused: bin a exists\nok\nok\n\
                   refused: Not enough space to place all of the rectangles.\nok\n\
                   0 one a 0 0 0 4 4 1\n1 two b 0 0 0 2 2 1\npacked 2\nline 8 is bad\n";
    transcribes_up_to(&rt, rt.alloc(), 8, lines, printed);
}

#[test]
fn two_groups_that_are_excluded(rt: HostRuntime) {
    let lines = "bin P 10 10 1\nbin Q 10 10 1\nrect p 4 4 1 A\nrect q 4 4 1 B\nexclude A B\npack\n\
                 stats P\n";
    let printed = "ok\nok\nok\nok\nok\n0 p P 0 0 0 4 4 1\n1 q Q 0 0 0 4 4 1\npacked 2\n\
                   free 84 in 2, placed 16 in 1, bin 100\n";
    transcribes(&rt, rt.alloc(), lines, printed);
}
