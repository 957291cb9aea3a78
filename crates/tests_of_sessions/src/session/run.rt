//! One run of all commands of a script, beside its calls.

use super::calls::{MOST_REQUESTS, call};
use super::{Came, Line, Made, Script, TestCommand, TestSession, commands, empty, is_in};
use rectangle_pack::{Reply, TargetBin, contains_smallest_box, volume_heuristic};
use std::alloc::Global;
use std::process::Abort;
use tests_support::all_match;
use tests_support::refusing::Refusing;

// Whether calls answer these replies.
fn are_called(replies: &[Reply], session: &mut TestSession, commands: &[TestCommand]) -> bool {
    all_match!(replies.iter(), commands, reply, command => *reply == call(session, command))
}

// Whether the session has a bin of this id, with the same free sections.
fn has_alike(session: &TestSession, id: u32, bin: &TargetBin<Refusing>) -> bool {
    match session.bins().get(&id) {
        Some(twin) => bin.available_bin_sections() == twin.available_bin_sections(),
        None => false,
    }
}

fn have_bins_alike(one: &TestSession, other: &TestSession) -> bool {
    for (id, bin) in one.bins() {
        if !has_alike(other, *id, bin) {
            return false;
        }
    }
    one.bins().len() == other.bins().len()
}

// Whether the sessions have the same bins, free sections, placements and next number.
fn are_alike(one: &TestSession, other: &TestSession) -> bool {
    have_bins_alike(one, other)
        && one.outstanding() == other.outstanding()
        && one.next_number() == other.next_number()
}

// Whether the replies are those of the lines.
fn are_wanted(replies: &[Reply], lines: &[Line]) -> bool {
    all_match!(replies.iter(), lines, reply, line => *reply == line.reply)
}

// Each reply is what its call answers, and where the replies are those of the script, the session
// is in the state that it is to be in after the last line.
fn compare(
    replies: &[Reply],
    session: &TestSession,
    twin: &mut TestSession,
    commands: &[TestCommand],
    script: &Script,
) -> Came {
    if !are_called(replies, twin, commands) || !are_alike(session, twin) {
        return Came::Wrong;
    }
    if !are_wanted(replies, script.lines) {
        return Came::Refused;
    }
    match script.lines.last() {
        Some(line) if is_in(session, &line.after) => Came::Out,
        _ => Came::Wrong,
    }
}

// Without room for the replies nothing is done. Else each reply is what its call answers with the
// memory that the room for the replies leaves.
fn run_beside_calls(
    has_room: bool,
    session: &mut TestSession,
    twin: &mut TestSession,
    commands: &[TestCommand],
    script: &Script,
) -> Came {
    match session.run(commands, &volume_heuristic, &contains_smallest_box) {
        Ok(replies) => compare(replies.as_slice(), session, twin, commands, script),
        Err(_) if !has_room && is_in(session, &empty(script.first)) => Came::Refused,
        Err(_) => Came::Wrong,
    }
}

// In two new sessions. Commands take their memory elsewhere.
fn run_all(plenty: Refusing, scarce: Refusing, left: Refusing, script: &Script) -> Made<Came> {
    let commands = commands(plenty, script)?;
    let has_room = scarce.left() > 0;
    let mut session = TestSession::new(scarce, script.first);
    let mut twin = TestSession::new(left, script.first);
    Ok(run_beside_calls(
        has_room,
        &mut session,
        &mut twin,
        commands.as_slice(),
        script,
    ))
}

// Whether a run may come out so. All memory is given back. The run says that memory was refused
// where it was, and only there.
fn may_come(came: Came, plenty: Refusing, scarce: Refusing, left: Refusing) -> bool {
    (scarce.refused() == 0) == matches!(came, Came::Out)
        && plenty.taken() == 0
        && scarce.taken() == 0
        && left.taken() == 0
}

// How the run comes out with `granted` requests granted.
fn run_granted(alloc: Global, plenty: Refusing, granted: u64, script: &Script) -> Made<Came> {
    let scarce = Refusing::new(alloc, granted)?;
    let left = Refusing::new(alloc, granted.saturating_sub(1))?;
    let came = run_all(plenty, scarce, left, script)?;
    Ok(if may_come(came, plenty, scarce, left) {
        came
    } else {
        Came::Wrong
    })
}

// Runs with each request refused in turn, until none is. How many were granted then, and how that
// run came out.
fn refuse_each(alloc: Global, plenty: Refusing, script: &Script) -> Made<(u64, Came)> {
    for granted in 0..MOST_REQUESTS {
        match run_granted(alloc, plenty, granted, script)? {
            Came::Refused => {}
            came => return Ok((granted, came)),
        }
    }
    Ok((MOST_REQUESTS, Came::Wrong))
}

/// Runs with all memory, and then with each request refused in turn, until none is.
pub fn come_out(rt: &impl Abort, alloc: Global, plenty: Refusing, script: &Script) -> Made<()> {
    let came = run_granted(alloc, plenty, u64::MAX, script)?;
    let (granted, last) = refuse_each(alloc, plenty, script)?;
    let is_out = matches!((came, last), (Came::Out, Came::Out)) && granted > 0;
    assert!(rt; is_out, "{granted} requests");
    Ok(())
}
