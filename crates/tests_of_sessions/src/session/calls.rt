//! The calls of scripts, one after another.

use super::{
    Came, Line, Made, Memory, Order, Script, State, TestCommand, TestSession, command, empty, is_in,
};
use rectangle_pack::{
    Command, Packed, Reply, SessionError, contains_smallest_box, volume_heuristic,
};
use std::alloc::Global;
use std::process::Abort;
use tests_support::boxes::Rects;
use tests_support::refusing::Refusing;

// The longest script has fewer lines.
const MOST_LINES: usize = 24;

/// Each script makes fewer requests for memory.
pub const MOST_REQUESTS: u64 = 300;

/// What a call answers that answers nothing else.
pub fn reply(answer: Result<(), SessionError>) -> Reply {
    match answer {
        Ok(()) => Reply::Done,
        Err(error) => Reply::Refused(error),
    }
}

/// What a packing answers.
pub fn packed(answer: Result<Packed, SessionError>) -> Reply {
    match answer {
        Ok(packed) => Reply::Packed(packed),
        Err(error) => Reply::Refused(error),
    }
}

/// What a packing answers, by volumes and smallest boxes.
pub fn pack(session: &mut TestSession, rects: &Rects) -> Reply {
    packed(session.pack(rects, &volume_heuristic, &contains_smallest_box))
}

/// What the call of a command answers, by volumes and smallest boxes.
pub fn call(session: &mut TestSession, command: &TestCommand) -> Reply {
    match command {
        Command::AddBin {
            id,
            width,
            height,
            depth,
        } => reply(session.add_bin(*id, *width, *height, *depth)),
        Command::Pack(rects) => pack(session, rects),
        Command::Release(number) => reply(session.release(*number)),
        Command::Coalesce { bin, idx, lo, hi } => reply(session.coalesce(bin, *idx, *lo..*hi)),
        Command::CoalesceAll(bin) => reply(session.coalesce_all(bin)),
    }
}

/// Memory was refused.
pub const NO_MEMORY: Reply = Reply::Refused(SessionError::OutOfMemory);

/// What the call of an order answers, whose command takes its memory from `alloc`.
pub fn obey(session: &mut TestSession, alloc: Refusing, order: &Order) -> Reply {
    match command(alloc, order) {
        Ok(command) => call(session, &command),
        Err(_) => NO_MEMORY,
    }
}

// Makes the call of one line. Where it is refused memory, it changes nothing.
fn call_line(session: &mut TestSession, plenty: Refusing, before: &State, line: &Line) -> Came {
    let reply = obey(session, plenty, &line.order);
    if reply == NO_MEMORY && is_in(session, before) {
        Came::Refused
    } else if reply == line.reply && is_in(session, &line.after) {
        Came::Out
    } else {
        Came::Wrong
    }
}

// Makes the call of each line, until one does not come out, and says which.
fn call_lines(session: &mut TestSession, plenty: Refusing, script: &Script) -> (usize, Came) {
    let mut before = empty(script.first);
    let mut index = 0usize;
    for line in script.lines {
        match call_line(session, plenty, &before, line) {
            Came::Out => before = line.after,
            other => return (index, other),
        }
        index = index.wrapping_add(1);
    }
    (index, Came::Out)
}

// Makes the calls in a new session. Commands take their memory elsewhere.
fn call_all(plenty: Refusing, scarce: Refusing, script: &Script) -> (usize, Came) {
    let mut session = TestSession::new(scarce, script.first);
    call_lines(&mut session, plenty, script)
}

// Whether the calls may come out so, for which `granted` requests were granted. All of these are
// used, if there are not more than any script makes, and all memory is given back. A call says that
// memory was refused where it was, and only there.
fn may_come(came: Came, granted: u64, plenty: Refusing, scarce: Refusing) -> bool {
    (granted == u64::MAX || scarce.left() == 0)
        && (scarce.refused() == 0) == matches!(came, Came::Out)
        && plenty.taken() == 0
        && scarce.taken() == 0
}

// How the calls come out with `granted` requests granted, and at which line.
fn call_granted(
    alloc: Global,
    plenty: Refusing,
    granted: u64,
    script: &Script,
) -> Made<(usize, Came)> {
    let scarce = Refusing::new(alloc, granted)?;
    let (line, came) = call_all(plenty, scarce, script);
    if may_come(came, granted, plenty, scarce) {
        Ok((line, came))
    } else {
        Ok((line, Came::Wrong))
    }
}

fn is_allowed(memory: Memory, was_refused: bool) -> bool {
    match memory {
        Memory::Asked => was_refused,
        Memory::NotAsked => !was_refused,
        Memory::Either => true,
    }
}

// Whether the lines were refused memory that are to be, and at least `refusals` of them.
fn are_allowed(lines: &[Line], were_refused: &[bool], refusals: usize) -> bool {
    if lines.len() > were_refused.len() {
        return false;
    }
    let mut count = 0usize;
    for index in 0..lines.len() {
        if !is_allowed(lines[index].memory, were_refused[index]) {
            return false;
        }
        count = count.wrapping_add(usize::from(were_refused[index]));
    }
    count >= refusals
}

// Makes the calls with each request refused in turn, until none is, and notes the lines that were
// refused memory. How many requests were granted then, and how the calls came out, at which line.
fn refuse_each(
    alloc: Global,
    plenty: Refusing,
    script: &Script,
    were_refused: &mut [bool],
) -> Made<(u64, usize, Came)> {
    for granted in 0..MOST_REQUESTS {
        match call_granted(alloc, plenty, granted, script)? {
            (line, Came::Refused) => set(were_refused, line),
            (line, came) => return Ok((granted, line, came)),
        }
    }
    Ok((MOST_REQUESTS, 0, Came::Wrong))
}

// With `granted` requests granted, the calls came out.
fn check_out(rt: &impl Abort, granted: u64, line: usize, came: Came) {
    assert!(rt;
        matches!(came, Came::Out),
        "{granted} requests, line {line}"
    );
}

/// Makes the calls with all memory, and then with each request refused in turn, until none is. The
/// refused one changes nothing, and what is not refused comes out.
pub fn come_out(rt: &impl Abort, alloc: Global, plenty: Refusing, script: &Script) -> Made<()> {
    let (line, came) = call_granted(alloc, plenty, u64::MAX, script)?;
    check_out(rt, u64::MAX, line, came);
    let mut were_refused = [false; MOST_LINES];
    let (granted, line, came) = refuse_each(alloc, plenty, script, &mut were_refused)?;
    check_out(rt, granted, line, came);
    assert!(rt; are_allowed(script.lines, &were_refused, script.refusals));
    Ok(())
}

/// Sets the flag of this index.
pub fn set(flags: &mut [bool], index: usize) {
    if let Some(flag) = flags.get_mut(index) {
        *flag = true;
    }
}
