//! What a run printed, counted box by box and cell by cell.

use std::alloc::{AllocError, Global};

// The numbers of a line; a word that is none counts as 0.
type Row = [u32; 9];

// What the lines of a run said so far.
#[derive(Drop)]
struct Seen {
    // `bin NAME W H D`
    bins: Vec<Row>,
    // `rect ID W H D [GROUP [GROUP]]`, since the last packing.
    boxes: Vec<Row>,
    // `NUMBER ID BIN X Y Z W H D`, but for what was released.
    placed: Vec<Row>,
}

impl Seen {
    fn new(alloc: Global) -> Seen {
        Seen {
            bins: Vec::new(alloc),
            boxes: Vec::new(alloc),
            placed: Vec::new(alloc),
        }
    }
}

fn row(line: &str) -> Row {
    let mut row = [0; 9];
    let mut words = line.split_ascii_whitespace();
    for at in &mut row {
        let word = words.next().unwrap_or("");
        *at = word.parse::<u32>().unwrap_or(0);
    }
    row
}

fn first_word(line: &str) -> &str {
    line.split_ascii_whitespace().next().unwrap_or("")
}

// Whether this is a line of numbers, which no reply is.
fn is_row(line: &str) -> bool {
    line.as_bytes().first().is_some_and(u8::is_ascii_digit)
}

fn has_words(line: &&str) -> bool {
    !first_word(line).is_empty()
}

fn has_cell([x, y, z, width, height, depth]: [u32; 6], [i, j, k]: [u32; 3]) -> bool {
    x <= i && i - x < width && y <= j && j - y < height && z <= k && k - z < depth
}

fn is_inside([x, y, z, width, height, depth]: [u32; 6], [right, top, back]: [u32; 3]) -> bool {
    x.saturating_add(width) <= right
        && y.saturating_add(height) <= top
        && z.saturating_add(depth) <= back
}

fn times_filled(boxes: &[[u32; 6]], cell: [u32; 3]) -> usize {
    let mut times = 0usize;
    for at in boxes {
        times = times.saturating_add(usize::from(has_cell(*at, cell)));
    }
    times
}

fn are_inside(boxes: &[[u32; 6]], size: [u32; 3]) -> bool {
    for at in boxes {
        if !is_inside(*at, size) {
            return false;
        }
    }
    true
}

// Whether these boxes are inside a bin of this size, of sides up to 6, and each of its cells is in
// exactly one of them.
fn fill_once(boxes: &[[u32; 6]], size: [u32; 3]) -> bool {
    for n in 0..216u32 {
        let cell = [n % 6, n / 6 % 6, n / 36];
        let is_cell = has_cell([0, 0, 0, size[0], size[1], size[2]], cell);
        if times_filled(boxes, cell) != usize::from(is_cell) {
            return false;
        }
    }
    are_inside(boxes, size)
}

fn free_box(row: &Row) -> [u32; 6] {
    let [x, y, z, width, height, depth, ..] = *row;
    [x, y, z, width, height, depth]
}

fn placed_box(row: &Row) -> [u32; 6] {
    let [_, _, _, x, y, z, width, height, depth] = *row;
    [x, y, z, width, height, depth]
}

// Adds the boxes that are placed in the bin of this name.
fn push_placed(boxes: &mut Vec<[u32; 6]>, placed: &[Row], bin: u32) -> Result<(), AllocError> {
    for row in placed {
        if row[2] == bin {
            boxes.push(placed_box(row))?;
        }
    }
    Ok(())
}

fn push_free(boxes: &mut Vec<[u32; 6]>, free: &[Row]) -> Result<(), AllocError> {
    for row in free {
        boxes.push(free_box(row))?;
    }
    Ok(())
}

fn size_of(bins: &[Row], name: u32) -> [u32; 3] {
    for row in bins {
        if row[1] == name {
            return [row[2], row[3], row[4]];
        }
    }
    [0; 3]
}

// How many groups the line of a box names.
fn groups_named(row: &Row) -> usize {
    usize::from(row[5] != 0).saturating_add(usize::from(row[6] != 0))
}

// How often the box of this id is to be placed: once for each group that a line names, and once
// alone where a line names none.
fn times_named(boxes: &[Row], id: u32) -> usize {
    let mut times = 0usize;
    let mut alone = false;
    for row in boxes {
        if row[1] == id {
            times = times.saturating_add(groups_named(row));
            alone |= row[5] == 0;
        }
    }
    times.saturating_add(usize::from(alone))
}

fn times_placed(lines: &[Row], id: u32) -> usize {
    let mut times = 0usize;
    for row in lines {
        times = times.saturating_add(usize::from(row[1] == id));
    }
    times
}

// Whether the last line of this id gave the box the size in which it was placed.
fn is_in_its_size(boxes: &[Row], placed: &Row) -> bool {
    for row in boxes.iter().rev() {
        if row[1] == placed[1] {
            return [placed[6], placed[7], placed[8]] == [row[2], row[3], row[4]];
        }
    }
    false
}

// Whether a line names this group for the box of this id, before any other.
fn is_named(boxes: &[Row], id: u32, group: u32) -> bool {
    for row in boxes {
        if row[1] == id && row[5] == group {
            return true;
        }
    }
    false
}

// Whether each of these lines places a box in its size.
fn are_in_their_sizes(boxes: &[Row], lines: &[Row]) -> bool {
    for row in lines {
        if !is_in_its_size(boxes, row) {
            return false;
        }
    }
    true
}

// Whether the box of this id is to be placed once, for this group.
fn is_of_group(boxes: &[Row], id: u32, group: u32) -> bool {
    times_named(boxes, id) == 1 && is_named(boxes, id, group)
}

// Whether the boxes that are of this group alone are in one bin.
fn share_a_bin(boxes: &[Row], lines: &[Row], group: u32) -> bool {
    let mut home = None;
    for row in lines {
        if is_of_group(boxes, row[1], group) {
            if home.unwrap_or(row[2]) != row[2] {
                return false;
            }
            home = Some(row[2]);
        }
    }
    true
}

// Whether these lines place each box, of ids below 10, as often as it was named, in its size, and
// each of the groups 1 to 3 in one bin.
fn places_all(boxes: &[Row], lines: &[Row]) -> bool {
    for id in 0..10u32 {
        let is_whole = !(1..4).contains(&id) || share_a_bin(boxes, lines, id);
        if !is_whole || times_placed(lines, id) != times_named(boxes, id) {
            return false;
        }
    }
    are_in_their_sizes(boxes, lines)
}

// Whether a bin of this name was added.
fn is_known(bins: &[Row], name: u32) -> bool {
    for row in bins {
        if row[1] == name {
            return true;
        }
    }
    false
}

// Whether one of these has this number, which is then taken away.
fn release(placed: &mut Vec<Row>, number: u32) -> bool {
    let before = placed.len();
    placed.retain(|row| row[0] != number);
    placed.len().saturating_add(1) == before
}

// Whether these free sections and what is placed in the bin of this name fill it.
fn is_full(alloc: Global, seen: &Seen, bin: u32, free: &[Row]) -> Result<bool, AllocError> {
    let mut boxes = Vec::new(alloc);
    push_placed(&mut boxes, seen.placed.as_slice(), bin)?;
    push_free(&mut boxes, free)?;
    Ok(fill_once(boxes.as_slice(), size_of(seen.bins.as_slice(), bin)))
}

fn pack(seen: &mut Seen, lines: &[Row]) -> Result<bool, AllocError> {
    let is_right = places_all(seen.boxes.as_slice(), lines);
    seen.placed.extend_from_slice(lines)?;
    seen.boxes.clear();
    Ok(is_right)
}

// Whether a call may be refused: a bin where its name is known, a release where nothing of its
// number is placed, a call of a bin where its name is not known, and a packing never.
fn may_be_refused(seen: &mut Seen, verb: &str, name: u32) -> bool {
    match verb {
        "bin" => is_known(seen.bins.as_slice(), name),
        "release" => !release(&mut seen.placed, name),
        "pack" => false,
        _ => !is_known(seen.bins.as_slice(), name),
    }
}

fn push_bin(seen: &mut Seen, row: Row) -> Result<bool, AllocError> {
    let is_known = is_known(seen.bins.as_slice(), row[1]);
    seen.bins.push(row)?;
    Ok(!is_known)
}

fn push_box(seen: &mut Seen, row: Row) -> Result<bool, AllocError> {
    seen.boxes.push(row)?;
    Ok(true)
}

// Takes over what was done. Whether it may be done.
fn take_done(seen: &mut Seen, verb: &str, row: Row) -> Result<bool, AllocError> {
    match verb {
        "bin" => push_bin(seen, row),
        "rect" => push_box(seen, row),
        "exclude" => Ok(true),
        "release" => Ok(release(&mut seen.placed, row[1])),
        "coalesce" | "sweep" => Ok(is_known(seen.bins.as_slice(), row[1])),
        _ => Ok(false),
    }
}

// Takes over an answer that has no lines of numbers. Whether it is right.
fn take_answer(
    seen: &mut Seen,
    row: Row,
    (verb, answer): (&str, &str),
) -> Result<bool, AllocError> {
    match answer {
        "ok" => take_done(seen, verb, row),
        "refused:" => Ok(may_be_refused(seen, verb, row[1])),
        // The line at which the run ends.
        "line" => Ok(true),
        _ => Ok(false),
    }
}

// Takes over the reply to a command, with the lines of numbers before it. Whether it is right.
fn take_over(
    alloc: Global,
    seen: &mut Seen,
    command: &str,
    reply: &str,
    lines: &[Row],
) -> Result<bool, AllocError> {
    let row = row(command);
    match (first_word(command), first_word(reply)) {
        ("pack", "packed") => pack(seen, lines),
        ("sections", "sections") => has_sections(alloc, seen, row[1], lines),
        words => Ok(lines.is_empty() && take_answer(seen, row, words)?),
    }
}

// Whether these are the free sections of a bin that is there.
fn has_sections(alloc: Global, seen: &Seen, bin: u32, lines: &[Row]) -> Result<bool, AllocError> {
    if !is_known(seen.bins.as_slice(), bin) {
        return Ok(false);
    }
    is_full(alloc, seen, bin, lines)
}

// Takes over a line that was printed, where the command of a reply is the next one. Whether it is
// right.
fn take_line(
    alloc: Global,
    seen: &mut Seen,
    lines: &mut Vec<Row>,
    (command, line): (&str, &str),
) -> Result<bool, AllocError> {
    if is_row(line) {
        lines.push(row(line))?;
        return Ok(true);
    }
    let is_right = take_over(alloc, seen, command, line, lines.as_slice())?;
    lines.clear();
    Ok(is_right)
}

// Whether the commands print these lines. The lines of numbers before a reply are kept in `lines`.
fn replies_are_right(
    alloc: Global,
    seen: &mut Seen,
    lines: &mut Vec<Row>,
    (commands, printed): (&[&str], &str),
) -> Result<bool, AllocError> {
    let mut done = 0usize;
    for line in printed.lines() {
        let command = commands.get(done).copied().unwrap_or("");
        if !take_line(alloc, seen, lines, (command, line))? {
            return Ok(false);
        }
        done = done.saturating_add(usize::from(!is_row(line)));
    }
    Ok(done == commands.len())
}

/// Whether the first `count` of these lines print this. A reply begins with no digit, unlike the
/// lines of numbers before it; a line without words has none.
pub fn is_right(
    alloc: Global,
    input: &str,
    count: usize,
    printed: &str,
) -> Result<bool, AllocError> {
    let commands: Vec<&str> = input.lines().take(count).filter(has_words).collect(alloc)?;
    let mut seen = Seen::new(alloc);
    let mut lines = Vec::new(alloc);
    replies_are_right(alloc, &mut seen, &mut lines, (commands.as_slice(), printed))
}
