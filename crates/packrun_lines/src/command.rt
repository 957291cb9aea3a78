//! What a line says.
ghost use Rattle.std.specs.Prelude.{◌≡◌, ◌≢◌, ◌^◌, [], ◌∷◌, codes, MatchOption};
ghost use Rattle.std.specs.Io.BufRead.{strip_last};
ghost use Rattle.packrun_lines.specs.private.Commands.{words_left, IsNoneOf, IsNumberAnswer, IsNextWord, IsNextNumber, IsNextSize, IsNextRequest, IsRead, IsReading};
ghost use Rattle.packrun_lines.specs.Requests.{IsPlain};
ghost use Rattle.packrun_lines.specs.Words.{may_stand, words_in};

use std::ops::Range;
use std::str;
use std::str::SplitAsciiWhitespace;

/// The most bytes that a line may have, its line feed not counted.
pub const LONGEST_LINE: usize = 4096;

/// The sizes that a line names, in cells.
#[derive(Clone, Copy, Drop)]
pub struct Size {
    pub width: u32,
    pub height: u32,
    pub depth: u32,
}

/// What a line says, in its words as they were read.
#[derive(Drop)]
pub enum Command<'a> {
    /// A line without words.
    Nothing,
    /// A new bin.
    Bin {
        name: &'a str,
        size: Size,
    },
    /// A box to place, in the groups that the other words name.
    Rect {
        id: &'a str,
        size: Size,
        groups: SplitAsciiWhitespace<'a>,
    },
    /// Two groups that may not share a bin. Their names differ.
    Exclude {
        one: &'a str,
        other: &'a str,
    },
    /// Places the boxes.
    Pack,
    /// Gives back the placement of this number.
    Release(u64),
    /// Lists what is free in a bin.
    Sections {
        name: &'a str,
    },
    /// Joins a free section of a bin with those of a range.
    Coalesce {
        name: &'a str,
        idx: usize,
        range: Range<usize>,
    },
    /// Joins the free sections of a bin until no two share a whole face.
    Sweep {
        name: &'a str,
    },
    /// Adds up what is free and what is placed in a bin.
    Stats {
        name: &'a str,
    },
}

/// What the line says, which may end with its line feed, or `None` where it is bad.
pub fn parse(line: &[u8]) -> Option<Command<'_>>
    // A line is read as a command that asks for what the line asks for; or it is bad: there is no
    //   request that it asks for. [next_exclude.equal_words_are_two_groups,
    //   words_of.longer_line_is_taken]
    ensures { IsReading (strip_last 10 line.now) result }
{
    let mut words = words_of(without_line_feed(line))?;
    match next_word(&mut words) {
        None => Some(Command::Nothing),
        Some("rect") => next_rect(words),
        Some(verb) => next_command(verb, words),
    }
}

// The line without the line feed at its end, where it has one.
fn without_line_feed(line: &[u8]) -> &[u8]
    ensures { result.now ≡ strip_last 10 line.now }
{
    if line.is_empty() || line[line.len() - 1] != b'\n' {
        return line;
    }
    &line[..line.len() - 1]
}

// The words of the line, where it is not too long and each of its bytes may stand in it.
fn words_of(line: &[u8]) -> Option<SplitAsciiWhitespace<'_>>
    ensures { MatchOption result (¬ IsPlain line.now)
        (λ words. IsPlain line.now × (words_left words ≡ words_in line.now)) }
{
    if line.len() > LONGEST_LINE || !line.iter().all(|byte| may_stand(*byte)) {
        return None;
    }
    let text = str::from_utf8(line).ok()?;
    Some(text.split_ascii_whitespace())
}

// A byte of a word, or one that separates words.
fn may_stand(byte: u8) -> bool
    ensures { result ≡ may_stand byte }
{
    byte == b' ' || byte == b'\t' || byte == b'\r' || byte.is_ascii_graphic()
}

// The next word.
fn next_word<'a>(words: &mut SplitAsciiWhitespace<'a>) -> Option<&'a str>
    ensures { IsNextWord (words_left words.old) result (words_left words.new) }
{
    words.next()
}

// A box and its groups, which are all the other words.
fn next_rect(mut words: SplitAsciiWhitespace<'_>) -> Option<Command<'_>>
    ensures { IsRead (codes "rect") (words_left words.entry) result }
{
    let id = next_word(&mut words)?;
    let size = next_size(&mut words)?;
    Some(Command::Rect {
        id,
        size,
        groups: words,
    })
}

// What the first word and all the others say, of a line that is no box.
fn next_command<'a>(verb: &str, mut words: SplitAsciiWhitespace<'a>) -> Option<Command<'a>>
    requires no_box { verb.now ≢ codes "rect" }
    ensures { IsRead verb.now (words_left words.entry) result }
{
    let command = match verb {
        "bin" => next_bin(&mut words),
        "exclude" => next_exclude(&mut words),
        "pack" => Some(Command::Pack),
        "release" => next_release(&mut words),
        "coalesce" => next_coalesce(&mut words),
        _ => next_query(verb, &mut words),
    };
    match next_word(&mut words) {
        None => command,
        Some(_) => None,
    }
}

// What is done with the bin of the next name, or asked of it.
fn next_query<'a>(verb: &str, words: &mut SplitAsciiWhitespace<'a>) -> Option<Command<'a>>
    requires others { IsNoneOf verb.now (codes "rect" ∷ codes "bin" ∷ codes "exclude" ∷ codes "pack"
        ∷ codes "release" ∷ codes "coalesce" ∷ []) }
    ensures { IsNextRequest verb.now (words_left words.old) result (words_left words.new) }
{
    let name = next_word(words)?;
    match verb {
        "sections" => Some(Command::Sections { name }),
        "sweep" => Some(Command::Sweep { name }),
        "stats" => Some(Command::Stats { name }),
        _ => None,
    }
}

fn next_bin<'a>(words: &mut SplitAsciiWhitespace<'a>) -> Option<Command<'a>>
    ensures { IsNextRequest (codes "bin") (words_left words.old) result (words_left words.new) }
{
    let name = next_word(words)?;
    let size = next_size(words)?;
    Some(Command::Bin { name, size })
}

fn next_exclude<'a>(words: &mut SplitAsciiWhitespace<'a>) -> Option<Command<'a>>
    ensures { IsNextRequest (codes "exclude") (words_left words.old) result (words_left words.new) }
{
    let one = next_word(words)?;
    let other = next_word(words)?;
    if one == other {
        return None;
    }
    Some(Command::Exclude { one, other })
}

fn next_release<'a>(words: &mut SplitAsciiWhitespace<'a>) -> Option<Command<'a>>
    ensures { IsNextRequest (codes "release") (words_left words.old) result (words_left words.new) }
{
    let number = parse_number(next_word(words)?)?;
    Some(Command::Release(number))
}

fn next_coalesce<'a>(words: &mut SplitAsciiWhitespace<'a>) -> Option<Command<'a>>
    ensures { IsNextRequest (codes "coalesce") (words_left words.old) result
        (words_left words.new) }
{
    let name = next_word(words)?;
    let idx = next_index(words)?;
    let start = next_index(words)?;
    let end = next_index(words)?;
    Some(Command::Coalesce {
        name,
        idx,
        range: start..end,
    })
}

fn next_size(words: &mut SplitAsciiWhitespace<'_>) -> Option<Size>
    ensures { IsNextSize (words_left words.old) result (words_left words.new) }
{
    let width = next_side(words)?;
    let height = next_side(words)?;
    let depth = next_side(words)?;
    Some(Size {
        width,
        height,
        depth,
    })
}

fn next_side(words: &mut SplitAsciiWhitespace<'_>) -> Option<u32>
    ensures { IsNextNumber (2 ^ 32) (words_left words.old) result (words_left words.new) }
{
    parse_side(next_word(words)?)
}

fn next_index(words: &mut SplitAsciiWhitespace<'_>) -> Option<usize>
    ensures { IsNextNumber (2 ^ 64) (words_left words.old) result (words_left words.new) }
{
    parse_index(next_word(words)?)
}

fn parse_side(word: &str) -> Option<u32>
    // A word is a side exactly where it is a number, as `parse_number` says it, and below 2^32.
    ensures { IsNumberAnswer (2 ^ 32) word.now result }
{
    u32::try_from(parse_number(word)?).ok()
}

fn parse_index(word: &str) -> Option<usize>
    ensures { IsNumberAnswer (2 ^ 64) word.now result }
{
    usize::try_from(parse_number(word)?).ok()
}

/// The number that decimal digits say, with any zeros before it.
pub fn parse_number(word: &str) -> Option<u64>
    // A word is a number exactly where it has one or more decimal digits, nothing else, and the
    //   number is below 2^64. [parse_number.plus_sign_is_taken]
    ensures { IsNumberAnswer (2 ^ 64) word.now result }
{
    // What `parse` takes beside digits is a sign in front.
    if word.as_bytes().first() == Some(&b'+') {
        return None;
    }
    word.parse::<u64>().ok()
}
