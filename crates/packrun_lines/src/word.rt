//! The names of bins, boxes and groups.
ghost use Rattle.std.specs.Prelude.{◌≡◌, ◌≤◌, ◌++◌, Some, length, nat_eq, refl, IfOk, OnOk};
ghost use Rattle.std.specs.Ordering.{nat_cmp, ordering_then};
ghost use Rattle.std.specs.Cmp.{partial_equiv_from_equiv};
ghost use Rattle.std.specs.Cmp.Lexicographic.{pointwise, slice_cmp, nat_list_eq_equiv, nat_list_cmp_total, texts_po, texts_ties};
ghost use Rattle.packrun_lines.specs.private.Commands.{words_left};
ghost use Rattle.packrun_lines.specs.private.Names.{eight_from, padded};

use std::alloc::{AllocError, Allocator};
use std::cmp::Ordering;
use std::marker::Model;
use std::rc::RcStr;
use std::str::SplitAsciiWhitespace;

// The most bytes of a name that takes no memory.
const SHORT: usize = 14;

/// The name of a bin, a box or a group, ordered by its bytes.
///
/// A short name lies in the word itself, and clones of a longer one share its text. So a clone
/// takes no memory.
#[derive(Drop)]
pub struct Word<A: Allocator> {
    text: Text<A>,
}

#[derive(Drop)]
enum Text<A: Allocator> {
    // How many bytes, and these with zeros behind them.
    Short(u8, [u8; SHORT]),
    Long(RcStr<A>),
}

impl<A: Allocator> Model for Word<A> {
    ghost use Rattle.std.specs.Prelude.{ℕ, List};

    ghost Value = { List ℕ };

    ghost use Rattle.packrun_lines.specs.private.Names.{bytes_of, IsText};

    ghost view = { λ w. bytes_of w.text };

    ghost invariant = { λ w. IsText w.text };
}

impl<A: Allocator> Word<A> {
    /// A word of this name, or no memory for a long one.
    pub fn new(alloc: A, name: &str) -> Result<Word<A>, AllocError>
    where
        A: Clone,
        // A name is the bytes that were given, whether it is kept short or long.
        //   [new.fifteen_bytes_are_short]
        ensures { IfOk result (λ word. word ≡ name.now) }
    {
        if name.len() <= SHORT {
            let text = Text::Short(name.len() as u8, pad(name.as_bytes()));
            return Ok(Word { text });
        }
        let text = Text::Long(RcStr::from_str(alloc, name)?);
        Ok(Word { text })
    }

    /// The bytes of the name.
    pub fn as_bytes(&self) -> &[u8]
        ensures { result.now ≡ self.now }
    {
        match &self.text {
            Text::Short(length, bytes) => &bytes[..*length as usize],
            Text::Long(text) => text.as_str().as_bytes(),
        }
    }

    // The order of two names, one of them long.
    #[cold]
    #[inline(never)]
    fn order_long(&self, other: &Word<A>) -> Ordering
        ensures { result ≡ slice_cmp nat_cmp self.now other.now }
    {
        match (&self.text, &other.text) {
            (Text::Long(text), Text::Long(other)) => text.cmp(other),
            _ => self.as_bytes().cmp(other.as_bytes()),
        }
    }
}

// The bytes of a short name with zeros behind them.
fn pad(name: &[u8]) -> [u8; SHORT]
    requires { length name.now ≤ SHORT }
    ensures { result ≡ padded SHORT name.now }
{
    let mut bytes = [0; SHORT];
    bytes[..name.len()].copy_from_slice(name);
    bytes
}

impl<A: Allocator> Clone for Word<A> {
    ghost is_clone = { λ word copy. copy ≡ word };

    fn clone(&self) -> Result<Word<A>, AllocError> {
        let text = match &self.text {
            Text::Short(length, bytes) => Text::Short(*length, *bytes),
            Text::Long(text) => Text::Long(text.clone()?),
        };
        Ok(Word { text })
    }
}

impl<A: Allocator> PartialEq for Word<A> {
    ghost eq = { pointwise nat_eq };

    ghost laws = { partial_equiv_from_equiv nat_list_eq_equiv };

    fn eq(&self, other: &Word<A>) -> bool {
        self.cmp(other) == Ordering::Equal
    }
}

impl<A: Allocator> Eq for Word<A> {
    ghost laws = { nat_list_eq_equiv };
}

impl<A: Allocator> PartialOrd for Word<A> {
    ghost partial_cmp = { λ x y. Some (slice_cmp nat_cmp x y) };

    ghost laws = { texts_po };

    fn partial_cmp(&self, other: &Word<A>) -> Option<Ordering> {
        Some(self.cmp(other))
    }
}

impl<A: Allocator> Ord for Word<A> {
    // Names are compared byte by byte, a name before those that it begins.
    //   [order_short.shorter_names_are_greater]
    ghost cmp = { slice_cmp nat_cmp };

    // This order is total.
    ghost total = { nat_list_cmp_total };

    // `partial_cmp` answers the same.
    ghost matches_partial_cmp = { λ x y. refl };

    // Two names are equal exactly where the order says `Equal`.
    ghost matches_eq = { texts_ties };

    #[inline(always)]
    fn cmp(&self, other: &Word<A>) -> Ordering {
        match (&self.text, &other.text) {
            (Text::Short(length, bytes), Text::Short(other_length, others)) => {
                order_short(bytes, *length, others, *other_length)
            }
            _ => self.order_long(other),
        }
    }
}

// The order of two short names by their bytes with zeros behind them, and then by their lengths.
#[inline(always)]
fn order_short(bytes: &[u8; SHORT], length: u8, others: &[u8; SHORT], other_length: u8) -> Ordering
    ensures { result ≡ ordering_then (slice_cmp nat_cmp bytes.now others.now)
        (nat_cmp length other_length) }
{
    let (first, other) = (first_eight(bytes), first_eight(others));
    if first != other {
        return first.cmp(&other);
    }
    order_last(bytes, others).then(length.cmp(&other_length))
}

// The order of the last eight bytes. It stands apart, since inlined beside the first eight it would
// keep these from being read at once.
#[inline(never)]
fn order_last(bytes: &[u8; SHORT], others: &[u8; SHORT]) -> Ordering
    ensures { result ≡ nat_cmp (eight_from 6 bytes.now) (eight_from 6 others.now) }
{
    last_eight(bytes).cmp(&last_eight(others))
}

#[inline(always)]
fn first_eight(bytes: &[u8; SHORT]) -> u64
    ensures { result ≡ eight_from 0 bytes.now }
{
    u64::from_be_bytes([
        bytes[0], bytes[1], bytes[2], bytes[3], bytes[4], bytes[5], bytes[6], bytes[7],
    ])
}

#[inline(always)]
fn last_eight(bytes: &[u8; SHORT]) -> u64
    ensures { result ≡ eight_from 6 bytes.now }
{
    u64::from_be_bytes([
        bytes[6], bytes[7], bytes[8], bytes[9], bytes[10], bytes[11], bytes[12], bytes[13],
    ])
}

/// Appends the words, in their order. Fails only when memory is refused; some of them may then be
/// there.
pub fn push_words<A: Allocator + Copy>(
    words: &mut Vec<Word<A>, A>,
    alloc: A,
    names: SplitAsciiWhitespace<'_>,
) -> Result<(), AllocError>
    ensures { OnOk result (words.new.items ≡ words.old.items ++ words_left names.entry) }
{
    for name in names {
        words.push(Word::new(alloc, name)?)?;
    }
    Ok(())
}
