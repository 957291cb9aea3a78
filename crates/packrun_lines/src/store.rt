//! The session, and the boxes to place, that lines speak of.
ghost use Rattle.std.specs.Prelude.{◌≡◌, ◌≢◌, ◌-◌, ◌<◌, ◌≤◌, IfOk, length, drop};
ghost use Rattle.std.specs.Option.{ForSome, option_copied, option_map};
ghost use Rattle.std.specs.Vec.{vec_len};
ghost use Rattle.rectangle_pack.specs.Groups.{Excludes};
ghost use Rattle.rectangle_pack.specs.Joining.{IsJoined, IsSwept};
ghost use Rattle.rectangle_pack.specs.Session.{AddsBin, Coalesces, Releases};
ghost use Rattle.rectangle_pack.specs.declared.grouped_rects_to_place.Group.TheVariants.{Grouped};
ghost use Rattle.packrun_lines.specs.Answers.{size_of, groups_of};
ghost use Rattle.packrun_lines.specs.Requests as asks;
ghost use Rattle.packrun_lines.specs.Store.{name_cmp, group_order, no_boxes, empty_store, sections_in, ChangesSession, ChangesBoxes, TakesBox};
ghost use Rattle.packrun_lines.specs.private.Calls.{UnlessNoMemory};
ghost use Rattle.packrun_lines.specs.private.Commands.{request_of, words_left};
ghost use Rattle.packrun_lines.specs.private.Obeying.{IsObeyed, IsPackObeyed};
ghost use Rattle.packrun_lines.specs.private.Verbs.{NamesTwo};

use crate::bytes::Digits;
use crate::command::{Command, Size};
use crate::print::{print_list, print_packed, print_sums, refuse, report};
use crate::stop::Stop;
use crate::word::{Word, push_words};
use rectangle_pack::{
    BinSection, Group, GroupedRectsToPlace, Outstanding, RectToInsert, Session, SessionError,
    contains_smallest_box, volume_heuristic,
};
use std::alloc::{AllocError, Allocator};
use std::io::Write;
use std::marker::Model;
use std::ops::Range;
use std::str::SplitAsciiWhitespace;

/// A session, and the boxes that its next packing places.
#[derive(Drop)]
pub struct Store<A: Allocator + Copy> {
    alloc: A,
    session: Session<Word<A>, Word<A>, A>,
    rects: GroupedRectsToPlace<Word<A>, Word<A>, A>,
}

impl<A: Allocator + Copy> Model for Store<A> {
    ghost use Rattle.rectangle_pack.specs.Session.{IsSession};
    ghost use Rattle.packrun_lines.specs.Store.{Store, name_cmp};

    // A store is seen as a session, and the boxes that its next packing places.
    ghost Value = { Store };

    // These are the session and the boxes of its fields.
    ghost view = { λ s. record { session = s.session; boxes = s.rects } };

    // What always holds of a session holds of that of each store, so each cell of a bin is in
    //   exactly one free section or outstanding placement.
    ghost invariant = { λ s. IsSession name_cmp s.session };
}

impl<A: Allocator + Copy> Store<A> {
    /// No bins and no boxes. The first placement gets the number `first`.
    pub fn new(alloc: A, first: u64) -> Store<A>
        ensures { result ≡ empty_store first }
    {
        Store {
            alloc,
            session: Session::new(alloc, first),
            rects: GroupedRectsToPlace::new(alloc),
        }
    }

    /// Ends the session, and gives its memory back.
    pub fn close(self) {}

    /// Does what the command says and prints the lines of its answer.
    pub fn obey<W: Write>(&mut self, command: Command<'_>, out: &mut W) -> Result<(), Stop>
        // An `exclude` names two groups that differ.
        requires { NamesTwo (request_of command) }
        // A request changes session and boxes as its definition says, and the text of its answer is
        //   printed, and nothing else. Where memory is refused, nothing is printed.
        //   [obey.another_placement_is_released, obey.line_is_swallowed,
        //   print_sections.unknown_bin_exists, sweep.first_section_alone_is_joined]
        ensures { IsObeyed (request_of command.entry) self.old (W.contents out.old) result self.new
            (W.contents out.new) }
    {
        match command {
            Command::Nothing => Ok(()),
            Command::Bin { name, size } => {
                report(self.add_bin(name, size), name.as_bytes(), out)
            }
            Command::Rect { id, size, groups } => {
                report(self.push_rect(id, size, groups), id.as_bytes(), out)
            }
            Command::Exclude { one, other } => {
                report(self.exclude(one, other), one.as_bytes(), out)
            }
            Command::Pack => self.pack(out),
            Command::Release(number) => {
                let digits = Digits::new(u128::from(number));
                report(self.release(number), digits.as_bytes(), out)
            }
            Command::Sections { name } => self.print_sections(name, out),
            Command::Coalesce { name, idx, range } => {
                report(self.coalesce(name, idx, range), name.as_bytes(), out)
            }
            Command::Sweep { name } => report(self.sweep(name), name.as_bytes(), out),
            Command::Stats { name } => self.print_stats(name, out),
        }
    }

    fn add_bin(&mut self, name: &str, size: Size) -> Result<(), SessionError>
        // The session goes on as `Session::add_bin` says, and the boxes to place stay; or memory is
        //   refused, and nothing is changed. [add_bin.sides_change_places]
        ensures added { UnlessNoMemory (ChangesSession (AddsBin name_cmp name.now (size_of size)))
            self.old result self.new }
    {
        let name = Word::new(self.alloc, name)?;
        self.session
            .add_bin(name, size.width, size.height, size.depth)
    }

    // Takes in a box, which is in the groups of these names, or alone.
    fn push_rect(
        &mut self,
        id: &str,
        size: Size,
        groups: SplitAsciiWhitespace<'_>,
    ) -> Result<(), SessionError>
        // The boxes to place go on as `GroupedRectsToPlace::push_rect` says, and the session stays.
        //   Where memory is refused, nothing is changed.
        ensures pushed { let named = groups_of (words_left groups.entry) in
            ChangesBoxes (TakesBox id.now (size_of size) named) self.old result self.new }
    {
        let id = Word::new(self.alloc, id)?;
        let named = named_groups(self.alloc, groups)?;
        let rect = RectToInsert::new(size.width, size.height, size.depth);
        self.rects.push_rect(id, named, rect)?;
        // Proof hint: groups are sorted and unique.
        let _ = self.rects.groups();
        Ok(())
    }

    // Keeps the two groups out of one bin.
    fn exclude(&mut self, one: &str, other: &str) -> Result<(), SessionError>
        // The two groups are not equal.
        requires different { one.now ≢ other.now }
        // The boxes to place go on as `GroupedRectsToPlace::exclude` says, and the session stays.
        //   Where memory is refused, nothing is changed. [exclude.box_alone_is_excluded]
        ensures excluded { ChangesBoxes
            (λ old new. Excludes group_order old new (Grouped one.now) (Grouped other.now))
            self.old result self.new }
    {
        let one = Group::Grouped(Word::new(self.alloc, one)?);
        let other = Group::Grouped(Word::new(self.alloc, other)?);
        Ok(self.rects.exclude(one, other)?)
    }

    // Places the boxes, and prints the answer. Boxes are kept where they are refused, so that a bin
    // can be added and the packing tried again.
    fn pack<W: Write>(&mut self, out: &mut W) -> Result<(), Stop>
        // The boxes are packed as `Session::pack` does it by volume and `contains_smallest_box`,
        //   and are forgotten where that is done; else they are kept. [pack.wide_boxes_go_first,
        //   pack.refused_boxes_are_forgotten, forget_rects.boxes_are_kept]
        // The packing is as promised.
        // What it placed is printed, or why it was refused; nothing where memory was.
        ensures packed { IsPackObeyed self.old (W.contents out.old) result self.new
            (W.contents out.new) }
    {
        let packed = self
            .session
            .pack(&self.rects, &volume_heuristic, &contains_smallest_box);
        match packed {
            Ok(packed) => {
                self.forget_rects();
                print_packed(self.last_placements(packed.count), out)
            }
            Err(error) => refuse(error, b"", out),
        }
    }

    fn forget_rects(&mut self)
        ensures session { self.new.session ≡ self.old.session }
        ensures boxes { self.new.boxes ≡ no_boxes }
    {
        self.rects = GroupedRectsToPlace::new(self.alloc);
    }

    // The last `count` placements, as which a packing left those that it made.
    fn last_placements(&self, count: u64) -> &[Outstanding<Word<A>, Word<A>>]
        // As many are asked for as are outstanding, or fewer.
        requires { count ≤ length self.now.session.outstanding }
        // The last placements, as many as are asked for. [last_placements.first_ones]
        ensures { let placements = self.now.session.outstanding in
            result.now ≡ drop (length placements - count) placements }
    {
        let placements = self.session.outstanding();
        &placements[placements.len() - count as usize..]
    }

    fn release(&mut self, number: u64) -> Result<(), SessionError>
        // The session goes on as `Session::release` says, and the boxes to place stay.
        ensures released { ChangesSession (Releases name_cmp number) self.old result self.new }
    {
        self.session.release(number)
    }

    fn coalesce(&mut self, name: &str, idx: usize, range: Range<usize>) -> Result<(), SessionError>
        // The session goes on as `Session::coalesce` says, and the boxes to place stay; or memory
        //   is refused, and nothing is changed.
        ensures joined { let joins = IsJoined idx range.start range.end in
            UnlessNoMemory (ChangesSession (Coalesces name_cmp joins name.now))
            self.old result self.new }
    {
        let bin = Word::new(self.alloc, name)?;
        self.session.coalesce(&bin, idx, range)
    }

    fn sweep(&mut self, name: &str) -> Result<(), SessionError>
        // The session goes on as `Session::coalesce_all` says, and the boxes to place stay; or
        //   memory is refused, and nothing is changed.
        ensures swept { UnlessNoMemory (ChangesSession (Coalesces name_cmp IsSwept name.now))
            self.old result self.new }
    {
        let bin = Word::new(self.alloc, name)?;
        self.session.coalesce_all(&bin)
    }

    // What is free in the bin.
    fn sections(&self, bin: &Word<A>) -> Option<&[BinSection]>
        ensures { option_copied result ≡ sections_in self.now.session bin.now }
    {
        let bin = self.session.bins().get(bin)?;
        Some(bin.available_bin_sections().as_slice())
    }

    fn print_sections<W: Write>(&self, name: &str, out: &mut W) -> Result<(), Stop>
        ensures { IsObeyed (asks.Sections name.now) self.now (W.contents out.old) result self.now
            (W.contents out.new) }
    {
        let bin = Word::new(self.alloc, name)?;
        match self.sections(&bin) {
            Some(sections) => print_list(sections, out),
            None => refuse(SessionError::UnknownBin, name.as_bytes(), out),
        }
    }

    fn print_stats<W: Write>(&self, name: &str, out: &mut W) -> Result<(), Stop>
        ensures { IsObeyed (asks.Stats name.now) self.now (W.contents out.old) result self.now
            (W.contents out.new) }
    {
        let bin = Word::new(self.alloc, name)?;
        let Some(stats) = self.session.stats(&bin) else {
            return refuse(SessionError::UnknownBin, name.as_bytes(), out);
        };
        print_sums(stats, out)
    }
}

// The groups that the words name, or none where there is no word.
fn named_groups<A: Allocator + Copy>(
    alloc: A,
    groups: SplitAsciiWhitespace<'_>,
) -> Result<Option<Vec<Word<A>, A>>, AllocError>
    ensures some { IfOk result (λ found. ForSome found (λ named. 0 < vec_len named)) }
    ensures names { IfOk result (λ found.
        option_map (λ named. named.items) found ≡ groups_of (words_left groups.entry)) }
{
    let mut named = Vec::new(alloc);
    push_words(&mut named, alloc, groups)?;
    Ok(if named.is_empty() { None } else { Some(named) })
}
