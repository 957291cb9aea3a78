//! Runs of commands over a session.
ghost use Rattle.std.specs.Prelude.{◌≡◌};
ghost use Rattle.rectangle_pack_sections.specs.Clones.{ClonesEqual};
ghost use Rattle.rectangle_pack_sections.specs.Boxes.{Size};
ghost use Rattle.rectangle_pack_sections.specs.Closures.{AreCallable, answers};
ghost use Rattle.rectangle_pack_packing.specs.Packing.{rules_by};
ghost use Rattle.rectangle_pack.specs.Promise.{IsRunAnswer};
ghost use Rattle.rectangle_pack.specs.Session.{IsSession, AddsBin, IsTransition, packed_reply, reply_of};

use crate::session::Session;
use crate::session::command::{Command, Packed, Reply, SessionError};
use rectangle_pack_sections::closures::{Closures, Policy};
use rectangle_pack_sections::group::Group;
use rectangle_pack_sections::width_height_depth::WidthHeightDepth;
use std::alloc::{AllocError, Allocator};
use std::cmp::Ordering;

impl<Id, BinId, A> Session<Id, BinId, A>
where
    Id: Ord + Clone + Drop,
    BinId: Ord + Clone + Drop,
    A: Allocator + Copy,
{
    /// Obeys the commands in order: each is done or refused as the call of its name does, and a
    /// refused one changes nothing. There is one reply a command, in their order. A bin is added
    /// under a clone of the command's id.
    ///
    /// After any commands, whatever closures answer and wherever memory is refused, each bin cell
    /// lies in exactly one free section or outstanding placement, leaves of a straight-cut tree
    /// until that bin is coalesced; each kept packing places every group entry once, in its size,
    /// each group in one bin; space is refused only where, for some group, each bin is excluded or
    /// its trial gets stuck there.
    ///
    /// The conditions are those of `pack`. Fails only when memory for the replies is refused; then
    /// no command was done.
    pub fn run<GroupId, H, C>(
        &mut self,
        commands: &[Command<Id, BinId, GroupId, A>],
        heuristic: &H,
        comparison: &C,
    ) -> Result<Vec<Reply, A>, AllocError>
    where
        GroupId: Ord + Clone + Drop,
        H: Fn(WidthHeightDepth) -> u128,
        C: Fn([WidthHeightDepth; 3], [WidthHeightDepth; 3], &H) -> Ordering,
        requires ids { ClonesEqual Id.is_clone Id.eq }
        requires bin_ids { ClonesEqual BinId.is_clone BinId.eq }
        requires callable { AreCallable H.Fn C.Fn heuristic.now comparison.now }
        // There is one reply for each command, in their order. Each reply and what the command
        //   makes of the session are as the call of its name says: `added`, `packed`, `released`,
        //   `joined` or `swept`. [run.stops_at_the_first_refusal]
        // After each command what always holds of a session holds.
        //   [give_back.no_section_is_given_back]
        // Each packing keeps what the clause `promise` of `Session::pack` says.
        //   [place_group.one_bin_only_is_tried]
        // An error leaves the session as it was.
        ensures promise { let order = ⟦<Group<GroupId, Id> as Ord>⟧.cmp in
            let may = answers H.Fn C.Fn heuristic.now comparison.now in
            let rules = rules_by Id.cmp BinId.cmp may in
            IsRunAnswer order rules commands.now self.old result self.new }
        // What always holds of a session holds afterwards. [give_back.no_section_is_given_back]
        ensures always { IsSession BinId.cmp self.new }
    {
        let policy = Closures {
            heuristic,
            comparison,
        };
        let mut replies = Vec::with_capacity(*self.outstanding.allocator(), commands.len())?;
        for command in commands {
            replies.push_reserved(self.obey(command, &policy));
        }
        Ok(replies)
    }

    fn obey<GroupId, R>(&mut self, command: &Command<Id, BinId, GroupId, A>, policy: &R) -> Reply
    where
        GroupId: Ord + Clone + Drop,
        R: Policy,
        requires ids { ClonesEqual Id.is_clone Id.eq }
        requires bin_ids { ClonesEqual BinId.is_clone BinId.eq }
        requires callable { R.is_callable policy.now }
        ensures { let order = ⟦<Group<GroupId, Id> as Ord>⟧.cmp in
            IsTransition order (rules_by Id.cmp BinId.cmp (R.may policy.now)) command.now
            self.old result self.new }
    {
        match command {
            Command::AddBin {
                id,
                width,
                height,
                depth,
            } => reply(self.add_clone(id, *width, *height, *depth)),
            Command::Pack(groups) => packed_reply(self.pack_by(groups, policy)),
            Command::Release(number) => reply(self.release(*number)),
            Command::Coalesce { bin, idx, lo, hi } => reply(self.coalesce(bin, *idx, *lo..*hi)),
            Command::CoalesceAll(bin) => reply(self.coalesce_all(bin)),
        }
    }

    // Adds a bin under a clone of the id, which is made for a new id alone.
    fn add_clone(
        &mut self,
        id: &BinId,
        width: u32,
        height: u32,
        depth: u32,
    ) -> Result<(), SessionError>
        requires { ClonesEqual BinId.is_clone BinId.eq }
        ensures { let size : Size = record { width = width; height = height; depth = depth } in
            AddsBin BinId.cmp id.now size self.old (reply_of result) self.new }
    {
        if self.bins.contains_key(id) {
            return Err(SessionError::DuplicateBin);
        }
        self.add_bin(id.clone()?, width, height, depth)
    }
}

// The reply to a call that answers nothing.
fn reply(answer: Result<(), SessionError>) -> Reply
    ensures { result ≡ reply_of answer }
{
    match answer {
        Ok(()) => Reply::Done,
        Err(error) => Reply::Refused(error),
    }
}

// The reply to a packing.
fn packed_reply(answer: Result<Packed, SessionError>) -> Reply
    ensures { result ≡ packed_reply answer }
{
    match answer {
        Ok(packed) => Reply::Packed(packed),
        Err(error) => Reply::Refused(error),
    }
}
