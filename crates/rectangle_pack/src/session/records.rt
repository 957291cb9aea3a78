//! A list whose items go at little cost from either end.
ghost use Rattle.std.specs.Prelude.{◌≡◌, ◌+◌, ◌<◌, ◌≤◌, ◌++◌, ◌∷◌, [], length, drop, OnOk};
ghost use Rattle.std.specs.Fn.{CalledAt};
ghost use Rattle.std.specs.List.{remove};
ghost use Rattle.std.specs.List.Retain.{IsFiltered};

use std::alloc::{AllocError, Allocator};
use std::marker::Model;

// An ordered list. An item that goes near the front is moved there, and is kept with those that
// went before it, as gone. No more are gone than are left; where they would be, all that are gone
// are dropped at once. So an item at either end goes by a constant number of moves, on average, and
// one in between by the moves of the shorter side besides.
#[derive(Drop)]
pub(crate) struct Records<T, A: Allocator> {
    all: Vec<T, A>,
    // How many at the front are gone.
    gone: usize,
}

impl<T, A: Allocator> Model for Records<T, A> {
    ghost use Rattle.std.specs.Prelude.{◌+◌, ◌-◌, ◌≤◌, drop, vec_len};
    ghost use Rattle.std.specs.Vec.{vec_capacity};
    ghost use Rattle.rectangle_pack.specs.private.Records.{Roomy};

    ghost Value = { Roomy T };

    ghost view = { λ r. record {
      items = drop r.gone r.all.items;
      spare = vec_capacity r.all - vec_len r.all;
    } };

    ghost invariant = { λ r. r.gone + r.gone ≤ vec_len r.all };
}

impl<T: Drop, A: Allocator> Records<T, A> {
    pub(crate) fn new(alloc: A) -> Self
        ensures items { result.items ≡ [] }
    {
        Records {
            all: Vec::new(alloc),
            gone: 0,
        }
    }

    // The items of this list.
    pub(crate) fn of(all: Vec<T, A>) -> Self
        ensures items { result.items ≡ all.items }
    {
        Records { all, gone: 0 }
    }

    // The items, as a list of their own.
    pub(crate) fn into_items(self) -> Vec<T, A>
        ensures items { result.items ≡ self.items }
    {
        let Records { mut all, gone } = self;
        all.drain(..gone);
        all
    }

    pub(crate) fn allocator(&self) -> &A {
        self.all.allocator()
    }

    pub(crate) fn as_slice(&self) -> &[T]
        ensures value { result.now ≡ self.now.items }
    {
        &self.all.as_slice()[self.gone..]
    }

    // Makes room for `additional` more. Fails only when memory is refused, and leaves the list.
    pub(crate) fn reserve(&mut self, additional: usize) -> Result<(), AllocError>
        ensures items { self.new.items ≡ self.old.items }
        ensures ok { OnOk result (additional ≤ self.new.spare) }
    {
        let room = self.all.capacity() - self.all.len();
        if room < additional && self.gone > self.all.len() / 3 {
            self.all.drain(..self.gone);
            self.gone = 0;
        }
        self.all.reserve(additional)
    }

    // Puts an item at the end, in the room that is there.
    pub(crate) fn push_reserved(&mut self, item: T)
        requires { 0 < self.old.spare }
        ensures items { self.new.items ≡ self.old.items ++ item ∷ [] }
        ensures room { self.old.spare ≤ self.new.spare + 1 }
    {
        self.all.push_reserved(item);
    }

    // Takes the item at the index out of the list. It is dropped now or later.
    pub(crate) fn remove(&mut self, index: usize)
        requires { index < length self.old.items }
        ensures items { self.new.items ≡ remove self.old.items index }
    {
        let left = self.all.len() - self.gone - 1;
        if index < left - index {
            move_to_front(&mut self.all.as_mut_slice()[self.gone..], index);
            self.gone += 1;
        } else {
            self.all.remove(self.gone + index);
        }
        if self.gone > left {
            self.all.drain(..self.gone);
            self.gone = 0;
        }
    }

    // Keeps the items of which `keep` answers true, in their order. The others are dropped.
    pub(crate) fn retain<F: FnMut(&T) -> bool>(&mut self, keep: F)
        requires callable { F.IsAlwaysCallable keep }
        ensures filtered { IsFiltered (CalledAt F.FnMut) keep self.old.items self.new.items }
    {
        self.all.drain(..self.gone);
        self.gone = 0;
        self.all.retain(keep);
    }
}

// Moves the item at the index to the front, and those before it behind it.
fn move_to_front<T>(items: &mut [T], index: usize)
    requires { index < length items.old }
    ensures rest { drop 1 items.new ≡ remove items.old index }
    ensures len { length items.new ≡ length items.old }
{
    items[..index + 1].rotate_right(1);
}
