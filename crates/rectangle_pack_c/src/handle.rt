//! The handles by which C holds a session, and a search.
ghost use Rattle.std.specs.Prelude.{◌≡◌, ℕ, Option, None, Some, IsSome};
ghost use Rattle.std.specs.Box.Ownership.{box_owns};
ghost use Rattle.rectangle_pack.specs.Session.{State};
ghost use Rattle.rectangle_pack_c.specs.Handle.{holds, holds_search, search_row};

use rectangle_pack::{Search, Session};
use std::alloc::{Allocator, Global};
use std::marker::Model;
use std::mem::replace;
use std::ptr::null_mut;

/// A session, or nothing where the pointer is null.
// It is dropped only where it has no session: what `also_owns` says is not freed with it.
#[repr(C)]
#[derive(Drop)]
pub struct RpSession {
    at: *mut u8,
    alloc: Global,
    pub ghost state: { Option (State ℕ ℕ) },
}

impl Model for RpSession {
    ghost use Rattle.rectangle_pack_c.specs.Handle.{holds};

    ghost also_owns = { λ handle. holds handle.alloc handle.at handle.state };
}

// It may go to another thread. Without its proof this says nothing, so a test asks for that.
unsafe impl Send for RpSession {}

impl RpSession {
    // The handle that holds nothing.
    pub(crate) fn none(alloc: Global) -> Self
        ensures { result.state ≡ None }
    {
        RpSession {
            at: null_mut(),
            alloc,
        }
    }

    // The handle of a session.
    pub(crate) fn of(session: Box<Session<u32, u32>>) -> Self
        ensures { result.state ≡ Some session.value }
    {
        RpSession::shut(Unboxed::of(session))
    }

    // The session of a handle.
    pub(crate) fn into_box(self) -> Box<Session<u32, u32>>
        requires { IsSome self.state }
        ensures { self.state ≡ Some result.value }
    {
        self.open().into_box()
    }

    // The session is taken out of its handle.
    pub(crate) fn take(&mut self, alloc: Global) -> Box<Session<u32, u32>>
        requires { IsSome self.old.state }
        ensures taken { self.old.state ≡ Some result.value }
        ensures left { self.new.state ≡ None }
    {
        replace(self, RpSession::none(alloc)).into_box()
    }

    fn shut(session: Unboxed<Session<u32, u32>, Global>) -> Self
        ensures { result.state ≡ Some session.value }
    {
        let Unboxed { at, alloc } = session;
        RpSession {
            at: at as *mut u8,
            alloc,
        }
    }

    fn open(self) -> Unboxed<Session<u32, u32>, Global>
        requires { IsSome self.state }
        ensures { self.state ≡ Some result.value }
    {
        let RpSession { at, alloc } = self;
        Unboxed {
            at: at as *mut Session<u32, u32>,
            alloc,
        }
    }
}

/// A search, or nothing where the pointer is null.
// It is dropped only where it has no search, as the handle of a session.
#[repr(C)]
#[derive(Drop)]
pub struct RpSearch {
    at: *mut u8,
    alloc: Global,
    pub ghost state: { Option search_row.Denot },
}

impl Model for RpSearch {
    ghost use Rattle.rectangle_pack_c.specs.Handle.{holds_search};

    ghost also_owns = { λ handle. holds_search handle.alloc handle.at handle.state };
}

// It may go to another thread. Without its proof this says nothing, so a test asks for that.
unsafe impl Send for RpSearch {}

impl RpSearch {
    // The handle that holds nothing.
    pub(crate) fn none(alloc: Global) -> Self
        ensures { result.state ≡ None }
    {
        RpSearch {
            at: null_mut(),
            alloc,
        }
    }

    // The handle of a search.
    pub(crate) fn of(search: Box<Search>) -> Self
        ensures { result.state ≡ Some search.value }
    {
        RpSearch::shut(Unboxed::of(search))
    }

    // The search of a handle.
    pub(crate) fn into_box(self) -> Box<Search>
        requires { IsSome self.state }
        ensures { self.state ≡ Some result.value }
    {
        self.open().into_box()
    }

    // The search is taken out of its handle.
    pub(crate) fn take(&mut self, alloc: Global) -> Box<Search>
        requires { IsSome self.old.state }
        ensures taken { self.old.state ≡ Some result.value }
        ensures left { self.new.state ≡ None }
    {
        replace(self, RpSearch::none(alloc)).into_box()
    }

    fn shut(search: Unboxed<Search, Global>) -> Self
        ensures { result.state ≡ Some search.value }
    {
        let Unboxed { at, alloc } = search;
        RpSearch {
            at: at as *mut u8,
            alloc,
        }
    }

    fn open(self) -> Unboxed<Search, Global>
        requires { IsSome self.state }
        ensures { self.state ≡ Some result.value }
    {
        let RpSearch { at, alloc } = self;
        Unboxed {
            at: at as *mut Search,
            alloc,
        }
    }
}

// A box as its pointer, with the right to what is there.
struct Unboxed<T, A: Allocator> {
    at: *mut T,
    alloc: A,
    ghost value: { T },
}

impl<T, A: Allocator> Model for Unboxed<T, A> {
    ghost also_owns = { λ u. box_owns (A.dealloc_token u.alloc) T.row u.at u.value };
}

impl<T: Drop, A: Allocator> Unboxed<T, A> {
    fn of(owner: Box<T, A>) -> Self
        ensures { result.value ≡ owner.value }
    {
        let (at, alloc) = Box::into_raw_with_allocator(owner);
        Unboxed { at, alloc }
    }

    fn into_box(self) -> Box<T, A>
        ensures { result.value ≡ self.value }
    {
        let Unboxed { at, alloc } = self;
        unsafe { Box::from_raw(alloc, at) }
    }
}
