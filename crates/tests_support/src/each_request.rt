//! Runs in which each request for memory is refused in turn.

use super::refusing::Refusing;
use std::alloc::{AllocError, Global};
use std::test::Fail;

/// What came of a run: a request was refused before the call in question, or in that call, or none
/// was.
#[derive(Clone, Copy, Debug, PartialEq, Eq, Drop)]
pub enum End {
    Before,
    Refused,
    Done,
}

/// The allocator of a run. It is a trait, since no call of a closure that takes a `Refusing` itself
/// is proved: that holds a `'static` reference.
pub trait Refuser: Copy {
    fn new(inner: Global, left: u64) -> Result<Self, AllocError>;

    fn taken(&self) -> u64;

    fn refused(&self) -> u64;
}

impl Refuser for Refusing {
    fn new(inner: Global, left: u64) -> Result<Refusing, AllocError> {
        Refusing::new(inner, left)
    }

    fn taken(&self) -> u64 {
        Refusing::taken(self)
    }

    fn refused(&self) -> u64 {
        Refusing::refused(self)
    }
}

fn check(is_so: bool, otherwise: &'static str) -> Result<(), Fail> {
    if is_so {
        Ok(())
    } else {
        Err(Fail::new(otherwise))
    }
}

/// Runs with each request refused in turn, until none is, and answers whether some were refused in
/// the call in question. Each run gives back all that it takes, and is done where no request was
/// refused, and only there. `A` is `Refusing`.
pub fn is_refused<A: Refuser, F>(alloc: Global, run: F) -> Result<bool, Fail>
where
    F: Fn(A) -> Result<End, Fail>,
    requires { F.IsAlwaysCallable run }
{
    let mut refused = false;
    for granted in 0..1000u64 {
        let Ok(refusing) = A::new(alloc, granted) else {
            return Err(Fail::new("there is no memory for the counts"));
        };
        let end = run(refusing)?;
        check(refusing.taken() == 0, "memory was not given back")?;
        let was_refused = refusing.refused() > 0;
        check(
            was_refused != (end == End::Done),
            "a refusal was answered wrongly",
        )?;
        match end {
            End::Before => {}
            End::Refused => refused = true,
            End::Done => return Ok(refused),
        }
    }
    Err(Fail::new("requests were refused to the end"))
}
