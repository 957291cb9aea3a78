//! What stops a run, which errors of std stand for it, and the exit status of each end.
ghost use Rattle.std.specs.Prelude.{◌≡◌};
ghost use Rattle.packrun_lines.specs.Ends.{status_of};
ghost use Rattle.packrun_lines.specs.declared.stop.Stop.TheVariants.{NoMemory, IoFailed};

use std::alloc::{AllocError, AllocFailed};
use std::io;

/// Why a run ends before its input does.
#[derive(Clone, Copy, Debug, PartialEq, Eq, Drop)]
pub enum Stop {
    /// The line with this number, counted from 1, is bad. It was not done, and neither was any line
    /// after it.
    BadLine(u64),
    /// Memory was refused. What earlier lines printed stands.
    NoMemory,
    /// A read or a write failed, or the input has more than 2^64 - 1 bytes. What was printed before
    /// stands.
    IoFailed,
}

impl From<AllocError> for Stop {
    ghost from_gives = { λ _ stop. stop ≡ NoMemory };

    fn from(_error: AllocError) -> Stop {
        Stop::NoMemory
    }
}

impl<T: Drop> From<AllocFailed<T>> for Stop {
    ghost from_gives = { λ _ stop. stop ≡ NoMemory };

    fn from(_error: AllocFailed<T>) -> Stop {
        Stop::NoMemory
    }
}

// What a reader or a writer answers. A buffer that could not be made is told apart where it is
// made.
impl From<io::Error> for Stop {
    ghost from_gives = { λ _ stop. stop ≡ IoFailed };

    fn from(_error: io::Error) -> Stop {
        Stop::IoFailed
    }
}

/// The exit status of a run that ended so.
pub fn status(ended: Result<(), Stop>) -> u8
    // The exit status is 0 at the end of the input, 2 after a bad line, 3 where memory was wanted,
    //   1 where a read or a write failed. [status.no_memory_ends_as_failed_read]
    ensures { result ≡ status_of ended }
{
    match ended {
        Ok(()) => 0,
        Err(Stop::BadLine(_)) => 2,
        Err(Stop::NoMemory) => 3,
        Err(Stop::IoFailed) => 1,
    }
}
