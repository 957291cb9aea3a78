//! Lists of marks, one for each number.
ghost use Rattle.std.specs.Prelude.{◌≡◌, length, All, IfOk};

use std::alloc::{AllocError, Allocator};

// So many times the same mark.
pub(crate) fn marks<T: Copy, A: Allocator>(
    alloc: A,
    mark: T,
    count: usize,
) -> Result<Vec<T, A>, AllocError>
    ensures { IfOk result
        (λ marks. (length marks.items ≡ count) × All (λ m. m ≡ mark) marks.items) }
{
    let mut marks = Vec::new(alloc);
    for _ in 0..count {
        marks.push(mark)?;
    }
    Ok(marks)
}
