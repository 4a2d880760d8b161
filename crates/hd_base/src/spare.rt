//! Lists without spare room.
ghost use Rattle.std.specs.Prelude.{◌≡◌, IfOk};

use std::alloc::{AllocError, Global};

/// How many items a list has at least that is made smaller where it lies.
const MANY: usize = 16;

/// Returns the same items in a new `Vec` that has no room for more.
fn moved<T: Drop>(alloc: Global, items: Vec<T>) -> Result<Vec<T>, AllocError>
    ensures { IfOk result (λ v. v.items ≡ items.items) }
{
    let mut exact = Vec::with_capacity(alloc, items.len())?;
    for item in items {
        exact.push(item)?;
    }
    Ok(exact)
}

/// Returns the same items in a `Vec` that has no room for more. Few items are moved, so that the
/// room that they leave is whole and can be taken again: what is cut off of it would be too small
/// for most lists.
///
/// # Errors
/// - Lack of memory.
pub fn exact<T: Drop>(alloc: Global, items: Vec<T>) -> Result<Vec<T>, AllocError>
    ensures { IfOk result (λ v. v.items ≡ items.items) }
{
    if items.len() < MANY {
        moved(alloc, items)
    } else {
        let mut items = items;
        items.shrink_to_fit();
        Ok(items)
    }
}
