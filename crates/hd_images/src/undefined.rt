//! Fluents without a first value.
ghost use Rattle.std.specs.Prelude.{◌≡◌, find, IfOk};
ghost use Rattle.hd_lifted.specs.Questions.{is_undefined};

use crate::Forms;
use hd_base::NoMemory;
use hd_judge::{Lookups, copy_of};
use hd_lifted::Ground;
use std::alloc::Global;

/// Reports whether a fluent has no first value.
fn is_undefined(lookups: &Lookups<'_>, fluent: &Ground) -> bool
    ensures { result ≡ is_undefined lookups.now fluent.now }
{
    lookups.first_value_of(fluent).is_none()
}

/// Returns the first of these fluents that has no first value, if there is one.
///
/// # Errors
/// - Lack of memory.
pub fn first_undefined(
    alloc: Global,
    lookups: &Lookups<'_>,
    fluents: &Forms,
) -> Result<Option<Ground>, NoMemory>
    ensures { IfOk result (λ g. g ≡ find (is_undefined lookups.now) fluents.now) }
{
    for fluent in fluents.as_slice() {
        if is_undefined(lookups, fluent) {
            return Ok(Some(copy_of(alloc, fluent)?));
        }
    }
    Ok(None)
}
