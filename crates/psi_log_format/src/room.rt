//! The growth of long lists.

ghost use Rattle.std.specs.Prelude.{◌≡◌, ◌+◌, ◌≤◌, vec_len, vec_capacity, OnOk};

use std::alloc::AllocError;

// How many elements a list that grows gets room for at least.
const LEAST: usize = 4;

/// Makes space for `count` more elements. Where there isn't enough, the list grows by an eighth at least: of a long
/// list that doubles up to half might stay unused.
///
/// # Errors
///
/// `AllocError` if an allocation fails; the elements are as they were in either case.
pub(crate) fn make_room<T>(elements: &mut Vec<T>, count: usize) -> Result<(), AllocError>
    ensures elements { elements.new.items ≡ elements.old.items }
    ensures room { OnOk result (vec_len elements.new + count ≤ vec_capacity elements.new) }
{
    let capacity = elements.capacity();
    if count <= capacity - elements.len() {
        return Ok(());
    }
    elements.reserve_exact(count.max(LEAST).max(capacity / 8))
}
