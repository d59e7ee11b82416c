//! Lists with room, and one more item of a list.

ghost use Rattle.std.specs.Prelude.{◌≡◌, ◌++◌, ◌∷◌, [], OnOk};

use std::alloc::{AllocError, Global};

/// Pushes one more item. The contract says the whole list, where a `push` in the midst of a longer body leaves a goal at each place.
pub(crate) fn push<T: Drop>(list: &mut Vec<T>, item: T) -> Result<(), AllocError>
    ensures { OnOk result (list.new.items ≡ list.old.items ++ item ∷ []) }
{
    list.push(item)?;
    Ok(())
}

/// Returns a list of nothing, with room for `count` items if that may be had at once.
pub(crate) fn list_for<T: Drop>(alloc: Global, count: usize) -> Vec<T>
    ensures { result.items ≡ [] }
{
    match Vec::with_capacity(alloc, count) {
        Ok(list) => list,
        Err(_) => Vec::new(alloc),
    }
}
