//! Cells at a place that may be unreached.

ghost use Rattle.std.specs.Prelude.{◌≡◌, IfOk};
ghost use Rattle.std.specs.Option.{option_copied};
ghost use Rattle.abs_cells.specs.Cells.{included_env, join_env};

use crate::cells::Cells;
use std::alloc::{AllocError, Global};

/// The cells of both places joined; those of one where the other is unreached. Fails only for want of memory.
pub fn join(
    alloc: Global,
    left: Option<&Cells>,
    right: Option<&Cells>,
) -> Result<Option<Cells>, AllocError>
    ensures { IfOk result (λ e. e ≡ join_env (option_copied left.entry) (option_copied right.entry)) }
{
    match (left, right) {
        (None, None) => Ok(None),
        (Some(cells), None) | (None, Some(cells)) => Ok(Some(cells.copy(alloc)?)),
        (Some(left), Some(right)) => Ok(Some(left.join(alloc, right)?)),
    }
}

/// Whether the first place is unreached, or both are reached and the first cells are included in the second ones.
pub fn included(left: Option<&Cells>, right: Option<&Cells>) -> bool
    ensures { result ≡ included_env (option_copied left.entry) (option_copied right.entry) }
{
    match (left, right) {
        (None, _) => true,
        (Some(_), None) => false,
        (Some(left), Some(right)) => left.included(right),
    }
}
