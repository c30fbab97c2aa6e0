//! The entries that count, by property.

ghost use Rattle.std.specs.Prelude.{◌≡◌, IfOk};
ghost use Rattle.status_rules.specs.Counting.{counted_of};
ghost use Rattle.status_rules.specs.Holds.{by_prop};
ghost use Rattle.status_rules.specs.inner.ByProp.{entries_in};

use crate::by_prop::last_by_prop;
use crate::counting::{CountedEntry, current};
use c_ir::PropTable;
use status_history::History;
use std::alloc::{AllocError, Global};

/// For each property of a table, by its number, the entries of a history on it that count.
#[tactic(auto, unfolding(crate::specs::Counting::counted_of))]
pub fn counted_by_prop<'h>(
    alloc: Global,
    history: &'h History,
    props: &PropTable,
) -> Result<Vec<Vec<CountedEntry<'h>>>, AllocError>
    ensures { IfOk result (λ lists. entries_in lists ≡ by_prop (counted_of history.now) props.now.rows) }
{
    let current = current(alloc, history)?;
    last_by_prop(alloc, &current, props.rows())
}
