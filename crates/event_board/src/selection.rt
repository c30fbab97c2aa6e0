//! The next row after a cursor.

ghost use Rattle.std.specs.Prelude.{◌≡◌, None, option_map};
ghost use Rattle.status_rules.specs.Fetch.{is_after, is_left};
ghost use Rattle.event_board.specs.inner.Rows.{is_before, nearer, nearest, row, rows};

use crate::page::{PlacedRow, cursor_at};
use status_rules::Cursor;

/// Whether a row comes after a cursor: it was altered later, or at the same place and has a greater number.
fn is_after(cursor: Cursor, of: PlacedRow) -> bool
    ensures { result ≡ is_after cursor (row of) }
{
    match cursor {
        Cursor::Start => true,
        Cursor::After { place, prop } => {
            place < of.changed || (place == of.changed && prop < of.status.prop.0)
        }
    }
}

/// Whether the best row so far comes after another; so does none.
fn is_before(of: PlacedRow, best: Option<PlacedRow>) -> bool
    ensures { result ≡ is_before (row of) (option_map row best) }
{
    match best {
        Some(other) => is_after(cursor_at(of), other),
        None => true,
    }
}

/// Of a row and the best one so far the first after a cursor.
fn nearer(cursor: Cursor, best: Option<PlacedRow>, of: PlacedRow) -> Option<PlacedRow>
    ensures { option_map row result ≡ nearer cursor (option_map row best) (row of) }
{
    if is_after(cursor, of) && is_before(of, best) {
        Some(of)
    } else {
        best
    }
}

/// The first of these rows after a cursor.
pub(crate) fn next_after(table: &[PlacedRow], cursor: Cursor) -> Option<PlacedRow>
    ensures { option_map row result ≡ nearest cursor None (rows table.now) }
{
    let mut best = None;
    for found in table {
        best = nearer(cursor, best, *found);
    }
    best
}

/// Whether one of these rows comes after a cursor.
pub(crate) fn is_left(table: &[PlacedRow], cursor: Cursor) -> bool
    ensures { result ≡ is_left (rows table.now) cursor }
{
    for found in table {
        if is_after(cursor, *found) {
            return true;
        }
    }
    false
}
