//! What a fetch gives of rows, each with the place of the last change that altered it.

ghost use Rattle.std.specs.Prelude.{◌≡◌, ◌≤◌, IfOk, OnOk, if◌then◌else◌, map, length, true};
ghost use Rattle.status_rules.specs.Fetch.{IsGiven, IsPage, cursor_at, is_left, last_cursor};
ghost use Rattle.event_board.specs.Numbered.{row_at, rows_from};
ghost use Rattle.event_board.specs.inner.Rows.{IsOnce, row, rows, with_next};
ghost use Rattle.status_rules.specs.declared.questions.Cursor.TheVariants.{After};

use crate::selection::{is_left, next_after};
use fc_base::{PropId, Verdict};
use sqlite_items::Items;
use status_rules::{Cursor, Fetched, StatusRow, StatusRows};
use std::alloc::{AllocError, Global};

/// A verdict and the place of the last change that altered it; 0 stands for none.
#[derive(Clone, Copy, Debug)]
pub struct PlacedVerdict {
    pub verdict: Verdict,
    pub changed: u32,
}

/// A property with its verdict and the place of the last change that altered it.
#[derive(Clone, Copy, Debug)]
pub(crate) struct PlacedRow {
    pub(crate) status: StatusRow,
    pub(crate) changed: u32,
}

/// The first rows after a cursor, at most `limit`, ordered by the place of their last change and then by number, of a
/// history of `len` changes. The rows are those of the properties from number 0 on.
pub fn fetched(
    alloc: Global,
    verdicts: &[PlacedVerdict],
    len: u32,
    cursor: Cursor,
    limit: u32,
) -> Result<Fetched, AllocError>
    requires { length verdicts.now ≤ 65536 }
    ensures { IfOk result (λ fetched. IsPage (rows_from 0 verdicts.now) len cursor limit fetched) }
{
    let table = numbered(alloc, verdicts)?;
    page(alloc, &table, len, cursor, limit)
}

/// The rows with these verdicts.
fn numbered(alloc: Global, verdicts: &[PlacedVerdict]) -> Result<Vec<PlacedRow>, AllocError>
    requires { length verdicts.now ≤ 65536 }
    ensures { IfOk result (λ table. rows table.items ≡ rows_from 0 verdicts.now) }
{
    let mut table = Vec::new(alloc);
    for (place, found) in verdicts.iter().enumerate() {
        let prop = PropId(place as u32);
        table.push(numbered_row(prop, *found))?;
    }
    Ok(table)
}

/// The row of a property.
fn numbered_row(prop: PropId, found: PlacedVerdict) -> PlacedRow
    ensures { row result ≡ row_at prop.0 found }
{
    let status = StatusRow {
        prop,
        verdict: found.verdict,
    };
    PlacedRow {
        status,
        changed: found.changed,
    }
}

/// The first of these rows after a cursor, each of another property.
fn page(
    alloc: Global,
    table: &[PlacedRow],
    len: u32,
    cursor: Cursor,
    limit: u32,
) -> Result<Fetched, AllocError>
    requires once { IsOnce (rows table.now) }
    ensures { IfOk result (λ fetched. IsPage (rows table.now) len cursor limit fetched) }
{
    let given = first_after(alloc, table, cursor, limit)?;
    let last = last_cursor(&given, cursor);
    let more = is_left(table, last);
    Ok(Fetched {
        cursor: next_cursor(more, last, len),
        rows: statuses(alloc, &given)?,
        more,
    })
}

/// Where the next fetch goes on.
fn next_cursor(more: bool, last: Cursor, len: u32) -> Cursor
    ensures { result ≡ (if more then last else After len 4294967295) }
{
    if more {
        last
    } else {
        Cursor::After {
            place: len,
            prop: u32::MAX,
        }
    }
}

/// The first rows after a cursor, at most `limit`.
fn first_after(
    alloc: Global,
    table: &[PlacedRow],
    cursor: Cursor,
    limit: u32,
) -> Result<Vec<PlacedRow>, AllocError>
    requires once { IsOnce (rows table.now) }
    ensures given { IfOk result (λ given. IsGiven (rows table.now) cursor limit (rows given.items)) }
    ensures all { IfOk result (λ given. is_left (rows table.now) (last_cursor cursor (rows given.items)) ≡ true → length given.items ≡ limit) }
{
    let mut given = Vec::new(alloc);
    for _taken in 0..limit {
        add_next(&mut given, table, cursor)?;
    }
    Ok(given)
}

/// Adds the next row after the last of these, if there is one.
fn add_next(
    given: &mut Vec<PlacedRow>,
    table: &[PlacedRow],
    cursor: Cursor,
) -> Result<(), AllocError>
    ensures { OnOk result (rows given.new.items ≡ with_next (rows table.now) cursor (rows given.old.items)) }
{
    let last = last_cursor(given, cursor);
    match next_after(table, last) {
        Some(row) => given.push(row)?,
        None => {}
    }
    Ok(())
}

/// The cursor at the last of these rows; another one, where there is none.
fn last_cursor(given: &[PlacedRow], cursor: Cursor) -> Cursor
    ensures { result ≡ last_cursor cursor (rows given.now) }
{
    let mut last = cursor;
    for row in given {
        last = cursor_at(*row);
    }
    last
}

/// The cursor at a row.
pub(crate) fn cursor_at(of: PlacedRow) -> Cursor
    ensures { result ≡ cursor_at (row of) }
{
    Cursor::After {
        place: of.changed,
        prop: of.status.prop.0,
    }
}

/// The rows without their places.
fn statuses(alloc: Global, given: &[PlacedRow]) -> Result<StatusRows, AllocError>
    ensures { IfOk result (λ found. found ≡ map (λ r. r.status) (rows given.now)) }
{
    let mut found = Items::new(alloc);
    for row in given {
        found.push(row.status)?;
    }
    Ok(found)
}
