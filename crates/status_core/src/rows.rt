//! Rows written anew.

ghost use Rattle.std.specs.Prelude.{◌≡◌, ◌<◌, IfOk, length, slice_index_or, slice_set};
ghost use Rattle.status_rules.specs.Holds.{at_each};
ghost use Rattle.event_board.specs.declared.page.PlacedVerdict.{PlacedVerdict};
ghost use Rattle.status_core.specs.inner.Rows.{first_row, next_row, refreshed, row_after, row_anew};

use event_board::PlacedVerdict;
use fc_base::{PropId, Verdict};
use sqlite_items::Items;
use status_rows::Reading;
use std::alloc::{AllocError, Global};

/// Writes the rows of some properties anew after change number `number`.
pub(crate) fn refresh(
    reading: &Reading,
    rows: &mut Items<PlacedVerdict>,
    reached: &[u32],
    number: u32,
)
    requires { length rows.old ≡ length reading.now.props.now.rows }
    ensures { (d : PlacedVerdict) → rows.new ≡ refreshed (row_after reading.now.history.now reading.now.props.now number) d reached.now rows.old }
{
    for prop in reached {
        refresh_row(reading, rows, PropId(*prop), number);
    }
}

/// Writes the row of a property anew.
#[tactic(auto, using(std::proofs::lemmas::List::set_past))]
fn refresh_row(reading: &Reading, rows: &mut Items<PlacedVerdict>, prop: PropId, number: u32)
    requires { length rows.old ≡ length reading.now.props.now.rows }
    ensures value { (d : PlacedVerdict) → rows.new ≡ slice_set rows.old prop.0 (row_after reading.now.history.now reading.now.props.now number prop.0 (slice_index_or rows.old prop.0 d)) }
    ensures len { length rows.new ≡ length rows.old }
{
    if (prop.0 as usize) < rows.len() {
        let next = next_row(
            number,
            reading.verdict(prop),
            rows.as_slice()[prop.0 as usize],
        );
        rows.set(prop.0 as usize, next);
    }
}

/// A row after change number `number`, which leaves this verdict.
fn next_row(number: u32, verdict: Verdict, row: PlacedVerdict) -> PlacedVerdict
    ensures { result ≡ next_row number verdict row }
{
    let changed = if verdict == row.verdict {
        row.changed
    } else {
        number
    };
    PlacedVerdict { verdict, changed }
}

/// All rows after change number `number`, where these were the rows before.
#[tactic(auto, using(status_rules::proofs::Each::at_each_more))]
pub(crate) fn all_rows(
    alloc: Global,
    reading: &Reading,
    old: &[PlacedVerdict],
    number: u32,
) -> Result<Items<PlacedVerdict>, AllocError>
    requires { length old.now ≡ length reading.now.props.now.rows }
    ensures { IfOk result (λ rows. (none : PlacedVerdict) → rows ≡ at_each (row_anew reading.now.history.now reading.now.props.now number old.now none) 0 reading.now.props.now.rows) }
{
    let mut rows = Items::new(alloc);
    for place in 0..reading.props.len() {
        rows.push(one_row(reading, old, number, PropId(place)))?;
    }
    Ok(rows)
}

/// The row of one property.
fn one_row(reading: &Reading, old: &[PlacedVerdict], number: u32, prop: PropId) -> PlacedVerdict
    requires lengths { length old.now ≡ length reading.now.props.now.rows }
    requires known { prop.0 < length reading.now.props.now.rows }
    ensures { (none : PlacedVerdict) → result ≡ row_anew reading.now.history.now reading.now.props.now number old.now none prop.0 }
{
    next_row(number, reading.verdict(prop), old[prop.0 as usize])
}

/// The rows where nothing has happened.
#[tactic(auto, using(status_rules::proofs::Each::at_each_more))]
pub(crate) fn first_rows(
    alloc: Global,
    reading: &Reading,
) -> Result<Items<PlacedVerdict>, AllocError>
    ensures { IfOk result (λ rows. rows ≡ at_each (first_row reading.now.history.now reading.now.props.now) 0 reading.now.props.now.rows) }
{
    let mut rows = Items::new(alloc);
    for place in 0..reading.props.len() {
        rows.push(first_row(reading, PropId(place)))?;
    }
    Ok(rows)
}

/// The row of one property where nothing has happened.
fn first_row(reading: &Reading, prop: PropId) -> PlacedVerdict
    requires { prop.0 < length reading.now.props.now.rows }
    ensures { result ≡ first_row reading.now.history.now reading.now.props.now prop.0 }
{
    PlacedVerdict {
        verdict: reading.verdict(prop),
        changed: 0,
    }
}
