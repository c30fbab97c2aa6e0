//! One more entry in a table: only the rows that it can reach are written anew.

ghost use Rattle.std.specs.Prelude.{◌≡◌, ◌<◌, ◌≤◌, IfOk, OnErr, OnOk, false, length, slice_set, true, if◌then◌else◌};
ghost use Rattle.c_ir.specs.Table.{is_row};
ghost use Rattle.event_board.specs.declared.page.PlacedVerdict.{PlacedVerdict};
ghost use Rattle.param_book.specs.Emitters.{is_external};
ghost use Rattle.prop_runs.specs.Numbers.{runs_of};
ghost use Rattle.status_history.specs.Values.{values_now};
ghost use Rattle.status_history.specs.declared.history.Change.TheVariants.{Emit};
ghost use Rattle.status_rules.specs.Counting.{counted_of};
ghost use Rattle.status_rows.specs.Places.{PlacesAre};
ghost use Rattle.status_core.specs.Held.{after};
ghost use Rattle.status_core.specs.inner.Own.{StaysRight};
ghost use Rattle.status_core.specs.inner.Rows.{refreshed, row_after};

use crate::rows::refresh;
use crate::table::Table;
use c_ir::PropTable;
use event_board::PlacedVerdict;
use fc_base::{ParamValues, PropId};
use sqlite_items::Items;
use status_history::{Change, Entry, History};
use status_rows::{Reading, note_users, reached, with_place};
use std::alloc::{AllocError, Global};

impl Table<'_> {
    /// Appends an emission.
    pub(crate) fn append_entry(&mut self, entry: &Entry) -> Result<(), AllocError>
        requires room { length self.old.history.changes < 200000 }
        requires known { is_row self.old.props entry.now.prop.0 ≡ true }
        requires own { is_external entry.now.emitter ≡ false → StaysRight (runs_of self.old.program) self.old.history entry.now }
        ensures ok { OnOk result (self.new ≡ after self.old (Emit entry.now)) }
        ensures err { OnErr result (self.new ≡ self.old) }
    {
        let place = self.history.changes.len() + 1;
        let prop = entry.prop;
        let current = self.past.is_current(entry);
        let copy = copied(self.alloc, entry)?;
        let list = with_place(
            self.alloc,
            self.history.changes.as_slice(),
            self.places[prop.0 as usize].as_slice(),
            entry.emitter,
            place,
        )?;
        let reached = reached(self.alloc, &self.members, &self.users, prop)?;
        note_users(&mut self.users, prop, entry.hyps.as_slice())?;
        match self.history.changes.push(Change::Emit(copy)) {
            Ok(()) => {}
            Err(AllocError) => return Err(AllocError),
        }
        settle(&mut self.places, current, prop, list);
        refresh_rows(
            &self.history,
            self.props,
            &self.places,
            &self.past.now,
            &mut self.rows,
            &reached,
            place as u32,
        );
        Ok(())
    }
}

/// An entry again.
fn copied(alloc: Global, entry: &Entry) -> Result<Entry, AllocError>
    ensures { IfOk result (λ e. e ≡ entry.now) }
{
    let hyps = Items::from_slice(alloc, entry.hyps.as_slice())?;
    Ok(Entry {
        emitter: entry.emitter,
        prop: entry.prop,
        status: entry.status,
        hyps,
        version: entry.version,
    })
}

/// Puts a list in the place of a property's, if it is to.
fn settle(places: &mut Vec<Vec<usize>>, current: bool, prop: PropId, list: Vec<usize>)
    requires { prop.0 < length places.old.items }
    ensures { places.new.items ≡ (if current then slice_set places.old.items prop.0 list else places.old.items) }
{
    if current {
        places[prop.0 as usize] = list;
    }
}

/// Writes rows anew after change number `number`.
fn refresh_rows(
    history: &History,
    props: &PropTable,
    places: &[Vec<usize>],
    values: &ParamValues,
    rows: &mut Items<PlacedVerdict>,
    reached: &[u32],
    number: u32,
)
    requires places { PlacesAre history.now.changes places.now (counted_of history.now) props.now.rows }
    requires values { values.now ≡ values_now history.now }
    requires rows { length rows.old ≡ length props.now.rows }
    ensures { (d : PlacedVerdict) → rows.new ≡ refreshed (row_after history.now props.now number) d reached.now rows.old }
{
    let reading = Reading {
        history,
        props,
        places,
        values,
    };
    refresh(&reading, rows, reached, number);
}
