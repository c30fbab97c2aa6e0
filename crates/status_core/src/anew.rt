//! What a table keeps, computed from its whole history: at its beginning, and after a change that sets a parameter or
//! registers an emitter.

ghost use Rattle.std.specs.Prelude.{◌≡◌, ◌≤◌, ◌<◌, ◌++◌, [], ◌∷◌, IfOk, OnErr, OnOk, List, false, length, true};
ghost use Rattle.event_board.specs.Asked.{all_fit};
ghost use Rattle.event_board.specs.declared.page.PlacedVerdict.{PlacedVerdict};
ghost use Rattle.prop_runs.specs.Numbers.{props_of};
ghost use Rattle.status_history.specs.Values.{extended, values_now};
ghost use Rattle.status_history.specs.declared.history.Change.{Change};
ghost use Rattle.status_rules.specs.Counting.{counted_of};
ghost use Rattle.status_rules.specs.Holds.{at_each};
ghost use Rattle.status_rows.specs.Places.{PlacesAre};
ghost use Rattle.status_core.specs.Held.{after};
ghost use Rattle.status_core.specs.inner.Kept.{IsPast, emits};
ghost use Rattle.status_core.specs.inner.Rows.{first_row, row_anew};

use crate::past::Past;
use crate::rows::{all_rows, first_rows};
use crate::table::Table;
use c_ir::{Program, PropTable};
use event_board::PlacedVerdict;
use fc_base::ParamValues;
use sqlite_items::Items;
use status_history::{Change, History};
use status_rows::{Reading, counted_places, members, users};
use std::alloc::{AllocError, Global};

/// A table to which nothing has happened yet.
pub(crate) fn opened<'p>(
    alloc: Global,
    program: &'p Program,
    props: &'p PropTable,
    opening: ParamValues,
) -> Result<Table<'p>, AllocError>
    requires props { props.now ≡ props_of program.now }
    requires fit { all_fit props.now opening ≡ true }
    ensures { IfOk result (λ t. t ≡ record { program = program.now; props = props.now; history = record { opening = opening; changes = [] } }) }
{
    let history = History {
        opening,
        changes: Items::new(alloc),
    };
    let found = first(alloc, &history, props)?;
    Ok(Table {
        alloc,
        program,
        props,
        history,
        rows: found.rows,
        places: found.places,
        members: members(alloc, props)?,
        users: users(alloc, props)?,
        past: found.past,
    })
}

/// What follows from a whole history.
#[derive(Drop)]
struct Anew {
    rows: Items<PlacedVerdict>,
    places: Vec<Vec<usize>>,
    past: Past,
}

/// What follows from a history in which nothing has happened.
fn first(alloc: Global, history: &History, props: &PropTable) -> Result<Anew, AllocError>
    ensures rows { IfOk result (λ f. f.rows ≡ at_each (first_row history.now props.now) 0 props.now.rows) }
    ensures places { IfOk result (λ f. PlacesAre history.now.changes f.places.items (counted_of history.now) props.now.rows) }
    ensures past { IfOk result (λ f. IsPast history.now f.past.versions.items f.past.now f.past.sets.items f.past.taken) }
{
    let past = Past::of(alloc, history)?;
    let places = counted_places(alloc, history, props)?;
    let reading = Reading {
        history,
        props,
        places: &places,
        values: &past.now,
    };
    let rows = first_rows(alloc, &reading)?;
    Ok(Anew { rows, places, past })
}

/// What follows from a history, where these were the rows before its last change.
fn again(
    alloc: Global,
    history: &History,
    props: &PropTable,
    old: &[PlacedVerdict],
) -> Result<Anew, AllocError>
    requires lengths { length old.now ≡ length props.now.rows }
    requires few { length history.now.changes ≤ 200000 }
    ensures rows { IfOk result (λ f. (none : PlacedVerdict) → f.rows ≡ at_each (row_anew history.now props.now (length history.now.changes) old.now none) 0 props.now.rows) }
    ensures places { IfOk result (λ f. PlacesAre history.now.changes f.places.items (counted_of history.now) props.now.rows) }
    ensures past { IfOk result (λ f. IsPast history.now f.past.versions.items f.past.now f.past.sets.items f.past.taken) }
{
    let past = Past::of(alloc, history)?;
    let places = counted_places(alloc, history, props)?;
    let reading = Reading {
        history,
        props,
        places: &places,
        values: &past.now,
    };
    let rows = all_rows(alloc, &reading, old, history.changes.len() as u32)?;
    Ok(Anew { rows, places, past })
}

impl Table<'_> {
    /// Appends a change that emits nothing.
    pub(crate) fn append(&mut self, change: Change) -> Result<(), AllocError>
        requires room { length self.old.history.changes < 200000 }
        requires quiet { emits change ≡ false }
        requires fit { all_fit self.old.props (values_now (extended self.old.history (change ∷ []))) ≡ true }
        ensures ok { OnOk result (self.new ≡ after self.old change) }
        ensures err { OnErr result (self.new ≡ self.old) }
    {
        match self.history.changes.push(change) {
            Ok(()) => {}
            Err(AllocError) => return Err(AllocError),
        }
        match again(self.alloc, &self.history, self.props, self.rows.as_slice()) {
            Ok(found) => {
                self.rows = found.rows;
                self.places = found.places;
                self.past = found.past;
                Ok(())
            }
            Err(AllocError) => {
                take_back(&mut self.history);
                Err(AllocError)
            }
        }
    }
}

/// Takes the last change of a history back.
fn take_back(history: &mut History)
    ensures { (cs : List Change) (c : Change) → history.old.changes ≡ cs ++ c ∷ [] → history.new ≡ record history.old { changes = cs } }
{
    history.changes.pop();
}
