//! The table: what it keeps, and what it is asked.

ghost use Rattle.std.specs.Prelude.{◌≡◌, ◌≤◌, [], IfOk, Some, length, slice_get, true, ◌==◌};
ghost use Rattle.c_ir.specs.Table.{is_row};
ghost use Rattle.event_board.specs.Asked.{all_fit, is_limit};
ghost use Rattle.param_book.specs.Table.{under};
ghost use Rattle.prop_runs.specs.Numbers.{props_of, runs_of};
ghost use Rattle.status_history.specs.Values.{values_now, version_of};
ghost use Rattle.status_rules.specs.Counting.{counted_of};
ghost use Rattle.status_rules.specs.Fetch.{IsFetched};
ghost use Rattle.status_rules.specs.Holds.{basis_of};
ghost use Rattle.status_rules.specs.Support.{IsSupportIfHeld};
ghost use Rattle.status_rules.specs.Truth.{ExternalRight, IsTrueOf};
ghost use Rattle.status_rules.specs.Verdicts.{full_of};

use crate::anew::opened;
use crate::past::Past;
use c_ir::{Program, PropTable};
use event_board::{PlacedVerdict, fetched};
use fc_base::{ParamValues, PropId, Verdict};
use prop_runs::runs_keep_laws;
use sqlite_items::Items;
use status_history::History;
use status_rules::{Cursor, Fetched, Support, both_sorts_are_all, verdicts_are_true};
use std::alloc::{AllocError, Global};
use std::marker::Model;
use support_cert::support;

/// What happened to the statuses of a program's properties, with the verdict of each. Contracts see it as the program,
/// the table of its properties and the history. All entries of the program's own emitters are locally right.
#[derive(Drop)]
pub struct Table<'p> {
    pub(crate) alloc: Global,
    pub(crate) program: &'p Program,
    pub(crate) props: &'p PropTable,
    pub(crate) history: History,
    /// For each property its verdict, and the place of the last change that altered it.
    pub(crate) rows: Items<PlacedVerdict>,
    /// For each property the places of the entries on it that count.
    pub(crate) places: Vec<Vec<usize>>,
    /// For each property of kind Dead those of its point.
    pub(crate) members: Vec<Vec<u32>>,
    /// For each property at least those with an entry that names it.
    pub(crate) users: Vec<Vec<u32>>,
    pub(crate) past: Past,
}

impl<'p> Model for Table<'p> {
    ghost use Rattle.status_core.specs.Held.{Held};
    ghost use Rattle.status_core.specs.inner.Kept.{IsKept};
    ghost use Rattle.std.specs.Coded.{codes};
    ghost use Rattle.c_ir.specs.contracts.tree.Expr as e;
    ghost use Rattle.c_ir.specs.contracts.tree.Pred as p;
    ghost use Rattle.c_ir.specs.contracts.tree.Stmt as s;

    ghost Value = { Held };

    ghost coded = { Prim.hlevel (codes, e.the_row.coded, p.the_row.coded, s.the_row.coded) };

    ghost view = { λ t. record { program = t.program.now; props = t.props.now; history = t.history } };

    ghost invariant = { λ t. IsKept t.program.now t.props.now t.history t.rows t.places.items t.members.items t.users.items t.past.versions.items t.past.now t.past.sets.items t.past.taken };
}

impl<'p> Table<'p> {
    /// A table of a program's properties to which nothing has happened yet. The opening values are in their ranges.
    pub fn begin(
        alloc: Global,
        program: &'p Program,
        props: &'p PropTable,
        opening: ParamValues,
    ) -> Result<Table<'p>, AllocError>
        requires props { props.now ≡ props_of program.now }
        requires fit { all_fit props.now opening ≡ true }
        ensures { IfOk result (λ t. t ≡ record { program = program.now; props = props.now; history = record { opening = opening; changes = [] } }) }
    {
        opened(alloc, program, props, opening)
    }

    /// The verdict of a property of the table: that of full recomputation of the history. Where the counted entries of
    /// registered emitters are locally right, it is true of the program's runs.
    pub fn status(&self, prop: PropId) -> Verdict
        requires { is_row self.now.props prop.0 ≡ true }
        ensures verdict { slice_get (full_of self.now.history self.now.props) prop.0 ≡ Some result }
        ensures true_of_runs { ExternalRight (runs_of self.now.program) self.now.history (counted_of self.now.history) → IsTrueOf (under (runs_of self.now.program) (values_now self.now.history)) result prop.0 }
    {
        self.program.keeps();
        runs_keep_laws();
        both_sorts_are_all();
        verdicts_are_true();
        self.rows.as_slice()[prop.0 as usize].verdict
    }

    /// Why a property of the table holds; None exactly where it doesn't.
    pub fn support(&self, prop: PropId) -> Result<Option<Support>, AllocError>
        requires { is_row self.now.props prop.0 ≡ true }
        ensures { IfOk result (λ found. IsSupportIfHeld (basis_of self.now.history self.now.props) prop.0 found) }
    {
        let found = support(self.alloc, &self.history, self.props, prop)?;
        Ok(found)
    }

    /// The first rows after a cursor, at most `limit`, which is 1 to 1,000, in the order of the changes that altered
    /// their verdicts last, and where the next fetch goes on.
    pub fn changed_since(&self, cursor: Cursor, limit: u32) -> Result<Fetched, AllocError>
        requires { is_limit limit ≡ true }
        ensures { IfOk result (λ found. IsFetched self.now.history self.now.props cursor limit found) }
    {
        let count = self.props.len();
        prove!(count <= 65536);
        let len = self.history.changes.len() as u32;
        let found = fetched(self.alloc, self.rows.as_slice(), len, cursor, limit)?;
        Ok(found)
    }

    /// The values of the parameters.
    pub fn params(&self) -> ParamValues
        ensures value { result ≡ values_now self.now.history }
        ensures fit { all_fit self.now.props result ≡ true }
    {
        self.past.now
    }

    /// How many changes set a parameter.
    pub fn version(&self) -> u32
        ensures { result ≡ version_of self.now.history }
    {
        (self.past.versions.len() - 1) as u32
    }

    /// How many changes there are.
    pub fn len(&self) -> u32
        ensures value { result ≡ length self.now.history.changes }
        ensures bound { result ≤ 200000 }
    {
        self.history.changes.len() as u32
    }

    /// Whether there is no change.
    pub fn is_empty(&self) -> bool
        ensures { result ≡ (length self.now.history.changes == 0) }
    {
        self.len() == 0
    }

    /// What happened.
    pub fn history(&self) -> &History
        ensures { result.now ≡ self.now.history }
    {
        &self.history
    }

    /// The program.
    pub fn program(&self) -> &'p Program
        ensures { result.now ≡ self.now.program }
    {
        self.program
    }

    /// The table of its properties.
    pub fn props(&self) -> &'p PropTable
        ensures value { result.now ≡ self.now.props }
        ensures of_program { result.now ≡ props_of self.now.program }
    {
        self.props
    }
}
