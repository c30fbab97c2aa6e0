//! The table of all properties.

ghost use Rattle.std.specs.Prelude.{◌≡◌, ◌≤◌, ◌<◌, ◌==◌, IfOk, length};
ghost use Rattle.c_ir.specs.Table.{first_named, dead_of, is_row, is_live, is_firm_row, is_defined, row_admitted};

use crate::index::{index_deads, index_names};
use crate::kind::Kind;
use crate::prop::Prop;
use fc_base::{FnId, PropId};
use sqlite_items::Items;
use std::alloc::{AllocError, Global};
use std::collections::BTreeMap;
use std::marker::Model;

/// The properties of one program, at most 65,536 of them, and for each of its functions whether it is
/// defined.
#[derive(Debug, Drop)]
pub struct PropTable {
    rows: Items<Prop>,
    defined: Items<bool>,
    /// For each name the number of the first row that has it.
    names: BTreeMap<String, u32>,
    /// For each point the number of the first row of kind Dead there.
    deads: BTreeMap<u32, u32>,
}

impl Model for PropTable {
    ghost use Rattle.c_ir.specs.Props.{Props};
    ghost use Rattle.c_ir.specs.inner.Index.{IsIndexed};

    ghost Value = { Props };

    ghost view = { λ t. record { rows = t.rows; defined = t.defined } };

    ghost invariant = { λ t. IsIndexed t.rows t.names t.deads };
}

impl PropTable {
    /// A table of these properties, in this order, and of functions that are defined or not.
    pub fn new(
        alloc: Global,
        rows: Items<Prop>,
        defined: Items<bool>,
    ) -> Result<PropTable, AllocError>
        requires { length rows ≤ 65536 }
        ensures { IfOk result (λ t. t ≡ record { rows = rows; defined = defined }) }
    {
        let names = index_names(alloc, rows.as_slice())?;
        let deads = index_deads(alloc, rows.as_slice())?;
        Ok(PropTable {
            rows,
            defined,
            names,
            deads,
        })
    }

    /// The first property with this name; None exactly where none has it.
    pub fn find(&self, name: &str) -> Option<PropId>
        ensures { result ≡ first_named name.now self.now.rows }
    {
        self.names.get(name).map(|number| PropId(*number))
    }

    /// The first property of kind Dead at the point of property `prop`, which is in the table; None exactly
    /// where the point has none.
    pub fn dead_of(&self, prop: PropId) -> Option<PropId>
        requires { prop.0 < length self.now.rows }
        ensures { result ≡ dead_of self.now.rows prop.0 }
    {
        let point = self.rows.as_slice()[prop.0 as usize].point;
        self.deads.get(&point.0).map(|number| PropId(*number))
    }

    /// Whether a number is a property's.
    pub fn contains(&self, prop: PropId) -> bool
        ensures { result ≡ is_row self.now prop.0 }
    {
        prop.0 < self.len()
    }

    /// Whether property `prop`, which is in the table, is of another kind than Dead.
    pub fn is_live(&self, prop: PropId) -> bool
        requires { prop.0 < length self.now.rows }
        ensures { result ≡ is_live self.now prop.0 }
    {
        !self.rows.as_slice()[prop.0 as usize].kind.is_dead()
    }

    /// Whether property `prop`, which is in the table, is firm: each arrival at its point visits it at which no
    /// admitted predicate is false.
    pub fn is_firm(&self, prop: PropId) -> bool
        requires { prop.0 < length self.now.rows }
        ensures { result ≡ is_firm_row self.now prop.0 }
    {
        self.rows.as_slice()[prop.0 as usize].firm
    }

    /// Whether a property is taken as true, for the number of the entry function: it is of kind Admit, an
    /// Ensures of a function that isn't defined, or a Requires of the entry function (this project's own).
    pub fn admits(&self, row: &Prop, entry_function: i64) -> bool
        ensures { result ≡ row_admitted self.now entry_function row.now }
    {
        match row.kind {
            Kind::Admit => true,
            Kind::Ensures => !self.is_defined(row.function),
            Kind::Requires => i64::from(row.function.0) == entry_function,
            Kind::CallRequires
            | Kind::Assert
            | Kind::Check
            | Kind::LoopInvariant
            | Kind::Alarm(_)
            | Kind::Dead => false,
        }
    }

    /// Whether a function is defined; false where the table doesn't list it.
    pub fn is_defined(&self, function: FnId) -> bool
        ensures { result ≡ is_defined self.now function.0 }
    {
        match self.defined().get(function.0 as usize) {
            Some(defined) => *defined,
            None => false,
        }
    }

    /// How many properties there are.
    pub fn len(&self) -> u32
        ensures value { result ≡ length self.now.rows }
        ensures bound { result ≤ 65536 }
    {
        self.rows.len() as u32
    }

    /// Whether there is no property.
    pub fn is_empty(&self) -> bool
        ensures { result ≡ (length self.now.rows == 0) }
    {
        self.rows.as_slice().is_empty()
    }

    /// All properties, in order.
    pub fn rows(&self) -> &[Prop]
        ensures value { result.now ≡ self.now.rows }
        ensures bound { length result.now ≤ 65536 }
    {
        self.rows.as_slice()
    }

    /// For each function, by its number, whether it is defined.
    pub fn defined(&self) -> &[bool]
        ensures { result.now ≡ self.now.defined }
    {
        self.defined.as_slice()
    }
}
