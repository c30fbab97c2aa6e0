//! The tables of properties.

use c_ir::{Kind, Prop, PropTable};
use fc_base::{Bounded, FnId, Line, PointId, PropId};
use sqlite_items::Items;
use std::alloc::{AllocError, Global};

/// A property at a point of a function.
fn row(alloc: Global, id: u32, kind: Kind, function: u32, point: u32) -> Result<Prop, AllocError> {
    Ok(Prop {
        id: PropId(id),
        kind,
        function: FnId(function),
        point: PointId(point),
        line: Line(1),
        firm: kind.is_firm(),
        site: None,
        name: Bounded::new(alloc, "")?,
        label: Bounded::new(alloc, "")?,
    })
}

/// Two asserts, each before the claim that its point is dead; an admit, an ensures of a function without a
/// body, requires of function 0 and of function 1, and an assert whose point has no such claim.
fn small(alloc: Global) -> Result<PropTable, AllocError> {
    let mut rows = Items::new(alloc);
    rows.push(row(alloc, 0, Kind::Assert, 0, 2)?)?;
    rows.push(row(alloc, 1, Kind::Dead, 0, 2)?)?;
    rows.push(row(alloc, 2, Kind::Assert, 0, 3)?)?;
    rows.push(row(alloc, 3, Kind::Dead, 0, 3)?)?;
    rows.push(row(alloc, 4, Kind::Admit, 0, 3)?)?;
    rows.push(row(alloc, 5, Kind::Ensures, 1, 9)?)?;
    rows.push(row(alloc, 6, Kind::Requires, 0, 2)?)?;
    rows.push(row(alloc, 7, Kind::Requires, 1, 9)?)?;
    rows.push(row(alloc, 8, Kind::Assert, 0, 4)?)?;
    PropTable::new(alloc, rows, Items::from_slice(alloc, &[true, false])?)
}

/// An admit, an ensures and a requires of each of functions 0, which is defined, and 1, which isn't; and a requires
/// at a call.
fn admitted(alloc: Global) -> Result<PropTable, AllocError> {
    let mut rows = Items::new(alloc);
    rows.push(row(alloc, 0, Kind::Admit, 0, 3)?)?;
    rows.push(row(alloc, 1, Kind::Ensures, 0, 4)?)?;
    rows.push(row(alloc, 2, Kind::Ensures, 1, 6)?)?;
    rows.push(row(alloc, 3, Kind::Requires, 0, 0)?)?;
    rows.push(row(alloc, 4, Kind::Requires, 1, 5)?)?;
    rows.push(row(alloc, 5, Kind::CallRequires, 0, 2)?)?;
    PropTable::new(alloc, rows, Items::from_slice(alloc, &[true, false])?)
}

/// The tables that histories speak of.
#[derive(Drop)]
pub(crate) struct Tables {
    pub(crate) small: PropTable,
    pub(crate) admitted: PropTable,
}

impl Tables {
    pub(crate) fn new(alloc: Global) -> Result<Tables, AllocError> {
        Ok(Tables {
            small: small(alloc)?,
            admitted: admitted(alloc)?,
        })
    }
}
