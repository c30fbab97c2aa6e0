//! The table of properties and the emitters that lines are read with.

ghost use Rattle.std.specs.Prelude.{◌≤◌, length};

use c_ir::{Kind, Prop, PropTable};
use event_script::Script;
use fc_base::{Bounded, EmitterId, FnId, Line, PointId, PropId};
use sqlite_items::Items;
use std::alloc::{AllocError, Global};

/// A property with this number and name.
fn prop(alloc: Global, id: u32, name: &str) -> Result<Prop, AllocError>
    requires { length name.now ≤ 512 }
{
    Ok(Prop {
        id: PropId(id),
        kind: Kind::Assert,
        function: FnId(0),
        point: PointId(id),
        line: Line(1),
        firm: true,
        site: None,
        name: Bounded::new(alloc, name)?,
        label: Bounded::new(alloc, "")?,
    })
}

/// The properties p and q.
pub(crate) fn table(alloc: Global) -> Result<PropTable, AllocError> {
    let mut rows = Items::new(alloc);
    rows.push(prop(alloc, 0, "p")?)?;
    rows.push(prop(alloc, 1, "q")?)?;
    PropTable::new(alloc, rows, Items::new(alloc))
}

/// A reader that was told that `wp` is emitter 5, and then that it is emitter 4.
pub(crate) fn script(alloc: Global) -> Result<Script, AllocError> {
    let mut script = Script::new(alloc);
    script.told("wp", EmitterId(5))?;
    script.told("wp", EmitterId(4))?;
    Ok(script)
}
