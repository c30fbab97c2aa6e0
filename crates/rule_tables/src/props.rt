//! A small table of properties, and what it answers.

use c_ir::{Kind, Prop, PropTable};
use fc_base::{Bounded, FnId, Line, PointId, PropId, PropName};
use sqlite_items::Items;
use std::alloc::{AllocError, Global};

/// The name, or the empty one where it is too long.
fn short_name(alloc: Global, name: &str) -> Result<PropName, AllocError> {
    let fits = name.len() <= 512;
    Bounded::new(alloc, if fits { name } else { "" })
}

/// A property with this number, kind, point and name, of function 0.
fn prop(alloc: Global, id: u32, kind: Kind, point: u32, name: &str) -> Result<Prop, AllocError> {
    Ok(Prop {
        id: PropId(id),
        kind,
        function: FnId(0),
        point: PointId(point),
        line: Line(id.saturating_add(1)),
        firm: kind.is_firm(),
        site: None,
        name: short_name(alloc, name)?,
        label: Bounded::new(alloc, "")?,
    })
}

/// Five properties, of which two have one name, two claims that one point is dead, and one has an empty name; of two
/// functions the first is defined.
pub(crate) fn table(alloc: Global) -> Result<PropTable, AllocError> {
    let mut rows = Items::new(alloc);
    rows.push(prop(alloc, 0, Kind::Assert, 7, "main@7/assert/0")?)?;
    rows.push(prop(alloc, 1, Kind::Dead, 9, "main@9/dead/0")?)?;
    rows.push(prop(alloc, 2, Kind::Dead, 7, "main@7/dead/0")?)?;
    rows.push(prop(alloc, 3, Kind::Dead, 7, "main@7/assert/0")?)?;
    rows.push(prop(alloc, 4, Kind::Check, 4_000_000_000, "")?)?;
    PropTable::new(alloc, rows, Items::from_slice(alloc, &[true, false])?)
}

/// A property's number, or `none`.
fn found_text(alloc: Global, found: Option<PropId>) -> Result<String, AllocError> {
    match found {
        Some(PropId(number)) => format!(in alloc; "{number}"),
        None => String::from_str(alloc, "none"),
    }
}

/// What is answered of a property: its own number, the claim that its point is dead, and what it is.
fn row_text(alloc: Global, props: &PropTable, place: u32) -> Result<String, AllocError> {
    let prop = PropId(place);
    if !props.contains(prop) {
        return String::from_str(alloc, "not in the table");
    }
    let row = &props.rows()[place as usize];
    let number = row.id.0;
    let dead = found_text(alloc, props.dead_of(prop))?;
    let live = if props.is_live(prop) { " live" } else { "" };
    let firm = if props.is_firm(prop) { " firm" } else { "" };
    let admitted = if props.admits(row, 0) {
        " admitted"
    } else {
        ""
    };
    format!(in alloc; "{number}, dead {dead}{live}{firm}{admitted}")
}

/// How many properties there are, and for each function whether it is defined.
fn size_text(alloc: Global, props: &PropTable) -> Result<String, AllocError> {
    let count = props.len();
    let empty = if props.is_empty() {
        "empty"
    } else {
        "not empty"
    };
    let mut out = format!(in alloc; "{count}, {empty};")?;
    for defined in props.defined() {
        out.push_str(if *defined { " defined" } else { " undefined" })?;
    }
    Ok(out)
}

/// What is answered of a number after a word.
fn number_text(
    alloc: Global,
    props: &PropTable,
    word: &str,
    number: u32,
) -> Result<String, AllocError> {
    match word {
        "row" => row_text(alloc, props, number),
        "function" => {
            let defined = props.is_defined(FnId(number));
            String::from_str(alloc, if defined { "defined" } else { "not defined" })
        }
        _ => String::from_str(alloc, "no question"),
    }
}

/// What is answered of a line: `name=NAME`, `row=NUMBER`, `function=NUMBER` or `size`.
pub(crate) fn prop_text(
    alloc: Global,
    props: &PropTable,
    line: &str,
) -> Result<String, AllocError> {
    if let Some(name) = line.strip_prefix("name=") {
        return found_text(alloc, props.find(name));
    }
    if let Some((word, number)) = line.split_once('=')
        && let Ok(number) = number.parse::<u32>()
    {
        return number_text(alloc, props, word, number);
    }
    size_text(alloc, props)
}
