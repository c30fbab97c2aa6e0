//! Entries and operators as short texts.

use c_ir::Prop;
use fc_base::{PropId, SiteId};
use status_history::Entry;
use std::alloc::{AllocError, Global};

/// Adds a text that was made.
fn add(out: &mut String, text: Result<String, AllocError>) -> Result<(), AllocError> {
    let text = text?;
    out.push_str(text.as_str())
}

/// The text; `nothing` if it is empty.
fn or_nothing(alloc: Global, text: String) -> Result<String, AllocError> {
    if text.is_empty() {
        String::from_str(alloc, "nothing")
    } else {
        Ok(text)
    }
}

/// A property's name.
fn name_of<'a>(rows: &'a [Prop], prop: PropId) -> &'a str {
    match rows.get(prop.0 as usize) {
        None => "?",
        Some(row) => row.name.as_str(),
    }
}

/// The properties' names with commas between them.
fn show_names(out: &mut String, rows: &[Prop], props: &[PropId]) -> Result<(), AllocError> {
    let mut separator = "";
    for prop in props {
        out.push_str(separator)?;
        separator = ", ";
        out.push_str(name_of(rows, *prop))?;
    }
    Ok(())
}

/// The properties' names; of more than four the first, the last, and how many there are.
fn show_hyps(
    alloc: Global,
    out: &mut String,
    rows: &[Prop],
    props: &[PropId],
) -> Result<(), AllocError> {
    if let (Some((first, rest)), Some((last, _))) = (props.split_first(), props.split_last()) {
        out.push_str(": ")?;
        if rest.len() < 4 {
            return show_names(out, rows, props);
        }
        let (from, to, count) = (name_of(rows, *first), name_of(rows, *last), props.len());
        return add(out, format!(in alloc; "{from} .. {to} ({count})"));
    }
    Ok(())
}

/// Each entry: its property, its status and its hypotheses.
pub(crate) fn show_links(
    alloc: Global,
    rows: &[Prop],
    entries: &[Entry],
) -> Result<String, AllocError> {
    let mut out = String::new(alloc);
    for entry in entries {
        let separator = if out.is_empty() { "" } else { "; " };
        let (name, status) = (name_of(rows, entry.prop), entry.status.text());
        add(&mut out, format!(in alloc; "{separator}{name} {status}"))?;
        show_hyps(alloc, &mut out, rows, entry.hyps.as_slice())?;
    }
    or_nothing(alloc, out)
}

/// The property of each entry.
pub(crate) fn show_decided(
    alloc: Global,
    rows: &[Prop],
    entries: &[Entry],
) -> Result<String, AllocError> {
    let mut out = String::new(alloc);
    for entry in entries {
        let separator = if out.is_empty() { "" } else { ", " };
        let name = name_of(rows, entry.prop);
        add(&mut out, format!(in alloc; "{separator}{name}"))?;
    }
    or_nothing(alloc, out)
}

/// The numbers of operators.
pub(crate) fn show_sites(alloc: Global, sites: &[SiteId]) -> Result<String, AllocError> {
    let mut out = String::new(alloc);
    for SiteId(number) in sites {
        let separator = if out.is_empty() { "" } else { " " };
        add(&mut out, format!(in alloc; "{separator}{number}"))?;
    }
    or_nothing(alloc, out)
}
