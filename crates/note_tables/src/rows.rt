//! Properties as short texts.

use crate::formula::add;
use c_ir::Prop;
use fc_base::SiteId;
use std::alloc::{AllocError, Global};

/// A property: its name and its line, its label in parentheses, `firm`, and the number of its operator.
fn show_row(alloc: Global, out: &mut String, row: &Prop) -> Result<(), AllocError> {
    let (name, line, label) = (row.name.as_str(), row.line.0, row.label.as_str());
    add(out, format!(in alloc; "{name} {line}"))?;
    if !label.is_empty() {
        add(out, format!(in alloc; " ({label})"))?;
    }
    out.push_str(if row.firm { " firm" } else { "" })?;
    if let Some(SiteId(number)) = row.site {
        add(out, format!(in alloc; " #{number}"))?;
    }
    Ok(())
}

/// The properties with commas between them.
pub(crate) fn show_rows(alloc: Global, rows: &[Prop]) -> Result<String, AllocError> {
    let mut out = String::new(alloc);
    let mut separator = "";
    for row in rows {
        out.push_str(separator)?;
        separator = ", ";
        show_row(alloc, &mut out, row)?;
    }
    Ok(out)
}
