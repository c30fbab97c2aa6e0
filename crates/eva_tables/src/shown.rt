//! Answers as short texts.

use crate::covering::Verdict;
use crate::words::{check_word, said_word};
use abs_cells::Cells;
use eva_values::SiteMark;
use int_interval::{Interval, is_one};
use int_value::Value;
use std::alloc::{AllocError, Global};

/// A value: its numbers, its congruence unless that has all of them, and `u` if it may have none.
pub(crate) fn value_text(alloc: Global, value: &Value) -> Result<String, AllocError> {
    let mut out = match value.range {
        Interval::Empty => String::from_str(alloc, "none")?,
        Interval::Within { lo, hi } if is_one(lo, hi) => format!(in alloc; "{lo}")?,
        Interval::Within { lo, hi } => format!(in alloc; "{lo}..{hi}")?,
        Interval::All => String::from_str(alloc, "all")?,
    };
    let (rem, modulus) = (value.congr.rem, value.congr.modulus);
    if modulus > 1 {
        out.push_str(format!(in alloc; " {rem}%{modulus}")?.as_str())?;
    }
    if value.unset {
        out.push_str(" u")?;
    }
    Ok(out)
}

/// The marks, each by its number, its check and what is said.
pub(crate) fn marks_text(alloc: Global, marks: &[SiteMark]) -> Result<String, AllocError> {
    let mut out = String::new(alloc);
    let mut separator = "";
    for mark in marks {
        let (site, check, said) = (mark.site.0, check_word(mark.kind), said_word(mark.said));
        out.push_str(format!(in alloc; "{separator}{site} {check} {said}")?.as_str())?;
        separator = ", ";
    }
    if out.is_empty() {
        out.push_str("no marks")?;
    }
    Ok(out)
}

/// The values of cells.
pub(crate) fn cells_text(alloc: Global, cells: Option<&Cells>) -> Result<String, AllocError> {
    let Some(cells) = cells else {
        return String::from_str(alloc, "unreached");
    };
    let mut out = String::new(alloc);
    let mut separator = "";
    for number in 0..cells.len() {
        out.push_str(separator)?;
        out.push_str(value_text(alloc, &cells.get(number))?.as_str())?;
        separator = ", ";
    }
    Ok(out)
}

/// What comparing gave.
pub(crate) fn verdict_text(alloc: Global, verdict: Verdict) -> Result<String, AllocError> {
    match verdict {
        Verdict::Covered(count) => format!(in alloc; "{count} covered"),
        Verdict::Value => String::from_str(alloc, "VIOLATED: a value"),
        Verdict::Mark => String::from_str(alloc, "VIOLATED: a mark"),
        Verdict::Lost => String::from_str(alloc, "VIOLATED: cells are lost"),
        Verdict::Many => String::from_str(alloc, "too many to compare"),
    }
}
