//! What is answered of one line.

use crate::chains::chain_text;
use crate::covering::{Answers, compared};
use crate::reading::{cells_of, expression};
use crate::shown::{cells_text, marks_text, value_text, verdict_text};
use crate::words::binary_named;
use abs_cells::Cells;
use c_ir::Expr;
use eva_values::{evaluated, narrowed};
use std::alloc::{AllocError, Global};

/// The answers of an expression, and whether they cover its runs.
fn answer(
    alloc: Global,
    cells: Option<&Cells>,
    expr: &Expr,
    overflow: bool,
) -> Result<String, AllocError> {
    let answers = Answers {
        seen: evaluated(alloc, cells, expr, overflow)?,
        yes: narrowed(alloc, cells, expr, true, overflow)?,
        no: narrowed(alloc, cells, expr, false, overflow)?,
    };
    let value = value_text(alloc, &answers.seen.value)?;
    let marks = marks_text(alloc, answers.seen.marks.as_slice())?;
    let yes = cells_text(alloc, answers.yes.as_ref())?;
    let no = cells_text(alloc, answers.no.as_ref())?;
    let verdict = verdict_text(alloc, compared(alloc, cells, expr, overflow, &answers)?)?;
    format!(in alloc; "{value} | {marks} | true: {yes} | false: {no} | {verdict}")
}

/// The answer of a chain: its operator, and how many there are.
fn chain_answer(alloc: Global, text: &str) -> Result<String, AllocError> {
    if let Some((op, links)) = text.split_once(' ')
        && let Some(op) = binary_named(op)
        && let Ok(links) = links.parse::<u32>()
    {
        return chain_text(alloc, op, links);
    }
    String::from_str(alloc, "no chain")
}

/// The answer of a question: cells, whether overflow is checked, and an expression, with semicolons between
/// them.
fn answer_of(alloc: Global, line: &str) -> Result<String, AllocError> {
    if let Some(text) = line.strip_prefix("chain ") {
        return chain_answer(alloc, text);
    }
    let (cells, rest) = line.split_once(';').unwrap_or(("", line));
    let (mode, text) = rest.split_once(';').unwrap_or(("", rest));
    let cells = cells_of(alloc, cells)?;
    match expression(alloc, text)? {
        None => String::from_str(alloc, "no expression"),
        Some(expr) => answer(alloc, cells.as_ref(), &expr, mode.trim() == "overflow"),
    }
}

/// The line with its answer.
pub(crate) fn line_of(alloc: Global, line: &str) -> Result<String, AllocError> {
    if line.is_empty() || line.starts_with("#") {
        return String::from_str(alloc, line);
    }
    let found = answer_of(alloc, line)?;
    format!(in alloc; "{line} => {found}")
}
