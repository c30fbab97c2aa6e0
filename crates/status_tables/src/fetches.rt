//! Fetches of rows.

use crate::line::{LineFault, add_step, number, opened, two_parts};
use c_ir::PropTable;
use event_board::{PlacedVerdict, fetched};
use fc_base::Verdict;
use status_history::History;
use status_rules::{Cursor, Fetched, StatusRow, full};
use std::alloc::{AllocError, Global};

/// A history with its verdicts, each with the place of the last change that altered it.
#[derive(Drop)]
struct Traced {
    history: History,
    verdicts: Vec<PlacedVerdict>,
}

/// The number of changes.
fn len(history: &History) -> Result<u32, LineFault> {
    match u32::try_from(history.changes.len()) {
        Ok(count) => Ok(count),
        Err(_) => Err(LineFault::Form),
    }
}

/// Verdicts that no change altered.
fn unaltered(alloc: Global, verdicts: &[Verdict]) -> Result<Vec<PlacedVerdict>, AllocError> {
    let mut found = Vec::new(alloc);
    for verdict in verdicts {
        found.push(PlacedVerdict {
            verdict: *verdict,
            changed: 0,
        })?;
    }
    Ok(found)
}

/// Notes the place of a change where a verdict was another one before.
fn note_altered(before: &mut [PlacedVerdict], now: &[Verdict], place: u32) {
    for (old, new) in before.iter_mut().zip(now.iter()) {
        if old.verdict != *new {
            *old = PlacedVerdict {
                verdict: *new,
                changed: place,
            };
        }
    }
}

/// The history of a line, followed change by change. What is before the first change stands in the first step.
fn followed(alloc: Global, props: &PropTable, line: &str) -> Result<Traced, LineFault> {
    let mut history = opened(alloc);
    let mut verdicts = unaltered(alloc, full(alloc, &history, props)?.as_slice())?;
    for step in line.split(';') {
        add_step(alloc, &mut history, step)?;
        let now = full(alloc, &history, props)?;
        note_altered(verdicts.as_mut_slice(), now.as_slice(), len(&history)?);
    }
    Ok(Traced { history, verdicts })
}

/// A row with a comma before it, if it isn't the first.
fn add_row(alloc: Global, out: &mut String, row: StatusRow) -> Result<(), AllocError> {
    if !out.is_empty() {
        out.push_str(", ")?;
    }
    let (prop, verdict) = (row.prop.0, row.verdict.text());
    out.push_str(format!(in alloc; "{prop} {verdict}")?.as_str())
}

/// Rows with commas between them.
fn rows_text(alloc: Global, rows: &[StatusRow]) -> Result<String, AllocError> {
    if rows.is_empty() {
        return String::from_str(alloc, "nothing");
    }
    let mut out = String::new(alloc);
    for row in rows {
        add_row(alloc, &mut out, *row)?;
    }
    Ok(out)
}

/// What a fetch gave.
fn fetched_text(alloc: Global, found: &Fetched) -> Result<String, AllocError> {
    let rows = rows_text(alloc, found.rows.as_slice())?;
    let word = if found.more { "more" } else { "end" };
    match found.cursor {
        Cursor::Start => format!(in alloc; "{word} from the start: {rows}"),
        Cursor::After { place, prop } => format!(in alloc; "{word} after {place} {prop}: {rows}"),
    }
}

/// The cursor and the limit that a text is.
fn asked(alloc: Global, text: &str) -> Result<(Cursor, u32), LineFault> {
    let words: Vec<&str> = text.split_whitespace().collect(alloc)?;
    match *words.as_slice() {
        ["start", limit] => Ok((Cursor::Start, number(limit)?)),
        [place, prop, limit] => {
            let (place, prop) = (number(place)?, number(prop)?);
            Ok((Cursor::After { place, prop }, number(limit)?))
        }
        _ => Err(LineFault::Form),
    }
}

/// The rows that a line asks for.
pub(crate) fn of_fetch(alloc: Global, props: &PropTable, line: &str) -> Result<String, LineFault> {
    let (made, text) = two_parts(line)?;
    let found = followed(alloc, props, made)?;
    let (cursor, limit) = asked(alloc, text)?;
    let len = len(&found.history)?;
    if found.verdicts.len() > 65536 {
        return Err(LineFault::Form);
    }
    let given = fetched(alloc, found.verdicts.as_slice(), len, cursor, limit)?;
    let text = fetched_text(alloc, &given)?;
    Ok(text)
}
