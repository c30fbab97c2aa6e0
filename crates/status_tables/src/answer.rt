//! What is answered of one line.

use crate::dice::Dice;
use crate::line::{LineFault, history, inputs, number};
use crate::tables::Tables;
use crate::{certificates, fetches, judged, slow};
use c_ir::PropTable;
use fc_base::Verdict;
use status_history::History;
use status_rules::{current, full};
use std::alloc::{AllocError, Global};

/// What a line is.
#[derive(Clone, Copy)]
pub(crate) enum Part {
    /// A history over the first table.
    Small,
    /// A history over the table of admitted properties.
    Admitted,
    /// The inputs of one verdict.
    Inputs,
    /// A number of histories over the first table, which are rolled.
    Dice,
    /// A history over the first table, and a property whose support is asked for.
    Support,
    /// A history over the first table, and steps.
    Check,
    /// A history over the first table, and a change after it.
    Judge,
    /// A history over the first table, a cursor and a limit.
    Fetch,
}

impl Part {
    /// The part with this name; `Dice` for another name.
    pub(crate) fn named(name: &str) -> Part {
        match name {
            "small" => Part::Small,
            "admitted" => Part::Admitted,
            "inputs" => Part::Inputs,
            "support" => Part::Support,
            "check" => Part::Check,
            "judge" => Part::Judge,
            "fetch" => Part::Fetch,
            _ => Part::Dice,
        }
    }
}

/// Whether the slow program comes to these verdicts.
fn is_same(history: &History, props: &PropTable, verdicts: &[Verdict]) -> bool {
    let mut place: u32 = 0;
    for verdict in verdicts {
        if slow::verdict(history, props, place) != *verdict {
            return false;
        }
        place = place.saturating_add(1);
    }
    true
}

fn same_text(is_same: bool) -> &'static str {
    if is_same { "same" } else { "differs" }
}

/// The places of the current entries.
fn current_text(alloc: Global, history: &History) -> Result<String, AllocError> {
    let entries = current(alloc, history)?;
    if entries.is_empty() {
        return String::from_str(alloc, "current none");
    }
    let mut out = String::from_str(alloc, "current")?;
    for found in entries.as_slice() {
        let place = found.place;
        out.push_str(format!(in alloc; " {place}")?.as_str())?;
    }
    Ok(out)
}

/// Verdicts with blanks between them.
fn verdicts_text(alloc: Global, verdicts: &[Verdict]) -> Result<String, AllocError> {
    let mut out = String::new(alloc);
    let mut separator = "";
    for verdict in verdicts {
        out.push_str(separator)?;
        out.push_str(verdict.text())?;
        separator = " ";
    }
    Ok(out)
}

/// The verdicts of all properties, the places of the current entries, and whether the slow program says the same.
fn of_history(alloc: Global, props: &PropTable, history: &History) -> Result<String, AllocError> {
    let verdicts = full(alloc, history, props)?;
    let shown = verdicts_text(alloc, verdicts.as_slice())?;
    let entries = current_text(alloc, history)?;
    let same = same_text(is_same(history, props, verdicts.as_slice()));
    format!(in alloc; "{shown}; {entries}; {same}")
}

/// The same of a line.
fn of_line(alloc: Global, props: &PropTable, line: &str) -> Result<String, LineFault> {
    let history = history(alloc, line)?;
    let text = of_history(alloc, props, &history)?;
    Ok(text)
}

/// The verdict that inputs come to.
fn of_inputs(alloc: Global, line: &str) -> Result<String, LineFault> {
    let text = String::from_str(alloc, inputs(line)?.verdict().text())?;
    Ok(text)
}

/// Notes which verdicts are met.
fn note_met(met: &mut [bool; 11], verdicts: &[Verdict]) {
    for (flag, verdict) in met.iter_mut().zip(Verdict::all().iter()) {
        *flag = *flag || verdicts.contains(verdict);
    }
}

/// How many flags are set.
fn count(flags: &[bool]) -> u32 {
    let mut count: u32 = 0;
    for flag in flags {
        if *flag {
            count = count.saturating_add(1);
        }
    }
    count
}

/// Whether the slow program says the same of so many histories, and how many verdicts are met.
fn of_dice(alloc: Global, props: &PropTable, line: &str) -> Result<String, LineFault> {
    let mut dice = Dice { state: 2026 };
    let mut met = [false; 11];
    let mut all_same = true;
    for place in 0..number(line)? {
        let length = u16::try_from(place % 20).unwrap_or(0).saturating_add(1);
        let history = dice.history(alloc, length)?;
        let verdicts = full(alloc, &history, props)?;
        all_same = all_same && is_same(&history, props, verdicts.as_slice());
        note_met(&mut met, verdicts.as_slice());
    }
    let (same, count) = (same_text(all_same), count(&met));
    let text = format!(in alloc; "{same}; {count} verdicts")?;
    Ok(text)
}

/// What is answered of a line that is read.
fn answer(alloc: Global, part: Part, tables: &Tables, line: &str) -> Result<String, LineFault> {
    match part {
        Part::Small => of_line(alloc, &tables.small, line),
        Part::Admitted => of_line(alloc, &tables.admitted, line),
        Part::Inputs => of_inputs(alloc, line),
        Part::Dice => of_dice(alloc, &tables.small, line),
        Part::Support => certificates::of_support(alloc, &tables.small, line),
        Part::Check => certificates::of_check(alloc, &tables.small, line),
        Part::Judge => judged::of_change(alloc, &tables.small, line),
        Part::Fetch => fetches::of_fetch(alloc, &tables.small, line),
    }
}

/// The line with its answer.
pub(crate) fn line_of(
    alloc: Global,
    part: Part,
    tables: &Tables,
    line: &str,
) -> Result<String, AllocError> {
    if line.is_empty() || line.starts_with("#") || line.starts_with("= ") {
        return String::from_str(alloc, line);
    }
    match answer(alloc, part, tables, line) {
        Ok(found) => format!(in alloc; "{line} => {found}"),
        Err(LineFault::Form) => format!(in alloc; "{line} => no line of the table"),
        Err(LineFault::Memory) => Err(AllocError),
    }
}
