//! Supports, and steps that are to be one.

use crate::line::{LineFault, history, number, two_parts};
use c_ir::PropTable;
use fc_base::PropId;
use sqlite_items::Items;
use status_history::History;
use status_rules::{Reason, Step, Support};
use std::alloc::{AllocError, Global};
use support_cert::{check, support};

/// The step that a text is.
fn step(alloc: Global, text: &str) -> Result<Step, LineFault> {
    let words: Vec<&str> = text.split_whitespace().collect(alloc)?;
    let (prop, reason) = match *words.as_slice() {
        [prop, "admitted"] => (prop, Reason::Admitted),
        [prop, "entry", place] => (prop, Reason::ByEntry(number(place)?)),
        [prop, "dead"] => (prop, Reason::ByDead),
        _ => return Err(LineFault::Form),
    };
    let prop = PropId(number(prop)?);
    Ok(Step { prop, reason })
}

/// The steps that a text is.
fn steps(alloc: Global, text: &str) -> Result<Support, LineFault> {
    let mut steps = Items::new(alloc);
    if text.trim() == "none" {
        return Ok(steps);
    }
    for part in text.split(',') {
        steps.push(step(alloc, part)?)?;
    }
    Ok(steps)
}

/// The text of a step.
fn step_text(alloc: Global, step: Step) -> Result<String, AllocError> {
    let prop = step.prop.0;
    match step.reason {
        Reason::Admitted => format!(in alloc; "{prop} admitted"),
        Reason::ByEntry(place) => format!(in alloc; "{prop} entry {place}"),
        Reason::ByDead => format!(in alloc; "{prop} dead"),
    }
}

/// Steps with commas between them.
fn steps_text(alloc: Global, steps: &[Step]) -> Result<String, AllocError> {
    let mut out = String::new(alloc);
    let mut separator = "";
    for step in steps {
        out.push_str(separator)?;
        out.push_str(step_text(alloc, *step)?.as_str())?;
        separator = ", ";
    }
    Ok(out)
}

/// A support, and whether it passes a check.
fn support_text(
    alloc: Global,
    history: &History,
    props: &PropTable,
    found: &Support,
) -> Result<String, AllocError> {
    let steps = steps_text(alloc, found.as_slice())?;
    let checked = if check(history, props, found) {
        "checked"
    } else {
        "refused"
    };
    format!(in alloc; "{steps}; {checked}")
}

/// The support of the property that a line asks for.
pub(crate) fn of_support(
    alloc: Global,
    props: &PropTable,
    line: &str,
) -> Result<String, LineFault> {
    let (made, asked) = two_parts(line)?;
    let history = history(alloc, made)?;
    if history.changes.len() > 200_000 {
        return Err(LineFault::Form);
    }
    let prop = PropId(number(asked.trim())?);
    let text = match support(alloc, &history, props, prop)? {
        Some(found) => support_text(alloc, &history, props, &found)?,
        None => String::from_str(alloc, "none")?,
    };
    Ok(text)
}

/// Of which property the steps of a line are a support.
pub(crate) fn of_check(alloc: Global, props: &PropTable, line: &str) -> Result<String, LineFault> {
    let (made, asked) = two_parts(line)?;
    let history = history(alloc, made)?;
    let steps = steps(alloc, asked)?;
    let last = steps.as_slice().last();
    let text = match last {
        Some(step) if check(&history, props, &steps) => {
            let prop = step.prop.0;
            format!(in alloc; "of {prop}")?
        }
        _ => String::from_str(alloc, "no support")?,
    };
    Ok(text)
}
