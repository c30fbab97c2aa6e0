//! Histories and inputs of verdicts as lines of text.

use fc_base::{Bounded, EmitterId, LocalStatus, ParamSet, PropId};
use param_book::opening;
use sqlite_items::Items;
use status_history::{Change, Entry, History, Hyps};
use status_rules::VerdictInputs;
use std::alloc::{AllocError, Global};

/// Why a line isn't read.
#[derive(Clone, Copy)]
pub(crate) enum LineFault {
    /// It has none of the forms.
    Form,
    /// No memory.
    Memory,
}

impl From<AllocError> for LineFault {
    fn from(_: AllocError) -> LineFault {
        LineFault::Memory
    }
}

/// The number that a word is.
pub(crate) fn number(word: &str) -> Result<u32, LineFault> {
    match word.parse::<u32>() {
        Ok(number) => Ok(number),
        Err(_) => Err(LineFault::Form),
    }
}

/// The set of parameters that a word is, as a number whose bits they are.
fn set(word: &str) -> Result<ParamSet, LineFault> {
    match word.parse::<u16>() {
        Ok(bits) => Ok(ParamSet(bits)),
        Err(_) => Err(LineFault::Form),
    }
}

/// The number of a parameter that a word is.
fn param(word: &str) -> Result<u8, LineFault> {
    match word.parse::<u8>() {
        Ok(number) => Ok(number),
        Err(_) => Err(LineFault::Form),
    }
}

/// The value that a word is.
fn value(word: &str) -> Result<i64, LineFault> {
    match word.parse::<i64>() {
        Ok(value) => Ok(value),
        Err(_) => Err(LineFault::Form),
    }
}

/// The status that a word is.
fn status(word: &str) -> Result<LocalStatus, LineFault> {
    match word {
        "True" => Ok(LocalStatus::True),
        "Dont_know" => Ok(LocalStatus::DontKnow),
        "False_if_reachable" => Ok(LocalStatus::FalseIfReachable),
        "False_and_reachable" => Ok(LocalStatus::FalseAndReachable),
        _ => Err(LineFault::Form),
    }
}

/// Adds the hypotheses that a word is: the number of a property, or `P*N` for one that stands N times.
fn add_hyps(hyps: &mut Hyps, word: &str) -> Result<(), LineFault> {
    let mut parts = word.split('*');
    let prop = PropId(number(parts.next().unwrap_or(""))?);
    let count = match parts.next() {
        Some(count) => number(count)?,
        None => 1,
    };
    for _ in 0..count {
        hyps.push(prop)?;
    }
    Ok(())
}

/// The words of an entry without its version.
#[derive(Clone, Copy)]
struct Said<'a> {
    emitter: &'a str,
    prop: &'a str,
    status: &'a str,
}

/// The entry that an emitter, a property, a status and hypotheses make, at a version.
fn entry(alloc: Global, version: &str, said: Said, words: &[&str]) -> Result<Change, LineFault> {
    let mut hyps = Items::new(alloc);
    for word in words {
        add_hyps(&mut hyps, word)?;
    }
    Ok(Change::Emit(Entry {
        emitter: EmitterId(number(said.emitter)?),
        prop: PropId(number(said.prop)?),
        status: status(said.status)?,
        hyps,
        version: number(version)?,
    }))
}

/// The registration under a name.
fn registration(alloc: Global, name: &str, bits: &str) -> Result<Change, LineFault> {
    if name.len() > 256 {
        return Err(LineFault::Form);
    }
    Ok(Change::Register {
        name: Bounded::new(alloc, name)?,
        correctness: set(bits)?,
    })
}

/// The change that words are.
pub(crate) fn change(alloc: Global, words: &[&str]) -> Result<Change, LineFault> {
    match *words {
        ["register", bits] => registration(alloc, "", bits),
        ["register", name, bits] => registration(alloc, name, bits),
        ["param", name, word] => Ok(Change::Param {
            number: param(name)?,
            value: value(word)?,
        }),
        ["emit", emitter, prop, status, ref hyps @ ..] => {
            entry(
                alloc,
                "0",
                Said {
                    emitter,
                    prop,
                    status,
                },
                hyps,
            )
        }
        ["at", version, emitter, prop, status, ref hyps @ ..] => {
            entry(
                alloc,
                version,
                Said {
                    emitter,
                    prop,
                    status,
                },
                hyps,
            )
        }
        _ => Err(LineFault::Form),
    }
}

/// Adds so many registrations without a name.
fn add_emitters(alloc: Global, history: &mut History, count: u32) -> Result<(), LineFault> {
    for _ in 0..count {
        history.changes.push(Change::Register {
            name: Bounded::new(alloc, "")?,
            correctness: ParamSet(0),
        })?;
    }
    Ok(())
}

/// Adds so many settings of parameter 8 to 0.
fn add_settings(history: &mut History, count: u32) -> Result<(), LineFault> {
    for _ in 0..count {
        history.changes.push(Change::Param {
            number: 8,
            value: 0,
        })?;
    }
    Ok(())
}

/// Adds what the words of one step say.
pub(crate) fn add_step(alloc: Global, history: &mut History, step: &str) -> Result<(), LineFault> {
    let words: Vec<&str> = step.split_whitespace().collect(alloc)?;
    match *words.as_slice() {
        ["nothing"] => Ok(()),
        ["entry", function] => {
            history.opening = opening(number(function)?, false);
            Ok(())
        }
        ["registers", count] => add_emitters(alloc, history, number(count)?),
        ["settings", count] => add_settings(history, number(count)?),
        _ => {
            let change = change(alloc, words.as_slice())?;
            history.changes.push(change)?;
            Ok(())
        }
    }
}

/// A history without changes.
pub(crate) fn opened(alloc: Global) -> History {
    History {
        opening: opening(0, false),
        changes: Items::new(alloc),
    }
}

/// The history that a line is.
pub(crate) fn history(alloc: Global, line: &str) -> Result<History, LineFault> {
    let mut history = opened(alloc);
    for step in line.split(';') {
        add_step(alloc, &mut history, step)?;
    }
    Ok(history)
}

/// The two parts of a line: a history, and what is asked of it.
pub(crate) fn two_parts(line: &str) -> Result<(&str, &str), LineFault> {
    let mut parts = line.split('|');
    match (parts.next(), parts.next()) {
        (Some(history), Some(asked)) => Ok((history, asked)),
        _ => Err(LineFault::Form),
    }
}

/// Notes what a word says of a property.
fn add_input(inputs: &mut VerdictInputs, word: &str) -> Result<(), LineFault> {
    match word {
        "nothing" => {}
        "admitted" => inputs.admitted = true,
        "held" => inputs.held = true,
        "refuted" => inputs.refuted = true,
        "unvisited" => inputs.unvisited = true,
        "proven" => inputs.proven = true,
        "disproven" => inputs.disproven = true,
        "tried" => inputs.tried = true,
        "said_true" => inputs.said_true = true,
        "said_false" => inputs.said_false = true,
        _ => return Err(LineFault::Form),
    }
    Ok(())
}

/// The inputs of a verdict that a line names.
pub(crate) fn inputs(line: &str) -> Result<VerdictInputs, LineFault> {
    let mut inputs = VerdictInputs {
        admitted: false,
        held: false,
        refuted: false,
        unvisited: false,
        proven: false,
        disproven: false,
        tried: false,
        said_true: false,
        said_false: false,
    };
    for word in line.split_whitespace() {
        add_input(&mut inputs, word)?;
    }
    Ok(inputs)
}
