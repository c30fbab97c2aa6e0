//! What is answered of one line.

use crate::bytes::bytes_of;
use c_ir::PropTable;
use event_script::{Analyser, Script, ScriptFault, Wanted};
use status_history::{Change, Entry};
use std::alloc::{AllocError, Global};

/// The version that stands for a missing one.
const VERSION: u32 = 9;

/// What an entry says: its emitter, its status, its property, its version, and its hypotheses.
fn entry_text(alloc: Global, entry: &Entry) -> Result<String, AllocError> {
    let (emitter, status, prop) = (entry.emitter.0, entry.status.text(), entry.prop.0);
    let version = entry.version;
    let mut text = format!(in alloc; "{emitter} says {status} of {prop} at {version}")?;
    let mut separator = " under ";
    for hyp in entry.hyps.as_slice() {
        let number = hyp.0;
        text.push_str(format!(in alloc; "{separator}{number}")?.as_str())?;
        separator = " ";
    }
    Ok(text)
}

/// A change.
fn change_text(alloc: Global, change: &Change) -> Result<String, AllocError> {
    match change {
        Change::Register { name, correctness } => {
            let (name, set) = (name.as_str(), correctness.0);
            format!(in alloc; "{name} rests on {set}")
        }
        Change::Param { number, value } => format!(in alloc; "{number} is {value}"),
        Change::Emit(entry) => entry_text(alloc, entry),
    }
}

/// What a line asks for, or why it isn't read.
fn answer(alloc: Global, wanted: &Result<Wanted, ScriptFault>) -> Result<String, AllocError> {
    match wanted {
        Ok(Wanted::Blank) => String::from_str(alloc, "blank"),
        Ok(Wanted::Do(change)) => change_text(alloc, change),
        Ok(Wanted::Run(Analyser::Rte)) => String::from_str(alloc, "run rte"),
        Ok(Wanted::Run(Analyser::Eva)) => String::from_str(alloc, "run eva"),
        Err(ScriptFault::Form) => String::from_str(alloc, "form"),
        Err(ScriptFault::Memory) => String::from_str(alloc, "memory"),
    }
}

/// The line with its answer.
pub(crate) fn line_of(
    alloc: Global,
    script: &mut Script,
    props: &PropTable,
    line: &str,
) -> Result<String, AllocError> {
    if line.is_empty() || line.starts_with("#") {
        return String::from_str(alloc, line);
    }
    let bytes = bytes_of(alloc, line)?;
    let wanted = script.line(bytes.as_slice(), props, VERSION);
    let found = answer(alloc, &wanted)?;
    format!(in alloc; "{line} => {found}")
}
