//! Changes, and what they are answered.

use crate::line::{LineFault, change, history, two_parts};
use c_ir::PropTable;
use event_board::{judge, judge_own};
use status_history::{Change, History};
use status_rules::{Placed, Refusal};
use std::alloc::{AllocError, Global};

/// What an entry of the program's own emitters is answered.
fn own(
    props: &PropTable,
    history: &History,
    change: &Change,
) -> Result<Result<Placed, Refusal>, LineFault> {
    match change {
        Change::Emit(entry) => Ok(judge_own(props, history, entry)),
        Change::Register { .. } | Change::Param { .. } => Err(LineFault::Form),
    }
}

/// The text of an answer.
fn answer_text(alloc: Global, answer: Result<Placed, Refusal>) -> Result<String, AllocError> {
    match answer {
        Ok(placed) => {
            let (at, version, value) = (placed.at, placed.version, placed.value);
            format!(in alloc; "at {at}, version {version}, value {value}")
        }
        Err(why) => format!(in alloc; "{why:?}"),
    }
}

/// What the change of a line is answered.
pub(crate) fn of_change(alloc: Global, props: &PropTable, line: &str) -> Result<String, LineFault> {
    let (made, asked) = two_parts(line)?;
    let history = history(alloc, made)?;
    let words: Vec<&str> = asked.split_whitespace().collect(alloc)?;
    let answer = match *words.as_slice() {
        ["own", ref rest @ ..] => own(props, &history, &change(alloc, rest)?)?,
        _ => judge(props, &history, &change(alloc, words.as_slice())?),
    };
    let text = answer_text(alloc, answer)?;
    Ok(text)
}
