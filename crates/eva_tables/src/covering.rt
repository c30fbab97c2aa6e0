//! Whether abstract answers cover what runs come to.

use crate::choices::{Choice, Choices, stands_for};
use crate::run::{Run, Stop, Visit};
use abs_cells::Cells;
use c_ir::{AlarmKind, Expr};
use eva_values::{Seen, SiteMark};
use int_interval::Said;
use std::alloc::{AllocError, Global};

/// What is answered of an expression: its value and marks, and the cells for which it comes out true and
/// false.
#[derive(Drop)]
pub(crate) struct Answers {
    pub(crate) seen: Seen,
    pub(crate) yes: Option<Cells>,
    pub(crate) no: Option<Cells>,
}

/// What comparing answers with runs gave.
#[derive(Clone, Copy, Debug, PartialEq, Eq)]
pub(crate) enum Verdict {
    /// So many runs are covered.
    Covered(usize),
    /// A value isn't in the value that was answered.
    Value,
    /// A check that was visited has no mark, or one that is untrue of it.
    Mark,
    /// Cells are lost for which the expression comes out true or false.
    Lost,
    /// There are too many runs.
    Many,
}

/// Whether both are one kind.
fn is_kind(left: AlarmKind, right: AlarmKind) -> bool {
    left == right
}

/// Whether the mark is of this check.
fn is_of(mark: &SiteMark, visit: &Visit) -> bool {
    mark.site.0 == visit.site.0 && is_kind(mark.kind, visit.kind)
}

/// Whether what is said is true of a check that came out so.
fn is_true(said: Said, holds: bool) -> bool {
    match said {
        Said::Yes => holds,
        Said::No => !holds,
        Said::Maybe => true,
        Said::Unreached => false,
    }
}

/// Whether the check has a mark, and each of its marks is true of it.
fn is_marked(marks: &[SiteMark], visit: &Visit) -> bool {
    let mut is_there = false;
    for mark in marks {
        if is_of(mark, visit) {
            is_there = true;
            if !is_true(mark.said, visit.holds) {
                return false;
            }
        }
    }
    is_there
}

/// Whether each check that was visited is well marked.
fn are_marked(marks: &[SiteMark], visits: &[Visit]) -> bool {
    for visit in visits {
        if !is_marked(marks, visit) {
            return false;
        }
    }
    true
}

/// Whether the abstract cells stand for the concrete ones.
fn stand_for(cells: Option<&Cells>, concrete: &[Choice]) -> bool {
    let Some(cells) = cells else {
        return false;
    };
    if cells.len() != concrete.len() {
        return false;
    }
    for (number, choice) in concrete.iter().enumerate() {
        if !stands_for(&cells.get(number), *choice) {
            return false;
        }
    }
    true
}

/// What isn't covered of the run in these cells.
fn violated(
    alloc: Global,
    expr: &Expr,
    overflow: bool,
    answers: &Answers,
    cells: &[Choice],
) -> Result<Option<Verdict>, AllocError> {
    let mut run = Run {
        cells,
        overflow,
        visits: Vec::new(alloc),
    };
    let value = match run.value(expr) {
        Ok(number) => Some(number),
        Err(Stop::Undefined) => None,
        Err(Stop::Memory) => return Err(AllocError),
    };
    if !are_marked(answers.seen.marks.as_slice(), run.visits.as_slice()) {
        return Ok(Some(Verdict::Mark));
    }
    let Some(number) = value else {
        return Ok(None);
    };
    if !stands_for(&answers.seen.value, Some(number)) {
        return Ok(Some(Verdict::Value));
    }
    let left = if number != 0 {
        &answers.yes
    } else {
        &answers.no
    };
    if stand_for(left.as_ref(), cells) {
        Ok(None)
    } else {
        Ok(Some(Verdict::Lost))
    }
}

/// Compares the answers with the runs in all concrete cells.
pub(crate) fn compared(
    alloc: Global,
    cells: Option<&Cells>,
    expr: &Expr,
    overflow: bool,
    answers: &Answers,
) -> Result<Verdict, AllocError> {
    let Some(cells) = cells else {
        return Ok(Verdict::Covered(0));
    };
    let Some(choices) = Choices::of(alloc, cells)? else {
        return Ok(Verdict::Many);
    };
    let count = choices.count();
    for number in 0..count {
        let concrete = choices.numbered(alloc, number)?;
        if let Some(found) = violated(alloc, expr, overflow, answers, concrete.as_slice())? {
            return Ok(found);
        }
    }
    Ok(Verdict::Covered(count))
}
