//! The clauses and the statements of a program as short texts.

use crate::formula::{add, show};
use c_ir::{Fun, PointClause, Program, Stmt};
use fc_base::{FnId, PointId};
use std::alloc::{AllocError, Global};

/// A clause: its kind, its label, its line, and what it says.
fn show_clause(alloc: Global, out: &mut String, clause: &PointClause) -> Result<(), AllocError> {
    let (kind, label, line) = (clause.kind.text(), clause.label.as_str(), clause.line.0);
    let space = if label.is_empty() { "" } else { " " };
    add(out, format!(in alloc; "{kind}{space}{label}:{line} "))?;
    show(alloc, out, &clause.pred)
}

/// The clauses of a point, each after the function's name and the number of the point in it.
fn show_point(
    alloc: Global,
    out: &mut String,
    f: &Fun,
    point: u32,
    clauses: &[PointClause],
) -> Result<(), AllocError> {
    let (name, number) = (f.name.as_str(), point.saturating_sub(f.entry.0));
    for clause in clauses {
        let separator = if out.is_empty() { "" } else { "; " };
        add(out, format!(in alloc; "{separator}{name}@{number} "))?;
        show_clause(alloc, out, clause)?;
    }
    Ok(())
}

/// The clauses of a function.
fn show_function(
    alloc: Global,
    out: &mut String,
    program: &Program,
    function: FnId,
    f: &Fun,
) -> Result<(), AllocError> {
    let mut number: u32 = 0;
    for point in program.points.as_slice() {
        if point.owner == function {
            show_point(alloc, out, f, number, point.clauses.as_slice())?;
        }
        number = number.saturating_add(1);
    }
    Ok(())
}

/// All clauses, by function and then by point; `no clauses` where there are none.
pub(crate) fn show_clauses(alloc: Global, program: &Program) -> Result<String, AllocError> {
    let mut out = String::new(alloc);
    let mut number: u32 = 0;
    for f in program.fns.as_slice() {
        show_function(alloc, &mut out, program, FnId(number), f)?;
        number = number.saturating_add(1);
    }
    if out.is_empty() {
        out.push_str("no clauses")?;
    }
    Ok(out)
}

/// The point of a statement that stands before those that it governs, and a word.
fn word_of(s: &Stmt) -> Option<(PointId, &'static str)> {
    match s {
        Stmt::Declare { point, .. } => Some((*point, "declare")),
        Stmt::Expression { point, .. } => Some((*point, "expr")),
        Stmt::If { point, .. } => Some((*point, "if")),
        Stmt::While { point, .. } => Some((*point, "while")),
        Stmt::DoWhile { point, .. } => Some((*point, "do")),
        Stmt::Break { point } => Some((*point, "break")),
        Stmt::Continue { point } => Some((*point, "continue")),
        Stmt::Return { point, .. } => Some((*point, "return")),
        Stmt::Empty { point } => Some((*point, "empty")),
        Stmt::Clause { point } => Some((*point, "clause")),
        Stmt::For { .. } | Stmt::Block { .. } | Stmt::Note { .. } => None,
    }
}

/// A word, after the number of a point in the function whose entry this is.
fn show_word(
    alloc: Global,
    out: &mut String,
    entry: u32,
    point: PointId,
    word: &str,
) -> Result<(), AllocError> {
    let number = point.0.saturating_sub(entry);
    add(out, format!(in alloc; "{number}:{word} "))
}

/// Statements in braces.
#[cycle(stmts)]
fn show_stmts(alloc: Global, out: &mut String, entry: u32, all: &[Stmt]) -> Result<(), AllocError> {
    out.push_str("{ ")?;
    for s in all {
        show_stmt(alloc, out, entry, s)?;
    }
    out.push_str("} ")
}

/// A statement: its point, a word, and the statements that it governs. A `for` is what stands first, the point, the
/// body, the update.
#[cycle(stmts)]
fn show_stmt(alloc: Global, out: &mut String, entry: u32, s: &Stmt) -> Result<(), AllocError> {
    if let Some((point, word)) = word_of(s) {
        show_word(alloc, out, entry, point, word)?;
    }
    match s {
        Stmt::If { yes, no, .. } => {
            show_stmts(alloc, out, entry, yes.as_slice())?;
            show_stmts(alloc, out, entry, no.as_slice())
        }
        Stmt::While { body, .. } | Stmt::DoWhile { body, .. } => {
            show_stmts(alloc, out, entry, body.as_slice())
        }
        Stmt::For {
            first,
            point,
            body,
            update,
            ..
        } => {
            show_stmts(alloc, out, entry, first.as_slice())?;
            show_word(alloc, out, entry, *point, "for")?;
            show_stmts(alloc, out, entry, body.as_slice())?;
            show_stmts(alloc, out, entry, update.as_slice())
        }
        Stmt::Block { stmts } => show_stmts(alloc, out, entry, stmts.as_slice()),
        Stmt::Note { .. } => out.push_str("note "),
        _ => Ok(()),
    }
}

/// The body of the function that is declared last, and its exit.
pub(crate) fn show_body(alloc: Global, program: &Program) -> Result<String, AllocError> {
    let mut out = String::new(alloc);
    if let Some((f, _)) = program.fns.as_slice().split_last() {
        let entry = f.entry.0;
        if let Some(body) = &f.body {
            show_stmts(alloc, &mut out, entry, body.as_slice())?;
        }
        let exit = f.exit.0.saturating_sub(entry);
        add(&mut out, format!(in alloc; "{exit}:exit"))?;
    }
    Ok(out)
}
