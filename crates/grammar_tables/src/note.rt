//! Annotations as short texts.

use crate::formula::show;
use acsl_read::AcslFault;
use c_ast::{Annot, AnnotKind, Clause, ClauseBody, ClauseKind, Ident, Loc, LocIndex};
use std::alloc::{AllocError, Global};
use std::str;

fn kind_text(kind: ClauseKind) -> &'static str {
    match kind {
        ClauseKind::Requires => "requires",
        ClauseKind::Ensures => "ensures",
        ClauseKind::Assigns => "assigns",
        ClauseKind::LoopInvariant => "loop invariant",
        ClauseKind::LoopAssigns => "loop assigns",
        ClauseKind::Assert => "assert",
        ClauseKind::Check => "check",
        ClauseKind::Admit => "admit",
    }
}

/// A place that may be assigned.
fn show_place(alloc: Global, out: &mut String, place: &Loc) -> Result<(), AllocError> {
    out.push_str(" ")?;
    out.push_str(place.name.name.as_str())?;
    match &place.index {
        LocIndex::Nothing => Ok(()),
        LocIndex::One(index) => {
            out.push_str("[")?;
            show(alloc, out, index)?;
            out.push_str("]")
        }
        LocIndex::Range(from, to) => {
            out.push_str("[(")?;
            show(alloc, out, from)?;
            out.push_str("..")?;
            show(alloc, out, to)?;
            out.push_str(")]")
        }
        LocIndex::Whole => out.push_str("[..]"),
    }
}

fn show_label(out: &mut String, label: &Option<Ident>) -> Result<(), AllocError> {
    match label {
        Some(name) => {
            out.push_str(" ")?;
            out.push_str(name.name.as_str())?;
            out.push_str(":")
        }
        None => Ok(()),
    }
}

/// A clause: its kind, its label, and what it says or which places it names.
fn show_clause(alloc: Global, out: &mut String, clause: &Clause) -> Result<(), AllocError> {
    out.push_str(kind_text(clause.kind))?;
    show_label(out, &clause.label)?;
    match &clause.body {
        ClauseBody::Says(formula) => {
            out.push_str(" ")?;
            show(alloc, out, formula)
        }
        ClauseBody::Places(places) => {
            for place in places.as_slice() {
                show_place(alloc, out, place)?;
            }
            Ok(())
        }
    }
}

/// An annotation: a letter for its kind, and its clauses.
pub(crate) fn annot_text(alloc: Global, annot: &Annot) -> Result<String, AllocError> {
    let mut out = String::new(alloc);
    out.push_str(match annot.kind {
        AnnotKind::Contract => "C:",
        AnnotKind::LoopNote => "L:",
        AnnotKind::CodeNote => "N:",
    })?;
    for clause in annot.clauses.as_slice() {
        out.push_str(" ")?;
        show_clause(alloc, &mut out, clause)?;
        out.push_str(";")?;
    }
    Ok(out)
}

/// Why a note is no annotation, and where its reading stops.
pub(crate) fn acsl_fault_text(alloc: Global, fault: &AcslFault) -> Result<String, AllocError> {
    match fault {
        AcslFault::NotAcsl(at) => format!(in alloc; "NotAcsl {at}"),
        AcslFault::Unsupported(word, at) => {
            let word = str::from_utf8(word.as_slice()).unwrap_or("?");
            format!(in alloc; "Unsupported {word} {at}")
        }
        AcslFault::TooDeep(at) => format!(in alloc; "TooDeep {at}"),
        AcslFault::Memory => String::from_str(alloc, "Memory"),
    }
}
