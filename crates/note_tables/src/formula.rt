//! Predicates and terms as short texts.

use c_ir::Pred;
use fc_base::{NoteOp, Relation};
use std::alloc::{AllocError, Global};

fn op_text(op: NoteOp) -> &'static str {
    match op {
        NoteOp::Iff => " <==> ",
        NoteOp::Implies => " ==> ",
        NoteOp::Or => " || ",
        NoteOp::And => " && ",
        NoteOp::Add => " + ",
        NoteOp::Sub => " - ",
        NoteOp::Mul => " * ",
        NoteOp::Div => " / ",
        NoteOp::Rem => " % ",
    }
}

fn relation_text(relation: Relation) -> &'static str {
    match relation {
        Relation::Less => " < ",
        Relation::LessEq => " <= ",
        Relation::Greater => " > ",
        Relation::GreaterEq => " >= ",
        Relation::Equal => " == ",
        Relation::NotEqual => " != ",
    }
}

/// Adds a text that was made.
pub(crate) fn add(out: &mut String, text: Result<String, AllocError>) -> Result<(), AllocError> {
    let text = text?;
    out.push_str(text.as_str())
}

/// What stands before the first part.
fn show_before(alloc: Global, out: &mut String, p: &Pred) -> Result<(), AllocError> {
    match p {
        Pred::Number { value } => add(out, format!(in alloc; "{value}")),
        Pred::Cell { cell } => add(out, format!(in alloc; "c{cell}")),
        Pred::Element { first, length, .. } => add(out, format!(in alloc; "c{first}/{length}[")),
        Pred::Bound { between } => add(out, format!(in alloc; "i{between}")),
        Pred::Old { .. } => out.push_str("\\old("),
        Pred::True => out.push_str("\\true"),
        Pred::False => out.push_str("\\false"),
        Pred::Neg { .. } => out.push_str("(-"),
        Pred::Not { .. } => out.push_str("(!"),
        Pred::Binary { .. } | Pred::Related { .. } => out.push_str("("),
        Pred::Forall { low_strict, .. } => {
            out.push_str(if *low_strict {
                "(\\forall ("
            } else {
                "(\\forall ["
            })
        }
    }
}

/// What stands after the last part.
fn text_after(p: &Pred) -> &'static str {
    match p {
        Pred::Number { .. } | Pred::Cell { .. } | Pred::Bound { .. } => "",
        Pred::True | Pred::False => "",
        Pred::Element { .. } => "]",
        _ => ")",
    }
}

/// A predicate or a term: cells are `c0`; an element has the first cell and the length of its array before its index;
/// a name that a `\forall` binds is `i` with the number of `\forall` between it and its own; the bounds of a `\forall`
/// stand between parentheses where they are strict, and else between brackets.
#[cycle(show)]
pub(crate) fn show(alloc: Global, out: &mut String, p: &Pred) -> Result<(), AllocError> {
    show_before(alloc, out, p)?;
    match p {
        Pred::Number { .. } | Pred::Cell { .. } | Pred::Bound { .. } => {}
        Pred::True | Pred::False => {}
        Pred::Element { index: of, .. } | Pred::Old { of } | Pred::Neg { of } | Pred::Not { of } =>
            show(alloc, out, of.get())?,
        Pred::Binary { op, left, right } => {
            show(alloc, out, left.get())?;
            out.push_str(op_text(*op))?;
            show(alloc, out, right.get())?;
        }
        Pred::Related {
            relation,
            left,
            right,
        } => {
            show(alloc, out, left.get())?;
            out.push_str(relation_text(*relation))?;
            show(alloc, out, right.get())?;
        }
        Pred::Forall {
            low,
            high,
            high_strict,
            body,
            ..
        } => {
            show(alloc, out, low.get())?;
            out.push_str(",")?;
            show(alloc, out, high.get())?;
            out.push_str(if *high_strict { ") " } else { "] " })?;
            show(alloc, out, body.get())?;
        }
    }
    out.push_str(text_after(p))
}
