//! Formulas of annotations with parentheses round each operation and round each chain.

use crate::tree::add;
use c_ast::{Formula, Link};
use fc_base::{NoteOp, Relation};
use std::alloc::{AllocError, Global};

fn op_text(op: NoteOp) -> &'static str {
    match op {
        NoteOp::Iff => "<==>",
        NoteOp::Implies => "==>",
        NoteOp::Or => "||",
        NoteOp::And => "&&",
        NoteOp::Add => "+",
        NoteOp::Sub => "-",
        NoteOp::Mul => "*",
        NoteOp::Div => "/",
        NoteOp::Rem => "%",
    }
}

fn relation_text(relation: Relation) -> &'static str {
    match relation {
        Relation::Less => "<",
        Relation::LessEq => "<=",
        Relation::Greater => ">",
        Relation::GreaterEq => ">=",
        Relation::Equal => "==",
        Relation::NotEqual => "!=",
    }
}

/// What stands before the first part.
fn show_before(alloc: Global, out: &mut String, formula: &Formula) -> Result<(), AllocError> {
    match formula {
        Formula::Number { value, .. } => add(out, format!(in alloc; "{value}")),
        Formula::Name(ident) => out.push_str(ident.name.as_str()),
        Formula::Index { of, .. } => {
            out.push_str(of.name.as_str())?;
            out.push_str("[")
        }
        Formula::Result { .. } => out.push_str("result"),
        Formula::Old { .. } => out.push_str("(old "),
        Formula::True { .. } => out.push_str("true"),
        Formula::False { .. } => out.push_str("false"),
        Formula::Neg { .. } => out.push_str("(-"),
        Formula::Not { .. } => out.push_str("(!"),
        Formula::Binary { .. } | Formula::Chain { .. } => out.push_str("("),
        Formula::Forall { name, .. } => {
            out.push_str("(all ")?;
            out.push_str(name.name.as_str())?;
            out.push_str(". ")
        }
    }
}

/// What stands after the last part.
fn text_after(formula: &Formula) -> &'static str {
    match formula {
        Formula::Number { .. } | Formula::Name(_) | Formula::Result { .. } => "",
        Formula::True { .. } | Formula::False { .. } => "",
        Formula::Index { .. } => "]",
        _ => ")",
    }
}

/// The relations of a chain, each with what stands after it.
#[cycle(show)]
fn show_links(alloc: Global, out: &mut String, links: &[Link]) -> Result<(), AllocError> {
    for link in links {
        out.push_str(relation_text(link.relation))?;
        show(alloc, out, &link.right)?;
    }
    Ok(())
}

/// A formula with parentheses round each operation and round each chain.
#[cycle(show)]
pub(crate) fn show(alloc: Global, out: &mut String, formula: &Formula) -> Result<(), AllocError> {
    show_before(alloc, out, formula)?;
    match formula {
        Formula::Number { .. } | Formula::Name(_) | Formula::Result { .. } => {}
        Formula::True { .. } | Formula::False { .. } => {}
        Formula::Index { index, .. } => show(alloc, out, index.get())?,
        Formula::Old { of, .. } | Formula::Neg { of, .. } | Formula::Not { of, .. } => {
            show(alloc, out, of.get())?
        }
        Formula::Binary {
            op,
            left,
            right,
            ..
        } => {
            show(alloc, out, left.get())?;
            out.push_str(op_text(*op))?;
            show(alloc, out, right.get())?;
        }
        Formula::Chain { first, rest, .. } => {
            show(alloc, out, first.get())?;
            show_links(alloc, out, rest.as_slice())?;
        }
        Formula::Forall { body, .. } => show(alloc, out, body.get())?,
    }
    out.push_str(text_after(formula))
}
