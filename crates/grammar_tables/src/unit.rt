//! The first item of a text of C.

use crate::tree::{add, show};
use c_ast::{Function, Global as Object, Init, Item, Length, Stmt, Unit};
use c_parse::ParseFault;
use std::alloc::{AllocError, Global};
use std::str;

/// An expression or an `if`; `other` for another statement.
fn show_stmt(alloc: Global, out: &mut String, stmt: &Stmt) -> Result<(), AllocError> {
    match stmt {
        Stmt::Expression { expr, .. } => show(alloc, out, expr),
        Stmt::If { cond, yes, no, .. } => {
            out.push_str("if ")?;
            show(alloc, out, cond)?;
            out.push_str(" {")?;
            show_stmt(alloc, out, yes.stmt.get())?;
            out.push_str("}")?;
            match no {
                Some(no) => {
                    out.push_str(" else {")?;
                    show_stmt(alloc, out, no.stmt.get())?;
                    out.push_str("}")
                }
                None => Ok(()),
            }
        }
        _ => out.push_str("other"),
    }
}

/// What the length of an object without value is.
fn length_text(length: &Length) -> &'static str {
    match length {
        Length::Scalar => "scalar",
        Length::Open => "open",
        Length::Of(_) => "array",
    }
}

/// The value of the first object that is declared, or its length where it has none.
fn show_object(alloc: Global, out: &mut String, object: &Object) -> Result<(), AllocError> {
    match object.declrs.as_slice().split_first() {
        Some((first, _)) => match &first.value {
            Init::Nothing => out.push_str(length_text(&first.length)),
            Init::One(value) => show(alloc, out, value),
            Init::Many(values) => {
                let count = values.len();
                add(out, format!(in alloc; "{count} values"))
            }
        },
        None => out.push_str("none"),
    }
}

/// The first statement of a function's body, or the value of an object.
fn show_item(alloc: Global, out: &mut String, item: &Item) -> Result<(), AllocError> {
    match item {
        Item::Note(_) => out.push_str("note"),
        Item::Function(
            Function {
                body: Some(body),
                ..
            },
        ) => match body.as_slice().split_first() {
            Some((first, _)) => show_stmt(alloc, out, first),
            None => out.push_str("empty"),
        },
        Item::Function(_) => out.push_str("prototype"),
        Item::Global(object) => show_object(alloc, out, object),
    }
}

/// The first item of a text.
pub(crate) fn unit_text(alloc: Global, unit: &Unit) -> Result<String, AllocError> {
    let mut out = String::new(alloc);
    match unit.items.as_slice().split_first() {
        Some((first, _)) => show_item(alloc, &mut out, first)?,
        None => out.push_str("no items")?,
    }
    Ok(out)
}

/// Why a text isn't read, and where its reading stops.
pub(crate) fn parse_fault_text(alloc: Global, fault: &ParseFault) -> Result<String, AllocError> {
    match fault {
        ParseFault::NotC(at) => format!(in alloc; "NotC {at}"),
        ParseFault::Unsupported(word, at) => {
            let word = str::from_utf8(word.as_slice()).unwrap_or("?");
            format!(in alloc; "Unsupported {word} {at}")
        }
        ParseFault::TooDeep(at) => format!(in alloc; "TooDeep {at}"),
        ParseFault::Memory => String::from_str(alloc, "Memory"),
    }
}
