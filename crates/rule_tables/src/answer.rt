//! What is answered of one line.

use crate::props::prop_text;
use crate::trees::call_text;
use crate::values::value_text;
use c_ir::PropTable;
use std::alloc::{AllocError, Global};

/// What a line asks.
#[derive(Clone, Copy)]
pub(crate) enum Part {
    /// The value of an expression.
    Values,
    /// The calls of a tree that has this name.
    Calls,
    /// A name, a number or a function of the table of properties.
    Properties,
}

impl Part {
    /// The part with this name; `Properties` for another name.
    pub(crate) fn named(name: &str) -> Part {
        match name {
            "values" => Part::Values,
            "calls" => Part::Calls,
            _ => Part::Properties,
        }
    }
}

/// The line with its answer.
pub(crate) fn line_of(
    alloc: Global,
    part: Part,
    props: &PropTable,
    line: &str,
) -> Result<String, AllocError> {
    if line.is_empty() || line.starts_with("#") || line.starts_with("= ") {
        return String::from_str(alloc, line);
    }
    let found = match part {
        Part::Values => value_text(alloc, line)?,
        Part::Calls => call_text(alloc, line)?,
        Part::Properties => prop_text(alloc, props, line)?,
    };
    format!(in alloc; "{line} => {found}")
}
