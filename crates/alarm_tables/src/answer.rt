//! What is answered of one line.

ghost use Rattle.std.specs.Prelude.{◌≡◌, ◌≤◌, IfSome};
ghost use Rattle.c_ast.specs.Weight.{weight_of_unit};
ghost use Rattle.prop_table.specs.Rows.{rows_of, defined_of};

use crate::shown::{show_decided, show_links, show_sites};
use acsl_bind::bind;
use acsl_notes::{Annots, notes};
use c_ast::Unit;
use c_ir::{Program, PropTable};
use c_types::check;
use fc_base::ParamValues;
use prop_table::table;
use rte_alarms::{call_links, sites, type_decided};
use std::alloc::{AllocError, Global};

/// What is shown.
#[derive(Clone, Copy)]
pub(crate) enum Part {
    /// The entries of preconditions.
    Links,
    /// The alarms that operand types decide.
    Decided,
    /// The checked operators.
    Sites,
}

impl Part {
    /// The part with this name; `Sites` for another name.
    pub(crate) fn named(name: &str) -> Part {
        match name {
            "links" => Part::Links,
            "decided" => Part::Decided,
            _ => Part::Sites,
        }
    }
}

/// The tree of a text, and its annotations.
fn read(alloc: Global, bytes: &[u8]) -> Option<(Unit, Annots)>
    ensures { IfSome result (λ p. weight_of_unit p.0 ≤ 4194304) }
{
    if bytes.len() > 1_000_000 {
        return None;
    }
    let Ok(tokens) = c_lex::tokens(alloc, bytes) else {
        return None;
    };
    let Ok(unit) = c_parse::parse(alloc, bytes, tokens.as_slice()) else {
        return None;
    };
    match notes(alloc, bytes, tokens.as_slice()) {
        Ok(annots) => Some((unit, annots)),
        Err(_) => None,
    }
}

/// The program of a text, with its annotations.
fn bound(alloc: Global, text: &str) -> Option<Program> {
    let (unit, annots) = read(alloc, text.as_bytes())?;
    let Ok(skeleton) = check(alloc, &unit) else {
        return None;
    };
    match bind(alloc, skeleton, annots.as_slice()) {
        Ok(program) => Some(program),
        Err(_) => None,
    }
}

/// The properties of a program.
#[tactic(auto, unfolding(prop_table::specs::Tables::Tables))]
fn table_of(alloc: Global, program: &Program) -> Option<PropTable>
    ensures { IfSome result (λ t. t ≡ record { rows = rows_of program.now; defined = defined_of program.now }) }
{
    match table(alloc, program) {
        Ok(props) => Some(props),
        Err(_) => None,
    }
}

/// The part of this program.
fn of_program(alloc: Global, part: Part, program: &Program) -> Result<String, AllocError> {
    let Some(props) = table_of(alloc, program) else {
        return String::from_str(alloc, "no table");
    };
    match part {
        Part::Links => {
            let links = call_links(alloc, program, &props, 0)?;
            show_links(alloc, props.rows(), links.as_slice())
        }
        Part::Decided => {
            let params = ParamValues { values: [0; 16] };
            let decided = type_decided(alloc, program, &props, &params, 0)?;
            show_decided(alloc, props.rows(), decided.as_slice())
        }
        Part::Sites => {
            let sites = sites(alloc, program)?;
            show_sites(alloc, sites.as_slice())
        }
    }
}

/// The part of the text's program, or that it has none.
fn answer(alloc: Global, part: Part, text: &str) -> Result<String, AllocError> {
    match bound(alloc, text) {
        None => String::from_str(alloc, "no program"),
        Some(program) => of_program(alloc, part, &program),
    }
}

/// So many calls of `g`.
fn calls(alloc: Global, count: u32) -> Result<String, AllocError> {
    let mut out = String::new(alloc);
    for _ in 0..count {
        out.push_str("g();\n")?;
    }
    Ok(out)
}

/// The text that a line stands for.
fn text_of(alloc: Global, line: &str) -> Result<String, AllocError> {
    let mut text = line.replace(alloc, '`', "\n")?;
    for (short, count) in [("G*256;", 256), ("G*257;", 257)] {
        if text.contains(short) {
            text = text.replace(alloc, short, calls(alloc, count)?.as_str())?;
        }
    }
    Ok(text)
}

/// The line with its answer.
pub(crate) fn line_of(alloc: Global, part: Part, line: &str) -> Result<String, AllocError> {
    if line.is_empty() || line.starts_with("#") || line.starts_with("= ") {
        return String::from_str(alloc, line);
    }
    let text = text_of(alloc, line)?;
    let found = answer(alloc, part, text.as_str())?;
    format!(in alloc; "{line} => {found}")
}
