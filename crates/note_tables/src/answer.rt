//! What is answered of one line.

ghost use Rattle.std.specs.Prelude.{◌≤◌, IfOk};
ghost use Rattle.c_ast.specs.Weight.{weight_of_unit};

use crate::program::{show_body, show_clauses};
use crate::refusal::{Refusal, refusal_text};
use crate::rows::show_rows;
use acsl_bind::bind;
use acsl_notes::{Annots, notes};
use c_ast::Unit;
use c_ir::Program;
use c_types::check;
use prop_table::table;
use std::alloc::{AllocError, Global};

/// The part of a bound program or of its table that is shown.
#[derive(Clone, Copy)]
pub(crate) enum Part {
    /// The clauses with their points.
    Clauses,
    /// The statements of the function that is declared last, with their points.
    Body,
    /// The properties.
    Properties,
    /// How many properties there are.
    Count,
}

impl Part {
    /// The part with this name; `Count` for another name.
    pub(crate) fn named(name: &str) -> Part {
        match name {
            "clauses" => Part::Clauses,
            "body" => Part::Body,
            "properties" => Part::Properties,
            _ => Part::Count,
        }
    }
}

/// The tree of a text, and its annotations.
fn read(alloc: Global, bytes: &[u8]) -> Result<(Unit, Annots), Refusal>
    ensures { IfOk result (λ p. weight_of_unit p.0 ≤ 4194304) }
{
    if bytes.len() > 1_000_000 {
        return Err(Refusal::Lex);
    }
    let Ok(tokens) = c_lex::tokens(alloc, bytes) else {
        return Err(Refusal::Lex);
    };
    let Ok(unit) = c_parse::parse(alloc, bytes, tokens.as_slice()) else {
        return Err(Refusal::Parse);
    };
    match notes(alloc, bytes, tokens.as_slice()) {
        Ok(annots) => Ok((unit, annots)),
        Err(fault) => Err(Refusal::Acsl(fault)),
    }
}

/// The program of a text, with its annotations.
fn bound(alloc: Global, text: &str) -> Result<Program, Refusal> {
    let (unit, annots) = read(alloc, text.as_bytes())?;
    let skeleton = match check(alloc, &unit) {
        Ok(skeleton) => skeleton,
        Err(fault) => return Err(Refusal::Types(fault)),
    };
    match bind(alloc, skeleton, annots.as_slice()) {
        Ok(program) => Ok(program),
        Err(fault) => Err(Refusal::Bind(fault)),
    }
}

/// A part of a program's table of properties, or that it has too many.
fn of_table(alloc: Global, part: Part, program: &Program) -> Result<String, AllocError> {
    match table(alloc, program) {
        Err(fault) => refusal_text(alloc, &Refusal::Limit(fault)),
        Ok(table) => match part {
            Part::Properties => show_rows(alloc, table.rows()),
            _ => {
                let count = table.len();
                format!(in alloc; "{count} properties")
            }
        },
    }
}

/// A part of the text's program, or its refusal.
fn answer(alloc: Global, part: Part, text: &str) -> Result<String, AllocError> {
    match bound(alloc, text) {
        Err(refusal) => refusal_text(alloc, &refusal),
        Ok(program) => match part {
            Part::Clauses => show_clauses(alloc, &program),
            Part::Body => show_body(alloc, &program),
            Part::Properties | Part::Count => of_table(alloc, part, &program),
        },
    }
}

/// So many assertions.
fn assertions(alloc: Global, count: u32) -> Result<String, AllocError> {
    let mut out = String::new(alloc);
    for _ in 0..count {
        out.push_str("//@ assert 1;\n")?;
    }
    Ok(out)
}

/// The text that a line stands for.
fn text_of(alloc: Global, line: &str) -> Result<String, AllocError> {
    let mut text = line.replace(alloc, '`', "\n")?;
    for (short, count) in [("A*3;", 3), ("A*32767;", 32767), ("A*32768;", 32768)] {
        if text.contains(short) {
            text = text.replace(alloc, short, assertions(alloc, count)?.as_str())?;
        }
    }
    Ok(text)
}

/// The line with its answer.
pub(crate) fn line_of(alloc: Global, part: Part, line: &str) -> Result<String, AllocError> {
    if line.is_empty() || line.starts_with("#") || line.starts_with("= ") {
        return String::from_str(alloc, line);
    }
    let text = text_of(alloc, line)?;
    let found = answer(alloc, part, text.as_str())?;
    format!(in alloc; "{line} => {found}")
}
