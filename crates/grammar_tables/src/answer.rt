//! What is answered of one line.

use crate::note::{acsl_fault_text, annot_text};
use crate::text::text_of;
use crate::unit::{parse_fault_text, unit_text};
use acsl_read::read;
use c_lex::{Token, TokenKind};
use c_parse::parse;
use std::alloc::{AllocError, Global};

/// What a line is, and what is shown of it.
#[derive(Clone, Copy)]
pub(crate) enum Part {
    /// A text of C: its first item.
    Texts,
    /// A text of C: whether there is a tree.
    DeepTexts,
    /// A text that begins with a note: the annotation.
    Notes,
    /// A text that begins with a note: whether it is an annotation.
    DeepNotes,
    /// A formula: the annotation that asserts it.
    Formulas,
}

impl Part {
    /// The part with this name; `Formulas` for another name.
    pub(crate) fn named(name: &str) -> Part {
        match name {
            "texts" => Part::Texts,
            "deep texts" => Part::DeepTexts,
            "notes" => Part::Notes,
            "deep notes" => Part::DeepNotes,
            _ => Part::Formulas,
        }
    }
}

/// The first item of a text, or `tree` where that alone is asked for; or its fault.
fn unit_answer(alloc: Global, text: &str, is_shown: bool) -> Result<String, AllocError> {
    let bytes = text.as_bytes();
    if bytes.len() > 10_000 {
        return String::from_str(alloc, "too long");
    }
    let Ok(tokens) = c_lex::tokens(alloc, bytes) else {
        return String::from_str(alloc, "no tokens");
    };
    match parse(alloc, bytes, tokens.as_slice()) {
        Ok(unit) => match is_shown {
            true => unit_text(alloc, &unit),
            false => String::from_str(alloc, "tree"),
        },
        Err(fault) => parse_fault_text(alloc, &fault),
    }
}

/// The tokens after the first `NoteFrom`, up to its `NoteTo`, and the place of that one.
fn inside(tokens: &[Token]) -> (&[Token], u32) {
    let Some((_, inside)) = tokens.split_first() else {
        return (tokens, 0);
    };
    let mut len = 0;
    for token in inside {
        if token.kind == TokenKind::NoteTo {
            let (note, _) = inside.split_at(inside.len().min(len));
            return (note, token.span.from);
        }
        len = if len < inside.len() { len + 1 } else { len };
    }
    (inside, 0)
}

/// The annotation with which a text begins, or `tree` where that alone is asked for; or its fault.
fn note_answer(alloc: Global, text: &str, is_shown: bool) -> Result<String, AllocError> {
    let bytes = text.as_bytes();
    if bytes.len() > 10_000 {
        return String::from_str(alloc, "too long");
    }
    let Ok(tokens) = c_lex::tokens(alloc, bytes) else {
        return String::from_str(alloc, "no tokens");
    };
    let (note, end) = inside(tokens.as_slice());
    match read(alloc, bytes, note, end) {
        Ok(annot) => match is_shown {
            true => annot_text(alloc, &annot),
            false => String::from_str(alloc, "tree"),
        },
        Err(fault) => acsl_fault_text(alloc, &fault),
    }
}

/// What is answered of a text.
fn answer(alloc: Global, part: Part, text: &str) -> Result<String, AllocError> {
    match part {
        Part::Texts => unit_answer(alloc, text, true),
        Part::DeepTexts => unit_answer(alloc, text, false),
        Part::Notes => note_answer(alloc, text, true),
        Part::DeepNotes => note_answer(alloc, text, false),
        Part::Formulas => {
            let note = format!(in alloc; "//@ assert {text};")?;
            note_answer(alloc, note.as_str(), true)
        }
    }
}

/// The line with its answer.
pub(crate) fn line_of(alloc: Global, part: Part, line: &str) -> Result<String, AllocError> {
    if line.is_empty() || line.starts_with("#") || line.starts_with("= ") {
        return String::from_str(alloc, line);
    }
    let text = text_of(alloc, line)?;
    let found = answer(alloc, part, text.as_str())?;
    format!(in alloc; "{line} => {found}")
}
