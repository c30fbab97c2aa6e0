//! What is answered of one line.

use crate::show::{Part, fault_text, show_part};
use c_types::check;
use std::alloc::{AllocError, Global};

/// Objects of each type, with the cells 0 to 11 in the order of the types.
const OBJECTS: &str =
    "_Bool b; char c; signed char sc; unsigned char uc; short s; unsigned short us; int i; \
    unsigned u; long l; unsigned long ul; long long ll; unsigned long long ull; ";

/// A part of the text's program, or its refusal.
fn answer(alloc: Global, part: Part, text: &str) -> Result<String, AllocError> {
    let bytes = text.as_bytes();
    if bytes.len() > 100_000 {
        return String::from_str(alloc, "too long");
    }
    let Ok(tokens) = c_lex::tokens(alloc, bytes) else {
        return String::from_str(alloc, "no tokens");
    };
    let Ok(unit) = c_parse::parse(alloc, bytes, tokens.as_slice()) else {
        return String::from_str(alloc, "no text of C");
    };
    match check(alloc, &unit) {
        Ok(skeleton) => show_part(alloc, part, &skeleton),
        Err(fault) => fault_text(alloc, &fault),
    }
}

/// So many zeros, with commas between them.
fn zeros(alloc: Global, count: u32) -> Result<String, AllocError> {
    let mut out = String::new(alloc);
    for number in 0..count {
        out.push_str(if number == 0 { "0" } else { ",0" })?;
    }
    Ok(out)
}

/// The text that a line stands for.
fn text_of(alloc: Global, line: &str) -> Result<String, AllocError> {
    let mut text = line.replace(alloc, '`', "\n")?;
    for (short, count) in [("0*4096", 4096), ("0*4097", 4097)] {
        text = text.replace(alloc, short, zeros(alloc, count)?.as_str())?;
    }
    Ok(text)
}

/// The line with its answer; an expression is a statement after objects of each type.
pub(crate) fn line_of(alloc: Global, part: Part, line: &str) -> Result<String, AllocError> {
    if line.is_empty() || line.starts_with("#") || line.starts_with("= ") {
        return String::from_str(alloc, line);
    }
    let text = match part {
        Part::Expression => format!(in alloc; "{OBJECTS}void f(void) {{ {line}; }}")?,
        _ => text_of(alloc, line)?,
    };
    let found = answer(alloc, part, text.as_str())?;
    format!(in alloc; "{line} => {found}")
}
