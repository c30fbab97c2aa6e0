//! Why a text has no table, as a short text.

use acsl_bind::BindFault;
use acsl_read::AcslFault;
use c_types::TypeFault;
use prop_table::TableFault;
use std::alloc::{AllocError, Global};
use std::str;

/// Why a text has no table.
#[derive(Drop)]
pub(crate) enum Refusal {
    /// It has no tokens, or more than a million bytes.
    Lex,
    /// It is no text of C.
    Parse,
    Acsl(AcslFault),
    Types(TypeFault),
    Bind(BindFault),
    Limit(TableFault),
}

/// A refusal with a place or a number.
fn placed(alloc: Global, kind: &str, at: u32) -> Result<String, AllocError> {
    format!(in alloc; "refused: {kind} {at}")
}

/// A refusal with a name.
fn named(alloc: Global, kind: &str, name: &str) -> Result<String, AllocError> {
    format!(in alloc; "refused: {kind} {name}")
}

fn plain(alloc: Global, kind: &str) -> Result<String, AllocError> {
    format!(in alloc; "refused: {kind}")
}

fn acsl_text(alloc: Global, fault: &AcslFault) -> Result<String, AllocError> {
    match fault {
        AcslFault::NotAcsl(at) => placed(alloc, "acsl NotAcsl", *at),
        AcslFault::Unsupported(word, at) => {
            let word = str::from_utf8(word.as_slice()).unwrap_or("?");
            format!(in alloc; "refused: acsl Unsupported {word} {at}")
        }
        AcslFault::TooDeep(at) => placed(alloc, "acsl TooDeep", *at),
        AcslFault::Memory => plain(alloc, "Memory"),
    }
}

fn types_text(alloc: Global, fault: &TypeFault) -> Result<String, AllocError> {
    match fault {
        TypeFault::Unknown(name) => named(alloc, "types Unknown", name.as_str()),
        TypeFault::Twice(name) => named(alloc, "types Twice", name.as_str()),
        TypeFault::Recursive(name) => named(alloc, "types Recursive", name.as_str()),
        TypeFault::BadType(at) => placed(alloc, "types BadType", *at),
        TypeFault::Arity(at) => placed(alloc, "types Arity", *at),
        TypeFault::SideEffect(at) => placed(alloc, "types SideEffect", *at),
        TypeFault::ConstWrite(at) => placed(alloc, "types ConstWrite", *at),
        TypeFault::TooManyCells(count) => placed(alloc, "limit TooManyCells", *count),
        TypeFault::Memory => plain(alloc, "Memory"),
    }
}

fn bind_text(alloc: Global, fault: &BindFault) -> Result<String, AllocError> {
    match fault {
        BindFault::Unknown(name) => named(alloc, "bind Unknown", name.as_str()),
        BindFault::NotHere(at) => placed(alloc, "bind NotHere", *at),
        BindFault::BadType(at) => placed(alloc, "bind BadType", *at),
        BindFault::Memory => plain(alloc, "Memory"),
    }
}

fn limit_text(alloc: Global, fault: &TableFault) -> Result<String, AllocError> {
    match fault {
        TableFault::TooManyProps(count) => placed(alloc, "limit TooManyProps", *count),
        TableFault::Memory => plain(alloc, "Memory"),
    }
}

/// A refusal.
pub(crate) fn refusal_text(alloc: Global, refusal: &Refusal) -> Result<String, AllocError> {
    match refusal {
        Refusal::Lex => plain(alloc, "no tokens"),
        Refusal::Parse => plain(alloc, "no text of C"),
        Refusal::Acsl(fault) => acsl_text(alloc, fault),
        Refusal::Types(fault) => types_text(alloc, fault),
        Refusal::Bind(fault) => bind_text(alloc, fault),
        Refusal::Limit(fault) => limit_text(alloc, fault),
    }
}
