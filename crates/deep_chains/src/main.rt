//! Answers `report` on files of C whose trees are deeper than a usual stack is. Each form of chain is printed with the
//! size of its file, and with what was written or why the file is refused. Some files have the greatest length; the
//! others are analysed.
#![tactic(auto)]

mod form;
mod longest;

use core::thread::Anything;
use fc_outside::{MemFile, MemShelf, MemSink};
use form::{Form, Links, forms};
use kernel_serve::{fault_line, report_run};
use large_stack::on_large_stack;
use longest::longest;
use sqlite_items::Items;
use std::alloc::{AllocError, Global};
use std::io::Write;
use std::process::ExitCode;

/// The words of a call that analyses the file, or doesn't.
fn words(alloc: Global, analysed: bool) -> Result<Vec<String>, AllocError> {
    let mut words = Vec::new(alloc);
    words.push(String::from_str(alloc, "report")?)?;
    words.push(String::from_str(alloc, "f.c")?)?;
    if !analysed {
        words.push(String::from_str(alloc, "--no-eva")?)?;
    }
    Ok(words)
}

/// The report on this file, or why it is refused.
fn said_of(alloc: Global, file: &[u8], analysed: bool) -> Result<Vec<u8>, AllocError> {
    let mut files = Items::new(alloc);
    files.push(MemFile::new(alloc, "f.c", file)?)?;
    let mut shelf = MemShelf::new(alloc, files, 65_536, Items::new(alloc))?;
    let mut sink = MemSink::new(alloc, 65_536, 65_536, Items::new(alloc))?;
    let words = words(alloc, analysed)?;
    let status = report_run(alloc, words.as_slice(), &mut shelf, &mut sink);
    let mut said = Vec::from_slice(alloc, sink.held())?;
    said.extend_from_slice(fault_line(alloc, &status)?.as_slice())?;
    Ok(said)
}

/// Adds the line of a form: its name, the size of its file and the answer, of which each line ends in a backquote.
fn add_line(alloc: Global, lines: &mut Vec<u8>, form: &Form) -> Result<(), AllocError> {
    let file = longest(alloc, form)?;
    let name = form.name;
    let size = file.len();
    let head = format!(in alloc; "{name}, {size} bytes: ")?;
    lines.extend_from_slice(head.as_bytes())?;
    let analysed = !matches!(form.links, Links::Most);
    for byte in said_of(alloc, file.as_slice(), analysed)?.as_slice() {
        if *byte == b'\n' {
            lines.push(b'`')?;
        } else {
            lines.push(*byte)?;
        }
    }
    lines.push(b'\n')?;
    Ok(())
}

/// The lines of all forms.
fn lines(alloc: Global) -> Result<Vec<u8>, AllocError> {
    let mut lines = Vec::new(alloc);
    for form in &forms(alloc)? {
        add_line(alloc, &mut lines, form)?;
    }
    Ok(lines)
}

fn main(rt: HostRuntime) -> ExitCode {
    let alloc = rt.alloc();
    let Ok(lines) = on_large_stack(&rt, Anything, move || lines(alloc)) else {
        return ExitCode::from(5);
    };
    match rt.stdout().write_all(lines.as_slice()) {
        Ok(()) => ExitCode::SUCCESS,
        Err(_) => ExitCode::from(4),
    }
}
