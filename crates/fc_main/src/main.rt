//! The program `fc_main`: its words are those of `kernel_serve::report_run`, which begin with `report FILE`. It writes
//! the report to standard output, says on standard error how the call ended where not all went well, and ends with
//! the exit status of `kernel_serve`.
#![tactic(auto)]

use core::thread::Anything;
use fc_outside::{FileShelf, OutSink};
use kernel_serve::{Status, fault_line, report_run};
use large_stack::on_large_stack;
use std::env;
use std::io::{ErrorKind, Write};
use std::process::ExitCode;

fn main(rt: HostRuntime) -> ExitCode {
    // Trees are as deep as a chain of operators in the file is long.
    let status = on_large_stack(&rt, Anything, || run(&rt));
    if let Ok(line) = fault_line(rt.alloc(), &status) {
        // Where standard error takes nothing, the exit status still tells.
        let _ = rt.stderr().write_all(line.as_slice());
    }
    ExitCode::from(status.exit_status())
}

/// Answers the call that the program's words are. Words that aren't UTF-8 are no call.
fn run(rt: &HostRuntime) -> Status {
    let words = match env::args(rt) {
        Ok(words) => words,
        Err(error) if error.kind() == ErrorKind::OutOfMemory => return Status::Memory,
        Err(_) => return Status::Usage,
    };
    let Ok(words) = words.skip(1).collect::<Vec<String>>(rt.alloc()) else {
        return Status::Memory;
    };
    let mut shelf = FileShelf::new(rt);
    let mut out = OutSink::new(rt.stdout());
    report_run(rt.alloc(), words.as_slice(), &mut shelf, &mut out)
}
