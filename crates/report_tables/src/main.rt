//! Prints what calls of `report_run` come to. Each line of standard input is a file, a script, the words of a call or a
//! way in which the outside behaves, by the part that was asked for last; it is printed with the exit status, what was
//! written and the line for a fault. A line `= ..` asks for a part, or sets what the calls after it are given; it, an
//! empty line and a line that begins with `#` are printed as they are.
#![tactic(auto)]

mod answer;
mod call;
mod setting;
mod texts;

use answer::line_of;
use core::thread::Anything;
use large_stack::on_large_stack;
use setting::Setting;
use std::io;
use std::io::Write;

fn main(rt: HostRuntime) -> io::Result<()> {
    on_large_stack(&rt, Anything, || print_table(&rt))
}

/// Prints each line of the table with its answer.
fn print_table(rt: &HostRuntime) -> io::Result<()> {
    let mut setting = Setting::new(rt.alloc());
    for line in rt.lines(rt.alloc()) {
        let line = line?;
        let text = line_of(rt.alloc(), &mut setting, line.as_str())?;
        rt.stdout().write_all(text.as_slice())?;
    }
    Ok(())
}
