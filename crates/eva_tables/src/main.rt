//! Prints what C expressions come to in abstract cells, and whether that covers what they come to in each of
//! the concrete cells that these stand for. Each line of standard input is a question, and is printed with
//! its answer. A line that is empty or begins with `#` is printed as it is.
#![tactic(auto)]

mod answer;
mod arithmetic;
mod chains;
mod choices;
mod covering;
mod reading;
mod run;
mod shown;
mod words;

use answer::line_of;
use core::thread::Anything;
use large_stack::on_large_stack;
use std::io;

fn main(rt: HostRuntime) -> io::Result<()> {
    on_large_stack(&rt, Anything, || print_table(&rt))
}

/// Prints each line of the table with its answer.
fn print_table(rt: &HostRuntime) -> io::Result<()> {
    for line in rt.lines(rt.alloc()) {
        let line = line?;
        let text = line_of(rt.alloc(), line.as_str())?;
        println!(rt; "{text}")?;
    }
    Ok(())
}
