//! Prints what the typing of texts of C gives. Each line of standard input is a text, and is printed with the part of
//! its typed program that was asked for last, or with its refusal. In a text a backquote stands for the end of a line,
//! and `0*4096` and `0*4097` stand for so many zeros with commas between them. A line `= PART` asks for a part; it, an
//! empty line and a line that begins with `#` are printed as they are.
#![tactic(auto)]

mod answer;
mod show;

use answer::line_of;
use show::Part;
use std::io;

fn main(rt: HostRuntime) -> io::Result<()> {
    let mut part = Part::Whole;
    for line in rt.lines(rt.alloc()) {
        let line = line?;
        if let Some(name) = line.strip_prefix("= ") {
            part = Part::named(name);
        }
        let text = line_of(rt.alloc(), part, line.as_str())?;
        println!(rt; "{text}")?;
    }
    Ok(())
}
