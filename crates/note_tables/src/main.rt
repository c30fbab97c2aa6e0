//! Prints what the notes of texts of C become. Each line of standard input is a text, and is printed with the part of
//! its bound program or of its table of properties that was asked for last, or with its refusal. In a text a backquote
//! stands for the end of a line, and `A*N` for N assertions, each on a line of its own, for three numbers N. A line
//! `= PART` asks for a part; it, an empty line and a line that begins with `#` are printed as they are.
#![tactic(auto)]

mod answer;
mod formula;
mod program;
mod refusal;
mod rows;

use answer::{Part, line_of};
use std::io;

fn main(rt: HostRuntime) -> io::Result<()> {
    let mut part = Part::Clauses;
    for line in rt.lines(rt.alloc()) {
        let line = line?;
        if let Some(name) = line.strip_prefix("= ") {
            part = Part::named(name);
        }
        let text = line_of(rt.alloc(), part, line.as_str())?;
        println!(rt; "{text}")?;
    }
    Ok(())
}
