//! Prints how texts of C and annotations are read. Each line of standard input is a text, and is printed with its tree
//! or with the place at which its reading stops, by the part that was asked for last. In a text a backquote stands for
//! the end of a line, and `$N TEXT$` for N times TEXT. A line `= PART` asks for a part; it, an empty line and a line
//! that begins with `#` are printed as they are.
#![tactic(auto)]

mod answer;
mod formula;
mod note;
mod text;
mod tree;
mod unit;

use answer::{Part, line_of};
use std::io;

fn main(rt: HostRuntime) -> io::Result<()> {
    let mut part = Part::Texts;
    for line in rt.lines(rt.alloc()) {
        let line = line?;
        if let Some(name) = line.strip_prefix("= ") {
            part = Part::named(name);
        }
        let text = line_of(rt.alloc(), part, line.as_str())?;
        println!(rt; "{text}")?;
    }
    Ok(())
}
