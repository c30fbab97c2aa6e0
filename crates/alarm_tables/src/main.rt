//! Prints what follows of the properties of texts of C from types and calls alone. Each line of standard input is a
//! text, and is printed with the part that was asked for last, or with `no program`. In a text a backquote stands for
//! the end of a line, and `G*N;` for N statements `g();`, for two numbers N. A line `= PART` asks for a part; it, an
//! empty line and a line that begins with `#` are printed as they are.
#![tactic(auto)]

mod answer;
mod shown;

use answer::{Part, line_of};
use std::io;

fn main(rt: HostRuntime) -> io::Result<()> {
    let mut part = Part::Links;
    for line in rt.lines(rt.alloc()) {
        let line = line?;
        if let Some(name) = line.strip_prefix("= ") {
            part = Part::named(name);
        }
        let text = line_of(rt.alloc(), part, line.as_str())?;
        println!(rt; "{text}")?;
    }
    Ok(())
}
