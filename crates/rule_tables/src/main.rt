//! Prints the values of constant expressions, the calls of functions, and what a small table of properties answers.
//! Each line of standard input is a question of the part that was asked for last, and is printed with its answer. A
//! line `= PART` asks for a part; it, an empty line and a line that begins with `#` are printed as they are.
#![tactic(auto)]

mod answer;
mod props;
mod trees;
mod values;

use answer::{Part, line_of};
use props::table;
use std::io;

fn main(rt: HostRuntime) -> io::Result<()> {
    let props = table(rt.alloc())?;
    let mut part = Part::Values;
    for line in rt.lines(rt.alloc()) {
        let line = line?;
        if let Some(name) = line.strip_prefix("= ") {
            part = Part::named(name);
        }
        let text = line_of(rt.alloc(), part, &props, line.as_str())?;
        println!(rt; "{text}")?;
    }
    Ok(())
}
