//! Prints what tables of statuses answer. Each line of standard input is a history, perhaps with what is asked of it,
//! a list of inputs of a verdict, or a number of histories that are rolled, by the part that was asked for last; it is
//! printed with its answer. A line `= PART` asks for a part; it, an empty line and a line that begins with `#` are
//! printed as they are.
#![tactic(auto)]

mod answer;
mod certificates;
mod dice;
mod fetches;
mod judged;
mod line;
mod slow;
mod tables;

use answer::{Part, line_of};
use std::io;
use tables::Tables;

fn main(rt: HostRuntime) -> io::Result<()> {
    let tables = Tables::new(rt.alloc())?;
    let mut part = Part::Small;
    for line in rt.lines(rt.alloc()) {
        let line = line?;
        if let Some(name) = line.strip_prefix("= ") {
            part = Part::named(name);
        }
        let text = line_of(rt.alloc(), part, &tables, line.as_str())?;
        println!(rt; "{text}")?;
    }
    Ok(())
}
