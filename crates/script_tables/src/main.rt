//! Prints what lines of event scripts ask for. Each line of standard input is a line of a script, and is printed with
//! the answer of `Script::line`. In it a backquote before two hexadecimal digits stands with them for the byte that
//! they say, and any other backquote for nothing. An empty line and one that begins with `#` are printed as they are.
#![tactic(auto)]

mod answer;
mod bytes;
mod setting;

use answer::line_of;
use setting::{script, table};
use std::io;

fn main(rt: HostRuntime) -> io::Result<()> {
    let props = table(rt.alloc())?;
    let mut script = script(rt.alloc())?;
    for line in rt.lines(rt.alloc()) {
        let line = line?;
        let text = line_of(rt.alloc(), &mut script, &props, line.as_str())?;
        println!(rt; "{text}")?;
    }
    Ok(())
}
