//! The text that a line of the table stands for.

use std::alloc::{AllocError, Global};

/// Adds what stands between two `$`: a number, a blank, and a text, which is added so many times.
fn add_repeated(out: &mut String, part: &str) -> Result<(), AllocError> {
    if let Some((count, text)) = part.split_once(' ')
        && let Ok(count) = count.parse::<u8>()
    {
        for _ in 0..count {
            out.push_str(text)?;
        }
    }
    Ok(())
}

/// The text that a line stands for.
pub(crate) fn text_of(alloc: Global, line: &str) -> Result<String, AllocError> {
    let line = line.replace(alloc, '`', "\n")?;
    let mut out = String::new(alloc);
    let mut is_plain = true;
    for part in line.split('$') {
        if is_plain {
            out.push_str(part)?;
        } else {
            add_repeated(&mut out, part)?;
        }
        is_plain = !is_plain;
    }
    Ok(out)
}
