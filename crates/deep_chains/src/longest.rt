//! The file of a form.

use crate::form::{Form, Links};
use std::alloc::{AllocError, Global};

/// The most bytes of a file.
const LONGEST: usize = 4_194_304;

/// Appends `text` so many times.
fn repeat(file: &mut Vec<u8>, text: &str, count: usize) -> Result<(), AllocError> {
    for _ in 0..count {
        file.extend_from_slice(text.as_bytes())?;
    }
    Ok(())
}

/// A link with the prefix operators before it.
fn link_of(alloc: Global, form: &Form) -> Result<String, AllocError> {
    let mut link = String::new(alloc);
    for _ in 0..form.prefixes {
        link.push_str(form.prefix)?;
    }
    link.push_str(form.link)?;
    Ok(link)
}

/// Appends so many links, each with its number.
fn add_numbered(
    alloc: Global,
    file: &mut Vec<u8>,
    link: &str,
    count: usize,
) -> Result<(), AllocError> {
    for before in 0..count {
        let number = before.saturating_add(1);
        let text = format!(in alloc; "{before}")?;
        let link = link.replace(alloc, "@", text.as_str())?;
        let text = format!(in alloc; "{number}")?;
        let link = link.replace(alloc, "#", text.as_str())?;
        file.extend_from_slice(link.as_bytes())?;
    }
    Ok(())
}

/// The file of a form. Where it has as many links as there is room for, blanks before it fill it up.
pub(crate) fn longest(alloc: Global, form: &Form) -> Result<Vec<u8>, AllocError> {
    let link = link_of(alloc, form)?;
    let mut file = Vec::new(alloc);
    let links = match form.links {
        Links::Most => {
            let ends = form.head.len().saturating_add(form.end.len());
            let room = LONGEST.saturating_sub(ends.saturating_add(form.middle.len()));
            let size = link.len().saturating_add(form.close.len()).max(1);
            repeat(&mut file, " ", room % size)?;
            room / size
        }
        Links::Just(links) => links,
        Links::Numbered(_) => 0,
    };
    repeat(&mut file, form.head, 1)?;
    repeat(&mut file, link.as_str(), links)?;
    if let Links::Numbered(count) = form.links {
        add_numbered(alloc, &mut file, form.link, count)?;
    }
    repeat(&mut file, form.middle, 1)?;
    repeat(&mut file, form.close, links)?;
    repeat(&mut file, form.end, 1)?;
    Ok(file)
}
