//! The bytes that a text of the table stands for. In it a backquote stands for the end of a line, and:
//!
//! - `$A..B(TEXT$)` for TEXT once for each number from A to B, where `$#` stands for that number;
//! - `$bN;` for the byte with the number N;
//! - `$=N;` for blanks, as many as make the bytes so far N in all.

use std::alloc::{AllocError, Global};

/// 64 blanks.
const BLANKS: &str = "                                                                ";

/// Adds a text in which a backquote stands for the end of a line.
fn add_plain(out: &mut Vec<u8>, text: &str) -> Result<(), AllocError> {
    let mut is_first = true;
    for part in text.split('`') {
        if !is_first {
            out.push(b'\n')?;
        }
        out.extend_from_slice(part.as_bytes())?;
        is_first = false;
    }
    Ok(())
}

/// Adds blanks up to so many bytes in all.
fn pad(out: &mut Vec<u8>, size: usize) -> Result<(), AllocError> {
    let missing = size.saturating_sub(out.len());
    for _ in 0..missing / 64 {
        out.extend_from_slice(BLANKS.as_bytes())?;
    }
    for _ in 0..missing % 64 {
        out.push(b' ')?;
    }
    Ok(())
}

/// Adds a text once for each of these numbers.
fn add_repeated(
    alloc: Global,
    out: &mut Vec<u8>,
    numbers: &str,
    text: &str,
) -> Result<(), AllocError> {
    let Some((first, last)) = numbers.split_once("..") else {
        return Ok(());
    };
    for number in number_of(first)..=number_of(last) {
        let number = format!(in alloc; "{number}")?;
        let text = text.replace(alloc, "$#", number.as_str())?;
        add_plain(out, text.as_str())?;
    }
    Ok(())
}

/// The number that a text is, or 0.
pub(crate) fn number_of(text: &str) -> u32 {
    text.parse::<u32>().unwrap_or(0)
}

/// Adds what a `$` and the text after it begin with, and answers what comes after that.
fn add_marked<'t>(alloc: Global, out: &mut Vec<u8>, text: &'t str) -> Result<&'t str, AllocError> {
    if let Some(text) = text.strip_prefix("b")
        && let Some((number, rest)) = text.split_once(";")
    {
        out.push(number.parse::<u8>().unwrap_or(0))?;
        return Ok(rest);
    }
    if let Some(text) = text.strip_prefix("=")
        && let Some((size, rest)) = text.split_once(";")
    {
        pad(out, number_of(size) as usize)?;
        return Ok(rest);
    }
    if let Some((numbers, text)) = text.split_once("(")
        && let Some((text, rest)) = text.split_once("$)")
    {
        add_repeated(alloc, out, numbers, text)?;
        return Ok(rest);
    }
    Ok(text)
}

/// The bytes that a text stands for.
pub(crate) fn bytes_of(alloc: Global, text: &str) -> Result<Vec<u8>, AllocError> {
    let mut out = Vec::new(alloc);
    let mut rest = text;
    for _ in 0..text.len() {
        match rest.split_once("$") {
            None => break,
            Some((before, after)) => {
                add_plain(&mut out, before)?;
                rest = add_marked(alloc, &mut out, after)?;
            }
        }
    }
    add_plain(&mut out, rest)?;
    Ok(out)
}

/// The words that a text stands for: those between its blanks, which may be empty, or none for `nothing`.
pub(crate) fn words_of(alloc: Global, text: &str) -> Result<Vec<String>, AllocError> {
    let mut words = Vec::new(alloc);
    if text == "nothing" {
        return Ok(words);
    }
    let bytes = bytes_of(alloc, text)?;
    let text = std::str::from_utf8(bytes.as_slice()).unwrap_or("?");
    for word in text.split(' ') {
        words.push(String::from_str(alloc, word)?)?;
    }
    Ok(words)
}
