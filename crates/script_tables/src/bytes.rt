//! The bytes that a line of the table stands for.

ghost use Rattle.std.specs.Prelude.{◌<◌, IfSome};

use std::alloc::{AllocError, Global};

/// The number that a hexadecimal digit is.
fn digit(byte: u8) -> Option<u8>
    ensures { IfSome result (λ n. n < 16) }
{
    match byte {
        b'0'..=b'9' => Some(byte - b'0'),
        b'a'..=b'f' => Some(byte - b'a' + 10),
        _ => None,
    }
}

/// The byte that two digits are.
fn byte_of(high: u8, low: u8) -> Option<u8> {
    let high = digit(high)?;
    let low = digit(low)?;
    Some(high * 16 + low)
}

/// Adds what a backquote and the text after it stand for.
fn add_escaped(out: &mut Vec<u8>, text: &[u8]) -> Result<(), AllocError> {
    if let [high, low, rest @ ..] = text
        && let Some(byte) = byte_of(*high, *low)
    {
        out.push(byte)?;
        return out.extend_from_slice(rest);
    }
    out.extend_from_slice(text)
}

/// The bytes that a line stands for.
pub(crate) fn bytes_of(alloc: Global, line: &str) -> Result<Vec<u8>, AllocError> {
    let mut out = Vec::new(alloc);
    let mut is_first = true;
    for part in line.split('`') {
        if is_first {
            out.extend_from_slice(part.as_bytes())?;
        } else {
            add_escaped(&mut out, part.as_bytes())?;
        }
        is_first = false;
    }
    Ok(out)
}
