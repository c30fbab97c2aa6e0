//! What is answered of one line.

use crate::call::{Came, Given};
use crate::setting::{Outside, Part, Setting};
use crate::texts::{bytes_of, number_of};
use kernel_serve::Status;
use std::alloc::{AllocError, Global};

/// Adds a text, with a backquote for each end of a line.
fn add_shown(out: &mut Vec<u8>, text: &[u8]) -> Result<(), AllocError> {
    for byte in text {
        if *byte == b'\n' {
            out.push(b'`')?;
        } else {
            out.push(*byte)?;
        }
    }
    Ok(())
}

/// Adds what was written, or whether it is what is wanted.
fn add_written(
    alloc: Global,
    out: &mut Vec<u8>,
    written: &[u8],
    wanted: &Option<String>,
) -> Result<(), AllocError> {
    if let Some(wanted) = wanted
        && bytes_of(alloc, wanted.as_str())?.as_slice() == written
    {
        return out.extend_from_slice(b" as wanted");
    }
    if !written.is_empty() {
        out.push(b' ')?;
        add_shown(out, written)?;
    }
    Ok(())
}

/// What a call came to.
fn shown(alloc: Global, came: &Came, wanted: &Option<String>) -> Result<Vec<u8>, AllocError> {
    let status = came.status;
    let status = format!(in alloc; "{status}")?;
    let mut out = Vec::from_slice(alloc, status.as_bytes())?;
    add_written(alloc, &mut out, came.written.as_slice(), wanted)?;
    if !came.said.is_empty() {
        out.extend_from_slice(b" | ")?;
        add_shown(&mut out, came.said.as_slice())?;
    }
    Ok(out)
}

/// What calls came to of which one read after another fails: the answer of all of them, or of the first, with its
/// number, that ends otherwise than the first.
fn each_read(alloc: Global, given: &Given, count: u32) -> Result<Vec<u8>, AllocError> {
    let mut all = Vec::new(alloc);
    for number in 1..=count {
        let outside = Outside {
            failing_read: u64::from(number),
            ..Outside::slow()
        };
        let came = given.call(alloc, outside)?;
        let answer = shown(alloc, &came, &None)?;
        if number == 1 {
            all = answer;
        } else if all.as_slice() != answer.as_slice() {
            let place = format!(in alloc; ", at {number} ")?;
            all.extend_from_slice(place.as_bytes())?;
            all.extend_from_slice(answer.as_slice())?;
            return Ok(all);
        }
    }
    Ok(all)
}

/// Whether a call whose writes fail after so many bytes ends as a write fault, with these bytes written.
fn fails_after(
    alloc: Global,
    given: &Given,
    whole: &[u8],
    count: usize,
) -> Result<bool, AllocError> {
    let outside = Outside {
        failing_write: (count as u64).saturating_add(1),
        ..Outside::slow()
    };
    let came = given.call(alloc, outside)?;
    Ok(
        came.status == 4
            && came.said.as_slice() == b"write fault\n".as_slice()
            && whole.get(..count) == Some(came.written.as_slice()),
    )
}

/// What calls came to of which one write after another fails: after how many bytes the first call ends otherwise
/// than with a write fault and so much of the report.
fn each_write(alloc: Global, given: &Given) -> Result<Vec<u8>, AllocError> {
    let came = given.call(alloc, Outside::slow())?;
    let whole = came.written;
    let mut good = 0;
    for count in 0..=whole.len() {
        if !fails_after(alloc, given, whole.as_slice(), count)? {
            break;
        }
        good = count.saturating_add(1);
    }
    let text = format!(in alloc; "write faults up to byte {good}")?;
    Vec::from_slice(alloc, text.as_bytes())
}

/// The answer to a line of a part.
fn answer(alloc: Global, setting: &mut Setting, line: &str) -> Result<Vec<u8>, AllocError> {
    let mut outside = Outside::quick();
    match setting.part {
        Part::Files => setting.file = String::from_str(alloc, line)?,
        Part::Scripts => setting.script = String::from_str(alloc, line)?,
        Part::Calls => setting.words = String::from_str(alloc, line)?,
        Part::Outside => outside = Outside::said(line),
        Part::Reads => return each_read(alloc, &Given::new(alloc, setting)?, number_of(line)),
        Part::Writes => return each_write(alloc, &Given::new(alloc, setting)?),
        Part::Statuses => return shown(alloc, &Came::new(alloc, &Status::Memory, &[])?, &None),
    }
    let given = Given::new(alloc, setting)?;
    shown(alloc, &given.call(alloc, outside)?, &setting.wanted)
}

/// The line with its answer.
pub(crate) fn line_of(
    alloc: Global,
    setting: &mut Setting,
    line: &str,
) -> Result<Vec<u8>, AllocError> {
    let mut out = Vec::from_slice(alloc, line.as_bytes())?;
    if let Some(text) = line.strip_prefix("= ") {
        setting.take(alloc, text)?;
    } else if !line.is_empty() && !line.starts_with("#") {
        let answer = answer(alloc, setting, line)?;
        out.extend_from_slice(b" => ")?;
        out.extend_from_slice(answer.as_slice())?;
    }
    out.push(b'\n')?;
    Ok(out)
}
