//! Calls of the system that a signal interrupted, tried again (POSIX.1-2017, `EINTR` of `read` and `write`).

ghost use Rattle.std.specs.Prelude.{◌≤◌, IfSome, length};

use std::io::{ErrorKind, Read, Write};

/// How often a call is tried that was interrupted each time before.
const TRIES: u32 = 1000;

/// Reads once into the start of `buf`: how many bytes came, 0 at the end; None where the reader had an error
/// other than an interruption, or was interrupted each time.
pub(crate) fn read_again<R: Read>(reader: &mut R, buf: &mut [u8]) -> Option<usize>
    ensures { IfSome result (λ n. n ≤ length buf.old) }
{
    for _ in 0..TRIES {
        match reader.read(buf) {
            Ok(count) => return Some(count),
            Err(error) => {
                if error.kind() != ErrorKind::Interrupted {
                    return None;
                }
            }
        }
    }
    None
}

/// Writes once from the start of `piece`: how many bytes were taken; None where the writer had an error other
/// than an interruption, or was interrupted each time.
pub(crate) fn write_again<W: Write>(writer: &mut W, piece: &[u8]) -> Option<usize>
    ensures { IfSome result (λ n. n ≤ length piece.now) }
{
    for _ in 0..TRIES {
        match writer.write(piece) {
            Ok(count) => return Some(count),
            Err(error) => {
                if error.kind() != ErrorKind::Interrupted {
                    return None;
                }
            }
        }
    }
    None
}
