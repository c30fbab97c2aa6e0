//! Reading a whole file and writing whole texts, over any shelf and sink.

ghost use Rattle.std.specs.Prelude.{◌≡◌, ◌+◌, ◌^◌, ◌<◌, ◌≤◌, ℕ, List, ◌++◌, true, length, take, IfOk, OnOk, OnErr, IsOk, IsErrOf};
ghost use Rattle.std.specs.Io.KnownBytes.{append_known, prepend_known};
ghost use Rattle.fc_outside.specs.Causes.{Rose};
ghost use Rattle.fc_outside.specs.Contents.{told_contents};
ghost use Rattle.fc_outside.specs.Requests.{AskedAtMost, AskedOnce, TookMore, bytes_got};
ghost use Rattle.fc_outside.specs.Whole.{FirstBytes};
ghost use Rattle.fc_outside.specs.inner.Steps.{StepTaken, CauseOfStep};

use crate::outside::{Begun, Got, Put, Shelf, Sink};
use std::alloc::{AllocError, AllocFailed, Global};

/// Why a file wasn't read.
#[derive(Clone, Copy, Debug, PartialEq, Eq)]
pub enum ReadError {
    /// The shelf had a fault.
    Fault,
    /// There was no memory for the bytes.
    Memory,
}

/// The sink had a fault.
#[derive(Clone, Copy, Debug, PartialEq, Eq)]
pub struct WriteFault;

/// What one read added.
enum Step {
    More,
    End,
    Failed,
}

impl From<AllocError> for ReadError {
    ghost use Rattle.fc_outside.specs.declared.whole.ReadError.TheVariants.{Memory};

    ghost from_gives = { λ _ e. e ≡ Memory };

    fn from(_: AllocError) -> Self {
        ReadError::Memory
    }
}

const PIECE: usize = 4096;

/// The bytes of the file with this name, to its end or to `limit + 1` of them: so more than `limit` exactly
/// where the file is longer than that.
pub fn read_all<F: Shelf>(
    alloc: Global,
    shelf: &mut F,
    name: &str,
    limit: usize,
) -> Result<Vec<u8>, ReadError>
where
    requires { limit < 2 ^ 32 }
    ensures bytes { IfOk result (λ bytes. FirstBytes (limit + 1) (told_contents name.now (F.files shelf.old)) bytes.items) }
    ensures length { IfOk result (λ bytes. length bytes.items ≤ limit + 1) }
    ensures asked { AskedAtMost name.now (limit + 1) (F.asked shelf.old) (F.asked shelf.new) }
    ensures files { F.files shelf.new ≡ F.files shelf.old }
    ensures never_fails { F.never_fails shelf.new ≡ F.never_fails shelf.old }
    ensures later { F.faults shelf.old ≤ F.faults shelf.new }
    ensures fault { IsErrOf result ReadError.Fault → Rose (F.faults shelf.old) (F.faults shelf.new) }
{
    if shelf.begin(name) == Begun::Failed {
        return Err(ReadError::Fault);
    }
    let mut buffer = [0; PIECE];
    let mut bytes = Vec::new(alloc);
    'reading: while bytes.len() <= limit {
        let most = limit + 1 - bytes.len();
        match read_some(shelf, &mut buffer, most, &mut bytes)? {
            Step::More => {}
            Step::End => break,
            Step::Failed => return Err(ReadError::Fault),
        }
    }
    Ok(bytes)
}

/// Reads once and appends the bytes that came, at most `most`, to `bytes`.
fn read_some<F: Shelf>(
    shelf: &mut F,
    buffer: &mut [u8],
    most: usize,
    bytes: &mut Vec<u8>,
) -> Result<Step, AllocError>
where
    requires begun { F.is_begun shelf.old ≡ true }
    requires room { 0 < length buffer.old }
    requires most { 0 < most }
    ensures bytes { IfOk result (StepTaken (F.left shelf.old) (F.left shelf.new) bytes.old.items bytes.new.items most) }
    ensures asked { (n : ℕ) × (n ≤ most) × TookMore n (F.asked shelf.old) (F.asked shelf.new) × IfOk result (λ _. length bytes.new.items ≡ length bytes.old.items + n) }
    ensures is_begun { F.is_begun shelf.new ≡ true }
    ensures files { F.files shelf.new ≡ F.files shelf.old }
    ensures never_fails { F.never_fails shelf.new ≡ F.never_fails shelf.old }
    ensures later { F.faults shelf.old ≤ F.faults shelf.new }
    ensures fault { IfOk result (CauseOfStep (F.faults shelf.old) (F.faults shelf.new)) }
{
    let size = most.min(buffer.len());
    let (piece, _) = buffer.split_at_mut(size);
    match shelf.read(piece) {
        Got::Bytes(count) => {
            let (got, _) = piece.split_at(count);
            bytes.extend_from_slice(got)?;
            Ok(Step::More)
        }
        Got::End => Ok(Step::End),
        Got::Failed => Ok(Step::Failed),
    }
}

/// Writes all of `bytes`, in as many pieces as the sink takes. At a fault a prefix of them was appended to what
/// the sink holds.
#[tactic(auto, using(crate::proofs::Known::append_known_next))]
pub fn write_all<S: Sink>(sink: &mut S, bytes: &[u8]) -> Result<(), WriteFault>
where
    ensures ok { OnOk result (S.held sink.new ≡ append_known (S.held sink.old) bytes.now) }
    ensures err { OnErr result ((n : ℕ) × (n < length bytes.now) × (S.held sink.new ≡ append_known (S.held sink.old) (take n bytes.now))) }
    ensures sure { length bytes.now ≤ S.spare sink.old → IsOk result }
    ensures spare { OnOk result (S.spare sink.old ≤ S.spare sink.new + length bytes.now) }
    ensures later { S.faults sink.old ≤ S.faults sink.new }
    ensures fault { OnErr result (Rose (S.faults sink.old) (S.faults sink.new)) }
{
    let mut written = 0;
    'writing: while written < bytes.len() {
        let (_, rest) = bytes.split_at(written);
        match sink.write(rest) {
            Put::Wrote(count) => written += count,
            Put::Failed => return Err(WriteFault),
        }
    }
    Ok(())
}
