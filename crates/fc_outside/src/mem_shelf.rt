//! Files in memory.

ghost use Rattle.std.specs.Prelude.{◌≡◌, ◌+◌, ◌^◌, ◌≤◌, ◌<◌, None, Some, [], true, IfOk, is_some, length, take, drop, min};
ghost use Rattle.std.specs.Option.{option_copied};
ghost use Rattle.fc_outside.specs.Calls.{failed_calls, is_nothing};
ghost use Rattle.fc_outside.specs.Causes.{HasCause};
ghost use Rattle.fc_outside.specs.Contents.{contents_of, told_contents, begun_after, Begins, GotAtMost, Reads};
ghost use Rattle.fc_outside.specs.Requests.{AskedOnce, TookMore, bytes_got};
ghost use Rattle.fc_outside.specs.Memory.{Shelved, begin_answer, after_begin, read_answer, after_read};
ghost use Rattle.fc_outside.specs.inner.Place.{bytes_at};

use crate::calls::{CallNums, Calls};
use crate::log::Log;
use crate::outside::{Begun, Got, Shelf};
use sqlite_items::Items;
use std::alloc::{AllocError, Global};
use std::marker::Model;

/// A file's name and its bytes, which contracts see as a pair of lists.
#[derive(Debug, Drop)]
pub struct MemFile {
    name: String,
    bytes: Vec<u8>,
}

/// Files in memory. Of a repeated name the first counts.
pub type Files = Items<MemFile>;

impl Model for MemFile {
    ghost use Rattle.std.specs.Prelude.{List, ℕ, string_bytes};

    ghost Value = { List ℕ × List ℕ };

    ghost view = { λ f. (string_bytes f.name, f.bytes.items) };
}

impl MemFile {
    /// A file with this name and these bytes.
    pub fn new(alloc: Global, name: &str, bytes: &[u8]) -> Result<MemFile, AllocError>
        ensures { IfOk result (λ file. file ≡ (name.now, bytes.now)) }
    {
        let name = String::from_str(alloc, name)?;
        let bytes = Vec::from_slice(alloc, bytes)?;
        Ok(MemFile { name, bytes })
    }

    /// The file's name.
    pub fn name(&self) -> &str
        ensures { result.now ≡ self.now.0 }
    {
        self.name.as_str()
    }

    /// The file's bytes.
    pub fn bytes(&self) -> &[u8]
        ensures { result.now ≡ self.now.1 }
    {
        self.bytes.as_slice()
    }
}

/// A place in a list of files: a file by its number, which is past the last for an empty file that isn't in
/// the list, and how many of its bytes were given.
#[derive(Clone, Copy, Debug)]
pub(crate) struct Place {
    file: usize,
    given: usize,
}

/// Files in memory, of which each read gives at most so many bytes, and some calls fail.
#[derive(Debug, Drop)]
pub struct MemShelf {
    files: Files,
    most: usize,
    calls: Calls,
    place: Option<Place>,
    asked: Log,
}

impl Model for MemShelf {
    ghost use Rattle.std.specs.Prelude.{◌≤◌};
    ghost use Rattle.fc_outside.specs.Memory.{Shelved};

    ghost Value = { Shelved };

    ghost use Rattle.fc_outside.specs.inner.Place.{left_at, IsWithin};

    ghost view = { λ s. record { files = s.files; left = left_at s.files s.place; most = s.most; fails = s.calls.fails; calls = s.calls.made; asked = s.asked } };

    ghost invariant = { λ s. (1 ≤ s.most) × IsWithin s.files s.place };
}

impl MemShelf {
    /// These files, none of them begun. A read gives at most `most` bytes; the calls that `fails` lists answer
    /// Failed, where the beginnings and reads are counted together from 1. It tells what it is asked for as long
    /// as there is memory to keep the names.
    pub fn new(
        alloc: Global,
        files: Files,
        most: usize,
        fails: CallNums,
    ) -> Result<MemShelf, AllocError>
        requires { 1 ≤ most }
        ensures { IfOk result (λ s. s ≡ record { files = files; left = None; most = most; fails = fails; calls = 0; asked = Some [] }) }
    {
        Ok(MemShelf {
            files,
            most,
            calls: Calls { fails, made: 0 },
            place: None,
            asked: Log::new(alloc),
        })
    }
}

/// The number of the first file with this name, or past the last if none has it.
fn number_of(files: &[MemFile], name: &str) -> usize
    ensures { bytes_at files.now result ≡ contents_of name.now files.now }
{
    for (number, file) in files.iter().enumerate() {
        if file.name() == name {
            return number;
        }
    }
    files.len()
}

/// The bytes from a place on.
fn bytes_from(files: &[MemFile], place: Place) -> &[u8]
    requires { place.given ≤ length (bytes_at files.now place.file) }
    ensures value { result.now ≡ drop place.given (bytes_at files.now place.file) }
    ensures length { place.given + length result.now ≡ length (bytes_at files.now place.file) }
    ensures bound { place.given + length result.now < 2 ^ 64 }
{
    match files.get(place.file) {
        Some(file) => file.bytes().split_at(place.given).1,
        None => &[],
    }
}

/// Copies the first of these bytes into the start of `buf`, at most `most`, and says how many.
fn copy_first(rest: &[u8], most: usize, buf: &mut [u8]) -> usize
    ensures count { result ≡ min (min (length rest.now) most) (length buf.old) }
    ensures bytes { take result buf.new ≡ take result rest.now }
{
    let count = rest.len().min(most).min(buf.len());
    let (piece, _) = rest.split_at(count);
    let (front, _) = buf.split_at_mut(count);
    front.copy_from_slice(piece);
    count
}

impl Shelf for MemShelf {
    ghost use Rattle.std.specs.Prelude.{◌≡◌, Some, is_some, length};
    ghost use Rattle.fc_outside.specs.Calls.{failed_calls};
    ghost use Rattle.fc_outside.specs.Calls.{is_nothing};

    ghost files = { λ s. Some s.files };

    ghost left = { λ s. s.left };

    ghost is_begun = { λ s. is_some s.left };

    ghost asked = { λ s. s.asked };

    ghost faults = { λ s. failed_calls s.fails s.calls };

    ghost never_fails = { λ s. is_nothing s.fails };

    fn begin(&mut self, name: &str) -> Begun
        ensures answer { result ≡ begin_answer self.old }
        ensures state { self.new ≡ after_begin self.old name.now self.new.asked }
        ensures left { Begins (told_contents name.now (Some self.new.files)) self.old.left self.new.left result }
        ensures is_begun { is_some self.new.left ≡ begun_after (is_some self.old.left) result }
        ensures asked { AskedOnce name.now 0 self.old.asked self.new.asked }
        ensures files { Some self.new.files ≡ Some self.old.files }
        ensures never_fails { is_nothing self.new.fails ≡ is_nothing self.old.fails }
        ensures cause { HasCause Begun.Failed (failed_calls self.old.fails self.old.calls) (failed_calls self.new.fails self.new.calls) result }
    {
        self.asked.begin(name);
        if self.calls.next_fails() {
            return Begun::Failed;
        }
        let file = number_of(self.files.as_slice(), name);
        self.place = Some(Place { file, given: 0 });
        Begun::Ready
    }

    #[tactic(auto, using(crate::proofs::Known::next_and_rest, crate::proofs::Known::got_of_some))]
    fn read(&mut self, buf: &mut [u8]) -> Got
        requires begun { is_some self.old.left ≡ true }
        requires room { 0 < length buf.old }
        ensures answer { result ≡ read_answer self.old (length buf.old) }
        ensures state { self.new ≡ after_read self.old (length buf.old) self.new.asked }
        ensures count { GotAtMost (length buf.old) result }
        ensures bytes { Reads self.old.left self.new.left buf.new result }
        ensures asked { TookMore (bytes_got result) self.old.asked self.new.asked }
        ensures is_begun { is_some self.new.left ≡ true }
        ensures files { Some self.new.files ≡ Some self.old.files }
        ensures never_fails { is_nothing self.new.fails ≡ is_nothing self.old.fails }
        ensures cause { HasCause Got.Failed (failed_calls self.old.fails self.old.calls) (failed_calls self.new.fails self.new.calls) result }
    {
        if self.calls.next_fails() {
            return Got::Failed;
        }
        let Some(place) = self.place else {
            unreachable!()
        };
        let rest = bytes_from(self.files.as_slice(), place);
        if rest.is_empty() {
            return Got::End;
        }
        let count = copy_first(rest, self.most, buf);
        self.place = Some(Place {
            file: place.file,
            given: place.given + count,
        });
        self.asked.take(count);
        Got::Bytes(count)
    }

    ghost use Rattle.fc_outside.specs.Calls.{none_failed};

    ghost none_came = { λ s h. none_failed s.fails s.calls h };
}
