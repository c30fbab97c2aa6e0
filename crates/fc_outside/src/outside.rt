//! What a program reads from and writes to.

ghost use Rattle.std.specs.Prelude.{◌≡◌, ◌<◌, ℕ, Bool, List, Option, IsTrue, true, length};
ghost use Rattle.fc_outside.specs.Causes.{HasCause};
ghost use Rattle.fc_outside.specs.Contents.{told_contents, begun_after, Begins, GotAtMost, Reads, PutAtMost, Writes, Spares};
ghost use Rattle.fc_outside.specs.Requests.{AskedOnce, TookMore, bytes_got};

/// What beginning a file came to.
#[derive(Clone, Copy, Debug, PartialEq, Eq)]
pub enum Begun {
    /// The file can be read from its start.
    Ready,
    /// A fault came.
    Failed,
}

/// What a read came to.
#[derive(Clone, Copy, Debug, PartialEq, Eq)]
pub enum Got {
    /// So many bytes are in the buffer, from its start: at least 1.
    Bytes(usize),
    /// The file has no byte left.
    End,
    /// A fault came.
    Failed,
}

/// What a write came to.
#[derive(Clone, Copy, Debug, PartialEq, Eq)]
pub enum Put {
    /// So many bytes, from the start of the piece, were taken: at least 1.
    Wrote(usize),
    /// A fault came.
    Failed,
}

/// Files that are read one after another, each by its name. What the files hold is told or not: where it
/// isn't, only counts and causes are known.
pub trait Shelf {
    /// The files' names with their bytes, where they are told. No call changes them.
    ghost files: { Self → Option (List (List ℕ × List ℕ)) };

    /// The bytes that the begun file still gives, where they are told.
    ghost left: { Self → Option (List ℕ) };

    /// Whether a file has been begun.
    ghost is_begun: { Self → Bool };

    /// What was asked for, where it is told: for each call of `begin`, the newest first, the name and how many
    /// bytes were taken since.
    ghost asked: { Self → Option (List (List ℕ × ℕ)) };

    /// How often a fault came.
    ghost faults: { Self → ℕ };

    /// Whether it never has a fault. No call changes it.
    ghost never_fails: { Self → Bool };

    /// Begins the file with this name, from its start, in place of one that was begun before. At Failed what
    /// was begun and what is left of it stay as they were.
    fn begin(&mut self, name: &str) -> Begun
        ensures left { Begins (told_contents name.now (files self.new)) (left self.old) (left self.new) result }
        ensures is_begun { is_begun self.new ≡ begun_after (is_begun self.old) result }
        ensures asked { AskedOnce name.now 0 (asked self.old) (asked self.new) }
        ensures files { files self.new ≡ files self.old }
        ensures never_fails { never_fails self.new ≡ never_fails self.old }
        ensures cause { HasCause Begun.Failed (faults self.old) (faults self.new) result };

    /// Reads the next bytes of the begun file into the start of `buf`, at least one of them unless it is at
    /// its end. What stands in `buf` after them isn't said.
    fn read(&mut self, buf: &mut [u8]) -> Got
        requires begun { is_begun self.old ≡ true }
        requires room { 0 < length buf.old }
        ensures count { GotAtMost (length buf.old) result }
        ensures bytes { Reads (left self.old) (left self.new) buf.new result }
        ensures asked { TookMore (bytes_got result) (asked self.old) (asked self.new) }
        ensures is_begun { is_begun self.new ≡ true }
        ensures files { files self.new ≡ files self.old }
        ensures never_fails { never_fails self.new ≡ never_fails self.old }
        ensures cause { HasCause Got.Failed (faults self.old) (faults self.new) result };

    /// Where no fault ever comes, none came.
    ghost none_came: { (shelf : Self) → never_fails shelf ≡ true → faults shelf ≡ 0 };
}

/// What takes a program's bytes, in order. What it holds is told or not.
pub trait Sink {
    /// The bytes that were taken so far, where they are told.
    ghost held: { Self → Option (List ℕ) };

    /// How often a fault came.
    ghost faults: { Self → ℕ };

    /// So many bytes more it takes without a fault.
    ghost spare: { Self → ℕ };

    /// Takes bytes from the start of `piece`, at least one.
    fn write(&mut self, piece: &[u8]) -> Put
        requires { 0 < length piece.now }
        ensures count { PutAtMost (length piece.now) result }
        ensures bytes { Writes (held self.old) (held self.new) piece.now result }
        ensures spare { Spares (spare self.old) (spare self.new) (length piece.now) result }
        ensures cause { HasCause Put.Failed (faults self.old) (faults self.new) result };
}
