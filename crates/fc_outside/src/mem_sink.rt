//! A sink in memory.

ghost use Rattle.std.specs.Prelude.{◌≡◌, ◌≤◌, ◌<◌, Some, [], IfOk, length};
ghost use Rattle.fc_outside.specs.Causes.{HasCause};
ghost use Rattle.fc_outside.specs.Contents.{PutAtMost, Writes, Spares};
ghost use Rattle.fc_outside.specs.Memory.{Held, sink_faults, sink_spare, write_answer, after_write};

use crate::calls::{CallNums, Calls};
use crate::outside::{Put, Sink};
use std::alloc::{AllocError, Global};
use std::marker::Model;

/// A sink that holds the bytes it took, with room for so many; each write takes at most so many, and some
/// calls fail.
#[derive(Debug, Drop)]
pub struct MemSink {
    held: Vec<u8>,
    room: usize,
    most: usize,
    calls: Calls,
    refused: u64,
}

impl Model for MemSink {
    ghost use Rattle.std.specs.Prelude.{◌≤◌, vec_len, vec_capacity};
    ghost use Rattle.fc_outside.specs.Memory.{Held};

    ghost Value = { Held };

    ghost view = { λ s. record { held = s.held.items; room = s.room; most = s.most; fails = s.calls.fails; calls = s.calls.made; refused = s.refused } };

    ghost invariant = { λ s. (1 ≤ s.most) × (vec_len s.held ≤ s.room) × (s.room ≤ vec_capacity s.held) };
}

impl MemSink {
    /// An empty sink with memory for `room` bytes. A write takes at most `most` bytes; one that finds no room
    /// fails, and so do the writes that `fails` lists, counted from 1.
    pub fn new(
        alloc: Global,
        room: usize,
        most: usize,
        fails: CallNums,
    ) -> Result<MemSink, AllocError>
        requires { 1 ≤ most }
        ensures { IfOk result (λ s. s ≡ record { held = []; room = room; most = most; fails = fails; calls = 0; refused = 0 }) }
    {
        Ok(MemSink {
            held: Vec::with_capacity(alloc, room)?,
            room,
            most,
            calls: Calls { fails, made: 0 },
            refused: 0,
        })
    }

    /// The bytes that it holds.
    pub fn held(&self) -> &[u8]
        ensures { result.now ≡ self.now.held }
    {
        self.held.as_slice()
    }
}

impl Sink for MemSink {
    ghost use Rattle.std.specs.Prelude.{Some};
    ghost use Rattle.fc_outside.specs.Memory.{sink_faults, sink_spare};

    ghost held = { λ s. Some s.held };

    ghost faults = { sink_faults };

    ghost spare = { sink_spare };

    fn write(&mut self, piece: &[u8]) -> Put
        requires { 0 < length piece.now }
        ensures answer { result ≡ write_answer self.old piece.now }
        ensures state { self.new ≡ after_write self.old piece.now }
        ensures count { PutAtMost (length piece.now) result }
        ensures bytes { Writes (Some self.old.held) (Some self.new.held) piece.now result }
        ensures spare { Spares (sink_spare self.old) (sink_spare self.new) (length piece.now) result }
        ensures cause { HasCause Put.Failed (sink_faults self.old) (sink_faults self.new) result }
    {
        if self.calls.next_fails() {
            return Put::Failed;
        }
        let free = self.room - self.held.len();
        let count = piece.len().min(self.most).min(free);
        if count == 0 {
            self.refused = self.refused.saturating_add(1);
            return Put::Failed;
        }
        let (front, _) = piece.split_at(count);
        let Ok(()) = self.held.extend_from_slice(front) else {
            unreachable!()
        };
        Put::Wrote(count)
    }
}
