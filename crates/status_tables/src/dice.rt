//! Histories by numbers that follow a fixed rule.

ghost use Rattle.std.specs.Prelude.{◌<◌};

use fc_base::{Bounded, EmitterId, LocalStatus, ParamSet, PropId};
use param_book::opening;
use sqlite_items::Items;
use status_history::{Change, Entry, History};
use std::alloc::{AllocError, Global};

/// Numbers by a fixed rule.
#[derive(Drop)]
pub(crate) struct Dice {
    pub(crate) state: u64,
}

impl Dice {
    /// The next number below `below`.
    fn roll(&mut self, below: u16) -> u16
        requires { 0 < below }
        ensures { result < below }
    {
        let next = self.state.wrapping_mul(6364136223846793005);
        self.state = next.wrapping_add(1442695040888963407);
        let high = self.state.to_be_bytes();
        u16::from_be_bytes([high[0], high[1]]) % below
    }

    /// The next change.
    fn change(&mut self, alloc: Global) -> Result<Change, AllocError> {
        match self.roll(8) {
            0 => Ok(Change::Register {
                name: Bounded::new(alloc, "")?,
                correctness: ParamSet(self.roll(65535)),
            }),
            1 => Ok(Change::Param {
                number: if self.roll(2) == 0 { 3 } else { 0 },
                value: i64::from(self.roll(2)),
            }),
            _ => self.entry(alloc),
        }
    }

    /// The next entry.
    fn entry(&mut self, alloc: Global) -> Result<Change, AllocError> {
        let mut hyps = Items::new(alloc);
        for _ in 0..self.roll(3) {
            hyps.push(PropId(u32::from(self.roll(10))))?;
        }
        Ok(Change::Emit(Entry {
            emitter: EmitterId(u32::from(self.roll(7))),
            prop: PropId(u32::from(self.roll(10))),
            status: match self.roll(7) {
                0 => LocalStatus::DontKnow,
                1 => LocalStatus::FalseIfReachable,
                2 => LocalStatus::FalseAndReachable,
                _ => LocalStatus::True,
            },
            hyps,
            version: u32::from(self.roll(3)),
        }))
    }

    /// The next history, of so many changes.
    pub(crate) fn history(&mut self, alloc: Global, length: u16) -> Result<History, AllocError> {
        let mut changes = Items::new(alloc);
        for _ in 0..length {
            let change = self.change(alloc)?;
            changes.push(change)?;
        }
        let opening = opening(0, false);
        Ok(History { opening, changes })
    }
}
