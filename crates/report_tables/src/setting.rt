//! What the calls of the table are given.

use crate::texts::number_of;
use std::alloc::{AllocError, Global};

/// What a line is.
#[derive(Clone, Copy)]
pub(crate) enum Part {
    /// The file.
    Files,
    /// The script.
    Scripts,
    /// The words.
    Calls,
    /// How the outside behaves.
    Outside,
    /// How many reads fail, one in each call.
    Reads,
    /// How many writes fail, one in each call.
    Writes,
    /// Nothing: what is said of a call that found no memory.
    Statuses,
}

/// How the outside behaves.
#[derive(Clone, Copy)]
pub(crate) struct Outside {
    /// The most bytes of a read or a write.
    pub(crate) most: usize,
    /// The call of the shelf that fails, counted from 1; 0 for none.
    pub(crate) failing_read: u64,
    /// The write that fails.
    pub(crate) failing_write: u64,
    /// How many bytes the sink has room for.
    pub(crate) room: usize,
}

impl Outside {
    /// Nothing fails, and everything is moved at once.
    pub(crate) fn quick() -> Outside {
        Outside {
            most: 16_777_217,
            failing_read: 0,
            failing_write: 0,
            room: 4_000_000,
        }
    }

    /// Nothing fails, and one byte is moved at a time.
    pub(crate) fn slow() -> Outside {
        Outside {
            most: 1,
            ..Outside::quick()
        }
    }

    /// What a line says: the most bytes, the failing read, the failing write and the room.
    pub(crate) fn said(line: &str) -> Outside {
        let mut outside = Outside::quick();
        for (place, word) in line.split(' ').enumerate() {
            let number = number_of(word);
            match place {
                0 => outside.most = number as usize,
                1 => outside.failing_read = u64::from(number),
                2 => outside.failing_write = u64::from(number),
                _ => outside.room = number as usize,
            }
        }
        outside
    }
}

/// What the next calls are given; texts are kept as they stand in the table.
#[derive(Drop)]
pub(crate) struct Setting {
    pub(crate) part: Part,
    pub(crate) words: String,
    pub(crate) file: String,
    pub(crate) script: String,
    /// The report that is wanted, where it is compared and not shown.
    pub(crate) wanted: Option<String>,
}

impl Setting {
    pub(crate) fn new(alloc: Global) -> Setting {
        Setting {
            part: Part::Files,
            words: String::new(alloc),
            file: String::new(alloc),
            script: String::new(alloc),
            wanted: None,
        }
    }

    /// Takes a line after `= `: a part, or a word and what it sets.
    pub(crate) fn take(&mut self, alloc: Global, line: &str) -> Result<(), AllocError> {
        let (word, text) = line.split_once(" ").unwrap_or((line, ""));
        match word {
            "words" => self.words = String::from_str(alloc, text)?,
            "file" => self.file = String::from_str(alloc, text)?,
            "script" => self.script = String::from_str(alloc, text)?,
            "wanted" => self.wanted = Some(String::from_str(alloc, text)?),
            "shown" => self.wanted = None,
            _ => self.part = part_named(word),
        }
        Ok(())
    }
}

/// The part with this name; `Files` for another name.
fn part_named(name: &str) -> Part {
    match name {
        "scripts" => Part::Scripts,
        "calls" => Part::Calls,
        "outside" => Part::Outside,
        "reads" => Part::Reads,
        "writes" => Part::Writes,
        "statuses" => Part::Statuses,
        _ => Part::Files,
    }
}
