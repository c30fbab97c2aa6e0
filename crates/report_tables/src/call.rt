//! A call over a shelf and a sink in memory.

use crate::setting::{Outside, Setting};
use crate::texts::{bytes_of, words_of};
use fc_outside::{MemFile, MemShelf, MemSink};
use kernel_serve::{Status, fault_line, report_run};
use sqlite_items::Items;
use std::alloc::{AllocError, Global};

/// What a call is given.
#[derive(Drop)]
pub(crate) struct Given {
    words: Vec<String>,
    file: Vec<u8>,
    script: Vec<u8>,
}

/// What a call comes to.
#[derive(Drop)]
pub(crate) struct Came {
    /// The exit status.
    pub(crate) status: u8,
    /// What was written.
    pub(crate) written: Vec<u8>,
    /// The line for a fault.
    pub(crate) said: Vec<u8>,
}

impl Came {
    /// A call that ended so, with these bytes written.
    pub(crate) fn new(alloc: Global, status: &Status, written: &[u8]) -> Result<Came, AllocError> {
        Ok(Came {
            status: status.exit_status(),
            written: Vec::from_slice(alloc, written)?,
            said: fault_line(alloc, status)?,
        })
    }
}

impl Given {
    /// What the texts of a setting stand for.
    pub(crate) fn new(alloc: Global, setting: &Setting) -> Result<Given, AllocError> {
        Ok(Given {
            words: words_of(alloc, setting.words.as_str())?,
            file: bytes_of(alloc, setting.file.as_str())?,
            script: bytes_of(alloc, setting.script.as_str())?,
        })
    }

    /// A shelf with this file as `f.c` and this script as `e`.
    fn shelf(&self, alloc: Global, outside: Outside) -> Result<MemShelf, AllocError> {
        let mut files = Items::new(alloc);
        files.push(MemFile::new(alloc, "f.c", self.file.as_slice())?)?;
        files.push(MemFile::new(alloc, "e", self.script.as_slice())?)?;
        let failing = Items::from_slice(alloc, &[outside.failing_read])?;
        MemShelf::new(alloc, files, outside.most.max(1), failing)
    }

    /// What the call comes to where the outside behaves so.
    pub(crate) fn call(&self, alloc: Global, outside: Outside) -> Result<Came, AllocError> {
        let mut shelf = self.shelf(alloc, outside)?;
        let failing = Items::from_slice(alloc, &[outside.failing_write])?;
        let mut sink = MemSink::new(alloc, outside.room, outside.most.max(1), failing)?;
        let status = report_run(alloc, self.words.as_slice(), &mut shelf, &mut sink);
        Came::new(alloc, &status, sink.held())
    }
}
