//! The outside of a program: files that it reads, and what takes its bytes, as traits with a written
//! meaning, each over memory and over the standard library.
#![tactic(auto)]

mod again;
mod calls;
mod file_shelf;
mod log;
mod mem_shelf;
mod mem_sink;
mod out_sink;
mod outside;
mod whole;

pub use calls::CallNums;
pub use file_shelf::FileShelf;
pub use mem_shelf::{Files, MemFile, MemShelf};
pub use mem_sink::MemSink;
pub use out_sink::OutSink;
pub use outside::{Begun, Got, Put, Shelf, Sink};
pub use whole::{ReadError, WriteFault, read_all, write_all};

#[cfg(test)]
mod tests;
