//! What takes bytes for the standard library.

ghost use Rattle.std.specs.Prelude.{◌≡◌};

use crate::again::write_again;
use crate::outside::{Put, Sink};
use std::io::Write;

/// A writer as a sink. It counts each fault, a write that takes nothing among them, and tells nothing of what
/// the writer holds.
#[derive(Drop)]
pub struct OutSink<W: Write> {
    /// The writer that takes the bytes.
    pub writer: W,
    faults: u64,
}

impl<W: Write> OutSink<W> {
    /// A sink that hands its bytes to this writer.
    pub fn new(writer: W) -> OutSink<W>
        ensures writer { result.writer ≡ writer }
        ensures faults { ⟦<OutSink<W> as Sink>⟧.faults result ≡ 0 }
    {
        OutSink { writer, faults: 0 }
    }
}

impl<W: Write> Sink for OutSink<W> {
    ghost use Rattle.std.specs.Prelude.{None};

    ghost held = { λ s. None };

    ghost faults = { λ s. s.faults };

    ghost spare = { λ s. 0 };

    fn write(&mut self, piece: &[u8]) -> Put {
        match write_again(&mut self.writer, piece) {
            None | Some(0) => {
                self.faults = self.faults.saturating_add(1);
                Put::Failed
            }
            Some(count) => Put::Wrote(count),
        }
    }
}
