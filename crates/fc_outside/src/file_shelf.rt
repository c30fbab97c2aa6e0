//! Files of the system.

ghost use Rattle.std.specs.Prelude.{◌≡◌, false};

use crate::again::read_again;
use crate::outside::{Begun, Got, Shelf};
use std::fs;
use std::rt::Files;

/// The files that a runtime reaches, by their paths. It counts each fault, a missing file among them, and
/// tells nothing of what the files hold. A file is closed once its end was found, or another is begun.
#[derive(Drop)]
pub struct FileShelf<'r, R: Files> {
    rt: &'r R,
    is_begun: bool,
    /// The begun file, until its end was found.
    file: Option<R::File>,
    faults: u64,
}

impl<'r, R: Files> FileShelf<'r, R> {
    /// The files that `rt` reaches, none of them begun.
    pub fn new(rt: &'r R) -> FileShelf<'r, R>
        ensures faults { ⟦<FileShelf<'r, R> as Shelf>⟧.faults result ≡ 0 }
        ensures is_begun { ⟦<FileShelf<'r, R> as Shelf>⟧.is_begun result ≡ false }
    {
        FileShelf {
            rt,
            is_begun: false,
            file: None,
            faults: 0,
        }
    }
}

impl<'r, R: Files> Shelf for FileShelf<'r, R> {
    ghost use Rattle.std.specs.Prelude.{None, false};
    ghost use Rattle.std.proofs.Common.{rules};

    ghost files = { λ s. None };

    ghost left = { λ s. None };

    ghost is_begun = { λ s. s.is_begun };

    ghost asked = { λ s. None };

    ghost faults = { λ s. s.faults };

    ghost never_fails = { λ s. false };

    fn begin(&mut self, name: &str) -> Begun {
        match fs::open(self.rt, name) {
            Ok(file) => {
                self.file = Some(file);
                self.is_begun = true;
                Begun::Ready
            }
            Err(_) => {
                self.faults = self.faults.saturating_add(1);
                Begun::Failed
            }
        }
    }

    fn read(&mut self, buf: &mut [u8]) -> Got {
        let Some(file) = &mut self.file else {
            return Got::End;
        };
        match read_again(file, buf) {
            Some(0) => {
                self.file = None;
                Got::End
            }
            Some(count) => Got::Bytes(count),
            None => {
                self.faults = self.faults.saturating_add(1);
                Got::Failed
            }
        }
    }

    ghost none_came = { λ s h. Prim.search rules };
}
