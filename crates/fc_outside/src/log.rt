//! What a shelf in memory was asked for.

ghost use Rattle.std.specs.Prelude.{◌≡◌, ◌∷◌, Some, [], IfOk, IfSome};
ghost use Rattle.fc_outside.specs.Requests.{AskedOnce, TookMore, with_taken};

use std::alloc::{AllocError, Global};
use std::marker::Model;

/// One beginning of a file: the name that was asked for, and how many bytes were taken since.
#[derive(Debug, Drop)]
struct Request {
    name: String,
    taken: u64,
}

impl Model for Request {
    ghost use Rattle.std.specs.Prelude.{List, ℕ, string_bytes};

    ghost Value = { List ℕ × ℕ };

    ghost view = { λ r. (string_bytes r.name, r.taken) };
}

/// The beginnings, the newest first; None once there was no memory to keep one, or a count didn't fit.
#[derive(Debug, Drop)]
pub(crate) struct Log {
    alloc: Global,
    requests: Option<Vec<Request>>,
}

impl Model for Log {
    ghost use Rattle.std.specs.Prelude.{List, ℕ, Option};
    ghost use Rattle.std.specs.Option.{option_map};

    ghost Value = { Option (List (List ℕ × ℕ)) };

    ghost view = { λ l. option_map (λ v. v.items) l.requests };
}

impl Log {
    /// No beginning.
    pub(crate) fn new(alloc: Global) -> Log
        ensures { result ≡ Some [] }
    {
        Log {
            alloc,
            requests: Some(Vec::new(alloc)),
        }
    }

    /// Notes a beginning.
    pub(crate) fn begin(&mut self, name: &str)
        ensures { AskedOnce name.now 0 self.old self.new }
    {
        if let Some(requests) = self.requests.take() {
            self.requests = with_begin(self.alloc, requests, name).ok();
        }
    }

    /// Notes that so many bytes more were taken.
    pub(crate) fn take(&mut self, count: usize)
        ensures { TookMore count self.old self.new }
    {
        if let Some(requests) = self.requests.take() {
            self.requests = with_taken(requests, count);
        }
    }
}

/// The beginnings and one more, of which nothing was taken.
fn with_begin(
    alloc: Global,
    mut requests: Vec<Request>,
    name: &str,
) -> Result<Vec<Request>, AllocError>
    ensures { IfOk result (λ v. v.items ≡ (name.now, 0) ∷ requests.items) }
{
    let name = String::from_str(alloc, name)?;
    requests.insert(0, Request { name, taken: 0 })?;
    Ok(requests)
}

/// The beginnings, where so many bytes more were taken after the newest; None where their count doesn't fit.
fn with_taken(mut requests: Vec<Request>, count: usize) -> Option<Vec<Request>>
    ensures { IfSome result (λ v. v.items ≡ with_taken count requests.items) }
{
    let first = requests.first_mut();
    if let Some(first) = first {
        first.taken = first.taken.checked_add(count as u64)?;
    }
    Some(requests)
}
