//! Work on a stack that is large enough for recursion as deep as a long text allows.
#![tactic(auto)]

ghost use Rattle.std.specs.Prelude.{◌≡◌};

#[cfg(test)]
mod tests;

use core::thread::Stack;
use std::snapshot::Snapshot;
use std::sync::Wait;
use std::thread;
use std::thread::{Promise, Threads};

/// The sizes of stack that are tried, in bytes, the largest first. Only what is touched takes memory.
const STACKS: [usize; 3] = [17179869184, 4294967296, 1073741824];

/// A promise as it was when the thread was started.
#[derive(Drop)]
struct Shown<P>(Snapshot<P>);

impl<T, P: Promise<T>> Promise<T> for Shown<P> {
    ghost kept_by = { λ s r. P.kept_by s.0.value r };
}

/// What `f` returns, called in a thread of its own with a large stack, or where no such thread can be made
/// in this one. The promise is kept by the result. It waits for the thread, which may borrow.
pub fn on_large_stack<
    'e,
    R: Threads + Wait,
    P: Promise<T> + Drop + 'e,
    F: FnOnce() -> T + Send + 'e,
    T: Send + Drop + 'e,
>(rt: &R, promise: P, f: F) -> T
    requires runs { F.pre f }
    requires keeps { (r : T) → F.post f r → P.kept_by promise r }
    ensures { P.kept_by promise result }
{
    thread::scope(
        thread::scope_env(),
        rt,
        move |scope| -> T
            requires runs { F.pre f }
            requires keeps { (r : T) → F.post f r → P.kept_by promise r }
            ensures { P.kept_by promise result }
        {
            let mut f = f;
            for size in STACKS {
                let stack = Stack::new().stack_size(size);
                match stack.spawn_scoped_with(scope, Shown(Snapshot::of(&promise)), f) {
                    Ok(child) => return child.join(rt),
                    Err(refused) => f = refused.value,
                }
            }
            f()
        },
    )
}
