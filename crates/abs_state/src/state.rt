//! States.

ghost use Rattle.std.specs.Prelude.{◌≡◌, IfOk};
ghost use Rattle.abs_state.specs.States.{included_state, joined_state, unreached_state};

use abs_cells::{Cells, included, join};
use prop_set::PropSet;
use std::alloc::{AllocError, Global};

/// The cells at a place of the program and the properties that were used to know them. Without cells the
/// place is unreached.
#[derive(Debug, Drop)]
pub struct State {
    pub env: Option<Cells>,
    pub used: PropSet,
}

impl State {
    /// No run comes here, by these properties.
    pub fn unreached(used: PropSet) -> State
        ensures { result ≡ unreached_state used }
    {
        State { env: None, used }
    }

    /// The cells of both states joined, and the properties that either used. Fails only for want of memory.
    pub fn join(&self, alloc: Global, other: &State) -> Result<State, AllocError>
        ensures { IfOk result (λ s. s ≡ joined_state self.now other.now) }
    {
        let env = join(alloc, self.env.as_ref(), other.env.as_ref())?;
        let mut used = self.used.copy(alloc)?;
        used.join(&other.used)?;
        Ok(State { env, used })
    }

    /// Whether this state is unreached, or both are reached and its cells are included in the other's. The
    /// properties that were used play no part.
    pub fn included(&self, other: &State) -> bool
        ensures { result ≡ included_state self.now other.now }
    {
        included(self.env.as_ref(), other.env.as_ref())
    }

    /// The same state again. Fails only for want of memory.
    pub fn copy(&self, alloc: Global) -> Result<State, AllocError>
        ensures { IfOk result (λ s. s ≡ self.now) }
    {
        let env = match &self.env {
            Some(cells) => Some(cells.copy(alloc)?),
            None => None,
        };
        let used = self.used.copy(alloc)?;
        Ok(State { env, used })
    }
}
