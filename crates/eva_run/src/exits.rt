//! The states where a part of a program ends.

ghost use Rattle.std.specs.Prelude.{◌≡◌, [], IfOk};
ghost use Rattle.abs_state.specs.States.{joined_state};
ghost use Rattle.c_runs.specs.Runs.{Breaks, Continues, Next, Returns, Stopped};
ghost use Rattle.eva_rules.specs.Passing as passing;
ghost use Rattle.eva_rules.specs.Passing.{back, ends, left_by, nothing_passed};
ghost use Rattle.eva_run.specs.Code.{alone, exits_of};

use abs_state::State;
use prop_set::PropSet;
use std::alloc::{AllocError, Global};

/// The states where a part ends, by how it ends: it goes on, or it ends by `break`, by `continue` or by `return`.
#[derive(Debug, Drop)]
pub(crate) struct Exits {
    pub(crate) next: State,
    pub(crate) breaks: State,
    pub(crate) continues: State,
    pub(crate) returns: State,
}

/// Where no run comes, with nothing used.
pub(crate) fn nowhere(alloc: Global) -> State
    ensures { result ≡ passing.nowhere }
{
    State::unreached(PropSet::new(alloc))
}

/// The join of two states.
pub(crate) fn join(alloc: Global, a: State, b: State) -> Result<State, AllocError>
    ensures { IfOk result (λ s. s ≡ joined_state a b) }
{
    let env = match (a.env, b.env) {
        (None, env) => env,
        (Some(cells), None) => Some(cells),
        (Some(left), Some(right)) => Some(left.join(alloc, &right)?),
    };
    let mut used = a.used;
    used.join(&b.used)?;
    Ok(State { env, used })
}

/// Unreached, with what this state used.
pub(crate) fn unreached_as(alloc: Global, state: &State) -> Result<State, AllocError>
    ensures { IfOk result (λ s. s ≡ record { env = None; used = state.now.used }) }
{
    Ok(State::unreached(state.used.copy(alloc)?))
}

/// The part goes on.
pub(crate) fn ends_next(alloc: Global, state: State) -> Exits
    ensures { result ≡ exits_of (ends Next state) }
{
    Exits {
        next: state,
        breaks: nowhere(alloc),
        continues: nowhere(alloc),
        returns: nowhere(alloc),
    }
}

/// The part ends by `break`.
pub(crate) fn ends_breaks(alloc: Global, state: State) -> Result<Exits, AllocError>
    ensures { IfOk result (λ x. x ≡ exits_of (ends Breaks state)) }
{
    Ok(Exits {
        next: unreached_as(alloc, &state)?,
        breaks: state,
        continues: nowhere(alloc),
        returns: nowhere(alloc),
    })
}

/// The part ends by `continue`.
pub(crate) fn ends_continues(alloc: Global, state: State) -> Result<Exits, AllocError>
    ensures { IfOk result (λ x. x ≡ exits_of (ends Continues state)) }
{
    Ok(Exits {
        next: unreached_as(alloc, &state)?,
        breaks: nowhere(alloc),
        continues: state,
        returns: nowhere(alloc),
    })
}

/// The part ends by `return`.
pub(crate) fn ends_returns(alloc: Global, state: State) -> Result<Exits, AllocError>
    ensures { IfOk result (λ x. x ≡ exits_of (ends Returns state)) }
{
    Ok(Exits {
        next: unreached_as(alloc, &state)?,
        breaks: nowhere(alloc),
        continues: nowhere(alloc),
        returns: state,
    })
}

/// No run goes on.
pub(crate) fn ends_stopped(alloc: Global, state: State) -> Exits
    ensures { result ≡ exits_of (ends Stopped state) }
{
    Exits {
        next: State::unreached(state.used),
        breaks: nowhere(alloc),
        continues: nowhere(alloc),
        returns: nowhere(alloc),
    }
}

/// Nothing so far.
pub(crate) fn nothing(alloc: Global) -> Exits
    ensures { result ≡ exits_of nothing_passed }
{
    Exits {
        next: nowhere(alloc),
        breaks: nowhere(alloc),
        continues: nowhere(alloc),
        returns: nowhere(alloc),
    }
}

/// One part after another, which began where the first one went on.
pub(crate) fn followed(alloc: Global, a: Exits, b: Exits) -> Result<Exits, AllocError>
    ensures { IfOk result (λ x. x ≡ exits_of (passing.followed (alone a) (alone b))) }
{
    Ok(Exits {
        next: b.next,
        breaks: join(alloc, a.breaks, b.breaks)?,
        continues: join(alloc, a.continues, b.continues)?,
        returns: join(alloc, a.returns, b.returns)?,
    })
}

/// Either part.
pub(crate) fn either(alloc: Global, a: Exits, b: Exits) -> Result<Exits, AllocError>
    ensures { IfOk result (λ x. x ≡ exits_of (passing.either (alone a) (alone b))) }
{
    Ok(Exits {
        next: join(alloc, a.next, b.next)?,
        breaks: join(alloc, a.breaks, b.breaks)?,
        continues: join(alloc, a.continues, b.continues)?,
        returns: join(alloc, a.returns, b.returns)?,
    })
}

/// After `continue` the part goes on.
pub(crate) fn continuing(alloc: Global, a: Exits) -> Result<Exits, AllocError>
    ensures { IfOk result (λ x. x ≡ exits_of (passing.continuing (λ _. alone a) a.next)) }
{
    Ok(Exits {
        next: join(alloc, a.next, a.continues)?,
        breaks: a.breaks,
        continues: nowhere(alloc),
        returns: a.returns,
    })
}

/// The end of a body, or where it returned.
pub(crate) fn closed(alloc: Global, body: Exits, end: Exits) -> Result<Exits, AllocError>
    ensures { IfOk result (λ x. x ≡ exits_of (passing.closed (alone body) (alone end))) }
{
    Ok(Exits {
        next: join(alloc, end.next, body.returns)?,
        breaks: nowhere(alloc),
        continues: nowhere(alloc),
        returns: nowhere(alloc),
    })
}

/// What comes back to a loop's point after a turn, and what leaves the loop.
#[derive(Debug, Drop)]
pub(crate) struct Parted {
    pub(crate) back: State,
    pub(crate) left: Exits,
}

/// The two ways on from a turn.
pub(crate) fn split_turn(alloc: Global, turn: Exits) -> Result<Parted, AllocError>
    ensures back { IfOk result (λ p. p.back ≡ back (alone turn)) }
    ensures left { IfOk result (λ p. p.left ≡ exits_of (left_by (alone turn))) }
{
    Ok(Parted {
        back: join(alloc, turn.next, turn.continues)?,
        left: Exits {
            next: turn.breaks,
            breaks: nowhere(alloc),
            continues: nowhere(alloc),
            returns: turn.returns,
        },
    })
}
