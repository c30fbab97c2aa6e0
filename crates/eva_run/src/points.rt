//! What is done at a point.

ghost use Rattle.std.specs.Prelude.{◌≡◌, ◌+◌, [], ◌∷◌, ℕ, drop, true, IfOk, OnOk};
ghost use Rattle.std.specs.Option.{option_map};
ghost use Rattle.c_runs.specs.Statements as runs;
ghost use Rattle.eva_expr.specs.Conditions.{narrowed_by_pred};
ghost use Rattle.c_runs.specs.Visits.{Clause, Dead, Named, Precondition};
ghost use Rattle.eva_rules.specs.Points as rules;
ghost use Rattle.eva_run.specs.Code.{IsNoted, ground_by, tallied};

use crate::setting::{Setting, assumes, clauses_at, is_admitted};
use crate::tallies::{Tallies, put};
use abs_state::State;
use c_ir::{Kind, PointClause, Pred};
use eva_expr::{Cond, narrow, truth};
use eva_terms::Truth;
use fc_base::PropId;
use int_interval::Said;
use prop_set::PropSet;
use std::alloc::{AllocError, Global};

/// Adds a record of the property with this number, if records are to be noted.
pub(crate) fn note(
    alloc: Global,
    noting: bool,
    table: &mut Tallies,
    number: u32,
    said: Said,
    used: &PropSet,
) -> Result<(), AllocError>
    ensures { OnOk result ((f : Named → ℕ) (n : Named) → f n ≡ number
        → table.new ≡ tallied f noting table.old (record { named = n; said = said; used = used.now } ∷ [])) }
{
    if noting {
        put(alloc, table, number, said, used)?;
    }
    Ok(())
}

/// What a truth says where runs come.
fn said_of(truth: Truth) -> Said
    ensures { result ≡ rules.said_of truth }
{
    match truth {
        Truth::Yes => Said::Yes,
        Truth::No => Said::No,
        Truth::Maybe => Said::Maybe,
    }
}

/// The state at the function's entry, or the state itself where no clause can speak of the entry.
fn entry_or<'a>(entry: Option<&'a State>, state: &'a State) -> &'a State
    ensures { result.now ≡ rules.entry_or (option_map (λ s. s.now) entry.entry) state.now }
{
    match entry {
        None => state,
        Some(entry) => entry,
    }
}

/// What is said of a predicate in a state; `\old` in it speaks of the state at the entry.
fn said_in(state: &State, entry: &State, pred: &Pred) -> Said
    ensures { result ≡ rules.said_in state.now entry.now pred.now }
{
    match state.env {
        None => Said::Unreached,
        Some(_) => said_of(truth(state, entry, pred)),
    }
}

fn is_maybe(said: Said) -> bool
    ensures { result ≡ rules.is_maybe said }
{
    match said {
        Said::Maybe => true,
        Said::Yes | Said::No | Said::Unreached => false,
    }
}

/// Whether the analysis may go on with a property of this kind.
fn is_assumed(kind: Kind) -> bool
    ensures { result ≡ rules.is_assumed kind }
{
    match kind {
        Kind::Requires | Kind::CallRequires | Kind::Ensures | Kind::Assert | Kind::LoopInvariant =>
            true,
        Kind::Check | Kind::Admit | Kind::Alarm(_) | Kind::Dead => false,
    }
}

/// The state narrowed by a predicate that is true.
fn narrowed(
    alloc: Global,
    setting: Setting<'_>,
    state: State,
    entry: Option<&State>,
    pred: &Pred,
) -> Result<State, AllocError>
    ensures { IfOk result (λ s. s ≡ narrowed_by_pred true (rules.entry_or (option_map (λ x. x.now) entry.entry) state) pred.now state) }
{
    match entry {
        Some(entry) => narrow(alloc, state, entry, Cond::Acsl(pred), true, setting.params),
        None => {
            let entry = state.copy(alloc)?;
            narrow(alloc, state, &entry, Cond::Acsl(pred), true, setting.params)
        }
    }
}

/// The state narrowed by a predicate that may be false, which it used.
fn using(
    alloc: Global,
    setting: Setting<'_>,
    number: u32,
    state: State,
    entry: Option<&State>,
    pred: &Pred,
) -> Result<State, AllocError>
    ensures { IfOk result (λ s. (n : Named) → (ground_by setting.entry).number n ≡ number
        → s ≡ rules.using_it (ground_by setting.entry) n (rules.entry_or (option_map (λ x. x.now) entry.entry) state) pred.now state) }
{
    let mut state = narrowed(alloc, setting, state, entry, pred)?;
    state.used.insert(PropId(number))?;
    Ok(state)
}

/// The state after a clause of which this was said: it is narrowed by one that may be false, if such are assumed.
fn assuming(
    alloc: Global,
    setting: Setting<'_>,
    number: u32,
    is_open: bool,
    state: State,
    entry: Option<&State>,
    pred: &Pred,
) -> Result<State, AllocError>
    ensures { IfOk result (λ s. (n : Named) → (ground_by setting.entry).number n ≡ number
        → s ≡ rules.assumed_if is_open (ground_by setting.entry) n (rules.entry_or (option_map (λ x. x.now) entry.entry) state) pred.now state) }
{
    if is_open {
        using(alloc, setting, number, state, entry, pred)
    } else {
        Ok(state)
    }
}

/// One clause with its number: it is decided, noted and perhaps assumed.
fn decide(
    alloc: Global,
    setting: Setting<'_>,
    noting: bool,
    number: u32,
    kind: Kind,
    pred: &Pred,
    entry: Option<&State>,
    state: State,
    table: &mut Tallies,
) -> Result<State, AllocError>
    ensures { IfOk result (λ s. (n : Named) → (ground_by setting.entry).number n ≡ number
        → (s ≡ rules.assuming (ground_by setting.entry) kind n (rules.entry_or (option_map (λ x. x.now) entry.entry) state) pred.now state)
        × (table.new ≡ tallied (ground_by setting.entry).number noting table.old (rules.record_of n (rules.said_in state (rules.entry_or (option_map (λ x. x.now) entry.entry) state) pred.now) state ∷ []))) }
{
    let said = said_in(&state, entry_or(entry, &state), pred);
    note(alloc, noting, table, number, said, &state.used)?;
    let is_open = is_maybe(said) && (assumes(setting.params) && is_assumed(kind));
    assuming(alloc, setting, number, is_open, state, entry, pred)
}

/// The clauses of a point, in their order.
pub(crate) fn clauses_noted(
    alloc: Global,
    setting: Setting<'_>,
    noting: bool,
    point: u32,
    entry: Option<&State>,
    clauses: &[PointClause],
    state: State,
    table: &mut Tallies,
) -> Result<State, AllocError>
    ensures { IsNoted (ground_by setting.entry).number result noting table.old table.new
        (rules.clauses_noted (ground_by setting.entry) point 0 (option_map (λ x. x.now) entry.entry) clauses.now state) }
{
    let mut now = state;
    for place in 0..clauses.len() {
        let clause = &clauses[place];
        let number = setting.numbers.clause(point, place);
        now = decide(
            alloc,
            setting,
            noting,
            number,
            clause.kind,
            &clause.pred,
            entry,
            now,
            table,
        )?;
    }
    Ok(now)
}

/// The preconditions of a callee, in their order, at the point of its call.
pub(crate) fn preconditions_noted(
    alloc: Global,
    setting: Setting<'_>,
    noting: bool,
    point: u32,
    clauses: &[PointClause],
    state: State,
    table: &mut Tallies,
) -> Result<State, AllocError>
    ensures { IsNoted (ground_by setting.entry).number result noting table.old table.new
        (rules.preconditions_noted (ground_by setting.entry) point 0 clauses.now state) }
{
    let mut now = state;
    for place in 0..clauses.len() {
        let number = setting.numbers.instance(point, place);
        let pred = &clauses[place].pred;
        now = decide(
            alloc,
            setting,
            noting,
            number,
            Kind::CallRequires,
            pred,
            None,
            now,
            table,
        )?;
    }
    Ok(now)
}

/// The state narrowed by a clause that is admitted.
fn admitted(
    alloc: Global,
    setting: Setting<'_>,
    point: u32,
    entry: Option<&State>,
    clause: &PointClause,
    state: State,
) -> Result<State, AllocError>
    ensures { IfOk result (λ s. s ≡ rules.admitted_by (rules.is_admitted (ground_by setting.entry) point clause.now)
        (rules.entry_or (option_map (λ x. x.now) entry.entry) state) clause.now.pred state) }
{
    if is_admitted(setting.program, setting.params, point, clause.kind) {
        narrowed(alloc, setting, state, entry, &clause.pred)
    } else {
        Ok(state)
    }
}

/// The state narrowed by all clauses of a point that are admitted.
fn admitting(
    alloc: Global,
    setting: Setting<'_>,
    point: u32,
    entry: Option<&State>,
    state: State,
) -> Result<State, AllocError>
    ensures { IfOk result (λ s. s ≡ rules.admitting (ground_by setting.entry) point (option_map (λ x. x.now) entry.entry)
        (runs.clauses_at setting.entry.program.now point) state) }
{
    let mut now = state;
    for clause in clauses_at(setting.program, point) {
        now = admitted(alloc, setting, point, entry, clause, now)?;
    }
    Ok(now)
}

/// What is said of the property of kind Dead of a point: a point that is reached may be arrived at or not.
fn said_dead(state: &State) -> Said
    ensures { result ≡ rules.said_dead state.now.env }
{
    match state.env {
        None => Said::Unreached,
        Some(_) => Said::Maybe,
    }
}

/// The arrival at a point: what is admitted there narrows the state, and each clause is decided.
pub(crate) fn arrive(
    alloc: Global,
    setting: Setting<'_>,
    noting: bool,
    point: u32,
    entry: Option<&State>,
    state: State,
    table: &mut Tallies,
) -> Result<State, AllocError>
    ensures { IsNoted (ground_by setting.entry).number result noting table.old table.new
        (rules.point_noted (ground_by setting.entry) point (option_map (λ x. x.now) entry.entry) state) }
{
    let state = admitting(alloc, setting, point, entry, state)?;
    let number = setting.numbers.dead(point);
    note(alloc, noting, table, number, said_dead(&state), &state.used)?;
    let clauses = clauses_at(setting.program, point);
    clauses_noted(alloc, setting, noting, point, entry, clauses, state, table)
}
