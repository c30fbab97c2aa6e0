//! Expressions where statements evaluate them.

ghost use Rattle.std.specs.Prelude.{◌≡◌, ◌-ℤ◌, pos, map, true, false, Bool, IfOk, OnOk};
ghost use Rattle.eva_expr.specs.Conditions.{checks_overflow};
ghost use Rattle.eva_rules.specs.Passing as rules;
ghost use Rattle.eva_rules.specs.Passing.{mark_records};
ghost use Rattle.eva_values.specs.Values.{abstracted};
ghost use Rattle.eva_run.specs.Code as code;
ghost use Rattle.eva_run.specs.Code.{IsAimed, IsCall, IsEvaluated, IsGiven, ground_by, tallied};
ghost use Rattle.c_ir.specs.declared.kind.AlarmKind.TheVariants as A;
ghost use Rattle.eva_rules.specs.Meant.{element_target, meant};
ghost use Rattle.eva_values.specs.Marks.{mark_at};
ghost use Rattle.eva_values.specs.Shapes.{converted_row};
ghost use Rattle.int_value.specs.Checks.{within_said};

use crate::points::note;
use crate::setting::Setting;
use crate::tallies::Tallies;
use crate::writing::{To, met_index};
use abs_state::State;
use c_ir::{AlarmKind, Expr, IntType, Node};
use eva_expr::{Branches, branched, value};
use eva_values::{SiteMark, shape_of};
use fc_base::{FnId, SiteId};
use int_value::Value;
use prop_set::PropSet;
use sqlite_items::Items;
use std::alloc::{AllocError, Global};

/// The value of an expression, and the state after its evaluation.
#[derive(Drop)]
pub(crate) struct Evaluated {
    pub(crate) value: Value,
    pub(crate) state: State,
}

/// The values of arguments, and the state after their evaluation.
#[derive(Drop)]
pub(crate) struct Given {
    pub(crate) values: Items<Value>,
    pub(crate) state: State,
}

/// Where a value goes to, and the state after the place was found.
#[derive(Drop)]
pub(crate) struct Aimed {
    pub(crate) to: To,
    pub(crate) state: State,
}

/// The states of the two ways of a branch.
#[derive(Drop)]
pub(crate) struct Ways {
    pub(crate) taken: State,
    pub(crate) skipped: State,
}

/// A call: the function and the arguments.
#[derive(Clone, Copy)]
pub(crate) struct Call<'a> {
    pub(crate) function: FnId,
    pub(crate) args: &'a [Expr],
}

/// Adds the records of an expression's checks.
pub(crate) fn note_marks(
    alloc: Global,
    setting: Setting<'_>,
    noting: bool,
    marks: &[SiteMark],
    used: &PropSet,
    table: &mut Tallies,
) -> Result<(), AllocError>
    ensures { OnOk result (table.new
        ≡ tallied (ground_by setting.entry).number noting table.old (mark_records used.now marks.now)) }
{
    for mark in marks {
        let number = setting.numbers.check(mark.site, mark.kind);
        note(alloc, noting, table, number, mark.said, used)?;
    }
    Ok(())
}

/// The state, or where an evaluation gave no number an unreached one.
fn reached_when(reached: bool, state: State) -> State
    ensures { result ≡ rules.reached_if reached state }
{
    if reached {
        state
    } else {
        State::unreached(state.used)
    }
}

/// An expression is evaluated, and what is said of its checks is noted.
pub(crate) fn evaluate(
    alloc: Global,
    setting: Setting<'_>,
    noting: bool,
    expr: &Expr,
    state: State,
    table: &mut Tallies,
) -> Result<Evaluated, AllocError>
    ensures { IsEvaluated (ground_by setting.entry).number result noting table.old table.new
        (abstracted (checks_overflow setting.entry.params.now.values) expr.now) state }
{
    let seen = value(alloc, &state, expr, setting.params)?;
    note_marks(
        alloc,
        setting,
        noting,
        seen.marks.as_slice(),
        &state.used,
        table,
    )?;
    Ok(Evaluated {
        value: seen.value,
        state: reached_when(!seen.value.is_empty(), state),
    })
}

/// Arguments are evaluated from left to right.
pub(crate) fn arguments(
    alloc: Global,
    setting: Setting<'_>,
    noting: bool,
    args: &[Expr],
    state: State,
    table: &mut Tallies,
) -> Result<Given, AllocError>
    ensures { IsGiven (ground_by setting.entry).number result noting table.old table.new
        (code.arguments (map (abstracted (checks_overflow setting.entry.params.now.values)) args.now) state) }
{
    let mut values = Items::new(alloc);
    let mut now = state;
    for arg in args {
        let one = evaluate(alloc, setting, noting, arg, now, table)?;
        values.push(one.value)?;
        now = one.state;
    }
    Ok(Given { values, state: now })
}

/// A condition is evaluated: the states of both ways on from it.
pub(crate) fn conditioned(
    alloc: Global,
    setting: Setting<'_>,
    noting: bool,
    cond: &Expr,
    state: &State,
    table: &mut Tallies,
) -> Result<Ways, AllocError>
    ensures taken { IfOk result (λ w. w.taken
        ≡ rules.env_by ((abstracted (checks_overflow setting.entry.params.now.values) cond.now).narrowed true) state.now) }
    ensures skipped { IfOk result (λ w. w.skipped
        ≡ rules.env_by ((abstracted (checks_overflow setting.entry.params.now.values) cond.now).narrowed false) state.now) }
    ensures table { OnOk result (table.new ≡ tallied (ground_by setting.entry).number noting table.old
        (mark_records state.now.used ((abstracted (checks_overflow setting.entry.params.now.values) cond.now).marks state.now.env))) }
{
    let Branches {
        marks,
        taken,
        skipped,
        value: _value,
    } = branched(alloc, state, cond, setting.params)?;
    note_marks(alloc, setting, noting, marks.as_slice(), &state.used, table)?;
    Ok(Ways { taken, skipped })
}

/// The call that an expression is, perhaps under conversions.
pub(crate) fn call_in(expr: &Expr) -> Option<Call<'_>>
    ensures { (overflow : Bool) → IsCall overflow expr.now result (meant overflow expr.now).call }
{
    match &expr.node {
        Node::Call { function, args } => Some(Call {
            function: *function,
            args: args.as_slice(),
        }),
        Node::Cast { of } => call_in(of.get()),
        Node::Literal { .. }
        | Node::Cell { .. }
        | Node::Element { .. }
        | Node::Unary { .. }
        | Node::Binary { .. }
        | Node::Assign { .. }
        | Node::Cond { .. } => None,
    }
}

/// A conversion to the type.
fn converted(ty: IntType, value: &Value) -> Value
    ensures { result ≡ converted_row ty value.now }
{
    if ty.is(IntType::Bool) {
        value.to_bool()
    } else {
        value.convert(&shape_of(ty))
    }
}

/// The result of a call under conversions.
pub(crate) fn converted_by(expr: &Expr, value: Value) -> Value
    ensures { result ≡ code.converted_by expr.now value }
{
    let Node::Cast { of } = &expr.node else {
        return value;
    };
    converted(expr.ty, &converted_by(of.get(), value))
}

/// Notes what is said of an index, if the operator has a number.
fn note_index(
    alloc: Global,
    setting: Setting<'_>,
    noting: bool,
    site: Option<SiteId>,
    length: u32,
    index: &Value,
    used: &PropSet,
    table: &mut Tallies,
) -> Result<(), AllocError>
    ensures { OnOk result (table.new ≡ tallied (ground_by setting.entry).number noting table.old
        (mark_records used.now (mark_at site A.IndexBound (within_said (pos 0) (pos length -ℤ pos 1) index.now.range)))) }
{
    match site {
        None => Ok(()),
        Some(site) => {
            let number = setting.numbers.check(site, AlarmKind::IndexBound);
            let said = index.within(0, i128::from(length) - 1);
            note(alloc, noting, table, number, said, used)
        }
    }
}

/// An element of an array is aimed at.
fn aim_element(
    alloc: Global,
    setting: Setting<'_>,
    noting: bool,
    site: Option<SiteId>,
    first: u32,
    length: u32,
    index: &Expr,
    state: State,
    table: &mut Tallies,
) -> Result<Aimed, AllocError>
    ensures { IsAimed (ground_by setting.entry).number result noting table.old table.new
        (element_target site first length
        (abstracted (checks_overflow setting.entry.params.now.values) index.now)) state }
{
    let seen = value(alloc, &state, index, setting.params)?;
    note_marks(
        alloc,
        setting,
        noting,
        seen.marks.as_slice(),
        &state.used,
        table,
    )?;
    note_index(
        alloc,
        setting,
        noting,
        site,
        length,
        &seen.value,
        &state.used,
        table,
    )?;
    let is_there = !met_index(length, &seen.value).is_empty();
    Ok(Aimed {
        state: reached_when(is_there, state),
        to: To::Element {
            first,
            length,
            index: seen.value,
        },
    })
}

/// Where an assignment writes to; what names no object is aimed at by no run.
pub(crate) fn aim(
    alloc: Global,
    setting: Setting<'_>,
    noting: bool,
    target: &Expr,
    state: State,
    table: &mut Tallies,
) -> Result<Aimed, AllocError>
    ensures { IsAimed (ground_by setting.entry).number result noting table.old table.new
        (meant (checks_overflow setting.entry.params.now.values) target.now).target state }
{
    match &target.node {
        Node::Cell { cell, .. } => Ok(Aimed {
            to: To::Cell {
                cell: *cell as usize,
            },
            state,
        }),
        Node::Element {
            first,
            length,
            index,
            ..
        } => {
            let (first, length, index) = (*first, *length, index.get());
            aim_element(
                alloc,
                setting,
                noting,
                target.site,
                first,
                length,
                index,
                state,
                table,
            )
        }
        Node::Literal { .. }
        | Node::Call { .. }
        | Node::Unary { .. }
        | Node::Binary { .. }
        | Node::Assign { .. }
        | Node::Cond { .. }
        | Node::Cast { .. } => Ok(Aimed {
            to: To::Nowhere,
            state: State::unreached(state.used),
        }),
    }
}
