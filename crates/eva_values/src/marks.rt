//! Marks of checks.

ghost use Rattle.std.specs.Prelude.{◌≡◌, ◌++◌, pos, ◌-ℤ◌, IfOk};
ghost use Rattle.c_ir.specs.declared.kind.AlarmKind.TheVariants as kinds;
ghost use Rattle.int_value.specs.Checks.{within_said};
ghost use Rattle.eva_values.specs.Marks as spec;
ghost use Rattle.c_runs.specs.Evaluation as evaluation;
ghost use Rattle.eva_values.specs.Marks.{mark_at, mark_check, mark_read};

use crate::seen::{SiteMark, SiteMarks};
use c_ir::AlarmKind;
use fc_base::SiteId;
use int_interval::Said;
use int_value::Value;
use machine_ints::Check;
use std::alloc::AllocError;

/// Adds a mark, if the operator has a number.
pub(crate) fn add(
    marks: &mut SiteMarks,
    site: Option<SiteId>,
    kind: AlarmKind,
    said: Said,
) -> Result<(), AllocError>
    ensures { IfOk result (λ _. marks.new ≡ marks.old ++ mark_at site kind said) }
{
    match site {
        None => Ok(()),
        Some(site) => marks.push(SiteMark { site, kind, said }),
    }
}

/// Adds the mark of an operator's check, where it has it and visits it.
pub(crate) fn add_check(
    marks: &mut SiteMarks,
    site: Option<SiteId>,
    check: Option<Check>,
    said: Option<Said>,
) -> Result<(), AllocError>
    ensures { IfOk result (λ _. marks.new ≡ marks.old ++ mark_check site check said) }
{
    match (check, said) {
        (Some(check), Some(said)) => add(marks, site, alarm_of(check), said),
        (None, _) | (_, None) => Ok(()),
    }
}

fn alarm_of(check: Check) -> AlarmKind
    ensures { result ≡ evaluation.alarm_of check }
{
    match check {
        Check::Division => AlarmKind::DivisionByZero,
        Check::Overflow => AlarmKind::SignedOverflow,
        Check::Shift => AlarmKind::Shift,
    }
}

/// Adds the mark of an index into an array of this length (C11 6.5.6, paragraph 8).
pub(crate) fn add_index(
    marks: &mut SiteMarks,
    site: Option<SiteId>,
    length: u32,
    index: &Value,
) -> Result<(), AllocError>
    ensures { IfOk result (λ _. marks.new ≡ marks.old
        ++ mark_at site kinds.IndexBound (within_said (pos 0) (pos length -ℤ pos 1) index.now.range)) }
{
    add(
        marks,
        site,
        AlarmKind::IndexBound,
        index.within(0, length as i128 - 1),
    )
}

/// Adds the mark of reading a cell with this value, where the read is checked (C11 6.3.2.1).
pub(crate) fn add_read(
    marks: &mut SiteMarks,
    site: Option<SiteId>,
    checked: bool,
    value: &Value,
) -> Result<(), AllocError>
    ensures { IfOk result (λ _. marks.new ≡ marks.old ++ mark_read site checked value.now) }
{
    if checked {
        add(
            marks,
            site,
            AlarmKind::Initialization,
            said_of_number(value),
        )
    } else {
        Ok(())
    }
}

/// What is said of the check that a cell has a number.
fn said_of_number(value: &Value) -> Said
    ensures { result ≡ spec.said_of_number value.now }
{
    match (value.unset, value.is_empty()) {
        (true, true) => Said::No,
        (true, false) => Said::Maybe,
        (false, true) => Said::Unreached,
        (false, false) => Said::Yes,
    }
}
