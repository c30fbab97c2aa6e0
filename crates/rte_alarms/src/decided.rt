//! Alarms that operand types decide.

ghost use Rattle.std.specs.Prelude.{◌≡◌, ◌++◌, IfOk};
ghost use Rattle.prop_table.specs.Rows.{rows_of, defined_of};
ghost use Rattle.c_ir.specs.Sited.{alarm_number};
ghost use Rattle.rte_alarms.specs.Entries.{decided_said};
ghost use Rattle.rte_alarms.specs.inner.Decided as spec;

use crate::ranges::{number_of, open_checks};
use by_key::ByKey;
use c_ir::{AlarmKind, Kind, Program, Prop, PropTable};
use fc_base::{EmitterId, LocalStatus, ParamValues, SiteId};
use sqlite_items::Items;
use status_history::{Entries, Entry};
use std::alloc::{AllocError, Global};

/// The emitter `rte`.
const RTE: EmitterId = EmitterId(1);

/// In the order of the table an entry of `rte` with status True and without hypotheses for each alarm whose check
/// is true of every choice of operand values from the operands' type ranges (C11 6.5.5 to 6.5.7, 6.5.2.1 have the
/// checks). The range of a constant is its value, that of a conversion its operand's where that lies in the target
/// type, and all others have the range of their type. Whether a cell has a number is never decided. The values of
/// the parameters don't matter. Fails only for want of memory.
pub fn type_decided(
    alloc: Global,
    program: &Program,
    props: &PropTable,
    _params: &ParamValues,
    version: u32,
) -> Result<Entries, AllocError>
    requires { props.now ≡ record { rows = rows_of program.now; defined = defined_of program.now } }
    ensures { IfOk result (λ es. es ≡ decided_said program.now (rows_of program.now) version) }
{
    program.keeps();
    let checks = open_checks(alloc, program)?;
    let by_site = ByKey::new(alloc, program.sites.len(), checks.as_slice())?;
    entries_of(alloc, &by_site, props.rows(), version)
}

/// An entry for each of these properties that is an alarm whose check isn't open.
fn entries_of(
    alloc: Global,
    by_site: &ByKey,
    rows: &[Prop],
    version: u32,
) -> Result<Entries, AllocError>
    ensures { IfOk result (λ es. es ≡ spec.decided_by version by_site.now rows.now) }
{
    let mut entries = Items::new(alloc);
    for prop in rows {
        add_if_decided(alloc, &mut entries, by_site, prop, version)?;
    }
    Ok(entries)
}

fn add_if_decided(
    alloc: Global,
    entries: &mut Entries,
    by_site: &ByKey,
    prop: &Prop,
    version: u32,
) -> Result<(), AllocError>
    ensures { IfOk result (λ _. entries.new ≡ entries.old ++ spec.row_entry version by_site.now prop.now) }
{
    if is_decided(by_site, prop) {
        entries.push(Entry {
            emitter: RTE,
            prop: prop.id,
            status: LocalStatus::True,
            hyps: Items::new(alloc),
            version,
        })?;
    }
    Ok(())
}

/// Whether the property is an alarm whose check isn't open.
fn is_decided(by_site: &ByKey, prop: &Prop) -> bool
    ensures { result ≡ spec.row_decided by_site.now prop.now }
{
    match prop.kind {
        Kind::Alarm(alarm) => is_closed(by_site, prop.site, alarm),
        Kind::Requires
        | Kind::CallRequires
        | Kind::Ensures
        | Kind::Assert
        | Kind::Check
        | Kind::Admit
        | Kind::LoopInvariant
        | Kind::Dead => false,
    }
}

/// Whether the check of this kind of an operator isn't open.
fn is_closed(by_site: &ByKey, site: Option<SiteId>, alarm: AlarmKind) -> bool
    ensures { result ≡ spec.decided_at by_site.now (alarm_number alarm) site }
{
    match site {
        None => false,
        Some(SiteId(site)) => !by_site.at(site).contains(&number_of(alarm)),
    }
}
