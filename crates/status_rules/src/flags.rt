//! A flag for each property of a table.

ghost use Rattle.std.specs.Prelude.{◌≡◌, ◌<◌, List, [], ◌∷◌, IfOk, map, length};
ghost use Rattle.std.specs.List.{list_any, list_all};
ghost use Rattle.status_rules.specs.inner.ByProp.{entries_in, placed};
ghost use Rattle.status_rules.specs.inner.Flags.{flag};
ghost use Rattle.status_rules.specs.Holds.{supports, same_status, dead_passes, extends, some_prop, at_each};
ghost use Rattle.c_ir.specs.Table.{dead_of, row_admitted};
ghost use Rattle.param_book.specs.Table.{entry_function, run_values};

use crate::by_prop::EntriesByProp;
use crate::counting::CountedEntry;
use c_ir::PropTable;
use fc_base::{LocalStatus, ParamValues, PropId};
use param_book::ENTRY_FUNCTION;
use std::alloc::{AllocError, Global};

/// The flag of a property; false, where there is none.
pub(crate) fn flag(flags: &[bool], prop: PropId) -> bool
    ensures { result ≡ flag flags.now prop.0 }
{
    match flags.get(prop.0 as usize) {
        Some(set) => *set,
        None => false,
    }
}

/// Which properties are admitted, for these values of the parameters.
pub(crate) fn admitted(
    alloc: Global,
    props: &PropTable,
    values: &ParamValues,
) -> Result<Vec<bool>, AllocError>
    ensures { IfOk result (λ flags. flags.items ≡ map (row_admitted props.now (entry_function (run_values values.now))) props.now.rows) }
{
    let mut flags = Vec::new(alloc);
    for row in props.rows() {
        flags.push(props.admits(row, values.get(ENTRY_FUNCTION)))?;
    }
    Ok(flags)
}

/// Which properties have an entry with this status, all of whose hypotheses are known.
pub(crate) fn claimed(
    alloc: Global,
    lists: &EntriesByProp,
    status: LocalStatus,
    known: &[bool],
) -> Result<Vec<bool>, AllocError>
    ensures { IfOk result (λ flags. flags.items ≡ map (list_any (supports status (flag known.now))) (entries_in lists.now)) }
{
    let mut flags = Vec::new(alloc);
    for list in lists {
        flags.push(has_support(list, status, known))?;
    }
    Ok(flags)
}

/// Whether one of these entries has this status, and all its hypotheses are known.
fn has_support(entries: &[CountedEntry], status: LocalStatus, known: &[bool]) -> bool
    ensures { result ≡ list_any (supports status (flag known.now)) (map placed entries.now) }
{
    for found in entries {
        if supports(*found, status, known) {
            return true;
        }
    }
    false
}

/// Whether an entry has this status, and all its hypotheses are known.
fn supports(found: CountedEntry, status: LocalStatus, known: &[bool]) -> bool
    ensures { result ≡ supports status (flag known.now) (placed found.entry) }
{
    found.entry.status == status && all_known(found.entry.hyps.as_slice(), known)
}

/// Whether all these properties are known.
fn all_known(hyps: &[PropId], known: &[bool]) -> bool
    ensures { result ≡ list_all (λ q. flag known.now q.0) hyps.now }
{
    for hyp in hyps {
        if !flag(known, *hyp) {
            return false;
        }
    }
    true
}

/// Which properties are known or claimed, or have a point whose property of kind Dead is claimed.
#[tactic(auto, using(crate::proofs::Each::at_each_more))]
pub(crate) fn extended(
    alloc: Global,
    props: &PropTable,
    known: &[bool],
    claimed: &[bool],
) -> Result<Vec<bool>, AllocError>
    ensures { IfOk result (λ flags. flags.items ≡ at_each (extends props.now (flag known.now) (flag claimed.now)) 0 props.now.rows) }
{
    let mut flags = Vec::new(alloc);
    for place in 0..props.len() {
        let prop = PropId(place);
        flags.push(extends(props, known, claimed, prop))?;
    }
    Ok(flags)
}

/// Whether a property is known or claimed, or has a point whose property of kind Dead is claimed.
fn extends(props: &PropTable, known: &[bool], claimed: &[bool], prop: PropId) -> bool
    requires { prop.0 < length props.now.rows }
    ensures { result ≡ extends props.now (flag known.now) (flag claimed.now) prop.0 }
{
    flag(known, prop) || flag(claimed, prop) || dead_passes(props, claimed, prop)
}

/// Whether a property isn't of kind Dead, and the one of kind Dead at its point has its flag set.
fn dead_passes(props: &PropTable, flags: &[bool], prop: PropId) -> bool
    requires { prop.0 < length props.now.rows }
    ensures { result ≡ dead_passes props.now (flag flags.now) prop.0 }
{
    props.is_live(prop) && has_dead_flag(props, flags, prop)
}

/// Whether the property of kind Dead at the point of another has its flag set.
pub(crate) fn has_dead_flag(props: &PropTable, flags: &[bool], prop: PropId) -> bool
    requires { prop.0 < length props.now.rows }
    ensures { result ≡ some_prop (flag flags.now) (dead_of props.now.rows prop.0) }
{
    match props.dead_of(prop) {
        Some(dead) => flag(flags, dead),
        None => false,
    }
}
