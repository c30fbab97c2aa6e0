//! Indexes of a table's rows.

ghost use Rattle.std.specs.Prelude.{◌≡◌, ◌≤◌, ℕ, List, Some, IfOk, bytes_eq, length, position, if◌then◌else◌};
ghost use Rattle.std.specs.BTreeMap.{get, get_by_text};
ghost use Rattle.std.specs.Ordering.{nat_cmp};
ghost use Rattle.c_ir.specs.Table.{has_name, claims_dead};

use crate::kind::Kind;
use crate::prop::Prop;
use std::alloc::{AllocError, Global};
use std::collections::BTreeMap;

/// For each name the number of the first row that has it.
#[tactic(auto, using(crate::proofs::Positions::first_from_start))]
pub(crate) fn index_names(alloc: Global, rows: &[Prop]) -> Result<BTreeMap<String, u32>, AllocError>
    requires { length rows.now ≤ 65536 }
    ensures { IfOk result (λ m. (name : List ℕ) → get_by_text m name ≡ position (has_name name) rows.now) }
{
    let mut names = BTreeMap::new(alloc);
    let mut left = rows.len();
    while 0 < left {
        left -= 1;
        note_name(alloc, &mut names, rows[left].name.as_str(), left as u32)?;
    }
    Ok(names)
}

/// Notes the number of a row at its name.
fn note_name(
    alloc: Global,
    names: &mut BTreeMap<String, u32>,
    name: &str,
    number: u32,
) -> Result<(), AllocError>
    ensures { IfOk result (λ _. (asked : List ℕ) → get_by_text names.new asked ≡ (if bytes_eq name.now asked then Some number else get_by_text names.old asked)) }
{
    names.insert(String::from_str(alloc, name)?, number)?;
    Ok(())
}

/// For each point the number of the first row that claims that no run arrives there.
#[tactic(auto, using(crate::proofs::Positions::first_from_start))]
pub(crate) fn index_deads(alloc: Global, rows: &[Prop]) -> Result<BTreeMap<u32, u32>, AllocError>
    requires { length rows.now ≤ 65536 }
    ensures { IfOk result (λ m. (point : ℕ) → get nat_cmp m point ≡ position (claims_dead point) rows.now) }
{
    let mut deads = BTreeMap::new(alloc);
    let mut left = rows.len();
    while 0 < left {
        left -= 1;
        note_if_dead(&mut deads, &rows[left], left as u32)?;
    }
    Ok(deads)
}

/// Notes the number of a row of kind Dead at its point.
fn note_if_dead(deads: &mut BTreeMap<u32, u32>, row: &Prop, number: u32) -> Result<(), AllocError>
    ensures { IfOk result (λ _. (point : ℕ) → get nat_cmp deads.new point ≡ (if claims_dead point row.now then Some number else get nat_cmp deads.old point)) }
{
    if let Kind::Dead = row.kind {
        deads.insert(row.point.0, number)?;
    }
    Ok(())
}
