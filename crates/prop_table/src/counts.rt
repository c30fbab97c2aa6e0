//! How many properties a program has. Counts stop at 2^64 - 1.

ghost use Rattle.std.specs.Prelude.{◌≡◌, ◌+◌, ◌<◌, ◌≤◌, length, slice_get};
ghost use Rattle.prop_table.specs.inner.Counts.{capped, check_count, site_count, alarms_count, calls_count, info_count, point_count, fn_count, fns_count};
ghost use Rattle.prop_table.specs.inner.Index.{IsIndex};

use crate::index::Index;
use c_ir::{AlarmKind, Fun, PointInfo, Program};
use fc_base::PointId;

/// 1 for a check.
fn count_check(check: Option<AlarmKind>) -> u64
    ensures value { result ≡ check_count check }
    ensures bound { result ≤ 1 }
{
    match check {
        None => 0,
        Some(_) => 1,
    }
}

/// How many checks an operator has.
fn count_site(program: &Program, site: u32) -> u64
    ensures { result ≡ site_count (slice_get program.now.sites site) }
{
    match program.sites.get(site as usize) {
        None => 0,
        Some(info) => count_check(info.checks.first) + count_check(info.checks.second),
    }
}

/// With the checks of these operators.
fn add_alarms(program: &Program, mut total: u64, sites: &[u32]) -> u64
    ensures { result ≡ capped (total + alarms_count program.now sites.now) }
{
    for site in sites {
        total = total.saturating_add(count_site(program, *site));
    }
    total
}

/// With the preconditions of these callees.
fn add_calls(program: &Program, index: &Index, mut total: u64, callees: &[u32]) -> u64
    requires { IsIndex program.now index.now }
    ensures { result ≡ capped (total + calls_count program.now callees.now) }
{
    for callee in callees {
        total = total.saturating_add(index.requires_of(program, *callee) as u64);
    }
    total
}

/// With the properties of a point.
#[tactic(auto, unfolding(crate::specs::inner::Counts::info_count))]
fn add_info(program: &Program, index: &Index, total: u64, point: PointId, info: &PointInfo) -> u64
    requires index { IsIndex program.now index.now }
    requires point { point.0 < length program.now.points }
    ensures { result ≡ capped (total + info_count program.now point.0 info.now) }
{
    let total = total.saturating_add(1);
    let total = total.saturating_add(info.clauses.len() as u64);
    let total = add_alarms(program, total, index.sites.at(point.0));
    add_calls(program, index, total, index.calls.at(point.0))
}

#[tactic(auto, unfolding(crate::specs::inner::Counts::point_count))]
fn add_point(program: &Program, index: &Index, total: u64, point: PointId) -> u64
    requires { IsIndex program.now index.now }
    ensures { result ≡ capped (total + point_count program.now point.0) }
{
    match program.points.get(point.0 as usize) {
        None => total,
        Some(info) => add_info(program, index, total, point, info),
    }
}

/// With the properties of a function.
#[tactic(auto, unfolding(crate::specs::inner::Counts::fn_count))]
fn add_fn(program: &Program, index: &Index, mut total: u64, f: &Fun) -> u64
    requires { IsIndex program.now index.now }
    ensures { result ≡ capped (total + fn_count program.now f.now) }
{
    let end = u64::from(f.exit.0) + 1;
    for point in u64::from(f.entry.0)..end {
        total = add_point(program, index, total, PointId(point as u32));
    }
    total
}

/// How many properties a program has.
pub(crate) fn count(program: &Program, index: &Index) -> u64
    requires { IsIndex program.now index.now }
    ensures { result ≡ capped (fns_count program.now program.now.fns) }
{
    let mut total = 0;
    for f in program.fns.as_slice() {
        total = add_fn(program, index, total, f);
    }
    total
}
