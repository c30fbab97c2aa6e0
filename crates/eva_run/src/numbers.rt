//! The numbers of properties, by where they are.

ghost use Rattle.std.specs.Prelude.{◌≡◌, ◌≤◌, ◌+◌, ◌++◌, ℕ, List, IfOk, OnOk, get_or, length};
ghost use Rattle.by_key.specs.declared.lists.Keyed.{Keyed};
ghost use Rattle.c_runs.specs.Visits as visits;
ghost use Rattle.eva_run.specs.Code.{found_at, number_by};
ghost use Rattle.eva_run.specs.Numbered as numbered;
ghost use Rattle.eva_run.specs.Numbered.{IsNumbering};

use by_key::{ByKey, Keyed};
use c_ir::{AlarmKind, Kind, Prop};
use fc_base::SiteId;
use sqlite_items::Items;
use std::alloc::{AllocError, Global};

/// For each point the numbers of its property of kind Dead, of its clauses, and of the preconditions of what is called
/// there; for each operator those of its checks, by their kinds.
#[derive(Debug, Drop)]
pub(crate) struct Numbers {
    /// How many properties there are.
    total: u32,
    deads: Listed,
    clauses: Listed,
    instances: Listed,
    division: Listed,
    overflow: Listed,
    shift: Listed,
    index: Listed,
    initialization: Listed,
}

/// The numbers of the properties that were looked for, by their keys, which are all below `past`.
#[derive(Debug, Drop)]
pub(crate) struct Listed {
    past: usize,
    lists: ByKey,
}

impl Listed {
    /// The numbers with a key.
    fn at(&self, key: u32) -> &[u32]
        ensures { result.now ≡ found_at self.now key }
    {
        if (key as usize) < self.past {
            self.lists.at(key)
        } else {
            &[]
        }
    }
}

/// Which properties are looked for.
#[derive(Clone, Copy)]
pub(crate) enum Sought {
    Dead,
    Clause,
    Instance,
    Alarm(AlarmKind),
}

impl Numbers {
    /// The numbers of these properties.
    pub(crate) fn new(alloc: Global, rows: &[Prop]) -> Result<Numbers, AllocError>
        requires { length rows.now ≤ 65536 }
        ensures { IfOk result (λ n. IsNumbering n rows.now) }
    {
        Ok(Numbers {
            total: rows.len() as u32,
            deads: found(alloc, rows, Sought::Dead)?,
            clauses: found(alloc, rows, Sought::Clause)?,
            instances: found(alloc, rows, Sought::Instance)?,
            division: found(alloc, rows, Sought::Alarm(AlarmKind::DivisionByZero))?,
            overflow: found(alloc, rows, Sought::Alarm(AlarmKind::SignedOverflow))?,
            shift: found(alloc, rows, Sought::Alarm(AlarmKind::Shift))?,
            index: found(alloc, rows, Sought::Alarm(AlarmKind::IndexBound))?,
            initialization: found(alloc, rows, Sought::Alarm(AlarmKind::Initialization))?,
        })
    }

    /// The number of the property of kind Dead at a point.
    pub(crate) fn dead(&self, point: u32) -> u32
        ensures { result ≡ number_by self.now (visits.Dead point) }
    {
        nth(self.deads.at(point), 0, self.total)
    }

    /// The number of the clause at this place of a point.
    pub(crate) fn clause(&self, point: u32, place: usize) -> u32
        ensures { result ≡ number_by self.now (visits.Clause point place) }
    {
        nth(self.clauses.at(point), place, self.total)
    }

    /// The number of the precondition at this place of what is called at a point.
    pub(crate) fn instance(&self, point: u32, place: usize) -> u32
        ensures { result ≡ number_by self.now (visits.Precondition point place) }
    {
        nth(self.instances.at(point), place, self.total)
    }

    /// The number of an operator's check.
    pub(crate) fn check(&self, site: SiteId, kind: AlarmKind) -> u32
        ensures { result ≡ number_by self.now (visits.Check site.0 kind) }
    {
        let lists = match kind {
            AlarmKind::DivisionByZero => &self.division,
            AlarmKind::SignedOverflow => &self.overflow,
            AlarmKind::Shift => &self.shift,
            AlarmKind::IndexBound => &self.index,
            AlarmKind::Initialization => &self.initialization,
        };
        nth(lists.at(site.0), 0, self.total)
    }
}

/// The number at a place, or this one where there is none.
fn nth(numbers: &[u32], place: usize, none: u32) -> u32
    ensures { result ≡ get_or numbers.now place none }
{
    match numbers.get(place) {
        Some(number) => *number,
        None => none,
    }
}

/// The point or the operator by which a property that is looked for is found; None of another property.
fn key_of(sought: Sought, prop: &Prop) -> Option<u32>
    ensures { result ≡ numbered.key_of sought prop.now }
{
    match (sought, prop.kind) {
        (Sought::Dead, Kind::Dead) => Some(prop.point.0),
        (Sought::Instance, Kind::CallRequires) => Some(prop.point.0),
        (Sought::Clause, Kind::Requires | Kind::Ensures | Kind::Assert) => Some(prop.point.0),
        (Sought::Clause, Kind::Check | Kind::Admit | Kind::LoopInvariant) => Some(prop.point.0),
        (Sought::Alarm(sought), Kind::Alarm(kind)) => site_of(sought, kind, prop.site),
        _ => None,
    }
}

/// The operator of an alarm of the kind that is looked for.
fn site_of(sought: AlarmKind, kind: AlarmKind, site: Option<SiteId>) -> Option<u32>
    ensures { result ≡ numbered.site_of sought kind site }
{
    match site {
        Some(site) if sought == kind => Some(site.0),
        _ => None,
    }
}

/// Adds a number with its key, if it has one.
fn add_keyed(all: &mut Items<Keyed>, key: Option<u32>, number: u32) -> Result<(), AllocError>
    ensures { OnOk result ((rest : List Keyed) → all.new ++ rest ≡ all.old ++ numbered.with_key number key rest) }
{
    match key {
        None => Ok(()),
        Some(key) => {
            all.push(Keyed { key, number })?;
            Ok(())
        }
    }
}

/// The numbers of the properties that are looked for, each with its key.
fn keyed(alloc: Global, rows: &[Prop], sought: Sought) -> Result<Items<Keyed>, AllocError>
    requires { length rows.now ≤ 65536 }
    ensures { IfOk result (λ ks. ks ≡ numbered.keyed_from sought 0 rows.now) }
{
    let mut all = Items::new(alloc);
    for number in 0..rows.len() {
        let key = key_of(sought, &rows[number]);
        add_keyed(&mut all, key, number as u32)?;
    }
    Ok(all)
}

/// One more than the greatest key.
fn past_keys(all: &[Keyed]) -> usize
    ensures { result ≡ numbered.past_keys all.now }
{
    let mut past = 0;
    for keyed in all {
        past = past.max(keyed.key as usize + 1);
    }
    past
}

/// The numbers of the properties that are looked for, by their keys.
fn found(alloc: Global, rows: &[Prop], sought: Sought) -> Result<Listed, AllocError>
    requires { length rows.now ≤ 65536 }
    ensures { IfOk result (λ f. numbered.Finds f sought rows.now) }
{
    let all = keyed(alloc, rows, sought)?;
    let past = past_keys(all.as_slice());
    let lists = ByKey::new(alloc, past, all.as_slice())?;
    Ok(Listed { past, lists })
}
