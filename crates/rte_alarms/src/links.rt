//! Links of calls: a precondition holds where all its instances do.

ghost use Rattle.std.specs.Prelude.{◌≡◌, ◌<◌, ◌≤◌, ◌+◌, ◌++◌, get_or, set, map, length, replicate, IfOk};
ghost use Rattle.prop_table.specs.Points as points;
ghost use Rattle.prop_table.specs.Rows.{rows_of, defined_of};
ghost use Rattle.prop_runs.specs.Numbers as numbers;
ghost use Rattle.rte_alarms.specs.Entries.{prop_id, link_entry, links_said};
ghost use Rattle.rte_alarms.specs.inner.Links as spec;

use by_key::{ByKey, Keyed};
use c_ir::{Kind, Program, Prop, PropTable};
use fc_base::{EmitterId, LocalStatus, PointId, PropId};
use prop_table::calls_in;
use sqlite_items::Items;
use status_history::{Entries, Entry, Hyps};
use std::alloc::{AllocError, Global};

/// The emitter `kernel`.
const KERNEL: EmitterId = EmitterId(0);

/// How many hypotheses an entry may have (this project's own).
const MOST: usize = 256;

/// For each precondition of a function, in the order of the table, an entry of `kernel` with status True whose
/// hypotheses are its instances at all calls of the function (ACSL manual, function contracts). A precondition
/// with more than 256 instances gets Dont_know without hypotheses. Fails only for want of memory.
pub fn call_links(
    alloc: Global,
    program: &Program,
    props: &PropTable,
    version: u32,
) -> Result<Entries, AllocError>
    requires { props.now ≡ record { rows = rows_of program.now; defined = defined_of program.now } }
    ensures { IfOk result (λ es. es ≡ links_said program.now (rows_of program.now) version) }
{
    program.keeps();
    let rows = props.rows();
    let lists = Lists::new(alloc, program, rows)?;
    let links = links_of(alloc, program, &lists, rows)?;
    let instances = ByKey::new(alloc, rows.len(), links.as_slice())?;
    entries_of(alloc, &instances, rows, version)
}

// ---- kinds

fn is_requires(kind: Kind) -> bool
    ensures { result ≡ points.is_requires kind }
{
    matches!(kind, Kind::Requires)
}

fn is_call_requires(kind: Kind) -> bool
    ensures { result ≡ numbers.is_call_requires kind }
{
    matches!(kind, Kind::CallRequires)
}

/// Whether a property of the kind is a clause's.
fn is_clause(kind: Kind) -> bool
    ensures { result ≡ numbers.is_clause kind }
{
    match kind {
        Kind::Requires
        | Kind::Ensures
        | Kind::Assert
        | Kind::Check
        | Kind::Admit
        | Kind::LoopInvariant => true,
        Kind::CallRequires | Kind::Alarm(_) | Kind::Dead => false,
    }
}

// ---- what stands at each point

/// For each point the functions that its statement calls and the properties of its clauses, by their numbers.
#[derive(Drop)]
struct Lists {
    callees: ByKey,
    clauses: ByKey,
}

impl Lists {
    ghost use Rattle.rte_alarms.specs.inner.Links.{IsLists};

    fn new(alloc: Global, program: &Program, rows: &[Prop]) -> Result<Lists, AllocError>
        ensures { IfOk result (λ l. IsLists program.now rows.now l) }
    {
        let points = program.points.len();
        let calls = calls_in(alloc, program.fns.as_slice())?;
        let clauses = clause_rows(alloc, rows)?;
        let callees = ByKey::new(alloc, points, calls.as_slice())?;
        let clauses = ByKey::new(alloc, points, clauses.as_slice())?;
        Ok(Lists { callees, clauses })
    }

    /// The number of clause `count` at a point; `total` if there are fewer.
    fn clause(&self, total: u32, point: PointId, count: u32) -> u32
        ensures { result ≡ spec.clause_by self.now total point.0 count }
    {
        match self.clauses.at(point.0).get(count as usize) {
            Some(number) => *number,
            None => total,
        }
    }
}

/// The properties of clauses, each with its point.
fn clause_rows(alloc: Global, rows: &[Prop]) -> Result<Items<Keyed>, AllocError>
    ensures { IfOk result (λ ms. ms ≡ spec.clause_rows rows.now) }
{
    let mut found = Items::new(alloc);
    for prop in rows {
        add_clause(&mut found, prop)?;
    }
    Ok(found)
}

fn add_clause(found: &mut Items<Keyed>, prop: &Prop) -> Result<(), AllocError>
    ensures { IfOk result (λ _. found.new ≡ found.old ++ spec.clause_row prop.now) }
{
    if is_clause(prop.kind) {
        found.push(Keyed {
            key: prop.point.0,
            number: prop.id.0,
        })?;
    }
    Ok(())
}

// ---- links

/// For each property of a call the precondition that it is an instance of, as its key.
#[tactic(auto, using(crate::proofs::Instances::counts_grow, crate::proofs::Instances::zeros_low))]
fn links_of(
    alloc: Global,
    program: &Program,
    lists: &Lists,
    rows: &[Prop],
) -> Result<Items<Keyed>, AllocError>
    requires { length rows.now ≤ 65536 }
    ensures { IfOk result (λ ms. ms ≡ spec.all_links program.now lists.now rows.now) }
{
    let total = rows.len() as u32;
    let mut counts = zeros(alloc, program.points.len())?;
    let mut found = Items::new(alloc);
    for prop in rows {
        add_link(&mut found, &mut counts, program, lists, total, prop)?;
    }
    Ok(found)
}

/// So many counts of nothing.
fn zeros(alloc: Global, count: usize) -> Result<Vec<u32>, AllocError>
    ensures { IfOk result (λ ns. ns.items ≡ replicate count 0) }
{
    let mut all = Vec::new(alloc);
    for _number in 0..count {
        all.push(0)?;
    }
    Ok(all)
}

/// The link of a property, if it is a call's; `counts` are how many of a call come before it at each point.
fn add_link(
    found: &mut Items<Keyed>,
    counts: &mut Vec<u32>,
    program: &Program,
    lists: &Lists,
    total: u32,
    prop: &Prop,
) -> Result<(), AllocError>
    requires { spec.count_in counts.old.items prop.now < 65536 }
    ensures found { IfOk result (λ _. found.new ≡ found.old ++ spec.row_links program.now lists.now total counts.old.items prop.now) }
    ensures counts { IfOk result (λ _. counts.new.items ≡ spec.counted counts.old.items prop.now) }
{
    if is_call_requires(prop.kind) {
        let count = next(counts, prop.point);
        let call = Instance {
            prop: prop.id,
            clause: count,
        };
        let callees = lists.callees.at(prop.point.0);
        add_instances(found, program, lists, total, call, callees)?;
    }
    Ok(())
}

/// A property of a call, and which of the callee's clauses it is an instance of.
#[derive(Clone, Copy)]
struct Instance {
    prop: PropId,
    clause: u32,
}

/// The links of a property to that clause of each of these functions.
fn add_instances(
    found: &mut Items<Keyed>,
    program: &Program,
    lists: &Lists,
    total: u32,
    call: Instance,
    callees: &[u32],
) -> Result<(), AllocError>
    ensures { IfOk result (λ _. found.new ≡ found.old ++ spec.links_to program.now lists.now total call.prop.0 call.clause callees.now) }
{
    for callee in callees {
        add_instance(found, lists, total, call, entry_of(program, *callee))?;
    }
    Ok(())
}

/// The link of a property to that clause of the function with this entry.
fn add_instance(
    found: &mut Items<Keyed>,
    lists: &Lists,
    total: u32,
    call: Instance,
    entry: Option<PointId>,
) -> Result<(), AllocError>
    ensures { IfOk result (λ _. found.new ≡ found.old ++ spec.link_to lists.now total call.prop.0 call.clause entry) }
{
    match entry {
        None => Ok(()),
        Some(entry) => found.push(Keyed {
            key: lists.clause(total, entry, call.clause),
            number: call.prop.0,
        }),
    }
}

/// The count of a point, to which 1 is added.
#[tactic(auto, using(std::proofs::lemmas::List::set_past))]
fn next(counts: &mut Vec<u32>, point: PointId) -> u32
    requires { get_or counts.old.items point.0 0 < 65536 }
    ensures count { result ≡ get_or counts.old.items point.0 0 }
    ensures counts { counts.new.items ≡ set counts.old.items point.0 (get_or counts.old.items point.0 0 + 1) }
{
    let place = point.0 as usize;
    if place < counts.len() {
        let count = counts[place];
        counts[place] = count + 1;
        count
    } else {
        0
    }
}

/// The entry of the function with this number.
fn entry_of(program: &Program, function: u32) -> Option<PointId>
    ensures { result ≡ spec.entry_of program.now function }
{
    match program.fns.as_slice().get(function as usize) {
        None => None,
        Some(f) => Some(f.entry),
    }
}

// ---- entries

/// An entry for each of these properties that is a precondition.
fn entries_of(
    alloc: Global,
    instances: &ByKey,
    rows: &[Prop],
    version: u32,
) -> Result<Entries, AllocError>
    ensures { IfOk result (λ es. es ≡ spec.entries_by version instances.now rows.now) }
{
    let mut entries = Items::new(alloc);
    for prop in rows {
        add_entry(alloc, &mut entries, instances, prop, version)?;
    }
    Ok(entries)
}

fn add_entry(
    alloc: Global,
    entries: &mut Entries,
    instances: &ByKey,
    prop: &Prop,
    version: u32,
) -> Result<(), AllocError>
    ensures { IfOk result (λ _. entries.new ≡ entries.old ++ spec.link_row version instances.now prop.now) }
{
    if is_requires(prop.kind) {
        let entry = link(alloc, prop.id, instances.at(prop.id.0), version)?;
        entries.push(entry)?;
    }
    Ok(())
}

/// The entry of a precondition with these instances.
fn link(alloc: Global, prop: PropId, instances: &[u32], version: u32) -> Result<Entry, AllocError>
    ensures { IfOk result (λ e. e ≡ link_entry version prop.0 instances.now) }
{
    if MOST < instances.len() {
        return Ok(Entry {
            emitter: KERNEL,
            prop,
            status: LocalStatus::DontKnow,
            hyps: Items::new(alloc),
            version,
        });
    }
    Ok(Entry {
        emitter: KERNEL,
        prop,
        status: LocalStatus::True,
        hyps: ids(alloc, instances)?,
        version,
    })
}

fn ids(alloc: Global, numbers: &[u32]) -> Result<Hyps, AllocError>
    ensures { IfOk result (λ ps. ps ≡ map prop_id numbers.now) }
{
    let mut all = Items::new(alloc);
    for number in numbers {
        all.push(PropId(*number))?;
    }
    Ok(all)
}
