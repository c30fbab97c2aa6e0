//! The contracts of functions.

ghost use Rattle.std.specs.Prelude.{◌≡◌, ◌==◌, ℕ, IfOk, position};
ghost use Rattle.std.specs.BTreeMap.{get};
ghost use Rattle.std.specs.Option.{option_and_then};
ghost use Rattle.std.specs.Ordering.{nat_cmp};
ghost use Rattle.c_ir.specs.Bodies.{AtEntry, AtExit};
ghost use Rattle.c_ir.specs.Formed.{on_some};
ghost use Rattle.acsl_terms.specs.Breaches.{least};
ghost use Rattle.acsl_bind.specs.Notes.{clauses_of, clauses_faults, note_number, standing};
ghost use Rattle.acsl_bind.specs.Placing.{Places, made_of, scene};
ghost use Rattle.acsl_bind.specs.Programs as spec;
ghost use Rattle.acsl_bind.specs.Programs.{contract_of, is_contract_of, noted_all};
ghost use Rattle.acsl_bind.specs.inner.Contracted.{Contracted};

use crate::notes::{Where, stands};
use crate::source::Source;
use crate::stmt::stmts;
use crate::walk::{Walk, moved_point};
use acsl_terms::{NoteBreach, View, clause};
use c_ast::{Annot, AnnotKind, Clause};
use c_ir::{Fun, InScopes, NoteSpot, PointClause, Stmts};
use fc_base::FnId;
use sqlite_items::Items;
use std::alloc::{AllocError, Global};
use std::collections::BTreeMap;

/// What a contract says at the entry and at the exit of its function.
#[derive(Debug, Drop)]
pub struct Contract {
    pub entry: Items<PointClause>,
    pub exit: Items<PointClause>,
}

/// The function whose contract a note is, if it is one.
fn contracted(spot: &NoteSpot, annot: &Annot) -> Option<u32>
    ensures { (f : ℕ) → is_contract_of f (record { spot = spot.now; annot = annot.now }) ≡ on_some (λ g. g == f) result }
{
    match (annot.kind, spot.owner) {
        (AnnotKind::Contract, Some(function)) => Some(function.0),
        _ => None,
    }
}

/// For each function that has a contract the number of the first note that is one.
#[tactic(auto, using(crate::proofs::Positions::none_left, crate::proofs::Positions::all_left))]
pub(crate) fn first_contracts(
    alloc: Global,
    spots: &[NoteSpot],
    annots: &[Annot],
) -> Result<BTreeMap<u32, usize>, AllocError>
    ensures { IfOk result (λ m. (f : ℕ) → get nat_cmp m f ≡ position (is_contract_of f) (noted_all spots.now annots.now)) }
{
    let mut numbers = BTreeMap::new(alloc);
    let mut left = spots.len().min(annots.len());
    while 0 < left {
        left -= 1;
        if let Some(function) = contracted(&spots[left], &annots[left]) {
            numbers.insert(function, left)?;
        }
    }
    Ok(numbers)
}

/// What these clauses of a contract say at the entry and at the exit, and their breaches.
#[tactic(auto, using(crate::proofs::Nexts::at_one_end))]
fn halves(
    alloc: Global,
    names: &InScopes,
    view: &View,
    first: &mut Option<NoteBreach>,
    all: &[Clause],
) -> Result<Contract, AllocError>
    ensures entry { IfOk result (λ c. c.entry ≡ standing AtEntry (clauses_of names.now view.now all.now)) }
    ensures exit { IfOk result (λ c. c.exit ≡ standing AtExit (clauses_of names.now view.now all.now)) }
    ensures first { IfOk result (λ _. first.new ≡ least first.old (clauses_faults names.now view.now all.now)) }
{
    let mut entry = Items::new(alloc);
    let mut exit = Items::new(alloc);
    for one in all {
        if let Some(made) = clause(alloc, names, view, first, one)? {
            if stands(Where::Entry, made.kind) {
                entry.push(made)?;
            } else if stands(Where::Exit, made.kind) {
                exit.push(made)?;
            }
        }
    }
    Ok(Contract { entry, exit })
}

/// What the contract with this number says of a function, and its breaches.
fn contract_said(
    alloc: Global,
    walk: &mut Walk,
    source: &Source,
    annots: &[Annot],
    number: Option<usize>,
    f: &Fun,
) -> Result<Contract, AllocError>
    ensures { Contracted (spec.contract_clauses f.now (option_and_then (note_number source.now.spots annots.now) number) (made_of walk.old)) result walk.old walk.new }
{
    let none = Contract {
        entry: Items::new(alloc),
        exit: Items::new(alloc),
    };
    let Some(number) = number else {
        return Ok(none);
    };
    match (source.spots.get(number), annots.get(number)) {
        (Some(spot), Some(annot)) => {
            let view = View {
                formals: Items::from_slice(alloc, f.formals.as_slice())?,
                result: f.result,
                old: true,
            };
            let all = annot.clauses.as_slice();
            halves(alloc, &spot.names, &view, &mut walk.first, all)
        }
        _ => Ok(none),
    }
}

/// The statements of a body, with their notes.
fn body(
    alloc: Global,
    walk: &mut Walk,
    source: &Source,
    annots: &[Annot],
    function: FnId,
    of: &Option<Stmts>,
) -> Result<Option<Stmts>, AllocError>
    ensures { Places (spec.body_of (scene source.now annots.now function) of.now (made_of walk.old)) result walk.old walk.new }
{
    match of {
        None => Ok(None),
        Some(of) => Ok(Some(stmts(alloc, walk, source, annots, function, of.as_slice())?)),
    }
}

/// A function with its contract and with the notes of its body.
#[tactic(auto, unfolding(crate::specs::Programs::function, crate::specs::Programs::contract_of), using(crate::proofs::Positions::first_at))]
pub(crate) fn function(
    alloc: Global,
    walk: &mut Walk,
    source: &Source,
    annots: &[Annot],
    number: Option<usize>,
    function: FnId,
    f: &Fun,
) -> Result<Fun, AllocError>
    requires { number ≡ position (is_contract_of function.0) (noted_all source.now.spots annots.now) }
    ensures { Places (spec.function (scene source.now annots.now function) (contract_of (noted_all source.now.spots annots.now) function.0) f.now (made_of walk.old)) result walk.old walk.new }
{
    let points = source.points.as_slice();
    let Contract { entry, exit } = contract_said(alloc, walk, source, annots, number, f)?;
    let entry = moved_point(walk, points, function, f.entry, entry)?;
    let body = body(alloc, walk, source, annots, function, &f.body)?;
    let exit = moved_point(walk, points, function, f.exit, exit)?;
    Ok(Fun {
        name: f.name.copy(alloc)?,
        formals: Items::from_slice(alloc, f.formals.as_slice())?,
        result: f.result,
        body,
        entry,
        exit,
    })
}
