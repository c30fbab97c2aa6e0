//! Notes outside bodies.

ghost use Rattle.std.specs.Prelude.{◌≡◌, ◌==◌, ◌++◌, ◌&&◌, ℕ, List, IfOk, not};
ghost use Rattle.std.specs.BTreeSet.{contains};
ghost use Rattle.std.specs.List.{list_any};
ghost use Rattle.std.specs.Ordering.{nat_cmp};
ghost use Rattle.c_ir.specs.declared.tree.Stmt.{fold-Stmt};
ghost use Rattle.acsl_terms.specs.Breaches.{least};
ghost use Rattle.acsl_bind.specs.Notes.{places_in, places_in_all, places_of, places_step};
ghost use Rattle.acsl_bind.specs.Programs.{is_contract, is_owned, noted_all, stray_of, strays};

use acsl_terms::{NoteBreach, note_not_here};
use c_ast::{Annot, AnnotKind};
use c_ir::{Fun, NoteSpot, Stmt, Stmts};
use sqlite_items::Items;
use std::alloc::{AllocError, Global};
use std::collections::BTreeSet;

/// Adds the places of the notes that stand in a statement.
#[cycle(stmts)]
fn add(found: &mut Items<u32>, s: &Stmt) -> Result<(), AllocError>
    ensures { IfOk result (λ _. found.new ≡ found.old ++ fold-Stmt (List ℕ) places_step s.now) }
{
    match s {
        Stmt::If { yes, no, .. } => {
            add_all(found, yes.as_slice())?;
            add_all(found, no.as_slice())
        }
        Stmt::While { body, .. } | Stmt::DoWhile { body, .. } => add_all(found, body.as_slice()),
        Stmt::For {
            first,
            body,
            update,
            ..
        } => {
            add_all(found, first.as_slice())?;
            add_all(found, body.as_slice())?;
            add_all(found, update.as_slice())
        }
        Stmt::Block { stmts } => add_all(found, stmts.as_slice()),
        Stmt::Note { at } => found.push(at.span.from),
        Stmt::Declare { .. }
        | Stmt::Expression { .. }
        | Stmt::Break { .. }
        | Stmt::Continue { .. }
        | Stmt::Return { .. }
        | Stmt::Empty { .. }
        | Stmt::Clause { .. } => Ok(()),
    }
}

/// Adds the places of the notes that stand in these statements.
#[cycle(stmts)]
fn add_all(found: &mut Items<u32>, all: &[Stmt]) -> Result<(), AllocError>
    ensures { IfOk result (λ _. found.new ≡ found.old ++ places_of all.now) }
{
    for s in all {
        add(found, s)?;
    }
    Ok(())
}

/// Adds the places of the notes that stand in a body.
fn add_body(found: &mut Items<u32>, body: &Option<Stmts>) -> Result<(), AllocError>
    ensures { IfOk result (λ _. found.new ≡ found.old ++ places_in body.now) }
{
    match body {
        None => Ok(()),
        Some(body) => add_all(found, body.as_slice()),
    }
}

/// The places of the notes that stand in bodies.
fn places(alloc: Global, fns: &[Fun]) -> Result<Items<u32>, AllocError>
    ensures { IfOk result (λ places. places ≡ places_in_all fns.now) }
{
    let mut found = Items::new(alloc);
    for f in fns {
        add_body(&mut found, &f.body)?;
    }
    Ok(found)
}

/// The set of these numbers.
fn set_of(alloc: Global, numbers: &[u32]) -> Result<BTreeSet<u32>, AllocError>
    ensures { IfOk result (λ set. (n : ℕ) → contains nat_cmp set n ≡ list_any (λ m. n == m) numbers.now) }
{
    let mut set = BTreeSet::new(alloc);
    for number in numbers {
        set.insert(*number)?;
    }
    Ok(set)
}

/// Whether a note is a contract that stands directly before a function.
fn is_placed(spot: &NoteSpot, annot: &Annot) -> bool
    ensures { result ≡ (is_owned spot.now.owner && is_contract annot.now.kind) }
{
    spot.owner.is_some() && annot.kind == AnnotKind::Contract
}

/// Notes a note that stands outside bodies and is no contract of a function.
#[tactic(auto, using(crate::proofs::Outside::stray_by))]
fn note_stray(
    first: &mut Option<NoteBreach>,
    inside: &BTreeSet<u32>,
    spot: &NoteSpot,
    annot: &Annot,
)
    ensures { (places : List ℕ) → ((at : ℕ) → contains nat_cmp inside.now at ≡ list_any (λ p. at == p) places) → first.new ≡ least first.old (stray_of places (record { spot = spot.now; annot = annot.now })) }
{
    if !inside.contains(&spot.at.span.from) && !is_placed(spot, annot) {
        note_not_here(first, annot.at.span.from);
    }
}

/// Notes each note that stands outside bodies and is no contract of a function.
#[tactic(auto, using(crate::proofs::Outside::one_stray))]
pub(crate) fn note_strays(
    alloc: Global,
    first: &mut Option<NoteBreach>,
    fns: &[Fun],
    spots: &[NoteSpot],
    annots: &[Annot],
) -> Result<(), AllocError>
    ensures { IfOk result (λ _. first.new ≡ least first.old (strays (places_in_all fns.now) (noted_all spots.now annots.now))) }
{
    let inside = set_of(alloc, places(alloc, fns)?.as_slice())?;
    let mut spots_left = spots;
    let mut annots_left = annots;
    while let (Some((spot, more_spots)), Some((annot, more_annots))) = (
        spots_left.split_first(),
        annots_left.split_first(),
    ) {
        note_stray(first, &inside, spot, annot);
        spots_left = more_spots;
        annots_left = more_annots;
    }
    Ok(())
}
