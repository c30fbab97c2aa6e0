//! The walk over a formula.

ghost use Rattle.std.specs.Prelude.{◌≡◌, ◌-◌, ◌^◌, [], IfOk, min, pos, map};
ghost use Rattle.acsl_terms.specs.Breaches.{least, both};
ghost use Rattle.acsl_terms.specs.Meaning as meant;
ghost use Rattle.acsl_terms.specs.Meaning.{linked, part_of};
ghost use Rattle.acsl_terms.specs.inner.Sights.{context_of};
ghost use Rattle.acsl_terms.specs.inner.Sums.{all_after, joined};
ghost use Rattle.c_ir.specs.declared.tree.Pred.TheVariants as Is;

use crate::breach::{NoteBreach, NoteFault, note, note_unknown};
use crate::copy::copy;
use crate::look::{is_arithmetic, is_strict, is_term, place_of, range_of};
use crate::sight::Sight;
use crate::view::{Meant, View};
use c_ast::{Formula, Ident, Link};
use c_ir::Pred;
use fc_base::{Name, NoteOp, Relation};
use sqlite_items::Boxed;
use std::alloc::{AllocError, Global};

/// What stands for a term in breach.
fn zero() -> Pred
    ensures { result ≡ meant.zero }
{
    Pred::Number { value: 0 }
}

/// A constant's value; no token is so large as 2^127.
fn small(value: u128) -> i128
    ensures { result ≡ pos (min value (2 ^ 127 - 1)) }
{
    value.min(i128::MAX as u128) as i128
}

fn cell_of(alloc: Global, is_at_entry: bool, cell: u32) -> Result<Pred, AllocError>
    ensures { IfOk result (λ p. p ≡ meant.cell_by is_at_entry cell) }
{
    let cell = Pred::Cell { cell };
    if !is_at_entry {
        return Ok(cell);
    }
    Ok(Pred::Old {
        of: Boxed::new(alloc, cell)?,
    })
}

/// A name.
fn name_value(
    alloc: Global,
    sight: &Sight<'_>,
    first: &mut Option<NoteBreach>,
    ident: &Ident,
) -> Result<Pred, AllocError>
    ensures value { IfOk result (λ p. p ≡ meant.name_value sight.now.view.now (meant.stands_for (context_of sight.now) ident.now.name)) }
    ensures first { IfOk result (λ _. first.new ≡ least first.old (meant.name_faults ident.now.at.span.from ident.now.name (meant.stands_for (context_of sight.now) ident.now.name))) }
{
    let at = ident.at.span.from;
    match sight.meant(&ident.name)? {
        Meant::Bound(between) => Ok(Pred::Bound { between }),
        Meant::Object {
            first: cell,
            length: None,
        } => cell_of(alloc, sight.view.is_at_entry(cell), cell),
        Meant::Object {
            length: Some(_),
            ..
        } => {
            note(first, at, NoteFault::BadType);
            Ok(zero())
        }
        Meant::Nothing => {
            note_unknown(alloc, first, at, &ident.name)?;
            Ok(zero())
        }
    }
}

/// Notes what is in breach of an element's name, which is that of an array.
fn note_element(
    alloc: Global,
    first: &mut Option<NoteBreach>,
    at: u32,
    of: &Ident,
    stands_for: Meant,
) -> Result<(), AllocError>
    ensures { IfOk result (λ _. first.new ≡ least first.old (meant.element_faults at of.now.at.span.from of.now.name stands_for)) }
{
    match stands_for {
        Meant::Object {
            length: Some(_),
            ..
        } => Ok(()),
        Meant::Bound(_) | Meant::Object { length: None, .. } => {
            note(first, at, NoteFault::BadType);
            Ok(())
        }
        Meant::Nothing => note_unknown(alloc, first, of.at.span.from, &of.name),
    }
}

/// The element of an array.
fn element(alloc: Global, array: Meant, index: Pred) -> Result<Pred, AllocError>
    ensures { IfOk result (λ p. p ≡ meant.element_value index array) }
{
    match array {
        Meant::Object {
            first,
            length: Some(length),
        } => Ok(Pred::Element {
            first,
            length,
            index: Boxed::new(alloc, index)?,
        }),
        _ => Ok(zero()),
    }
}

fn result_value(view: &View, first: &mut Option<NoteBreach>, at: u32) -> Pred
    ensures value { result ≡ meant.result_value view.now.result }
    ensures first { first.new ≡ least first.old (meant.result_faults at view.now.result) }
{
    match view.result {
        Some(cell) => Pred::Cell { cell },
        None => {
            note(first, at, NoteFault::NotHere);
            zero()
        }
    }
}

/// A relation with a copy of its right side.
fn related(alloc: Global, relation: Relation, left: Pred, right: &Pred) -> Result<Pred, AllocError>
    ensures { IfOk result (λ p. p ≡ Is.Related relation left right.now) }
{
    Ok(Pred::Related {
        relation,
        left: Boxed::new(alloc, left)?,
        right: Boxed::new(alloc, copy(alloc, right)?)?,
    })
}

/// What is said so far, and this.
fn joined(alloc: Global, so_far: Option<Pred>, more: Pred) -> Result<Pred, AllocError>
    ensures { IfOk result (λ p. p ≡ joined so_far more) }
{
    match so_far {
        None => Ok(more),
        Some(so_far) => Ok(Pred::Binary {
            op: NoteOp::And,
            left: Boxed::new(alloc, so_far)?,
            right: Boxed::new(alloc, more)?,
        }),
    }
}

/// A formula in the place of a term.
#[cycle(walk)]
pub(crate) fn term(
    alloc: Global,
    sight: &Sight<'_>,
    first: &mut Option<NoteBreach>,
    f: &Formula,
) -> Result<Pred, AllocError>
    ensures value { IfOk result (λ p. p ≡ meant.term_value (part_of f.now) (context_of sight.now)) }
    ensures first { IfOk result (λ _. first.new ≡ least first.old (meant.term_faults (part_of f.now) (context_of sight.now))) }
{
    let p = value(alloc, sight, first, f)?;
    if is_term(f) {
        return Ok(p);
    }
    note(first, place_of(f), NoteFault::BadType);
    Ok(zero())
}

/// An operand of an operator, which is one of arithmetic or not.
#[cycle(walk)]
fn operand(
    alloc: Global,
    sight: &Sight<'_>,
    first: &mut Option<NoteBreach>,
    is_arithmetic: bool,
    f: &Formula,
) -> Result<Pred, AllocError>
    ensures value { IfOk result (λ p. p ≡ meant.operand_value is_arithmetic (part_of f.now) (context_of sight.now)) }
    ensures first { IfOk result (λ _. first.new ≡ least first.old (meant.operand_faults is_arithmetic (part_of f.now) (context_of sight.now))) }
{
    if is_arithmetic {
        term(alloc, sight, first, f)
    } else {
        value(alloc, sight, first, f)
    }
}

/// An element of an array.
#[cycle(walk)]
fn index_value(
    alloc: Global,
    sight: &Sight<'_>,
    first: &mut Option<NoteBreach>,
    at: u32,
    of: &Ident,
    index: &Formula,
) -> Result<Pred, AllocError>
    ensures value { IfOk result (λ p. p ≡ meant.element_value (meant.term_value (part_of index.now) (context_of sight.now)) (meant.stands_for (context_of sight.now) of.now.name)) }
    ensures first { IfOk result (λ _. first.new ≡ least first.old (both (meant.element_faults at of.now.at.span.from of.now.name (meant.stands_for (context_of sight.now) of.now.name)) (meant.term_faults (part_of index.now) (context_of sight.now)))) }
{
    let array = sight.meant(&of.name)?;
    note_element(alloc, first, at, of, array)?;
    let index = term(alloc, sight, first, index)?;
    element(alloc, array, index)
}

/// `\old(of)`
#[cycle(walk)]
fn old(
    alloc: Global,
    sight: &Sight<'_>,
    first: &mut Option<NoteBreach>,
    at: u32,
    of: &Formula,
) -> Result<Pred, AllocError>
    ensures value { IfOk result (λ p. p ≡ meant.old_value sight.now.view.now.old ((part_of of.now).value (context_of sight.now))) }
    ensures first { IfOk result (λ _. first.new ≡ least first.old (meant.old_faults sight.now.view.now.old at ((part_of of.now).faults (context_of sight.now)))) }
{
    if !sight.view.old {
        note(first, at, NoteFault::NotHere);
        return Ok(zero());
    }
    let of = value(alloc, sight, first, of)?;
    Ok(Pred::Old {
        of: Boxed::new(alloc, of)?,
    })
}

/// A chain of relations, which begins with `from`. What stands between two relations is bound once and copied.
#[cycle(walk)]
fn chain(
    alloc: Global,
    sight: &Sight<'_>,
    first: &mut Option<NoteBreach>,
    from: &Formula,
    links: &[Link],
) -> Result<Pred, AllocError>
    ensures value { IfOk result (λ p. p ≡ meant.conjunction (meant.relations (context_of sight.now) (meant.term_value (part_of from.now) (context_of sight.now)) (map linked links.now))) }
    ensures first { IfOk result (λ _. first.new ≡ least first.old (both (meant.term_faults (part_of from.now) (context_of sight.now)) (meant.links_faults (context_of sight.now) (map linked links.now)))) }
{
    let mut left = term(alloc, sight, first, from)?;
    let mut so_far: Option<Pred> = None;
    for link in links {
        let right = term(alloc, sight, first, &link.right)?;
        let next = related(alloc, link.relation, left, &right)?;
        so_far = Some(joined(alloc, so_far, next)?);
        left = right;
    }
    Ok(said(so_far))
}

/// What is said in all.
fn said(so_far: Option<Pred>) -> Pred
    ensures { result ≡ all_after so_far [] }
{
    match so_far {
        Some(so_far) => so_far,
        None => Pred::True,
    }
}

/// `\forall integer name; body`
#[cycle(walk)]
fn forall(
    alloc: Global,
    sight: &Sight<'_>,
    first: &mut Option<NoteBreach>,
    name: &Name,
    body: &Formula,
) -> Result<Pred, AllocError>
    ensures value { IfOk result (λ p. p ≡ meant.forall_value name.now (meant.range_of name.now (meant.meaning body.now).guarded) (context_of sight.now)) }
    ensures first { IfOk result (λ _. first.new ≡ least first.old (meant.forall_faults name.now (part_of body.now) (meant.range_of name.now (meant.meaning body.now).guarded) (context_of sight.now))) }
{
    let bound = sight.bound.share()?.with(alloc, name.copy(alloc)?)?;
    let within = Sight {
        names: sight.names,
        view: sight.view,
        bound: &bound,
    };
    match range_of(name, body) {
        Some((range, body)) => {
            let low = term(alloc, sight, first, range.low)?;
            let high = term(alloc, sight, first, range.high)?;
            let body = value(alloc, &within, first, body)?;
            Ok(Pred::Forall {
                low: Boxed::new(alloc, low)?,
                low_strict: is_strict(range.left),
                high: Boxed::new(alloc, high)?,
                high_strict: is_strict(range.right),
                body: Boxed::new(alloc, body)?,
            })
        }
        None => {
            note(first, place_of(body), NoteFault::BadType);
            value(alloc, &within, first, body)?;
            Ok(Pred::True)
        }
    }
}

/// A formula, as it is.
#[cycle(walk)]
pub(crate) fn value(
    alloc: Global,
    sight: &Sight<'_>,
    first: &mut Option<NoteBreach>,
    f: &Formula,
) -> Result<Pred, AllocError>
    ensures value { IfOk result (λ p. p ≡ (part_of f.now).value (context_of sight.now)) }
    ensures first { IfOk result (λ _. first.new ≡ least first.old ((part_of f.now).faults (context_of sight.now))) }
{
    match f {
        Formula::Number { value, .. } => Ok(Pred::Number {
            value: small(*value),
        }),
        Formula::Name(ident) => name_value(alloc, sight, first, ident),
        Formula::Index { at, of, index } => index_value(
            alloc,
            sight,
            first,
            at.span.from,
            of,
            index.get(),
        ),
        Formula::Result { at } => Ok(result_value(sight.view, first, at.span.from)),
        Formula::Old { at, of } => { old(alloc, sight, first, at.span.from, of.get()) }
        Formula::True { .. } => Ok(Pred::True),
        Formula::False { .. } => Ok(Pred::False),
        Formula::Neg { of, .. } => {
            let of = term(alloc, sight, first, of.get())?;
            Ok(Pred::Neg {
                of: Boxed::new(alloc, of)?,
            })
        }
        Formula::Not { of, .. } => {
            let of = value(alloc, sight, first, of.get())?;
            Ok(Pred::Not {
                of: Boxed::new(alloc, of)?,
            })
        }
        Formula::Binary {
            op,
            left,
            right,
            ..
        } => {
            let terms = is_arithmetic(*op);
            let left = operand(alloc, sight, first, terms, left.get())?;
            let right = operand(alloc, sight, first, terms, right.get())?;
            Ok(Pred::Binary {
                op: *op,
                left: Boxed::new(alloc, left)?,
                right: Boxed::new(alloc, right)?,
            })
        }
        Formula::Chain {
            first: from,
            rest,
            ..
        } => { chain(alloc, sight, first, from.get(), rest.as_slice()) }
        Formula::Forall { name, body, .. } => {
            forall(alloc, sight, first, &name.name, body.get())
        }
    }
}
