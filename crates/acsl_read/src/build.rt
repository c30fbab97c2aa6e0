//! Nodes of what stands below them.

ghost use Rattle.std.specs.Prelude.{◌≡◌, IfOk};
ghost use Rattle.acsl_read.specs.Trees.{whole, join, prefix_part, forall_part, link_of, chained, named, indexed, old_part, enclosed, stated};

use crate::part::{Ended, Part, Stated};
use crate::place::{ident_of, reach, spot_of};
use crate::word::{note_op, prefixed, relation};
use c_ast::{Clause, ClauseKind, Formula, Link, Links};
use c_lex::Token;
use fc_base::Spot;
use sqlite_items::Boxed;
use std::alloc::{AllocError, Global};

pub(crate) fn whole(formula: Formula, place: Spot) -> Part
    ensures { result ≡ whole formula place }
{
    Part {
        formula,
        place,
        is_name: false,
    }
}

pub(crate) fn join(alloc: Global, left: Part, op: Token, right: Part) -> Result<Part, AllocError>
    ensures { IfOk result (λ p. p ≡ join left op right) }
{
    let at = reach(left.place, right.place);
    let formula = Formula::Binary {
        at,
        op: note_op(op.kind),
        left: Boxed::new(alloc, left.formula)?,
        right: Boxed::new(alloc, right.formula)?,
    };
    Ok(whole(formula, at))
}

pub(crate) fn prefix_part(alloc: Global, op: Token, of: Part) -> Result<Part, AllocError>
    ensures { IfOk result (λ p. p ≡ prefix_part op of) }
{
    let at = reach(spot_of(op), of.place);
    let formula = prefixed(alloc, op.kind, at, of.formula)?;
    Ok(whole(formula, at))
}

pub(crate) fn forall_part(
    alloc: Global,
    bytes: &[u8],
    first: Token,
    name: Token,
    body: Part,
) -> Result<Part, AllocError>
    ensures { IfOk result (λ p. p ≡ forall_part bytes.now first name body) }
{
    let at = reach(spot_of(first), body.place);
    let formula = Formula::Forall {
        at,
        name: ident_of(alloc, bytes, name)?,
        body: Boxed::new(alloc, body.formula)?,
    };
    Ok(whole(formula, at))
}

/// A relation with what stands to its right.
pub(crate) fn link_of(op: Token, right: Part) -> Link
    ensures { result ≡ link_of op right }
{
    Link {
        relation: relation(op.kind),
        right: right.formula,
    }
}

/// An operand, or a chain of relations that begins with it.
pub(crate) fn chained(
    alloc: Global,
    first: Part,
    end: Spot,
    rest: Links,
) -> Result<Part, AllocError>
    ensures { IfOk result (λ p. p ≡ chained first end rest) }
{
    if rest.is_empty() {
        return Ok(first);
    }
    let at = reach(first.place, end);
    let formula = Formula::Chain {
        at,
        first: Boxed::new(alloc, first.formula)?,
        rest,
    };
    Ok(whole(formula, at))
}

pub(crate) fn named(alloc: Global, bytes: &[u8], name: Token) -> Result<Part, AllocError>
    ensures { IfOk result (λ p. p ≡ named bytes.now name) }
{
    Ok(Part {
        formula: Formula::Name(ident_of(alloc, bytes, name)?),
        place: spot_of(name),
        is_name: true,
    })
}

pub(crate) fn indexed(
    alloc: Global,
    bytes: &[u8],
    name: Token,
    index: Part,
    closing: Token,
) -> Result<Part, AllocError>
    ensures { IfOk result (λ p. p ≡ indexed bytes.now name index closing) }
{
    let at = reach(spot_of(name), spot_of(closing));
    let formula = Formula::Index {
        at,
        of: ident_of(alloc, bytes, name)?,
        index: Boxed::new(alloc, index.formula)?,
    };
    Ok(whole(formula, at))
}

pub(crate) fn old_part(alloc: Global, first: Token, of: Part) -> Result<Part, AllocError>
    ensures { IfOk result (λ p. p ≡ old_part first of) }
{
    let at = reach(spot_of(first), of.place);
    let formula = Formula::Old {
        at,
        of: Boxed::new(alloc, of.formula)?,
    };
    Ok(whole(formula, at))
}

pub(crate) fn enclosed(opening: Token, of: Part, closing: Token) -> Part
    ensures { result ≡ enclosed opening of closing }
{
    whole(of.formula, reach(spot_of(opening), spot_of(closing)))
}

pub(crate) fn stated(kind: ClauseKind, first: Token, ended: Ended) -> Stated
    ensures { result ≡ stated kind first ended }
{
    Stated {
        clause: Clause {
            kind,
            label: ended.label,
            body: ended.body,
            line: first.line,
        },
        at: reach(spot_of(first), ended.end),
    }
}
