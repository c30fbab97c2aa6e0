//! Nodes of what stands below them.

ghost use Rattle.std.specs.Prelude.{◌≡◌, IfOk};
ghost use Rattle.c_parse.specs.Trees.{join, with_end, assign_part, cond_part, prefix_part, cast_part, enclosed, unary_part, whole, declr_of, rest_of, last_end};

use crate::part::{Bracketed, DeclrRest, Ending, Part, Started};
use crate::place::{ident_of, reach, spot_of, up_to};
use crate::word::{assign_op, binary_op, is_up, prefixed};
use c_ast::{Declr, Expr, Spec, assign, binary, call, cast, cond, index, step};
use c_lex::Token;
use fc_base::Spot;
use std::alloc::{AllocError, Global};

fn whole(expr: Expr, place: Spot) -> Part
    ensures { result ≡ whole expr place }
{
    Part {
        expr,
        place,
        is_unary: false,
    }
}

pub(crate) fn unary_part(expr: Expr, place: Spot) -> Part
    ensures { result ≡ unary_part expr place }
{
    Part {
        expr,
        place,
        is_unary: true,
    }
}

pub(crate) fn join(alloc: Global, left: Part, op: Token, right: Part) -> Result<Part, AllocError>
    ensures { IfOk result (λ p. p ≡ join left op right) }
{
    let at = reach(left.place, right.place);
    let expr = binary(alloc, at, binary_op(op.kind), left.expr, right.expr)?;
    Ok(whole(expr, at))
}

pub(crate) fn assignment(
    alloc: Global,
    to: Part,
    op: Token,
    value: Part,
) -> Result<Part, AllocError>
    ensures { IfOk result (λ p. p ≡ assign_part to op value) }
{
    let at = reach(to.place, value.place);
    let expr = assign(alloc, at, assign_op(op.kind), to.expr, value.expr)?;
    Ok(whole(expr, at))
}

pub(crate) fn conditional(
    alloc: Global,
    test: Part,
    yes: Part,
    no: Part,
) -> Result<Part, AllocError>
    ensures { IfOk result (λ p. p ≡ cond_part test yes no) }
{
    let at = reach(test.place, no.place);
    let expr = cond(alloc, at, test.expr, yes.expr, no.expr)?;
    Ok(whole(expr, at))
}

pub(crate) fn prefix_part(alloc: Global, op: Token, of: Part) -> Result<Part, AllocError>
    ensures { IfOk result (λ p. p ≡ prefix_part op of) }
{
    let at = reach(spot_of(op), of.place);
    let expr = prefixed(alloc, op.kind, at, of.expr)?;
    Ok(unary_part(expr, at))
}

pub(crate) fn cast_part(
    alloc: Global,
    opening: Token,
    spec: Spec,
    of: Part,
) -> Result<Part, AllocError>
    ensures { IfOk result (λ p. p ≡ cast_part opening spec of) }
{
    let at = reach(spot_of(opening), of.place);
    let expr = cast(alloc, at, spec, of.expr)?;
    Ok(unary_part(expr, at))
}

pub(crate) fn with_end(
    alloc: Global,
    of: Part,
    ending: Ending,
    last: Token,
) -> Result<Part, AllocError>
    ensures { IfOk result (λ p. p ≡ with_end of ending last) }
{
    let at = reach(of.place, spot_of(last));
    let expr = match ending {
        Ending::At(place) => index(alloc, at, of.expr, place)?,
        Ending::With(args) => call(alloc, at, of.expr, args)?,
        Ending::Step => step(alloc, at, is_up(last.kind), false, of.expr)?,
    };
    Ok(unary_part(expr, at))
}

pub(crate) fn enclosed(opening: Token, of: Part, closing: Token) -> Part
    ensures { result ≡ enclosed opening of closing }
{
    unary_part(of.expr, reach(spot_of(opening), spot_of(closing)))
}

pub(crate) fn declr_of(
    alloc: Global,
    bytes: &[u8],
    name: Token,
    rest: DeclrRest,
) -> Result<Declr, AllocError>
    ensures { IfOk result (λ d. d ≡ declr_of bytes.now name rest) }
{
    let ident = ident_of(alloc, bytes, name)?;
    Ok(Declr {
        at: up_to(spot_of(name), rest.end),
        name: ident,
        length: rest.length,
        value: rest.value,
    })
}

pub(crate) fn rest_of(length: Bracketed, started: Started) -> DeclrRest
    ensures { result ≡ rest_of length started }
{
    DeclrRest {
        length: length.length,
        value: started.value,
        end: last_end(length.end, started.end),
    }
}

fn last_end(first: Option<Spot>, second: Option<Spot>) -> Option<Spot>
    ensures { result ≡ last_end first second }
{
    match second {
        Some(end) => Some(end),
        None => first,
    }
}
