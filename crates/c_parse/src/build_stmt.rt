//! Statements of what stands in them.

ghost use Rattle.std.specs.Prelude.{◌≡◌, IfOk};
ghost use Rattle.c_parse.specs.Trees.{placed, declare, expression, if_part, while_part, do_part, for_part, first_expr, braced_part, governed, formal_of, start_at, close_at};

use crate::part::{Braced, Governed, Head, Part, Placed};
use crate::place::{reach, spot_of};
use c_ast::{Declrs, Expr, First, Formal, Ident, Spec, Spots, Stmt, Stmts, sub};
use c_lex::Token;
use fc_base::{Line, Spot};
use std::alloc::{AllocError, Global};

pub(crate) fn placed(stmt: Stmt, at: Spot) -> Placed
    ensures { result ≡ placed stmt at }
{
    Placed { stmt, at }
}

pub(crate) fn declare(spec: Spec, declrs: Declrs, semicolon: Token) -> Placed
    ensures { result ≡ declare spec declrs semicolon }
{
    let at = reach(spec.at, spot_of(semicolon));
    placed(Stmt::Declare { at, spec, declrs }, at)
}

pub(crate) fn expression(part: Part, semicolon: Token) -> Placed
    ensures { result ≡ expression part semicolon }
{
    let at = reach(part.place, spot_of(semicolon));
    let expr = part.expr;
    placed(Stmt::Expression { at, expr }, at)
}

pub(crate) fn if_part(word: Token, cond: Part, yes: Governed, no: Option<Governed>) -> Placed
    ensures { result ≡ if_part word cond yes no }
{
    match no {
        Some(no) => {
            let at = reach(spot_of(word), no.end);
            let stmt = Stmt::If {
                at,
                cond: cond.expr,
                yes: yes.sub,
                no: Some(no.sub),
            };
            placed(stmt, at)
        }
        None => {
            let at = reach(spot_of(word), yes.end);
            let stmt = Stmt::If {
                at,
                cond: cond.expr,
                yes: yes.sub,
                no: None,
            };
            placed(stmt, at)
        }
    }
}

pub(crate) fn while_part(word: Token, cond: Part, body: Governed) -> Placed
    ensures { result ≡ while_part word cond body }
{
    let at = reach(spot_of(word), body.end);
    let stmt = Stmt::While {
        at,
        cond: cond.expr,
        body: body.sub,
    };
    placed(stmt, at)
}

pub(crate) fn do_part(word: Token, body: Governed, cond: Part, semicolon: Token) -> Placed
    ensures { result ≡ do_part word body cond semicolon }
{
    let at = reach(spot_of(word), spot_of(semicolon));
    let stmt = Stmt::DoWhile {
        at,
        body: body.sub,
        cond: cond.expr,
    };
    placed(stmt, at)
}

pub(crate) fn for_part(word: Token, head: Head, body: Governed) -> Placed
    ensures { result ≡ for_part word head body }
{
    let at = reach(spot_of(word), body.end);
    let stmt = Stmt::For {
        at,
        first: head.first,
        cond: head.cond,
        update: head.update,
        body: body.sub,
    };
    placed(stmt, at)
}

pub(crate) fn first_expr(expr: Option<Expr>) -> First
    ensures { result ≡ first_expr expr }
{
    match expr {
        Some(expr) => First::Expression(expr),
        None => First::Nothing,
    }
}

pub(crate) fn braced(opening: Token, stmts: Stmts, closing: Token) -> Braced
    ensures { result ≡ braced_part opening stmts closing }
{
    Braced {
        stmts,
        at: reach(spot_of(opening), spot_of(closing)),
        close: closing.line,
    }
}

pub(crate) fn governed(alloc: Global, notes: Spots, of: Placed) -> Result<Governed, AllocError>
    ensures { IfOk result (λ g. g ≡ governed notes of) }
{
    Ok(Governed {
        end: of.at,
        sub: sub(alloc, notes, of.stmt)?,
    })
}

pub(crate) fn formal_of(spec: Spec, name: Option<Ident>) -> Formal
    ensures { result ≡ formal_of spec name }
{
    match name {
        Some(name) => Formal {
            at: reach(spec.at, name.at),
            spec,
            name: Some(name),
        },
        None => Formal {
            at: spec.at,
            spec,
            name: None,
        },
    }
}

pub(crate) fn start_at(start: Option<Spot>, spec: Spot) -> Spot
    ensures { result ≡ start_at start spec }
{
    match start {
        Some(start) => start,
        None => spec,
    }
}

pub(crate) fn close_at(close: Option<Line>, name: Line) -> Line
    ensures { result ≡ close_at close name }
{
    match close {
        Some(close) => close,
        None => name,
    }
}
