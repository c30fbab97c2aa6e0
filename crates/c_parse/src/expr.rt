//! Expressions (C11 6.5).

ghost use Rattle.std.specs.Prelude.{◌≡◌, ◌≤◌, ◌<◌, ◌&&◌, IfOk, List, length, ◌∷◌, []};
ghost use Rattle.grammar_forms.specs.Forms.{Made, one_of};
ghost use Rattle.c_parse.specs.Classes.{same_class, class_at};
ghost use Rattle.c_parse.specs.Table.{Assign, Cond, Binary, More, Unary, Cast, Postfix, Suffixes, Primary, Args, MoreArgs, Parens, MaybeExpr, operand, assigns};
ghost use Rattle.c_parse.specs.Trees.{OfPart, OfJoins, OfEnds, OfExprs, OfMaybe, joins_in, ends_in, exprs_in};
ghost use Rattle.c_parse.specs.inner.Outcome.{Gives, Goes, read};

use crate::build::{
    assignment, cast_part, conditional, enclosed, join, prefix_part, unary_part, with_end,
};
use crate::class::{Class, class_at, is, is_one_of};
use crate::fault::Fault;
use crate::level::Level;
use crate::look::{deeper, take, take_one};
use crate::part::{Ending, Part};
use crate::place::{ident_of, spot_of};
use crate::spec::spec_at;
use crate::word::literal;
use c_ast::{Expr, Exprs};
use c_lex::Token;
use sqlite_items::Items;
use std::alloc::Global;

const PREFIXES: [Class; 3] = [Class::Additive, Class::Complement, Class::Step];

const ASSIGNS: [Class; 2] = [Class::Equals, Class::AssignOp];

pub(crate) const PARENS: [Class; 2] = [Class::ParenOpen, Class::ParenType];

pub(crate) const COMMAS: [Class; 2] = [Class::Comma, Class::CommaLast];

pub(crate) const EXPR_FIRST: [Class; 7] = [
    Class::Additive,
    Class::Complement,
    Class::Step,
    Class::ParenType,
    Class::Name,
    Class::Constant,
    Class::ParenOpen,
];

/// Whether an assignment goes on here.
fn goes_on(is_unary: bool, tokens: &[Token]) -> bool
    ensures { result ≡ (is_unary && one_of same_class assigns (class_at tokens.now)) }
{
    is_unary && is_one_of(&ASSIGNS, class_at(tokens))
}

/// An expression.
#[cycle(expr)]
#[tactic(auto, using(crate::proofs::Rows::assign_row))]
pub(crate) fn assign_at<'a>(
    alloc: Global,
    bytes: &[u8],
    depth: usize,
    tokens: &'a [Token],
) -> Result<(Part, &'a [Token]), Fault>
    requires { depth ≤ 200 }
    ensures value { Gives (λ p. Made (OfPart p)) result (read bytes.now Assign depth tokens.now) }
    ensures shorter { IfOk result (λ x. length x.1.now < length tokens.now) }
{
    let (to, rest) = cond_at(alloc, bytes, depth, tokens)?;
    if !goes_on(to.is_unary, rest) {
        return Ok((to, rest));
    }
    let (op, rest) = take_one(&ASSIGNS, rest)?;
    let (value, end) = assign_at(alloc, bytes, depth, rest)?;
    Ok((assignment(alloc, to, op, value)?, end))
}

/// A conditional expression, or what stands in its place.
#[cycle(expr)]
#[tactic(auto, using(crate::proofs::Rows::cond_row))]
pub(crate) fn cond_at<'a>(
    alloc: Global,
    bytes: &[u8],
    depth: usize,
    tokens: &'a [Token],
) -> Result<(Part, &'a [Token]), Fault>
    requires { depth ≤ 200 }
    ensures value { Gives (λ p. Made (OfPart p)) result (read bytes.now Cond depth tokens.now) }
    ensures shorter { IfOk result (λ x. length x.1.now < length tokens.now) }
{
    let (test, rest) = binary_at(alloc, bytes, Level::LogicOr, depth, tokens)?;
    if !is(rest, Class::Question) {
        return Ok((test, rest));
    }
    let (_, rest) = take(Class::Question, rest)?;
    let (yes, rest) = assign_at(alloc, bytes, depth, rest)?;
    let (_, rest) = take(Class::Colon, rest)?;
    let (no, end) = cond_at(alloc, bytes, depth, rest)?;
    Ok((conditional(alloc, test, yes, no)?, end))
}

/// An operand of a level.
#[cycle(expr)]
#[tactic(auto, using(crate::proofs::Ranks::operand_lower))]
fn operand_at<'a>(
    alloc: Global,
    bytes: &[u8],
    level: Level,
    depth: usize,
    tokens: &'a [Token],
) -> Result<(Part, &'a [Token]), Fault>
    requires { depth ≤ 200 }
    ensures value { Gives (λ p. Made (OfPart p)) result (read bytes.now (operand level) depth tokens.now) }
    ensures shorter { IfOk result (λ x. length x.1.now < length tokens.now) }
{
    match level.tighter() {
        Some(next) => binary_at(alloc, bytes, next, depth, tokens),
        None => unary_at(alloc, bytes, depth, tokens),
    }
}

/// An operator of the level with the operand after it, if there is one.
#[cycle(expr)]
#[tactic(auto, using(crate::proofs::Rows::more_row, crate::proofs::Ranks::level_low, crate::proofs::Loops::fuse))]
fn join_at<'a>(
    alloc: Global,
    bytes: &[u8],
    level: Level,
    depth: usize,
    tokens: &'a [Token],
) -> Result<Option<((Token, Part), &'a [Token])>, Fault>
    requires { depth ≤ 200 }
    ensures { Goes (Made (OfJoins [])) (λ j v. Made (OfJoins (j ∷ joins_in v))) (read bytes.now (More level) depth) tokens.now result }
{
    if !is_one_of(level.classes(), class_at(tokens)) {
        return Ok(None);
    }
    let (op, rest) = take_one(level.classes(), tokens)?;
    let (right, end) = operand_at(alloc, bytes, level, depth, rest)?;
    Ok(Some(((op, right), end)))
}

/// The operands of a level, joined from left to right.
#[cycle(expr)]
#[tactic(auto, using(crate::proofs::Loops::binary_begins, crate::proofs::Loops::binary_fails, crate::proofs::Loops::joins_more, crate::proofs::Loops::fails_whole, crate::proofs::Ranks::operand_lower))]
fn binary_at<'a>(
    alloc: Global,
    bytes: &[u8],
    level: Level,
    depth: usize,
    tokens: &'a [Token],
) -> Result<(Part, &'a [Token]), Fault>
    requires { depth ≤ 200 }
    ensures value { Gives (λ p. Made (OfPart p)) result (read bytes.now (Binary level) depth tokens.now) }
    ensures shorter { IfOk result (λ x. length x.1.now < length tokens.now) }
{
    let (mut left, mut rest) = operand_at(alloc, bytes, level, depth, tokens)?;
    'joining: loop {
        match join_at(alloc, bytes, level, depth, rest) {
            Ok(Some((found, end))) => {
                let (op, right) = found;
                left = join(alloc, left, op, right)?;
                rest = end;
            }
            Ok(None) => return Ok((left, rest)),
            Err(fault) => return Err(fault),
        }
    }
}

/// A unary expression.
#[cycle(expr)]
#[tactic(auto, using(crate::proofs::Rows::unary_row))]
fn unary_at<'a>(
    alloc: Global,
    bytes: &[u8],
    depth: usize,
    tokens: &'a [Token],
) -> Result<(Part, &'a [Token]), Fault>
    requires { depth ≤ 200 }
    ensures value { Gives (λ p. Made (OfPart p)) result (read bytes.now Unary depth tokens.now) }
    ensures shorter { IfOk result (λ x. length x.1.now < length tokens.now) }
{
    if is_one_of(&PREFIXES, class_at(tokens)) {
        let (op, rest) = take_one(&PREFIXES, tokens)?;
        let inner = deeper(depth, tokens)?;
        let (of, end) = unary_at(alloc, bytes, inner, rest)?;
        return Ok((prefix_part(alloc, op, of)?, end));
    }
    if is(tokens, Class::ParenType) {
        return cast_at(alloc, bytes, depth, tokens);
    }
    postfix_at(alloc, bytes, depth, tokens)
}

/// A cast.
#[cycle(expr)]
#[tactic(auto, using(crate::proofs::Rows::cast_row))]
fn cast_at<'a>(
    alloc: Global,
    bytes: &[u8],
    depth: usize,
    tokens: &'a [Token],
) -> Result<(Part, &'a [Token]), Fault>
    requires { depth ≤ 200 }
    ensures value { Gives (λ p. Made (OfPart p)) result (read bytes.now Cast depth tokens.now) }
    ensures shorter { IfOk result (λ x. length x.1.now < length tokens.now) }
{
    let (opening, rest) = take(Class::ParenType, tokens)?;
    let inner = deeper(depth, tokens)?;
    let (spec, rest) = spec_at(alloc, bytes, inner, rest)?;
    let (_, rest) = take(Class::ParenClose, rest)?;
    let (of, end) = unary_at(alloc, bytes, inner, rest)?;
    Ok((cast_part(alloc, opening, spec, of)?, end))
}

/// A primary expression with what stands after it.
#[cycle(expr)]
#[tactic(auto, using(crate::proofs::Loops::postfix_begins, crate::proofs::Loops::postfix_fails, crate::proofs::Loops::ends_more, crate::proofs::Loops::fails_whole))]
fn postfix_at<'a>(
    alloc: Global,
    bytes: &[u8],
    depth: usize,
    tokens: &'a [Token],
) -> Result<(Part, &'a [Token]), Fault>
    requires { depth ≤ 200 }
    ensures value { Gives (λ p. Made (OfPart p)) result (read bytes.now Postfix depth tokens.now) }
    ensures shorter { IfOk result (λ x. length x.1.now < length tokens.now) }
{
    let (mut of, mut rest) = primary_at(alloc, bytes, depth, tokens)?;
    'ending: loop {
        match ending_at(alloc, bytes, depth, rest) {
            Ok(Some((found, end))) => {
                let (ending, last) = found;
                of = with_end(alloc, of, ending, last)?;
                rest = end;
            }
            Ok(None) => return Ok((of, rest)),
            Err(fault) => return Err(fault),
        }
    }
}

/// What stands after a primary expression, if something does.
#[cycle(expr)]
#[tactic(auto, using(crate::proofs::Rows::suffixes_row, crate::proofs::Loops::fuse))]
fn ending_at<'a>(
    alloc: Global,
    bytes: &[u8],
    depth: usize,
    tokens: &'a [Token],
) -> Result<Option<((Ending, Token), &'a [Token])>, Fault>
    requires { depth ≤ 200 }
    ensures { Goes (Made (OfEnds [])) (λ e v. Made (OfEnds (e ∷ ends_in v))) (read bytes.now Suffixes depth) tokens.now result }
{
    if is(tokens, Class::BracketOpen) {
        let (_, rest) = take(Class::BracketOpen, tokens)?;
        let inner = deeper(depth, tokens)?;
        let (at, rest) = assign_at(alloc, bytes, inner, rest)?;
        let (close, end) = take(Class::BracketClose, rest)?;
        return Ok(Some(((Ending::At(at.expr), close), end)));
    }
    if is_one_of(&PARENS, class_at(tokens)) {
        let (_, rest) = take_one(&PARENS, tokens)?;
        let inner = deeper(depth, tokens)?;
        let (args, rest) = args_at(alloc, bytes, inner, rest)?;
        let (close, end) = take(Class::ParenClose, rest)?;
        return Ok(Some(((Ending::With(args), close), end)));
    }
    if is(tokens, Class::Step) {
        let (op, end) = take(Class::Step, tokens)?;
        return Ok(Some(((Ending::Step, op), end)));
    }
    Ok(None)
}

/// Arguments, or none.
#[cycle(expr)]
#[tactic(auto, using(crate::proofs::Rows::args_row, crate::proofs::Loops::args_more, crate::proofs::Loops::fails_whole))]
fn args_at<'a>(
    alloc: Global,
    bytes: &[u8],
    depth: usize,
    tokens: &'a [Token],
) -> Result<(Exprs, &'a [Token]), Fault>
    requires { depth ≤ 200 }
    ensures value { Gives (λ es. Made (OfExprs es)) result (read bytes.now Args depth tokens.now) }
    ensures no_longer { IfOk result (λ x. length x.1.now ≤ length tokens.now) }
{
    let mut args = Items::new(alloc);
    if !is_one_of(&EXPR_FIRST, class_at(tokens)) {
        return Ok((args, tokens));
    }
    let (first, mut rest) = assign_at(alloc, bytes, depth, tokens)?;
    args.push(first.expr)?;
    'adding: loop {
        match next_arg(alloc, bytes, depth, rest) {
            Ok(Some((arg, end))) => {
                args.push(arg)?;
                rest = end;
            }
            Ok(None) => return Ok((args, rest)),
            Err(fault) => return Err(fault),
        }
    }
}

/// One more argument, if there is a comma.
#[cycle(expr)]
#[tactic(auto, using(crate::proofs::Rows::more_args_row, crate::proofs::Loops::fuse))]
fn next_arg<'a>(
    alloc: Global,
    bytes: &[u8],
    depth: usize,
    tokens: &'a [Token],
) -> Result<Option<(Expr, &'a [Token])>, Fault>
    requires { depth ≤ 200 }
    ensures { Goes (Made (OfExprs [])) (λ e v. Made (OfExprs (e ∷ exprs_in v))) (read bytes.now MoreArgs depth) tokens.now result }
{
    if !is_one_of(&COMMAS, class_at(tokens)) {
        return Ok(None);
    }
    let (_, rest) = take_one(&COMMAS, tokens)?;
    let (arg, end) = assign_at(alloc, bytes, depth, rest)?;
    Ok(Some((arg.expr, end)))
}

/// A name, a constant or an expression in parentheses.
#[cycle(expr)]
#[tactic(auto, using(crate::proofs::Rows::primary_row))]
fn primary_at<'a>(
    alloc: Global,
    bytes: &[u8],
    depth: usize,
    tokens: &'a [Token],
) -> Result<(Part, &'a [Token]), Fault>
    requires { depth ≤ 200 }
    ensures value { Gives (λ p. Made (OfPart p)) result (read bytes.now Primary depth tokens.now) }
    ensures shorter { IfOk result (λ x. length x.1.now < length tokens.now) }
{
    if is(tokens, Class::Name) {
        let (name, rest) = take(Class::Name, tokens)?;
        let ident = ident_of(alloc, bytes, name)?;
        return Ok((unary_part(Expr::Name(ident), spot_of(name)), rest));
    }
    if is(tokens, Class::Constant) {
        let (constant, rest) = take(Class::Constant, tokens)?;
        let at = spot_of(constant);
        return Ok((unary_part(literal(constant.kind, at), at), rest));
    }
    let (opening, rest) = take(Class::ParenOpen, tokens)?;
    let inner = deeper(depth, tokens)?;
    let (of, rest) = assign_at(alloc, bytes, inner, rest)?;
    let (closing, end) = take(Class::ParenClose, rest)?;
    Ok((enclosed(opening, of, closing), end))
}

/// An expression in parentheses that belong to a statement.
#[tactic(auto, using(crate::proofs::Rows::parens_row))]
pub(crate) fn parens_at<'a>(
    alloc: Global,
    bytes: &[u8],
    depth: usize,
    tokens: &'a [Token],
) -> Result<(Part, &'a [Token]), Fault>
    requires { depth ≤ 200 }
    ensures value { Gives (λ p. Made (OfPart p)) result (read bytes.now Parens depth tokens.now) }
    ensures shorter { IfOk result (λ x. length x.1.now < length tokens.now) }
{
    let (_, rest) = take_one(&PARENS, tokens)?;
    let inner = deeper(depth, tokens)?;
    let (of, rest) = assign_at(alloc, bytes, inner, rest)?;
    let (_, end) = take(Class::ParenClose, rest)?;
    Ok((of, end))
}

/// An expression, or none.
#[tactic(auto, using(crate::proofs::Rows::maybe_expr_row))]
pub(crate) fn maybe_expr_at<'a>(
    alloc: Global,
    bytes: &[u8],
    depth: usize,
    tokens: &'a [Token],
) -> Result<(Option<Expr>, &'a [Token]), Fault>
    requires { depth ≤ 200 }
    ensures value { Gives (λ e. Made (OfMaybe e)) result (read bytes.now MaybeExpr depth tokens.now) }
    ensures no_longer { IfOk result (λ x. length x.1.now ≤ length tokens.now) }
{
    if !is_one_of(&EXPR_FIRST, class_at(tokens)) {
        return Ok((None, tokens));
    }
    let (expr, rest) = assign_at(alloc, bytes, depth, tokens)?;
    Ok((Some(expr.expr), rest))
}
