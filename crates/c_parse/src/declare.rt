//! Declarators (C11 6.7).

ghost use Rattle.std.specs.Prelude.{◌≡◌, ◌≤◌, ◌<◌, IfOk, length, ◌∷◌, []};
ghost use Rattle.grammar_forms.specs.Forms.{Made};
ghost use Rattle.c_parse.specs.Table as R;
ghost use Rattle.c_parse.specs.Trees.{OfName, OfBracketed, OfStarted, OfRest, OfDeclr, OfDeclrs, OfExprs, OfSpot, exprs_in, declrs_in};
ghost use Rattle.c_parse.specs.inner.Outcome.{Gives, Goes, read};

use crate::build::{declr_of, rest_of};
use crate::class::{Class, class_at, is, is_one_of};
use crate::expr::{COMMAS, EXPR_FIRST, assign_at, cond_at};
use crate::fault::Fault;
use crate::look::{deeper, take, take_one};
use crate::part::{Bracketed, DeclrRest, Started};
use crate::place::{ident_of, spot_of};
use c_ast::{Declr, Declrs, Expr, Exprs, Ident, Init, Length};
use c_lex::Token;
use fc_base::Spot;
use sqlite_items::Items;
use std::alloc::Global;

/// A name, if there is one.
#[tactic(auto, using(crate::proofs::Rows::maybe_name_row))]
pub(crate) fn maybe_name_at<'a>(
    alloc: Global,
    bytes: &[u8],
    depth: usize,
    tokens: &'a [Token],
) -> Result<(Option<Ident>, &'a [Token]), Fault>
    ensures value { Gives (λ n. Made (OfName n)) result (read bytes.now R.MaybeName depth tokens.now) }
    ensures no_longer { IfOk result (λ x. length x.1.now ≤ length tokens.now) }
{
    if !is(tokens, Class::Name) {
        return Ok((None, tokens));
    }
    let (name, rest) = take(Class::Name, tokens)?;
    Ok((Some(ident_of(alloc, bytes, name)?), rest))
}

/// The brackets of an array, if there are any.
#[tactic(auto, using(crate::proofs::Rows::array_length_row))]
fn length_at<'a>(
    alloc: Global,
    bytes: &[u8],
    depth: usize,
    tokens: &'a [Token],
) -> Result<(Bracketed, &'a [Token]), Fault>
    requires { depth ≤ 200 }
    ensures value { Gives (λ l. Made (OfBracketed l)) result (read bytes.now R.ArrayLength depth tokens.now) }
    ensures no_longer { IfOk result (λ x. length x.1.now ≤ length tokens.now) }
{
    if !is(tokens, Class::BracketOpen) {
        return Ok((
            Bracketed {
                length: Length::Scalar,
                end: None,
            },
            tokens,
        ));
    }
    let (_, rest) = take(Class::BracketOpen, tokens)?;
    let inner = deeper(depth, tokens)?;
    if !is_one_of(&EXPR_FIRST, class_at(rest)) {
        let (close, end) = take(Class::BracketClose, rest)?;
        return Ok((
            Bracketed {
                length: Length::Open,
                end: Some(spot_of(close)),
            },
            end,
        ));
    }
    let (length, rest) = cond_at(alloc, bytes, inner, rest)?;
    let (close, end) = take(Class::BracketClose, rest)?;
    Ok((
        Bracketed {
            length: Length::Of(length.expr),
            end: Some(spot_of(close)),
        },
        end,
    ))
}

/// One more value of a list in braces, if a comma comes before one.
#[tactic(auto, using(crate::proofs::Rows::more_values_row, crate::proofs::Loops::fuse))]
fn next_value<'a>(
    alloc: Global,
    bytes: &[u8],
    depth: usize,
    tokens: &'a [Token],
) -> Result<Option<(Expr, &'a [Token])>, Fault>
    requires { depth ≤ 200 }
    ensures { Goes (Made (OfExprs [])) (λ e v. Made (OfExprs (e ∷ exprs_in v))) (read bytes.now R.MoreValues depth) tokens.now result }
{
    if !is(tokens, Class::Comma) {
        return Ok(None);
    }
    let (_, rest) = take(Class::Comma, tokens)?;
    let (value, end) = assign_at(alloc, bytes, depth, rest)?;
    Ok(Some((value.expr, end)))
}

/// Further values of a list in braces.
#[tactic(auto, using(crate::proofs::Lists::more_values_begin, crate::proofs::Loops::args_more, crate::proofs::Loops::fails_whole))]
fn more_values_at<'a>(
    alloc: Global,
    bytes: &[u8],
    depth: usize,
    tokens: &'a [Token],
) -> Result<(Exprs, &'a [Token]), Fault>
    requires { depth ≤ 200 }
    ensures value { Gives (λ es. Made (OfExprs es)) result (read bytes.now R.MoreValues depth tokens.now) }
    ensures no_longer { IfOk result (λ x. length x.1.now ≤ length tokens.now) }
{
    let mut found = Items::new(alloc);
    let mut rest = tokens;
    'adding: loop {
        match next_value(alloc, bytes, depth, rest) {
            Ok(Some((value, end))) => {
                found.push(value)?;
                rest = end;
            }
            Ok(None) => return Ok((found, rest)),
            Err(fault) => return Err(fault),
        }
    }
}

/// The values of a list in braces.
#[tactic(auto, using(crate::proofs::Rows::values_row))]
fn values_at<'a>(
    alloc: Global,
    bytes: &[u8],
    depth: usize,
    tokens: &'a [Token],
) -> Result<(Exprs, &'a [Token]), Fault>
    requires { depth ≤ 200 }
    ensures value { Gives (λ es. Made (OfExprs es)) result (read bytes.now R.Values depth tokens.now) }
    ensures shorter { IfOk result (λ x. length x.1.now < length tokens.now) }
{
    let (first, rest) = assign_at(alloc, bytes, depth, tokens)?;
    let (more, end) = more_values_at(alloc, bytes, depth, rest)?;
    let mut values = Items::new(alloc);
    values.push(first.expr)?;
    values.append(more)?;
    Ok((values, end))
}

/// The end of a list in braces, with a comma before it or without.
#[tactic(auto, using(crate::proofs::Rows::brace_end_row))]
fn brace_end_at<'a>(
    bytes: &[u8],
    depth: usize,
    tokens: &'a [Token],
) -> Result<(Spot, &'a [Token]), Fault>
    ensures value { Gives (λ s. Made (OfSpot s)) result (read bytes.now R.BraceEnd depth tokens.now) }
    ensures shorter { IfOk result (λ x. length x.1.now < length tokens.now) }
{
    if is(tokens, Class::CommaLast) {
        let (_, rest) = take(Class::CommaLast, tokens)?;
        let (close, end) = take(Class::BraceClose, rest)?;
        return Ok((spot_of(close), end));
    }
    let (close, end) = take(Class::BraceClose, tokens)?;
    Ok((spot_of(close), end))
}

/// Values in braces.
#[tactic(auto, using(crate::proofs::Rows::braces_row))]
fn braces_at<'a>(
    alloc: Global,
    bytes: &[u8],
    depth: usize,
    tokens: &'a [Token],
) -> Result<(Started, &'a [Token]), Fault>
    requires { depth ≤ 200 }
    ensures value { Gives (λ i. Made (OfStarted i)) result (read bytes.now R.Braces depth tokens.now) }
    ensures shorter { IfOk result (λ x. length x.1.now < length tokens.now) }
{
    let (_, rest) = take(Class::BraceOpen, tokens)?;
    let (values, rest) = values_at(alloc, bytes, depth, rest)?;
    let (close, end) = brace_end_at(bytes, depth, rest)?;
    Ok((
        Started {
            value: Init::Many(values),
            end: Some(close),
        },
        end,
    ))
}

/// An initialiser, if there is one.
#[tactic(auto, using(crate::proofs::Rows::initialiser_row))]
fn initialiser_at<'a>(
    alloc: Global,
    bytes: &[u8],
    depth: usize,
    tokens: &'a [Token],
) -> Result<(Started, &'a [Token]), Fault>
    requires { depth ≤ 200 }
    ensures value { Gives (λ i. Made (OfStarted i)) result (read bytes.now R.Initialiser depth tokens.now) }
    ensures no_longer { IfOk result (λ x. length x.1.now ≤ length tokens.now) }
{
    if !is(tokens, Class::Equals) {
        return Ok((
            Started {
                value: Init::Nothing,
                end: None,
            },
            tokens,
        ));
    }
    let (_, rest) = take(Class::Equals, tokens)?;
    if is(rest, Class::BraceOpen) {
        let (values, end) = braces_at(alloc, bytes, depth, rest)?;
        return Ok((values, end));
    }
    let (value, end) = assign_at(alloc, bytes, depth, rest)?;
    Ok((
        Started {
            value: Init::One(value.expr),
            end: Some(value.place),
        },
        end,
    ))
}

/// What stands after a declarator's name.
#[tactic(auto, using(crate::proofs::Rows::declr_tail_row))]
pub(crate) fn declr_tail_at<'a>(
    alloc: Global,
    bytes: &[u8],
    depth: usize,
    tokens: &'a [Token],
) -> Result<(DeclrRest, &'a [Token]), Fault>
    requires { depth ≤ 200 }
    ensures value { Gives (λ r. Made (OfRest r)) result (read bytes.now R.DeclrTail depth tokens.now) }
    ensures no_longer { IfOk result (λ x. length x.1.now ≤ length tokens.now) }
{
    let (length, rest) = length_at(alloc, bytes, depth, tokens)?;
    let (value, end) = initialiser_at(alloc, bytes, depth, rest)?;
    Ok((rest_of(length, value), end))
}

/// A declarator.
#[tactic(auto, using(crate::proofs::Rows::declr_row))]
fn declr_at<'a>(
    alloc: Global,
    bytes: &[u8],
    depth: usize,
    tokens: &'a [Token],
) -> Result<(Declr, &'a [Token]), Fault>
    requires { depth ≤ 200 }
    ensures value { Gives (λ d. Made (OfDeclr d)) result (read bytes.now R.Declr depth tokens.now) }
    ensures shorter { IfOk result (λ x. length x.1.now < length tokens.now) }
{
    let (name, rest) = take(Class::Name, tokens)?;
    let (tail, end) = declr_tail_at(alloc, bytes, depth, rest)?;
    Ok((declr_of(alloc, bytes, name, tail)?, end))
}

/// One more declarator, if there is a comma.
#[tactic(auto, using(crate::proofs::Rows::more_declrs_row, crate::proofs::Loops::fuse))]
fn next_declr<'a>(
    alloc: Global,
    bytes: &[u8],
    depth: usize,
    tokens: &'a [Token],
) -> Result<Option<(Declr, &'a [Token])>, Fault>
    requires { depth ≤ 200 }
    ensures { Goes (Made (OfDeclrs [])) (λ d v. Made (OfDeclrs (d ∷ declrs_in v))) (read bytes.now R.MoreDeclrs depth) tokens.now result }
{
    if !is_one_of(&COMMAS, class_at(tokens)) {
        return Ok(None);
    }
    let (_, rest) = take_one(&COMMAS, tokens)?;
    let (declr, end) = declr_at(alloc, bytes, depth, rest)?;
    Ok(Some((declr, end)))
}

/// Further declarators.
#[tactic(auto, using(crate::proofs::Lists::more_declrs_begin, crate::proofs::Lists::declrs_more, crate::proofs::Loops::fails_whole))]
pub(crate) fn more_declrs_at<'a>(
    alloc: Global,
    bytes: &[u8],
    depth: usize,
    tokens: &'a [Token],
) -> Result<(Declrs, &'a [Token]), Fault>
    requires { depth ≤ 200 }
    ensures value { Gives (λ ds. Made (OfDeclrs ds)) result (read bytes.now R.MoreDeclrs depth tokens.now) }
    ensures no_longer { IfOk result (λ x. length x.1.now ≤ length tokens.now) }
{
    let mut found = Items::new(alloc);
    let mut rest = tokens;
    'adding: loop {
        match next_declr(alloc, bytes, depth, rest) {
            Ok(Some((declr, end))) => {
                found.push(declr)?;
                rest = end;
            }
            Ok(None) => return Ok((found, rest)),
            Err(fault) => return Err(fault),
        }
    }
}

/// Declarators.
#[tactic(auto, using(crate::proofs::Rows::declrs_row))]
pub(crate) fn declrs_at<'a>(
    alloc: Global,
    bytes: &[u8],
    depth: usize,
    tokens: &'a [Token],
) -> Result<(Declrs, &'a [Token]), Fault>
    requires { depth ≤ 200 }
    ensures value { Gives (λ ds. Made (OfDeclrs ds)) result (read bytes.now R.Declrs depth tokens.now) }
    ensures shorter { IfOk result (λ x. length x.1.now < length tokens.now) }
{
    let (first, rest) = declr_at(alloc, bytes, depth, tokens)?;
    let (more, end) = more_declrs_at(alloc, bytes, depth, rest)?;
    let mut declrs = Items::new(alloc);
    declrs.push(first)?;
    declrs.append(more)?;
    Ok((declrs, end))
}
