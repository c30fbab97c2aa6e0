//! Clauses (ACSL manual: function contracts, loop annotations, assertions).

ghost use Rattle.std.specs.Prelude.{◌≡◌, ◌≤◌, ◌<◌, ◌&&◌, IfOk, length, ◌∷◌, []};
ghost use Rattle.grammar_forms.specs.Forms.{Made};
ghost use Rattle.acsl_read.specs.declared.class.Class.TheVariants as C;
ghost use Rattle.acsl_read.specs.Classes.{same_class, class_at};
ghost use Rattle.acsl_read.specs.Table as R;
ghost use Rattle.acsl_read.specs.Trees.{OfCaptioned, OfIndex, OfLoc, OfLocs, OfEnded, OfStated, locs_in};
ghost use Rattle.acsl_read.specs.inner.Outcome.{Gives, Goes, read};

use crate::build::stated;
use crate::class::{Class, class_at, class_of, is, is_one_of};
use crate::formula::{NAMES, formula_at};
use crate::look::{deeper, take, take_one};
use crate::part::{Captioned, Ended, Stated};
use crate::place::{ident_of, name_at, spot_of};
use crate::word::{clause_kind, loop_kind};
use c_ast::{ClauseBody, Loc, LocIndex, Locs};
use c_lex::Token;
use c_parse::Fault;
use sqlite_items::Items;
use std::alloc::Global;

const CONDITIONS: [Class; 2] = [Class::Requires, Class::Ensures];

/// Whether what was read is a label.
fn goes_on(bytes: &[u8], is_name: bool, tokens: &[Token]) -> bool
    ensures { result ≡ (is_name && same_class (class_at bytes.now tokens.now) C.Colon) }
{
    is_name && is(bytes, tokens, Class::Colon)
}

/// A term or a predicate, with a label or without.
#[tactic(auto, using(crate::proofs::Rows::labelled_row))]
fn labelled_at<'a>(
    alloc: Global,
    bytes: &[u8],
    depth: usize,
    tokens: &'a [Token],
) -> Result<(Captioned, &'a [Token]), Fault>
    requires { depth ≤ 200 }
    ensures value { Gives (λ c. Made (OfCaptioned c)) result (read bytes.now R.Labelled depth tokens.now) }
    ensures shorter { IfOk result (λ x. length x.1.now < length tokens.now) }
{
    let (first, rest) = formula_at(alloc, bytes, depth, tokens)?;
    if !goes_on(bytes, first.is_name, rest) {
        let captioned = Captioned {
            label: None,
            formula: first.formula,
        };
        return Ok((captioned, rest));
    }
    let (_, rest) = take(bytes, Class::Colon, rest)?;
    let (of, end) = formula_at(alloc, bytes, depth, rest)?;
    let captioned = Captioned {
        label: Some(name_at(alloc, bytes, first.place)?),
        formula: of.formula,
    };
    Ok((captioned, end))
}

/// What stands between the brackets of a place.
#[tactic(auto, using(crate::proofs::Rows::within_row))]
fn within_at<'a>(
    alloc: Global,
    bytes: &[u8],
    depth: usize,
    tokens: &'a [Token],
) -> Result<(LocIndex, &'a [Token]), Fault>
    requires { depth ≤ 200 }
    ensures value { Gives (λ i. Made (OfIndex i)) result (read bytes.now R.Within depth tokens.now) }
    ensures shorter { IfOk result (λ x. length x.1.now < length tokens.now) }
{
    if is(bytes, tokens, Class::DotDot) {
        let (_, end) = take(bytes, Class::DotDot, tokens)?;
        return Ok((LocIndex::Whole, end));
    }
    let (from, rest) = formula_at(alloc, bytes, depth, tokens)?;
    if !is(bytes, rest, Class::DotDot) {
        return Ok((LocIndex::One(from.formula), rest));
    }
    let (_, rest) = take(bytes, Class::DotDot, rest)?;
    let (to, end) = formula_at(alloc, bytes, depth, rest)?;
    Ok((LocIndex::Range(from.formula, to.formula), end))
}

/// The brackets of a place, if there are any.
#[tactic(auto, using(crate::proofs::Rows::place_index_row))]
fn place_index_at<'a>(
    alloc: Global,
    bytes: &[u8],
    depth: usize,
    tokens: &'a [Token],
) -> Result<(LocIndex, &'a [Token]), Fault>
    requires { depth ≤ 200 }
    ensures value { Gives (λ i. Made (OfIndex i)) result (read bytes.now R.PlaceIndex depth tokens.now) }
    ensures no_longer { IfOk result (λ x. length x.1.now ≤ length tokens.now) }
{
    if !is(bytes, tokens, Class::BracketOpen) {
        return Ok((LocIndex::Nothing, tokens));
    }
    let (_, rest) = take(bytes, Class::BracketOpen, tokens)?;
    let inner = deeper(depth, tokens)?;
    let (index, rest) = within_at(alloc, bytes, inner, rest)?;
    let (_, end) = take(bytes, Class::BracketClose, rest)?;
    Ok((index, end))
}

/// A place that may be assigned.
#[tactic(auto, using(crate::proofs::Rows::place_row))]
fn place_at<'a>(
    alloc: Global,
    bytes: &[u8],
    depth: usize,
    tokens: &'a [Token],
) -> Result<(Loc, &'a [Token]), Fault>
    requires { depth ≤ 200 }
    ensures value { Gives (λ l. Made (OfLoc l)) result (read bytes.now R.Place depth tokens.now) }
    ensures shorter { IfOk result (λ x. length x.1.now < length tokens.now) }
{
    let (name, rest) = take_one(bytes, &NAMES, tokens)?;
    let (index, end) = place_index_at(alloc, bytes, depth, rest)?;
    let loc = Loc {
        name: ident_of(alloc, bytes, name)?,
        index,
    };
    Ok((loc, end))
}

/// One more place, if there is a comma.
#[tactic(auto, using(crate::proofs::Rows::more_places_row, crate::proofs::Loops::fuse))]
fn next_place<'a>(
    alloc: Global,
    bytes: &[u8],
    depth: usize,
    tokens: &'a [Token],
) -> Result<Option<(Loc, &'a [Token])>, Fault>
    requires { depth ≤ 200 }
    ensures { Goes (Made (OfLocs [])) (λ l v. Made (OfLocs (l ∷ locs_in v))) (read bytes.now R.MorePlaces depth) tokens.now result }
{
    if !is(bytes, tokens, Class::Comma) {
        return Ok(None);
    }
    let (_, rest) = take(bytes, Class::Comma, tokens)?;
    let (loc, end) = place_at(alloc, bytes, depth, rest)?;
    Ok(Some((loc, end)))
}

/// Places, or `\nothing`.
#[tactic(auto, using(crate::proofs::Rows::places_row, crate::proofs::Loops::locs_more, crate::proofs::Loops::fails_whole))]
fn places_at<'a>(
    alloc: Global,
    bytes: &[u8],
    depth: usize,
    tokens: &'a [Token],
) -> Result<(Locs, &'a [Token]), Fault>
    requires { depth ≤ 200 }
    ensures value { Gives (λ ls. Made (OfLocs ls)) result (read bytes.now R.Places depth tokens.now) }
    ensures shorter { IfOk result (λ x. length x.1.now < length tokens.now) }
{
    let mut found = Items::new(alloc);
    if is(bytes, tokens, Class::Nothing) {
        let (_, end) = take(bytes, Class::Nothing, tokens)?;
        return Ok((found, end));
    }
    let (first, mut rest) = place_at(alloc, bytes, depth, tokens)?;
    found.push(first)?;
    'adding: loop {
        match next_place(alloc, bytes, depth, rest) {
            Ok(Some((loc, end))) => {
                found.push(loc)?;
                rest = end;
            }
            Ok(None) => return Ok((found, rest)),
            Err(fault) => return Err(fault),
        }
    }
}

/// What a clause says, up to its semicolon.
#[tactic(auto, using(crate::proofs::Rows::said_row))]
pub(crate) fn said_at<'a>(
    alloc: Global,
    bytes: &[u8],
    depth: usize,
    tokens: &'a [Token],
) -> Result<(Ended, &'a [Token]), Fault>
    requires { depth ≤ 200 }
    ensures value { Gives (λ e. Made (OfEnded e)) result (read bytes.now R.Said depth tokens.now) }
    ensures shorter { IfOk result (λ x. length x.1.now < length tokens.now) }
{
    let (said, rest) = labelled_at(alloc, bytes, depth, tokens)?;
    let (semicolon, end) = take(bytes, Class::Semicolon, rest)?;
    let ended = Ended {
        label: said.label,
        body: ClauseBody::Says(said.formula),
        end: spot_of(semicolon),
    };
    Ok((ended, end))
}

/// The places of a clause, up to its semicolon.
#[tactic(auto, using(crate::proofs::Rows::assigned_row))]
fn assigned_at<'a>(
    alloc: Global,
    bytes: &[u8],
    depth: usize,
    tokens: &'a [Token],
) -> Result<(Ended, &'a [Token]), Fault>
    requires { depth ≤ 200 }
    ensures value { Gives (λ e. Made (OfEnded e)) result (read bytes.now R.Assigned depth tokens.now) }
    ensures shorter { IfOk result (λ x. length x.1.now < length tokens.now) }
{
    let (places, rest) = places_at(alloc, bytes, depth, tokens)?;
    let (semicolon, end) = take(bytes, Class::Semicolon, rest)?;
    let ended = Ended {
        label: None,
        body: ClauseBody::Places(places),
        end: spot_of(semicolon),
    };
    Ok((ended, end))
}

/// A clause of a contract.
#[tactic(auto, using(crate::proofs::Rows::contract_clause_row))]
pub(crate) fn contract_clause_at<'a>(
    alloc: Global,
    bytes: &[u8],
    depth: usize,
    tokens: &'a [Token],
) -> Result<(Stated, &'a [Token]), Fault>
    requires { depth ≤ 200 }
    ensures value { Gives (λ s. Made (OfStated s)) result (read bytes.now R.ContractClause depth tokens.now) }
    ensures shorter { IfOk result (λ x. length x.1.now < length tokens.now) }
{
    if is_one_of(&CONDITIONS, class_at(bytes, tokens)) {
        let (word, rest) = take_one(bytes, &CONDITIONS, tokens)?;
        let (ended, end) = said_at(alloc, bytes, depth, rest)?;
        return Ok((stated(clause_kind(class_of(bytes, word)), word, ended), end));
    }
    let (word, rest) = take(bytes, Class::Assigns, tokens)?;
    let (ended, end) = assigned_at(alloc, bytes, depth, rest)?;
    Ok((stated(clause_kind(class_of(bytes, word)), word, ended), end))
}

/// A clause of a loop.
#[tactic(auto, using(crate::proofs::Rows::loop_clause_row))]
pub(crate) fn loop_clause_at<'a>(
    alloc: Global,
    bytes: &[u8],
    depth: usize,
    tokens: &'a [Token],
) -> Result<(Stated, &'a [Token]), Fault>
    requires { depth ≤ 200 }
    ensures value { Gives (λ s. Made (OfStated s)) result (read bytes.now R.LoopClause depth tokens.now) }
    ensures shorter { IfOk result (λ x. length x.1.now < length tokens.now) }
{
    let (first, rest) = take(bytes, Class::Loop, tokens)?;
    if is(bytes, rest, Class::Invariant) {
        let (word, rest) = take(bytes, Class::Invariant, rest)?;
        let (ended, end) = said_at(alloc, bytes, depth, rest)?;
        return Ok((stated(loop_kind(class_of(bytes, word)), first, ended), end));
    }
    let (word, rest) = take(bytes, Class::Assigns, rest)?;
    let (ended, end) = assigned_at(alloc, bytes, depth, rest)?;
    Ok((stated(loop_kind(class_of(bytes, word)), first, ended), end))
}
