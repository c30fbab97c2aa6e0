//! Terms and predicates (ACSL manual, terms and predicates).

ghost use Rattle.std.specs.Prelude.{◌≡◌, ◌≤◌, ◌<◌, IfOk, length, ◌∷◌, []};
ghost use Rattle.grammar_forms.specs.Forms.{Made};
ghost use Rattle.acsl_read.specs.declared.level.Level.TheVariants as L;
ghost use Rattle.acsl_read.specs.Table as R;
ghost use Rattle.acsl_read.specs.Table.{operand};
ghost use Rattle.acsl_read.specs.Trees.{OfPart, OfJoins, OfToken, joins_in};
ghost use Rattle.acsl_read.specs.inner.Outcome.{Gives, Goes, Links, read};

use crate::build::{
    chained, enclosed, forall_part, indexed, join, link_of, named, old_part, prefix_part, whole,
};
use crate::class::{Class, class_at, class_of, is, is_one_of};
use crate::level::{Direction, Level, Side};
use crate::look::{deeper, take, take_one};
use crate::part::Part;
use crate::place::spot_of;
use crate::word::{number, word_formula};
use c_lex::Token;
use c_parse::Fault;
use sqlite_items::Items;
use std::alloc::Global;

/// The words that are names where a name is needed.
pub(crate) const NAMES: [Class; 10] = [
    Class::Name,
    Class::Requires,
    Class::Ensures,
    Class::Assigns,
    Class::Loop,
    Class::Invariant,
    Class::Assert,
    Class::Check,
    Class::Admit,
    Class::Integer,
];

const QUANTIFIED_FIRST: [Class; 2] = [Class::BangForall, Class::Forall];

const ATOM_WORDS: [Class; 3] = [Class::Result, Class::True, Class::False];

const ATOM_FIRST: [Class; 4] = [Class::Constant, Class::Result, Class::True, Class::False];

const FORMULA_FIRST: [Class; 20] = [
    Class::BangForall,
    Class::Forall,
    Class::Minus,
    Class::Bang,
    Class::Name,
    Class::Requires,
    Class::Ensures,
    Class::Assigns,
    Class::Loop,
    Class::Invariant,
    Class::Assert,
    Class::Check,
    Class::Admit,
    Class::Integer,
    Class::Constant,
    Class::Result,
    Class::True,
    Class::False,
    Class::Old,
    Class::ParenOpen,
];

/// A term or a predicate.
pub(crate) fn formula_at<'a>(
    alloc: Global,
    bytes: &[u8],
    depth: usize,
    tokens: &'a [Token],
) -> Result<(Part, &'a [Token]), Fault>
    requires { depth ≤ 200 }
    ensures value { Gives (λ p. Made (OfPart p)) result (read bytes.now (R.Binary L.Iff) depth tokens.now) }
    ensures shorter { IfOk result (λ x. length x.1.now < length tokens.now) }
{
    binary_at(alloc, bytes, Level::Iff, depth, tokens)
}

/// An operand of a level.
#[cycle(formula)]
#[tactic(auto, using(crate::proofs::Ranks::operand_lower))]
fn operand_at<'a>(
    alloc: Global,
    bytes: &[u8],
    level: Level,
    depth: usize,
    tokens: &'a [Token],
) -> Result<(Part, &'a [Token]), Fault>
    requires { depth ≤ 200 }
    ensures value { Gives (λ p. Made (OfPart p)) result (read bytes.now (operand level) depth tokens.now) }
    ensures shorter { IfOk result (λ x. length x.1.now < length tokens.now) }
{
    match level {
        Level::Iff => implication_at(alloc, bytes, depth, tokens),
        Level::Or => binary_at(alloc, bytes, Level::And, depth, tokens),
        Level::And => conjunct_at(alloc, bytes, depth, tokens),
        Level::Sum(side) => binary_at(alloc, bytes, Level::Product(side), depth, tokens),
        Level::Product(side) => factor_at(alloc, bytes, side, depth, tokens),
    }
}

/// An operator of the level with the operand after it, if there is one.
#[cycle(formula)]
#[tactic(auto, using(crate::proofs::Rows::more_row, crate::proofs::Ranks::level_low, crate::proofs::Loops::fuse))]
fn join_at<'a>(
    alloc: Global,
    bytes: &[u8],
    level: Level,
    depth: usize,
    tokens: &'a [Token],
) -> Result<Option<((Token, Part), &'a [Token])>, Fault>
    requires { depth ≤ 200 }
    ensures { Goes (Made (OfJoins [])) (λ j v. Made (OfJoins (j ∷ joins_in v))) (read bytes.now (R.More level) depth) tokens.now result }
{
    if !is_one_of(level.classes(), class_at(bytes, tokens)) {
        return Ok(None);
    }
    let (op, rest) = take_one(bytes, level.classes(), tokens)?;
    let (right, end) = operand_at(alloc, bytes, level, depth, rest)?;
    Ok(Some(((op, right), end)))
}

/// The operands of a level, joined from left to right.
#[cycle(formula)]
#[tactic(auto, using(crate::proofs::Loops::binary_begins, crate::proofs::Loops::binary_fails, crate::proofs::Loops::joins_more, crate::proofs::Loops::fails_whole, crate::proofs::Ranks::operand_lower))]
fn binary_at<'a>(
    alloc: Global,
    bytes: &[u8],
    level: Level,
    depth: usize,
    tokens: &'a [Token],
) -> Result<(Part, &'a [Token]), Fault>
    requires { depth ≤ 200 }
    ensures value { Gives (λ p. Made (OfPart p)) result (read bytes.now (R.Binary level) depth tokens.now) }
    ensures shorter { IfOk result (λ x. length x.1.now < length tokens.now) }
{
    let (mut left, mut rest) = operand_at(alloc, bytes, level, depth, tokens)?;
    'joining: loop {
        match join_at(alloc, bytes, level.inner(), depth, rest) {
            Ok(Some((found, end))) => {
                let (op, right) = found;
                left = join(alloc, left, op, right)?;
                rest = end;
            }
            Ok(None) => return Ok((left, rest)),
            Err(fault) => return Err(fault),
        }
    }
}

/// Operands of `==>`, joined from right to left.
#[cycle(formula)]
#[tactic(auto, using(crate::proofs::Rows::implication_row))]
fn implication_at<'a>(
    alloc: Global,
    bytes: &[u8],
    depth: usize,
    tokens: &'a [Token],
) -> Result<(Part, &'a [Token]), Fault>
    requires { depth ≤ 200 }
    ensures value { Gives (λ p. Made (OfPart p)) result (read bytes.now R.Implication depth tokens.now) }
    ensures shorter { IfOk result (λ x. length x.1.now < length tokens.now) }
{
    let (left, rest) = binary_at(alloc, bytes, Level::Or, depth, tokens)?;
    if !is(bytes, rest, Class::Implies) {
        return Ok((left, rest));
    }
    let (op, rest) = take(bytes, Class::Implies, rest)?;
    let (right, end) = implication_at(alloc, bytes, depth, rest)?;
    Ok((join(alloc, left, op, right)?, end))
}

/// An operand of `&&`.
#[cycle(formula)]
#[tactic(auto, using(crate::proofs::Rows::conjunct_row))]
fn conjunct_at<'a>(
    alloc: Global,
    bytes: &[u8],
    depth: usize,
    tokens: &'a [Token],
) -> Result<(Part, &'a [Token]), Fault>
    requires { depth ≤ 200 }
    ensures value { Gives (λ p. Made (OfPart p)) result (read bytes.now R.Conjunct depth tokens.now) }
    ensures shorter { IfOk result (λ x. length x.1.now < length tokens.now) }
{
    if is_one_of(&QUANTIFIED_FIRST, class_at(bytes, tokens)) {
        return quantified_at(alloc, bytes, depth, tokens);
    }
    relations_at(alloc, bytes, depth, tokens)
}

/// A quantifier, with a run of `!` before it.
#[cycle(formula)]
#[tactic(auto, using(crate::proofs::Rows::quantified_row))]
fn quantified_at<'a>(
    alloc: Global,
    bytes: &[u8],
    depth: usize,
    tokens: &'a [Token],
) -> Result<(Part, &'a [Token]), Fault>
    requires { depth ≤ 200 }
    ensures value { Gives (λ p. Made (OfPart p)) result (read bytes.now R.Quantified depth tokens.now) }
    ensures shorter { IfOk result (λ x. length x.1.now < length tokens.now) }
{
    if is(bytes, tokens, Class::BangForall) {
        let (op, rest) = take(bytes, Class::BangForall, tokens)?;
        let inner = deeper(depth, tokens)?;
        let (of, end) = quantified_at(alloc, bytes, inner, rest)?;
        return Ok((prefix_part(alloc, op, of)?, end));
    }
    let (first, rest) = take(bytes, Class::Forall, tokens)?;
    let (name, rest) = bound_at(bytes, depth, rest)?;
    if !is_one_of(&FORMULA_FIRST, class_at(bytes, rest)) {
        return Err(Fault::Unexpected(rest.len()));
    }
    let inner = deeper(depth, rest)?;
    let (body, end) = binary_at(alloc, bytes, Level::Iff, inner, rest)?;
    Ok((forall_part(alloc, bytes, first, name, body)?, end))
}

/// The type and the name of a quantifier, up to its body.
#[tactic(auto, using(crate::proofs::Rows::bound_row))]
fn bound_at<'a>(
    bytes: &[u8],
    depth: usize,
    tokens: &'a [Token],
) -> Result<(Token, &'a [Token]), Fault>
    ensures value { Gives (λ t. Made (OfToken t)) result (read bytes.now R.Bound depth tokens.now) }
    ensures shorter { IfOk result (λ x. length x.1.now < length tokens.now) }
{
    let (_, rest) = take(bytes, Class::Integer, tokens)?;
    let (name, rest) = take_one(bytes, &NAMES, rest)?;
    let (_, end) = take(bytes, Class::Semicolon, rest)?;
    Ok((name, end))
}

/// Operands of relations, as a chain.
#[cycle(formula)]
#[tactic(auto, using(crate::proofs::Loops::relations_begin, crate::proofs::Loops::relations_fail, crate::proofs::Loops::links_more, crate::proofs::Loops::fails_whole))]
fn relations_at<'a>(
    alloc: Global,
    bytes: &[u8],
    depth: usize,
    tokens: &'a [Token],
) -> Result<(Part, &'a [Token]), Fault>
    requires { depth ≤ 200 }
    ensures value { Gives (λ p. Made (OfPart p)) result (read bytes.now R.Relations depth tokens.now) }
    ensures shorter { IfOk result (λ x. length x.1.now < length tokens.now) }
{
    let (first, mut rest) = binary_at(alloc, bytes, Level::Sum(Side::Lead), depth, tokens)?;
    let mut end = first.place;
    let mut links = Items::new(alloc);
    let mut direction = Direction::Open;
    'linking: loop {
        match link_at(alloc, bytes, direction, depth, rest) {
            Ok(Some((found, behind))) => {
                let ((op, right), next) = found;
                end = right.place;
                links.push(link_of(op, right))?;
                direction = next;
                rest = behind;
            }
            Ok(None) => return Ok((chained(alloc, first, end, links)?, rest)),
            Err(fault) => return Err(fault),
        }
    }
}

/// A relation that may follow in a chain with the operand after it, if there is one, and the direction
/// after it.
#[cycle(formula)]
#[tactic(auto, using(crate::proofs::Chains::no_link, crate::proofs::Chains::link_missing))]
fn link_at<'a>(
    alloc: Global,
    bytes: &[u8],
    direction: Direction,
    depth: usize,
    tokens: &'a [Token],
) -> Result<Option<(((Token, Part), Direction), &'a [Token])>, Fault>
    requires { depth ≤ 200 }
    ensures { Links (Made (OfJoins [])) (λ j v. Made (OfJoins (j ∷ joins_in v))) (λ d. read bytes.now (R.Links d) depth) direction tokens.now result }
{
    let class = class_at(bytes, tokens);
    let Some(next) = direction.turn(class) else {
        return Ok(None);
    };
    let (op, rest) = take(bytes, class, tokens)?;
    match binary_at(alloc, bytes, Level::Sum(Side::Inner), depth, rest) {
        Ok((right, end)) => Ok(Some((((op, right), next), end))),
        Err(fault) => Err(fault),
    }
}

/// An operand of `*`, with the operators before it.
#[cycle(formula)]
#[tactic(auto, using(crate::proofs::Rows::factor_row))]
fn factor_at<'a>(
    alloc: Global,
    bytes: &[u8],
    side: Side,
    depth: usize,
    tokens: &'a [Token],
) -> Result<(Part, &'a [Token]), Fault>
    requires { depth ≤ 200 }
    ensures value { Gives (λ p. Made (OfPart p)) result (read bytes.now (R.Factor side) depth tokens.now) }
    ensures shorter { IfOk result (λ x. length x.1.now < length tokens.now) }
{
    if is_one_of(side.prefixes(), class_at(bytes, tokens)) {
        let (op, rest) = take_one(bytes, side.prefixes(), tokens)?;
        let inner = deeper(depth, tokens)?;
        let (of, end) = factor_at(alloc, bytes, Side::Inner, inner, rest)?;
        return Ok((prefix_part(alloc, op, of)?, end));
    }
    primary_at(alloc, bytes, depth, tokens)
}

/// A name, a constant, a word of its own, `\old` or a formula in parentheses.
#[cycle(formula)]
#[tactic(auto, using(crate::proofs::Rows::primary_row))]
fn primary_at<'a>(
    alloc: Global,
    bytes: &[u8],
    depth: usize,
    tokens: &'a [Token],
) -> Result<(Part, &'a [Token]), Fault>
    requires { depth ≤ 200 }
    ensures value { Gives (λ p. Made (OfPart p)) result (read bytes.now R.Primary depth tokens.now) }
    ensures shorter { IfOk result (λ x. length x.1.now < length tokens.now) }
{
    if is_one_of(&NAMES, class_at(bytes, tokens)) {
        return variable_at(alloc, bytes, depth, tokens);
    }
    if is_one_of(&ATOM_FIRST, class_at(bytes, tokens)) {
        return atom_at(bytes, depth, tokens);
    }
    if is(bytes, tokens, Class::Old) {
        return old_at(alloc, bytes, depth, tokens);
    }
    parens_at(alloc, bytes, depth, tokens)
}

/// A name, with an index or without.
#[cycle(formula)]
#[tactic(auto, using(crate::proofs::Rows::variable_row))]
fn variable_at<'a>(
    alloc: Global,
    bytes: &[u8],
    depth: usize,
    tokens: &'a [Token],
) -> Result<(Part, &'a [Token]), Fault>
    requires { depth ≤ 200 }
    ensures value { Gives (λ p. Made (OfPart p)) result (read bytes.now R.Variable depth tokens.now) }
    ensures shorter { IfOk result (λ x. length x.1.now < length tokens.now) }
{
    let (name, behind) = take_one(bytes, &NAMES, tokens)?;
    if !is(bytes, behind, Class::BracketOpen) {
        return Ok((named(alloc, bytes, name)?, behind));
    }
    let (_, rest) = take(bytes, Class::BracketOpen, behind)?;
    let inner = deeper(depth, behind)?;
    let (index, rest) = binary_at(alloc, bytes, Level::Iff, inner, rest)?;
    let (closing, end) = take(bytes, Class::BracketClose, rest)?;
    Ok((indexed(alloc, bytes, name, index, closing)?, end))
}

/// A constant or a word of its own.
#[tactic(auto, using(crate::proofs::Rows::atom_row))]
fn atom_at<'a>(
    bytes: &[u8],
    depth: usize,
    tokens: &'a [Token],
) -> Result<(Part, &'a [Token]), Fault>
    ensures value { Gives (λ p. Made (OfPart p)) result (read bytes.now R.Atom depth tokens.now) }
    ensures shorter { IfOk result (λ x. length x.1.now < length tokens.now) }
{
    if is(bytes, tokens, Class::Constant) {
        let (constant, rest) = take(bytes, Class::Constant, tokens)?;
        let at = spot_of(constant);
        return Ok((whole(number(constant.kind, at), at), rest));
    }
    let (word, rest) = take_one(bytes, &ATOM_WORDS, tokens)?;
    let at = spot_of(word);
    Ok((whole(word_formula(class_of(bytes, word), at), at), rest))
}

/// `\old` and its operand.
#[cycle(formula)]
#[tactic(auto, using(crate::proofs::Rows::old_row))]
fn old_at<'a>(
    alloc: Global,
    bytes: &[u8],
    depth: usize,
    tokens: &'a [Token],
) -> Result<(Part, &'a [Token]), Fault>
    requires { depth ≤ 200 }
    ensures value { Gives (λ p. Made (OfPart p)) result (read bytes.now R.Old depth tokens.now) }
    ensures shorter { IfOk result (λ x. length x.1.now < length tokens.now) }
{
    let (first, rest) = take(bytes, Class::Old, tokens)?;
    let (of, end) = parens_at(alloc, bytes, depth, rest)?;
    Ok((old_part(alloc, first, of)?, end))
}

/// A term or a predicate in parentheses.
#[cycle(formula)]
#[tactic(auto, using(crate::proofs::Rows::parens_row))]
fn parens_at<'a>(
    alloc: Global,
    bytes: &[u8],
    depth: usize,
    tokens: &'a [Token],
) -> Result<(Part, &'a [Token]), Fault>
    requires { depth ≤ 200 }
    ensures value { Gives (λ p. Made (OfPart p)) result (read bytes.now R.Parens depth tokens.now) }
    ensures shorter { IfOk result (λ x. length x.1.now < length tokens.now) }
{
    let (opening, rest) = take(bytes, Class::ParenOpen, tokens)?;
    let inner = deeper(depth, tokens)?;
    let (of, rest) = binary_at(alloc, bytes, Level::Iff, inner, rest)?;
    let (closing, end) = take(bytes, Class::ParenClose, rest)?;
    Ok((enclosed(opening, of, closing), end))
}
