//! What is seen of a formula before it is bound.

ghost use Rattle.std.specs.Prelude.{◌≡◌, ◌+◌, ◌<◌, [], ◌∷◌, None, IfSome, MatchOption, map};
ghost use Rattle.std.specs.Option.{option_map};
ghost use Rattle.acsl_terms.specs.Meaning as meant;
ghost use Rattle.acsl_terms.specs.Meaning.{meaning, linked, part_of};
ghost use Rattle.acsl_terms.specs.inner.Nodes.{nodes};
ghost use Rattle.acsl_terms.specs.inner.Ranges as ranges;

use c_ast::{Formula, Link};
use fc_base::{Name, NoteOp, Relation};

/// Where a formula begins.
pub(crate) fn place_of(f: &Formula) -> u32
    ensures { result ≡ (part_of f.now).at }
{
    match f {
        Formula::Name(name) => name.at.span.from,
        Formula::Number { at, .. }
        | Formula::Index { at, .. }
        | Formula::Result { at }
        | Formula::Old { at, .. }
        | Formula::True { at }
        | Formula::False { at }
        | Formula::Neg { at, .. }
        | Formula::Not { at, .. }
        | Formula::Binary { at, .. }
        | Formula::Chain { at, .. }
        | Formula::Forall { at, .. } => at.span.from,
    }
}

/// Whether an operator is one of arithmetic.
pub(crate) fn is_arithmetic(op: NoteOp) -> bool
    ensures { result ≡ meant.is_arithmetic op }
{
    match op {
        NoteOp::Iff | NoteOp::Implies | NoteOp::Or | NoteOp::And => false,
        NoteOp::Add | NoteOp::Sub | NoteOp::Mul | NoteOp::Div | NoteOp::Rem => true,
    }
}

/// Whether a formula is a term.
pub(crate) fn is_term(f: &Formula) -> bool
    ensures { result ≡ (part_of f.now).is_term }
{
    match f {
        Formula::Number { .. }
        | Formula::Name(_)
        | Formula::Index { .. }
        | Formula::Result { .. }
        | Formula::Neg { .. } => true,
        Formula::True { .. }
        | Formula::False { .. }
        | Formula::Not { .. }
        | Formula::Chain { .. }
        | Formula::Forall { .. } => false,
        Formula::Old { of, .. } => is_term(of.get()),
        Formula::Binary { op, .. } => is_arithmetic(*op),
    }
}

/// Whether a formula is the name.
fn is_name(name: &Name, f: &Formula) -> bool
    ensures { result ≡ meant.is_named name.now (part_of f.now).name }
{
    match f {
        Formula::Name(x) => name.as_str() == x.name.as_str(),
        _ => false,
    }
}

/// Whether a name stands anywhere in a formula.
#[cycle(has)]
fn has(name: &Name, f: &Formula) -> bool
    ensures { result ≡ (part_of f.now).has name.now }
{
    match f {
        Formula::Number { .. }
        | Formula::Result { .. }
        | Formula::True { .. }
        | Formula::False { .. } => false,
        Formula::Name(x) => name.as_str() == x.name.as_str(),
        Formula::Index { of, index, .. } => {
            name.as_str() == of.name.as_str() || has(name, index.get())
        }
        Formula::Old { of, .. } | Formula::Neg { of, .. } | Formula::Not { of, .. } => {
            has(name, of.get())
        }
        Formula::Binary { left, right, .. } => has(name, left.get()) || has(name, right.get()),
        Formula::Chain { first, rest, .. } => {
            has(name, first.get()) || links_have(name, rest.as_slice())
        }
        Formula::Forall { name: x, body, .. } => {
            name.as_str() == x.name.as_str() || has(name, body.get())
        }
    }
}

/// Whether a name stands anywhere to the right of these relations.
#[cycle(has)]
fn links_have(name: &Name, links: &[Link]) -> bool
    ensures { result ≡ meant.links_have (map linked links.now) name.now }
{
    for link in links {
        if has(name, &link.right) {
            return true;
        }
    }
    false
}

/// `low left middle right high`
#[derive(Clone, Copy)]
pub(crate) struct Range<'a> {
    pub(crate) low: &'a Formula,
    pub(crate) left: Relation,
    pub(crate) middle: &'a Formula,
    pub(crate) right: Relation,
    pub(crate) high: &'a Formula,
}

/// The two links of a chain that has two.
fn two(links: &[Link]) -> Option<(&Link, &Link)>
    ensures value { MatchOption result ((low : meant.Part) → meant.between_of low (map linked links.now) ≡ None) (λ p. links.now ≡ p.0.now ∷ p.1.now ∷ []) }
{
    let (first, rest) = links.split_first()?;
    let (second, more) = rest.split_first()?;
    if more.is_empty() {
        Some((first, second))
    } else {
        None
    }
}

/// The parts of a chain of two relations.
fn between(f: &Formula) -> Option<Range<'_>>
    ensures value { option_map ranges.between result ≡ (meaning f.now).between }
    ensures smaller { IfSome result (λ r. nodes r.low.now + nodes r.high.now < nodes f.now) }
{
    let Formula::Chain { first, rest, .. } = f else {
        return None;
    };
    let (middle, high) = two(rest.as_slice())?;
    Some(Range {
        low: first.get(),
        left: middle.relation,
        middle: &middle.right,
        right: high.relation,
        high: &high.right,
    })
}

/// Whether a relation can be that of a bound.
fn is_limit(relation: Relation) -> bool
    ensures { result ≡ meant.is_limit relation }
{
    matches!(relation, Relation::Less | Relation::LessEq)
}

/// Whether a bound isn't within the range.
pub(crate) fn is_strict(relation: Relation) -> bool
    ensures { result ≡ meant.is_strict relation }
{
    matches!(relation, Relation::Less)
}

impl Range<'_> {
    /// Whether it gives the name its bounds.
    fn is_of(&self, name: &Name) -> bool
        ensures { result ≡ meant.is_range name.now (ranges.between self.now) }
    {
        is_limit(self.left)
            && is_limit(self.right)
            && is_name(name, self.middle)
            && !has(name, self.low)
            && !has(name, self.high)
    }
}

/// The bounds that a body gives the name that its `\forall` binds, with what it says of the name.
pub(crate) fn range_of<'a>(name: &Name, body: &'a Formula) -> Option<(Range<'a>, &'a Formula)>
    ensures value { option_map (λ p. ranges.guarded p.0 p.1.now) result ≡ meant.range_of name.now (meaning body.now).guarded }
    ensures smaller { IfSome result (λ p. nodes p.0.low.now + nodes p.0.high.now + nodes p.1.now < nodes body.now) }
{
    let Formula::Binary {
        op: NoteOp::Implies,
        left,
        right,
        ..
    } = body
    else {
        return None;
    };
    let range = between(left.get())?;
    if range.is_of(name) {
        Some((range, right.get()))
    } else {
        None
    }
}
