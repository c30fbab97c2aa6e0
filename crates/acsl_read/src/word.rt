//! What words and punctuators mean in a tree.

ghost use Rattle.std.specs.Prelude.{◌≡◌, IfOk};
ghost use Rattle.acsl_read.specs.Words.{punct_op, note_op, punct_relation, relation, prefixed, number, word_formula, clause_kind, loop_kind};

use crate::class::Class;
use c_ast::{ClauseKind, Formula};
use c_lex::{Punct, TokenKind};
use fc_base::{NoteOp, Relation, Spot};
use sqlite_items::Boxed;
use std::alloc::{AllocError, Global};

#[tactic(auto, unfolding(crate::specs::Words::punct_op))]
fn punct_op(punct: Punct) -> NoteOp
    ensures { result ≡ punct_op punct }
{
    match punct {
        Punct::Iff => NoteOp::Iff,
        Punct::Implies => NoteOp::Implies,
        Punct::BarBar => NoteOp::Or,
        Punct::AmpAmp => NoteOp::And,
        Punct::Minus => NoteOp::Sub,
        Punct::Star => NoteOp::Mul,
        Punct::Slash => NoteOp::Div,
        Punct::Percent => NoteOp::Rem,
        _ => NoteOp::Add,
    }
}

/// The operator that a token is between its operands.
#[tactic(auto, unfolding(crate::specs::Words::note_op))]
pub(crate) fn note_op(kind: TokenKind) -> NoteOp
    ensures { result ≡ note_op kind }
{
    match kind {
        TokenKind::Punct(punct) => punct_op(punct),
        _ => NoteOp::Add,
    }
}

#[tactic(auto, unfolding(crate::specs::Words::punct_relation))]
fn punct_relation(punct: Punct) -> Relation
    ensures { result ≡ punct_relation punct }
{
    match punct {
        Punct::Less => Relation::Less,
        Punct::LessEq => Relation::LessEq,
        Punct::Greater => Relation::Greater,
        Punct::GreaterEq => Relation::GreaterEq,
        Punct::BangEq => Relation::NotEqual,
        _ => Relation::Equal,
    }
}

/// The relation that a token is.
#[tactic(auto, unfolding(crate::specs::Words::relation))]
pub(crate) fn relation(kind: TokenKind) -> Relation
    ensures { result ≡ relation kind }
{
    match kind {
        TokenKind::Punct(punct) => punct_relation(punct),
        _ => Relation::Equal,
    }
}

/// An operand after `-` or `!`.
#[tactic(auto, unfolding(crate::specs::Words::prefixed))]
pub(crate) fn prefixed(
    alloc: Global,
    kind: TokenKind,
    at: Spot,
    of: Formula,
) -> Result<Formula, AllocError>
    ensures { IfOk result (λ f. f ≡ prefixed kind at of) }
{
    let of = Boxed::new(alloc, of)?;
    match kind {
        TokenKind::Punct(Punct::Minus) => Ok(Formula::Neg { at, of }),
        _ => Ok(Formula::Not { at, of }),
    }
}

/// The constant that a token is.
#[tactic(auto, unfolding(crate::specs::Words::number))]
pub(crate) fn number(kind: TokenKind, at: Spot) -> Formula
    ensures { result ≡ number kind at }
{
    match kind {
        TokenKind::Number(number) => Formula::Number {
            at,
            value: number.value,
        },
        TokenKind::Char(value) => Formula::Number {
            at,
            value: u128::from(value),
        },
        _ => Formula::Number { at, value: 0 },
    }
}

/// The term or the predicate that is a word of this class.
#[tactic(auto, unfolding(crate::specs::Words::word_formula))]
pub(crate) fn word_formula(class: Class, at: Spot) -> Formula
    ensures { result ≡ word_formula class at }
{
    match class {
        Class::Result => Formula::Result { at },
        Class::True => Formula::True { at },
        _ => Formula::False { at },
    }
}

/// The kind of a clause that begins with a word of this class.
#[tactic(auto, unfolding(crate::specs::Words::clause_kind))]
pub(crate) fn clause_kind(class: Class) -> ClauseKind
    ensures { result ≡ clause_kind class }
{
    match class {
        Class::Requires => ClauseKind::Requires,
        Class::Ensures => ClauseKind::Ensures,
        Class::Assigns => ClauseKind::Assigns,
        Class::Check => ClauseKind::Check,
        Class::Admit => ClauseKind::Admit,
        _ => ClauseKind::Assert,
    }
}

/// The kind of a clause with a word of this class after `loop`.
#[tactic(auto, unfolding(crate::specs::Words::loop_kind))]
pub(crate) fn loop_kind(class: Class) -> ClauseKind
    ensures { result ≡ loop_kind class }
{
    match class {
        Class::Invariant => ClauseKind::LoopInvariant,
        _ => ClauseKind::LoopAssigns,
    }
}
