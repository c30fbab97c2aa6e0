//! What words and punctuators mean in a tree.

ghost use Rattle.std.specs.Prelude.{◌≡◌, IfOk};
ghost use Rattle.c_parse.specs.Words.{punct_op, binary_op, assign_op, prefix_of, prefixed, is_up, spec_word, storage, literal};

use c_ast::{Expr, SpecWord, Storage, step, unary};
use c_lex::{Keyword, Punct, TokenKind, Word};
use fc_base::{BinaryOp, LiteralForm, Spot, UnaryOp};
use std::alloc::{AllocError, Global};

#[tactic(auto, unfolding(crate::specs::Words::punct_op))]
fn punct_op(punct: Punct) -> BinaryOp
    ensures { result ≡ punct_op punct }
{
    match punct {
        Punct::BarBar => BinaryOp::LogicOr,
        Punct::AmpAmp => BinaryOp::LogicAnd,
        Punct::Bar | Punct::BarEq => BinaryOp::Or,
        Punct::Caret | Punct::CaretEq => BinaryOp::Xor,
        Punct::Amp | Punct::AmpEq => BinaryOp::And,
        Punct::EqEq => BinaryOp::Equal,
        Punct::BangEq => BinaryOp::NotEqual,
        Punct::Less => BinaryOp::Less,
        Punct::Greater => BinaryOp::Greater,
        Punct::LessEq => BinaryOp::LessEq,
        Punct::GreaterEq => BinaryOp::GreaterEq,
        Punct::Shl | Punct::ShlEq => BinaryOp::Shl,
        Punct::Shr | Punct::ShrEq => BinaryOp::Shr,
        Punct::Minus | Punct::MinusEq => BinaryOp::Sub,
        Punct::Star | Punct::StarEq => BinaryOp::Mul,
        Punct::Slash | Punct::SlashEq => BinaryOp::Div,
        Punct::Percent | Punct::PercentEq => BinaryOp::Rem,
        _ => BinaryOp::Add,
    }
}

/// The operator that a token is between its operands.
#[tactic(auto, unfolding(crate::specs::Words::binary_op))]
pub(crate) fn binary_op(kind: TokenKind) -> BinaryOp
    ensures { result ≡ binary_op kind }
{
    match kind {
        TokenKind::Punct(punct) => punct_op(punct),
        _ => BinaryOp::Add,
    }
}

/// The operator that stands in an assignment.
#[tactic(auto, unfolding(crate::specs::Words::assign_op))]
pub(crate) fn assign_op(kind: TokenKind) -> Option<BinaryOp>
    ensures { result ≡ assign_op kind }
{
    match kind {
        TokenKind::Punct(Punct::Equals) => None,
        _ => Some(binary_op(kind)),
    }
}

/// An operator before its operand: `++` or `--`, or one that yields a value alone.
#[derive(Clone, Copy, Debug, PartialEq, Eq)]
pub enum Prefix {
    Step(bool),
    Operator(UnaryOp),
}

#[tactic(auto, unfolding(crate::specs::Words::prefix_of))]
fn prefix_of(kind: TokenKind) -> Prefix
    ensures { result ≡ prefix_of kind }
{
    match kind {
        TokenKind::Punct(Punct::PlusPlus) => Prefix::Step(true),
        TokenKind::Punct(Punct::MinusMinus) => Prefix::Step(false),
        TokenKind::Punct(Punct::Minus) => Prefix::Operator(UnaryOp::Minus),
        TokenKind::Punct(Punct::Bang) => Prefix::Operator(UnaryOp::Not),
        TokenKind::Punct(Punct::Tilde) => Prefix::Operator(UnaryOp::Invert),
        _ => Prefix::Operator(UnaryOp::Plus),
    }
}

/// An operand after such an operator.
#[tactic(auto, unfolding(crate::specs::Words::prefixed))]
pub(crate) fn prefixed(
    alloc: Global,
    kind: TokenKind,
    at: Spot,
    of: Expr,
) -> Result<Expr, AllocError>
    ensures { IfOk result (λ e. e ≡ prefixed (prefix_of kind) at of) }
{
    match prefix_of(kind) {
        Prefix::Step(up) => step(alloc, at, up, true, of),
        Prefix::Operator(op) => unary(alloc, at, op, of),
    }
}

/// Whether a step goes up.
#[tactic(auto, unfolding(crate::specs::Words::is_up))]
pub(crate) fn is_up(kind: TokenKind) -> bool
    ensures { result ≡ is_up kind }
{
    match kind {
        TokenKind::Punct(Punct::PlusPlus) => true,
        _ => false,
    }
}

/// The specifier that a token is.
#[tactic(auto, unfolding(crate::specs::Words::spec_word))]
pub(crate) fn spec_word(kind: TokenKind) -> SpecWord
    ensures { result ≡ spec_word kind }
{
    match kind {
        TokenKind::Word(Word::Keyword(Keyword::Const)) => SpecWord::Const,
        TokenKind::Word(Word::Keyword(Keyword::Signed)) => SpecWord::Signed,
        TokenKind::Word(Word::Keyword(Keyword::Unsigned)) => SpecWord::Unsigned,
        TokenKind::Word(Word::Keyword(Keyword::Char)) => SpecWord::Char,
        TokenKind::Word(Word::Keyword(Keyword::Short)) => SpecWord::Short,
        TokenKind::Word(Word::Keyword(Keyword::Long)) => SpecWord::Long,
        TokenKind::Word(Word::Keyword(Keyword::Bool)) => SpecWord::Bool,
        TokenKind::Word(Word::Keyword(Keyword::Void)) => SpecWord::Void,
        _ => SpecWord::Int,
    }
}

/// The storage class that a token is.
#[tactic(auto, unfolding(crate::specs::Words::storage))]
pub(crate) fn storage(kind: TokenKind) -> Storage
    ensures { result ≡ storage kind }
{
    match kind {
        TokenKind::Word(Word::Keyword(Keyword::Extern)) => Storage::Extern,
        _ => Storage::Static,
    }
}

/// The constant that a token is.
#[tactic(auto, unfolding(crate::specs::Words::literal))]
pub(crate) fn literal(kind: TokenKind, at: Spot) -> Expr
    ensures { result ≡ literal kind at }
{
    match kind {
        TokenKind::Number(number) => Expr::Literal {
            at,
            value: number.value,
            form: number.form,
            unsigned: number.unsigned,
            longs: number.longs,
        },
        TokenKind::Char(value) => Expr::Literal {
            at,
            value: u128::from(value),
            form: LiteralForm::Character,
            unsigned: false,
            longs: 0,
        },
        _ => Expr::Literal {
            at,
            value: 0,
            form: LiteralForm::Decimal,
            unsigned: false,
            longs: 0,
        },
    }
}
