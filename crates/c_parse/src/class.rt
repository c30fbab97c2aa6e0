//! Classes of tokens.

ghost use Rattle.std.specs.Prelude.{◌≡◌};
ghost use Rattle.c_parse.specs.Classes.{same_class, keyword_class, punct_class, class_of, looked, class_at};
ghost use Rattle.grammar_forms.specs.Forms.{one_of};

use c_lex::{Keyword, Punct, Token, TokenKind, Word};

/// A class of tokens, as productions ask for them. The first six that follow a mark depend on the token
/// after it.
#[derive(Clone, Copy, Debug, PartialEq, Eq)]
pub enum Class {
    /// No token.
    End,
    Name,
    /// An integer constant or a character constant.
    Constant,
    /// `static`, `extern`
    Storage,
    /// `const`, `signed`, `unsigned`, `char`, `short`, `int`, `long`, `_Bool`
    TypeWord,
    /// `void`
    Void,
    /// `void` before `)`
    VoidLast,
    ParenOpen,
    /// `(` before a specifier
    ParenType,
    ParenClose,
    BracketOpen,
    BracketClose,
    BraceOpen,
    BraceClose,
    Semicolon,
    Comma,
    /// `,` before `}`
    CommaLast,
    Question,
    Colon,
    If,
    Else,
    While,
    Do,
    For,
    Break,
    Continue,
    Return,
    NoteFrom,
    NoteTo,
    /// `||`
    LogicOr,
    /// `&&`
    LogicAnd,
    /// `|`
    Or,
    /// `^`
    Xor,
    /// `&`
    And,
    /// `==`, `!=`
    Equality,
    /// `<`, `>`, `<=`, `>=`
    Relation,
    /// `<<`, `>>`
    Shift,
    /// `+`, `-`
    Additive,
    /// `*`, `/`, `%`
    Multiplicative,
    /// `!`, `~`
    Complement,
    /// `++`, `--`
    Step,
    /// `=`
    Equals,
    /// An operator and `=` in one, as `+=`.
    AssignOp,
    /// A token that no production has.
    Other,
}

#[tactic(auto, unfolding(crate::specs::Classes::same_class))]
pub(crate) fn same_class(a: Class, b: Class) -> bool
    ensures { result ≡ same_class a b }
{
    a == b
}

#[tactic(auto, unfolding(crate::specs::Classes::keyword_class))]
fn keyword_class(keyword: Keyword) -> Class
    ensures { result ≡ keyword_class keyword }
{
    match keyword {
        Keyword::Static | Keyword::Extern => Class::Storage,
        Keyword::Const => Class::TypeWord,
        Keyword::Signed => Class::TypeWord,
        Keyword::Unsigned => Class::TypeWord,
        Keyword::Char => Class::TypeWord,
        Keyword::Short => Class::TypeWord,
        Keyword::Int => Class::TypeWord,
        Keyword::Long => Class::TypeWord,
        Keyword::Bool => Class::TypeWord,
        Keyword::Void => Class::Void,
        Keyword::If => Class::If,
        Keyword::Else => Class::Else,
        Keyword::While => Class::While,
        Keyword::Do => Class::Do,
        Keyword::For => Class::For,
        Keyword::Break => Class::Break,
        Keyword::Continue => Class::Continue,
        Keyword::Return => Class::Return,
        _ => Class::Other,
    }
}

#[tactic(auto, unfolding(crate::specs::Classes::punct_class))]
fn punct_class(punct: Punct) -> Class
    ensures { result ≡ punct_class punct }
{
    match punct {
        Punct::ParenOpen => Class::ParenOpen,
        Punct::ParenClose => Class::ParenClose,
        Punct::BracketOpen => Class::BracketOpen,
        Punct::BracketClose => Class::BracketClose,
        Punct::BraceOpen => Class::BraceOpen,
        Punct::BraceClose => Class::BraceClose,
        Punct::Semicolon => Class::Semicolon,
        Punct::Comma => Class::Comma,
        Punct::Question => Class::Question,
        Punct::Colon => Class::Colon,
        Punct::BarBar => Class::LogicOr,
        Punct::AmpAmp => Class::LogicAnd,
        Punct::Bar => Class::Or,
        Punct::Caret => Class::Xor,
        Punct::Amp => Class::And,
        Punct::EqEq | Punct::BangEq => Class::Equality,
        Punct::Less | Punct::Greater => Class::Relation,
        Punct::LessEq | Punct::GreaterEq => Class::Relation,
        Punct::Shl | Punct::Shr => Class::Shift,
        Punct::Plus | Punct::Minus => Class::Additive,
        Punct::Star | Punct::Slash | Punct::Percent => Class::Multiplicative,
        Punct::Bang | Punct::Tilde => Class::Complement,
        Punct::PlusPlus | Punct::MinusMinus => Class::Step,
        Punct::Equals => Class::Equals,
        Punct::PlusEq | Punct::MinusEq => Class::AssignOp,
        Punct::StarEq | Punct::SlashEq | Punct::PercentEq => Class::AssignOp,
        Punct::ShlEq | Punct::ShrEq => Class::AssignOp,
        Punct::AmpEq | Punct::CaretEq | Punct::BarEq => Class::AssignOp,
        _ => Class::Other,
    }
}

/// The class of a token, whatever stands after it.
#[tactic(auto, unfolding(crate::specs::Classes::class_of))]
fn class_of(kind: TokenKind) -> Class
    ensures { result ≡ class_of kind }
{
    match kind {
        TokenKind::Word(Word::Name) => Class::Name,
        TokenKind::Word(Word::Keyword(keyword)) => keyword_class(keyword),
        TokenKind::Number(_) => Class::Constant,
        TokenKind::Char(_) => Class::Constant,
        TokenKind::Text => Class::Other,
        TokenKind::Punct(punct) => punct_class(punct),
        TokenKind::NoteFrom => Class::NoteFrom,
        TokenKind::NoteTo => Class::NoteTo,
    }
}

/// The class of a token before one of the class `next`.
#[tactic(auto, unfolding(crate::specs::Classes::looked))]
fn looked(class: Class, next: Class) -> Class
    ensures { result ≡ looked class next }
{
    match class {
        Class::ParenOpen => match next {
            Class::TypeWord | Class::Void => Class::ParenType,
            _ => Class::ParenOpen,
        },
        Class::Void => match next {
            Class::ParenClose => Class::VoidLast,
            _ => Class::Void,
        },
        Class::Comma => match next {
            Class::BraceClose => Class::CommaLast,
            _ => Class::Comma,
        },
        _ => class,
    }
}

/// The class of the next token.
#[tactic(auto, unfolding(crate::specs::Classes::class_at))]
pub(crate) fn class_at(tokens: &[Token]) -> Class
    ensures { result ≡ class_at tokens.now }
{
    let Some((first, rest)) = tokens.split_first() else {
        return Class::End;
    };
    let class = class_of(first.kind);
    match rest.split_first() {
        Some((next, _)) => looked(class, class_of(next.kind)),
        None => class,
    }
}

/// Whether the next token is of this class.
pub(crate) fn is(tokens: &[Token], class: Class) -> bool
    ensures { result ≡ same_class (class_at tokens.now) class }
{
    same_class(class_at(tokens), class)
}

/// Whether the class is one of these.
#[tactic(auto, using(crate::proofs::OneOf::one_of_step))]
pub(crate) fn is_one_of(classes: &[Class], class: Class) -> bool
    ensures { result ≡ one_of same_class classes.now class }
{
    for own in classes {
        if same_class(class, *own) {
            return true;
        }
    }
    false
}
