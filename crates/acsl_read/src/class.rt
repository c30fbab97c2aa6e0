//! Classes of tokens.

ghost use Rattle.std.specs.Prelude.{◌≡◌, [], take};
ghost use Rattle.acsl_read.specs.Classes.{same_class, class_in, word_class, punct_class, kind_class, class_of, leads_to_forall, class_at};
ghost use Rattle.acsl_read.specs.inner.Rows.{words_of};
ghost use Rattle.grammar_forms.specs.Forms.{one_of};

use crate::place::text_of;
use c_lex::{Punct, Token, TokenKind, Word};

/// A class of tokens, as productions ask for them (ACSL manual, lexical rules).
#[derive(Clone, Copy, Debug, PartialEq, Eq)]
pub enum Class {
    /// No token.
    End,
    /// A word that is no keyword of C, begins with no `\` and has no class below.
    Name,
    /// An integer constant or a character constant.
    Constant,
    Requires,
    Ensures,
    Assigns,
    Loop,
    Invariant,
    Assert,
    Check,
    Admit,
    Integer,
    /// `\result`
    Result,
    /// `\old`
    Old,
    /// `\true`
    True,
    /// `\false`
    False,
    /// `\forall`
    Forall,
    /// `\nothing`
    Nothing,
    /// `!`
    Bang,
    /// `!` of a run of them before `\forall`
    BangForall,
    /// `-`
    Minus,
    /// `+`
    Plus,
    /// `*`, `/`, `%`
    Multiplicative,
    /// `<==>`
    Iff,
    /// `==>`
    Implies,
    /// `||`
    Or,
    /// `&&`
    And,
    /// `==`
    Equal,
    /// `!=`
    Distinct,
    /// `<`, `<=`
    Rising,
    /// `>`, `>=`
    Falling,
    ParenOpen,
    ParenClose,
    BracketOpen,
    BracketClose,
    Semicolon,
    Colon,
    Comma,
    /// `..`
    DotDot,
    /// A token that no production has.
    Other,
}

/// The words of annotations.
const WORDS: [(&str, Class); 15] = [
    ("requires", Class::Requires),
    ("ensures", Class::Ensures),
    ("assigns", Class::Assigns),
    ("loop", Class::Loop),
    ("invariant", Class::Invariant),
    ("assert", Class::Assert),
    ("check", Class::Check),
    ("admit", Class::Admit),
    ("integer", Class::Integer),
    ("\\result", Class::Result),
    ("\\old", Class::Old),
    ("\\true", Class::True),
    ("\\false", Class::False),
    ("\\forall", Class::Forall),
    ("\\nothing", Class::Nothing),
];

#[tactic(auto, unfolding(crate::specs::Classes::same_class))]
pub(crate) fn same_class(a: Class, b: Class) -> bool
    ensures { result ≡ same_class a b }
{
    a == b
}

/// The class of a word that isn't among the words of annotations.
fn unlisted(text: &[u8]) -> Class
    ensures { result ≡ class_in [] text.now }
{
    match text.split_first() {
        Some((92, _)) => Class::Other,
        _ => Class::Name,
    }
}

/// The class of a word by a table.
fn class_in(rows: &[(&str, Class)], text: &[u8]) -> Class
    ensures { result ≡ class_in (words_of rows.now) text.now }
{
    for (word, class) in rows {
        if text == word.as_bytes() {
            return *class;
        }
    }
    unlisted(text)
}

#[tactic(auto, unfolding(crate::specs::Classes::word_class, crate::specs::Classes::words))]
fn word_class(text: &[u8]) -> Class
    ensures { result ≡ word_class text.now }
{
    class_in(&WORDS, text)
}

#[tactic(auto, unfolding(crate::specs::Classes::punct_class))]
fn punct_class(punct: Punct) -> Class
    ensures { result ≡ punct_class punct }
{
    match punct {
        Punct::ParenOpen => Class::ParenOpen,
        Punct::ParenClose => Class::ParenClose,
        Punct::BracketOpen => Class::BracketOpen,
        Punct::BracketClose => Class::BracketClose,
        Punct::Semicolon => Class::Semicolon,
        Punct::Colon => Class::Colon,
        Punct::Comma => Class::Comma,
        Punct::DotDot => Class::DotDot,
        Punct::Iff => Class::Iff,
        Punct::Implies => Class::Implies,
        Punct::BarBar => Class::Or,
        Punct::AmpAmp => Class::And,
        Punct::EqEq => Class::Equal,
        Punct::BangEq => Class::Distinct,
        Punct::Less | Punct::LessEq => Class::Rising,
        Punct::Greater | Punct::GreaterEq => Class::Falling,
        Punct::Plus => Class::Plus,
        Punct::Minus => Class::Minus,
        Punct::Star | Punct::Slash | Punct::Percent => Class::Multiplicative,
        Punct::Bang => Class::Bang,
        _ => Class::Other,
    }
}

#[tactic(auto, unfolding(crate::specs::Classes::kind_class))]
fn kind_class(text: &[u8], kind: TokenKind) -> Class
    ensures { result ≡ kind_class text.now kind }
{
    match kind {
        TokenKind::Word(Word::Name) => word_class(text),
        TokenKind::Number(_) => Class::Constant,
        TokenKind::Char(_) => Class::Constant,
        TokenKind::Punct(punct) => punct_class(punct),
        _ => Class::Other,
    }
}

/// The class of a token, whatever stands after it.
#[tactic(auto, unfolding(crate::specs::Classes::class_of))]
pub(crate) fn class_of(bytes: &[u8], token: Token) -> Class
    ensures { result ≡ class_of bytes.now token }
{
    kind_class(text_of(bytes, token.span), token.kind)
}

/// How many tokens are looked ahead for `\forall`: as many as nestings may be.
const MOST_AHEAD: usize = 200;

/// Whether `\forall` stands after a run of `!`.
fn leads_to_forall(bytes: &[u8], tokens: &[Token]) -> bool
    ensures { result ≡ leads_to_forall bytes.now tokens.now }
{
    for token in tokens {
        let class = class_of(bytes, *token);
        if !same_class(class, Class::Bang) {
            return same_class(class, Class::Forall);
        }
    }
    false
}

/// The tokens that are looked at.
#[tactic(auto, using(crate::proofs::Ahead::all_of_few))]
fn ahead_of(tokens: &[Token]) -> &[Token]
    ensures { result.now ≡ take 200 tokens.now }
{
    if tokens.len() < MOST_AHEAD {
        return tokens;
    }
    let (ahead, _) = tokens.split_at(MOST_AHEAD);
    ahead
}

/// The class of the next token.
#[tactic(auto, unfolding(crate::specs::Classes::class_at))]
pub(crate) fn class_at(bytes: &[u8], tokens: &[Token]) -> Class
    ensures { result ≡ class_at bytes.now tokens.now }
{
    let Some((first, rest)) = tokens.split_first() else {
        return Class::End;
    };
    let class = class_of(bytes, *first);
    if same_class(class, Class::Bang) && leads_to_forall(bytes, ahead_of(rest)) {
        Class::BangForall
    } else {
        class
    }
}

/// Whether the next token is of this class.
pub(crate) fn is(bytes: &[u8], tokens: &[Token], class: Class) -> bool
    ensures { result ≡ same_class (class_at bytes.now tokens.now) class }
{
    same_class(class_at(bytes, tokens), class)
}

/// Whether the class is one of these.
#[tactic(auto, using(crate::proofs::OneOf::one_of_step))]
pub(crate) fn is_one_of(classes: &[Class], class: Class) -> bool
    ensures { result ≡ one_of same_class classes.now class }
{
    for own in classes {
        if same_class(class, *own) {
            return true;
        }
    }
    false
}
