//! Texts of C, and where others stop.

ghost use Rattle.std.specs.Prelude.{◌≡◌, ◌<◌, ◌≤◌, ◌-◌, IfOk, IfErr, List, length, drop};
ghost use Rattle.c_ast.specs.declared.unit.Item.{Item};
ghost use Rattle.c_ast.specs.Weight.{weight_of_unit};
ghost use Rattle.c_parse.specs.Program.{IsUnit, IsOnly, IsFault, Refuses, unsupported_keyword, unsupported_punct, unsupported_kind, is_unsupported, place_at};

use crate::fault::Fault;
use crate::place::text_of;
use crate::unit::unit_items_at;
use c_ast::Unit;
use c_lex::{Keyword, Punct, Token, TokenKind, Word};
use sqlite_items::Items;
use std::alloc::Global;
use thiserror::Error;

/// Why a text isn't of C, or not of the part of it that is read. The place is the offset of the token at
/// which the reading stops; at the end of the tokens it is the text's length.
#[derive(Debug, Drop, Error)]
pub enum ParseFault {
    /// The token is none that may stand here.
    #[error("unexpected token at offset {0}")]
    NotC(u32),
    /// The token is none that may stand here, and of a part of C that isn't read: its bytes and its place.
    #[error("unsupported token at offset {1}")]
    Unsupported(Items<u8>, u32),
    /// The token opens one nesting more than 200.
    #[error("nesting too deep at offset {0}")]
    TooDeep(u32),
    /// No memory.
    #[error("out of memory")]
    Memory,
}

#[tactic(auto, unfolding(crate::specs::Program::unsupported_keyword))]
fn unsupported_keyword(keyword: Keyword) -> bool
    ensures { result ≡ unsupported_keyword keyword }
{
    match keyword {
        Keyword::Auto | Keyword::Case | Keyword::Default | Keyword::Double => true,
        Keyword::Enum | Keyword::Extern | Keyword::Float | Keyword::Goto => true,
        Keyword::Inline | Keyword::Register | Keyword::Restrict | Keyword::Sizeof => true,
        Keyword::Static | Keyword::Struct | Keyword::Switch | Keyword::Typedef => true,
        Keyword::Union | Keyword::Volatile | Keyword::Alignas | Keyword::Alignof => true,
        Keyword::Atomic | Keyword::Complex | Keyword::Generic | Keyword::Imaginary => true,
        Keyword::Noreturn | Keyword::StaticAssert | Keyword::ThreadLocal => true,
        _ => false,
    }
}

#[tactic(auto, unfolding(crate::specs::Program::unsupported_punct))]
fn unsupported_punct(punct: Punct) -> bool
    ensures { result ≡ unsupported_punct punct }
{
    match punct {
        Punct::Star | Punct::Amp | Punct::Dot | Punct::Arrow | Punct::Ellipsis => true,
        Punct::Comma | Punct::Colon | Punct::ParenOpen | Punct::BracketOpen => true,
        _ => false,
    }
}

#[tactic(auto, unfolding(crate::specs::Program::unsupported_kind))]
fn unsupported_kind(kind: TokenKind) -> bool
    ensures { result ≡ unsupported_kind kind }
{
    match kind {
        TokenKind::Word(Word::Keyword(keyword)) => unsupported_keyword(keyword),
        TokenKind::Text => true,
        TokenKind::Punct(punct) => unsupported_punct(punct),
        _ => false,
    }
}

/// The place of the first of these tokens, or of the text's end.
fn place_at(bytes: &[u8], left: &[Token]) -> u32
    requires { length bytes.now < 4294967296 }
    ensures { result ≡ place_at bytes.now left.now }
{
    match left.split_first() {
        Some((first, _)) => first.span.from,
        None => bytes.len() as u32,
    }
}

/// What is answered where the first of these tokens isn't needed.
fn refused(alloc: Global, bytes: &[u8], left: &[Token]) -> ParseFault
    requires { length bytes.now < 4294967296 }
    ensures { Refuses bytes.now left.now result }
{
    let at = place_at(bytes, left);
    let Some((first, _)) = left.split_first() else {
        return ParseFault::NotC(at);
    };
    if !unsupported_kind(first.kind) {
        return ParseFault::NotC(at);
    }
    match Items::from_slice(alloc, text_of(bytes, first.span)) {
        Ok(word) => ParseFault::Unsupported(word, at),
        Err(_) => ParseFault::Memory,
    }
}

/// The last tokens, so many of them.
fn last(tokens: &[Token], count: usize) -> &[Token]
    ensures { result.now ≡ drop (length tokens.now - count) tokens.now }
{
    let (_, left) = tokens.split_at(tokens.len().saturating_sub(count));
    left
}

/// The tree of a text of C, of which these are the tokens, or the place at which its reading stops
/// (C11 6.5 to 6.9, cut down). Names are taken from the bytes.
///
/// `NotC` and `Unsupported` say that another token is needed than the one at their place. It is
/// `Unsupported` exactly where that token belongs to a part of C that is left out. `TooDeep` says that the
/// token opens the 201st nesting. `Memory` may come for any text.
pub fn parse(alloc: Global, bytes: &[u8], tokens: &[Token]) -> Result<Unit, ParseFault>
    requires { length bytes.now < 4294967296 }
    ensures found { IfOk result (λ u. IsUnit bytes.now u.items tokens.now) }
    ensures size { IfOk result (λ u. weight_of_unit u ≤ length tokens.now) }
    ensures only { (is : List Item) → IsUnit bytes.now is tokens.now → IsOnly is result }
    ensures fault { IfErr result (IsFault bytes.now tokens.now) }
{
    match unit_items_at(alloc, bytes, 0, tokens) {
        Ok((items, rest)) => {
            if rest.is_empty() {
                Ok(Unit { items })
            } else {
                Err(refused(alloc, bytes, rest))
            }
        }
        Err(Fault::Unexpected(left)) => Err(refused(alloc, bytes, last(tokens, left))),
        Err(Fault::TooDeep(left)) => Err(ParseFault::TooDeep(place_at(bytes, last(tokens, left)))),
        Err(Fault::Memory) => Err(ParseFault::Memory),
    }
}
