//! Places of nodes, and the words at them.

ghost use Rattle.std.specs.Prelude.{◌≡◌, ◌≤◌, IfOk, length};
ghost use Rattle.c_parse.specs.Places.{spot_of, reach, text_of, word_of, ident_of};
ghost use Rattle.acsl_read.specs.Trees.{name_at};

use c_ast::Ident;
use c_lex::Token;
use fc_base::{Name, Span, Spot};
use std::alloc::{AllocError, Global};

/// Where a token stands.
#[tactic(auto, unfolding(c_parse::specs::Places::spot_of))]
pub(crate) fn spot_of(token: Token) -> Spot
    ensures { result ≡ spot_of token }
{
    Spot {
        span: token.span,
        line: token.line,
    }
}

/// The place from the beginning of one to the end of another.
#[tactic(auto, unfolding(c_parse::specs::Places::reach))]
pub(crate) fn reach(from: Spot, to: Spot) -> Spot
    ensures { result ≡ reach from to }
{
    Spot {
        span: Span {
            from: from.span.from,
            to: to.span.to,
        },
        line: from.line,
    }
}

/// The bytes at a place.
#[tactic(auto, unfolding(c_parse::specs::Places::text_of))]
pub(crate) fn text_of(bytes: &[u8], span: Span) -> &[u8]
    ensures { result.now ≡ text_of bytes.now span }
{
    let from = bytes.len().min(span.from as usize);
    let (_, rest) = bytes.split_at(from);
    let wanted = span.to.saturating_sub(span.from) as usize;
    let (text, _) = rest.split_at(rest.len().min(wanted));
    text
}

#[tactic(auto, unfolding(c_parse::specs::Places::word_of))]
fn word_of(text: &[u8]) -> &str
    ensures value { result.now ≡ word_of text.now }
    ensures bound { length result.now ≤ 256 }
{
    if text.len() > 256 {
        return "";
    }
    match std::str::from_utf8(text) {
        Ok(word) => word,
        Err(_) => "",
    }
}

/// The name that a token is.
#[tactic(auto, unfolding(c_parse::specs::Places::ident_of))]
pub(crate) fn ident_of(alloc: Global, bytes: &[u8], token: Token) -> Result<Ident, AllocError>
    ensures { IfOk result (λ i. i ≡ ident_of bytes.now token) }
{
    let name = Name::new(alloc, word_of(text_of(bytes, token.span)))?;
    Ok(Ident {
        at: spot_of(token),
        name,
    })
}

/// The name at a place.
#[tactic(auto, unfolding(crate::specs::Trees::name_at))]
pub(crate) fn name_at(alloc: Global, bytes: &[u8], at: Spot) -> Result<Ident, AllocError>
    ensures { IfOk result (λ i. i ≡ name_at bytes.now at) }
{
    let name = Name::new(alloc, word_of(text_of(bytes, at.span)))?;
    Ok(Ident { at, name })
}
