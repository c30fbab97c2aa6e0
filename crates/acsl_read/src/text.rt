//! Notes, and where others stop.

ghost use Rattle.std.specs.Prelude.{◌≡◌, ◌<◌, ◌-◌, ◌||◌, ◌∷◌, [], IfOk, IfErr, bytes_eq, length, take, drop};
ghost use Rattle.std.specs.List.{list_any};
ghost use Rattle.c_ast.specs.declared.annot.Annot.{Annot};
ghost use Rattle.acsl_read.specs.Program.{IsAnnot, IsOnly, IsFault, Refuses, unsupported_words, is_word, ends_with_forall, is_unsupported, place_at};
ghost use Rattle.acsl_read.specs.inner.Rows.{texts_of};

use crate::class::{Class, class_of, same_class};
use crate::note::note_at;
use crate::place::text_of;
use c_ast::Annot;
use c_lex::{Token, TokenKind};
use c_parse::Fault;
use sqlite_items::Items;
use std::alloc::Global;
use thiserror::Error;

/// Why a note isn't of ACSL, or not of the part of it that is read. The place is the offset of the token at
/// which the reading stops; at the end of the note it is the place of the token that closes it.
#[derive(Debug, Drop, Error)]
pub enum AcslFault {
    /// The token is none that may stand here.
    #[error("unexpected token in a note at offset {0}")]
    NotAcsl(u32),
    /// The token is none that may stand here, and a word of ACSL that isn't read: its bytes and its place.
    #[error("unsupported word in a note at offset {1}")]
    Unsupported(Items<u8>, u32),
    /// The token opens one nesting more than 200.
    #[error("nesting too deep in a note at offset {0}")]
    TooDeep(u32),
    /// No memory.
    #[error("out of memory")]
    Memory,
}

/// Words of ACSL that aren't read.
const UNSUPPORTED: [&str; 15] = [
    "\\exists",
    "\\valid",
    "\\at",
    "variant",
    "decreases",
    "logic",
    "axiomatic",
    "predicate",
    "lemma",
    "ghost",
    "type",
    "behavior",
    "assumes",
    "complete",
    "disjoint",
];

/// Whether the text is one of these.
fn is_among(words: &[&str], text: &[u8]) -> bool
    ensures { result ≡ list_any (λ w. bytes_eq text.now w) (texts_of words.now) }
{
    for word in words {
        if text == word.as_bytes() {
            return true;
        }
    }
    false
}

#[tactic(auto, unfolding(crate::specs::Program::unsupported_words))]
fn is_unsupported_word(text: &[u8]) -> bool
    ensures { result ≡ list_any (λ w. bytes_eq text.now w) unsupported_words }
{
    is_among(&UNSUPPORTED, text)
}

fn is_word(kind: TokenKind) -> bool
    ensures { result ≡ is_word kind }
{
    match kind {
        TokenKind::Word(_) => true,
        _ => false,
    }
}

/// Whether the last of these tokens is `\forall`.
fn ends_with_forall(bytes: &[u8], tokens: &[Token]) -> bool
    ensures { result ≡ ends_with_forall bytes.now tokens.now }
{
    match tokens.split_last() {
        Some((last, _)) => same_class(class_of(bytes, *last), Class::Forall),
        None => false,
    }
}

/// Whether this token, after those before it, is a word that isn't read.
fn is_unsupported(bytes: &[u8], before: &[Token], token: Token) -> bool
    ensures { result ≡ is_unsupported bytes.now before.now (token ∷ []) }
{
    is_word(token.kind)
        && (is_unsupported_word(text_of(bytes, token.span)) || ends_with_forall(bytes, before))
}

/// The place of the first of these tokens, or of the note's end.
fn place_at(end: u32, left: &[Token]) -> u32
    ensures { result ≡ place_at end left.now }
{
    match left.split_first() {
        Some((first, _)) => first.span.from,
        None => end,
    }
}

/// What is answered where the first of the tokens `left` isn't needed.
fn refused(alloc: Global, bytes: &[u8], end: u32, before: &[Token], left: &[Token]) -> AcslFault
    ensures { Refuses bytes.now end before.now left.now result }
{
    let at = place_at(end, left);
    let Some((first, _)) = left.split_first() else {
        return AcslFault::NotAcsl(at);
    };
    if !is_unsupported(bytes, before, *first) {
        return AcslFault::NotAcsl(at);
    }
    match Items::from_slice(alloc, text_of(bytes, first.span)) {
        Ok(word) => AcslFault::Unsupported(word, at),
        Err(_) => AcslFault::Memory,
    }
}

/// The tokens before the last ones, and these, so many of them.
fn parted(tokens: &[Token], count: usize) -> (&[Token], &[Token])
    ensures front { result.0.now ≡ take (length tokens.now - count) tokens.now }
    ensures back { result.1.now ≡ drop (length tokens.now - count) tokens.now }
{
    tokens.split_at(tokens.len().saturating_sub(count))
}

/// The tree of a note, of which these are the tokens between those that open and close it, or the place at
/// which its reading stops; `end` is the place of the token that closes it (ACSL manual, cut down to whole
/// numbers). Words and names are taken from the bytes.
///
/// `NotAcsl` and `Unsupported` say that another token is needed than the one at their place. It is
/// `Unsupported` exactly where that token is a word of ACSL that is left out, or a word other than `integer`
/// directly after `\forall`. `TooDeep` says that the token opens the 201st nesting. `Memory` may come for any
/// note.
pub fn read(alloc: Global, bytes: &[u8], note: &[Token], end: u32) -> Result<Annot, AcslFault>
    ensures found { IfOk result (λ a. IsAnnot bytes.now a note.now) }
    ensures only { (a : Annot) → IsAnnot bytes.now a note.now → IsOnly a result }
    ensures fault { IfErr result (IsFault bytes.now note.now end) }
{
    match note_at(alloc, bytes, 0, note) {
        Ok((annot, rest)) => {
            if rest.is_empty() {
                Ok(annot)
            } else {
                let (before, _) = parted(note, rest.len());
                Err(refused(alloc, bytes, end, before, rest))
            }
        }
        Err(Fault::Unexpected(count)) => {
            let (before, left) = parted(note, count);
            Err(refused(alloc, bytes, end, before, left))
        }
        Err(Fault::TooDeep(count)) => {
            let (_, left) = parted(note, count);
            Err(AcslFault::TooDeep(place_at(end, left)))
        }
        Err(Fault::Memory) => Err(AcslFault::Memory),
    }
}
