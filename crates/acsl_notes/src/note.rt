//! One note among the tokens of a text.

ghost use Rattle.std.specs.Prelude.{◌≡◌};
ghost use Rattle.std.specs.Option.{option_map};
ghost use Rattle.acsl_notes.specs.Notes.{closes, closed, opened};
ghost use Rattle.acsl_notes.specs.inner.Reading.{Adds, Reads, between};

use acsl_read::{AcslFault, read};
use c_ast::Annot;
use c_lex::{Token, TokenKind};
use sqlite_items::Items;
use std::alloc::Global;

/// The tokens of a note, and the place of the token that closes it.
#[derive(Clone, Copy)]
pub(crate) struct Note<'a> {
    tokens: &'a [Token],
    end: u32,
}

fn closes(kind: TokenKind) -> bool
    ensures { result ≡ closes kind }
{
    match kind {
        TokenKind::NoteTo => true,
        _ => false,
    }
}

/// The tokens before the first that closes a note, with that one's place.
fn closed(tokens: &[Token]) -> Option<Note<'_>>
    ensures { option_map between result ≡ closed tokens.now }
{
    let mut count: usize = 0;
    for token in tokens {
        if closes(token.kind) {
            let (tokens, _) = tokens.split_at(count);
            let end = token.span.from;
            return Some(Note { tokens, end });
        }
        count += 1;
    }
    None
}

/// The note that a token opens, before these tokens.
fn opened(token: Token, behind: &[Token]) -> Option<Note<'_>>
    ensures { option_map between result ≡ opened token.kind behind.now }
{
    match token.kind {
        TokenKind::NoteFrom => closed(behind),
        _ => None,
    }
}

/// Adds the annotation of the note that a token opens, before these tokens; nothing where it opens none.
pub(crate) fn add_opened(
    alloc: Global,
    bytes: &[u8],
    annots: &mut Items<Annot>,
    token: Token,
    behind: &[Token],
) -> Result<(), AcslFault>
    ensures { Adds bytes.now (opened token.kind behind.now) annots.old annots.new result }
{
    match opened(token, behind) {
        None => Ok(()),
        Some(note) => add(alloc, bytes, annots, note),
    }
}

/// Adds the annotation of a note.
fn add(
    alloc: Global,
    bytes: &[u8],
    annots: &mut Items<Annot>,
    note: Note<'_>,
) -> Result<(), AcslFault>
    ensures { Reads bytes.now (between note.entry) annots.old annots.new result }
{
    let annot = match read(alloc, bytes, note.tokens, note.end) {
        Ok(annot) => annot,
        Err(fault) => return Err(fault),
    };
    match annots.push(annot) {
        Ok(()) => Ok(()),
        Err(_) => Err(AcslFault::Memory),
    }
}
