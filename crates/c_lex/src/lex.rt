//! The tokens of a text, piece by piece.

ghost use Rattle.std.specs.Prelude.{◌≡◌, ◌+◌, ◌≤◌, ◌<◌, ◌||◌, true, take, drop, nat_lt, length, IfOk, IfErr, false};
ghost use Rattle.c_lex.specs.Bytes.{line_ends};
ghost use Rattle.c_lex.specs.Facts.{AreTokensOf, are_noted};
ghost use Rattle.c_lex.specs.Tokens.{Lexes, AreOnly, Stuck, IsOnlyFault, UnlessMemory, past_note, in_note, token_at, close_len};
ghost use Rattle.c_lex.specs.inner.Reading.{spot_of, seen, end_of, move_of, step_of, IsRoomy, GoesOn, IsPast, IsFreshPast, IsNotePlace, IsWithin};

use crate::bytes::{begins, line_ends};
use crate::fault::LexFault;
use crate::piece::{Piece, piece_at};
use crate::token::{Token, TokenKind, Tokens};
use fc_base::{Line, Span};
use sqlite_items::Items;
use std::alloc::Global;

/// A place between two pieces: its offset and line, whether only gaps stand before it on its line,
/// whether it is in a note, the bytes from there to the end of the note or of the text, and those after
/// the note.
#[derive(Clone, Copy)]
pub(crate) struct Place<'a> {
    at: u32,
    line: u32,
    is_fresh: bool,
    in_note: bool,
    bytes: &'a [u8],
    after: &'a [u8],
}

/// What comes next in a text.
pub(crate) enum Step<'a> {
    End,
    /// No token.
    Gap(Place<'a>),
    Token(Token, Place<'a>),
    Stuck(LexFault),
}

impl<'a> Place<'a> {
    /// A token of `len` bytes that begins here.
    fn token(self, kind: TokenKind, len: u32) -> Token
        requires { self.at + len < 4294967296 }
        ensures { result ≡ token_at (spot_of self.entry) kind len }
    {
        Token {
            kind,
            span: Span {
                from: self.at,
                to: self.at + len,
            },
            line: Line(self.line),
        }
    }

    /// The place after so many bytes.
    fn past(self, len: usize, is_fresh: bool) -> Place<'a>
        requires room { IsRoomy self }
        requires within { len ≤ length self.bytes.now }
        ensures value { IsPast self.entry len is_fresh (spot_of result) }
        ensures room { IsRoomy result }
    {
        let (text, rest) = self.bytes.split_at(len);
        Place {
            at: self.at + len as u32,
            line: self.line + line_ends(text) as u32,
            is_fresh,
            in_note: self.in_note,
            bytes: rest,
            after: self.after,
        }
    }

    /// Whether only gaps stand on the line before the place after a gap of so many bytes.
    fn is_fresh_past(self, len: usize) -> bool
        requires { len ≤ length self.bytes.now }
        ensures { IsFreshPast self.entry len result }
    {
        let (text, _) = self.bytes.split_at(len);
        self.is_fresh || 0 < line_ends(text)
    }

    /// The place in the note that begins here, with so many bytes in it.
    fn in_note(self, len: usize) -> Place<'a>
        requires room { IsRoomy self }
        requires within { len + 3 ≤ length self.bytes.now }
        ensures value { IsNotePlace self.entry len (spot_of result) }
        ensures room { IsRoomy result }
    {
        let (_, rest) = self.bytes.split_at(3);
        let (inside, after) = rest.split_at(len);
        Place {
            at: self.at + 3,
            line: self.line,
            is_fresh: false,
            in_note: true,
            bytes: inside,
            after,
        }
    }

    /// How many bytes close the note that ends here.
    fn close_len(self) -> usize
        ensures value { result ≡ close_len self.entry.after.now }
        ensures within { result ≤ length self.entry.after.now }
        ensures few { result ≤ 2 }
    {
        if begins(b"*/", self.after) { 2 } else { 0 }
    }

    /// The place after the note that ends here.
    fn past_note(self, len: usize) -> Place<'a>
        requires room { IsRoomy self }
        requires is_note { self.in_note ≡ true }
        requires is_end { length self.bytes.now ≡ 0 }
        requires is_close { len ≡ close_len self.after.now }
        requires within { len ≤ length self.after.now }
        ensures value { spot_of result ≡ past_note (spot_of self.entry) }
        ensures room { IsRoomy result }
    {
        let (_, rest) = self.after.split_at(len);
        let empty: &[u8] = &[];
        Place {
            at: self.at + len as u32,
            line: self.line,
            is_fresh: false,
            in_note: false,
            bytes: rest,
            after: empty,
        }
    }
}

/// What comes next where no bytes are left of the note or of the text.
#[tactic(auto, unfolding(crate::specs::inner::Reading::end_of))]
fn end_of<'a>(place: Place<'a>) -> Step<'a>
    requires room { IsRoomy place }
    requires is_end { length place.bytes.now ≡ 0 }
    ensures value { seen result ≡ end_of (spot_of place.entry) }
    ensures room { GoesOn result }
{
    if !place.in_note {
        return Step::End;
    }
    let len = place.close_len();
    Step::Token(
        place.token(TokenKind::NoteTo, len as u32),
        place.past_note(len),
    )
}

/// What the piece that stands first comes to.
fn move_of<'a>(place: Place<'a>, piece: Piece) -> Step<'a>
    requires room { IsRoomy place }
    requires within { IsWithin (length place.bytes.now) piece }
    ensures value { seen result ≡ move_of (spot_of place.entry) piece }
    ensures room { GoesOn result }
{
    match piece {
        Piece::Gap(len) => Step::Gap(place.past(len, place.is_fresh_past(len))),
        Piece::Token(kind, len) => {
            Step::Token(place.token(kind, len as u32), place.past(len, false))
        }
        Piece::Note(len) => Step::Token(place.token(TokenKind::NoteFrom, 3), place.in_note(len)),
        Piece::Bad(len) => Step::Stuck(LexFault::BadByte(place.at + len as u32)),
        Piece::Open => Step::Stuck(LexFault::OpenComment(place.at)),
        Piece::Wide => Step::Stuck(LexFault::LiteralTooWide(place.at)),
        Piece::Directive => Step::Stuck(LexFault::Directive(Line(place.line))),
        Piece::Long => Step::Stuck(LexFault::NameTooLong(place.at)),
    }
}

/// What comes next.
#[tactic(auto, unfolding(crate::specs::inner::Reading::step_of))]
fn step_of<'a>(place: Place<'a>) -> Step<'a>
    requires { IsRoomy place }
    ensures value { seen result ≡ step_of (spot_of place.entry) }
    ensures room { GoesOn result }
{
    match place.bytes.split_first() {
        None => end_of(place),
        Some((first, more)) => {
            let piece = piece_at(place.in_note, place.is_fresh, *first, more, place.bytes);
            move_of(place, piece)
        }
    }
}

/// The tokens of a text of at most 4,194,304 bytes, in its order (C11 6.4; ACSL manual, lexical rules):
/// words, integer and character constants, string literals, punctuators, and the openings and ends of notes,
/// whose tokens stand between them. Offsets count from 0, lines from 1. Where the text has no tokens the
/// fault is the one that stands first in it. `Memory` may come for any text.
pub fn tokens(alloc: Global, bytes: &[u8]) -> Result<Tokens, LexFault>
    requires { length bytes.now ≤ 4194304 }
    ensures found { IfOk result (Lexes bytes.now) }
    ensures only { IfOk result (AreOnly bytes.now) }
    ensures in_place { IfOk result (AreTokensOf bytes.now 0) }
    ensures noted { IfOk result (λ tokens. are_noted false tokens ≡ true) }
    ensures few { IfOk result (λ tokens. length tokens ≤ length bytes.now) }
    ensures fault { IfErr result (UnlessMemory (Stuck bytes.now)) }
    ensures only_fault { IfErr result (UnlessMemory (IsOnlyFault bytes.now)) }
{
    let mut tokens = Items::new(alloc);
    let empty: &[u8] = &[];
    let mut place = Place {
        at: 0,
        line: 1,
        is_fresh: true,
        in_note: false,
        bytes,
        after: empty,
    };
    'lexing: loop {
        match step_of(place) {
            Step::End => return Ok(tokens),
            Step::Gap(next) => place = next,
            Step::Token(token, next) => {
                tokens.push(token)?;
                place = next;
            }
            Step::Stuck(fault) => return Err(fault),
        }
    }
}
