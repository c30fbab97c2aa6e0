//! The piece of a text that stands first: a gap, which is a blank, a comment or a line marker, a token or
//! a fault.

ghost use Rattle.std.specs.Prelude.{◌≡◌, ◌+◌, ◌≤◌, ◌<◌, ◌^◌, ◌∷◌, ◌==◌, ◌&&◌, IfSome, length};
ghost use Rattle.c_lex.specs.Spellings.{escape};
ghost use Rattle.c_lex.specs.inner.Reading.{IsWithin, punct_at, word_at, escaped_at, char_value, char_at, text_at, block_at, line_at, slash_at, marker_at, symbol_at, piece_at};

use crate::bytes::{
    begins_word, inside_len, is_blank, is_first, is_marker, is_plain, line_len, text_len, word_len,
};
use crate::number::number_at;
use crate::rows::{first_row, word_of};
use crate::tables::PUNCTS;
use crate::token::TokenKind;
use fc_base::LiteralForm;

/// What stands first in some bytes, with its length.
#[derive(Clone, Copy, Debug, PartialEq, Eq)]
pub(crate) enum Piece {
    /// A blank, a comment or a line marker of so many bytes.
    Gap(usize),
    /// A token of so many bytes.
    Token(TokenKind, usize),
    /// The opening of a note, which has so many bytes between its opening and its end.
    Note(usize),
    /// A bad byte, so many bytes on.
    Bad(usize),
    /// A comment or a note that is never closed.
    Open,
    /// A number that is too large.
    Wide,
    /// A `#` that makes no line marker.
    Directive,
    /// A word that is too long.
    Long,
}

/// How an integer constant is written: its base, its digits, its suffix and its length.
#[derive(Clone, Copy, Debug, PartialEq, Eq)]
pub(crate) struct Shape {
    pub form: LiteralForm,
    /// How many digits it has.
    pub digits: usize,
    pub unsigned: bool,
    pub longs: u8,
    pub len: usize,
}

/// The longest punctuator that stands first.
#[tactic(auto, unfolding(crate::specs::inner::Reading::punct_at, crate::specs::Spellings::puncts))]
fn punct_at(in_note: bool, bytes: &[u8]) -> Piece
    ensures value { result ≡ punct_at in_note bytes.now }
    ensures within { IsWithin (length bytes.now) result }
{
    match first_row(in_note, &PUNCTS, bytes) {
        Some((punct, len)) => Piece::Token(TokenKind::Punct(punct), len),
        None => Piece::Bad(0),
    }
}

/// Whether the word is a `\` alone.
fn is_lone(first: u8, len: usize) -> bool
    ensures { result ≡ (first == 92 && len == 0) }
{
    first == b'\\' && len == 0
}

/// The word that stands first.
#[tactic(auto, unfolding(crate::specs::inner::Reading::word_at))]
fn word_at(first: u8, more: &[u8], bytes: &[u8]) -> Piece
    requires { bytes.now ≡ first ∷ more.now }
    ensures value { result ≡ word_at first more.now }
    ensures within { IsWithin (length bytes.now) result }
{
    let len = word_len(first, more);
    if is_lone(first, len) {
        return Piece::Bad(0);
    }
    if len >= 256 {
        return Piece::Long;
    }
    let (text, _) = bytes.split_at(len + 1);
    Piece::Token(TokenKind::Word(word_of(text)), len + 1)
}

/// The value of an escape sequence, by the byte after its `\`.
#[tactic(auto, unfolding(crate::specs::Spellings::escape))]
fn escape(byte: u8) -> Option<u8>
    ensures { result ≡ escape byte }
{
    match byte {
        b'n' => Some(b'\n'),
        b't' => Some(b'\t'),
        b'r' => Some(b'\r'),
        b'0' => Some(0),
        b'\\' => Some(b'\\'),
        b'\'' => Some(b'\''),
        b'"' => Some(b'"'),
        _ => None,
    }
}

/// The value of a character constant after its `\`, and the length of the constant.
#[tactic(auto, unfolding(crate::specs::inner::Reading::escaped_at))]
fn escaped_at(more: &[u8]) -> Option<(u8, usize)>
    ensures value { result ≡ escaped_at more.now }
    ensures within { IfSome result (λ c. c.1 ≤ length more.now + 2) }
{
    let (second, rest) = more.split_first()?;
    let value = escape(*second)?;
    if is_first(b'\'', rest) {
        Some((value, 4))
    } else {
        None
    }
}

/// The value of a character constant after its opening quote, and the length of the constant.
#[tactic(auto, unfolding(crate::specs::inner::Reading::char_value))]
fn char_value(more: &[u8]) -> Option<(u8, usize)>
    ensures value { result ≡ char_value more.now }
    ensures within { IfSome result (λ c. c.1 ≤ length more.now + 1) }
{
    let (first, rest) = more.split_first()?;
    if *first == b'\\' {
        return escaped_at(rest);
    }
    if is_plain(*first) && is_first(b'\'', rest) {
        Some((*first, 3))
    } else {
        None
    }
}

/// The character constant that stands first, where a single quote does.
#[tactic(auto, unfolding(crate::specs::inner::Reading::char_at))]
fn char_at(more: &[u8]) -> Piece
    ensures value { result ≡ char_at more.now }
    ensures within { IsWithin (length more.now + 1) result }
{
    match char_value(more) {
        Some((value, len)) => Piece::Token(TokenKind::Char(value), len),
        None => Piece::Bad(0),
    }
}

/// The string literal that stands first, where a quote does.
#[tactic(auto, unfolding(crate::specs::inner::Reading::text_at))]
fn text_at(more: &[u8]) -> Piece
    ensures value { result ≡ text_at more.now }
    ensures within { IsWithin (length more.now + 1) result }
{
    match text_len(more) {
        Some(len) => Piece::Token(TokenKind::Text, len + 2),
        None => Piece::Bad(0),
    }
}

/// The comment or the note whose `/*` stands before these bytes.
#[tactic(auto, unfolding(crate::specs::inner::Reading::block_at))]
fn block_at(rest: &[u8]) -> Piece
    requires { length rest.now < 2 ^ 32 }
    ensures value { result ≡ block_at rest.now }
    ensures within { IsWithin (length rest.now + 2) result }
{
    if is_first(b'@', rest) {
        let (_, inside) = rest.split_at(1);
        return match inside_len(inside) {
            Some(len) => Piece::Note(len),
            None => Piece::Open,
        };
    }
    match inside_len(rest) {
        Some(len) => Piece::Gap(len + 4),
        None => Piece::Open,
    }
}

/// The comment or the note whose `//` stands before these bytes.
#[tactic(auto, unfolding(crate::specs::inner::Reading::line_at))]
fn line_at(rest: &[u8]) -> Piece
    requires { length rest.now < 2 ^ 32 }
    ensures value { result ≡ line_at rest.now }
    ensures within { IsWithin (length rest.now + 2) result }
{
    if is_first(b'@', rest) {
        let (_, inside) = rest.split_at(1);
        Piece::Note(line_len(inside))
    } else {
        Piece::Gap(line_len(rest) + 2)
    }
}

/// What stands first outside notes where a `/` does.
#[tactic(auto, unfolding(crate::specs::inner::Reading::slash_at))]
fn slash_at(bytes: &[u8], more: &[u8]) -> Piece
    requires room { length bytes.now < 2 ^ 32 }
    requires longer { length bytes.now ≡ length more.now + 1 }
    ensures value { result ≡ slash_at bytes.now more.now }
    ensures within { IsWithin (length bytes.now) result }
{
    if is_first(b'*', more) {
        let (_, rest) = more.split_at(1);
        return block_at(rest);
    }
    if is_first(b'/', more) {
        let (_, rest) = more.split_at(1);
        return line_at(rest);
    }
    punct_at(false, bytes)
}

/// The line marker that stands first where a `#` is the first byte of its line.
#[tactic(auto, unfolding(crate::specs::inner::Reading::marker_at))]
fn marker_at(in_note: bool, more: &[u8]) -> Piece
    requires { length more.now < 2 ^ 32 }
    ensures value { result ≡ marker_at in_note more.now }
    ensures within { IsWithin (length more.now + 1) result }
{
    if is_marker(in_note, more) {
        Piece::Gap(line_len(more) + 1)
    } else {
        Piece::Directive
    }
}

/// What stands first where no blank, word or number does.
#[tactic(auto, unfolding(crate::specs::inner::Reading::symbol_at))]
fn symbol_at(in_note: bool, is_fresh: bool, first: u8, more: &[u8], bytes: &[u8]) -> Piece
    requires room { length bytes.now < 2 ^ 32 }
    requires parts { bytes.now ≡ first ∷ more.now }
    ensures value { result ≡ symbol_at in_note is_fresh first more.now }
    ensures within { IsWithin (length bytes.now) result }
{
    if first == b'\'' {
        return char_at(more);
    }
    if first == b'"' {
        return text_at(more);
    }
    if first == b'/' && !in_note {
        return slash_at(bytes, more);
    }
    if first == b'#' && is_fresh {
        return marker_at(in_note, more);
    }
    punct_at(in_note, bytes)
}

/// What stands first in these bytes, which are `first` and `more`.
#[tactic(auto, unfolding(crate::specs::inner::Reading::piece_at))]
pub(crate) fn piece_at(in_note: bool, is_fresh: bool, first: u8, more: &[u8], bytes: &[u8]) -> Piece
    requires room { length bytes.now < 2 ^ 32 }
    requires parts { bytes.now ≡ first ∷ more.now }
    ensures value { result ≡ piece_at in_note is_fresh first more.now }
    ensures within { IsWithin (length bytes.now) result }
{
    if is_blank(in_note, first) {
        return Piece::Gap(1);
    }
    if begins_word(in_note, first) {
        return word_at(first, more, bytes);
    }
    if first.is_ascii_digit() {
        return number_at(in_note, bytes);
    }
    symbol_at(in_note, is_fresh, first, more, bytes)
}
