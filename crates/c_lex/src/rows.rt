//! Looking up in tables of spellings.

ghost use Rattle.std.specs.Prelude.{◌≡◌, ◌≤◌, IfSome, length};
ghost use Rattle.c_lex.specs.Spellings.{word_of, word_in};
ghost use Rattle.c_lex.specs.inner.Reading.{first_row, rows_of, words_of};

use crate::bytes::begins;
use crate::tables::KEYWORDS;
use crate::token::{Keyword, Word};

/// The first row of a table that the bytes begin with, and its length.
pub(crate) fn first_row<T: Copy>(
    in_note: bool,
    rows: &[(&str, T, bool)],
    bytes: &[u8],
) -> Option<(T, usize)>
    ensures value { result ≡ first_row in_note (rows_of rows.now) bytes.now }
    ensures bound { IfSome result (λ r. r.1 ≤ length bytes.now) }
{
    for (text, value, in_notes) in rows {
        if (in_note || !*in_notes) && begins(text.as_bytes(), bytes) {
            return Some((*value, text.len()));
        }
    }
    None
}

/// The keyword of this spelling in a table, else a name.
fn word_in(rows: &[(&str, Keyword)], text: &[u8]) -> Word
    ensures { result ≡ word_in (words_of rows.now) text.now }
{
    for (keyword, value) in rows {
        if text == keyword.as_bytes() {
            return Word::Keyword(*value);
        }
    }
    Word::Name
}

/// The keyword of this spelling, else a name.
#[tactic(auto, unfolding(crate::specs::Spellings::word_of, crate::specs::Spellings::keywords))]
pub(crate) fn word_of(text: &[u8]) -> Word
    ensures { result ≡ word_of text.now }
{
    word_in(&KEYWORDS, text)
}
