//! Notes, of which only the place is read.

ghost use Rattle.std.specs.Prelude.{◌≡◌, ◌≤◌, ◌<◌, IfOk, length, ◌∷◌, []};
ghost use Rattle.grammar_forms.specs.Forms.{Made};
ghost use Rattle.grammar_forms.specs.inner.Reading.{Read};
ghost use Rattle.c_parse.specs.Table as R;
ghost use Rattle.c_parse.specs.Trees.{OfSpot, OfSpots, OfNothing, spots_in};
ghost use Rattle.c_parse.specs.inner.Outcome.{Gives, Goes, Passes, read};

use crate::class::{Class, class_at, is, is_one_of};
use crate::fault::Fault;
use crate::look::take;
use crate::place::{reach, spot_of};
use c_ast::Spots;
use c_lex::Token;
use fc_base::Spot;
use sqlite_items::Items;
use std::alloc::Global;

const IN_NOTE: [Class; 41] = [
    Class::Name,
    Class::Constant,
    Class::Storage,
    Class::TypeWord,
    Class::Void,
    Class::VoidLast,
    Class::ParenOpen,
    Class::ParenType,
    Class::ParenClose,
    Class::BracketOpen,
    Class::BracketClose,
    Class::BraceOpen,
    Class::BraceClose,
    Class::Semicolon,
    Class::Comma,
    Class::CommaLast,
    Class::Question,
    Class::Colon,
    Class::If,
    Class::Else,
    Class::While,
    Class::Do,
    Class::For,
    Class::Break,
    Class::Continue,
    Class::Return,
    Class::LogicOr,
    Class::LogicAnd,
    Class::Or,
    Class::Xor,
    Class::And,
    Class::Equality,
    Class::Relation,
    Class::Shift,
    Class::Additive,
    Class::Multiplicative,
    Class::Complement,
    Class::Step,
    Class::Equals,
    Class::AssignOp,
    Class::Other,
];

/// What stands after one more token of a note, if the note goes on.
#[tactic(auto, using(crate::proofs::Notes::note_ends))]
fn pass<'a>(bytes: &[u8], depth: usize, tokens: &'a [Token]) -> Option<&'a [Token]>
    ensures { Passes (read bytes.now R.InNote depth) tokens.now result }
{
    let Some((_, rest)) = tokens.split_first() else {
        return None;
    };
    if is_one_of(&IN_NOTE, class_at(tokens)) {
        Some(rest)
    } else {
        None
    }
}

/// What stands after the tokens of a note.
fn passed<'a>(bytes: &[u8], depth: usize, tokens: &'a [Token]) -> &'a [Token]
    ensures value { read bytes.now R.InNote depth tokens.now ≡ Read (Made OfNothing) result.now }
    ensures no_longer { length result.now ≤ length tokens.now }
{
    let mut rest = tokens;
    'passing: loop {
        match pass(bytes, depth, rest) {
            Some(end) => rest = end,
            None => return rest,
        }
    }
}

/// A note.
#[tactic(auto, using(crate::proofs::Rows::note_row))]
pub(crate) fn note_at<'a>(
    bytes: &[u8],
    depth: usize,
    tokens: &'a [Token],
) -> Result<(Spot, &'a [Token]), Fault>
    ensures value { Gives (λ s. Made (OfSpot s)) result (read bytes.now R.Note depth tokens.now) }
    ensures shorter { IfOk result (λ x. length x.1.now < length tokens.now) }
{
    let (from, rest) = take(Class::NoteFrom, tokens)?;
    let rest = passed(bytes, depth, rest);
    let (to, end) = take(Class::NoteTo, rest)?;
    Ok((reach(spot_of(from), spot_of(to)), end))
}

/// One more note, if there is one.
#[tactic(auto, using(crate::proofs::Rows::notes_row, crate::proofs::Loops::fuse))]
fn next_note<'a>(
    bytes: &[u8],
    depth: usize,
    tokens: &'a [Token],
) -> Result<Option<(Spot, &'a [Token])>, Fault>
    ensures { Goes (Made (OfSpots [])) (λ s v. Made (OfSpots (s ∷ spots_in v))) (read bytes.now R.Notes depth) tokens.now result }
{
    if !is(tokens, Class::NoteFrom) {
        return Ok(None);
    }
    let (note, rest) = note_at(bytes, depth, tokens)?;
    Ok(Some((note, rest)))
}

/// Notes, or none.
#[tactic(auto, using(crate::proofs::Lists::notes_begin, crate::proofs::Lists::spots_more, crate::proofs::Loops::fails_whole))]
pub(crate) fn notes_at<'a>(
    alloc: Global,
    bytes: &[u8],
    depth: usize,
    tokens: &'a [Token],
) -> Result<(Spots, &'a [Token]), Fault>
    ensures value { Gives (λ ss. Made (OfSpots ss)) result (read bytes.now R.Notes depth tokens.now) }
    ensures no_longer { IfOk result (λ x. length x.1.now ≤ length tokens.now) }
{
    let mut found = Items::new(alloc);
    let mut rest = tokens;
    'adding: loop {
        match next_note(bytes, depth, rest) {
            Ok(Some((note, end))) => {
                found.push(note)?;
                rest = end;
            }
            Ok(None) => return Ok((found, rest)),
            Err(fault) => return Err(fault),
        }
    }
}
