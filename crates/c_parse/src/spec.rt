//! Specifiers of types.

ghost use Rattle.std.specs.Prelude.{◌≡◌, ◌≤◌, ◌<◌, IfOk, List, ◌∷◌, [], length};
ghost use Rattle.grammar_forms.specs.Forms.{Made};
ghost use Rattle.c_parse.specs.Table.{Specs, FirstSpecs, MoreWords, type_words};
ghost use Rattle.c_parse.specs.Trees.{OfSpec, OfWords, words_in};
ghost use Rattle.c_parse.specs.Places.{spot_of};
ghost use Rattle.c_parse.specs.Words.{spec_word};
ghost use Rattle.c_parse.specs.inner.Lists.{spec_after};
ghost use Rattle.c_parse.specs.inner.Outcome.{Gives, Goes, read};

use crate::class::{Class, class_at, is_one_of};
use crate::fault::Fault;
use crate::look::take_one;
use crate::place::{reach, spot_of};
use crate::word::spec_word;
use c_ast::{Spec, SpecWords};
use c_lex::Token;
use fc_base::Spot;
use sqlite_items::Items;
use std::alloc::Global;

pub(crate) const TYPE_WORDS: [Class; 3] = [Class::TypeWord, Class::Void, Class::VoidLast];

pub(crate) const FIRST_WORDS: [Class; 2] = [Class::TypeWord, Class::Void];

/// One more specifier, if there is one.
#[tactic(auto, using(crate::proofs::Rows::more_words_row, crate::proofs::Loops::fuse))]
fn next_word<'a>(
    bytes: &[u8],
    depth: usize,
    tokens: &'a [Token],
) -> Result<Option<(Token, &'a [Token])>, Fault>
    ensures { Goes (Made (OfWords [])) (λ t v. Made (OfWords (t ∷ words_in v))) (read bytes.now MoreWords depth) tokens.now result }
{
    if !is_one_of(&TYPE_WORDS, class_at(tokens)) {
        return Ok(None);
    }
    let (word, rest) = take_one(&TYPE_WORDS, tokens)?;
    Ok(Some((word, rest)))
}

/// The specifiers that begin with this one.
#[tactic(auto, using(crate::proofs::Loops::spec_more, crate::proofs::Loops::fails_whole))]
fn specs_from<'a>(
    alloc: Global,
    bytes: &[u8],
    depth: usize,
    first: Token,
    tokens: &'a [Token],
) -> Result<(Spec, &'a [Token]), Fault>
    ensures value { Gives (λ s. Made (OfSpec s)) result (spec_after (spot_of first) (spec_word first.kind ∷ []) (read bytes.now MoreWords depth tokens.now)) }
    ensures no_longer { IfOk result (λ x. length x.1.now ≤ length tokens.now) }
{
    let mut at = spot_of(first);
    let mut words = Items::new(alloc);
    words.push(spec_word(first.kind))?;
    let mut rest = tokens;
    'adding: loop {
        match next_word(bytes, depth, rest) {
            Ok(Some((word, end))) => {
                at = reach(at, spot_of(word));
                words.push(spec_word(word.kind))?;
                rest = end;
            }
            Ok(None) => return Ok((Spec { at, words }, rest)),
            Err(fault) => return Err(fault),
        }
    }
}

/// Specifiers.
#[tactic(auto, using(crate::proofs::Rows::specs_row))]
pub(crate) fn spec_at<'a>(
    alloc: Global,
    bytes: &[u8],
    depth: usize,
    tokens: &'a [Token],
) -> Result<(Spec, &'a [Token]), Fault>
    ensures value { Gives (λ s. Made (OfSpec s)) result (read bytes.now Specs depth tokens.now) }
    ensures shorter { IfOk result (λ x. length x.1.now < length tokens.now) }
{
    let (first, rest) = take_one(&TYPE_WORDS, tokens)?;
    specs_from(alloc, bytes, depth, first, rest)
}

/// Specifiers that begin with another word than `void` before `)`.
#[tactic(auto, using(crate::proofs::Rows::first_specs_row))]
pub(crate) fn first_spec_at<'a>(
    alloc: Global,
    bytes: &[u8],
    depth: usize,
    tokens: &'a [Token],
) -> Result<(Spec, &'a [Token]), Fault>
    ensures value { Gives (λ s. Made (OfSpec s)) result (read bytes.now FirstSpecs depth tokens.now) }
    ensures shorter { IfOk result (λ x. length x.1.now < length tokens.now) }
{
    let (first, rest) = take_one(&FIRST_WORDS, tokens)?;
    specs_from(alloc, bytes, depth, first, rest)
}
