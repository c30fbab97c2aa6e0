//! External declarations (C11 6.9).

ghost use Rattle.std.specs.Prelude.{◌≡◌, ◌≤◌, ◌<◌, IfOk, length, ◌∷◌, []};
ghost use Rattle.grammar_forms.specs.Forms.{Made};
ghost use Rattle.c_parse.specs.Table as R;
ghost use Rattle.c_parse.specs.Trees.{OfFormal, OfFormals, OfEnded, OfNamed, OfWords, OfItem, OfItems, formals_in, items_in, words_in, stored_of, storages_of, external};
ghost use Rattle.c_parse.specs.inner.Outcome.{Gives, Goes, read};

use crate::build::declr_of;
use crate::build_stmt::{close_at, formal_of, start_at};
use crate::class::{Class, class_at, is, is_one_of};
use crate::declare::{declr_tail_at, maybe_name_at, more_declrs_at};
use crate::expr::{COMMAS, PARENS};
use crate::fault::Fault;
use crate::look::{deeper, take, take_one};
use crate::note::note_at;
use crate::part::{Ended, Named, Stored};
use crate::place::{ident_of, reach, spot_of};
use crate::spec::{FIRST_WORDS, first_spec_at, spec_at};
use crate::stmt::block_at;
use crate::word::storage;
use c_ast::{Formal, Formals, Function, Global as Object, Item, Spec, Storages};
use c_lex::Token;
use sqlite_items::Items;
use std::alloc::{AllocError, Global};

const UNIT_FIRST: [Class; 5] = [
    Class::NoteFrom,
    Class::Storage,
    Class::TypeWord,
    Class::Void,
    Class::VoidLast,
];

/// A formal parameter.
#[tactic(auto, using(crate::proofs::Rows::formal_row))]
fn formal_at<'a>(
    alloc: Global,
    bytes: &[u8],
    depth: usize,
    tokens: &'a [Token],
) -> Result<(Formal, &'a [Token]), Fault>
    ensures value { Gives (λ f. Made (OfFormal f)) result (read bytes.now R.Formal depth tokens.now) }
    ensures shorter { IfOk result (λ x. length x.1.now < length tokens.now) }
{
    let (spec, rest) = spec_at(alloc, bytes, depth, tokens)?;
    let (name, end) = maybe_name_at(alloc, bytes, depth, rest)?;
    Ok((formal_of(spec, name), end))
}

/// The first formal parameter.
#[tactic(auto, using(crate::proofs::Rows::first_formal_row))]
fn first_formal_at<'a>(
    alloc: Global,
    bytes: &[u8],
    depth: usize,
    tokens: &'a [Token],
) -> Result<(Formal, &'a [Token]), Fault>
    ensures value { Gives (λ f. Made (OfFormal f)) result (read bytes.now R.FirstFormal depth tokens.now) }
    ensures shorter { IfOk result (λ x. length x.1.now < length tokens.now) }
{
    let (spec, rest) = first_spec_at(alloc, bytes, depth, tokens)?;
    let (name, end) = maybe_name_at(alloc, bytes, depth, rest)?;
    Ok((formal_of(spec, name), end))
}

/// One more formal parameter, if there is a comma.
#[tactic(auto, using(crate::proofs::Rows::more_formals_row, crate::proofs::Loops::fuse))]
fn next_formal<'a>(
    alloc: Global,
    bytes: &[u8],
    depth: usize,
    tokens: &'a [Token],
) -> Result<Option<(Formal, &'a [Token])>, Fault>
    ensures { Goes (Made (OfFormals [])) (λ f v. Made (OfFormals (f ∷ formals_in v))) (read bytes.now R.MoreFormals depth) tokens.now result }
{
    if !is_one_of(&COMMAS, class_at(tokens)) {
        return Ok(None);
    }
    let (_, rest) = take_one(&COMMAS, tokens)?;
    let (formal, end) = formal_at(alloc, bytes, depth, rest)?;
    Ok(Some((formal, end)))
}

/// Further formal parameters.
#[tactic(auto, using(crate::proofs::Lists::more_formals_begin, crate::proofs::Lists::formals_more, crate::proofs::Loops::fails_whole))]
fn more_formals_at<'a>(
    alloc: Global,
    bytes: &[u8],
    depth: usize,
    tokens: &'a [Token],
) -> Result<(Formals, &'a [Token]), Fault>
    ensures value { Gives (λ fs. Made (OfFormals fs)) result (read bytes.now R.MoreFormals depth tokens.now) }
    ensures no_longer { IfOk result (λ x. length x.1.now ≤ length tokens.now) }
{
    let mut found = Items::new(alloc);
    let mut rest = tokens;
    'adding: loop {
        match next_formal(alloc, bytes, depth, rest) {
            Ok(Some((formal, end))) => {
                found.push(formal)?;
                rest = end;
            }
            Ok(None) => return Ok((found, rest)),
            Err(fault) => return Err(fault),
        }
    }
}

/// Formal parameters, or none.
#[tactic(auto, using(crate::proofs::Rows::formals_row))]
fn formals_at<'a>(
    alloc: Global,
    bytes: &[u8],
    depth: usize,
    tokens: &'a [Token],
) -> Result<(Formals, &'a [Token]), Fault>
    ensures value { Gives (λ fs. Made (OfFormals fs)) result (read bytes.now R.Formals depth tokens.now) }
    ensures no_longer { IfOk result (λ x. length x.1.now ≤ length tokens.now) }
{
    let mut formals = Items::new(alloc);
    if is(tokens, Class::VoidLast) {
        let (_, end) = take(Class::VoidLast, tokens)?;
        return Ok((formals, end));
    }
    if !is_one_of(&FIRST_WORDS, class_at(tokens)) {
        return Ok((formals, tokens));
    }
    let (first, rest) = first_formal_at(alloc, bytes, depth, tokens)?;
    let (more, end) = more_formals_at(alloc, bytes, depth, rest)?;
    formals.push(first)?;
    formals.append(more)?;
    Ok((formals, end))
}

/// Formal parameters in their parentheses.
#[tactic(auto, using(crate::proofs::Rows::formal_parens_row))]
fn formal_parens_at<'a>(
    alloc: Global,
    bytes: &[u8],
    depth: usize,
    tokens: &'a [Token],
) -> Result<(Formals, &'a [Token]), Fault>
    requires { depth ≤ 200 }
    ensures value { Gives (λ fs. Made (OfFormals fs)) result (read bytes.now R.FormalParens depth tokens.now) }
    ensures shorter { IfOk result (λ x. length x.1.now < length tokens.now) }
{
    let (_, rest) = take_one(&PARENS, tokens)?;
    let inner = deeper(depth, tokens)?;
    let (formals, rest) = formals_at(alloc, bytes, inner, rest)?;
    let (_, end) = take(Class::ParenClose, rest)?;
    Ok((formals, end))
}

/// A semicolon or the body of a function.
#[tactic(auto, using(crate::proofs::Rows::function_end_row))]
fn function_end_at<'a>(
    alloc: Global,
    bytes: &[u8],
    depth: usize,
    tokens: &'a [Token],
) -> Result<(Ended, &'a [Token]), Fault>
    requires { depth ≤ 200 }
    ensures value { Gives (λ e. Made (OfEnded e)) result (read bytes.now R.FunctionEnd depth tokens.now) }
    ensures shorter { IfOk result (λ x. length x.1.now < length tokens.now) }
{
    if is(tokens, Class::Semicolon) {
        let (semicolon, end) = take(Class::Semicolon, tokens)?;
        let ended = Ended {
            body: None,
            end: spot_of(semicolon),
            close: None,
        };
        return Ok((ended, end));
    }
    let (block, end) = block_at(alloc, bytes, depth, tokens)?;
    let ended = Ended {
        body: Some(block.stmts),
        end: block.at,
        close: Some(block.close),
    };
    Ok((ended, end))
}

/// What stands after the name of a function.
#[tactic(auto, using(crate::proofs::Rows::function_tail_row))]
fn function_tail_at<'a>(
    alloc: Global,
    bytes: &[u8],
    depth: usize,
    tokens: &'a [Token],
) -> Result<(Named, &'a [Token]), Fault>
    requires { depth ≤ 200 }
    ensures value { Gives (λ n. Made (OfNamed n)) result (read bytes.now R.FunctionTail depth tokens.now) }
    ensures shorter { IfOk result (λ x. length x.1.now < length tokens.now) }
{
    let (formals, rest) = formal_parens_at(alloc, bytes, depth, tokens)?;
    let (ended, end) = function_end_at(alloc, bytes, depth, rest)?;
    Ok((Named::Function(formals, ended), end))
}

/// What stands after the name of an object.
#[tactic(auto, using(crate::proofs::Rows::global_tail_row))]
fn global_tail_at<'a>(
    alloc: Global,
    bytes: &[u8],
    depth: usize,
    tokens: &'a [Token],
) -> Result<(Named, &'a [Token]), Fault>
    requires { depth ≤ 200 }
    ensures value { Gives (λ n. Made (OfNamed n)) result (read bytes.now R.GlobalTail depth tokens.now) }
    ensures shorter { IfOk result (λ x. length x.1.now < length tokens.now) }
{
    let (first, rest) = declr_tail_at(alloc, bytes, depth, tokens)?;
    let (more, rest) = more_declrs_at(alloc, bytes, depth, rest)?;
    let (semicolon, end) = take(Class::Semicolon, rest)?;
    Ok((Named::Global(first, more, spot_of(semicolon)), end))
}

/// What stands after the name of an external declaration.
#[tactic(auto, using(crate::proofs::Rows::external_tail_row))]
fn external_tail_at<'a>(
    alloc: Global,
    bytes: &[u8],
    depth: usize,
    tokens: &'a [Token],
) -> Result<(Named, &'a [Token]), Fault>
    requires { depth ≤ 200 }
    ensures value { Gives (λ n. Made (OfNamed n)) result (read bytes.now R.ExternalTail depth tokens.now) }
    ensures shorter { IfOk result (λ x. length x.1.now < length tokens.now) }
{
    if is_one_of(&PARENS, class_at(tokens)) {
        return function_tail_at(alloc, bytes, depth, tokens);
    }
    global_tail_at(alloc, bytes, depth, tokens)
}

/// One more storage class, if there is one.
#[tactic(auto, using(crate::proofs::Rows::storages_row, crate::proofs::Loops::fuse))]
fn next_storage<'a>(
    bytes: &[u8],
    depth: usize,
    tokens: &'a [Token],
) -> Result<Option<(Token, &'a [Token])>, Fault>
    ensures { Goes (Made (OfWords [])) (λ t v. Made (OfWords (t ∷ words_in v))) (read bytes.now R.Storages depth) tokens.now result }
{
    if !is(tokens, Class::Storage) {
        return Ok(None);
    }
    let (word, end) = take(Class::Storage, tokens)?;
    Ok(Some((word, end)))
}

/// Storage classes, or none.
#[tactic(auto, using(crate::proofs::Lists::storages_begin, crate::proofs::Lists::words_more, crate::proofs::Loops::fails_whole))]
fn storages_at<'a>(
    alloc: Global,
    bytes: &[u8],
    depth: usize,
    tokens: &'a [Token],
) -> Result<(Items<Token>, &'a [Token]), Fault>
    ensures value { Gives (λ s. Made (OfWords s)) result (read bytes.now R.Storages depth tokens.now) }
    ensures no_longer { IfOk result (λ x. length x.1.now ≤ length tokens.now) }
{
    let mut found = Items::new(alloc);
    let mut rest = tokens;
    'adding: loop {
        match next_storage(bytes, depth, rest) {
            Ok(Some((word, end))) => {
                found.push(word)?;
                rest = end;
            }
            Ok(None) => return Ok((found, rest)),
            Err(fault) => return Err(fault),
        }
    }
}

/// The storage classes that these tokens are, and where they begin.
fn stored(alloc: Global, words: &[Token]) -> Result<Stored, AllocError>
    ensures { IfOk result (λ s. s ≡ stored_of words.now) }
{
    let start = match words.split_first() {
        Some((first, _)) => Some(spot_of(*first)),
        None => None,
    };
    let storage = storages(alloc, words)?;
    Ok(Stored { storage, start })
}

fn storages(alloc: Global, words: &[Token]) -> Result<Storages, AllocError>
    ensures { IfOk result (λ ss. ss ≡ storages_of words.now) }
{
    let mut found = Items::new(alloc);
    for word in words {
        found.push(storage(word.kind))?;
    }
    Ok(found)
}

/// The external declaration of these parts.
fn external(
    alloc: Global,
    bytes: &[u8],
    stored: Stored,
    spec: Spec,
    name: Token,
    named: Named,
) -> Result<Item, AllocError>
    ensures { IfOk result (λ i. i ≡ external bytes.now stored spec name named) }
{
    match named {
        Named::Function(formals, ended) => {
            let ident = ident_of(alloc, bytes, name)?;
            Ok(Item::Function(Function {
                at: reach(start_at(stored.start, spec.at), ended.end),
                storage: stored.storage,
                spec,
                name: ident,
                formals,
                body: ended.body,
                close: close_at(ended.close, name.line),
            }))
        }
        Named::Global(rest, more, end) => {
            let first = declr_of(alloc, bytes, name, rest)?;
            let mut declrs = Items::new(alloc);
            declrs.push(first)?;
            declrs.append(more)?;
            Ok(Item::Global(Object {
                at: reach(start_at(stored.start, spec.at), end),
                storage: stored.storage,
                spec,
                declrs,
            }))
        }
    }
}

/// An external declaration.
#[tactic(auto, using(crate::proofs::Rows::external_row))]
fn external_at<'a>(
    alloc: Global,
    bytes: &[u8],
    depth: usize,
    tokens: &'a [Token],
) -> Result<(Item, &'a [Token]), Fault>
    requires { depth ≤ 200 }
    ensures value { Gives (λ i. Made (OfItem i)) result (read bytes.now R.External depth tokens.now) }
    ensures shorter { IfOk result (λ x. length x.1.now < length tokens.now) }
{
    let (words, rest) = storages_at(alloc, bytes, depth, tokens)?;
    let (spec, rest) = spec_at(alloc, bytes, depth, rest)?;
    let (name, rest) = take(Class::Name, rest)?;
    let (named, end) = external_tail_at(alloc, bytes, depth, rest)?;
    let stored = stored(alloc, words.as_slice())?;
    Ok((external(alloc, bytes, stored, spec, name, named)?, end))
}

/// A note or an external declaration.
#[tactic(auto, using(crate::proofs::Rows::unit_item_row))]
fn unit_item_at<'a>(
    alloc: Global,
    bytes: &[u8],
    depth: usize,
    tokens: &'a [Token],
) -> Result<(Item, &'a [Token]), Fault>
    requires { depth ≤ 200 }
    ensures value { Gives (λ i. Made (OfItem i)) result (read bytes.now R.UnitItem depth tokens.now) }
    ensures shorter { IfOk result (λ x. length x.1.now < length tokens.now) }
{
    if is(tokens, Class::NoteFrom) {
        let (note, end) = note_at(bytes, depth, tokens)?;
        return Ok((Item::Note(note), end));
    }
    external_at(alloc, bytes, depth, tokens)
}

/// One more of a text, if there is one.
#[tactic(auto, using(crate::proofs::Rows::unit_items_row, crate::proofs::Loops::fuse))]
fn next_unit_item<'a>(
    alloc: Global,
    bytes: &[u8],
    depth: usize,
    tokens: &'a [Token],
) -> Result<Option<(Item, &'a [Token])>, Fault>
    requires { depth ≤ 200 }
    ensures { Goes (Made (OfItems [])) (λ i v. Made (OfItems (i ∷ items_in v))) (read bytes.now R.UnitItems depth) tokens.now result }
{
    if !is_one_of(&UNIT_FIRST, class_at(tokens)) {
        return Ok(None);
    }
    let (item, end) = unit_item_at(alloc, bytes, depth, tokens)?;
    Ok(Some((item, end)))
}

/// What stands in a text.
#[tactic(auto, using(crate::proofs::Lists::unit_items_begin, crate::proofs::Lists::items_more, crate::proofs::Loops::fails_whole))]
pub(crate) fn unit_items_at<'a>(
    alloc: Global,
    bytes: &[u8],
    depth: usize,
    tokens: &'a [Token],
) -> Result<(Items<Item>, &'a [Token]), Fault>
    requires { depth ≤ 200 }
    ensures value { Gives (λ is. Made (OfItems is)) result (read bytes.now R.UnitItems depth tokens.now) }
    ensures no_longer { IfOk result (λ x. length x.1.now ≤ length tokens.now) }
{
    let mut found = Items::new(alloc);
    let mut rest = tokens;
    'adding: loop {
        match next_unit_item(alloc, bytes, depth, rest) {
            Ok(Some((item, end))) => {
                found.push(item)?;
                rest = end;
            }
            Ok(None) => return Ok((found, rest)),
            Err(fault) => return Err(fault),
        }
    }
}
