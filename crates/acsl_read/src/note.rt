//! Notes (ACSL manual: function contracts, loop annotations, assertions).

ghost use Rattle.std.specs.Prelude.{◌≡◌, ◌≤◌, ◌<◌, IfOk, length, ◌∷◌, []};
ghost use Rattle.grammar_forms.specs.Forms.{Made};
ghost use Rattle.acsl_read.specs.Table as R;
ghost use Rattle.acsl_read.specs.Trees.{OfStateds, OfAnnot, stateds_in};
ghost use Rattle.acsl_read.specs.inner.Outcome.{Gives, Goes, read};

use crate::build::stated;
use crate::class::{Class, class_at, class_of, is, is_one_of};
use crate::clause::{contract_clause_at, loop_clause_at, said_at};
use crate::look::take_one;
use crate::part::Stated;
use crate::place::reach;
use crate::word::clause_kind;
use c_ast::{Annot, AnnotKind};
use c_lex::Token;
use c_parse::Fault;
use sqlite_items::Items;
use std::alloc::Global;

const CONTRACT_FIRST: [Class; 3] = [Class::Requires, Class::Ensures, Class::Assigns];

const CODE_WORDS: [Class; 3] = [Class::Assert, Class::Check, Class::Admit];

/// One more clause of a contract, if there is one.
#[tactic(auto, using(crate::proofs::Rows::contract_clauses_row, crate::proofs::Loops::fuse))]
fn next_contract_clause<'a>(
    alloc: Global,
    bytes: &[u8],
    depth: usize,
    tokens: &'a [Token],
) -> Result<Option<(Stated, &'a [Token])>, Fault>
    requires { depth ≤ 200 }
    ensures { Goes (Made (OfStateds [])) (λ s v. Made (OfStateds (s ∷ stateds_in v))) (read bytes.now R.ContractClauses depth) tokens.now result }
{
    if !is_one_of(&CONTRACT_FIRST, class_at(bytes, tokens)) {
        return Ok(None);
    }
    let (clause, end) = contract_clause_at(alloc, bytes, depth, tokens)?;
    Ok(Some((clause, end)))
}

/// The clauses of a contract.
#[tactic(auto, using(crate::proofs::Loops::contract_begins, crate::proofs::Loops::contract_fails, crate::proofs::Loops::clauses_more, crate::proofs::Loops::fails_whole))]
fn contract_at<'a>(
    alloc: Global,
    bytes: &[u8],
    depth: usize,
    tokens: &'a [Token],
) -> Result<(Annot, &'a [Token]), Fault>
    requires { depth ≤ 200 }
    ensures value { Gives (λ a. Made (OfAnnot a)) result (read bytes.now R.Contract depth tokens.now) }
    ensures shorter { IfOk result (λ x. length x.1.now < length tokens.now) }
{
    let (first, mut rest) = contract_clause_at(alloc, bytes, depth, tokens)?;
    let mut at = first.at;
    let mut clauses = Items::new(alloc);
    clauses.push(first.clause)?;
    let kind = AnnotKind::Contract;
    'adding: loop {
        match next_contract_clause(alloc, bytes, depth, rest) {
            Ok(Some((more, end))) => {
                at = reach(at, more.at);
                clauses.push(more.clause)?;
                rest = end;
            }
            Ok(None) => return Ok((Annot { at, kind, clauses }, rest)),
            Err(fault) => return Err(fault),
        }
    }
}

/// One more clause of a loop, if there is one.
#[tactic(auto, using(crate::proofs::Rows::loop_clauses_row, crate::proofs::Loops::fuse))]
fn next_loop_clause<'a>(
    alloc: Global,
    bytes: &[u8],
    depth: usize,
    tokens: &'a [Token],
) -> Result<Option<(Stated, &'a [Token])>, Fault>
    requires { depth ≤ 200 }
    ensures { Goes (Made (OfStateds [])) (λ s v. Made (OfStateds (s ∷ stateds_in v))) (read bytes.now R.LoopClauses depth) tokens.now result }
{
    if !is(bytes, tokens, Class::Loop) {
        return Ok(None);
    }
    let (clause, end) = loop_clause_at(alloc, bytes, depth, tokens)?;
    Ok(Some((clause, end)))
}

/// The clauses of a loop.
#[tactic(auto, using(crate::proofs::Loops::loop_note_begins, crate::proofs::Loops::loop_note_fails, crate::proofs::Loops::clauses_more, crate::proofs::Loops::fails_whole))]
fn loop_note_at<'a>(
    alloc: Global,
    bytes: &[u8],
    depth: usize,
    tokens: &'a [Token],
) -> Result<(Annot, &'a [Token]), Fault>
    requires { depth ≤ 200 }
    ensures value { Gives (λ a. Made (OfAnnot a)) result (read bytes.now R.LoopNote depth tokens.now) }
    ensures shorter { IfOk result (λ x. length x.1.now < length tokens.now) }
{
    let (first, mut rest) = loop_clause_at(alloc, bytes, depth, tokens)?;
    let mut at = first.at;
    let mut clauses = Items::new(alloc);
    clauses.push(first.clause)?;
    let kind = AnnotKind::LoopNote;
    'adding: loop {
        match next_loop_clause(alloc, bytes, depth, rest) {
            Ok(Some((more, end))) => {
                at = reach(at, more.at);
                clauses.push(more.clause)?;
                rest = end;
            }
            Ok(None) => return Ok((Annot { at, kind, clauses }, rest)),
            Err(fault) => return Err(fault),
        }
    }
}

/// `assert`, `check` or `admit`.
#[tactic(auto, using(crate::proofs::Rows::code_note_row))]
fn code_note_at<'a>(
    alloc: Global,
    bytes: &[u8],
    depth: usize,
    tokens: &'a [Token],
) -> Result<(Annot, &'a [Token]), Fault>
    requires { depth ≤ 200 }
    ensures value { Gives (λ a. Made (OfAnnot a)) result (read bytes.now R.CodeNote depth tokens.now) }
    ensures shorter { IfOk result (λ x. length x.1.now < length tokens.now) }
{
    let (word, rest) = take_one(bytes, &CODE_WORDS, tokens)?;
    let (ended, end) = said_at(alloc, bytes, depth, rest)?;
    let clause = stated(clause_kind(class_of(bytes, word)), word, ended);
    let mut clauses = Items::new(alloc);
    clauses.push(clause.clause)?;
    let annot = Annot {
        at: clause.at,
        kind: AnnotKind::CodeNote,
        clauses,
    };
    Ok((annot, end))
}

/// A note.
#[tactic(auto, using(crate::proofs::Rows::note_row))]
pub(crate) fn note_at<'a>(
    alloc: Global,
    bytes: &[u8],
    depth: usize,
    tokens: &'a [Token],
) -> Result<(Annot, &'a [Token]), Fault>
    requires { depth ≤ 200 }
    ensures value { Gives (λ a. Made (OfAnnot a)) result (read bytes.now R.Note depth tokens.now) }
    ensures shorter { IfOk result (λ x. length x.1.now < length tokens.now) }
{
    if is_one_of(&CONTRACT_FIRST, class_at(bytes, tokens)) {
        return contract_at(alloc, bytes, depth, tokens);
    }
    if is(bytes, tokens, Class::Loop) {
        return loop_note_at(alloc, bytes, depth, tokens);
    }
    code_note_at(alloc, bytes, depth, tokens)
}
