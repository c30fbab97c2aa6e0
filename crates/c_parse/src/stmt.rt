//! Statements (C11 6.8).

ghost use Rattle.std.specs.Prelude.{◌≡◌, ◌≤◌, ◌<◌, IfOk, length, ◌∷◌, []};
ghost use Rattle.grammar_forms.specs.Forms.{Made};
ghost use Rattle.c_parse.specs.Table as R;
ghost use Rattle.c_parse.specs.Trees.{OfPlaced, OfFirst, OfHead, OfGoverned, OfElse, OfBraced, OfStmt, OfStmts, stmts_in};
ghost use Rattle.c_parse.specs.inner.Outcome.{Gives, Goes, read};

use crate::build_stmt::{
    braced, declare, do_part, expression, first_expr, for_part, governed, if_part, placed,
    while_part,
};
use crate::class::{Class, class_at, is, is_one_of};
use crate::declare::declrs_at;
use crate::expr::{PARENS, assign_at, maybe_expr_at, parens_at};
use crate::fault::Fault;
use crate::look::{deeper, take, take_one};
use crate::note::{note_at, notes_at};
use crate::part::{Braced, Governed, Head, Placed};
use crate::place::{reach, spot_of};
use crate::spec::{TYPE_WORDS, spec_at};
use c_ast::{First, Stmt, Stmts};
use c_lex::Token;
use sqlite_items::Items;
use std::alloc::Global;

const JUMP_FIRST: [Class; 4] = [
    Class::Semicolon,
    Class::Break,
    Class::Continue,
    Class::Return,
];

const SUB_FIRST: [Class; 17] = [
    Class::NoteFrom,
    Class::BraceOpen,
    Class::If,
    Class::While,
    Class::Do,
    Class::For,
    Class::Semicolon,
    Class::Break,
    Class::Continue,
    Class::Return,
    Class::Additive,
    Class::Complement,
    Class::Step,
    Class::ParenType,
    Class::Name,
    Class::Constant,
    Class::ParenOpen,
];

const BLOCK_FIRST: [Class; 20] = [
    Class::TypeWord,
    Class::Void,
    Class::VoidLast,
    Class::NoteFrom,
    Class::BraceOpen,
    Class::If,
    Class::While,
    Class::Do,
    Class::For,
    Class::Semicolon,
    Class::Break,
    Class::Continue,
    Class::Return,
    Class::Additive,
    Class::Complement,
    Class::Step,
    Class::ParenType,
    Class::Name,
    Class::Constant,
    Class::ParenOpen,
];

/// A declaration in a block.
#[tactic(auto, using(crate::proofs::Rows::declaration_row))]
fn declaration_at<'a>(
    alloc: Global,
    bytes: &[u8],
    depth: usize,
    tokens: &'a [Token],
) -> Result<(Placed, &'a [Token]), Fault>
    requires { depth ≤ 200 }
    ensures value { Gives (λ s. Made (OfPlaced s)) result (read bytes.now R.Declaration depth tokens.now) }
    ensures shorter { IfOk result (λ x. length x.1.now < length tokens.now) }
{
    let (spec, rest) = spec_at(alloc, bytes, depth, tokens)?;
    let (declrs, rest) = declrs_at(alloc, bytes, depth, rest)?;
    let (semicolon, end) = take(Class::Semicolon, rest)?;
    Ok((declare(spec, declrs, semicolon), end))
}

/// An expression as a statement.
#[tactic(auto, using(crate::proofs::Rows::expr_statement_row))]
fn expr_statement_at<'a>(
    alloc: Global,
    bytes: &[u8],
    depth: usize,
    tokens: &'a [Token],
) -> Result<(Placed, &'a [Token]), Fault>
    requires { depth ≤ 200 }
    ensures value { Gives (λ s. Made (OfPlaced s)) result (read bytes.now R.ExprStatement depth tokens.now) }
    ensures shorter { IfOk result (λ x. length x.1.now < length tokens.now) }
{
    let (expr, rest) = assign_at(alloc, bytes, depth, tokens)?;
    let (semicolon, end) = take(Class::Semicolon, rest)?;
    Ok((expression(expr, semicolon), end))
}

/// A semicolon alone, `break`, `continue` or `return`.
#[tactic(auto, using(crate::proofs::Rows::jump_row))]
fn jump_at<'a>(
    alloc: Global,
    bytes: &[u8],
    depth: usize,
    tokens: &'a [Token],
) -> Result<(Placed, &'a [Token]), Fault>
    requires { depth ≤ 200 }
    ensures value { Gives (λ s. Made (OfPlaced s)) result (read bytes.now R.Jump depth tokens.now) }
    ensures shorter { IfOk result (λ x. length x.1.now < length tokens.now) }
{
    if is(tokens, Class::Semicolon) {
        let (semicolon, end) = take(Class::Semicolon, tokens)?;
        let at = spot_of(semicolon);
        return Ok((placed(Stmt::Empty { at }, at), end));
    }
    if is(tokens, Class::Break) {
        let (word, rest) = take(Class::Break, tokens)?;
        let (semicolon, end) = take(Class::Semicolon, rest)?;
        let at = reach(spot_of(word), spot_of(semicolon));
        return Ok((placed(Stmt::Break { at }, at), end));
    }
    if is(tokens, Class::Continue) {
        let (word, rest) = take(Class::Continue, tokens)?;
        let (semicolon, end) = take(Class::Semicolon, rest)?;
        let at = reach(spot_of(word), spot_of(semicolon));
        return Ok((placed(Stmt::Continue { at }, at), end));
    }
    let (word, rest) = take(Class::Return, tokens)?;
    let (value, rest) = maybe_expr_at(alloc, bytes, depth, rest)?;
    let (semicolon, end) = take(Class::Semicolon, rest)?;
    let at = reach(spot_of(word), spot_of(semicolon));
    Ok((placed(Stmt::Return { at, value }, at), end))
}

/// What stands first in the head of a `for`.
#[tactic(auto, using(crate::proofs::Rows::for_first_row))]
fn for_first_at<'a>(
    alloc: Global,
    bytes: &[u8],
    depth: usize,
    tokens: &'a [Token],
) -> Result<(First, &'a [Token]), Fault>
    requires { depth ≤ 200 }
    ensures value { Gives (λ f. Made (OfFirst f)) result (read bytes.now R.ForFirst depth tokens.now) }
    ensures shorter { IfOk result (λ x. length x.1.now < length tokens.now) }
{
    if is_one_of(&TYPE_WORDS, class_at(tokens)) {
        let (spec, rest) = spec_at(alloc, bytes, depth, tokens)?;
        let (declrs, rest) = declrs_at(alloc, bytes, depth, rest)?;
        let (_, end) = take(Class::Semicolon, rest)?;
        return Ok((First::Declare { spec, declrs }, end));
    }
    let (expr, rest) = maybe_expr_at(alloc, bytes, depth, tokens)?;
    let (_, end) = take(Class::Semicolon, rest)?;
    Ok((first_expr(expr), end))
}

/// The head of a `for`.
#[tactic(auto, using(crate::proofs::Rows::for_head_row))]
fn for_head_at<'a>(
    alloc: Global,
    bytes: &[u8],
    depth: usize,
    tokens: &'a [Token],
) -> Result<(Head, &'a [Token]), Fault>
    requires { depth ≤ 200 }
    ensures value { Gives (λ h. Made (OfHead h)) result (read bytes.now R.ForHead depth tokens.now) }
    ensures shorter { IfOk result (λ x. length x.1.now < length tokens.now) }
{
    let (_, rest) = take_one(&PARENS, tokens)?;
    let inner = deeper(depth, tokens)?;
    let (first, rest) = for_first_at(alloc, bytes, inner, rest)?;
    let (cond, rest) = maybe_expr_at(alloc, bytes, inner, rest)?;
    let (_, rest) = take(Class::Semicolon, rest)?;
    let (update, rest) = maybe_expr_at(alloc, bytes, inner, rest)?;
    let (_, end) = take(Class::ParenClose, rest)?;
    let head = Head {
        first,
        cond,
        update,
    };
    Ok((head, end))
}

/// `if`, with an `else` or without.
#[cycle(stmt)]
#[tactic(auto, using(crate::proofs::Rows::if_statement_row))]
fn if_at<'a>(
    alloc: Global,
    bytes: &[u8],
    depth: usize,
    tokens: &'a [Token],
) -> Result<(Placed, &'a [Token]), Fault>
    requires { depth ≤ 200 }
    ensures value { Gives (λ s. Made (OfPlaced s)) result (read bytes.now R.IfStatement depth tokens.now) }
    ensures shorter { IfOk result (λ x. length x.1.now < length tokens.now) }
{
    let (word, rest) = take(Class::If, tokens)?;
    let (cond, rest) = parens_at(alloc, bytes, depth, rest)?;
    let (yes, rest) = sub_at(alloc, bytes, depth, rest)?;
    let (no, end) = else_at(alloc, bytes, depth, rest)?;
    Ok((if_part(word, cond, yes, no), end))
}

/// An `else`, if there is one.
#[cycle(stmt)]
#[tactic(auto, using(crate::proofs::Rows::else_part_row))]
fn else_at<'a>(
    alloc: Global,
    bytes: &[u8],
    depth: usize,
    tokens: &'a [Token],
) -> Result<(Option<Governed>, &'a [Token]), Fault>
    requires { depth ≤ 200 }
    ensures value { Gives (λ g. Made (OfElse g)) result (read bytes.now R.ElsePart depth tokens.now) }
    ensures no_longer { IfOk result (λ x. length x.1.now ≤ length tokens.now) }
{
    if !is(tokens, Class::Else) {
        return Ok((None, tokens));
    }
    let (_, rest) = take(Class::Else, tokens)?;
    let (no, end) = sub_at(alloc, bytes, depth, rest)?;
    Ok((Some(no), end))
}

/// `while`
#[cycle(stmt)]
#[tactic(auto, using(crate::proofs::Rows::while_statement_row))]
fn while_at<'a>(
    alloc: Global,
    bytes: &[u8],
    depth: usize,
    tokens: &'a [Token],
) -> Result<(Placed, &'a [Token]), Fault>
    requires { depth ≤ 200 }
    ensures value { Gives (λ s. Made (OfPlaced s)) result (read bytes.now R.WhileStatement depth tokens.now) }
    ensures shorter { IfOk result (λ x. length x.1.now < length tokens.now) }
{
    let (word, rest) = take(Class::While, tokens)?;
    let (cond, rest) = parens_at(alloc, bytes, depth, rest)?;
    let (body, end) = sub_at(alloc, bytes, depth, rest)?;
    Ok((while_part(word, cond, body), end))
}

/// `do`
#[cycle(stmt)]
#[tactic(auto, using(crate::proofs::Rows::do_statement_row))]
fn do_at<'a>(
    alloc: Global,
    bytes: &[u8],
    depth: usize,
    tokens: &'a [Token],
) -> Result<(Placed, &'a [Token]), Fault>
    requires { depth ≤ 200 }
    ensures value { Gives (λ s. Made (OfPlaced s)) result (read bytes.now R.DoStatement depth tokens.now) }
    ensures shorter { IfOk result (λ x. length x.1.now < length tokens.now) }
{
    let (word, rest) = take(Class::Do, tokens)?;
    let (body, rest) = sub_at(alloc, bytes, depth, rest)?;
    let (_, rest) = take(Class::While, rest)?;
    let (cond, rest) = parens_at(alloc, bytes, depth, rest)?;
    let (semicolon, end) = take(Class::Semicolon, rest)?;
    Ok((do_part(word, body, cond, semicolon), end))
}

/// `for`
#[cycle(stmt)]
#[tactic(auto, using(crate::proofs::Rows::for_statement_row))]
fn for_at<'a>(
    alloc: Global,
    bytes: &[u8],
    depth: usize,
    tokens: &'a [Token],
) -> Result<(Placed, &'a [Token]), Fault>
    requires { depth ≤ 200 }
    ensures value { Gives (λ s. Made (OfPlaced s)) result (read bytes.now R.ForStatement depth tokens.now) }
    ensures shorter { IfOk result (λ x. length x.1.now < length tokens.now) }
{
    let (word, rest) = take(Class::For, tokens)?;
    let (head, rest) = for_head_at(alloc, bytes, depth, rest)?;
    let (body, end) = sub_at(alloc, bytes, depth, rest)?;
    Ok((for_part(word, head, body), end))
}

/// A block.
#[cycle(stmt)]
#[tactic(auto, using(crate::proofs::Rows::block_row))]
pub(crate) fn block_at<'a>(
    alloc: Global,
    bytes: &[u8],
    depth: usize,
    tokens: &'a [Token],
) -> Result<(Braced, &'a [Token]), Fault>
    requires { depth ≤ 200 }
    ensures value { Gives (λ b. Made (OfBraced b)) result (read bytes.now R.Block depth tokens.now) }
    ensures shorter { IfOk result (λ x. length x.1.now < length tokens.now) }
{
    let (opening, rest) = take(Class::BraceOpen, tokens)?;
    let inner = deeper(depth, tokens)?;
    let (stmts, rest) = block_items_at(alloc, bytes, inner, rest)?;
    let (closing, end) = take(Class::BraceClose, rest)?;
    Ok((braced(opening, stmts, closing), end))
}

/// A statement.
#[cycle(stmt)]
#[tactic(auto, using(crate::proofs::Rows::statement_row))]
fn statement_at<'a>(
    alloc: Global,
    bytes: &[u8],
    depth: usize,
    tokens: &'a [Token],
) -> Result<(Placed, &'a [Token]), Fault>
    requires { depth ≤ 200 }
    ensures value { Gives (λ s. Made (OfPlaced s)) result (read bytes.now R.Statement depth tokens.now) }
    ensures shorter { IfOk result (λ x. length x.1.now < length tokens.now) }
{
    if is(tokens, Class::BraceOpen) {
        let (block, end) = block_at(alloc, bytes, depth, tokens)?;
        let at = block.at;
        let stmts = block.stmts;
        return Ok((placed(Stmt::Block { at, stmts }, at), end));
    }
    if is(tokens, Class::If) {
        return if_at(alloc, bytes, depth, tokens);
    }
    if is(tokens, Class::While) {
        return while_at(alloc, bytes, depth, tokens);
    }
    if is(tokens, Class::Do) {
        return do_at(alloc, bytes, depth, tokens);
    }
    if is(tokens, Class::For) {
        return for_at(alloc, bytes, depth, tokens);
    }
    if is_one_of(&JUMP_FIRST, class_at(tokens)) {
        return jump_at(alloc, bytes, depth, tokens);
    }
    expr_statement_at(alloc, bytes, depth, tokens)
}

/// A declaration, a note or a statement of a block.
#[cycle(stmt)]
#[tactic(auto, using(crate::proofs::Rows::block_item_row))]
fn block_item_at<'a>(
    alloc: Global,
    bytes: &[u8],
    depth: usize,
    tokens: &'a [Token],
) -> Result<(Stmt, &'a [Token]), Fault>
    requires { depth ≤ 200 }
    ensures value { Gives (λ s. Made (OfStmt s)) result (read bytes.now R.BlockItem depth tokens.now) }
    ensures shorter { IfOk result (λ x. length x.1.now < length tokens.now) }
{
    if is_one_of(&TYPE_WORDS, class_at(tokens)) {
        let (declaration, end) = declaration_at(alloc, bytes, depth, tokens)?;
        return Ok((declaration.stmt, end));
    }
    if is(tokens, Class::NoteFrom) {
        let (at, end) = note_at(bytes, depth, tokens)?;
        return Ok((Stmt::Note { at }, end));
    }
    let (statement, end) = statement_at(alloc, bytes, depth, tokens)?;
    Ok((statement.stmt, end))
}

/// One more of a block, if there is one.
#[cycle(stmt)]
#[tactic(auto, using(crate::proofs::Rows::block_items_row, crate::proofs::Loops::fuse))]
fn next_item<'a>(
    alloc: Global,
    bytes: &[u8],
    depth: usize,
    tokens: &'a [Token],
) -> Result<Option<(Stmt, &'a [Token])>, Fault>
    requires { depth ≤ 200 }
    ensures { Goes (Made (OfStmts [])) (λ s v. Made (OfStmts (s ∷ stmts_in v))) (read bytes.now R.BlockItems depth) tokens.now result }
{
    if !is_one_of(&BLOCK_FIRST, class_at(tokens)) {
        return Ok(None);
    }
    let (item, end) = block_item_at(alloc, bytes, depth, tokens)?;
    Ok(Some((item, end)))
}

/// What stands in a block.
#[cycle(stmt)]
#[tactic(auto, using(crate::proofs::Lists::block_items_begin, crate::proofs::Lists::stmts_more, crate::proofs::Loops::fails_whole))]
fn block_items_at<'a>(
    alloc: Global,
    bytes: &[u8],
    depth: usize,
    tokens: &'a [Token],
) -> Result<(Stmts, &'a [Token]), Fault>
    requires { depth ≤ 200 }
    ensures value { Gives (λ ss. Made (OfStmts ss)) result (read bytes.now R.BlockItems depth tokens.now) }
    ensures no_longer { IfOk result (λ x. length x.1.now ≤ length tokens.now) }
{
    let mut found = Items::new(alloc);
    let mut rest = tokens;
    'adding: loop {
        match next_item(alloc, bytes, depth, rest) {
            Ok(Some((item, end))) => {
                found.push(item)?;
                rest = end;
            }
            Ok(None) => return Ok((found, rest)),
            Err(fault) => return Err(fault),
        }
    }
}

/// A governed statement with the notes before it, in a nesting that its first token opens.
#[cycle(stmt)]
#[tactic(auto, using(crate::proofs::Rows::sub_row))]
fn sub_at<'a>(
    alloc: Global,
    bytes: &[u8],
    depth: usize,
    tokens: &'a [Token],
) -> Result<(Governed, &'a [Token]), Fault>
    requires { depth ≤ 200 }
    ensures value { Gives (λ g. Made (OfGoverned g)) result (read bytes.now R.Sub depth tokens.now) }
    ensures shorter { IfOk result (λ x. length x.1.now < length tokens.now) }
{
    if !is_one_of(&SUB_FIRST, class_at(tokens)) {
        return Err(Fault::Unexpected(tokens.len()));
    }
    let inner = deeper(depth, tokens)?;
    let (notes, rest) = notes_at(alloc, bytes, inner, tokens)?;
    let (of, end) = statement_at(alloc, bytes, inner, rest)?;
    Ok((governed(alloc, notes, of)?, end))
}
