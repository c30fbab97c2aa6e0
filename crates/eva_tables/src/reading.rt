//! Reads cells and expressions.

use crate::words::{binary_named, type_named, unary_named};
use abs_cells::Cells;
use c_ir::{Expr, Exprs, IntType, Node};
use fc_base::SiteId;
use int_congr::Congr;
use int_interval::Interval;
use int_value::Value;
use sqlite_items::{Boxed, Items};
use std::alloc::{AllocError, Global};

/// What stands over the parts of an expression.
type Top = Node<Boxed<Expr>, Exprs>;

fn number(word: &str) -> Option<i128> {
    match word.parse::<i128>() {
        Ok(number) => Some(number),
        Err(_) => None,
    }
}

/// The numbers of two that stand on both sides of a separator.
fn pair(word: &str, separator: &str) -> Option<(i128, i128)> {
    let (left, right) = word.split_once(separator)?;
    Some((number(left)?, number(right)?))
}

/// A value with one more thing that a word says: a range, a number, a congruence, or that there may be none.
fn with_word(value: Value, word: &str) -> Value {
    let mut value = value;
    if word == "u" {
        value.unset = true;
    }
    if let Some((lo, hi)) = pair(word, "..") {
        value.range = Interval::Within { lo, hi };
    }
    if let Some(only) = number(word) {
        value.range = Interval::Within { lo: only, hi: only };
    }
    if let Some((rem, modulus)) = pair(word, "%") {
        value.congr = Congr { rem, modulus };
    }
    value
}

/// The value that words give.
fn value_of(text: &str) -> Value {
    let mut value = Value {
        range: Interval::Empty,
        congr: Congr { rem: 0, modulus: 1 },
        unset: false,
    };
    for word in text.split_whitespace() {
        value = with_word(value, word);
    }
    value.reduce()
}

/// The values between commas; None where no run comes.
pub(crate) fn cells_of(alloc: Global, text: &str) -> Result<Option<Cells>, AllocError> {
    if text.trim() == "unreached" {
        return Ok(None);
    }
    let mut values = Items::new(alloc);
    for part in text.split(',') {
        values.push(value_of(part))?;
    }
    Ok(Some(Cells::new(values)))
}

/// The word of a node, its type (`int` where none is given), and the number of its operator.
fn parts_of(word: &str) -> (&str, IntType, Option<SiteId>) {
    let (word, site) = word.split_once('@').unwrap_or((word, ""));
    let (head, ty) = word.split_once(':').unwrap_or((word, "int"));
    let site = match site.parse::<u32>() {
        Ok(site) => Some(SiteId(site)),
        Err(_) => None,
    };
    (head, type_named(ty).unwrap_or(IntType::Int), site)
}

/// A node without parts: a constant, or a cell, which is checked if it has a number.
fn leaf(head: &str, is_checked: bool) -> Option<Top> {
    if let Some(value) = number(head) {
        return Some(Node::Literal { value });
    }
    match head.strip_prefix("c")?.parse::<u32>() {
        Ok(cell) => Some(Node::Cell {
            cell,
            checked: is_checked,
        }),
        Err(_) => None,
    }
}

/// The next of the expressions that were read, in a box.
fn next(alloc: Global, read: &mut Vec<Expr>) -> Result<Option<Boxed<Expr>>, AllocError> {
    match read.pop() {
        None => Ok(None),
        Some(expr) => Ok(Some(Boxed::new(alloc, expr)?)),
    }
}

/// An element of the array that the word names by its first cell and its length.
fn element(head: &str, index: Boxed<Expr>, checked: bool) -> Option<Top> {
    let (first, length) = head.split_once('/')?;
    Some(Node::Element {
        first: first.parse::<u32>().unwrap_or(0),
        length: length.parse::<u32>().unwrap_or(0),
        index,
        checked,
    })
}

/// A node over one part.
fn over_one(head: &str, of: Boxed<Expr>) -> Option<Top> {
    if let Some(op) = unary_named(head) {
        return Some(Node::Unary { op, of });
    }
    if head == "cast" {
        return Some(Node::Cast { of });
    }
    if let Some(array) = head.strip_prefix("u") {
        return element(array, of, true);
    }
    element(head.strip_prefix("a")?, of, false)
}

/// A node over several parts.
fn over_more(
    alloc: Global,
    head: &str,
    first: Boxed<Expr>,
    read: &mut Vec<Expr>,
) -> Result<Option<Top>, AllocError> {
    let Some(second) = next(alloc, read)? else {
        return Ok(None);
    };
    if let Some(op) = binary_named(head) {
        return Ok(Some(Node::Binary {
            op,
            left: first,
            right: second,
        }));
    }
    match next(alloc, read)? {
        None => Ok(None),
        Some(third) => Ok(Some(Node::Cond {
            cond: first,
            yes: second,
            no: third,
        })),
    }
}

/// The node of a word over what stands behind it.
fn node(
    alloc: Global,
    head: &str,
    is_checked: bool,
    read: &mut Vec<Expr>,
) -> Result<Option<Top>, AllocError> {
    if let Some(node) = leaf(head, is_checked) {
        return Ok(Some(node));
    }
    let Some(first) = next(alloc, read)? else {
        return Ok(None);
    };
    if binary_named(head).is_some() || head == "?" {
        return over_more(alloc, head, first, read);
    }
    Ok(over_one(head, first))
}

/// The expression that words spell, each operator before its operands; None where they spell none. It is
/// read from the last word on.
pub(crate) fn expression(alloc: Global, text: &str) -> Result<Option<Expr>, AllocError> {
    let words: Vec<&str> = text.split_whitespace().collect(alloc)?;
    let count = words.len();
    let mut read = Vec::new(alloc);
    for place in 0..count {
        let (head, ty, site) = parts_of(words[count - 1 - place]);
        let Some(node) = node(alloc, head, site.is_some(), &mut read)? else {
            return Ok(None);
        };
        read.push(Expr { ty, site, node })?;
    }
    let expr = read.pop();
    Ok(if read.is_empty() { expr } else { None })
}
