//! Predicates of every form over small cells, against the numbers that the cells may have.

use super::*;
use abs_cells::Cells;
use c_ir::Pred;
use fc_base::{NoteOp, Relation};
use int_congr::Congr;
use int_interval::Interval;
use int_value::Value;
use sqlite_items::{Boxed, Items};
use std::alloc::{AllocError, Global};
use std::{assert, assert_eq};

// ---- predicates, written one byte a node after its parts

/// A number past 2^126.
const HUGE: i128 = 85_070_591_730_234_615_865_843_651_857_942_052_865;

/// The last predicate of the list, taken out; `\false` where there is none.
fn taken(stack: &mut Vec<Pred>) -> Pred {
    match stack.pop() {
        Some(pred) => pred,
        None => Pred::False,
    }
}

fn boxed(alloc: Global, stack: &mut Vec<Pred>) -> Result<Boxed<Pred>, AllocError> {
    Ok(Boxed::new(alloc, taken(stack))?)
}

fn binary(alloc: Global, stack: &mut Vec<Pred>, op: NoteOp) -> Result<Pred, AllocError> {
    let right = boxed(alloc, stack)?;
    let left = boxed(alloc, stack)?;
    Ok(Pred::Binary { op, left, right })
}

fn related(alloc: Global, stack: &mut Vec<Pred>, relation: Relation) -> Result<Pred, AllocError> {
    let right = boxed(alloc, stack)?;
    let left = boxed(alloc, stack)?;
    Ok(Pred::Related {
        relation,
        left,
        right,
    })
}

fn forall(
    alloc: Global,
    stack: &mut Vec<Pred>,
    low_strict: bool,
    high_strict: bool,
) -> Result<Pred, AllocError> {
    let body = boxed(alloc, stack)?;
    let high = boxed(alloc, stack)?;
    let low = boxed(alloc, stack)?;
    Ok(Pred::Forall {
        low,
        low_strict,
        high,
        high_strict,
        body,
    })
}

/// Cells are `x` `y` `z` `w` (0 to 3), names bound are `i` (the inner one) and `j`, an element `e` is of
/// the array of the cells 2 and 3, `o` is `\old`, `n` is unary `-`.
fn node(alloc: Global, stack: &mut Vec<Pred>, byte: u8) -> Result<Pred, AllocError> {
    match byte {
        b'x' => Ok(Pred::Cell { cell: 0 }),
        b'y' => Ok(Pred::Cell { cell: 1 }),
        b'z' => Ok(Pred::Cell { cell: 2 }),
        b'w' => Ok(Pred::Cell { cell: 3 }),
        b'i' => Ok(Pred::Bound { between: 0 }),
        b'j' => Ok(Pred::Bound { between: 1 }),
        b'H' => Ok(Pred::Number { value: HUGE }),
        b'T' => Ok(Pred::True),
        b'F' => Ok(Pred::False),
        b'e' => {
            let index = boxed(alloc, stack)?;
            Ok(Pred::Element {
                first: 2,
                length: 2,
                index,
            })
        }
        b'o' => {
            let of = boxed(alloc, stack)?;
            Ok(Pred::Old { of })
        }
        b'n' => {
            let of = boxed(alloc, stack)?;
            Ok(Pred::Neg { of })
        }
        b'!' => {
            let of = boxed(alloc, stack)?;
            Ok(Pred::Not { of })
        }
        _ => operator(alloc, stack, byte),
    }
}

/// `l` is `<=`, `g` is `>=`, `N` is `!=`, `I` is `==>`, `E` is `<==>`. A `\forall` is `A` with `<=` and
/// `<`, `B` with `<=` twice, `C` with `<` twice, `D` with `<` and `<=`. Else it is a digit.
fn operator(alloc: Global, stack: &mut Vec<Pred>, byte: u8) -> Result<Pred, AllocError> {
    match byte {
        b'+' => binary(alloc, stack, NoteOp::Add),
        b'-' => binary(alloc, stack, NoteOp::Sub),
        b'*' => binary(alloc, stack, NoteOp::Mul),
        b'/' => binary(alloc, stack, NoteOp::Div),
        b'%' => binary(alloc, stack, NoteOp::Rem),
        b'&' => binary(alloc, stack, NoteOp::And),
        b'|' => binary(alloc, stack, NoteOp::Or),
        b'I' => binary(alloc, stack, NoteOp::Implies),
        b'E' => binary(alloc, stack, NoteOp::Iff),
        b'<' => related(alloc, stack, Relation::Less),
        b'l' => related(alloc, stack, Relation::LessEq),
        b'>' => related(alloc, stack, Relation::Greater),
        b'g' => related(alloc, stack, Relation::GreaterEq),
        b'=' => related(alloc, stack, Relation::Equal),
        b'N' => related(alloc, stack, Relation::NotEqual),
        b'A' => forall(alloc, stack, false, true),
        b'B' => forall(alloc, stack, false, false),
        b'C' => forall(alloc, stack, true, true),
        b'D' => forall(alloc, stack, true, false),
        _ => Ok(Pred::Number {
            value: i128::from(byte) - 48,
        }),
    }
}

fn pred_of(alloc: Global, text: &[u8]) -> Result<Pred, AllocError> {
    let mut stack = Vec::new(alloc);
    for byte in text {
        let pred = node(alloc, &mut stack, *byte)?;
        stack.push(pred)?;
    }
    Ok(taken(&mut stack))
}

// ---- what predicates mean

/// What four cells have.
type Contents = [Option<i128>; 4];

/// The cells now and at the entry, and the numbers bound.
#[derive(Clone, Copy)]
struct At {
    cells: Contents,
    entry: Contents,
    inner: i128,
    outer: i128,
}

fn cell_of(contents: &Contents, cell: u32) -> Option<i128> {
    match contents.get(cell as usize) {
        Some(found) => *found,
        None => None,
    }
}

fn element_of(contents: &Contents, first: u32, length: u32, index: i128) -> Option<i128> {
    let mut found = None;
    for k in 0..length {
        if i128::from(k) == index {
            found = cell_of(contents, first.saturating_add(k));
        }
    }
    found
}

fn result_of(op: NoteOp, a: i128, b: i128) -> Option<i128> {
    match op {
        NoteOp::Add => a.checked_add(b),
        NoteOp::Sub => a.checked_sub(b),
        NoteOp::Mul => a.checked_mul(b),
        NoteOp::Div => a.checked_div(b),
        NoteOp::Rem => a.checked_rem(b),
        _ => None,
    }
}

fn at_entry(at: &At) -> At {
    At {
        cells: at.entry,
        entry: at.entry,
        inner: at.inner,
        outer: at.outer,
    }
}

fn term_of(pred: &Pred, at: &At) -> Option<i128> {
    match pred {
        Pred::Number { value } => Some(*value),
        Pred::Cell { cell } => cell_of(&at.cells, *cell),
        Pred::Element {
            first,
            length,
            index,
        } => { element_of(&at.cells, *first, *length, term_of(index.get(), at)?) }
        Pred::Bound { between } => Some(if *between == 0 { at.inner } else { at.outer }),
        Pred::Old { of } => term_of(of.get(), &at_entry(at)),
        Pred::Neg { of } => term_of(of.get(), at)?.checked_neg(),
        Pred::Binary { op, left, right } => {
            let left = term_of(left.get(), at)?;
            result_of(*op, left, term_of(right.get(), at)?)
        }
        _ => None,
    }
}

fn are_related(relation: Relation, left: Option<i128>, right: Option<i128>) -> bool {
    match (left, right) {
        (Some(a), Some(b)) => match relation {
            Relation::Less => a < b,
            Relation::LessEq => a <= b,
            Relation::Greater => a > b,
            Relation::GreaterEq => a >= b,
            Relation::Equal => a == b,
            Relation::NotEqual => a != b,
        },
        _ => false,
    }
}

fn is_from(low: Option<i128>, strict: bool, number: i128) -> bool {
    match low {
        Some(low) => low < number || (low == number && !strict),
        None => false,
    }
}

fn holds(pred: &Pred, at: &At) -> bool {
    match pred {
        Pred::True => true,
        Pred::False => false,
        Pred::Old { of } => holds(of.get(), &at_entry(at)),
        Pred::Not { of } => !holds(of.get(), at),
        Pred::Related {
            relation,
            left,
            right,
        } => { are_related(*relation, term_of(left.get(), at), term_of(right.get(), at)) }
        Pred::Binary { op, left, right } => match op {
            NoteOp::Iff => holds(left.get(), at) == holds(right.get(), at),
            NoteOp::Implies => !holds(left.get(), at) || holds(right.get(), at),
            NoteOp::Or => holds(left.get(), at) || holds(right.get(), at),
            NoteOp::And => holds(left.get(), at) && holds(right.get(), at),
            _ => is_not_zero(term_of(pred, at)),
        },
        Pred::Forall {
            low,
            low_strict,
            high,
            high_strict,
            body,
        } => {
            let low = term_of(low.get(), at);
            let high = term_of(high.get(), at);
            let mut all = true;
            for step in 0..41u32 {
                let number = i128::from(step) - 20;
                if is_from(low, *low_strict, number) && is_up_to(high, *high_strict, number) {
                    let inner = At {
                        cells: at.cells,
                        entry: at.entry,
                        inner: number,
                        outer: at.inner,
                    };
                    all = all && holds(body.get(), &inner);
                }
            }
            all
        }
        _ => is_not_zero(term_of(pred, at)),
    }
}

fn is_up_to(high: Option<i128>, strict: bool, number: i128) -> bool {
    match high {
        Some(high) => number < high || (number == high && !strict),
        None => false,
    }
}

fn is_not_zero(term: Option<i128>) -> bool {
    match term {
        Some(number) => number != 0,
        None => false,
    }
}

// ---- cells

fn value(range: Interval, unset: bool) -> Value {
    Value {
        range,
        congr: Congr { rem: 0, modulus: 1 },
        unset,
    }
    .reduce()
}

fn from_to(lo: i128, hi: i128, unset: bool) -> Value {
    value(Interval::Within { lo, hi }, unset)
}

fn never() -> Value {
    value(Interval::Empty, true)
}

/// The numbers from 0 to 8 that are even.
fn even() -> Value {
    Value {
        range: Interval::Within { lo: 0, hi: 8 },
        congr: Congr { rem: 0, modulus: 2 },
        unset: false,
    }
}

fn cells(alloc: Global, values: &[Value; 4]) -> Result<Cells, AllocError> {
    Ok(Cells::new(Items::from_slice(alloc, values)?))
}

fn has(value: &Value, content: Option<i128>) -> bool {
    match content {
        Some(number) => value.contains(number),
        None => value.unset,
    }
}

/// Whether the cells are those of a place to which a run with these contents may come.
fn are_of(cells: &Option<Cells>, contents: &Contents) -> bool {
    match cells {
        Some(cells) => {
            has(&cells.get(0), contents[0])
                && has(&cells.get(1), contents[1])
                && has(&cells.get(2), contents[2])
                && has(&cells.get(3), contents[3])
        }
        None => false,
    }
}

/// What a cell of this value may have, as far as it lies from -3 to 8.
fn contents_of(alloc: Global, value: &Value) -> Result<Vec<Option<i128>>, AllocError> {
    let mut found = Vec::new(alloc);
    if value.unset {
        found.push(None)?;
    }
    for step in 0..12u32 {
        let number = i128::from(step) - 3;
        if value.contains(number) {
            found.push(Some(number))?;
        }
    }
    Ok(found)
}

/// Each choice of contents of the four cells.
fn all_contents(alloc: Global, values: &[Value; 4]) -> Result<Vec<Contents>, AllocError> {
    let first = contents_of(alloc, &values[0])?;
    let second = contents_of(alloc, &values[1])?;
    let third = contents_of(alloc, &values[2])?;
    let fourth = contents_of(alloc, &values[3])?;
    let mut all = Vec::new(alloc);
    for a in first.as_slice() {
        for b in second.as_slice() {
            for c in third.as_slice() {
                for d in fourth.as_slice() {
                    all.push([*a, *b, *c, *d])?;
                }
            }
        }
    }
    Ok(all)
}

// ---- the comparison

/// What is known of one predicate: its truth, and the cells where it holds and where it doesn't.
#[derive(Drop)]
struct Known {
    truth: Truth,
    yes: Option<Cells>,
    no: Option<Cells>,
}

fn is_right(truth: Truth, outcome: bool) -> bool {
    match truth {
        Truth::Yes => outcome,
        Truth::No => !outcome,
        Truth::Maybe => true,
    }
}

/// Whether that is right of a run with these contents, in which the predicate comes out so.
fn fits(known: &Known, contents: &Contents, outcome: bool) -> bool {
    is_right(known.truth, outcome) && are_of(if outcome { &known.yes } else { &known.no }, contents)
}

/// Whether that is right of each run that comes there.
fn fits_all(known: &Known, pred: &Pred, runs: &[Contents], entries: &[Contents]) -> bool {
    let mut right = true;
    for contents in runs {
        for entry in entries {
            let at = At {
                cells: *contents,
                entry: *entry,
                inner: 0,
                outer: 0,
            };
            right = right && fits(known, contents, holds(pred, &at));
        }
    }
    right
}

/// The ends of the first cell, from 1 to 0 where there are none.
fn ends(cells: &Option<Cells>) -> (i128, i128) {
    match cells {
        Some(cells) => match cells.get(0).range {
            Interval::Within { lo, hi } => (lo, hi),
            _ => (1, 0),
        },
        None => (1, 0),
    }
}

/// A predicate with its truth, and the ends of the first cell where it holds and where it doesn't.
struct Row(&'static [u8], Truth, (i128, i128), (i128, i128));

/// No number.
const NONE: (i128, i128) = (1, 0);

fn known_of(
    alloc: Global,
    pred: &Pred,
    now: &[Value; 4],
    entry: &[Value; 4],
) -> Result<Known, AllocError> {
    let entry = cells(alloc, entry)?;
    let cells_now = cells(alloc, now)?;
    let truth = truth(Some(&cells_now), Some(&entry), pred);
    let yes = narrow(alloc, cells_now, Some(&entry), pred, true)?;
    let no = narrow(alloc, cells(alloc, now)?, Some(&entry), pred, false)?;
    Ok(Known { truth, yes, no })
}

fn is_as_said(known: &Known, row: &Row) -> bool {
    known.truth == row.1 && ends(&known.yes) == row.2 && ends(&known.no) == row.3
}

/// How many rows are as they say, and right of each run that comes to the cells.
fn right_rows(
    alloc: Global,
    rows: &[Row],
    now: &[Value; 4],
    entry: &[Value; 4],
) -> Result<usize, AllocError> {
    let runs = all_contents(alloc, now)?;
    let entries = all_contents(alloc, entry)?;
    let mut count = 0usize;
    for row in rows {
        let pred = pred_of(alloc, row.0)?;
        let known = known_of(alloc, &pred, now, entry)?;
        if is_as_said(&known, row) && fits_all(&known, &pred, runs.as_slice(), entries.as_slice()) {
            count = count.saturating_add(1);
        }
    }
    Ok(count)
}

/// Over a first cell from 0 to 5, a second one from -2 to 3 or unset, and an array of 1 and of 2 to 4 or
/// unset; at the entry the first one is from 4 to 5, the second one unset, and the array 1 to 2 and 3.
const ROWS: [Row; 58] = [
    Row(b"T", Truth::Yes, (0, 5), NONE),
    Row(b"F", Truth::No, NONE, (0, 5)),
    Row(b"x", Truth::Maybe, (1, 5), (0, 0)),
    Row(b"x!", Truth::Maybe, (0, 0), (1, 5)),
    Row(b"y", Truth::Maybe, (0, 5), (0, 5)),
    Row(b"4", Truth::Yes, (0, 5), NONE),
    Row(b"x3<", Truth::Maybe, (0, 2), (3, 5)),
    Row(b"x3<!!", Truth::Maybe, (0, 2), (3, 5)),
    Row(b"x6<", Truth::Yes, (0, 5), NONE),
    Row(b"x5>", Truth::No, NONE, (0, 5)),
    Row(b"3xl", Truth::Maybe, (3, 5), (0, 2)),
    Row(b"3xg", Truth::Maybe, (0, 3), (4, 5)),
    Row(b"x3=", Truth::Maybe, (3, 3), (0, 5)),
    Row(b"x0N", Truth::Maybe, (1, 5), (0, 0)),
    Row(b"xyl", Truth::Maybe, (0, 3), (0, 5)),
    Row(b"xyl!", Truth::Maybe, (0, 5), (0, 3)),
    Row(b"xyg!", Truth::Maybe, (0, 5), (0, 5)),
    Row(b"y3l", Truth::Maybe, (0, 5), (0, 5)),
    Row(b"x1>x4<&", Truth::Maybe, (2, 3), (0, 5)),
    Row(b"x1>xzN&", Truth::Maybe, (2, 5), (0, 1)),
    Row(b"x2<x4>|", Truth::Maybe, (0, 5), (2, 4)),
    Row(b"x5>x3<|", Truth::Maybe, (0, 2), (3, 5)),
    Row(b"x2gx4lI", Truth::Maybe, (0, 4), (5, 5)),
    Row(b"x3<x3<E", Truth::Maybe, (0, 5), (0, 5)),
    Row(b"xo4<", Truth::No, NONE, (0, 5)),
    Row(b"x4<o", Truth::No, NONE, (0, 5)),
    Row(b"xxo<", Truth::Maybe, (0, 4), (4, 5)),
    Row(b"xo5=", Truth::Maybe, (0, 5), (0, 5)),
    Row(b"yo0=", Truth::No, NONE, (0, 5)),
    Row(b"xxoo<", Truth::Maybe, (0, 4), (4, 5)),
    Row(b"0e1=", Truth::Yes, (0, 5), NONE),
    Row(b"1e2g", Truth::Maybe, (0, 5), (0, 5)),
    Row(b"xe1g", Truth::Maybe, (0, 5), (0, 5)),
    Row(b"x0e<", Truth::Maybe, (0, 0), (1, 5)),
    Row(b"5e0=", Truth::No, NONE, (0, 5)),
    Row(b"1ne0=!", Truth::Yes, (0, 5), NONE),
    Row(b"ye0>", Truth::Maybe, (0, 5), (0, 5)),
    Row(b"1eo3=", Truth::Yes, (0, 5), NONE),
    Row(b"xn1<", Truth::Yes, (0, 5), NONE),
    Row(b"x1+6l", Truth::Yes, (0, 5), NONE),
    Row(b"x1-0<", Truth::Maybe, (0, 5), (0, 5)),
    Row(b"xx*0g", Truth::Yes, (0, 5), NONE),
    Row(b"9x/1g", Truth::Maybe, (0, 5), (0, 5)),
    Row(b"90/0=", Truth::No, NONE, (0, 5)),
    Row(b"x2%2<", Truth::Yes, (0, 5), NONE),
    Row(b"9x%0g", Truth::Maybe, (0, 5), (0, 5)),
    Row(b"xH<", Truth::Maybe, (0, 5), (0, 5)),
    Row(b"H0/1=", Truth::No, NONE, (0, 5)),
    Row(b"03i0gA", Truth::Yes, (0, 5), NONE),
    Row(b"03ixgA", Truth::Maybe, (0, 5), (0, 5)),
    Row(b"33FA", Truth::Yes, (0, 5), NONE),
    Row(b"33FB", Truth::No, NONE, (0, 5)),
    Row(b"34FC", Truth::Maybe, (0, 5), (0, 5)),
    Row(b"35FC", Truth::No, NONE, (0, 5)),
    Row(b"33FD", Truth::Maybe, (0, 5), (0, 5)),
    Row(b"x3FA", Truth::Maybe, (0, 5), (0, 5)),
    Row(b"yn9FA", Truth::Maybe, (0, 5), (0, 5)),
    Row(b"020iijlBA", Truth::Maybe, (0, 5), (0, 5)),
];

/// Over even numbers from 0 to 8, a cell that is never set, and an array of 0 to 1 and of any number or
/// none; at the entry 2, 0 to 1, 0 and 0.
const MORE_ROWS: [Row; 16] = [
    Row(b"y0=", Truth::No, NONE, (0, 8)),
    Row(b"y", Truth::No, NONE, (0, 8)),
    Row(b"y!", Truth::Yes, (0, 8), NONE),
    Row(b"x1=", Truth::No, NONE, (0, 8)),
    Row(b"x1N", Truth::Yes, (0, 8), NONE),
    Row(b"x7>", Truth::Maybe, (8, 8), (0, 6)),
    Row(b"x3<", Truth::Maybe, (0, 2), (4, 8)),
    Row(b"w0<", Truth::Maybe, (0, 8), (0, 8)),
    Row(b"xwl", Truth::Maybe, (0, 8), (0, 8)),
    Row(b"yo1l", Truth::Yes, (0, 8), NONE),
    Row(b"xyol", Truth::Maybe, (0, 0), (2, 8)),
    Row(b"ze0=", Truth::Maybe, (0, 8), (0, 8)),
    Row(b"y3FA", Truth::Yes, (0, 8), NONE),
    Row(b"0yFA", Truth::Yes, (0, 8), NONE),
    Row(b"w3FA", Truth::Maybe, (0, 8), (0, 8)),
    Row(b"0Hi0gA", Truth::Maybe, (0, 8), (0, 8)),
];

#[test]
fn small_cells_are_as_their_numbers_say(rt: HostRuntime) -> Result<(), AllocError> {
    let alloc = rt.alloc();
    let now = [
        from_to(0, 5, false),
        from_to(-2, 3, true),
        from_to(1, 1, false),
        from_to(2, 4, true),
    ];
    let entry = [
        from_to(4, 5, false),
        never(),
        from_to(1, 2, false),
        from_to(3, 3, false),
    ];
    let right = right_rows(alloc, &ROWS, &now, &entry)?;
    assert_eq!(rt; right, 58);
    let now = [
        even(),
        never(),
        from_to(0, 1, false),
        value(Interval::All, true),
    ];
    let entry = [
        from_to(2, 2, false),
        from_to(0, 1, false),
        from_to(0, 0, false),
        from_to(0, 0, false),
    ];
    let right = right_rows(alloc, &MORE_ROWS, &now, &entry)?;
    assert_eq!(rt; right, 16);
    Ok(())
}

/// `x > 0 && x > 0 && ..`, with so many links.
fn chain(alloc: Global, links: u32) -> Result<Pred, AllocError> {
    let mut pred = pred_of(alloc, b"x0>")?;
    for _ in 0..links {
        pred = Pred::Binary {
            op: NoteOp::And,
            left: Boxed::new(alloc, pred)?,
            right: Boxed::new(alloc, pred_of(alloc, b"x4<")?)?,
        };
    }
    Ok(pred)
}

#[test]
fn long_chains_and_places_that_no_run_reaches(rt: HostRuntime) -> Result<(), AllocError> {
    let alloc = rt.alloc();
    let now = [from_to(0, 5, false), never(), never(), never()];
    let pred = chain(alloc, 200)?;
    let known = known_of(alloc, &pred, &now, &now)?;
    assert!(rt; is_as_said(&known, &Row(b"", Truth::Maybe, (1, 3), (0, 5))));
    let pred = pred_of(alloc, b"xo0g")?;
    assert!(rt; truth(None, None, &pred) == Truth::Maybe);
    assert!(rt; truth(Some(&cells(alloc, &now)?), None, &pred) == Truth::No);
    Ok(())
}
