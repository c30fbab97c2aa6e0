//! How a relation that holds narrows the cells that it names.

ghost use Rattle.std.specs.Prelude.{◌≡◌, ◌+ℤ◌, ◌-ℤ◌, pos, IfOk};
ghost use Rattle.int_value.specs.Rows.{meet_row};
ghost use Rattle.int_interval.specs.declared.interval.Interval.TheVariants as Interval;
ghost use Rattle.abs_cells.specs.Relations as spec;
ghost use Rattle.abs_cells.specs.Relations.{high_but, left_by, left_of_all, low_but, narrow_both, narrowed_row};

use crate::cells::Cells;
use crate::relation::mirrored;
use fc_base::Relation;
use int_interval::{Interval, is_one};
use int_value::Value;
use std::alloc::AllocError;

/// One side of a relation: the number of the cell that it names, if it names one, and its value.
#[derive(Clone, Copy, Debug, PartialEq, Eq)]
pub struct Side {
    pub cell: Option<u32>,
    pub value: Value,
}

/// The cells after a relation held: each side that names a cell is narrowed by the other side's value before. None
/// where a narrowed cell has no number left. Fails only for want of memory.
#[tactic(auto, unfolding(crate::specs::Relations::narrow_both))]
pub fn narrow(
    cells: Cells,
    relation: Relation,
    left: &Side,
    right: &Side,
) -> Result<Option<Cells>, AllocError>
    ensures { IfOk result (λ e. e ≡ narrow_both relation left.now right.now cells) }
{
    match narrow_named(cells, relation, left.cell, &right.value)? {
        None => Ok(None),
        Some(cells) => narrow_named(cells, mirrored(relation), right.cell, &left.value),
    }
}

fn narrow_named(
    mut cells: Cells,
    relation: Relation,
    named: Option<u32>,
    other: &Value,
) -> Result<Option<Cells>, AllocError>
    ensures { IfOk result (λ e. e ≡ spec.narrow_named relation named other.now cells) }
{
    match named {
        None => Ok(Some(cells)),
        Some(cell) => {
            let value = narrowed(relation, &cells.get(cell as usize), other);
            if value.is_empty() {
                return Ok(None);
            }
            cells.set(cell as usize, value)?;
            Ok(Some(cells))
        }
    }
}

/// What the value has of numbers that are so related to one of the other's. Its flag stays.
#[tactic(auto, unfolding(crate::specs::Relations::narrowed_row))]
fn narrowed(relation: Relation, own: &Value, other: &Value) -> Value
    ensures { result ≡ narrowed_row relation own.now other.now }
{
    match (own.range, other.range) {
        (Interval::Empty, _) | (_, Interval::Empty) => own.meet(&Interval::Empty),
        (Interval::Within { lo: a, hi: b }, Interval::Within { lo: c, hi: d }) => cut(
            relation,
            own,
            (a, b),
            (c, d),
        ),
        (Interval::All, Interval::Within { lo: c, hi: d }) => uncut(relation, own, c, d),
        (_, Interval::All) => own.meet(&Interval::All),
    }
}

/// The same of a value with ends, by the other side's ends.
fn cut(relation: Relation, own: &Value, ends: (i128, i128), others: (i128, i128)) -> Value
    ensures { result ≡ meet_row own.now (left_by relation ends.0 ends.1 others.0 others.1) }
{
    let (a, b) = ends;
    let (c, d) = others;
    match relation {
        Relation::Less => below(own, a, d),
        Relation::LessEq => own.meet(&Interval::Within { lo: a, hi: d }),
        Relation::Greater => above(own, c, b),
        Relation::GreaterEq => own.meet(&Interval::Within { lo: c, hi: b }),
        Relation::Equal => own.meet(&Interval::Within { lo: c, hi: d }),
        Relation::NotEqual => {
            if is_one(c, d) {
                without(own, a, b, c)
            } else {
                own.meet(&Interval::Within { lo: a, hi: b })
            }
        }
    }
}

/// The same of a value without ends.
fn uncut(relation: Relation, own: &Value, lo: i128, hi: i128) -> Value
    ensures { result ≡ meet_row own.now (left_of_all relation lo hi) }
{
    match relation {
        Relation::Equal => own.meet(&Interval::Within { lo, hi }),
        _ => own.meet(&Interval::All),
    }
}

/// The numbers of the value from `lo` to `end` less 1.
fn below(own: &Value, lo: i128, end: i128) -> Value
    ensures { result ≡ meet_row own.now (Interval.Within lo (end -ℤ pos 1)) }
{
    match end.checked_sub(1) {
        Some(hi) => own.meet(&Interval::Within { lo, hi }),
        None => own.meet(&Interval::Empty),
    }
}

/// The numbers of the value from `end` and 1 to `hi`.
fn above(own: &Value, end: i128, hi: i128) -> Value
    ensures { result ≡ meet_row own.now (Interval.Within (end +ℤ pos 1) hi) }
{
    match end.checked_add(1) {
        Some(lo) => own.meet(&Interval::Within { lo, hi }),
        None => own.meet(&Interval::Empty),
    }
}

/// The numbers of the value from `lo` to `hi`; an end that is this number is moved by 1.
fn without(own: &Value, lo: i128, hi: i128, number: i128) -> Value
    ensures { result ≡ meet_row own.now (Interval.Within (low_but lo number) (high_but hi number)) }
{
    match (is_one(lo, number), is_one(hi, number)) {
        (true, true) => own.meet(&Interval::Empty),
        (true, false) => above(own, lo, hi),
        (false, true) => below(own, lo, hi),
        (false, false) => own.meet(&Interval::Within { lo, hi }),
    }
}
