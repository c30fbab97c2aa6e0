//! The values of cells.

ghost use Rattle.std.specs.Prelude.{◌≡◌, ◌<◌, ◌+◌, ◌-◌, ◌^◌, pos, ◌≤◌, false, true, if◌then◌else◌, length, slice_set, IfOk, OnOk, OnErr};
ghost use Rattle.int_value.specs.Rows.{all_of, contains_row, empty_of, join_row};
ghost use Rattle.abs_cells.specs.Cells.{element_value, elements_from, index_met, is_included, joined, value_at};

use int_congr::Congr;
use int_interval::Interval;
use int_value::Value;
use sqlite_items::Items;
use std::alloc::{AllocError, Global};
use std::marker::Model;

/// A value for each cell, by the cell's number. Contracts see the list of the values.
#[derive(Debug, Drop)]
pub struct Cells {
    values: Items<Value>,
}

impl Model for Cells {
    ghost use Rattle.std.specs.Prelude.{List};
    ghost use Rattle.int_value.specs.declared.value.Value as one;

    ghost Value = { List one.Value };

    ghost view = { λ c. c.values };
}

impl Cells {
    /// The cells with these values, from cell 0 on.
    pub fn new(values: Items<Value>) -> Cells
        ensures { result ≡ values }
    {
        Cells { values }
    }

    /// How many cells there are.
    pub fn len(&self) -> usize
        ensures { result ≡ length self.now }
    {
        self.values.len()
    }

    /// The value of a cell. Of a cell that isn't there nothing is known: all numbers, or none.
    pub fn get(&self, cell: usize) -> Value
        ensures { result ≡ value_at self.now cell }
    {
        match self.values.get(cell) {
            Some(value) => *value,
            None => unknown(),
        }
    }

    /// Gives a cell another value; a cell that isn't there stays so. Fails only for want of memory, and then all is
    /// as before.
    pub fn set(&mut self, cell: usize, value: Value) -> Result<(), AllocError>
        ensures ok { OnOk result (self.new ≡ slice_set self.old cell value) }
        ensures err { OnErr result (self.new ≡ self.old) }
    {
        if cell < self.values.len() {
            self.values.set(cell, value);
        }
        Ok(())
    }

    /// The same values. Fails only for want of memory.
    pub fn copy(&self, alloc: Global) -> Result<Cells, AllocError>
        ensures { IfOk result (λ c. c ≡ self.now) }
    {
        let values = Items::from_slice(alloc, self.values.as_slice())?;
        Ok(Cells { values })
    }

    /// Of each cell that both have the join of both values. Fails only for want of memory.
    #[tactic(auto, using(crate::proofs::Steps::joined_step, crate::proofs::Steps::joined_end))]
    pub fn join(&self, alloc: Global, other: &Cells) -> Result<Cells, AllocError>
        ensures { IfOk result (λ c. c ≡ joined self.now other.now) }
    {
        let mine = self.values.as_slice();
        let others = other.values.as_slice();
        let mut values = Items::new(alloc);
        for number in 0..mine.len().min(others.len()) {
            values.push(mine[number].join(&others[number]))?;
        }
        Ok(Cells { values })
    }

    /// Whether each cell of the other has here a value that its value includes.
    #[tactic(auto, using(crate::proofs::Steps::included_step, crate::proofs::Steps::included_end, crate::proofs::Steps::included_short))]
    pub fn included(&self, other: &Cells) -> bool
        ensures { result ≡ is_included self.now other.now }
    {
        let mine = self.values.as_slice();
        let others = other.values.as_slice();
        if mine.len() < others.len() {
            return false;
        }
        for number in 0..others.len() {
            if !mine[number].included(&others[number]) {
                return false;
            }
        }
        true
    }

    /// What an element may have of the array of `length` elements whose cells begin at `first`: the join of those
    /// whose numbers are in `index`. It is empty where none is.
    #[tactic(auto, unfolding(crate::specs::Cells::element_value))]
    pub fn element(&self, first: u32, length: u32, index: &Value) -> Value
        ensures { result ≡ element_value self.now first length index.now }
    {
        let met = within_array(length, index);
        match met.range {
            Interval::Empty => nothing(),
            Interval::Within { lo, hi } => self.elements(first, &met, lo as usize, hi as usize + 1),
            Interval::All => unknown(),
        }
    }

    /// The elements from number `from` to number `end` less 1 that are in the index, joined.
    #[tactic(auto, using(crate::proofs::Steps::elements_step, crate::proofs::Steps::elements_end))]
    fn elements(&self, first: u32, index: &Value, from: usize, end: usize) -> Value
        requires order { from ≤ end }
        requires bound { end ≤ 2 ^ 32 }
        ensures { result ≡ elements_from self.now first index.now (empty_of false) from (end - from) }
    {
        let mut value = nothing();
        for number in from..end {
            value = self.with_element(value, first as usize, number, index);
        }
        value
    }

    /// The value joined with that of the element of this number, if the number is in the index.
    fn with_element(&self, value: Value, first: usize, number: usize, index: &Value) -> Value
        requires { first + number < 2 ^ 64 }
        ensures { result ≡ (if contains_row index.now (pos number)
            then join_row value (value_at self.now (first + number)) else value) }
    {
        if index.contains(number as i128) {
            value.join(&self.get(first + number))
        } else {
            value
        }
    }
}

/// The index, as far as it lies in the array.
pub(crate) fn within_array(length: u32, index: &Value) -> Value
    ensures { result ≡ index_met length index.now }
{
    index.meet(&Interval::Within {
        lo: 0,
        hi: length as i128 - 1,
    })
}

/// Nothing is known: each number, or none.
fn unknown() -> Value
    ensures { result ≡ all_of true }
{
    Value {
        range: Interval::All,
        congr: Congr { rem: 0, modulus: 1 },
        unset: true,
    }
}

/// No number.
fn nothing() -> Value
    ensures { result ≡ empty_of false }
{
    Value {
        range: Interval::Empty,
        congr: Congr { rem: 0, modulus: 1 },
        unset: false,
    }
}
