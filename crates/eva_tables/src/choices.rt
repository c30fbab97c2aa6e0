//! The concrete cells that abstract ones stand for.

use abs_cells::Cells;
use int_congr::Congr;
use int_interval::Interval;
use int_value::Value;
use std::alloc::{AllocError, Global};

/// The most numbers of a cell.
const MOST: usize = 1_000;

/// What a cell may have: a number, or none.
pub(crate) type Choice = Option<i128>;

/// What each cell may have.
#[derive(Drop)]
pub(crate) struct Choices {
    lists: Vec<Vec<Choice>>,
}

/// Whether the congruence has the number.
fn is_congruent(congr: &Congr, number: i128) -> bool {
    let distance = number.wrapping_sub(congr.rem);
    match distance.checked_rem(congr.modulus) {
        None => distance == 0,
        Some(rest) => rest == 0,
    }
}

/// Whether the value stands for the number, or for none where there is none.
pub(crate) fn stands_for(value: &Value, choice: Choice) -> bool {
    let Some(number) = choice else {
        return value.unset;
    };
    let is_inside = match value.range {
        Interval::Empty => false,
        Interval::Within { lo, hi } => lo <= number && number <= hi,
        Interval::All => true,
    };
    is_inside && is_congruent(&value.congr, number)
}

/// The numbers that a value stands for, from the least on, and none where it may have none.
fn choices_of(alloc: Global, value: &Value) -> Result<Vec<Choice>, AllocError> {
    let mut choices = Vec::new(alloc);
    if value.unset {
        choices.push(None)?;
    }
    if let Interval::Within { lo, hi } = value.range {
        let period = value.congr.modulus.max(1);
        let mut next = Some(lo);
        for _ in 0..=MOST {
            let Some(number) = next else { break };
            if hi < number {
                break;
            }
            if is_congruent(&value.congr, number) {
                choices.push(Some(number))?;
            }
            next = number.checked_add(period);
        }
    }
    Ok(choices)
}

impl Choices {
    /// Those of all cells; None where they are too many.
    pub(crate) fn of(alloc: Global, cells: &Cells) -> Result<Option<Choices>, AllocError> {
        let mut lists = Vec::new(alloc);
        for number in 0..cells.len() {
            let choices = choices_of(alloc, &cells.get(number))?;
            if choices.len() > MOST {
                return Ok(None);
            }
            lists.push(choices)?;
        }
        Ok(Some(Choices { lists }))
    }

    /// How many concrete cells there are.
    pub(crate) fn count(&self) -> usize {
        let mut count = 1usize;
        for list in &self.lists {
            count = count.saturating_mul(list.len());
        }
        count
    }

    /// The concrete cells with this number.
    pub(crate) fn numbered(&self, alloc: Global, number: usize) -> Result<Vec<Choice>, AllocError> {
        let mut number = number;
        let mut cells = Vec::new(alloc);
        for list in &self.lists {
            let place = number.checked_rem(list.len()).unwrap_or(0);
            number = number.checked_div(list.len()).unwrap_or(0);
            if let Some(choice) = list.get(place) {
                cells.push(*choice)?;
            }
        }
        Ok(cells)
    }
}
