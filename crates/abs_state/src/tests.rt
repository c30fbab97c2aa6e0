//! Worked states and widenings.

use super::*;
use abs_cells::Cells;
use fc_base::PropId;
use int_congr::Congr;
use int_interval::{Interval, Shape};
use int_value::Value;
use prop_set::PropSet;
use sqlite_items::Items;
use std::alloc::{AllocError, Global};
use std::assert;

fn from_to(ends: (i128, i128), unset: bool) -> Value {
    Value {
        range: Interval::Within {
            lo: ends.0,
            hi: ends.1,
        },
        congr: Congr { rem: 0, modulus: 1 },
        unset,
    }
    .reduce()
}

/// Cells by the ends of their values.
fn cells(alloc: Global, ends: &[(i128, i128)]) -> Result<Cells, AllocError> {
    let mut values = Items::new(alloc);
    for pair in ends {
        values.push(from_to(*pair, false))?;
    }
    Ok(Cells::new(values))
}

fn are(cells: &Cells, ends: &[(i128, i128)], unset: bool) -> bool {
    let mut same = cells.len() == ends.len();
    for number in 0..ends.len() {
        same = same && cells.get(number) == from_to(ends[number], unset);
    }
    same
}

fn properties(alloc: Global, numbers: &[u32]) -> Result<PropSet, AllocError> {
    let mut used = PropSet::new(alloc);
    for number in numbers {
        used.insert(PropId(*number))?;
    }
    Ok(used)
}

/// A state with these cells, or an unreached one, that used these properties.
fn state(
    alloc: Global,
    ends: Option<&[(i128, i128)]>,
    numbers: &[u32],
) -> Result<State, AllocError> {
    let used = properties(alloc, numbers)?;
    match ends {
        None => Ok(State::unreached(used)),
        Some(ends) => {
            let env = Some(cells(alloc, ends)?);
            Ok(State { env, used })
        }
    }
}

fn is_of(
    alloc: Global,
    state: &State,
    ends: Option<&[(i128, i128)]>,
    numbers: &[u32],
) -> Result<bool, AllocError> {
    let used = properties(alloc, numbers)?;
    Ok(
        state.used.same(&used)
            && match (&state.env, ends) {
                (None, None) => true,
                (Some(cells), Some(ends)) => are(cells, ends, false),
                _ => false,
            },
    )
}

type Known<'a> = (Option<&'a [(i128, i128)]>, &'a [u32]);

/// Whether the states have this join, either way round, and the first one is included in the second or not.
fn is_right(
    alloc: Global,
    left: Known,
    right: Known,
    wanted: Known,
    within: bool,
) -> Result<bool, AllocError> {
    let (one, two) = (
        state(alloc, left.0, left.1)?,
        state(alloc, right.0, right.1)?,
    );
    let (first, second) = (one.join(alloc, &two)?, two.join(alloc, &one)?);
    let again = one.copy(alloc)?;
    Ok(
        is_of(alloc, &first, wanted.0, wanted.1)?
            && is_of(alloc, &second, wanted.0, wanted.1)?
            && is_of(alloc, &again, left.0, left.1)?
            && one.included(&two) == within
            && again.included(&one)
            && one.included(&first)
            && two.included(&first),
    )
}

#[test]
fn states(rt: HostRuntime) -> Result<(), AllocError> {
    let alloc = rt.alloc();
    let rows: [(Known, Known, Known, bool); 5] = [
        (
            (Some(&[(0, 1)]), &[1]),
            (Some(&[(4, 5)]), &[2]),
            (Some(&[(0, 5)]), &[1, 2]),
            false,
        ),
        (
            (None, &[3]),
            (Some(&[(0, 1)]), &[]),
            (Some(&[(0, 1)]), &[3]),
            true,
        ),
        (
            (Some(&[(0, 1)]), &[7]),
            (None, &[64]),
            (Some(&[(0, 1)]), &[7, 64]),
            false,
        ),
        ((None, &[1]), (None, &[0]), (None, &[0, 1]), true),
        (
            (Some(&[(1, 1), (0, 9)]), &[5]),
            (Some(&[(0, 2), (0, 9)]), &[]),
            (Some(&[(0, 2), (0, 9)]), &[5]),
            true,
        ),
    ];
    for (left, right, wanted, within) in rows {
        assert!(rt; is_right(alloc, left, right, wanted, within)?);
    }
    states_cover();
    Ok(())
}

const SIGNED: Shape = Shape {
    lo: -128,
    hi: 127,
    width: 8,
};

const UNSIGNED: Shape = Shape {
    lo: 0,
    hi: 255,
    width: 8,
};

/// Whether cells of these ends, of a signed and an unsigned type, are widened to these.
fn is_widened(
    alloc: Global,
    turn: u32,
    old: &[(i128, i128)],
    next: &[(i128, i128)],
    wanted: &[(i128, i128)],
) -> Result<bool, AllocError> {
    let (before, after) = (cells(alloc, old)?, cells(alloc, next)?);
    let thresholds = [-1, 0, 1, 9, 10, 11];
    let widened = widen(
        alloc,
        &before,
        &after,
        turn,
        &thresholds,
        &[SIGNED, UNSIGNED],
    )?;
    Ok(are(&widened, wanted, false))
}

/// Whether a signed and an unsigned cell with these flags have these ends, and this flag.
fn is_whole(
    alloc: Global,
    flags: &[bool],
    wanted: &[(i128, i128)],
    unset: bool,
) -> Result<bool, AllocError> {
    let found = whole(alloc, &[SIGNED, UNSIGNED], flags)?;
    Ok(are(&found, wanted, unset))
}

type Ends<'a> = &'a [(i128, i128)];

#[test]
fn all_cells_at_once(rt: HostRuntime) -> Result<(), AllocError> {
    let alloc = rt.alloc();
    let rows: [(u32, Ends, Ends, Ends); 4] = [
        (
            8,
            &[(0, 1), (3, 3), (5, 5)],
            &[(0, 2), (2, 12), (5, 9)],
            &[(0, 9), (1, 255)],
        ),
        (
            9,
            &[(0, 1), (3, 3), (5, 5)],
            &[(0, 2), (2, 12), (5, 9)],
            &[(0, 127), (0, 255)],
        ),
        (4, &[(7, 7)], &[(-5, 2), (2, 12)], &[(-128, 7)]),
        (4, &[(7, 7), (1, 2)], &[], &[]),
    ];
    for (turn, old, next, wanted) in rows {
        assert!(rt; is_widened(alloc, turn, old, next, wanted)?);
    }
    assert!(rt; is_whole(alloc, &[true, true, true], &[(-128, 127), (0, 255)], true)?);
    assert!(rt; is_whole(alloc, &[false, false], &[(-128, 127), (0, 255)], false)?);
    assert!(rt; is_whole(alloc, &[true], &[(-128, 127)], true)?);
    typed_cells_are_kept();
    Ok(())
}
