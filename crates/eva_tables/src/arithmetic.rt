//! The arithmetic of C's integer types, in plain steps.

use c_ir::IntType;

/// Whether the type has the number.
pub(crate) fn fits(ty: IntType, number: i128) -> bool {
    ty.least() <= number && number <= ty.greatest() as i128
}

/// The number of the type that differs by a multiple of 2 to the power of its width (C11 6.3.1.3).
pub(crate) fn wrapped(ty: IntType, number: i128) -> i128 {
    let count = (ty.greatest() as i128) - ty.least() + 1;
    let above = number.wrapping_sub(ty.least()).rem_euclid(count);
    above.wrapping_add(ty.least())
}

/// A conversion (C11 6.3.1.2, 6.3.1.3).
pub(crate) fn converted(ty: IntType, number: i128) -> i128 {
    match ty {
        IntType::Bool => flag(number != 0),
        _ => wrapped(ty, number),
    }
}

/// 1 or 0.
pub(crate) fn flag(holds: bool) -> i128 {
    if holds { 1 } else { 0 }
}

/// The number doubled so often.
pub(crate) fn doubled(number: i128, times: i128) -> i128 {
    let mut number = number;
    for _ in 0..times {
        number = number.wrapping_mul(2);
    }
    number
}

/// The number halved so often, each time downwards.
pub(crate) fn halved(number: i128, times: i128) -> i128 {
    let mut number = number;
    for _ in 0..times {
        number = number.div_euclid(2);
    }
    number
}
