//! Residues and greatest common divisors.

ghost use Rattle.std.specs.Prelude.{◌≡◌, ◌<◌, ◌%◌, ◌-ℤ◌, unsigned_abs};
ghost use Rattle.machine_ints.specs.Divisors.{divides, gcd_of, residue_of};

use crate::bits::{Halved, half};

/// The greatest common divisor; 0 for 0 and 0.
pub fn gcd(left: u128, right: u128) -> u128
    ensures { result ≡ gcd_of left right }
{
    let mut larger = left;
    let mut smaller = right;
    'dividing: while smaller != 0 {
        let rest = rest_of(larger, smaller);
        larger = smaller;
        smaller = rest;
    }
    larger
}

/// The rest of a division, by a division of 64 bits where that serves: of 128 bits it takes many times longer.
fn rest_of(number: u128, divisor: u128) -> u128
    requires { 0 < divisor }
    ensures { result ≡ number % divisor }
{
    if number < divisor {
        number
    } else if divisor == 1 {
        0
    } else if number <= LARGEST {
        u128::from(number as u64 % divisor as u64)
    } else {
        number % divisor
    }
}

/// 2^64 - 1.
const LARGEST: u128 = 0xffff_ffff_ffff_ffff;

/// The number from 0 to `modulus` - 1 that differs from `value` by a multiple of `modulus`.
pub fn residue(value: i128, modulus: u128) -> u128
    requires { 0 < modulus }
    ensures value { result ≡ residue_of value modulus }
    ensures below { result < modulus }
{
    match half(value) {
        Halved::Clear(bits) => rest_of(bits, modulus),
        Halved::Set(bits) => modulus - 1 - rest_of(bits, modulus),
    }
}

/// The residue of the exact difference `left - right`.
pub fn residue_of_difference(left: i128, right: i128, modulus: u128) -> u128
    requires { 0 < modulus }
    ensures value { result ≡ residue_of (left -ℤ right) modulus }
    ensures below { result < modulus }
{
    match left.checked_sub(right) {
        Some(apart) => residue(apart, modulus),
        None => difference_of_residues(left, right, modulus),
    }
}

/// The same from the residues of both numbers, for a difference that doesn't fit in 128 bits.
fn difference_of_residues(left: i128, right: i128, modulus: u128) -> u128
    requires { 0 < modulus }
    ensures value { result ≡ residue_of (left -ℤ right) modulus }
    ensures below { result < modulus }
{
    let above = residue(left, modulus);
    let below = residue(right, modulus);
    if below <= above {
        above - below
    } else {
        modulus - (below - above)
    }
}

/// Whether the exact difference `left - right` is a multiple of `modulus`, where 0 has the multiple 0 alone.
pub fn differ_by_multiple(left: i128, right: i128, modulus: u128) -> bool
    ensures { result ≡ divides modulus (unsigned_abs (left -ℤ right)) }
{
    if modulus == 0 {
        left == right
    } else {
        residue_of_difference(left, right, modulus) == 0
    }
}
