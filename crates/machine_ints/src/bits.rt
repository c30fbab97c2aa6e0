//! `& | ^ ~` on two's complement (C11 6.5.3.3, 6.5.10 to 6.5.12).

ghost use Rattle.std.specs.Prelude.{◌≡◌, ◌^◌, ◌<◌, ◌≤◌, pos, negsuc};
ghost use Rattle.machine_ints.specs.Bits.{and_of, length_of, not_of, or_of, xor_of};
ghost use Rattle.machine_ints.specs.inner.Halves.{value_of, IsShort};

/// A number by its sign bit, with its other bits; where the sign bit is set, with their complement.
#[derive(Clone, Copy)]
pub(crate) enum Halved {
    Clear(u128),
    Set(u128),
}

/// The number's half.
pub(crate) fn half(value: i128) -> Halved
    ensures value { value ≡ value_of result }
    ensures short { IsShort result }
{
    if value < 0 {
        Halved::Set(value.unsigned_abs() - 1)
    } else {
        Halved::Clear(value.unsigned_abs())
    }
}

/// The number with the sign bit clear and these bits.
fn plain(bits: u128) -> i128
    requires { bits < 2 ^ 127 }
    ensures { result ≡ pos bits }
{
    bits as i128
}

/// The number with the sign bit set and the complement of these bits.
fn complement(bits: u128) -> i128
    requires { bits < 2 ^ 127 }
    ensures { result ≡ negsuc bits }
{
    -(bits as i128) - 1
}

/// `~value`.
pub fn not(value: i128) -> i128
    ensures { result ≡ not_of value }
{
    match half(value) {
        Halved::Clear(bits) => complement(bits),
        Halved::Set(bits) => plain(bits),
    }
}

/// `left & right`.
#[tactic(auto, using(crate::proofs::BitLaws::short_bits))]
pub fn and(left: i128, right: i128) -> i128
    ensures { result ≡ and_of left right }
{
    match (half(left), half(right)) {
        (Halved::Clear(a), Halved::Clear(b)) => plain(a & b),
        (Halved::Clear(a), Halved::Set(b)) => plain(a - (a & b)),
        (Halved::Set(a), Halved::Clear(b)) => plain(b - (b & a)),
        (Halved::Set(a), Halved::Set(b)) => complement(a | b),
    }
}

/// `left | right`.
#[tactic(auto, using(crate::proofs::BitLaws::short_bits))]
pub fn or(left: i128, right: i128) -> i128
    ensures { result ≡ or_of left right }
{
    match (half(left), half(right)) {
        (Halved::Clear(a), Halved::Clear(b)) => plain(a | b),
        (Halved::Clear(a), Halved::Set(b)) => complement(b - (b & a)),
        (Halved::Set(a), Halved::Clear(b)) => complement(a - (a & b)),
        (Halved::Set(a), Halved::Set(b)) => complement(a & b),
    }
}

/// `left ^ right`.
#[tactic(auto, using(crate::proofs::BitLaws::short_bits))]
pub fn xor(left: i128, right: i128) -> i128
    ensures { result ≡ xor_of left right }
{
    match (half(left), half(right)) {
        (Halved::Clear(a), Halved::Clear(b)) => plain(a ^ b),
        (Halved::Clear(a), Halved::Set(b)) => complement(a ^ b),
        (Halved::Set(a), Halved::Clear(b)) => complement(a ^ b),
        (Halved::Set(a), Halved::Set(b)) => plain(a ^ b),
    }
}

/// How many binary digits the number has: the least k with the number below 2^k.
pub fn bit_length(value: u128) -> u32
    ensures value { result ≡ length_of value }
    ensures bound { result ≤ 128 }
{
    128 - value.leading_zeros()
}
