//! The laws of the domain: what the answers stand for.

ghost use Rattle.std.specs.Prelude.{ℤ, neg_ℤ, ◌+ℤ◌, ◌-ℤ◌, ◌*ℤ◌, int_div, int_rem};
ghost use Rattle.machine_ints.specs.Bits.{and_of, or_of, xor_of};
ghost use Rattle.machine_ints.specs.Operators.{shl_of, shr_of};
ghost use Rattle.int_congr.specs.Laws.{
  ContainsIsMember,
  Covers,
  CoversComplement,
  CoversConversion,
  Holds,
  IncludedIsSubset,
  IsAlwaysNormal,
  IsNormal,
  JoinIsLeast,
  JoinIsUpper,
  MeetsIfCommon,
};
ghost use Rattle.int_congr.specs.Rows.{
  and_row,
  convert_row,
  difference_row,
  join_row,
  negative_row,
  not_row,
  or_row,
  product_row,
  quotient_row,
  remainder_row,
  shl_row,
  shr_row,
  sum_row,
  xor_row,
};
ghost use Rattle.int_interval.specs.declared.shape.Shape.{Shape};
ghost use Rattle.int_congr.specs.declared.congr.Congr.{Congr};

/// The arithmetic operators stand for each exact result on numbers that their operands stand for.
pub fn arithmetic_covers()
    ensures neg { (a : Congr) (x : ℤ) → Holds a x → Holds (negative_row a) (neg_ℤ x) }
    ensures add { Covers sum_row ◌+ℤ◌ }
    ensures sub { Covers difference_row ◌-ℤ◌ }
    ensures mul { Covers product_row ◌*ℤ◌ }
    ensures div { Covers quotient_row int_div }
    ensures rem { Covers remainder_row int_rem }
{}

/// So do the shifts.
pub fn shifts_cover()
    ensures shl { Covers shl_row shl_of }
    ensures shr { Covers shr_row shr_of }
{}

/// And so do the bit operators; the complement, of numbers of the type.
pub fn bits_cover()
    ensures invert { CoversComplement }
    ensures and { Covers and_row and_of }
    ensures or { Covers or_row or_of }
    ensures xor { Covers xor_row xor_of }
{}

/// A conversion stands for the conversion of each number.
pub fn conversion_covers()
    ensures { CoversConversion }
{}

/// The tests and the join as sets; of congruences with numbers up to 2^125 the join is the least upper bound.
pub fn set_laws()
    ensures contains { ContainsIsMember }
    ensures join { JoinIsUpper }
    ensures included { IncludedIsSubset }
    ensures least { JoinIsLeast }
    ensures meets { MeetsIfCommon }
{}

/// Each answer has its remainder from 0 to below its modulus, or is one number.
pub fn results_are_normal()
    ensures neg { (a : Congr) → IsNormal (negative_row a) }
    ensures add { IsAlwaysNormal sum_row }
    ensures sub { IsAlwaysNormal difference_row }
    ensures mul { IsAlwaysNormal product_row }
    ensures div { IsAlwaysNormal quotient_row }
    ensures rem { IsAlwaysNormal remainder_row }
    ensures shl { IsAlwaysNormal shl_row }
    ensures shr { IsAlwaysNormal shr_row }
    ensures invert { (shape : Shape) (a : Congr) → IsNormal (not_row shape a) }
    ensures and { IsAlwaysNormal and_row }
    ensures or { IsAlwaysNormal or_row }
    ensures xor { IsAlwaysNormal xor_row }
    ensures join { IsAlwaysNormal join_row }
    ensures convert { (shape : Shape) (a : Congr) → IsNormal (convert_row shape a) }
{}
