//! The laws of the domain: what the answers stand for.

ghost use Rattle.std.specs.Prelude.{ℤ, neg_ℤ, ◌+ℤ◌, ◌-ℤ◌, ◌*ℤ◌, int_div, int_rem};
ghost use Rattle.machine_ints.specs.Bits.{and_of, not_of, or_of, xor_of};
ghost use Rattle.machine_ints.specs.Operators.{IsWithin, shl_of, shr_of};
ghost use Rattle.int_interval.specs.Laws.{
  ContainsIsMember,
  Covers,
  CoversBits,
  CoversComplement,
  CoversConversion,
  CoversDivision,
  CoversShift,
  EmptyHasNone,
  Holds,
  IncludedIsSubset,
  JoinIsUpper,
  JustIsOne,
  MeetIsBoth,
};
ghost use Rattle.int_interval.specs.Rows.{
  and_row,
  difference_row,
  negative_row,
  not_row,
  or_row,
  product_row,
  quotient_row,
  remainder_row,
  shl_row,
  shr_row,
  sum_row,
  xor_row,
};
ghost use Rattle.int_interval.specs.Shapes.{IsShape};
ghost use Rattle.int_interval.specs.declared.shape.Shape.{Shape};
ghost use Rattle.int_interval.specs.declared.interval.Interval.{Interval};

/// The arithmetic operators stand for each exact result on numbers that their operands stand for.
pub fn arithmetic_covers()
    ensures neg { (a : Interval) (x : ℤ) → Holds a x → Holds (negative_row a) (neg_ℤ x) }
    ensures add { Covers sum_row ◌+ℤ◌ }
    ensures sub { Covers difference_row ◌-ℤ◌ }
    ensures mul { Covers product_row ◌*ℤ◌ }
    ensures div { CoversDivision quotient_row int_div }
    ensures rem { CoversDivision remainder_row int_rem }
{}

/// So do the shifts.
pub fn shifts_cover()
    ensures shl { CoversShift shl_row shl_of }
    ensures shr { CoversShift shr_row shr_of }
{}

/// And so do the bit operators, on numbers of the type.
pub fn bits_cover()
    ensures invert { CoversComplement }
    ensures and { CoversBits and_row and_of }
    ensures or { CoversBits or_row or_of }
    ensures xor { CoversBits xor_row xor_of }
{}

/// A conversion stands for the conversion of each number.
pub fn conversion_covers()
    ensures { CoversConversion }
{}

/// What the tests say of the numbers; a join is an upper bound, a meet is exact, and what is included is a subset.
pub fn set_laws()
    ensures contains { ContainsIsMember }
    ensures is_empty { EmptyHasNone }
    ensures is_just { JustIsOne }
    ensures join { JoinIsUpper }
    ensures meet { MeetIsBoth }
    ensures included { IncludedIsSubset }
{}
