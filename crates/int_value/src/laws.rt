//! The laws of the domain: what the answers stand for, that what is said of checks and relations is true, and that
//! values of a type keep to it.

ghost use Rattle.std.specs.Prelude.{ℤ, neg_ℤ, ◌+ℤ◌, ◌-ℤ◌, ◌*ℤ◌, int_div, int_rem};
ghost use Rattle.int_value.specs.Checks.{
  add_row,
  bit_and_row,
  bit_or_row,
  bit_xor_row,
  div_row,
  invert_row,
  mul_row,
  neg_row,
  rem_row,
  shl_row,
  shr_row,
  sub_row,
};
ghost use Rattle.int_value.specs.Covers.{
  CoversAnyDivisor,
  CoversOperator,
  CoversUnary,
};
ghost use Rattle.int_value.specs.Decides.{DecidesFirst, DecidesSecond, DecidesUnary};
ghost use Rattle.int_value.specs.Laws.{
  ContainsIsMember,
  CoversBool,
  CoversConversion,
  CoversDivision,
  CoversNumber,
  CoversTerm,
  CoversUnaryTerm,
  EmptyIsNone,
  IncludedIsSubset,
  IsAlwaysReduced,
  JoinIsUpper,
  MeetIsBoth,
  ReduceKeeps,
  RelationsAreRight,
  SingleIsOne,
  WidenIsUpper,
  WithinIsRight,
};
ghost use Rattle.int_value.specs.Rows.{
  difference_row,
  negation_row,
  number_row,
  product_row,
  quotient_row,
  remainder_row,
  sum_row,
};
ghost use Rattle.int_value.specs.Typed.{
  BoolIsTyped,
  ConvertIsTyped,
  IsClosed,
  IsClosedShift,
  IsClosedUnary,
  IsReduced,
  JoinIsLeast,
  JoinIsTyped,
  MeetIsTyped,
  ReduceIsStable,
  WholeIncludes,
  WholeIsTyped,
  WidenIsTyped,
  WidenKeepsRange,
};
ghost use Rattle.int_value.specs.declared.value.Value.{Value};

use machine_ints::{Operator, UnaryOperator};

/// What the tests of membership say: `contains` of any value, `is_empty` and `single` of reduced ones.
pub fn membership()
    ensures contains { ContainsIsMember }
    ensures is_empty { EmptyIsNone }
    ensures single { SingleIsOne }
{}

/// Of numbers and of "no value": reduction changes nothing, a join is an upper bound, a meet is exact, and what is
/// included is a subset.
pub fn set_laws()
    ensures reduce { ReduceKeeps }
    ensures join { JoinIsUpper }
    ensures meet { MeetIsBoth }
    ensures included { IncludedIsSubset }
{}

/// A widening keeps what either value has, "no value" and each number of the type, whatever the values are.
pub fn widen_is_upper()
    ensures { WidenIsUpper }
{}

/// A conversion stands for the conversion of each number, and for no missing value.
pub fn conversions_cover()
    ensures convert { CoversConversion }
    ensures to_bool { CoversBool }
{}

/// Operators without a type stand for each exact result on numbers that the operands stand for.
pub fn terms_cover()
    ensures number { CoversNumber }
    ensures negation { CoversUnaryTerm negation_row neg_ℤ }
    ensures sum { CoversTerm sum_row ◌+ℤ◌ }
    ensures difference { CoversTerm difference_row ◌-ℤ◌ }
    ensures product { CoversTerm product_row ◌*ℤ◌ }
    ensures quotient { CoversDivision quotient_row int_div }
    ensures remainder { CoversDivision remainder_row int_rem }
{}

/// Their results are reduced, whatever the operands are, and reduction leaves what is reduced as it is.
pub fn terms_are_reduced()
    ensures number { (n : ℤ) → IsReduced (number_row n) }
    ensures negation { (a : Value) → IsReduced (negation_row a) }
    ensures sum { IsAlwaysReduced sum_row }
    ensures difference { IsAlwaysReduced difference_row }
    ensures product { IsAlwaysReduced product_row }
    ensures quotient { IsAlwaysReduced quotient_row }
    ensures remainder { IsAlwaysReduced remainder_row }
    ensures stable { ReduceIsStable }
{}

/// Of each operator of C with two operands: the marks of its checks are right, that of the second check where the first
/// passes, and where the checks pass that end a run, the value stands for the result brought into the type.
pub fn operators_cover()
    ensures add { CoversOperator Operator.Add add_row }
    ensures sub { CoversOperator Operator.Sub sub_row }
    ensures mul { CoversOperator Operator.Mul mul_row }
    ensures div { CoversOperator Operator.Div div_row }
    ensures rem { CoversOperator Operator.Rem rem_row }
    ensures shl { CoversOperator Operator.Shl shl_row }
    ensures shr { CoversOperator Operator.Shr shr_row }
    ensures and { CoversOperator Operator.And bit_and_row }
    ensures or { CoversOperator Operator.Or bit_or_row }
    ensures xor { CoversOperator Operator.Xor bit_xor_row }
{}

/// Of `/` and `%` by any number, of the type or not: the mark of the second check is right, and where both checks pass
/// and are visited the value stands for the exact result.
pub fn division_covers()
    ensures div { CoversAnyDivisor Operator.Div div_row }
    ensures rem { CoversAnyDivisor Operator.Rem rem_row }
{}

/// What `operators_cover` says, of the operators with one operand.
pub fn unary_operators_cover()
    ensures neg { CoversUnary UnaryOperator.Negate neg_row }
    ensures invert { CoversUnary UnaryOperator.Complement invert_row }
{}

/// Conversions give values of their type, and joins, meets and widenings of values of a type are values of it.
pub fn typed_values_are_closed()
    ensures convert { ConvertIsTyped }
    ensures to_bool { BoolIsTyped }
    ensures join { JoinIsTyped }
    ensures meet { MeetIsTyped }
    ensures widen { WidenIsTyped }
    ensures widen_range { WidenKeepsRange }
{}

/// Operators on values of a type give values of it; the right operand of a shift may be of another type.
pub fn operators_are_closed()
    ensures neg { IsClosedUnary neg_row }
    ensures invert { IsClosedUnary invert_row }
    ensures add { IsClosed add_row }
    ensures sub { IsClosed sub_row }
    ensures mul { IsClosed mul_row }
    ensures div { IsClosed div_row }
    ensures rem { IsClosed rem_row }
    ensures shl { IsClosedShift shl_row }
    ensures shr { IsClosedShift shr_row }
    ensures and { IsClosed bit_and_row }
    ensures or { IsClosed bit_or_row }
    ensures xor { IsClosed bit_xor_row }
{}

/// The whole type is a value of it and includes each of them, and what includes two of them includes their join.
pub fn whole_type_includes()
    ensures whole { WholeIsTyped }
    ensures includes { WholeIncludes }
    ensures least { JoinIsLeast }
{}

/// What is said of a relation, or of numbers in a range, is true.
pub fn relations_are_true()
    ensures relations { RelationsAreRight }
    ensures within { WithinIsRight }
{}

/// A mark of a first check says yes exactly where every choice of numbers of the operands passes the check, of values
/// that have a least and a greatest number.
pub fn marks_decide()
    ensures neg { DecidesUnary UnaryOperator.Negate neg_row }
    ensures add { DecidesFirst Operator.Add add_row }
    ensures sub { DecidesFirst Operator.Sub sub_row }
    ensures mul { DecidesFirst Operator.Mul mul_row }
    ensures div { DecidesFirst Operator.Div div_row }
    ensures rem { DecidesFirst Operator.Rem rem_row }
    ensures shl { DecidesFirst Operator.Shl shl_row }
    ensures shr { DecidesFirst Operator.Shr shr_row }
{}

/// So does a mark of a second check, of operands that pass the first one.
pub fn second_marks_decide()
    ensures div { DecidesSecond Operator.Div div_row }
    ensures rem { DecidesSecond Operator.Rem rem_row }
    ensures shl { DecidesSecond Operator.Shl shl_row }
{}
