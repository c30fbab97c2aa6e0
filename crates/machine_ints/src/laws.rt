//! Laws of C's operators and conversions on numbers of a type.

ghost use Rattle.machine_ints.specs.Results.{
  BoolIsTyped,
  ComplementIs,
  ExactIsValue,
  TypedAreOperands,
  UnaryIsTyped,
  ValueIsTyped,
  WrapIsTyped,
};

/// Operands that pass both checks have an exact result in the type, which is the value. Operands that end no run have
/// a value in the type, which is the exact result brought into it (C11 6.5, paragraph 5; 6.2.5, paragraph 9).
pub fn results_are_typed()
    ensures exact { ExactIsValue }
    ensures value { ValueIsTyped }
    ensures operands { TypedAreOperands }
{}

/// The value of an operator with one operand is in the type; what the complement of a number of the type is.
pub fn unary_results_are_typed()
    ensures value { UnaryIsTyped }
    ensures complement { ComplementIs }
{}

/// Conversions give numbers of their type, and keep those (C11 6.3.1.2, 6.3.1.3).
pub fn conversions_are_typed()
    ensures wrap { WrapIsTyped }
    ensures to_bool { BoolIsTyped }
{}
