//! Shapes of types.

ghost use Rattle.std.specs.Prelude.{◌≡◌};
ghost use Rattle.int_interval.specs.Shapes.{IsShape};
ghost use Rattle.eva_values.specs.Shapes as spec;

use c_ir::IntType;
use int_interval::Shape;
use int_value::Value;

/// The least and the greatest number of a type, and its width (C11 6.2.6.2).
pub fn shape_of(ty: IntType) -> Shape
    ensures value { result ≡ spec.shape_of ty }
    ensures shape { IsShape result }
{
    Shape {
        lo: ty.least(),
        hi: ty.greatest() as i128,
        width: ty.width(),
    }
}

/// A conversion to the type (C11 6.3.1.2, 6.3.1.3).
pub(crate) fn converted(ty: IntType, value: &Value) -> Value
    ensures { result ≡ spec.converted_row ty value.now }
{
    if ty.is(IntType::Bool) {
        value.to_bool()
    } else {
        value.convert(&shape_of(ty))
    }
}
