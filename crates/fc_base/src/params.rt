//! Values of parameters, and sets of parameters, by their numbers, 0 to 15. The crate `param_book` has the
//! table of the parameters.

ghost use Rattle.std.specs.Prelude.{◌≡◌, ◌<◌, slice_set};
ghost use Rattle.fc_base.specs.Params.{value_at};

/// A set of parameters: bit n stands for parameter n.
#[derive(Clone, Copy, Debug, PartialEq, Eq)]
pub struct ParamSet(pub u16);

/// A value for each number from 0 to 15. The numbers that are no parameter's have a value too, on which
/// nothing rests.
#[derive(Clone, Copy, Debug, PartialEq, Eq)]
pub struct ParamValues {
    pub values: [i64; 16],
}

impl ParamValues {
    /// The value of parameter `number`, which is at most 15.
    pub fn get(&self, number: u8) -> i64
        requires { number < 16 }
        ensures { result ≡ value_at self.now.values number }
    {
        self.values[usize::from(number)]
    }

    /// Gives parameter `number`, which is at most 15, this value.
    pub fn set(&mut self, number: u8, value: i64)
        requires { number < 16 }
        ensures { self.new.values ≡ slice_set self.old.values number value }
    {
        self.values[usize::from(number)] = value;
    }
}
