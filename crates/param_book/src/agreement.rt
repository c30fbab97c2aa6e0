//! When values of parameters agree for an emitter.

ghost use Rattle.std.specs.Prelude.{◌≡◌, ◌<◌, All};
ghost use Rattle.std.specs.List.{list_all};
ghost use Rattle.param_book.specs.Agreement.{agree_on, agrees_at, rests_on};

use fc_base::{ParamSet, ParamValues};

/// The numbers of the parameters.
const NUMBERS: [u8; 13] = [0, 1, 2, 3, 4, 8, 9, 10, 11, 12, 13, 14, 15];

/// Whether two values of all parameters agree on those on which the entries of an emitter with this correctness
/// set rest: the set's, and those that runs depend on.
pub fn agree(set: ParamSet, a: &ParamValues, b: &ParamValues) -> bool
    ensures { result ≡ agree_on set a.now b.now }
{
    agree_on(&NUMBERS, set, a, b)
}

/// Whether values agree on those of these parameters on which a set rests.
fn agree_on(numbers: &[u8], set: ParamSet, a: &ParamValues, b: &ParamValues) -> bool
    requires { All (λ n. n < 16) numbers.now }
    ensures { result ≡ list_all (agrees_at set a.now b.now) numbers.now }
{
    for number in numbers {
        if !agrees_at(*number, set, a, b) {
            return false;
        }
    }
    true
}

/// Whether the values of a parameter agree, or needn't.
fn agrees_at(number: u8, set: ParamSet, a: &ParamValues, b: &ParamValues) -> bool
    requires { number < 16 }
    ensures { result ≡ agrees_at set a.now b.now number }
{
    !rests_on(set, number) || a.get(number) == b.get(number)
}

/// Whether entries of an emitter with this set rest on a parameter.
fn rests_on(set: ParamSet, number: u8) -> bool
    requires { number < 16 }
    ensures { result ≡ rests_on set number }
{
    number == 0 || number == 1 || number == 2 || (set.0 >> number) % 2 == 1
}
