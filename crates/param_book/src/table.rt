//! The parameters: their numbers, names, ranges and values at the opening (this project's own).
//!
//! | number | name | values | at the opening |
//! |---|---|---|---|
//! | 0 | `main`, the entry function's number | a defined function | the function `main`, unless another is named |
//! | 1 | `lib_entry` | 0, 1 | 0, or 1 if it is asked for |
//! | 2 | `signed_overflow` | 0, 1 | 1 |
//! | 3 | `eva_assume` | 0, 1 | 1 |
//! | 4 | `eva_unroll` | 0 to 64 | 0 |
//! | 8 to 15 | `x0` to `x7` | 0 to 1,000,000,000 | 0 |

ghost use Rattle.std.specs.Prelude.{◌≡◌, ◌<◌, false, slice_index_or};
ghost use Rattle.param_book.specs.Table.{number_of, fits_param, is_function, opening_values, run_params};

use fc_base::ParamValues;

/// The number that stands for no parameter.
pub const NO_PARAM: u8 = 7;

/// The number of `main`, whose value is the number of the entry function.
pub const ENTRY_FUNCTION: u8 = 0;

/// The number of `signed_overflow`, whose value is 0 where signed overflow isn't checked.
pub const SIGNED_OVERFLOW: u8 = 2;

/// The number of the parameter with this name; 7, which is no parameter's number, exactly where none has it.
#[tactic(auto, unfolding(crate::specs::Table::number_of))]
pub fn number(name: &str) -> u8
    ensures { result ≡ number_of name.now }
{
    match name {
        "main" => 0,
        "lib_entry" => 1,
        "signed_overflow" => 2,
        "eva_assume" => 3,
        "eva_unroll" => 4,
        "x0" => 8,
        "x1" => 9,
        "x2" => 10,
        "x3" => 11,
        "x4" => 12,
        "x5" => 13,
        "x6" => 14,
        "x7" => 15,
        _ => NO_PARAM,
    }
}

/// Whether a parameter has this number, and this value is in its range; `defined` says of each function, by its
/// number, whether it is defined.
#[tactic(auto, unfolding(crate::specs::Table::fits_param))]
pub fn fits(defined: &[bool], number: u8, value: i64) -> bool
    ensures { result ≡ fits_param defined.now number value }
{
    match number {
        0 => is_function(defined, value),
        1 | 2 | 3 => 0 <= value && value <= 1,
        4 => 0 <= value && value <= 64,
        8 | 9 | 10 | 11 | 12 | 13 | 14 | 15 => 0 <= value && value <= 1_000_000_000,
        _ => false,
    }
}

/// Whether a number is that of a defined function.
fn is_function(defined: &[bool], number: i64) -> bool
    ensures { result ≡ is_function defined.now number }
{
    match u64::try_from(number) {
        Ok(place) => is_set(defined, place),
        Err(_) => false,
    }
}

/// The flag with this number; false, where there is none.
fn is_set(flags: &[bool], place: u64) -> bool
    ensures { result ≡ slice_index_or flags.now place false }
{
    match flags.get(place as usize) {
        Some(flag) => *flag,
        None => false,
    }
}

/// The values at the opening, for the number of the entry function and the flag `lib_entry`.
pub fn opening(main: u32, lib_entry: bool) -> ParamValues
    ensures { result.values ≡ opening_values main lib_entry }
{
    let mut values = [0; 16];
    values[0] = i64::from(main);
    values[1] = i64::from(lib_entry);
    values[2] = 1;
    values[3] = 1;
    ParamValues { values }
}

/// The numbers of the parameters that a program's runs depend on.
pub fn run_params() -> [u8; 3]
    ensures { result ≡ run_params }
{
    [0, 1, 2]
}
