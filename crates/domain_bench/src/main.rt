//! Times the operators of the integer domain: `domain_bench OPERATOR TURNS` applies the operator so often to
//! values of a signed 64-bit type, and prints a number that depends on all results.
#![tactic(auto)]

ghost use Rattle.int_interval.specs.Shapes.{IsShape};

use int_congr::Congr;
use int_interval::{Interval, Shape};
use int_value::{Made, Value};
use std::env;
use std::process::ExitCode;

const SIGNED: Shape = Shape {
    lo: -9223372036854775808,
    hi: 9223372036854775807,
    width: 64,
};

/// The multiples of `modulus` from `lo`, rounded up, to a million, rounded down.
fn operand(lo: u32, modulus: u32) -> Value {
    let range = Interval::Within {
        lo: i128::from(lo),
        hi: 1_000_000,
    };
    let congr = Congr {
        rem: 0,
        modulus: i128::from(modulus),
    };
    let value = Value {
        range,
        congr,
        unset: false,
    };
    value.reduce()
}

/// The operator of two operands with this name.
fn binary(name: &str, left: &Value, right: &Value, shape: &Shape) -> Option<Made>
    requires { IsShape shape.now }
{
    match name {
        "add" => Some(left.add(right, shape, true)),
        "sub" => Some(left.sub(right, shape, true)),
        "mul" => Some(left.mul(right, shape, true)),
        "div" => Some(left.div(right, shape, true)),
        "rem" => Some(left.rem(right, shape, true)),
        "shl" => Some(left.shl(right, shape, true)),
        "shr" => Some(left.shr(right, shape, true)),
        "and" => Some(left.and(right, shape, true)),
        "or" => Some(left.or(right, shape, true)),
        "xor" => Some(left.xor(right, shape, true)),
        _ => None,
    }
}

/// Another operator with this name, on the first operand and on the second.
fn other(name: &str, left: &Value, right: &Value, shape: &Shape) -> Option<Value>
    requires { IsShape shape.now }
{
    match name {
        "neg" => Some(left.neg(shape, true).value),
        "invert" => Some(left.invert(shape, true).value),
        "convert" => Some(left.convert(shape)),
        "to_bool" => Some(left.to_bool()),
        "join" => Some(left.join(right)),
        "meet" => Some(left.meet(&right.range)),
        "reduce" => Some(left.reduce()),
        _ => None,
    }
}

/// A number that tells results apart.
fn mark(value: &Value) -> u64 {
    match value.range {
        Interval::Empty => 1,
        Interval::Within { lo, hi } => u64::try_from(lo)
            .unwrap_or(3)
            .wrapping_add(u64::try_from(hi).unwrap_or(5)),
        Interval::All => 2,
    }
}

fn step(name: &str, turn: u32, shape: &Shape) -> Option<u64>
    requires { IsShape shape.now }
{
    let left = operand(turn % 1000, 2 + turn % 3);
    let right = operand(turn % 7, 2 + turn % 5);
    match binary(name, &left, &right, shape) {
        Some(made) => Some(mark(&made.value)),
        None => Some(mark(&other(name, &left, &right, shape)?)),
    }
}

fn run(name: &str, turns: u32) -> Option<u64> {
    let mut sum: u64 = 0;
    for turn in 0..turns {
        sum = sum.wrapping_add(step(name, turn, &SIGNED)?);
    }
    Some(sum)
}

fn main(rt: HostRuntime) -> ExitCode {
    let Ok(mut words) = env::args(&rt) else {
        return ExitCode::from(2);
    };
    let _program = words.next();
    let (Some(name), Some(turns)) = (words.next(), words.next()) else {
        return ExitCode::from(2);
    };
    let Ok(turns) = turns.parse::<u32>() else {
        return ExitCode::from(2);
    };
    let Some(sum) = run(name.as_str(), turns) else {
        return ExitCode::from(2);
    };
    match println!(&rt; "{sum}") {
        Ok(()) => ExitCode::SUCCESS,
        Err(_) => ExitCode::from(4),
    }
}
