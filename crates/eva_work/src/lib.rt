//! How much work the analysis of a program is: a bound, counted before the analysis begins.
#![tactic(auto)]

ghost use Rattle.std.specs.Prelude.{◌≡◌, replicate};
ghost use Rattle.param_book.specs.Table.{entry_function};
ghost use Rattle.c_runs.specs.Programs.{entry_number};
ghost use Rattle.eva_rules.specs.Entries.{unrolls};
ghost use Rattle.eva_work.specs.Work.{counted_work};

mod counts;
mod known;
mod walk;

use c_ir::Program;
use fc_base::ParamValues;
use param_book::ENTRY_FUNCTION;

/// The number of the parameter `eva_unroll`.
const UNROLL: u8 = 4;

/// The number of functions whose counts are kept.
const PLACES: usize = 32768;

/// The number of the entry function; a value below 0 is no function's.
fn entry(program: &Program, params: &ParamValues) -> usize
    ensures { result ≡ entry_number program.now (entry_function params.now.values) }
{
    match usize::try_from(params.get(ENTRY_FUNCTION)) {
        Ok(number) => number,
        Err(_) => program.fns.len(),
    }
}

/// How many turns of loops are made one by one.
fn unrolled(params: &ParamValues) -> u64
    ensures { result ≡ unrolls params.now.values }
{
    params.get(UNROLL).unsigned_abs()
}

/// How much work the analysis of a program is, under these values of the parameters: a count of the
/// statements that it may go through from the entry function on. Each simple statement, clause and
/// declarator counts 1, and with each call in it the body of the function again; an `if` counts 1 and
/// both branches; a loop counts 1 and its turns, each of them 1 and the body, and there are 15 of them and
/// as many as `eva_unroll` says. Where the entry function's number is no function's, the work is 0. A
/// count over 2^62 stands as 2^62.
///
/// It takes no memory. Each body is gone through once, but for those of functions with numbers over 32767,
/// which are gone through at each call. It recurses as deep as the trees and the chain of calls.
pub fn work(program: &Program, params: &ParamValues) -> u64
    ensures { result ≡ counted_work program.now params.now.values }
{
    let mut known = [0u64; PLACES];
    counted(program, params, &mut known)
}

/// The count, with places for functions.
fn counted(program: &Program, params: &ParamValues, known: &mut [u64]) -> u64
    requires { known.old ≡ replicate 32768 0 }
    ensures { result ≡ counted_work program.now params.now.values }
{
    walk::function(program, unrolled(params), known, entry(program, params))
}
