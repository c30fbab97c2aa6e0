//! What an analysis is under.

ghost use Rattle.std.specs.Prelude.{◌≡◌};
ghost use Rattle.std.specs.Option.{option_map};
ghost use Rattle.c_ir.specs.Table as table;
ghost use Rattle.c_ir.specs.Table.{kind_admitted};
ghost use Rattle.c_runs.specs.Programs as programs;
ghost use Rattle.c_runs.specs.Statements as runs;
ghost use Rattle.eva_rules.specs.Entries as entries;
ghost use Rattle.param_book.specs.Table as book;

use crate::numbers::Numbers;
use c_ir::{Fun, Kind, PointClause, Program};
use fc_base::ParamValues;
use param_book::ENTRY_FUNCTION;

/// The number of the parameter `eva_assume`.
const EVA_ASSUME: u8 = 3;

/// The number of the parameter `eva_unroll`.
const EVA_UNROLL: u8 = 4;

/// The program, the numbers of its properties, and the values of the parameters.
#[derive(Clone, Copy)]
pub(crate) struct Setting<'a> {
    pub(crate) program: &'a Program,
    pub(crate) numbers: &'a Numbers,
    pub(crate) params: &'a ParamValues,
}

/// Whether the analysis goes on with what may be false as if it were true.
pub(crate) fn assumes(params: &ParamValues) -> bool
    ensures { result ≡ entries.assumes params.now.values }
{
    params.get(EVA_ASSUME) != 0
}

/// How many turns of a loop are made one by one.
pub(crate) fn unrolls(params: &ParamValues) -> u64
    ensures { result ≡ entries.unrolls params.now.values }
{
    params.get(EVA_UNROLL).unsigned_abs()
}

/// The number of the entry function; a value below 0 is no function's.
pub(crate) fn entry_number(program: &Program, params: &ParamValues) -> usize
    ensures { result ≡ programs.entry_number program.now (book.entry_function params.now.values) }
{
    let entry = params.get(ENTRY_FUNCTION);
    if entry < 0 {
        program.fns.len()
    } else {
        entry as usize
    }
}

/// The clauses at a point.
pub(crate) fn clauses_at(program: &Program, point: u32) -> &[PointClause]
    ensures { result.now ≡ runs.clauses_at program.now point }
{
    match program.points.get(point as usize) {
        None => &[],
        Some(info) => info.clauses.as_slice(),
    }
}

/// The function of a point.
fn owner_at(program: &Program, point: u32) -> u32
    ensures { result ≡ runs.owner_at program.now point }
{
    match program.points.get(point as usize) {
        None => 0,
        Some(info) => info.owner.0,
    }
}

/// Whether the function with this number is defined.
#[tactic(auto, using(crate::proofs::Leaves::defined_none, crate::proofs::Leaves::defined_some))]
fn is_defined(program: &Program, function: u32) -> bool
    ensures { result ≡ table.is_defined (runs.functions_of program.now) function }
{
    match program.fns.get(function as usize) {
        None => false,
        Some(f) => f.body.is_some(),
    }
}

/// Whether a clause of this kind at this point is admitted.
pub(crate) fn is_admitted(program: &Program, params: &ParamValues, point: u32, kind: Kind) -> bool
    ensures { result ≡ kind_admitted (runs.functions_of program.now) (book.entry_function params.now.values)
        (runs.owner_at program.now point) kind }
{
    match kind {
        Kind::Admit => true,
        Kind::Ensures => !is_defined(program, owner_at(program, point)),
        Kind::Requires => { i64::from(owner_at(program, point)) == params.get(ENTRY_FUNCTION) }
        Kind::CallRequires
        | Kind::Assert
        | Kind::Check
        | Kind::LoopInvariant
        | Kind::Alarm(_)
        | Kind::Dead => false,
    }
}

/// The clauses at the entry of a function.
pub(crate) fn entry_clauses<'a>(program: &'a Program, function: Option<&Fun>) -> &'a [PointClause]
    ensures { result.now ≡ runs.entry_clauses program.now (option_map (λ f. f.now) function.entry) }
{
    match function {
        None => &[],
        Some(f) => clauses_at(program, f.entry.0),
    }
}
