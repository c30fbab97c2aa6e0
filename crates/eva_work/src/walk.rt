//! A walk through the statements of a program, and of the functions that they call.

ghost use Rattle.std.specs.Prelude.{◌≡◌, slice_get};
ghost use Rattle.c_ir.specs.Calls.{calls_of, calls_of_all, calls_if, calls_of_init};
ghost use Rattle.eva_work.specs.Work.{bodies_of, work_of_function, work_of_stmt, work_of_stmts};
ghost use Rattle.eva_work.specs.inner.Counting.{Noted, capped, whole};

use crate::counts::{looped, sum};
use crate::known::{note, noted};
use c_ir::{Expr, Init, Node, Program, Stmt};

/// A function, by its number.
#[cycle(counting)]
pub(crate) fn function(program: &Program, unroll: u64, known: &mut [u64], number: usize) -> u64
    requires { Noted program.now unroll known.old }
    ensures count { result ≡ capped (whole program.now unroll number) }
    ensures known { Noted program.now unroll known.new }
{
    match noted(known, number) {
        Some(count) => count,
        None => {
            program.keeps();
            let count = body(program, unroll, known, number);
            note(known, number, count);
            count
        }
    }
}

/// The body of a function; 0 if there is none.
#[cycle(counting)]
fn body(program: &Program, unroll: u64, known: &mut [u64], number: usize) -> u64
    requires { Noted program.now unroll known.old }
    ensures count { result ≡
        capped (work_of_function unroll (whole program.now unroll) (slice_get program.now.fns number)) }
    ensures known { Noted program.now unroll known.new }
{
    match program.fns.as_slice().get(number) {
        None => 0,
        Some(f) => match &f.body {
            None => 0,
            Some(all) => stmts(program, unroll, known, all.as_slice()),
        },
    }
}

/// Statements.
#[cycle(counting)]
fn stmts(program: &Program, unroll: u64, known: &mut [u64], all: &[Stmt]) -> u64
    requires { Noted program.now unroll known.old }
    ensures count { result ≡ capped (work_of_stmts unroll (whole program.now unroll) all.now) }
    ensures known { Noted program.now unroll known.new }
{
    let mut total = 0;
    for s in all {
        total = sum(total, stmt(program, unroll, known, s));
    }
    total
}

#[cycle(counting)]
fn stmt(program: &Program, unroll: u64, known: &mut [u64], s: &Stmt) -> u64
    requires { Noted program.now unroll known.old }
    ensures count { result ≡ capped (work_of_stmt unroll (whole program.now unroll) s.now) }
    ensures known { Noted program.now unroll known.new }
{
    match s {
        Stmt::Declare { value, .. } => sum(1, init_bodies(program, unroll, known, value)),
        Stmt::Expression { expr, .. } => sum(1, bodies(program, unroll, known, expr)),
        Stmt::If { yes, no, .. } => {
            let taken = stmts(program, unroll, known, yes.as_slice());
            let other = stmts(program, unroll, known, no.as_slice());
            sum(1, sum(taken, other))
        }
        Stmt::While { body, .. } | Stmt::DoWhile { body, .. } => {
            looped(unroll, stmts(program, unroll, known, body.as_slice()))
        }
        Stmt::For {
            first,
            body,
            update,
            ..
        } => {
            let head = stmts(program, unroll, known, first.as_slice());
            let inner = stmts(program, unroll, known, body.as_slice());
            let last = stmts(program, unroll, known, update.as_slice());
            sum(head, looped(unroll, sum(inner, last)))
        }
        Stmt::Return { value, .. } => sum(1, bodies_if(program, unroll, known, value)),
        Stmt::Block { stmts: all } => stmts(program, unroll, known, all.as_slice()),
        Stmt::Note { .. } => 0,
        Stmt::Break { .. } | Stmt::Continue { .. } | Stmt::Empty { .. } | Stmt::Clause { .. } => 1,
    }
}

/// The bodies that an initialiser calls.
#[cycle(counting)]
fn init_bodies(program: &Program, unroll: u64, known: &mut [u64], value: &Init) -> u64
    requires { Noted program.now unroll known.old }
    ensures count { result ≡ capped (bodies_of (whole program.now unroll) (calls_of_init value.now)) }
    ensures known { Noted program.now unroll known.new }
{
    match value {
        Init::Nothing => 0,
        Init::One(e) => bodies(program, unroll, known, e),
        Init::Many(all) => all_bodies(program, unroll, known, all.as_slice()),
    }
}

/// The bodies that the value of a `return` calls.
#[cycle(counting)]
fn bodies_if(program: &Program, unroll: u64, known: &mut [u64], value: &Option<Expr>) -> u64
    requires { Noted program.now unroll known.old }
    ensures count { result ≡ capped (bodies_of (whole program.now unroll) (calls_if value.now)) }
    ensures known { Noted program.now unroll known.new }
{
    match value {
        None => 0,
        Some(e) => bodies(program, unroll, known, e),
    }
}

/// The bodies that expressions call.
#[cycle(counting)]
fn all_bodies(program: &Program, unroll: u64, known: &mut [u64], all: &[Expr]) -> u64
    requires { Noted program.now unroll known.old }
    ensures count { result ≡ capped (bodies_of (whole program.now unroll) (calls_of_all all.now)) }
    ensures known { Noted program.now unroll known.new }
{
    let mut total = 0;
    for e in all {
        total = sum(total, bodies(program, unroll, known, e));
    }
    total
}

/// The bodies that an expression calls.
#[cycle(counting)]
fn bodies(program: &Program, unroll: u64, known: &mut [u64], e: &Expr) -> u64
    requires { Noted program.now unroll known.old }
    ensures count { result ≡ capped (bodies_of (whole program.now unroll) (calls_of e.now)) }
    ensures known { Noted program.now unroll known.new }
{
    match &e.node {
        Node::Literal { .. } | Node::Cell { .. } => 0,
        Node::Element { index, .. } => bodies(program, unroll, known, index.get()),
        Node::Call { function: f, args } => {
            let before = all_bodies(program, unroll, known, args.as_slice());
            sum(before, function(program, unroll, known, f.0 as usize))
        }
        Node::Unary { of, .. } | Node::Cast { of } => bodies(program, unroll, known, of.get()),
        Node::Binary { left, right, .. } => {
            let first = bodies(program, unroll, known, left.get());
            sum(first, bodies(program, unroll, known, right.get()))
        }
        Node::Assign { to, value } => {
            let first = bodies(program, unroll, known, to.get());
            sum(first, bodies(program, unroll, known, value.get()))
        }
        Node::Cond { cond, yes, no } => {
            let first = bodies(program, unroll, known, cond.get());
            let second = bodies(program, unroll, known, yes.get());
            sum(first, sum(second, bodies(program, unroll, known, no.get())))
        }
    }
}
