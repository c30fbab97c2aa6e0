//! The type ranges of expressions, and the checks that they leave open.

ghost use Rattle.std.specs.Prelude.{◌≡◌, ◌++◌, true, IfOk};
ghost use Rattle.machine_ints.specs.Decided.{IsOrdered};
ghost use Rattle.machine_ints.specs.Operators as operators;
ghost use Rattle.machine_ints.specs.inner.Decided.{ends_pass, unary_ends_fit};
ghost use Rattle.c_ir.specs.Sited.{alarm_number};
ghost use Rattle.c_ir.specs.Types as types;
ghost use Rattle.c_runs.specs.Evaluation as evaluation;
ghost use Rattle.rte_alarms.specs.Ranges as spec;
ghost use Rattle.rte_alarms.specs.inner.Opened.{open_of, open_of_all, open_element, open_of_any, open_of_init, open_stmt, open_stmts};

use by_key::Keyed;
use c_ir::{AlarmKind, Expr, Exprs, Init, IntType, Node, Program, Stmt};
use fc_base::{BinaryOp, SiteId, UnaryOp};
use machine_ints::{Check, Ends, Operator, UnaryOperator, always_passes, unary_always_passes};
use sqlite_items::{Boxed, Items};
use std::alloc::{AllocError, Global};

/// The open checks of a program: each operator's number is the key, the check's number stands by it.
pub(crate) fn open_checks(alloc: Global, program: &Program) -> Result<Items<Keyed>, AllocError>
    ensures { IfOk result (λ ms. ms ≡ spec.open_checks program.now) }
{
    let mut found = Items::new(alloc);
    for f in program.fns.as_slice() {
        if let Some(body) = &f.body {
            add_stmts(&mut found, body.as_slice())?;
        }
    }
    Ok(found)
}

#[cycle(stmts)]
fn add_stmts(found: &mut Items<Keyed>, all: &[Stmt]) -> Result<(), AllocError>
    ensures { IfOk result (λ _. found.new ≡ found.old ++ open_stmts all.now) }
{
    for s in all {
        add_stmt(found, s)?;
    }
    Ok(())
}

#[cycle(stmts)]
fn add_stmt(found: &mut Items<Keyed>, s: &Stmt) -> Result<(), AllocError>
    ensures { IfOk result (λ _. found.new ≡ found.old ++ open_stmt s.now) }
{
    match s {
        Stmt::Declare { value, .. } => add_init(found, value),
        Stmt::Expression { expr, .. } => add(found, expr),
        Stmt::If { cond, yes, no, .. } => {
            add(found, cond)?;
            add_stmts(found, yes.as_slice())?;
            add_stmts(found, no.as_slice())
        }
        Stmt::While { cond, body, .. } => {
            add(found, cond)?;
            add_stmts(found, body.as_slice())
        }
        Stmt::DoWhile { body, cond, .. } => {
            add(found, cond)?;
            add_stmts(found, body.as_slice())
        }
        Stmt::For {
            first,
            cond,
            body,
            update,
            ..
        } => {
            add_if(found, cond)?;
            add_stmts(found, first.as_slice())?;
            add_stmts(found, body.as_slice())?;
            add_stmts(found, update.as_slice())
        }
        Stmt::Return { value, .. } => add_if(found, value),
        Stmt::Block { stmts } => add_stmts(found, stmts.as_slice()),
        Stmt::Break { .. }
        | Stmt::Continue { .. }
        | Stmt::Empty { .. }
        | Stmt::Note { .. }
        | Stmt::Clause { .. } => Ok(()),
    }
}

fn add_init(found: &mut Items<Keyed>, value: &Init) -> Result<(), AllocError>
    ensures { IfOk result (λ _. found.new ≡ found.old ++ open_of_init value.now) }
{
    match value {
        Init::Nothing => Ok(()),
        Init::One(e) => add(found, e),
        Init::Many(all) => add_all(found, all.as_slice()),
    }
}

fn add_if(found: &mut Items<Keyed>, e: &Option<Expr>) -> Result<(), AllocError>
    ensures { IfOk result (λ _. found.new ≡ found.old ++ open_of_any e.now) }
{
    match e {
        None => Ok(()),
        Some(e) => add(found, e),
    }
}

/// The open checks of an expression, in order of evaluation.
#[cycle(exprs)]
fn add(found: &mut Items<Keyed>, e: &Expr) -> Result<(), AllocError>
    ensures { IfOk result (λ _. found.new ≡ found.old ++ open_of e.now) }
{
    match &e.node {
        Node::Literal { .. } => Ok(()),
        Node::Cell { checked, .. } => add_read(found, e.site, *checked),
        Node::Element { index, .. } => {
            add(found, index.get())?;
            add_element(found, e.site, &e.node, &range_of(index.get()))
        }
        Node::Call { args, .. } => add_all(found, args.as_slice()),
        Node::Unary { op, of } => {
            add(found, of.get())?;
            add_unary(found, e.site, e.ty, *op, &range_of(of.get()))
        }
        Node::Binary { op, left, right } => {
            add(found, left.get())?;
            add(found, right.get())?;
            let (left, right) = (range_of(left.get()), range_of(right.get()));
            add_binary(found, e.site, e.ty, *op, left, right)
        }
        Node::Assign { to, value } => {
            add(found, to.get())?;
            add(found, value.get())
        }
        Node::Cond { cond, yes, no } => {
            add(found, cond.get())?;
            add(found, yes.get())?;
            add(found, no.get())
        }
        Node::Cast { of } => add(found, of.get()),
    }
}

#[cycle(exprs)]
fn add_all(found: &mut Items<Keyed>, all: &[Expr]) -> Result<(), AllocError>
    ensures { IfOk result (λ _. found.new ≡ found.old ++ open_of_all all.now) }
{
    for e in all {
        add(found, e)?;
    }
    Ok(())
}

/// The range of an expression.
fn range_of(e: &Expr) -> Ends
    ensures value { result ≡ (spec.ranged e.now).ends }
    ensures ordered { IsOrdered result }
{
    match &e.node {
        Node::Literal { value } => Ends {
            lo: *value,
            hi: *value,
        },
        Node::Cast { of } => converted_ends(e.ty, &range_of(of.get())),
        Node::Cell { .. }
        | Node::Element { .. }
        | Node::Call { .. }
        | Node::Unary { .. }
        | Node::Binary { .. }
        | Node::Assign { .. }
        | Node::Cond { .. } => type_ends(e.ty),
    }
}

/// The range of a type.
fn type_ends(ty: IntType) -> Ends
    ensures value { result ≡ spec.type_ends ty }
    ensures ordered { IsOrdered result }
{
    Ends {
        lo: ty.least(),
        hi: ty.greatest() as i128,
    }
}

fn is_inside(a: &Ends, b: &Ends) -> bool
    ensures { result ≡ spec.is_inside a.now b.now }
{
    b.lo <= a.lo && a.hi <= b.hi
}

/// The range of a conversion to this type.
fn converted_ends(ty: IntType, range: &Ends) -> Ends
    requires { IsOrdered range.now }
    ensures value { result ≡ spec.converted_ends ty range.now }
    ensures ordered { IsOrdered result }
{
    let whole = type_ends(ty);
    if is_inside(range, &whole) {
        *range
    } else {
        whole
    }
}

/// A number for each check.
pub(crate) fn number_of(alarm: AlarmKind) -> u32
    ensures { result ≡ alarm_number alarm }
{
    match alarm {
        AlarmKind::DivisionByZero => 0,
        AlarmKind::SignedOverflow => 1,
        AlarmKind::Shift => 2,
        AlarmKind::IndexBound => 3,
        AlarmKind::Initialization => 4,
    }
}

/// Notes a check as open, unless it is decided.
fn add_unless(
    found: &mut Items<Keyed>,
    decided: bool,
    site: Option<SiteId>,
    kind: AlarmKind,
) -> Result<(), AllocError>
    ensures { IfOk result (λ _. found.new ≡ found.old ++ spec.open_if decided site kind) }
{
    if decided {
        return Ok(());
    }
    match site {
        None => Ok(()),
        Some(SiteId(site)) => found.push(Keyed {
            key: site,
            number: number_of(kind),
        }),
    }
}

fn add_read(found: &mut Items<Keyed>, site: Option<SiteId>, checked: bool) -> Result<(), AllocError>
    ensures { IfOk result (λ _. found.new ≡ found.old ++ spec.open_read site checked) }
{
    add_unless(found, !checked, site, AlarmKind::Initialization)
}

fn add_index(
    found: &mut Items<Keyed>,
    site: Option<SiteId>,
    length: u32,
    range: &Ends,
) -> Result<(), AllocError>
    ensures { IfOk result (λ _. found.new ≡ found.old ++ spec.open_index site length range.now) }
{
    let places = Ends {
        lo: 0,
        hi: i128::from(length) - 1,
    };
    add_unless(
        found,
        is_inside(range, &places),
        site,
        AlarmKind::IndexBound,
    )
}

/// The own checks of an element, where its index has this range.
fn add_element(
    found: &mut Items<Keyed>,
    site: Option<SiteId>,
    node: &Node<Boxed<Expr>, Exprs>,
    range: &Ends,
) -> Result<(), AllocError>
    ensures { IfOk result (λ _. found.new ≡ found.old ++ open_element site node.now range.now) }
{
    match node {
        Node::Element {
            length,
            checked,
            ..
        } => {
            add_index(found, site, *length, range)?;
            add_read(found, site, *checked)
        }
        _ => Ok(()),
    }
}

// ---- operators with one operand

/// Whether no operand of this range leaves the type.
fn negations_fit(ty: IntType, range: &Ends) -> bool
    requires { IsOrdered range.now }
    ensures { result ≡ unary_ends_fit UnaryOperator.Negate (spec.type_ends ty) range.now }
{
    unary_always_passes(UnaryOperator::Negate, &type_ends(ty), ty.width(), range)
}

fn negation_decided(ty: IntType, range: &Ends) -> bool
    requires { IsOrdered range.now }
    ensures { result ≡ spec.range_decides ty UnaryOperator.Negate range.now Check.Overflow }
{
    !is_visited(ty, Check::Overflow) || negations_fit(ty, range)
}

fn add_unary(
    found: &mut Items<Keyed>,
    site: Option<SiteId>,
    ty: IntType,
    op: UnaryOp,
    range: &Ends,
) -> Result<(), AllocError>
    requires { IsOrdered range.now }
    ensures { IfOk result (λ _. found.new ≡ found.old ++ spec.open_unary site ty op range.now) }
{
    match op {
        UnaryOp::Plus | UnaryOp::Not | UnaryOp::Invert => Ok(()),
        UnaryOp::Minus => {
            let decided = negation_decided(ty, range);
            add_unless(found, decided, site, AlarmKind::SignedOverflow)
        }
    }
}

// ---- operators with two operands

/// What an operator with two operands works on.
#[derive(Clone, Copy)]
struct Operation {
    site: Option<SiteId>,
    ty: IntType,
    left: Ends,
    right: Ends,
}

/// Whether all operands of these ranges pass the check.
fn all_pass(on: &Operation, operator: Operator, test: Check) -> bool
    requires left { IsOrdered on.now.left }
    requires right { IsOrdered on.now.right }
    ensures { result ≡ ends_pass test operator (spec.type_ends on.now.ty) (types.width on.now.ty) on.now.left on.now.right }
{
    let ty = on.ty;
    always_passes(
        test,
        operator,
        &type_ends(ty),
        ty.width(),
        &on.left,
        &on.right,
    )
}

fn is_decided(on: &Operation, operator: Operator, test: Check) -> bool
    requires left { IsOrdered on.now.left }
    requires right { IsOrdered on.now.right }
    ensures { result ≡ spec.ranges_decide on.now.ty operator on.now.left on.now.right test }
{
    !is_visited(on.ty, test) || all_pass(on, operator, test)
}

fn add_test(
    found: &mut Items<Keyed>,
    on: &Operation,
    operator: Operator,
    test: Option<Check>,
) -> Result<(), AllocError>
    requires left { IsOrdered on.now.left }
    requires right { IsOrdered on.now.right }
    ensures { IfOk result (λ _. found.new ≡ found.old ++ spec.open_test on.now.site on.now.ty operator on.now.left on.now.right test) }
{
    match test {
        None => Ok(()),
        Some(test) => {
            let decided = is_decided(on, operator, test);
            add_unless(found, decided, on.site, alarm_of(test))
        }
    }
}

fn add_binary(
    found: &mut Items<Keyed>,
    site: Option<SiteId>,
    ty: IntType,
    op: BinaryOp,
    left: Ends,
    right: Ends,
) -> Result<(), AllocError>
    requires left { IsOrdered left }
    requires right { IsOrdered right }
    ensures { IfOk result (λ _. found.new ≡ found.old ++ spec.open_operator site ty left right (evaluation.operator_of op)) }
{
    let on = Operation {
        site,
        ty,
        left,
        right,
    };
    add_operator(found, &on, operator_of(op))
}

fn add_operator(
    found: &mut Items<Keyed>,
    on: &Operation,
    operator: Option<Operator>,
) -> Result<(), AllocError>
    requires left { IsOrdered on.now.left }
    requires right { IsOrdered on.now.right }
    ensures { IfOk result (λ _. found.new ≡ found.old ++ spec.open_operator on.now.site on.now.ty on.now.left on.now.right operator) }
{
    match operator {
        None => Ok(()),
        Some(operator) => {
            add_test(found, on, operator, first_check(operator))?;
            add_test(found, on, operator, second_check(operator))
        }
    }
}

/// Overflow is a check in signed types alone.
#[tactic(auto, using(crate::proofs::Tests::signed_is))]
fn is_visited(ty: IntType, test: Check) -> bool
    ensures { result ≡ operators.is_visited (types.least ty) true test }
{
    match test {
        Check::Overflow => ty.is_signed(),
        Check::Division | Check::Shift => true,
    }
}

fn alarm_of(test: Check) -> AlarmKind
    ensures { result ≡ evaluation.alarm_of test }
{
    match test {
        Check::Division => AlarmKind::DivisionByZero,
        Check::Overflow => AlarmKind::SignedOverflow,
        Check::Shift => AlarmKind::Shift,
    }
}

fn first_check(operator: Operator) -> Option<Check>
    ensures { result ≡ operators.first_check operator }
{
    match operator {
        Operator::Add | Operator::Sub | Operator::Mul => Some(Check::Overflow),
        Operator::Div | Operator::Rem => Some(Check::Division),
        Operator::Shl | Operator::Shr => Some(Check::Shift),
        Operator::And | Operator::Or | Operator::Xor => None,
    }
}

fn second_check(operator: Operator) -> Option<Check>
    ensures { result ≡ operators.second_check operator }
{
    match operator {
        Operator::Div | Operator::Rem | Operator::Shl => Some(Check::Overflow),
        Operator::Add
        | Operator::Sub
        | Operator::Mul
        | Operator::Shr
        | Operator::And
        | Operator::Or
        | Operator::Xor => None,
    }
}

fn operator_of(op: BinaryOp) -> Option<Operator>
    ensures { result ≡ evaluation.operator_of op }
{
    match op {
        BinaryOp::Or => Some(Operator::Or),
        BinaryOp::Xor => Some(Operator::Xor),
        BinaryOp::And => Some(Operator::And),
        BinaryOp::Shl => Some(Operator::Shl),
        BinaryOp::Shr => Some(Operator::Shr),
        BinaryOp::Add => Some(Operator::Add),
        BinaryOp::Sub => Some(Operator::Sub),
        BinaryOp::Mul => Some(Operator::Mul),
        BinaryOp::Div => Some(Operator::Div),
        BinaryOp::Rem => Some(Operator::Rem),
        BinaryOp::LogicOr
        | BinaryOp::LogicAnd
        | BinaryOp::Equal
        | BinaryOp::NotEqual
        | BinaryOp::Less
        | BinaryOp::Greater
        | BinaryOp::LessEq
        | BinaryOp::GreaterEq => None,
    }
}
