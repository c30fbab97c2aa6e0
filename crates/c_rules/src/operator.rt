//! Conversions and operators (C11 6.3, 6.5).

ghost use Rattle.std.specs.Prelude.{◌≡◌, ◌+◌, ◌<◌, ◌≤◌, ◌^◌, true, false, Some, IfOk, List, length};
ghost use Rattle.c_ir.specs.Formed.{Layout, form};
ghost use Rattle.c_ir.specs.Sited.{Extends, at_sites};
ghost use Rattle.c_ir.specs.Numbers.{count, own_site, sites, both};
ghost use Rattle.c_ir.specs.Trees.{site_of};
ghost use Rattle.c_ir.specs.declared.tree.SiteInfo.{SiteInfo as Info};
ghost use Rattle.fc_base.specs.declared.ids.PointId.{PointId as Point};
ghost use Rattle.c_rules.specs.Breaches.{is_dropped};
ghost use Rattle.c_rules.specs.Fits.{is_target};
ghost use Rattle.c_ir.specs.Placed.{is_formed};
ghost use Rattle.c_rules.specs.Typing as spec;
ghost use Rattle.c_rules.specs.Typing.{Types};
ghost use Rattle.c_ir.specs.declared.place.Place.{Place};
ghost use Rattle.c_ir.specs.declared.place.Place.TheVariants.{Inner, Value};

use crate::found::Found;
use c_ir::{Expr, IntType, Node, binary_checks, unary_checks};
use fc_base::{BinaryOp, PointId, UnaryOp};
use sqlite_items::Boxed;
use std::alloc::{AllocError, Global};

/// The expression as a number of this type (C11 6.3.1).
pub fn converted(alloc: Global, ty: IntType, expr: Expr) -> Result<Expr, AllocError>
    ensures value { IfOk result (λ e. e ≡ spec.converted ty expr) }
    ensures numbered { IfOk result (λ e. sites e ≡ sites expr) }
    ensures formed { IfOk result (λ e. (l : Layout) (place : Place) → is_dropped place ≡ false → is_formed l place expr ≡ true → is_formed l place e ≡ true) }
    ensures typed { IfOk result (λ e. (l : Layout) → (form l e).ty ≡ ty) }
    ensures sited { IfOk result (λ e. (infos : List Info) (point : Point) → at_sites infos point expr ≡ true → at_sites infos point e ≡ true) }
{
    if ty.is(expr.ty) {
        return Ok(expr);
    }
    cast(alloc, ty, expr)
}

/// `(ty) expr` (C11 6.5.4).
#[tactic(auto, unfolding(crate::specs::Typing::cast), using(crate::proofs::Sited::cast_sited, crate::proofs::Formed::cast_formed, crate::proofs::Formed::cast_kept, crate::proofs::Formed::cast_form_ty))]
pub fn cast(alloc: Global, ty: IntType, expr: Expr) -> Result<Expr, AllocError>
    ensures value { IfOk result (λ e. e ≡ spec.cast ty expr) }
    ensures numbered { IfOk result (λ e. sites e ≡ sites expr) }
    ensures formed { IfOk result (λ e. (l : Layout) (place : Place) → is_formed l Inner expr ≡ true → is_formed l place e ≡ true) }
    ensures kept { IfOk result (λ e. (l : Layout) (place : Place) → is_dropped place ≡ false → is_formed l place expr ≡ true → is_formed l place e ≡ true) }
    ensures typed { IfOk result (λ e. (l : Layout) → (form l e).ty ≡ ty) }
    ensures sited { IfOk result (λ e. (infos : List Info) (point : Point) → at_sites infos point expr ≡ true → at_sites infos point e ≡ true) }
{
    Ok(Expr {
        ty,
        site: None,
        node: Node::Cast {
            of: Boxed::new(alloc, expr)?,
        },
    })
}

fn common_type(left: IntType, right: IntType) -> IntType
    ensures { result ≡ spec.common_type left right }
{
    left.promoted().common(right.promoted())
}

#[tactic(auto, unfolding(crate::specs::Typing::left_operand))]
fn left_operand(op: BinaryOp, left: IntType, right: IntType) -> IntType
    ensures { result ≡ spec.left_operand op left right }
{
    match op {
        BinaryOp::LogicOr | BinaryOp::LogicAnd => left,
        BinaryOp::Shl | BinaryOp::Shr => left.promoted(),
        BinaryOp::Or | BinaryOp::Xor | BinaryOp::And => common_type(left, right),
        BinaryOp::Equal | BinaryOp::NotEqual => common_type(left, right),
        BinaryOp::Less | BinaryOp::Greater => common_type(left, right),
        BinaryOp::LessEq | BinaryOp::GreaterEq => common_type(left, right),
        BinaryOp::Add | BinaryOp::Sub => common_type(left, right),
        BinaryOp::Mul | BinaryOp::Div | BinaryOp::Rem => common_type(left, right),
    }
}

#[tactic(auto, unfolding(crate::specs::Typing::right_operand))]
fn right_operand(op: BinaryOp, left: IntType, right: IntType) -> IntType
    ensures { result ≡ spec.right_operand op left right }
{
    match op {
        BinaryOp::LogicOr | BinaryOp::LogicAnd => right,
        BinaryOp::Shl | BinaryOp::Shr => right.promoted(),
        BinaryOp::Or | BinaryOp::Xor | BinaryOp::And => common_type(left, right),
        BinaryOp::Equal | BinaryOp::NotEqual => common_type(left, right),
        BinaryOp::Less | BinaryOp::Greater => common_type(left, right),
        BinaryOp::LessEq | BinaryOp::GreaterEq => common_type(left, right),
        BinaryOp::Add | BinaryOp::Sub => common_type(left, right),
        BinaryOp::Mul | BinaryOp::Div | BinaryOp::Rem => common_type(left, right),
    }
}

#[tactic(auto, unfolding(crate::specs::Typing::binary_type))]
fn binary_type(op: BinaryOp, ty: IntType) -> IntType
    ensures { result ≡ spec.binary_type op ty }
{
    match op {
        BinaryOp::LogicOr | BinaryOp::LogicAnd => IntType::Int,
        BinaryOp::Equal | BinaryOp::NotEqual => IntType::Int,
        BinaryOp::Less | BinaryOp::Greater => IntType::Int,
        BinaryOp::LessEq | BinaryOp::GreaterEq => IntType::Int,
        BinaryOp::Shl | BinaryOp::Shr => ty,
        BinaryOp::Or | BinaryOp::Xor | BinaryOp::And => ty,
        BinaryOp::Add | BinaryOp::Sub => ty,
        BinaryOp::Mul | BinaryOp::Div | BinaryOp::Rem => ty,
    }
}

/// `left op right` at this point (C11 6.5.5 to 6.5.14).
#[tactic(auto, unfolding(crate::specs::Typing::binary), using(crate::proofs::Formed::binary_formed))]
pub fn binary(
    alloc: Global,
    found: &mut Found,
    point: PointId,
    op: BinaryOp,
    left: Expr,
    right: Expr,
) -> Result<Expr, AllocError>
    requires { length found.old.sites < 2 ^ 32 }
    ensures value { Types (spec.binary point op left right found.old.sites) result found.new.sites }
    ensures room { IfOk result (λ _. length found.new.sites ≤ length found.old.sites + 1) }
    ensures first { found.new.first ≡ found.old.first }
    ensures parts { IfOk result (λ e. sites e ≡ both (both (sites left) (sites right)) (own_site (site_of e))) }
    ensures numbered { IfOk result (λ e. count (length found.old.sites) (own_site (site_of e)) ≡ Some (length found.new.sites)) }
    ensures formed { IfOk result (λ e. (l : Layout) (place : Place) → is_formed l Inner left ≡ true → is_formed l Inner right ≡ true → is_formed l place e ≡ true) }
    ensures grows { IfOk result (λ _. (infos : List Info) → Extends infos found.new.sites → Extends infos found.old.sites) }
    ensures sited { IfOk result (λ e. (infos : List Info) → Extends infos found.new.sites → at_sites infos point left ≡ true → at_sites infos point right ≡ true → at_sites infos point e ≡ true) }
{
    let ty = left_operand(op, left.ty, right.ty);
    let right_ty = right_operand(op, left.ty, right.ty);
    let site = found.site(point, binary_checks(op, ty))?;
    let left = Boxed::new(alloc, converted(alloc, ty, left)?)?;
    let right = Boxed::new(alloc, converted(alloc, right_ty, right)?)?;
    Ok(Expr {
        ty: binary_type(op, ty),
        site,
        node: Node::Binary { op, left, right },
    })
}

fn operand_type(op: UnaryOp, ty: IntType) -> IntType
    ensures { result ≡ spec.operand_type op ty }
{
    match op {
        UnaryOp::Not => ty,
        UnaryOp::Plus | UnaryOp::Minus | UnaryOp::Invert => ty.promoted(),
    }
}

fn unary_type(op: UnaryOp, ty: IntType) -> IntType
    ensures { result ≡ spec.unary_type op ty }
{
    match op {
        UnaryOp::Not => IntType::Int,
        UnaryOp::Plus | UnaryOp::Minus | UnaryOp::Invert => ty,
    }
}

/// `op of` at this point (C11 6.5.3.3).
#[tactic(auto, unfolding(crate::specs::Typing::unary), using(crate::proofs::Formed::unary_formed))]
pub fn unary(
    alloc: Global,
    found: &mut Found,
    point: PointId,
    op: UnaryOp,
    of: Expr,
) -> Result<Expr, AllocError>
    requires { length found.old.sites < 2 ^ 32 }
    ensures value { Types (spec.unary point op of found.old.sites) result found.new.sites }
    ensures room { IfOk result (λ _. length found.new.sites ≤ length found.old.sites + 1) }
    ensures first { found.new.first ≡ found.old.first }
    ensures parts { IfOk result (λ e. sites e ≡ both (sites of) (own_site (site_of e))) }
    ensures numbered { IfOk result (λ e. count (length found.old.sites) (own_site (site_of e)) ≡ Some (length found.new.sites)) }
    ensures formed { IfOk result (λ e. (l : Layout) (place : Place) → is_formed l Inner of ≡ true → is_formed l place e ≡ true) }
    ensures grows { IfOk result (λ _. (infos : List Info) → Extends infos found.new.sites → Extends infos found.old.sites) }
    ensures sited { IfOk result (λ e. (infos : List Info) → Extends infos found.new.sites → at_sites infos point of ≡ true → at_sites infos point e ≡ true) }
{
    let ty = operand_type(op, of.ty);
    let site = found.site(point, unary_checks(op, ty))?;
    let of = Boxed::new(alloc, converted(alloc, ty, of)?)?;
    Ok(Expr {
        ty: unary_type(op, ty),
        site,
        node: Node::Unary { op, of },
    })
}

/// `cond ? yes : no` (C11 6.5.15).
#[tactic(auto, unfolding(crate::specs::Typing::choice), using(crate::proofs::Sited::choice_sited, crate::proofs::Formed::choice_formed))]
pub fn choice(alloc: Global, cond: Expr, yes: Expr, no: Expr) -> Result<Expr, AllocError>
    ensures value { IfOk result (λ e. e ≡ spec.choice cond yes no) }
    ensures numbered { IfOk result (λ e. sites e ≡ both (both (sites cond) (sites yes)) (sites no)) }
    ensures formed { IfOk result (λ e. (l : Layout) (place : Place) → is_formed l Inner cond ≡ true → is_formed l Inner yes ≡ true → is_formed l Inner no ≡ true → is_formed l place e ≡ true) }
    ensures sited { IfOk result (λ e. (infos : List Info) (point : Point) → at_sites infos point cond ≡ true → at_sites infos point yes ≡ true → at_sites infos point no ≡ true → at_sites infos point e ≡ true) }
{
    let ty = common_type(yes.ty, no.ty);
    let yes = Boxed::new(alloc, converted(alloc, ty, yes)?)?;
    let no = Boxed::new(alloc, converted(alloc, ty, no)?)?;
    Ok(Expr {
        ty,
        site: None,
        node: Node::Cond {
            cond: Boxed::new(alloc, cond)?,
            yes,
            no,
        },
    })
}

/// `to = value` (C11 6.5.16.1).
#[tactic(auto, unfolding(crate::specs::Typing::assigned), using(crate::proofs::Sited::assigned_sited, crate::proofs::Formed::assigned_formed))]
pub fn assigned(alloc: Global, to: Expr, value: Expr) -> Result<Expr, AllocError>
    ensures value { IfOk result (λ e. e ≡ spec.assigned to value) }
    ensures numbered { IfOk result (λ e. sites e ≡ both (sites to) (sites value)) }
    ensures formed { IfOk result (λ e. (l : Layout) (place : Place) → is_dropped place ≡ true → is_target l to ≡ true → is_formed l Value value ≡ true → is_formed l place e ≡ true) }
    ensures sited { IfOk result (λ e. (infos : List Info) (point : Point) → at_sites infos point to ≡ true → at_sites infos point value ≡ true → at_sites infos point e ≡ true) }
{
    let ty = to.ty;
    let value = Boxed::new(alloc, converted(alloc, ty, value)?)?;
    Ok(Expr {
        ty,
        site: None,
        node: Node::Assign {
            to: Boxed::new(alloc, to)?,
            value,
        },
    })
}
