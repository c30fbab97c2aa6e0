//! Constant expressions (C11 6.6).

ghost use Rattle.std.specs.Prelude.{◌≡◌, ◌<◌, ◌^◌, ◌||◌, ◌&&◌, not, IfOk, map};
ghost use Rattle.c_rules.specs.Breaches.{least, only_if};
ghost use Rattle.c_rules.specs.declared.breach.Fault.TheVariants as Kind;
ghost use Rattle.c_ir.specs.declared.place.Place.TheVariants.{Inner};
ghost use Rattle.c_typing.specs.Meaning as meant;
ghost use Rattle.c_typing.specs.Meaning.{meaning};
ghost use Rattle.c_typing.specs.ConstantValues as spec;
ghost use Rattle.c_typing.specs.Room.{size_of};
ghost use Rattle.c_typing.specs.Walking.{names_of, made_of};

use crate::expression::{place_of, value};
use crate::scope::Scope;
use crate::walk::Walk;
use c_ast::Expr as Ast;
use c_ir::Place;
use c_rules::{Fault, SpecType, evaluated, is_typed_literal, spec_type};
use fc_base::PointId;
use std::alloc::{AllocError, Global};

/// Whether a name stands in an expression.
#[cycle(names)]
fn has_name(e: &Ast) -> bool
    ensures { result ≡ (spec.form e.now).has_name }
{
    match e {
        Ast::Literal { .. } => false,
        Ast::Name(_) => true,
        Ast::Index { of, index, .. } => has_name(of.get()) || has_name(index.get()),
        Ast::Call { of, args, .. } => has_name(of.get()) || some_name(args.as_slice()),
        Ast::Unary { of, .. } | Ast::Step { of, .. } | Ast::Cast { of, .. } => {
            has_name(of.get())
        }
        Ast::Binary { left, right, .. } => has_name(left.get()) || has_name(right.get()),
        Ast::Assign { to, value, .. } => has_name(to.get()) || has_name(value.get()),
        Ast::Cond { cond, yes, no, .. } => {
            has_name(cond.get()) || (has_name(yes.get()) || has_name(no.get()))
        }
    }
}

#[cycle(names)]
fn some_name(all: &[Ast]) -> bool
    ensures { result ≡ spec.some_name (map spec.form all.now) }
{
    for e in all {
        if has_name(e) {
            return true;
        }
    }
    false
}

/// Whether an expression is made of typed literals, of operators and of casts to integer types alone.
#[cycle(constants)]
fn is_constant(e: &Ast) -> bool
    ensures { result ≡ (spec.form e.now).is_constant }
{
    match e {
        Ast::Literal {
            value,
            form,
            unsigned,
            longs,
            ..
        } => is_typed_literal(*value, *form, *unsigned, *longs),
        Ast::Unary { of, .. } => is_constant(of.get()),
        Ast::Binary { left, right, .. } => is_constant(left.get()) && is_constant(right.get()),
        Ast::Cond { cond, yes, no, .. } => {
            is_constant(cond.get()) && (is_constant(yes.get()) && is_constant(no.get()))
        }
        Ast::Cast { spec, of, .. } => { is_integer(spec_type(spec)) && is_constant(of.get()) }
        Ast::Name(_)
        | Ast::Index { .. }
        | Ast::Call { .. }
        | Ast::Assign { .. }
        | Ast::Step { .. } => false,
    }
}

fn is_integer(ty: Option<SpecType>) -> bool
    ensures { result ≡ spec.is_integer ty }
{
    match ty {
        Some(SpecType::Integer(_)) => true,
        Some(SpecType::Void) | None => false,
    }
}

/// The value of a constant expression, None where it has none; the breaches of the expression itself are noted.
#[tactic(auto, unfolding(crate::specs::ConstantValues::constant_value))]
pub(crate) fn constant_value(
    alloc: Global,
    scope: &Scope,
    walk: &mut Walk,
    e: &Ast,
) -> Result<Option<i128>, AllocError>
    requires { (size_of e.now).most < 2 ^ 32 }
    ensures value { IfOk result (λ v. v ≡ spec.constant_value (names_of scope.now).env e.now) }
    ensures made { IfOk result (λ _. made_of walk.new ≡ made_of walk.old) }
    ensures first { IfOk result (λ _. walk.new.found.first ≡ least walk.old.found.first ((meaning e.now).faults (names_of scope.now).env Inner)) }
{
    let mut apart = walk.found.apart(alloc);
    let tree = value(alloc, &scope.names, &mut apart, PointId(0), Place::Inner, e)?;
    walk.found.first = apart.first;
    if is_constant(e) {
        Ok(evaluated(&tree))
    } else {
        Ok(None)
    }
}

/// Notes the breach of a constant expression, where `fits` says whether its value is allowed.
pub(crate) fn note_constant(walk: &mut Walk, fits: bool, e: &Ast)
    ensures made { made_of walk.new ≡ made_of walk.old }
    ensures first { walk.new.found.first ≡ least walk.old.found.first (only_if ((spec.form e.now).has_name || (spec.form e.now).is_constant && not fits) (meant.place_of (meaning e.now)) Kind.BadType) }
{
    let is_broken = has_name(e) || is_constant(e) && !fits;
    walk.found.note_if(is_broken, place_of(e), Fault::BadType);
}
