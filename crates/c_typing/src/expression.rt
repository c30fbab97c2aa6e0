//! The walk over an expression.

ghost use Rattle.std.specs.Prelude.{◌≡◌, ℕ, true, false, ◌+◌, ◌<◌, ◌≤◌, ◌^◌, [], Some, length, map, not, drop, is_some, IfOk, List};
ghost use Rattle.std.specs.Option.{option_copied};
ghost use Rattle.std.specs.BTreeMap.{get_by_text};
ghost use Rattle.c_ir.specs.Formed.{Layout};
ghost use Rattle.c_ir.specs.Sited.{Extends, at_sites, all_at_sites};
ghost use Rattle.c_ir.specs.declared.tree.SiteInfo.{SiteInfo as Info};
ghost use Rattle.fc_base.specs.declared.ids.PointId.{PointId as Point};
ghost use Rattle.c_ir.specs.Numbers.{count, all as row, sites};
ghost use Rattle.c_rules.specs.Breaches as breach;
ghost use Rattle.c_rules.specs.Breaches.{least};
ghost use Rattle.c_rules.specs.Fits.{EnvFits, is_target, is_arg, are_args, function_fits};
ghost use Rattle.c_ir.specs.Placed.{is_formed};
ghost use Rattle.c_rules.specs.Typing.{Types};
ghost use Rattle.c_typing.specs.Meaning as meant;
ghost use Rattle.c_rules.specs.Typing as rule;
ghost use Rattle.c_rules.specs.Specifiers.{spec_type};
ghost use Rattle.c_ir.specs.declared.place.Place.{Place as Standing};
ghost use Rattle.c_ir.specs.declared.place.Place.TheVariants.{Inner};
ghost use Rattle.c_rules.specs.declared.breach.Fault.TheVariants as Kind;
ghost use Rattle.c_typing.specs.Meaning.{meaning};
ghost use Rattle.c_typing.specs.Room.{size_of, total};

use crate::plain::is_plain;
use c_ast::{Expr as Ast, Spec};
use c_ir::{Expr, Exprs, IntType, Place};
use c_rules::{
    Fault, Found, Names, Signature, SpecType, array, assigned, binary, called, cast, choice,
    constant, converted, element, function, is_allowed, is_array, is_dropped, is_scalar, literal,
    name_target, name_value, note_call, spec_type, unary, zero,
};
use fc_base::{BinaryOp, Name, PointId, Spot};
use sqlite_items::Items;
use std::alloc::{AllocError, Global};

/// The name that an expression is.
fn name_of(e: &Ast) -> Option<&Name>
    ensures { option_copied result ≡ (meaning e.now).name }
{
    match e {
        Ast::Name(ident) => Some(&ident.name),
        _ => None,
    }
}

/// Where an expression stands.
pub(crate) fn spot_of(e: &Ast) -> Spot
    ensures { result ≡ (meaning e.now).at }
{
    match e {
        Ast::Name(ident) => ident.at,
        Ast::Literal { at, .. }
        | Ast::Index { at, .. }
        | Ast::Call { at, .. }
        | Ast::Unary { at, .. }
        | Ast::Binary { at, .. }
        | Ast::Assign { at, .. }
        | Ast::Step { at, .. }
        | Ast::Cond { at, .. }
        | Ast::Cast { at, .. } => *at,
    }
}

/// Where an expression begins.
pub(crate) fn place_of(e: &Ast) -> u32
    ensures { result ≡ meant.place_of (meaning e.now) }
{
    spot_of(e).span.from
}

/// Whether an expression can be written to.
fn is_writable(names: &Names, e: &Ast) -> bool
    ensures { result ≡ (meaning e.now).is_writable (get_by_text names.now) }
{
    match e {
        Ast::Name(ident) => is_scalar(names, &ident.name),
        Ast::Index { of, .. } => is_array(names, name_of(of.get())),
        _ => false,
    }
}

#[tactic(auto, unfolding(c_rules::specs::Fits::is_arg))]
fn formal(alloc: Global, formals: &[IntType], e: Expr) -> Result<Expr, AllocError>
    ensures value { IfOk result (λ t. t ≡ meant.formal formals.now e) }
    ensures numbered { IfOk result (λ t. sites t ≡ sites e) }
    ensures formed { IfOk result (λ t. (l : Layout) → is_formed l Inner e ≡ true → is_arg l formals.now t ≡ true) }
    ensures sited { IfOk result (λ t. (infos : List Info) (point : Point) → at_sites infos point e ≡ true → at_sites infos point t ≡ true) }
{
    match formals.first() {
        None => Ok(e),
        Some(ty) => converted(alloc, *ty, e),
    }
}

fn after_first(formals: &[IntType]) -> &[IntType]
    ensures { result.now ≡ drop 1 formals.now }
{
    match formals.split_first() {
        None => formals,
        Some((_, rest)) => rest,
    }
}

/// The arguments of a call, converted to the types of the formals.
#[cycle(walk)]
fn args(
    alloc: Global,
    names: &Names,
    found: &mut Found,
    point: PointId,
    formals: &[IntType],
    all: &[Ast],
) -> Result<Exprs, AllocError>
    requires { length found.old.sites + total (map size_of all.now) < 2 ^ 32 }
    ensures value { Types (meant.args_from (get_by_text names.now) point formals.now (map meaning all.now) [] found.old.sites) result found.new.sites }
    ensures first { IfOk result (λ _. found.new.first ≡ least found.old.first (meant.args_faults (get_by_text names.now) (map meaning all.now))) }
    ensures room { IfOk result (λ _. length found.new.sites ≤ length found.old.sites + total (map size_of all.now)) }
    ensures numbered { IfOk result (λ es. count (length found.old.sites) (row (map sites es)) ≡ Some (length found.new.sites)) }
    ensures formed { IfOk result (λ es. (l : Layout) → EnvFits l (get_by_text names.now) → are_args l formals.now es ≡ true) }
    ensures counted { IfOk result (λ es. length es ≡ length all.now) }
    ensures grows { IfOk result (λ _. (infos : List Info) → Extends infos found.new.sites → Extends infos found.old.sites) }
    ensures sited { IfOk result (λ es. (infos : List Info) → Extends infos found.new.sites → all_at_sites infos point es ≡ true) }
{
    let mut done = Items::new(alloc);
    let mut left = formals;
    for arg in all {
        let e = value(alloc, names, found, point, Place::Inner, arg)?;
        done.push(formal(alloc, left, e)?)?;
        left = after_first(left);
    }
    Ok(done)
}

/// Notes the breaches of an expression that is dropped.
#[cycle(walk)]
fn aside(alloc: Global, names: &Names, found: &mut Found, e: &Ast) -> Result<(), AllocError>
    requires { (size_of e.now).most < 2 ^ 32 }
    ensures first { IfOk result (λ _. found.new.first ≡ least found.old.first ((meaning e.now).faults (get_by_text names.now) Inner)) }
    ensures sites { found.new.sites ≡ found.old.sites }
{
    let mut apart = found.apart(alloc);
    value(alloc, names, &mut apart, PointId(0), Place::Inner, e)?;
    found.first = apart.first;
    Ok(())
}

/// Notes the breaches of an expression in the place of a name, unless it is one.
#[cycle(walk)]
fn aside_unless_name(
    alloc: Global,
    names: &Names,
    found: &mut Found,
    e: &Ast,
) -> Result<(), AllocError>
    requires { (size_of e.now).most < 2 ^ 32 }
    ensures first { IfOk result (λ _. found.new.first ≡ least found.old.first ((meaning e.now).name_faults (get_by_text names.now))) }
    ensures sites { found.new.sites ≡ found.old.sites }
{
    match e {
        Ast::Name(_) => Ok(()),
        _ => aside(alloc, names, found, e),
    }
}

/// An element that is read.
#[cycle(walk)]
fn index_value(
    alloc: Global,
    names: &Names,
    found: &mut Found,
    point: PointId,
    of: &Ast,
    index: &Ast,
) -> Result<Expr, AllocError>
    requires of { (size_of of.now).most < 2 ^ 32 }
    requires index { length found.old.sites + (size_of index.now).most + 1 < 2 ^ 32 }
    ensures value { Types (meant.element_of (get_by_text names.now) point (meaning index.now) (rule.array (get_by_text names.now) (meaning of.now).name) found.old.sites) result found.new.sites }
    ensures first { IfOk result (λ _. found.new.first ≡ least found.old.first (meant.element_faults false (meaning of.now) (meaning index.now) (get_by_text names.now))) }
    ensures room { IfOk result (λ _. length found.new.sites ≤ length found.old.sites + (size_of index.now).most + 1) }
    ensures numbered { IfOk result (λ e. count (length found.old.sites) (sites e) ≡ Some (length found.new.sites)) }
    ensures formed { IfOk result (λ e. (l : Layout) (place : Standing) → EnvFits l (get_by_text names.now) → is_formed l place e ≡ true) }
    ensures grows { IfOk result (λ _. (infos : List Info) → Extends infos found.new.sites → Extends infos found.old.sites) }
    ensures sited { IfOk result (λ t. (infos : List Info) → Extends infos found.new.sites → at_sites infos point t ≡ true) }
{
    let array = array(alloc, names, found, false, place_of(of), name_of(of))?;
    aside_unless_name(alloc, names, found, of)?;
    match array {
        Some(array) => {
            let index = value(alloc, names, found, point, Place::Inner, index)?;
            element(alloc, found, point, array, array.object.checked, index)
        }
        None => {
            aside(alloc, names, found, index)?;
            Ok(zero())
        }
    }
}

/// An element that is written to.
#[cycle(walk)]
fn index_target(
    alloc: Global,
    names: &Names,
    found: &mut Found,
    point: PointId,
    of: &Ast,
    index: &Ast,
) -> Result<Expr, AllocError>
    requires of { (size_of of.now).most < 2 ^ 32 }
    requires index { length found.old.sites + (size_of index.now).most + 1 < 2 ^ 32 }
    ensures value { Types (meant.written_of (get_by_text names.now) point (meaning index.now) (rule.array (get_by_text names.now) (meaning of.now).name) found.old.sites) result found.new.sites }
    ensures first { IfOk result (λ _. found.new.first ≡ least found.old.first (meant.element_faults true (meaning of.now) (meaning index.now) (get_by_text names.now))) }
    ensures room { IfOk result (λ _. length found.new.sites ≤ length found.old.sites + (size_of index.now).most + 1) }
    ensures numbered { IfOk result (λ e. count (length found.old.sites) (sites e) ≡ Some (length found.new.sites)) }
    ensures formed { IfOk result (λ e. (l : Layout) → EnvFits l (get_by_text names.now) → is_some (rule.array (get_by_text names.now) (meaning of.now).name) ≡ true → is_target l e ≡ true) }
    ensures grows { IfOk result (λ _. (infos : List Info) → Extends infos found.new.sites → Extends infos found.old.sites) }
    ensures sited { IfOk result (λ t. (infos : List Info) → Extends infos found.new.sites → at_sites infos point t ≡ true) }
{
    let array = array(alloc, names, found, true, place_of(of), name_of(of))?;
    aside_unless_name(alloc, names, found, of)?;
    match array {
        Some(array) => {
            let index = value(alloc, names, found, point, Place::Inner, index)?;
            element(alloc, found, point, array, false, index)
        }
        None => {
            aside(alloc, names, found, index)?;
            Ok(zero())
        }
    }
}

/// A call of this function, if it may stand there.
#[cycle(walk)]
fn call_of(
    alloc: Global,
    names: &Names,
    found: &mut Found,
    point: PointId,
    place: Place,
    function: Option<&Signature>,
    all: &[Ast],
) -> Result<Expr, AllocError>
    requires { length found.old.sites + total (map size_of all.now) < 2 ^ 32 }
    ensures value { Types (meant.call_of (get_by_text names.now) point place (map meaning all.now) (option_copied function.entry) found.old.sites) result found.new.sites }
    ensures first { IfOk result (λ _. found.new.first ≡ least found.old.first (meant.args_faults (get_by_text names.now) (map meaning all.now))) }
    ensures room { IfOk result (λ _. length found.new.sites ≤ length found.old.sites + total (map size_of all.now)) }
    ensures numbered { IfOk result (λ e. count (length found.old.sites) (sites e) ≡ Some (length found.new.sites)) }
    ensures formed { IfOk result (λ e. (l : Layout) → EnvFits l (get_by_text names.now) → function_fits l (option_copied function.entry) ≡ true → is_formed l place e ≡ true) }
    ensures grows { IfOk result (λ _. (infos : List Info) → Extends infos found.new.sites → Extends infos found.old.sites) }
    ensures sited { IfOk result (λ t. (infos : List Info) → Extends infos found.new.sites → at_sites infos point t ≡ true) }
{
    if let Some(function) = function
        && is_allowed(place, function, all.len())
    {
        let formals = function.formals.as_slice();
        let es = args(alloc, names, found, point, formals, all)?;
        return Ok(called(function, es));
    }
    let mut apart = found.apart(alloc);
    args(alloc, names, &mut apart, point, &[], all)?;
    found.first = apart.first;
    Ok(zero())
}

/// `to = from`, or `to op= from`, where `to` can be written to; else its breaches are noted.
#[cycle(walk)]
fn assignment(
    alloc: Global,
    names: &Names,
    found: &mut Found,
    point: PointId,
    op: Option<BinaryOp>,
    to: &Ast,
    from: &Ast,
) -> Result<Expr, AllocError>
    requires { length found.old.sites + (size_of to.now).most + (size_of to.now).again + (size_of from.now).most + 1 < 2 ^ 32 }
    ensures value { Types (meant.assignment (get_by_text names.now) point (meaning to.now) (meaning from.now) op found.old.sites) result found.new.sites }
    ensures first { IfOk result (λ _. found.new.first ≡ least found.old.first (meant.assignment_faults (get_by_text names.now) (meaning to.now) (meaning from.now) op)) }
    ensures room { IfOk result (λ _. length found.new.sites ≤ length found.old.sites + (size_of to.now).most + (size_of to.now).again + (size_of from.now).most + 1) }
    ensures numbered { IfOk result (λ e. count (length found.old.sites) (sites e) ≡ Some (length found.new.sites)) }
    ensures formed { IfOk result (λ e. (l : Layout) (place : Standing) → EnvFits l (get_by_text names.now) → (meaning to.now).is_writable (get_by_text names.now) ≡ true → breach.is_dropped place ≡ true → is_formed l place e ≡ true) }
    ensures grows { IfOk result (λ _. (infos : List Info) → Extends infos found.new.sites → Extends infos found.old.sites) }
    ensures sited { IfOk result (λ t. (infos : List Info) → Extends infos found.new.sites → at_sites infos point t ≡ true) }
{
    let written = target(alloc, names, found, point, to)?;
    match op {
        None => {
            let e = value(alloc, names, found, point, Place::Value, from)?;
            assigned(alloc, written, e)
        }
        Some(op) => {
            let read = again(alloc, names, found, point, to)?;
            let e = value(alloc, names, found, point, Place::Inner, from)?;
            let e = binary(alloc, found, point, op, read, e)?;
            assigned(alloc, written, e)
        }
    }
}

/// `to = to op 1`, where `to` can be written to; else its breaches are noted.
#[cycle(walk)]
#[tactic(auto, unfolding(c_ir::specs::Formed::in_range))]
fn stepped(
    alloc: Global,
    names: &Names,
    found: &mut Found,
    point: PointId,
    op: BinaryOp,
    to: &Ast,
) -> Result<Expr, AllocError>
    requires { length found.old.sites + (size_of to.now).most + (size_of to.now).again + 1 < 2 ^ 32 }
    ensures value { Types (meant.stepped (get_by_text names.now) point (meaning to.now) op found.old.sites) result found.new.sites }
    ensures first { IfOk result (λ _. found.new.first ≡ least found.old.first (meant.step_faults (get_by_text names.now) (meaning to.now))) }
    ensures room { IfOk result (λ _. length found.new.sites ≤ length found.old.sites + (size_of to.now).most + (size_of to.now).again + 1) }
    ensures numbered { IfOk result (λ e. count (length found.old.sites) (sites e) ≡ Some (length found.new.sites)) }
    ensures formed { IfOk result (λ e. (l : Layout) (place : Standing) → EnvFits l (get_by_text names.now) → (meaning to.now).is_writable (get_by_text names.now) ≡ true → breach.is_dropped place ≡ true → is_formed l place e ≡ true) }
    ensures grows { IfOk result (λ _. (infos : List Info) → Extends infos found.new.sites → Extends infos found.old.sites) }
    ensures sited { IfOk result (λ t. (infos : List Info) → Extends infos found.new.sites → at_sites infos point t ≡ true) }
{
    let written = target(alloc, names, found, point, to)?;
    let read = again(alloc, names, found, point, to)?;
    let e = binary(alloc, found, point, op, read, constant(IntType::Int, 1))?;
    assigned(alloc, written, e)
}

/// An assignment, where it stands.
#[cycle(walk)]
fn assign_value(
    alloc: Global,
    names: &Names,
    found: &mut Found,
    point: PointId,
    place: Place,
    at: u32,
    op: Option<BinaryOp>,
    to: &Ast,
    from: &Ast,
) -> Result<Expr, AllocError>
    requires { length found.old.sites + (size_of to.now).most + (size_of to.now).again + (size_of from.now).most + 1 < 2 ^ 32 }
    ensures value { Types (meant.if_allowed (meant.may_write (get_by_text names.now) place (meaning to.now)) (meant.assignment (get_by_text names.now) point (meaning to.now) (meaning from.now) op) found.old.sites) result found.new.sites }
    ensures first { IfOk result (λ _. found.new.first ≡ least found.old.first (breach.both (breach.only_if (not (breach.is_dropped place)) at Kind.SideEffect) (meant.assignment_faults (get_by_text names.now) (meaning to.now) (meaning from.now) op))) }
    ensures room { IfOk result (λ _. length found.new.sites ≤ length found.old.sites + (size_of to.now).most + (size_of to.now).again + (size_of from.now).most + 1) }
    ensures numbered { IfOk result (λ e. count (length found.old.sites) (sites e) ≡ Some (length found.new.sites)) }
    ensures formed { IfOk result (λ e. (l : Layout) → EnvFits l (get_by_text names.now) → is_formed l place e ≡ true) }
    ensures grows { IfOk result (λ _. (infos : List Info) → Extends infos found.new.sites → Extends infos found.old.sites) }
    ensures sited { IfOk result (λ t. (infos : List Info) → Extends infos found.new.sites → at_sites infos point t ≡ true) }
{
    found.note_if(!is_dropped(place), at, Fault::SideEffect);
    if is_dropped(place) && is_writable(names, to) {
        return assignment(alloc, names, found, point, op, to, from);
    }
    let mut apart = found.apart(alloc);
    assignment(alloc, names, &mut apart, point, op, to, from)?;
    found.first = apart.first;
    Ok(zero())
}

fn step_op(up: bool) -> BinaryOp
    ensures { result ≡ meant.step_op up }
{
    if up { BinaryOp::Add } else { BinaryOp::Sub }
}

/// `++` or `--`, where it stands.
#[cycle(walk)]
fn step_value(
    alloc: Global,
    names: &Names,
    found: &mut Found,
    point: PointId,
    place: Place,
    at: u32,
    up: bool,
    to: &Ast,
) -> Result<Expr, AllocError>
    requires { length found.old.sites + (size_of to.now).most + (size_of to.now).again + 1 < 2 ^ 32 }
    ensures value { Types (meant.if_allowed (meant.may_write (get_by_text names.now) place (meaning to.now)) (meant.stepped (get_by_text names.now) point (meaning to.now) (meant.step_op up)) found.old.sites) result found.new.sites }
    ensures first { IfOk result (λ _. found.new.first ≡ least found.old.first (breach.both (breach.only_if (not (breach.is_dropped place)) at Kind.SideEffect) (meant.step_faults (get_by_text names.now) (meaning to.now)))) }
    ensures room { IfOk result (λ _. length found.new.sites ≤ length found.old.sites + (size_of to.now).most + (size_of to.now).again + 1) }
    ensures numbered { IfOk result (λ e. count (length found.old.sites) (sites e) ≡ Some (length found.new.sites)) }
    ensures formed { IfOk result (λ e. (l : Layout) → EnvFits l (get_by_text names.now) → is_formed l place e ≡ true) }
    ensures grows { IfOk result (λ _. (infos : List Info) → Extends infos found.new.sites → Extends infos found.old.sites) }
    ensures sited { IfOk result (λ t. (infos : List Info) → Extends infos found.new.sites → at_sites infos point t ≡ true) }
{
    found.note_if(!is_dropped(place), at, Fault::SideEffect);
    if is_dropped(place) && is_writable(names, to) {
        return stepped(alloc, names, found, point, step_op(up), to);
    }
    let mut apart = found.apart(alloc);
    stepped(alloc, names, &mut apart, point, step_op(up), to)?;
    found.first = apart.first;
    Ok(zero())
}

/// A cast, where it stands.
#[cycle(walk)]
fn cast_value(
    alloc: Global,
    names: &Names,
    found: &mut Found,
    point: PointId,
    place: Place,
    at: u32,
    spec: &Spec,
    of: &Ast,
) -> Result<Expr, AllocError>
    requires { length found.old.sites + (size_of of.now).most < 2 ^ 32 }
    ensures value { Types (meant.cast_of (spec_type spec.now.words) place ((meaning of.now).value (get_by_text names.now) point Inner) found.old.sites) result found.new.sites }
    ensures first { IfOk result (λ _. found.new.first ≡ least found.old.first (breach.both (meant.cast_faults (spec_type spec.now.words) place at) ((meaning of.now).faults (get_by_text names.now) Inner))) }
    ensures room { IfOk result (λ _. length found.new.sites ≤ length found.old.sites + (size_of of.now).most) }
    ensures numbered { IfOk result (λ e. count (length found.old.sites) (sites e) ≡ Some (length found.new.sites)) }
    ensures formed { IfOk result (λ e. (l : Layout) → EnvFits l (get_by_text names.now) → is_formed l place e ≡ true) }
    ensures grows { IfOk result (λ _. (infos : List Info) → Extends infos found.new.sites → Extends infos found.old.sites) }
    ensures sited { IfOk result (λ t. (infos : List Info) → Extends infos found.new.sites → at_sites infos point t ≡ true) }
{
    match spec_type(spec) {
        Some(SpecType::Integer(ty)) => {
            let e = value(alloc, names, found, point, Place::Inner, of)?;
            cast(alloc, ty, e)
        }
        Some(SpecType::Void) if is_dropped(place) => {
            value(alloc, names, found, point, Place::Inner, of)
        }
        Some(SpecType::Void) | None => {
            found.note(at, Fault::BadType);
            aside(alloc, names, found, of)?;
            Ok(zero())
        }
    }
}

/// An expression that is read.
#[cycle(walk)]
pub fn value(
    alloc: Global,
    names: &Names,
    found: &mut Found,
    point: PointId,
    place: Place,
    e: &Ast,
) -> Result<Expr, AllocError>
    requires { length found.old.sites + (size_of e.now).most < 2 ^ 32 }
    ensures value { Types ((meaning e.now).value (get_by_text names.now) point place found.old.sites) result found.new.sites }
    ensures first { IfOk result (λ _. found.new.first ≡ least found.old.first ((meaning e.now).faults (get_by_text names.now) place)) }
    ensures room { IfOk result (λ _. length found.new.sites ≤ length found.old.sites + (size_of e.now).most) }
    ensures numbered { IfOk result (λ t. count (length found.old.sites) (sites t) ≡ Some (length found.new.sites)) }
    ensures formed { IfOk result (λ t. (l : Layout) → EnvFits l (get_by_text names.now) → is_formed l place t ≡ true) }
    ensures grows { IfOk result (λ _. (infos : List Info) → Extends infos found.new.sites → Extends infos found.old.sites) }
    ensures sited { IfOk result (λ t. (infos : List Info) → Extends infos found.new.sites → at_sites infos point t ≡ true) }
{
    match e {
        Ast::Literal {
            at,
            value,
            form,
            unsigned,
            longs,
        } => Ok(literal(found, at.span.from, *value, *form, *unsigned, *longs)),
        Ast::Name(x) => name_value(alloc, names, found, point, x.at.span.from, &x.name),
        Ast::Index { at: _, of, index } => {
            index_value(alloc, names, found, point, of.get(), index.get())
        }
        Ast::Call { at, of, args: all } => {
            let of = of.get();
            let function = function(alloc, names, found, place_of(of), name_of(of))?;
            aside_unless_name(alloc, names, found, of)?;
            let e = call_of(alloc, names, found, point, place, function, all.as_slice())?;
            note_call(found, place, at.span.from, all.len(), function);
            Ok(e)
        }
        Ast::Unary { at: _, op, of } => {
            let e = value(alloc, names, found, point, Place::Inner, of.get())?;
            unary(alloc, found, point, *op, e)
        }
        Ast::Binary {
            at: _,
            op,
            left,
            right,
        } => {
            let left = value(alloc, names, found, point, Place::Inner, left.get())?;
            let right = value(alloc, names, found, point, Place::Inner, right.get())?;
            binary(alloc, found, point, *op, left, right)
        }
        Ast::Assign {
            at,
            op,
            to,
            value: from,
        } => assign_value(
            alloc,
            names,
            found,
            point,
            place,
            at.span.from,
            *op,
            to.get(),
            from.get(),
        ),
        Ast::Step {
            at,
            up,
            before: _,
            of,
        } => step_value(
            alloc,
            names,
            found,
            point,
            place,
            at.span.from,
            *up,
            of.get(),
        ),
        Ast::Cond {
            at: _,
            cond,
            yes,
            no,
        } => {
            let cond = value(alloc, names, found, point, Place::Inner, cond.get())?;
            let yes = value(alloc, names, found, point, Place::Inner, yes.get())?;
            let no = value(alloc, names, found, point, Place::Inner, no.get())?;
            choice(alloc, cond, yes, no)
        }
        Ast::Cast { at, spec, of } => cast_value(
            alloc,
            names,
            found,
            point,
            place,
            at.span.from,
            spec,
            of.get(),
        ),
    }
}

/// An expression that is written to; the constant 0 where it can't be.
#[cycle(walk)]
fn target(
    alloc: Global,
    names: &Names,
    found: &mut Found,
    point: PointId,
    e: &Ast,
) -> Result<Expr, AllocError>
    requires { length found.old.sites + (size_of e.now).most < 2 ^ 32 }
    ensures value { Types ((meaning e.now).target (get_by_text names.now) point found.old.sites) result found.new.sites }
    ensures first { IfOk result (λ _. found.new.first ≡ least found.old.first ((meaning e.now).target_faults (get_by_text names.now))) }
    ensures room { IfOk result (λ _. length found.new.sites ≤ length found.old.sites + (size_of e.now).most) }
    ensures numbered { IfOk result (λ t. count (length found.old.sites) (sites t) ≡ Some (length found.new.sites)) }
    ensures formed { IfOk result (λ t. (l : Layout) → EnvFits l (get_by_text names.now) → (meaning e.now).is_writable (get_by_text names.now) ≡ true → is_target l t ≡ true) }
    ensures grows { IfOk result (λ _. (infos : List Info) → Extends infos found.new.sites → Extends infos found.old.sites) }
    ensures sited { IfOk result (λ t. (infos : List Info) → Extends infos found.new.sites → at_sites infos point t ≡ true) }
{
    match e {
        Ast::Name(x) => name_target(alloc, names, found, x.at.span.from, &x.name),
        Ast::Index { at: _, of, index } => {
            index_target(alloc, names, found, point, of.get(), index.get())
        }
        _ => {
            found.note(place_of(e), Fault::BadType);
            aside(alloc, names, found, e)?;
            Ok(zero())
        }
    }
}

/// What is written to, where it is read too; the constant 0 where it can't be written to.
#[cycle(walk)]
fn again(
    alloc: Global,
    names: &Names,
    found: &mut Found,
    point: PointId,
    e: &Ast,
) -> Result<Expr, AllocError>
    requires again { length found.old.sites + (size_of e.now).again < 2 ^ 32 }
    requires most { (size_of e.now).most < 2 ^ 32 }
    ensures value { Types ((meaning e.now).again (get_by_text names.now) point found.old.sites) result found.new.sites }
    ensures first { IfOk result (λ _. found.new.first ≡ least found.old.first ((meaning e.now).again_faults (get_by_text names.now))) }
    ensures room { IfOk result (λ _. length found.new.sites ≤ length found.old.sites + (size_of e.now).again) }
    ensures numbered { IfOk result (λ t. count (length found.old.sites) (sites t) ≡ Some (length found.new.sites)) }
    ensures formed { IfOk result (λ t. (l : Layout) (place : Standing) → EnvFits l (get_by_text names.now) → is_formed l place t ≡ true) }
    ensures grows { IfOk result (λ _. (infos : List Info) → Extends infos found.new.sites → Extends infos found.old.sites) }
    ensures sited { IfOk result (λ t. (infos : List Info) → Extends infos found.new.sites → at_sites infos point t ≡ true) }
{
    match e {
        Ast::Name(x) => name_value(alloc, names, found, point, x.at.span.from, &x.name),
        Ast::Index { at: _, of, index } if is_plain(index.get()) => {
            index_value(alloc, names, found, point, of.get(), index.get())
        }
        _ => Ok(zero()),
    }
}
