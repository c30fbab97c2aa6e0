//! Literals (C11 6.4.4.1, 6.4.4.4).

ghost use Rattle.std.specs.Prelude.{◌≡◌, ◌==◌, ◌<◌, ◌^◌, true, not, is_some, OnSome, List};
ghost use Rattle.c_ir.specs.Formed.{Layout, in_range};
ghost use Rattle.c_ir.specs.Sited.{at_sites};
ghost use Rattle.c_ir.specs.Numbers.{none, sites};
ghost use Rattle.c_ir.specs.Trees.{constant, zero_expr};
ghost use Rattle.c_ir.specs.declared.tree.SiteInfo.{SiteInfo as Info};
ghost use Rattle.fc_base.specs.declared.ids.PointId.{PointId as Point};
ghost use Rattle.c_rules.specs.Breaches.{least, only_if};
ghost use Rattle.c_ir.specs.Placed.{is_formed};
ghost use Rattle.c_rules.specs.Typing as spec;
ghost use Rattle.c_ir.specs.declared.place.Place.{Place};
ghost use Rattle.c_rules.specs.declared.breach.Fault.TheVariants as Kind;

use crate::breach::Fault;
use crate::found::Found;
use c_ir::{Expr, IntType, Node};
use fc_base::LiteralForm;

fn unsigned_list(longs: u8) -> &'static [IntType]
    ensures { result.now ≡ spec.unsigned_list longs }
{
    match longs {
        0 => &[
            IntType::UnsignedInt,
            IntType::UnsignedLong,
            IntType::UnsignedLongLong,
        ],
        1 => &[IntType::UnsignedLong, IntType::UnsignedLongLong],
        _ => &[IntType::UnsignedLongLong],
    }
}

fn decimal_list(longs: u8) -> &'static [IntType]
    ensures { result.now ≡ spec.decimal_list longs }
{
    match longs {
        0 => &[IntType::Int, IntType::Long, IntType::LongLong],
        1 => &[IntType::Long, IntType::LongLong],
        _ => &[IntType::LongLong],
    }
}

fn other_list(longs: u8) -> &'static [IntType]
    ensures { result.now ≡ spec.other_list longs }
{
    match longs {
        0 => &[
            IntType::Int,
            IntType::UnsignedInt,
            IntType::Long,
            IntType::UnsignedLong,
            IntType::LongLong,
            IntType::UnsignedLongLong,
        ],
        1 => &[
            IntType::Long,
            IntType::UnsignedLong,
            IntType::LongLong,
            IntType::UnsignedLongLong,
        ],
        _ => &[IntType::LongLong, IntType::UnsignedLongLong],
    }
}

fn signed_list(form: LiteralForm, longs: u8) -> &'static [IntType]
    ensures { result.now ≡ spec.signed_list form longs }
{
    match form {
        LiteralForm::Decimal => decimal_list(longs),
        LiteralForm::Octal | LiteralForm::Hexadecimal => other_list(longs),
        LiteralForm::Character => &[IntType::Int],
    }
}

/// The list of types for a base and a suffix (C11 6.4.4.1, paragraph 5).
#[tactic(auto, unfolding(crate::specs::Typing::candidates))]
fn candidates(form: LiteralForm, unsigned: bool, longs: u8) -> &'static [IntType]
    ensures { result.now ≡ spec.candidates form unsigned longs }
{
    if unsigned {
        unsigned_list(longs)
    } else {
        signed_list(form, longs)
    }
}

fn first_holding(value: u128, types: &[IntType]) -> Option<IntType>
    ensures first { result ≡ spec.first_holding value types.now }
    ensures fits { OnSome result (value < 2 ^ 64) }
{
    for ty in types {
        if !(ty.greatest() < value) {
            return Some(*ty);
        }
    }
    None
}

/// Whether a type of its list holds a literal's value.
#[tactic(auto, unfolding(crate::specs::Typing::literal_type))]
pub fn is_typed_literal(value: u128, form: LiteralForm, unsigned: bool, longs: u8) -> bool
    ensures { result ≡ is_some (spec.literal_type value form unsigned longs) }
{
    first_holding(value, candidates(form, unsigned, longs)).is_some()
}

/// A literal: the first type that holds its value; BadType where none does.
#[tactic(auto, unfolding(crate::specs::Typing::literal_type), using(crate::proofs::Formed::literal_formed))]
pub fn literal(
    found: &mut Found,
    at: u32,
    value: u128,
    form: LiteralForm,
    unsigned: bool,
    longs: u8,
) -> Expr
    ensures value { result ≡ spec.literal value (spec.literal_type value form unsigned longs) }
    ensures first { found.new.first ≡ least found.old.first (only_if (not (is_some (spec.literal_type value form unsigned longs))) at Kind.BadType) }
    ensures sites { found.new.sites ≡ found.old.sites }
    ensures numbered { sites result ≡ none }
    ensures formed { (l : Layout) (place : Place) → is_formed l place result ≡ true }
    ensures sited { (infos : List Info) (point : Point) → at_sites infos point result ≡ true }
{
    match first_holding(value, candidates(form, unsigned, longs)) {
        Some(ty) => constant(ty, value as i128),
        None => {
            found.note(at, Fault::BadType);
            zero()
        }
    }
}

/// A constant.
#[tactic(auto, using(crate::proofs::Sited::constant_sited, crate::proofs::Formed::constant_formed))]
pub fn constant(ty: IntType, value: i128) -> Expr
    ensures value { result ≡ constant ty value }
    ensures numbered { sites result ≡ none }
    ensures formed { in_range ty value ≡ true → (l : Layout) (place : Place) → is_formed l place result ≡ true }
    ensures sited { (infos : List Info) (point : Point) → at_sites infos point result ≡ true }
{
    Expr {
        ty,
        site: None,
        node: Node::Literal { value },
    }
}

/// The constant 0, which stands where there is a breach.
#[tactic(auto, using(crate::proofs::Sited::constant_sited, crate::proofs::Formed::zero_formed))]
pub fn zero() -> Expr
    ensures value { result ≡ zero_expr }
    ensures numbered { sites result ≡ none }
    ensures formed { (l : Layout) (place : Place) → is_formed l place result ≡ true }
    ensures sited { (infos : List Info) (point : Point) → at_sites infos point result ≡ true }
{
    constant(IntType::Int, 0)
}
