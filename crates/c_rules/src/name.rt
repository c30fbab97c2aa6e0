//! Names of objects and functions in expressions (C11 6.5.1, 6.5.2).

ghost use Rattle.std.specs.Prelude.{◌≡◌, ℕ, ◌+◌, ◌<◌, ◌≤◌, ◌^◌, true, false, not, Some, None, IfOk, List, length, map, is_some, ◌||◌, option_map};
ghost use Rattle.std.specs.BTreeMap.{get_by_text};
ghost use Rattle.std.specs.Option.{option_copied};
ghost use Rattle.c_ir.specs.Formed.{Layout};
ghost use Rattle.c_ir.specs.Sited.{Extends, at_sites, all_at_sites};
ghost use Rattle.c_ir.specs.Numbers.{count, own_site, sites, both, none, all};
ghost use Rattle.c_ir.specs.Trees.{site_of};
ghost use Rattle.c_ir.specs.declared.tree.SiteInfo.{SiteInfo as Info};
ghost use Rattle.fc_base.specs.declared.ids.PointId.{PointId as Point};
ghost use Rattle.c_rules.specs.Breaches as breach;
ghost use Rattle.c_rules.specs.Breaches.{least, only_if};
ghost use Rattle.c_rules.specs.Fits.{EnvFits, is_target, are_args, object_fits, entry_fits, array_fits, function_fits};
ghost use Rattle.c_ir.specs.Placed.{is_formed};
ghost use Rattle.c_rules.specs.Typing as spec;
ghost use Rattle.c_rules.specs.Typing.{Types};
ghost use Rattle.c_rules.specs.declared.breach.Fault.TheVariants as Kind;
ghost use Rattle.c_ir.specs.declared.place.Place.{Place};
ghost use Rattle.c_ir.specs.declared.place.Place.TheVariants.{Inner};

use crate::breach::Fault;
use crate::found::Found;
use crate::literals::zero;
use crate::scope::{Array, Entry, Object, Signature};
use c_ir::{Expr, Exprs, IntType, Node, Place, element_checks, read_checks};
use fc_base::{Name, PointId};
use sqlite_items::Boxed;
use std::alloc::{AllocError, Global};
use std::collections::BTreeMap;

/// The names in scope.
pub type Names = BTreeMap<String, Entry>;

/// What a name stands for.
fn find<'n>(names: &'n Names, name: &Name) -> Option<&'n Entry>
    ensures value { option_copied result ≡ get_by_text names.now name.now }
    ensures fits { (l : Layout) → EnvFits l (get_by_text names.now) → entry_fits l (option_copied result) ≡ true }
{
    names.get(name.as_str())
}

fn object_read(
    found: &mut Found,
    point: PointId,
    at: u32,
    object: &Object,
) -> Result<Expr, AllocError>
    requires { length found.old.sites < 2 ^ 32 }
    ensures value { Types (spec.object_read point object.now object.now.length found.old.sites) result found.new.sites }
    ensures room { IfOk result (λ _. length found.new.sites ≤ length found.old.sites + 1) }
    ensures first { found.new.first ≡ least found.old.first (only_if (is_some object.now.length || object.now.is_open) at Kind.BadType) }
    ensures numbered { IfOk result (λ e. count (length found.old.sites) (sites e) ≡ Some (length found.new.sites)) }
    ensures formed { IfOk result (λ e. (l : Layout) (place : Place) → object_fits l object.now object.now.length ≡ true → is_formed l place e ≡ true) }
    ensures grows { IfOk result (λ _. (infos : List Info) → Extends infos found.new.sites → Extends infos found.old.sites) }
    ensures sited { IfOk result (λ e. (infos : List Info) → Extends infos found.new.sites → at_sites infos point e ≡ true) }
{
    found.note_if(
        object.length.is_some() || object.is_open,
        at,
        Fault::BadType,
    );
    if object.length.is_some() {
        return Ok(zero());
    }
    let site = found.site(point, read_checks(object.checked))?;
    Ok(Expr {
        ty: object.ty,
        site,
        node: Node::Cell {
            cell: object.first,
            checked: object.checked,
        },
    })
}

/// A name that is read: Unknown where it isn't declared, BadType where it stands for no object, for an array, or for
/// the object whose initialiser is being read.
#[tactic(auto, unfolding(crate::specs::Typing::name_value, crate::specs::Breaches::read, crate::specs::Fits::entry_fits))]
pub fn name_value(
    alloc: Global,
    names: &Names,
    found: &mut Found,
    point: PointId,
    at: u32,
    name: &Name,
) -> Result<Expr, AllocError>
    requires { length found.old.sites < 2 ^ 32 }
    ensures value { Types (spec.name_value (get_by_text names.now) point name.now found.old.sites) result found.new.sites }
    ensures room { IfOk result (λ _. length found.new.sites ≤ length found.old.sites + 1) }
    ensures first { IfOk result (λ _. found.new.first ≡ least found.old.first (breach.read (get_by_text names.now) at name.now)) }
    ensures numbered { IfOk result (λ e. count (length found.old.sites) (sites e) ≡ Some (length found.new.sites)) }
    ensures formed { IfOk result (λ e. (l : Layout) (place : Place) → EnvFits l (get_by_text names.now) → is_formed l place e ≡ true) }
    ensures grows { IfOk result (λ _. (infos : List Info) → Extends infos found.new.sites → Extends infos found.old.sites) }
    ensures sited { IfOk result (λ e. (infos : List Info) → Extends infos found.new.sites → at_sites infos point e ≡ true) }
{
    match find(names, name) {
        None => {
            found.note_unknown(alloc, at, name)?;
            Ok(zero())
        }
        Some(Entry::Object(object)) => object_read(found, point, at, object),
        Some(Entry::Function(_)) => {
            found.note(at, Fault::BadType);
            Ok(zero())
        }
    }
}

fn object_written(found: &mut Found, at: u32, object: &Object) -> Expr
    ensures value { result ≡ spec.object_written object.now object.now.length }
    ensures first { found.new.first ≡ least found.old.first (breach.variable_written at object.now) }
    ensures sites { found.new.sites ≡ found.old.sites }
    ensures numbered { sites result ≡ none }
    ensures formed { (l : Layout) → object_fits l object.now object.now.length ≡ true → not (is_some object.now.length) ≡ true → is_target l result ≡ true }
    ensures sited { (infos : List Info) (point : Point) → at_sites infos point result ≡ true }
{
    found.note_if(
        object.length.is_some() || object.is_open,
        at,
        Fault::BadType,
    );
    found.note_if(object.constant, at, Fault::ConstWrite);
    if object.length.is_some() {
        return zero();
    }
    Expr {
        ty: object.ty,
        site: None,
        node: Node::Cell {
            cell: object.first,
            checked: false,
        },
    }
}

/// A name that is written to: the breaches of reading it, and ConstWrite where its object is constant.
#[tactic(auto, unfolding(crate::specs::Typing::name_target, crate::specs::Breaches::written, crate::specs::Typing::is_scalar, crate::specs::Fits::entry_fits))]
pub fn name_target(
    alloc: Global,
    names: &Names,
    found: &mut Found,
    at: u32,
    name: &Name,
) -> Result<Expr, AllocError>
    ensures value { IfOk result (λ e. e ≡ spec.name_target (get_by_text names.now) name.now) }
    ensures first { IfOk result (λ _. found.new.first ≡ least found.old.first (breach.written (get_by_text names.now) at name.now)) }
    ensures sites { found.new.sites ≡ found.old.sites }
    ensures numbered { IfOk result (λ e. sites e ≡ none) }
    ensures formed { IfOk result (λ e. (l : Layout) → EnvFits l (get_by_text names.now) → spec.is_scalar (get_by_text names.now) name.now ≡ true → is_target l e ≡ true) }
    ensures sited { IfOk result (λ e. (infos : List Info) (point : Point) → at_sites infos point e ≡ true) }
{
    match find(names, name) {
        None => {
            found.note_unknown(alloc, at, name)?;
            Ok(zero())
        }
        Some(Entry::Object(object)) => Ok(object_written(found, at, object)),
        Some(Entry::Function(_)) => {
            found.note(at, Fault::BadType);
            Ok(zero())
        }
    }
}

/// Whether a name stands for an object that is no array.
#[tactic(auto, unfolding(crate::specs::Typing::is_scalar))]
pub fn is_scalar(names: &Names, name: &Name) -> bool
    ensures { result ≡ spec.is_scalar (get_by_text names.now) name.now }
{
    match find(names, name) {
        Some(Entry::Object(object)) => object.length.is_none(),
        Some(Entry::Function(_)) | None => false,
    }
}

#[tactic(auto, unfolding(crate::specs::Breaches::indexed, crate::specs::Fits::array_fits))]
fn array_of(found: &mut Found, write: bool, at: u32, object: &Object) -> Option<Array>
    ensures value { result ≡ spec.array_of object.now object.now.length }
    ensures first { found.new.first ≡ least found.old.first (breach.indexed write at object.now) }
    ensures sites { found.new.sites ≡ found.old.sites }
    ensures formed { (l : Layout) → object_fits l object.now object.now.length ≡ true → array_fits l result ≡ true }
{
    found.note_if(
        object.length.is_none() || object.is_open,
        at,
        Fault::BadType,
    );
    found.note_if(write && object.constant, at, Fault::ConstWrite);
    let length = object.length?;
    Some(Array {
        object: *object,
        length,
    })
}

#[tactic(auto, unfolding(crate::specs::Typing::array_name, crate::specs::Breaches::array_name, crate::specs::Fits::entry_fits, crate::specs::Fits::array_fits))]
fn array_name(
    alloc: Global,
    names: &Names,
    found: &mut Found,
    write: bool,
    at: u32,
    name: &Name,
) -> Result<Option<Array>, AllocError>
    ensures value { IfOk result (λ a. a ≡ spec.array_name (get_by_text names.now) name.now) }
    ensures first { IfOk result (λ _. found.new.first ≡ least found.old.first (breach.array_name write (get_by_text names.now) at name.now)) }
    ensures sites { found.new.sites ≡ found.old.sites }
    ensures formed { IfOk result (λ a. (l : Layout) → EnvFits l (get_by_text names.now) → array_fits l a ≡ true) }
{
    match find(names, name) {
        None => {
            found.note_unknown(alloc, at, name)?;
            Ok(None)
        }
        Some(Entry::Object(object)) => Ok(array_of(found, write, at, object)),
        Some(Entry::Function(_)) => {
            found.note(at, Fault::BadType);
            Ok(None)
        }
    }
}

/// The array that stands before an index, by its name if it is one (C11 6.5.2.1): BadType where it is no array's
/// name, Unknown where the name isn't declared, and for a write ConstWrite where the array is constant.
#[tactic(auto, unfolding(crate::specs::Typing::array, crate::specs::Breaches::array, crate::specs::Fits::array_fits))]
pub fn array(
    alloc: Global,
    names: &Names,
    found: &mut Found,
    write: bool,
    at: u32,
    name: Option<&Name>,
) -> Result<Option<Array>, AllocError>
    ensures value { IfOk result (λ a. a ≡ spec.array (get_by_text names.now) (option_copied name.entry)) }
    ensures first { IfOk result (λ _. found.new.first ≡ least found.old.first (breach.array write (get_by_text names.now) at (option_copied name.entry))) }
    ensures sites { found.new.sites ≡ found.old.sites }
    ensures formed { IfOk result (λ a. (l : Layout) → EnvFits l (get_by_text names.now) → array_fits l a ≡ true) }
{
    match name {
        None => {
            found.note(at, Fault::BadType);
            Ok(None)
        }
        Some(name) => array_name(alloc, names, found, write, at, name),
    }
}

#[tactic(auto, unfolding(crate::specs::Typing::array_name))]
fn is_array_name(names: &Names, name: &Name) -> bool
    ensures { result ≡ is_some (spec.array_name (get_by_text names.now) name.now) }
{
    match find(names, name) {
        Some(Entry::Object(object)) => object.length.is_some(),
        Some(Entry::Function(_)) | None => false,
    }
}

/// Whether an expression, by its name if it is one, is an array's name.
#[tactic(auto, unfolding(crate::specs::Typing::array))]
pub fn is_array(names: &Names, name: Option<&Name>) -> bool
    ensures { result ≡ is_some (spec.array (get_by_text names.now) (option_copied name.entry)) }
{
    match name {
        None => false,
        Some(name) => is_array_name(names, name),
    }
}

/// An element with this index; `checked` is whether it is read and may have no value.
#[tactic(auto, unfolding(crate::specs::Typing::element))]
pub fn element(
    alloc: Global,
    found: &mut Found,
    point: PointId,
    array: Array,
    checked: bool,
    index: Expr,
) -> Result<Expr, AllocError>
    requires { length found.old.sites < 2 ^ 32 }
    ensures value { Types (spec.element point array checked index found.old.sites) result found.new.sites }
    ensures room { IfOk result (λ _. length found.new.sites ≤ length found.old.sites + 1) }
    ensures first { found.new.first ≡ found.old.first }
    ensures parts { IfOk result (λ e. sites e ≡ both (sites index) (own_site (site_of e))) }
    ensures numbered { IfOk result (λ e. count (length found.old.sites) (own_site (site_of e)) ≡ Some (length found.new.sites)) }
    ensures formed { IfOk result (λ e. (l : Layout) (place : Place) → checked ≡ array.object.checked → array_fits l (Some array) ≡ true → is_formed l Inner index ≡ true → is_formed l place e ≡ true) }
    ensures targeted { IfOk result (λ e. (l : Layout) → checked ≡ false → array_fits l (Some array) ≡ true → is_formed l Inner index ≡ true → is_target l e ≡ true) }
    ensures grows { IfOk result (λ _. (infos : List Info) → Extends infos found.new.sites → Extends infos found.old.sites) }
    ensures sited { IfOk result (λ e. (infos : List Info) → Extends infos found.new.sites → at_sites infos point index ≡ true → at_sites infos point e ≡ true) }
{
    let site = found.site(point, element_checks(checked))?;
    Ok(Expr {
        ty: array.object.ty,
        site,
        node: Node::Element {
            first: array.object.first,
            length: array.length,
            index: Boxed::new(alloc, index)?,
            checked,
        },
    })
}

#[tactic(auto, unfolding(crate::specs::Typing::function_name, crate::specs::Breaches::function_name, crate::specs::Fits::entry_fits, crate::specs::Fits::function_fits))]
fn function_name<'n>(
    alloc: Global,
    names: &'n Names,
    found: &mut Found,
    at: u32,
    name: &Name,
) -> Result<Option<&'n Signature>, AllocError>
    ensures value { IfOk result (λ g. option_copied g ≡ spec.function_name (get_by_text names.now) name.now) }
    ensures first { IfOk result (λ _. found.new.first ≡ least found.old.first (breach.function_name (get_by_text names.now) at name.now)) }
    ensures sites { found.new.sites ≡ found.old.sites }
    ensures formed { IfOk result (λ g. (l : Layout) → EnvFits l (get_by_text names.now) → function_fits l (option_copied g) ≡ true) }
{
    match find(names, name) {
        None => {
            found.note_unknown(alloc, at, name)?;
            Ok(None)
        }
        Some(Entry::Object(_)) => {
            found.note(at, Fault::BadType);
            Ok(None)
        }
        Some(Entry::Function(function)) => Ok(Some(function)),
    }
}

/// The function that is called, by its name if it is one (C11 6.5.2.2): BadType where it is no function's name,
/// Unknown where the name isn't declared.
#[tactic(auto, unfolding(crate::specs::Typing::function, crate::specs::Breaches::function, crate::specs::Fits::function_fits))]
pub fn function<'n>(
    alloc: Global,
    names: &'n Names,
    found: &mut Found,
    at: u32,
    name: Option<&Name>,
) -> Result<Option<&'n Signature>, AllocError>
    ensures value { IfOk result (λ g. option_copied g ≡ spec.function (get_by_text names.now) (option_copied name.entry)) }
    ensures first { IfOk result (λ _. found.new.first ≡ least found.old.first (breach.function (get_by_text names.now) at (option_copied name.entry))) }
    ensures sites { found.new.sites ≡ found.old.sites }
    ensures formed { IfOk result (λ g. (l : Layout) → EnvFits l (get_by_text names.now) → function_fits l (option_copied g) ≡ true) }
{
    match name {
        None => {
            found.note(at, Fault::BadType);
            Ok(None)
        }
        Some(name) => function_name(alloc, names, found, at, name),
    }
}

/// Whether the expression is part of another expression.
pub fn is_inner(place: Place) -> bool
    ensures { result ≡ breach.is_inner place }
{
    match place {
        Place::Inner => true,
        Place::Value | Place::Dropped => false,
    }
}

/// Whether the expression is a statement.
pub fn is_dropped(place: Place) -> bool
    ensures { result ≡ breach.is_dropped place }
{
    match place {
        Place::Dropped => true,
        Place::Value | Place::Inner => false,
    }
}

/// Whether a call of this function with so many arguments may stand there.
#[tactic(auto, unfolding(crate::specs::Typing::is_allowed))]
pub fn is_allowed(place: Place, function: &Signature, count: usize) -> bool
    ensures { result ≡ spec.is_allowed place function.now count }
{
    !is_inner(place)
        && (count == function.formals.len() && (is_dropped(place) || function.result.is_some()))
}

/// Notes the breaches of a call with so many arguments: Arity, SideEffect where it is part of an expression, and
/// BadType where a value is needed and the function has no result.
#[tactic(auto, unfolding(crate::specs::Breaches::called))]
pub fn note_call(
    found: &mut Found,
    place: Place,
    at: u32,
    count: usize,
    function: Option<&Signature>,
)
    ensures first { found.new.first ≡ least found.old.first (breach.called place at count (option_copied function.entry)) }
    ensures sites { found.new.sites ≡ found.old.sites }
{
    let Some(function) = function else {
        return;
    };
    found.note_if(count != function.formals.len(), at, Fault::Arity);
    found.note_if(is_inner(place), at, Fault::SideEffect);
    found.note_if(
        !is_dropped(place) && function.result.is_none(),
        at,
        Fault::BadType,
    );
}

/// A call of this function; its type is `int` where the function has no result.
#[tactic(auto, unfolding(crate::specs::Typing::called))]
pub fn called(function: &Signature, args: Exprs) -> Expr
    ensures value { result ≡ spec.called function.now args }
    ensures numbered { sites result ≡ all (map sites args) }
    ensures formed { (l : Layout) (place : Place) (count : ℕ) → function_fits l (Some function.now) ≡ true → spec.is_allowed place function.now count ≡ true → length args ≡ count → are_args l function.now.formals args ≡ true → is_formed l place result ≡ true }
    ensures sited { (infos : List Info) (point : Point) → all_at_sites infos point args ≡ true → at_sites infos point result ≡ true }
{
    Expr {
        ty: function.result.unwrap_or(IntType::Int),
        site: None,
        node: Node::Call {
            function: function.number,
            args,
        },
    }
}
