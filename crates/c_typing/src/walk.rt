//! What a walk over statements and declarations makes.

ghost use Rattle.std.specs.Prelude.{◌≡◌, ◌+◌, ◌<◌, ◌≤◌, ◌^◌, IfOk, length};
ghost use Rattle.c_typing.specs.Walking as spec;
ghost use Rattle.c_ir.specs.Numbers.{none, own_point, sites};
ghost use Rattle.c_typing.specs.Walking.{Walks, Grows, Numbered, names_of};
ghost use Rattle.c_typing.specs.Room.{size_of};

use crate::expression::value;
use crate::scope::Scope;
use c_ast::Expr as Ast;
use c_ir::{Expr, InScope, InScopes, IntType, NoteSpot, NoteSpots, Place, PointInfo};
use c_rules::Found;
use fc_base::{FnId, Line, PointId, Spot};
use shared_list::SharedList;
use sqlite_items::Items;
use std::alloc::{AllocError, Global};

/// An object with its cells, or a formal or a result of a function.
#[derive(Debug, Drop)]
pub struct Allocated {
    pub ty: IntType,
    /// The function whose it is; None at file scope.
    pub owner: Option<FnId>,
    pub constant: bool,
    /// Whether it is local and without initialiser.
    pub checked: bool,
    /// Its cells.
    pub length: u32,
}

/// What was made so far, and the first breach so far.
#[derive(Debug, Drop)]
pub struct Walk {
    pub found: Found,
    pub points: Items<PointInfo>,
    pub objects: Items<Allocated>,
    /// The cells of the objects.
    pub cells: u32,
    pub notes: NoteSpots,
}

/// An expression at a point.
#[tactic(auto, unfolding(crate::specs::Walking::value_of))]
pub(crate) fn value_of(
    alloc: Global,
    scope: &Scope,
    walk: &mut Walk,
    point: PointId,
    place: Place,
    e: &Ast,
) -> Result<Expr, AllocError>
    requires { length walk.old.found.sites + (size_of e.now).most < 2 ^ 32 }
    ensures value { Walks (spec.value_of point place e.now (names_of scope.now) (spec.made_of walk.old)) result (names_of scope.now) walk.old walk.new }
    ensures room { IfOk result (λ _. Grows (size_of e.now).most walk.old walk.new) }
    ensures numbered { IfOk result (λ t. Numbered none (sites t) walk.old walk.new) }
{
    value(alloc, &scope.names, &mut walk.found, point, place, e)
}

/// The breaches of an expression that is dropped.
#[tactic(auto, unfolding(crate::specs::Walking::aside))]
pub(crate) fn aside(
    alloc: Global,
    scope: &Scope,
    walk: &mut Walk,
    place: Place,
    e: &Ast,
) -> Result<(), AllocError>
    requires { (size_of e.now).most < 2 ^ 32 }
    ensures value { Walks (spec.aside place e.now (names_of scope.now) (spec.made_of walk.old)) result (names_of scope.now) walk.old walk.new }
    ensures room { IfOk result (λ _. Grows 0 walk.old walk.new) }
    ensures numbered { IfOk result (λ _. Numbered none none walk.old walk.new) }
{
    let mut apart = walk.found.apart(alloc);
    value(alloc, &scope.names, &mut apart, PointId(0), place, e)?;
    walk.found.first = apart.first;
    Ok(())
}

/// The next point.
#[tactic(auto, unfolding(crate::specs::Walking::new_point))]
pub(crate) fn new_point(
    alloc: Global,
    scope: &Scope,
    walk: &mut Walk,
    owner: FnId,
    line: Line,
) -> Result<PointId, AllocError>
    requires { length walk.old.points < 2 ^ 32 }
    ensures value { Walks (spec.new_point owner line (names_of scope.now) (spec.made_of walk.old)) result (names_of scope.now) walk.old walk.new }
    ensures room { IfOk result (λ _. Grows 1 walk.old walk.new) }
    ensures numbered { IfOk result (λ p. Numbered (own_point p) none walk.old walk.new) }
{
    let number = walk.points.len() as u32;
    let clauses = Items::new(alloc);
    walk.points.push(PointInfo {
        owner,
        line,
        clauses,
    })?;
    Ok(PointId(number))
}

/// The next cells, for this object; the answer is the first of them.
#[tactic(auto, unfolding(crate::specs::Walking::allocate))]
pub(crate) fn allocate(scope: &Scope, walk: &mut Walk, object: Allocated) -> Result<u32, AllocError>
    requires { walk.old.cells + object.length < 2 ^ 32 }
    ensures value { Walks (spec.allocate object (names_of scope.now) (spec.made_of walk.old)) result (names_of scope.now) walk.old walk.new }
    ensures room { IfOk result (λ _. Grows object.length walk.old walk.new) }
    ensures found { IfOk result (λ _. walk.new.found ≡ walk.old.found) }
    ensures numbered { IfOk result (λ _. Numbered none none walk.old walk.new) }
{
    let first = walk.cells;
    let length = object.length;
    walk.objects.push(object)?;
    walk.cells = first + length;
    Ok(first)
}

/// A note, with the objects that it can name.
#[tactic(auto, unfolding(crate::specs::Walking::new_note))]
pub(crate) fn new_note(
    scope: &Scope,
    walk: &mut Walk,
    owner: Option<FnId>,
    at: Spot,
    before: SharedList<InScope>,
) -> Result<(), AllocError>
    ensures value { Walks (spec.new_note owner at before (names_of scope.now) (spec.made_of walk.old)) result (names_of scope.now) walk.old walk.new }
    ensures room { IfOk result (λ _. Grows 0 walk.old walk.new) }
    ensures numbered { IfOk result (λ _. Numbered none none walk.old walk.new) }
{
    let names = InScopes::new(scope.declared.share()?);
    let before = InScopes::new(before);
    walk.notes.push(NoteSpot {
        at,
        owner,
        names,
        before,
    })?;
    Ok(())
}
