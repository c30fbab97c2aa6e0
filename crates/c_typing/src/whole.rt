//! Whole texts.

ghost use Rattle.std.specs.Prelude.{◌≡◌, ◌+◌, ◌*◌, ◌<◌, ◌≤◌, ◌^◌, ℕ, None, IfOk, length};
ghost use Rattle.c_ast.specs.Weight.{weight_of_unit};
ghost use Rattle.c_typing.specs.FileScope.{declared_of};
ghost use Rattle.c_typing.specs.Functions.{AreRoomy};
ghost use Rattle.c_typing.specs.Texts.{HasFileRoom, first_breach, nothing, walk_of};
ghost use Rattle.c_typing.specs.Walking.{names_of};

use crate::file::File;
use crate::scope::Scope;
use crate::text::items;
use crate::walk::Walk;
use c_ast::Unit;
use c_rules::Found;
use shared_list::SharedList;
use sqlite_items::Items;
use std::alloc::{AllocError, Global};
use std::collections::BTreeMap;

/// At the beginning of a text nothing is declared.
fn begin(alloc: Global) -> File
    ensures declared { declared_of result ≡ nothing }
    ensures first { result.walk.found.first ≡ None }
    ensures roomy { AreRoomy (names_of result.scope).env }
    ensures room { (n : ℕ) → n < 2 ^ 32 → HasFileRoom n result }
{
    File {
        scope: Scope {
            names: BTreeMap::new(alloc),
            declared: SharedList::new(),
        },
        walk: Walk {
            found: Found::new(alloc),
            points: Items::new(alloc),
            objects: Items::new(alloc),
            cells: 0,
            notes: Items::new(alloc),
        },
        functions: Items::new(alloc),
        definitions: Vec::new(alloc),
        starts: Items::new(alloc),
        constants: Items::new(alloc),
    }
}

/// What a text declares, and its first breach, if it has one.
///
/// Typing follows C11 6.3 and 6.5 to 6.9 for integers and arrays of integers. The first breach is the one with the
/// least place, and at one place the one whose kind has the lowest number: `Unknown`, `Twice`, `BadType`, `Arity`,
/// `SideEffect`, `ConstWrite`. The error is want of memory. The tree is that of a text of at most 4 MiB. A typed
/// expression is as deep as its tree, and this recurses as deep.
#[tactic(auto, using(crate::proofs::Rooms::text_room))]
pub fn walked(alloc: Global, unit: &Unit) -> Result<File, AllocError>
    requires { weight_of_unit unit.now ≤ 4194304 }
    ensures declared { IfOk result (λ f. declared_of f ≡ (walk_of unit.now).declared) }
    ensures first { IfOk result (λ f. f.walk.found.first ≡ first_breach unit.now) }
    ensures room { IfOk result (λ f. length f.walk.points + 2 * length f.functions < 2 ^ 32) }
{
    let mut file = begin(alloc);
    items(alloc, &mut file, unit.items.as_slice())?;
    Ok(file)
}
