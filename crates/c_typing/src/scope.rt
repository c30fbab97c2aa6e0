//! The names in scope (C11 6.2.1), and how the declarations of a block are taken back.

ghost use Rattle.std.specs.Prelude.{◌≡◌, ◌∷◌, ℕ, List, IfOk, Option, Some};
ghost use Rattle.std.specs.BTreeMap.{get_by_text};
ghost use Rattle.c_typing.specs.Walking.{put, undone};

use c_ir::InScope;
use c_rules::{Entry, Names};
use fc_base::Name;
use shared_list::SharedList;
use sqlite_items::Items;
use std::alloc::{AllocError, Global};

/// What names stand for, and the objects that are in scope.
#[derive(Debug, Drop)]
pub struct Scope {
    pub names: Names,
    /// The newest first.
    pub declared: SharedList<InScope>,
}

/// What a name stood for before a declaration.
#[derive(Debug, Drop)]
pub struct Undo {
    pub name: Name,
    pub before: Option<Entry>,
}

/// Lets a name stand for something, or for nothing; the answer is what it stood for before.
pub(crate) fn set(
    alloc: Global,
    names: &mut Names,
    name: &Name,
    entry: Option<Entry>,
) -> Result<Option<Entry>, AllocError>
    ensures before { IfOk result (λ before. before ≡ get_by_text names.old name.now) }
    ensures after { IfOk result (λ _. get_by_text names.new ≡ put name.now entry (get_by_text names.old)) }
{
    match entry {
        None => Ok(names.remove(name.as_str())),
        Some(entry) => Ok(names.insert(String::from_str(alloc, name.as_str())?, entry)?),
    }
}

/// Lets a name stand for something in the block of this log.
pub(crate) fn name_is(
    alloc: Global,
    names: &mut Names,
    log: &mut Items<Undo>,
    name: &Name,
    entry: Entry,
) -> Result<(), AllocError>
    ensures after { IfOk result (λ _. get_by_text names.new ≡ put name.now (Some entry) (get_by_text names.old)) }
    ensures kept { IfOk result (λ _. undone log.new (get_by_text names.new) ≡ undone log.old (get_by_text names.old)) }
{
    let before = set(alloc, names, name, Some(entry))?;
    let name = name.copy(alloc)?;
    log.push(Undo { name, before })?;
    Ok(())
}

/// Takes the declarations of a block back.
pub(crate) fn take_back(
    alloc: Global,
    names: &mut Names,
    log: Items<Undo>,
) -> Result<(), AllocError>
    ensures { IfOk result (λ _. get_by_text names.new ≡ undone log (get_by_text names.old)) }
{
    let mut log = log;
    while let Some(last) = log.pop() {
        let Undo { name, before } = last;
        set(alloc, names, &name, before)?;
    }
    Ok(())
}

/// An object is in scope from now on.
pub(crate) fn in_scope(alloc: Global, scope: &mut Scope, object: InScope) -> Result<(), AllocError>
    ensures { IfOk result (λ _. (scope.new.declared ≡ object ∷ scope.old.declared) × (scope.new.names ≡ scope.old.names)) }
{
    scope.declared = scope.declared.share()?.with(alloc, object)?;
    Ok(())
}
