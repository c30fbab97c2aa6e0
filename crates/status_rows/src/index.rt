//! Which properties an emission may reach.

ghost use Rattle.std.specs.Prelude.{◌≡◌, ◌<◌, ◌++◌, IfOk, OnOk, length, true};
ghost use Rattle.status_rows.specs.Index.{AreNoted, Grown, MembersCover, gathered, has, listed, reached_by};
ghost use Rattle.status_rows.specs.inner.Noted.{IsMember, Longer};

use c_ir::PropTable;
use fc_base::PropId;
use std::alloc::{AllocError, Global};

/// For each property of kind Dead those of whose points it is.
pub fn members(alloc: Global, props: &PropTable) -> Result<Vec<Vec<u32>>, AllocError>
    ensures { IfOk result (λ lists. MembersCover props.now lists.items) }
{
    let mut lists = users(alloc, props)?;
    for place in 0..props.len() {
        note_member(&mut lists, props, PropId(place))?;
    }
    Ok(lists)
}

/// Notes a property at the one of kind Dead at its point.
fn note_member(lists: &mut Vec<Vec<u32>>, props: &PropTable, prop: PropId) -> Result<(), AllocError>
    requires { prop.0 < length props.now.rows }
    ensures grown { Grown lists.old.items lists.new.items }
    ensures noted { OnOk result (length lists.old.items ≡ length props.now.rows → IsMember props.now lists.new.items prop.0) }
{
    if let Some(dead) = props.dead_of(prop) {
        note_user(lists, prop, dead)?;
    }
    Ok(())
}

/// For each property no user yet.
pub fn users(alloc: Global, props: &PropTable) -> Result<Vec<Vec<u32>>, AllocError>
    ensures { IfOk result (λ lists. length lists.items ≡ length props.now.rows) }
{
    let mut lists = Vec::new(alloc);
    for _row in props.rows() {
        lists.push(Vec::new(alloc))?;
    }
    Ok(lists)
}

/// The properties that an emission on a property may reach.
pub fn reached(
    alloc: Global,
    members: &[Vec<u32>],
    users: &[Vec<u32>],
    prop: PropId,
) -> Result<Vec<u32>, AllocError>
    ensures { IfOk result (λ qs. qs.items ≡ reached_by members.now users.now prop.0) }
{
    let near = gathered(alloc, members, &[prop.0])?;
    let leaning = gathered(alloc, users, &near)?;
    gathered(alloc, members, &leaning)
}

/// These numbers and what their lists have.
fn gathered(alloc: Global, lists: &[Vec<u32>], numbers: &[u32]) -> Result<Vec<u32>, AllocError>
    ensures { IfOk result (λ qs. qs.items ≡ gathered lists.now numbers.now) }
{
    let mut all = Vec::from_slice(alloc, numbers)?;
    for number in numbers {
        push_listed(&mut all, lists, *number)?;
    }
    Ok(all)
}

/// Adds what the list of a number has.
fn push_listed(all: &mut Vec<u32>, lists: &[Vec<u32>], number: u32) -> Result<(), AllocError>
    ensures { OnOk result (all.new.items ≡ all.old.items ++ listed lists.now number) }
{
    if let Some(list) = lists.get(number as usize) {
        all.extend_from_slice(list)?;
    }
    Ok(())
}

/// Notes a property as one that names these. After a failure some of them may have it.
pub fn note_users(
    users: &mut Vec<Vec<u32>>,
    prop: PropId,
    hyps: &[PropId],
) -> Result<(), AllocError>
    ensures grown { Grown users.old.items users.new.items }
    ensures noted { OnOk result (AreNoted prop.0 hyps.now users.old.items users.new.items) }
{
    for hyp in hyps {
        note_user(users, prop, *hyp)?;
    }
    Ok(())
}

/// Notes a property at another.
fn note_user(users: &mut Vec<Vec<u32>>, prop: PropId, hyp: PropId) -> Result<(), AllocError>
    ensures grown { Grown users.old.items users.new.items }
    ensures noted { OnOk result (hyp.0 < length users.old.items → has prop.0 (listed users.new.items hyp.0) ≡ true) }
{
    if let Some(list) = users.get_mut(hyp.0 as usize) {
        push_if_missing(list, prop.0)?;
    }
    Ok(())
}

/// Adds a number to a list that hasn't it.
fn push_if_missing(list: &mut Vec<u32>, number: u32) -> Result<(), AllocError>
    ensures kept { Longer list.old.items list.new.items }
    ensures there { OnOk result (has number list.new.items ≡ true) }
{
    if !list.contains(&number) {
        list.push(number)?;
    }
    Ok(())
}
