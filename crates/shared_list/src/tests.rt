//! Lists of numbers and of declared names: walked, shared, extended apart and dropped.

ghost use Rattle.std.specs.Prelude.{◌≡◌, ◌∷◌, IfOk, None, bytes_eq};
ghost use Rattle.std.specs.List.{list_any};

use super::*;
use std::test::Fail;

/// A name, which contracts see as the list of its bytes.
#[derive(Debug, Drop)]
struct Name {
    text: String,
}

impl Model for Name {
    ghost use Rattle.std.specs.Prelude.{List, ℕ, string_bytes};

    ghost Value = { List ℕ };

    ghost view = { λ n. string_bytes n.text };
}

impl Name {
    fn new(alloc: Global, text: &str) -> Result<Name, AllocError>
        ensures { IfOk result (λ n. n ≡ text.now) }
    {
        let text = String::from_str(alloc, text)?;
        Ok(Name { text })
    }

    fn as_str(&self) -> &str
        ensures { result.now ≡ self.now }
    {
        self.text.as_str()
    }
}

/// A declared object: the number of its first cell, and how many elements it has, if it is an array.
#[derive(Debug, Drop)]
struct Declared {
    name: Name,
    first: u32,
    length: Option<u32>,
}

type Scope = SharedList<Declared>;

/// The scope with one more object, which is no array.
fn declare(alloc: Global, scope: Scope, name: &str, first: u32) -> Result<Scope, AllocError>
    ensures { IfOk result (λ l. l ≡ record { name = name.now; first = first; length = None } ∷ scope) }
{
    let name = Name::new(alloc, name)?;
    scope.with(
        alloc,
        Declared {
            name,
            first,
            length: None,
        },
    )
}

/// Whether an object of that name is in scope.
fn is_declared(scope: &Scope, name: &str) -> bool
    ensures { result ≡ list_any (λ o. bytes_eq o.name name.now) scope.now }
{
    let mut rest = scope;
    while let Some((object, older)) = rest.split() {
        if object.name.as_str() == name {
            return true;
        }
        rest = older;
    }
    false
}

/// The first cell of the newest object of that name.
fn first_cell(scope: &Scope, name: &str) -> Option<u32> {
    let mut rest = scope;
    while let Some((object, older)) = rest.split() {
        if object.name.as_str() == name {
            return Some(object.first);
        }
        rest = older;
    }
    None
}

/// A list to which these numbers were added, in this order.
fn list_of(alloc: Global, numbers: &[u32]) -> Result<SharedList<u32>, AllocError> {
    let mut list = SharedList::new();
    for number in numbers {
        list = list.with(alloc, *number)?;
    }
    Ok(list)
}

/// Whether a walk meets exactly these numbers, in this order.
fn walks(list: &SharedList<u32>, numbers: &[u32]) -> bool {
    let mut rest = list;
    for number in numbers {
        match rest.split() {
            Some((item, older)) if *item == *number => rest = older,
            _ => return false,
        }
    }
    rest.is_empty()
}

#[test]
fn a_new_list_is_empty(rt: HostRuntime) -> Result<(), Fail> {
    let list: SharedList<u32> = SharedList::new();
    let again = list.share()?;
    assert!(rt; list.is_empty() && list.split().is_none());
    assert!(rt; again.is_empty());
    Ok(())
}

#[test]
fn a_walk_begins_at_the_newest_item(rt: HostRuntime) -> Result<(), Fail> {
    let list = list_of(rt.alloc(), &[3, 1, 4, 1, 5])?;
    assert!(rt; !list.is_empty());
    assert!(rt; walks(&list, &[5, 1, 4, 1, 3]));
    assert!(rt; !walks(&list, &[5, 1, 4, 1]));
    Ok(())
}

#[test]
fn two_lists_extend_one_tail_apart(rt: HostRuntime) -> Result<(), Fail> {
    let base = list_of(rt.alloc(), &[1, 2])?;
    let left = base.share()?.with(rt.alloc(), 3)?;
    let right = base.share()?.with(rt.alloc(), 4)?.with(rt.alloc(), 5)?;
    assert!(rt; walks(&left, &[3, 2, 1]));
    assert!(rt; walks(&right, &[5, 4, 2, 1]));
    drop(left);
    assert!(rt; walks(&base, &[2, 1]));
    drop(base);
    assert!(rt; walks(&right, &[5, 4, 2, 1]));
    Ok(())
}

#[test]
fn an_inner_block_hides_a_name_of_the_outer(rt: HostRuntime) -> Result<(), Fail> {
    let heap = rt.alloc();
    let outer = declare(heap, SharedList::new(), "x", 0)?;
    let outer = declare(heap, outer, "y", 1)?;
    let inner = declare(heap, outer.share()?, "x", 2)?;
    let inner = declare(heap, inner, "z", 3)?;
    assert!(rt; first_cell(&inner, "x") == Some(2) && first_cell(&inner, "y") == Some(1));
    assert!(rt; is_declared(&inner, "z") && !is_declared(&outer, "z"));
    drop(inner);
    assert!(rt; first_cell(&outer, "x") == Some(0));
    Ok(())
}

#[test]
fn ten_thousand_places_share_a_thousand_names(rt: HostRuntime) -> Result<(), Fail> {
    let heap = rt.alloc();
    let mut scope = SharedList::new();
    for cell in 0..1000 {
        scope = declare(heap, scope, "object", cell)?;
    }
    let mut places: Vec<Scope> = Vec::new(heap);
    for cell in 1000..11000 {
        places.push(declare(heap, scope.share()?, "local", cell)?)?;
    }
    drop(scope);
    assert!(rt; places.len() == 10000);
    let Some(last) = places.pop() else {
        return Err(Fail::new("no place is left"));
    };
    assert!(rt; first_cell(&last, "local") == Some(10999));
    assert!(rt; first_cell(&last, "object") == Some(999));
    Ok(())
}

#[test]
fn a_million_items_are_dropped(rt: HostRuntime) -> Result<(), Fail> {
    let mut list = SharedList::new();
    for number in 0..1_000_000u32 {
        list = list.with(rt.alloc(), number)?;
    }
    assert!(rt; !list.is_empty());
    drop(list);
    Ok(())
}
