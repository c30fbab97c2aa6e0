//! Graphs with their answers.

ghost use Rattle.std.specs.Prelude.{◌≡◌, ◌<◌, ◌^◌, ℕ, true, length, slice_index, EachIndex};
ghost use Rattle.call_cycles.specs.Calls.{InRange};

use crate::graph::callees_of;
use crate::{chains_end, chains_of_callees, first_on_cycle};
use sqlite_items::Items;
use std::alloc::{AllocError, Global};
use std::process::Abort;

/// Whether each of a function's callees is below `count`.
fn are_below(callees: &[u32], count: usize) -> bool
    ensures { result ≡ true → EachIndex callees.now (λ i. slice_index callees.now i < count) }
{
    for callee in callees {
        if *callee as usize >= count {
            return false;
        }
    }
    true
}

/// Whether each callee is a function's number.
fn is_in_range(calls: &[Items<u32>]) -> bool
    requires few { length calls.now < 2 ^ 32 }
    ensures { result ≡ true → InRange calls.now }
{
    for function in 0..calls.len() as u32 {
        if !are_below(callees_of(calls, function), calls.len()) {
            return false;
        }
    }
    true
}

/// The answer for a graph that is in range.
fn answer(rt: &impl Abort, alloc: Global, calls: &[Items<u32>]) -> Result<Option<u32>, AllocError> {
    assert!(rt; calls.len() < 4_294_967_296);
    assert!(rt; is_in_range(calls));
    first_on_cycle(alloc, calls)
}

fn graph(alloc: Global, rows: &[&[u32]]) -> Result<Vec<Items<u32>>, AllocError> {
    let mut calls = Vec::new(alloc);
    for row in rows {
        calls.push(Items::from_slice(alloc, row)?)?;
    }
    Ok(calls)
}

/// Functions each of which but the last calls the next, and the last `last`.
fn chain(alloc: Global, count: u32, last: &[u32]) -> Result<Vec<Items<u32>>, AllocError> {
    let mut calls = Vec::new(alloc);
    for function in 1..count {
        calls.push(Items::from_slice(alloc, &[function])?)?;
    }
    calls.push(Items::from_slice(alloc, last)?)?;
    Ok(calls)
}

#[test]
fn small_graphs(rt: HostRuntime) -> Result<(), AllocError> {
    let table: [(&str, &[&[u32]], Option<u32>); 19] = [
        ("no function", &[], None),
        ("no call", &[&[]], None),
        ("a self call", &[&[0]], Some(0)),
        ("two that call each other", &[&[1], &[0]], Some(0)),
        (
            "two of which one calls the other twice",
            &[&[], &[0, 0]],
            None,
        ),
        (
            "a cycle that a lower number reaches",
            &[&[1], &[2], &[3], &[1]],
            Some(1),
        ),
        (
            "a cycle that a lower number reaches after an end",
            &[&[1, 2], &[], &[3], &[2]],
            Some(2),
        ),
        ("a self call of the last", &[&[1], &[2], &[2]], Some(2)),
        ("two cycles", &[&[3], &[2], &[1], &[4], &[3]], Some(1)),
        (
            "two cycles with one function in common",
            &[&[], &[2, 3], &[1], &[1]],
            Some(1),
        ),
        ("a diamond", &[&[1, 2], &[3], &[3], &[]], None),
        (
            "a diamond with a way back",
            &[&[1, 2], &[3], &[3], &[1]],
            Some(1),
        ),
        (
            "three components, the lowest of which is no cycle",
            &[&[3], &[2], &[1], &[4], &[5], &[3]],
            Some(1),
        ),
        (
            "a component that a lower number reaches after another closed",
            &[&[3, 1], &[2], &[1], &[3]],
            Some(1),
        ),
        (
            "a call of an open function that is no caller",
            &[&[3], &[2], &[3], &[2, 1]],
            Some(1),
        ),
        (
            "a call of a closed function on a cycle",
            &[&[2, 1], &[2], &[2]],
            Some(2),
        ),
        (
            "a call of a closed function from a later one on a cycle",
            &[&[], &[2, 0], &[3], &[0, 1]],
            Some(1),
        ),
        (
            "a call of an open function before a call of a closed one",
            &[&[1], &[2, 3], &[1, 3], &[]],
            Some(1),
        ),
        (
            "two cycles, the one inside the other",
            &[&[1], &[2], &[1, 3], &[0]],
            Some(0),
        ),
    ];
    for (name, rows, want) in table {
        let calls = graph(rt.alloc(), rows)?;
        assert!(rt; answer(&rt, rt.alloc(), &calls)? == want, "{name}");
    }
    chains_end();
    chains_of_callees();
    Ok(())
}

#[test]
fn long_chains(rt: HostRuntime) -> Result<(), AllocError> {
    for (count, last, want) in [
        (2_000, &[] as &[u32], None),
        (2_000, &[0], Some(0)),
        (2_000, &[1_500], Some(1_500)),
        (1_501, &[1_500], Some(1_500)),
    ] {
        let calls = chain(rt.alloc(), count, last)?;
        assert!(rt; answer(&rt, rt.alloc(), &calls)? == want);
    }
    Ok(())
}
