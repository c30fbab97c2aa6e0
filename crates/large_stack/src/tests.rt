//! Recursion that a thread's usual stack doesn't hold, and a promise that is kept.

ghost use Rattle.std.specs.Prelude.{◌≡◌, ◌*◌};

use crate::on_large_stack;
use core::thread::Anything;
use std::alloc::{AllocError, Global};
use std::sync::Wait;
use std::thread::{Promise, Threads};

const LINKS: u32 = 2000000;

/// A chain of boxes, one in another.
#[derive(Drop)]
enum Chain {
    End,
    Link(Box<Chain>),
}

fn linked(alloc: Global, links: u32) -> Result<Chain, AllocError> {
    let mut chain = Chain::End;
    for _ in 0..links {
        chain = Chain::Link(Box::new(alloc, chain)?);
    }
    Ok(chain)
}

/// How many boxes there are, by plain recursion.
fn depth(chain: &Chain) -> u32 {
    match chain {
        Chain::End => 0,
        Chain::Link(inner) => depth(inner).saturating_add(1),
    }
}

fn built_depth(alloc: Global, links: u32) -> u32 {
    match linked(alloc, links) {
        Ok(chain) => depth(&chain),
        Err(_) => 0,
    }
}

/// The square of this number.
#[derive(Clone, Copy)]
struct SquareOf(u32);

impl Promise<u64> for SquareOf {
    ghost kept_by = { λ p r. r ≡ p.0 * p.0 };
}

fn square(x: u32) -> u64
    ensures { result ≡ x * x }
{
    u64::from(x) * u64::from(x)
}

fn square_there<R: Threads + Wait>(rt: &R, x: u32) -> u64
    ensures { result ≡ x * x }
{
    on_large_stack(rt, SquareOf(x), move || square(x))
}

#[test]
fn walks_and_drops_a_deep_chain(rt: HostRuntime) {
    let alloc = rt.alloc();
    let found = on_large_stack(&rt, Anything, move || built_depth(alloc, LINKS));
    assert!(rt; found == LINKS);
}

#[test]
fn keeps_a_promise(rt: HostRuntime) {
    assert!(rt; square_there(&rt, 65537) == 4295098369);
}
