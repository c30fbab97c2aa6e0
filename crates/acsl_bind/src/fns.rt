//! All functions.

ghost use Rattle.std.specs.Prelude.{◌≡◌, [], position};
ghost use Rattle.std.specs.BTreeMap.{get};
ghost use Rattle.acsl_bind.specs.Placing.{Places, made_of};
ghost use Rattle.acsl_bind.specs.Programs.{functions_from};
ghost use Rattle.acsl_bind.specs.inner.Texts.{text};

use crate::contracts::{first_contracts, function};
use crate::source::Source;
use crate::walk::Walk;
use c_ast::Annot;
use c_ir::{Fun, Funs};
use fc_base::FnId;
use sqlite_items::Items;
use std::alloc::{AllocError, Global};
use std::mem;

/// The functions with their contracts and notes, and for each of them the new numbers of its points. Functions whose
/// numbers no longer fit into 32 bits count as want of memory.
#[tactic(auto, using(crate::proofs::Nexts::one_function))]
pub(crate) fn functions(
    alloc: Global,
    walk: &mut Walk,
    source: &Source,
    annots: &[Annot],
    fns: &[Fun],
) -> Result<(Funs, Items<Items<u32>>), AllocError>
    ensures { Places (functions_from (text source.now annots.now) 0 fns.now [] [] (made_of walk.old)) result walk.old walk.new }
{
    let contracts = first_contracts(alloc, source.spots.as_slice(), annots)?;
    let mut done = Items::new(alloc);
    let mut moves = Items::new(alloc);
    let mut number = 0u32;
    let mut rest = fns;
    while let Some((f, more)) = rest.split_first() {
        let contract = contracts.get(&number).copied();
        done.push(function(alloc, walk, source, annots, contract, FnId(number), f)?)?;
        moves.push(mem::replace(&mut walk.moved, Items::new(alloc)))?;
        let Some(next) = number.checked_add(1) else {
            return Err(AllocError);
        };
        number = next;
        rest = more;
    }
    Ok((done, moves))
}
