//! What was recorded of each property, summed up.

ghost use Rattle.std.specs.Prelude.{◌≡◌, [], ◌∷◌, true, IfOk, OnOk, replicate, slice_get};
ghost use Rattle.c_runs.specs.Visits.{Named};
ghost use Rattle.eva_rules.specs.Entries as entries;
ghost use Rattle.eva_run.specs.Code.{put_in, tally_with};

use int_interval::Said;
use prop_set::PropSet;
use sqlite_items::Items;
use std::alloc::{AllocError, Global};

/// The records of a property, summed up: whether each says yes or is unreached, whether each says no or is unreached,
/// and all that was used by then.
#[derive(Debug, Drop)]
pub(crate) struct Tally {
    pub(crate) may_hold: bool,
    pub(crate) may_fail: bool,
    pub(crate) used: PropSet,
}

/// One for each property, by its number.
pub(crate) type Tallies = Items<Tally>;

/// So many properties without records.
pub(crate) fn no_records(alloc: Global, count: usize) -> Result<Tallies, AllocError>
    ensures { IfOk result (λ ts. ts ≡ replicate count (record { may_hold = true; may_fail = true; used = [] })) }
{
    let mut all = Items::new(alloc);
    for _number in 0..count {
        all.push(Tally {
            may_hold: true,
            may_fail: true,
            used: PropSet::new(alloc),
        })?;
    }
    Ok(all)
}

fn may_hold(said: Said) -> bool
    ensures { result ≡ entries.may_hold said }
{
    match said {
        Said::Yes | Said::Unreached => true,
        Said::No | Said::Maybe => false,
    }
}

fn may_fail(said: Said) -> bool
    ensures { result ≡ entries.may_fail said }
{
    match said {
        Said::No | Said::Unreached => true,
        Said::Yes | Said::Maybe => false,
    }
}

/// The tally with one record more.
fn with_record(
    alloc: Global,
    tally: &Tally,
    said: Said,
    used: &PropSet,
) -> Result<Tally, AllocError>
    ensures { IfOk result (λ t. (n : Named) → t ≡ tally_with tally.now (record { named = n; said = said; used = used.now })) }
{
    let mut all = tally.used.copy(alloc)?;
    all.join(used)?;
    Ok(Tally {
        may_hold: tally.may_hold && may_hold(said),
        may_fail: tally.may_fail && may_fail(said),
        used: all,
    })
}

/// Adds a record to those of the property with this number, if there is one.
pub(crate) fn put(
    alloc: Global,
    table: &mut Tallies,
    number: u32,
    said: Said,
    used: &PropSet,
) -> Result<(), AllocError>
    ensures { OnOk result ((n : Named) → table.new ≡ put_in table.old number (record { named = n; said = said; used = used.now }) (slice_get table.old number)) }
{
    let place = number as usize;
    let tally = match table.get(place) {
        None => return Ok(()),
        Some(tally) => with_record(alloc, tally, said, used)?,
    };
    table.set(place, tally);
    Ok(())
}
