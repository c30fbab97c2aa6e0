//! Histories on small examples.

use crate::{Change, Entry, History, values_stay};
use fc_base::{Bounded, EmitterId, LocalStatus, ParamSet, ParamValues, PropId};
use sqlite_items::Items;
use std::alloc::{AllocError, Global};

/// Parameters 9, 4 and a number past the last are set, between a registration and an entry.
fn history(alloc: Global) -> Result<History, AllocError> {
    let mut changes = Items::new(alloc);
    changes.push(Change::Param {
        number: 9,
        value: 5,
    })?;
    changes.push(Change::Register {
        name: Bounded::new(alloc, "nine")?,
        correctness: ParamSet(512),
    })?;
    changes.push(Change::Param {
        number: 4,
        value: 2,
    })?;
    changes.push(Change::Emit(Entry {
        emitter: EmitterId(4),
        prop: PropId(0),
        status: LocalStatus::True,
        hyps: Items::new(alloc),
        version: 1,
    }))?;
    changes.push(Change::Param {
        number: 16,
        value: 7,
    })?;
    let opening = ParamValues { values: [0; 16] };
    Ok(History { opening, changes })
}

#[test]
fn values_at_each_version(rt: HostRuntime) -> Result<(), AllocError> {
    let alloc = rt.alloc();
    let history = history(alloc)?;
    assert_eq!(rt; history.version(), 3);
    let nines = [0, 5, 5, 5];
    let fours = [0, 0, 2, 2];
    let versions = history.values_by_version(alloc)?;
    assert_eq!(rt; versions.len(), 4);
    for (version, values) in versions.iter().enumerate() {
        if version < 4 {
            assert!(rt; values.get(9) == nines[version] && values.get(4) == fours[version]);
        }
    }
    let end = history.values();
    assert!(rt; end.get(9) == 5 && end.get(4) == 2 && end.get(15) == 0);
    values_stay();
    Ok(())
}
